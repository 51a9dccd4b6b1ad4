ghost use Rattle.std.specs.Prelude.{◌≡◌, ◌+◌, ◌<◌, OnOk};

use crate::written::{X, Y, term};
use logic_term::{Context, Entry, Goal, Label2, Obligation, Term, Ty};
use proof_kernel::{Kernel, Step, StepError, Tables};
use source_kinds::IntKind;
use std::alloc::Global;
use std::test::Fail;
use text_core::{Items, Kind, NoMemory, Span, Text};

pub(crate) fn obligation(alloc: Global, goal: Term) -> Result<Obligation, NoMemory> {
    Ok(Obligation {
        owner: Text::from_bytes(alloc, b"next")?,
        number: 1,
        kind: Kind::Overflow,
        span: Span { start: 0, end: 0 },
        from: None,
        params: Items::new(alloc),
        goal: Goal::of(alloc, goal)?,
    })
}

/// Does a step, of which a test has few.
pub(crate) fn apply(kernel: &mut Kernel<'_>, alloc: Global, step: &Step) -> Result<(), StepError>
    requires { kernel.old.step < 100 }
    ensures { OnOk result (kernel.new.step ≡ kernel.old.step + 1) }
{
    kernel.apply(alloc, step)
}

/// An obligation of which an entry of the context is a premise.
fn with_an_entry(alloc: Global) -> Result<Obligation, NoMemory> {
    let context = Context::new(alloc)?;
    let context = context.and(alloc, Entry::Variable(X, Ty::int(IntKind::I32)))?;
    let context = context.and(alloc, Entry::Known(term(alloc, b"<@xc")?))?;
    let mut obligation = obligation(alloc, Term::truth(alloc, true)?)?;
    obligation.goal = Goal::new(context, term(alloc, b"<@xc")?);
    Ok(obligation)
}

/// Whether `intro y` and `hyp 1.1` close the obligation.
fn is_closed_by_its_premise(alloc: Global, obligation: &Obligation) -> Result<bool, StepError> {
    let tables = Tables::new(alloc);
    let mut kernel = Kernel::new(alloc, obligation, &tables)?;
    let intro = Step::Intro(Items::from_slice(alloc, &[Y])?);
    apply(&mut kernel, alloc, &intro)?;
    apply(&mut kernel, alloc, &Step::Hyp(Label2 { step: 1, part: 1 }))?;
    Ok(kernel.closed())
}

#[test]
fn an_entry_is_a_hypothesis(rt: HostRuntime) -> Result<(), Fail> {
    let obligation = with_an_entry(rt.alloc())?;
    assert!(rt; is_closed_by_its_premise(rt.alloc(), &obligation)?);
    Ok(())
}
