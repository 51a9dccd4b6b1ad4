//! Terms that are far deeper than a stack of calls could be.
use crate::steps::{apply, obligation};
use goal_text::{Spelling, goal_text};
use logic_term::{Label2, Obligation, Sort, Term, Ty};
use proof_kernel::{Direction, GoalRule, Kernel, Rewriting, Step, StepError, Tables, Target};
use source_kinds::ArithOp;
use std::alloc::Global;
use std::test::Fail;
use text_core::{Items, Name, Names, NoMemory};

const DEPTH: u64 = 100000;

/// Of the terms into which an equation is put.
const PUT_DEPTH: u64 = 20000;

fn integers() -> Sort {
    Ty::math_int()
}

/// `((0 + n) + n) + ..`, so many times.
fn deep_left(alloc: Global, number: i128, times: u64) -> Result<Term, NoMemory> {
    let mut t = Term::integer(alloc, 0)?;
    for _ in 0..times {
        t = Term::calculate(alloc, ArithOp::Add, t, Term::integer(alloc, number)?)?;
    }
    Ok(t)
}

/// `true ==> (true ==> ..)`
fn deep_right(alloc: Global) -> Result<Term, NoMemory> {
    let mut t = Term::truth(alloc, false)?;
    for _ in 0..DEPTH {
        t = Term::implies(alloc, Term::truth(alloc, true)?, t)?;
    }
    Ok(t)
}

/// Quantifiers in one another, over different names.
fn deep_binders(alloc: Global) -> Result<Term, NoMemory> {
    let mut t = Term::var(alloc, Name(0))?;
    for number in 1..DEPTH {
        t = Term::forall(alloc, Name(number), integers(), t)?;
    }
    Ok(t)
}

/// All that goes over a term ends.
fn is_gone_over(alloc: Global, t: &Term) -> Result<bool, NoMemory> {
    let copy = t.placed(alloc, true, t.above(alloc)?, &[])?;
    let is_free = copy.free_in(alloc, Name(1))?;
    Ok(!is_free && t.same_up_to_names(alloc, &copy)?)
}

/// `1 == 2 ==> (((0 + 1) + 1) + ..) == (((0 + 2) + 2) + ..)`
fn deep_equation(alloc: Global) -> Result<Term, NoMemory> {
    let one = Term::integer(alloc, 1)?;
    let two = Term::integer(alloc, 2)?;
    let ones = deep_left(alloc, 1, PUT_DEPTH)?;
    let twos = deep_left(alloc, 2, PUT_DEPTH)?;
    let deep = Term::equal(alloc, ones, twos)?;
    Term::implies(alloc, Term::equal(alloc, one, two)?, deep)
}

/// Whether `intro`, `rewrite 1.1` and `refl` close the obligation.
fn is_closed_by_rewriting(alloc: Global, obligation: &Obligation) -> Result<bool, StepError> {
    let tables = Tables::new(alloc);
    let mut kernel = Kernel::new(alloc, obligation, &tables)?;
    apply(&mut kernel, alloc, &Step::Intro(Items::new(alloc)))?;
    let rewriting = Rewriting {
        direction: Direction::Forward,
        equation: Label2 { step: 1, part: 1 },
        target: Target::Goal,
    };
    apply(&mut kernel, alloc, &Step::Rewrite(rewriting))?;
    apply(&mut kernel, alloc, &Step::OnGoal(GoalRule::Refl))?;
    Ok(kernel.closed())
}

fn text_length(alloc: Global, t: &Term) -> Result<usize, NoMemory> {
    let names = Names::new(alloc);
    let spelling = Spelling {
        adts: &[],
        names: &names,
    };
    Ok(goal_text(alloc, &spelling, t)?.len())
}

#[test]
fn deep_on_the_left(rt: HostRuntime) -> Result<(), Fail> {
    let alloc = rt.alloc();
    let t = deep_left(alloc, 1, DEPTH)?;
    assert!(rt; is_gone_over(alloc, &t)?);
    assert!(rt; text_length(alloc, &t)? == 600001);
    Ok(())
}

#[test]
fn deep_on_the_right(rt: HostRuntime) -> Result<(), Fail> {
    let alloc = rt.alloc();
    let t = deep_right(alloc)?;
    assert!(rt; is_gone_over(alloc, &t)?);
    assert!(rt; text_length(alloc, &t)? == 1100005);
    Ok(())
}

#[test]
fn deep_in_binders(rt: HostRuntime) -> Result<(), Fail> {
    let alloc = rt.alloc();
    let t = deep_binders(alloc)?;
    assert!(rt; is_gone_over(alloc, &t)?);
    assert!(rt; t.above_free(alloc)? == 1);
    Ok(())
}

#[test]
fn an_equation_put_deep(rt: HostRuntime) -> Result<(), Fail> {
    let alloc = rt.alloc();
    let obligation = obligation(alloc, deep_equation(alloc)?)?;
    assert!(rt; is_closed_by_rewriting(alloc, &obligation)?);
    Ok(())
}
