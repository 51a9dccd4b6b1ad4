//! Loop heads: what a loop touches has new values there.
ghost use Rattle.std.specs.Prelude.{◌≡◌, ◌++◌, cond, length, IfOk};
ghost use Rattle.mir_ir.specs.Layout.{among};
ghost use Rattle.prophecy_logic.specs.Command.{assumed};
ghost use Rattle.prophecy_logic.specs.Loop.{renewal, renewals, head_commands};
ghost use Rattle.wp_gen.specs.Marks.{touch_by};

use crate::call::with_assumed;
use crate::marks::{gone_marks, written_marks};
use crate::row::name_of;
use logic_term::{Label, Ty};
use mir_ir::{Body, Head, Initialised};
use prophecy_logic::{Command, Touch};
use std::alloc::Global;
use text_core::NoMemory;

/// Whether the label is one of these.
pub(crate) fn among(label: Label, labels: &[Label]) -> bool
    ensures { result ≡ among label labels.now }
{
    labels.iter().any(|other| other.0 == label.0)
}

/// What is done to a local that is there if it is written.
fn touch_of(is_gone: bool, is_written: bool) -> Touch
    ensures { result ≡ cond is_gone Touch.Untouched (cond is_written Touch.Whole Touch.Untouched) }
{
    if is_written && !is_gone {
        Touch::Whole
    } else {
        Touch::Untouched
    }
}

/// What a head does to a local of the type, behind other commands.
fn with_renewal(
    alloc: Global,
    first: Vec<Command>,
    body: &Body,
    touch: Touch,
    x: u32,
    ty: &Ty,
) -> Result<Vec<Command>, NoMemory>
    ensures { IfOk result (λ v. v.items ≡ first.items ++ renewal body.now touch x ty.now) }
{
    match touch {
        Touch::Untouched => Ok(first),
        Touch::Whole => {
            let mut all = first;
            all.push(Command::Fresh(name_of(body, x), ty.copy(alloc)?))?;
            Ok(all)
        }
    }
}

/// What a head does to all locals, by the marks of those that are gone and of those that are written.
fn all_renewals(
    alloc: Global,
    body: &Body,
    gone: &[bool],
    written: &[bool],
) -> Result<Vec<Command>, NoMemory>
    requires gone { length gone.now ≡ length body.now.locals }
    requires written { length written.now ≡ length body.now.locals }
    ensures { IfOk result (λ v. v.items ≡ renewals body.now (touch_by gone.now written.now) 0 body.now.locals) }
{
    let mut commands = Vec::new(alloc);
    let mut x: u32 = 0;
    for ty in body.locals.as_slice() {
        let place = x as usize;
        let touch = touch_of(gone[place], written[place]);
        commands = with_renewal(alloc, commands, body, touch, x, ty)?;
        x = x.checked_add(1).ok_or(NoMemory)?;
    }
    Ok(commands)
}

/// The commands at a loop head.
pub(crate) fn head_commands(
    alloc: Global,
    body: &Body,
    init: &Initialised,
    label: Label,
    head: &Head,
) -> Result<Vec<Command>, NoMemory>
    ensures { IfOk result (λ v. v.items ≡ head_commands body.now init.now label head.now) }
{
    let gone = gone_marks(alloc, body, init, label)?;
    let written = written_marks(alloc, body, label)?;
    let gone_here = gone.as_slice();
    let written_here = written.as_slice();
    let commands = all_renewals(alloc, body, gone_here, written_here)?;
    with_assumed(alloc, commands, head.invariants.as_slice())
}
