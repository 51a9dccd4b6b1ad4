ghost use Rattle.std.specs.Prelude.{◌≡◌, ◌-◌, ◌<◌, ◌∷◌, ◌++◌, Some, IfOk, length, replicate, slice_get};
ghost use Rattle.logic_term.specs.TyView.{tys_of};
ghost use Rattle.mir_ir.specs.declared.body.Body.{Body as TheBody};
ghost use Rattle.mir_machine.specs.Good.{called};
ghost use Rattle.mir_machine.specs.Step.{entered};
ghost use Rattle.mir_machine.specs.Tree.{Gone};

use crate::args::Args;
use crate::frame::{Frame, State};
use crate::tree::{Tree, TreeNode};
use logic_term::{Label, Ty};
use mir_ir::{Bodies, Body};
use std::alloc::Global;
use text_core::NoMemory;

/// What a move leaves.
pub fn gone() -> Tree
    ensures { result ≡ Gone }
{
    Tree {
        node: TreeNode::Gone,
    }
}

/// The locals of a body with `count` locals as a call of it begins.
fn entry_locals(alloc: Global, args: Vec<Tree>, count: usize) -> Result<Vec<Tree>, NoMemory>
    ensures { IfOk result
        (λ locals. locals.items ≡ Gone ∷ (args.items ++ replicate (count - 1 - length args.items) Gone)) }
{
    let others = (count.saturating_sub(1)).saturating_sub(args.len());
    let mut locals = Vec::with_capacity(alloc, count)?;
    locals.push(gone())?;
    for arg in args {
        locals.push(arg)?;
    }
    for _ in 0..others {
        locals.push(gone())?;
    }
    Ok(locals)
}

/// The frame of a call of the body as it begins.
pub fn entered(
    alloc: Global,
    body: &Body,
    function: u32,
    types: Vec<Ty>,
    args: Vec<Tree>,
) -> Result<Frame, NoMemory>
    ensures { IfOk result (λ f. f ≡ entered body.now function (tys_of types.items) args.items) }
{
    Ok(Frame {
        function,
        types,
        label: body.entry,
        statement: 0,
        locals: entry_locals(alloc, args, body.locals.len())?,
    })
}

/// The state in which a call of a body begins.
pub fn call(
    alloc: Global,
    bodies: &Bodies,
    function: u32,
    types: Vec<Ty>,
    args: Args,
) -> Result<State, NoMemory>
    requires { function < length bodies.now.bodies }
    ensures { IfOk result
        (λ state. (b : TheBody) → slice_get bodies.now.bodies function ≡ Some b →
        state ≡ called b function (tys_of types.items) args.values args.outside) }
{
    let body = &bodies.bodies.as_slice()[function as usize];
    let Args { values, outside } = args;
    let running = entered(alloc, body, function, types, values.into_vec())?;
    let outside = Frame {
        function: 0,
        types: Vec::new(alloc),
        label: Label(0),
        statement: 0,
        locals: outside.into_vec(),
    };
    let mut behind = Vec::with_capacity(alloc, 1)?;
    behind.push(outside)?;
    Ok(State { running, behind })
}
