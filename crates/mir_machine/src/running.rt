ghost use Rattle.std.specs.Prelude.{◌≡◌, ◌<◌, ◌^◌, IsTrue, ◌↔◌};
ghost use Rattle.logic_term.specs.Sort.{instance};
ghost use Rattle.logic_term.specs.TyView.{tys_of};
ghost use Rattle.mir_ir.specs.Body.{kind_of};
ghost use Rattle.mir_machine.specs.Depth.{frame_block, StandsAtCall, IsFull, frames_behind};
ghost use Rattle.std.specs.Option.{option_copied};

use crate::frame::{Frame, State};
use logic_term::{Ty, TyNode};
use mir_ir::{Block, Bodies, TerminatorKind};
use source_kinds::IntKind;

/// The most frames that a run may have; frame 0 is not counted.
pub const FRAMES: u64 = 10_000;

fn kind_of_ground(ty: &Ty) -> Option<IntKind>
    ensures { result ≡ kind_of ty.now }
{
    match &ty.node {
        TyNode::Int(kind) => Some(*kind),
        _ => None,
    }
}

/// The integer kind of a type, at types for the type parameters.
pub fn kind_of(ty: &Ty, types: &[Ty]) -> Option<IntKind>
    ensures { result ≡ kind_of (instance (tys_of types.now) ty.now) }
{
    match &ty.node {
        TyNode::Int(kind) => Some(*kind),
        TyNode::Param(number) => match types.get(*number as usize) {
            Some(given) => kind_of_ground(given),
            None => None,
        },
        _ => None,
    }
}

/// The block in which the frame stands.
pub fn block_of<'a>(bodies: &'a Bodies, frame: &Frame) -> Option<&'a Block>
    ensures { option_copied result ≡ frame_block bodies.now frame.now }
{
    bodies
        .bodies
        .get(frame.function as usize)?
        .block(frame.label)
}

/// Whether the frame stands at a call.
fn stands_at_call(bodies: &Bodies, frame: &Frame) -> bool
    ensures { IsTrue result ↔ StandsAtCall bodies.now frame.now }
{
    let Some(block) = block_of(bodies, frame) else {
        return false;
    };
    frame.statement >= block.statements.len() && matches!(&block.end.kind, TerminatorKind::Call(..))
}

/// How many frames there are, frame 0 not counted.
pub fn frame_count(state: &State) -> u64
    ensures count { result ≡ frames_behind state.now }
    ensures bounded { result < 2 ^ 63 }
{
    state.behind.len() as u64
}

/// Whether the next step is a call that makes more frames than a run may have.
pub fn is_full(bodies: &Bodies, state: &State) -> bool
    ensures { IsTrue result ↔ IsFull bodies.now state.now }
{
    frame_count(state) >= FRAMES && stands_at_call(bodies, &state.running)
}
