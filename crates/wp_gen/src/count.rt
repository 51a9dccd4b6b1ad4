//! How many obligations a body has, found before one is made.
ghost use Rattle.std.specs.Prelude.{◌≡◌, ℕ, true, length, Some, drop, List};
ghost use Rattle.text_core.specs.declared.span.Span.{Span as SpanValue};
ghost use Rattle.text_core.specs.declared.refusal.Kind.TheVariants.{InvEntry};
ghost use Rattle.logic_term.specs.declared.obligation.Obligation.{Obligation as ObligationValue};
ghost use Rattle.mir_ir.specs.declared.body.Block.{Block as BlockValue};
ghost use Rattle.mir_ir.specs.declared.body.Body.{Body as BodyValue};
ghost use Rattle.mir_ir.specs.Body.{block_in};
ghost use Rattle.mir_ir.specs.Layout.{among, targets};
ghost use Rattle.wp_gen.specs.Count.{IsRoomLeft, LeavesRoom, LeavesRoomBehind, LeavesRoomAlong, goals_within, goals_of_head, IsFrom, IsAlong, IsAtEnd, LeavesRoomBefore, AreSomeObligations};
ghost use Rattle.prophecy_logic.specs.Row.{goals_of, goals_of_kind};
ghost use Rattle.prophecy_logic.specs.Walk.{each_goal, goals_at_return};
ghost use Rattle.prophecy_logic.specs.Walkable.{CanWalk};
ghost use Rattle.wp_gen.specs.Paths.{AreTargets, last_target};
ghost use Rattle.wp_gen.specs.Setting.{setting};

use crate::head::among;
use crate::paths::{before_last, last_target};
use crate::row::{is_signed, kind_of_local, operation};
use crate::walk::{Walk, contract_at};
use logic_term::{Contract, Label};
use mir_ir::{Block, Body, Head, Rvalue, Statement, StatementKind, TerminatorKind};
use prophecy_logic::Operation;
use source_kinds::IntKind;

/// The most obligations of a source.
pub const OBLIGATIONS: u32 = 1_000_000;

/// What is left of the room after so many; `None` where there are more.
fn after(room: u32, many: usize) -> Option<u32>
    ensures { IsRoomLeft room many result }
{
    if many > room as usize {
        return None;
    }
    Some(room - many as u32)
}

/// How many goals a right side has whose place has integers of the kind.
fn count_of_rvalue(kind: IntKind, rvalue: &Rvalue) -> usize
    ensures { (b : _) (at : SpanValue) → result ≡ length (goals_of_kind b (Some kind) at rvalue.now) }
{
    match rvalue {
        Rvalue::Binary(op, _, _) => match operation(*op) {
            Operation::Exact(_) => 1,
            Operation::Divided(_) if is_signed(kind) => 2,
            Operation::Divided(_) => 1,
            Operation::Compared => 0,
        },
        Rvalue::Neg(_) => 1,
        Rvalue::Use(_) | Rvalue::Not(_) | Rvalue::Widen(_, _) => 0,
        Rvalue::Make(_, _) | Rvalue::BoxNew(_) => 0,
    }
}

/// How many goals a statement has.
fn count_of_statement(body: &Body, statement: &Statement) -> usize
    ensures { result ≡ length (goals_of body.now statement.now.span statement.now.kind) }
{
    match &statement.kind {
        StatementKind::Assign(place, rvalue) => match kind_of_local(body, place.local) {
            Some(kind) => count_of_rvalue(kind, rvalue),
            None => 0,
        },
        StatementKind::Dead(_) => 0,
    }
}

/// What is left of the room after the goals of the statements.
fn after_statements(body: &Body, statements: &[Statement], room: u32) -> Option<u32>
    ensures { IsRoomLeft room (goals_within body.now statements.now) result }
{
    let mut left = room;
    for statement in statements {
        left = after(left, count_of_statement(body, statement))?;
    }
    Some(left)
}

/// How many goals an arrival at a head has.
fn count_of_head(head: &Head) -> usize
    ensures { result ≡ goals_of_head (Some head.now) }
{
    head.invariants.len()
}

/// How many goals a return has.
fn count_of_return(contract: &Contract) -> usize
    ensures { (b : BodyValue) → result ≡ length (goals_at_return b contract.now) }
{
    contract.post.len()
}

/// What is left of the room after the goals of the arrival at a block, before its statements.
fn after_arrival(body: &Body, label: Label, room: u32) -> Option<u32>
    ensures { (k : BlockValue) → block_in body.now.blocks label ≡ Some k → IsRoomLeft room (goals_of_head k.head) result }
{
    match &body.block(label)?.head {
        Some(head) => after(room, count_of_head(head)),
        None => Some(room),
    }
}

/// What is left of the room after the goals along the edge from the block to a label that its end names.
#[cycle(count)]
fn along(walk: &Walk<'_>, from: Label, block: &Block, to: Label, room: u32) -> Option<u32>
    requires can { CanWalk (setting walk.now) }
    requires here { block_in walk.now.body.now.blocks from ≡ Some block.now }
    requires edge { among to (targets block.now.end.kind) ≡ true }
    ensures { LeavesRoomBehind (IsAlong (setting walk.now) from to) room result }
{
    let left = after_arrival(walk.body, to, room)?;
    if among(to, block.nest.as_slice()) {
        return Some(left);
    }
    from_block(walk, to, left)
}

/// What is left of the room after the goals along the edges from the block to labels that its end names.
#[cycle(count)]
fn along_each(
    walk: &Walk<'_>,
    from: Label,
    block: &Block,
    labels: &[Label],
    room: u32,
) -> Option<u32>
    requires can { CanWalk (setting walk.now) }
    requires here { block_in walk.now.body.now.blocks from ≡ Some block.now }
    requires edges { AreTargets labels.now block.now.end.kind }
    ensures { LeavesRoomAlong (setting walk.now) from labels.now room result }
{
    let mut left = room;
    for to in labels {
        left = along(walk, from, block, *to, left)?;
    }
    Some(left)
}

/// What is left of the room after the goals at the block's end but those along its last edge: of a call, of the first side of a branch, of
/// the sides of a switch but the last, of a return, or of a panic.
#[cycle(count)]
fn after_end(walk: &Walk<'_>, label: Label, block: &Block, room: u32) -> Option<u32>
    requires can { CanWalk (setting walk.now) }
    requires here { block_in walk.now.body.now.blocks label ≡ Some block.now }
    ensures { LeavesRoomBefore (setting walk.now) label (last_target block.now.end.kind) (IsAtEnd (setting walk.now) label block.now) room result }
{
    match &block.end.kind {
        TerminatorKind::Goto(_) => Some(room),
        TerminatorKind::If(_, yes, _) => along(walk, label, block, *yes, room),
        TerminatorKind::Switch(_, labels) => {
            let labels = before_last(labels.as_slice());
            along_each(walk, label, block, labels, room)
        }
        TerminatorKind::Call(_, callee, _, _, _) => {
            let contract = contract_at(walk.contracts, *callee);
            after(room, contract.pre.len())
        }
        TerminatorKind::Return => after(room, count_of_return(walk.contract)),
        TerminatorKind::Panic(_) => after(room, 1),
    }
}

/// What is left of the room after the goals from the first statement of a block to its last edge.
#[cycle(count)]
fn after_block(walk: &Walk<'_>, label: Label, block: &Block, room: u32) -> Option<u32>
    requires can { CanWalk (setting walk.now) }
    requires here { block_in walk.now.body.now.blocks label ≡ Some block.now }
    ensures { LeavesRoomBefore (setting walk.now) label (last_target block.now.end.kind) (IsFrom (setting walk.now) label) room result }
{
    let left = after_statements(walk.body, block.statements.as_slice(), room)?;
    after_end(walk, label, block, left)
}

/// What is left of the room after the goals from the first statement of a block on. Blocks are gone along by a loop, and only the first side
/// of a branch takes stack.
#[cycle(count)]
fn from_block(walk: &Walk<'_>, label: Label, room: u32) -> Option<u32>
    requires can { CanWalk (setting walk.now) }
    requires there { (k : BlockValue) × (block_in walk.now.body.now.blocks label ≡ Some k) }
    ensures { LeavesRoomBehind (IsFrom (setting walk.now) label) room result }
{
    let mut here = label;
    let mut left = room;
    loop {
        let Some(block) = walk.body.block(here) else {
            unreachable!()
        };
        left = after_block(walk, here, block, left)?;
        let Some(next) = last_target(&block.end.kind) else {
            return Some(left);
        };
        left = after_arrival(walk.body, next, left)?;
        if among(next, block.nest.as_slice()) {
            return Some(left);
        }
        here = next;
    }
}

/// What is left of the room for obligations after those of the body with its contract; `None` where there are more than there is room
/// for. Takes no memory, makes no obligation, and looks at no path after the one that is too many.
pub fn room_after(walk: &Walk<'_>, room: u32) -> Option<u32>
    requires { CanWalk (setting walk.now) }
    ensures { LeavesRoom (AreSomeObligations (setting walk.now)) room result }
{
    let left = after_arrival(walk.body, walk.body.entry, room)?;
    from_block(walk, walk.body.entry, left)
}
