//! How many paths a body has, counted up to the limit.
ghost use Rattle.std.specs.Prelude.{◌≡◌, ◌+◌, ◌≤◌, [], true, Some, IfOk, IfErr};
ghost use Rattle.mir_ir.specs.Body.{block_in};
ghost use Rattle.mir_ir.specs.Layout.{among, targets, IsLaidOut};
ghost use Rattle.mir_ir.specs.declared.body.Block.{Block as BlockValue};
ghost use Rattle.wp_gen.specs.Paths.{HasPaths, HasMorePaths, last_of, before_last, last_target, AreTargets, IsLater, CountsAlong, CountsEach, CountsFirst, CountsFrom, IsOne, IsCount};

use crate::head::among;
use logic_term::Label;
use mir_ir::{Block, Body, TerminatorKind};
use text_core::{Limit, LimitKind};

/// The most paths that a function may have.
pub const PATHS: u32 = 1024;

/// The last of the labels.
#[tactic(auto, using(crate::proofs::PathLaws::last_is))]
pub(crate) fn last_of(labels: &[Label]) -> Option<Label>
    ensures { result ≡ last_of labels.now }
{
    labels.last().copied()
}

/// Those before the last.
#[tactic(auto, using(crate::proofs::PathLaws::before_is))]
pub(crate) fn before_last(labels: &[Label]) -> &[Label]
    ensures { result.now ≡ before_last labels.now }
{
    labels.split_at(labels.len().saturating_sub(1)).0
}

/// Where the last edge from a block's end leads, which is the second side of a branch or the last one of a switch; nowhere from a return or
/// a panic.
pub(crate) fn last_target(end: &TerminatorKind) -> Option<Label>
    ensures { result ≡ last_target end.now }
{
    match end {
        TerminatorKind::Goto(next) => Some(*next),
        TerminatorKind::If(_, _, no) => Some(*no),
        TerminatorKind::Switch(_, labels) => last_of(labels.as_slice()),
        TerminatorKind::Call(_, _, _, _, next) => Some(*next),
        TerminatorKind::Return | TerminatorKind::Panic(_) => None,
    }
}

/// One path; `None` where there is no room for it.
fn one_path(room: u32) -> Option<u32>
    ensures { IsCount IsOne room result }
{
    if room == 0 { None } else { Some(1) }
}

/// Where a path goes on along the last edge from the block: to a later block, or nowhere, where the path ends.
fn later(block: &Block) -> Option<Label>
    ensures { IsLater block.now result }
{
    let next = last_target(&block.end.kind)?;
    if among(next, block.nest.as_slice()) {
        return None;
    }
    Some(next)
}

/// The number of paths with one more; `None` where it is more than `room`.
fn with_last(counted: u32, room: u32) -> Option<u32>
    requires { counted ≤ room }
    ensures { IsCount (λ early n. n ≡ counted + 1) room result }
{
    if counted == room {
        return None;
    }
    Some(counted + 1)
}

/// The number of paths along the edge from the block to a label that its end names; `None` where it is more than `room`.
#[cycle(paths)]
fn along(body: &Body, from: Label, block: &Block, to: Label, room: u32) -> Option<u32>
    requires laid_out { IsLaidOut body.now }
    requires here { block_in body.now.blocks from ≡ Some block.now }
    requires edge { among to (targets block.now.end.kind) ≡ true }
    ensures { IsCount (CountsAlong body.now from to) room result }
{
    if among(to, block.nest.as_slice()) {
        return one_path(room);
    }
    from_block(body, to, room)
}

/// The number of paths along the edges from the block to labels that its end names; `None` where it is more than `room`.
#[cycle(paths)]
fn along_each(body: &Body, label: Label, block: &Block, labels: &[Label], room: u32) -> Option<u32>
    requires laid_out { IsLaidOut body.now }
    requires here { block_in body.now.blocks label ≡ Some block.now }
    requires edges { AreTargets labels.now block.now.end.kind }
    ensures { IsCount (CountsEach body.now label labels.now) room result }
{
    let mut counted = 0;
    for to in labels {
        counted += along(body, label, block, *to, room - counted)?;
    }
    Some(counted)
}

/// The number of paths on the first side of a branch at the end of the block, or on the sides of a switch but the last, none at another end; `None`
/// where it is more than `room`.
#[cycle(paths)]
fn first_side(body: &Body, label: Label, block: &Block, room: u32) -> Option<u32>
    requires laid_out { IsLaidOut body.now }
    requires here { block_in body.now.blocks label ≡ Some block.now }
    ensures { IsCount (CountsFirst body.now label block.now.end.kind) room result }
{
    match &block.end.kind {
        TerminatorKind::If(_, yes, _) => along(body, label, block, *yes, room),
        TerminatorKind::Switch(_, labels) => {
            let labels = before_last(labels.as_slice());
            along_each(body, label, block, labels, room)
        }
        TerminatorKind::Goto(_) => Some(0),
        TerminatorKind::Call(_, _, _, _, _) => Some(0),
        TerminatorKind::Return => Some(0),
        TerminatorKind::Panic(_) => Some(0),
    }
}

/// The number of paths on from the block of the label; `None` where it is more than `room`. Blocks are gone along by a loop, and only the first
/// side of a branch takes stack.
#[cycle(paths)]
fn from_block(body: &Body, label: Label, room: u32) -> Option<u32>
    requires laid_out { IsLaidOut body.now }
    requires there { (k : BlockValue) × (block_in body.now.blocks label ≡ Some k) }
    ensures { IsCount (CountsFrom body.now label) room result }
{
    let mut here = label;
    let mut counted = 0;
    loop {
        let Some(block) = body.block(here) else {
            unreachable!()
        };
        counted += first_side(body, here, block, room - counted)?;
        let Some(next) = later(block) else {
            return with_last(counted, room);
        };
        here = next;
    }
}

/// How many paths the body has. A path is one of the walk that makes the obligations: it begins at the entry, and ends at a return,
/// at a panic or at a second arrival at a loop's head. Takes no memory, and looks at no path after the 1,025th.
///
/// `Limit` is answered where there are more than 1,024 paths: 1,025 were counted.
pub fn check_paths(body: &Body) -> Result<u32, Limit>
    requires { IsLaidOut body.now }
    ensures ok { IfOk result (λ n. HasPaths body.now [] body.now.entry n × (n ≤ 1024)) }
    ensures err { IfErr result (λ l. HasMorePaths body.now [] body.now.entry 1025 × (l ≡ record { kind = LimitKind.Paths; counted = 1025; bound = 1024 })) }
{
    match from_block(body, body.entry, PATHS) {
        Some(count) => Ok(count),
        None => Err(Limit {
            kind: LimitKind::Paths,
            counted: PATHS as u64 + 1,
            bound: PATHS as u64,
        }),
    }
}
