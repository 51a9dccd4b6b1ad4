//! The walk of a body's paths.
ghost use Rattle.std.specs.Prelude.{◌≡◌, ◌∷◌, [], false, drop, map, Some, IfOk};
ghost use Rattle.logic_term.specs.declared.obligation.Contract.{Contract as ContractValue};
ghost use Rattle.mir_ir.specs.Body.{block_in};
ghost use Rattle.mir_ir.specs.Callees.{contract_at};
ghost use Rattle.mir_ir.specs.Layout.{among};
ghost use Rattle.prophecy_logic.specs.Graph.{start_of, Within, Ends, Arrives};
ghost use Rattle.prophecy_logic.specs.Loop.{head_commands};
ghost use Rattle.prophecy_logic.specs.Walk.{at_answer, where_false, where_variant, goals_at_return, goals_at_panic, goals_at_entry, goals_after_turn};
ghost use Rattle.prophecy_logic.specs.Walkable.{CanWalk, MayArrive, MayWalk};
ghost use Rattle.wp_gen.specs.Paths.{AreTargets};
ghost use Rattle.wp_gen.specs.Setting.{setting};
ghost use Rattle.prophecy_logic.specs.State.{Adds};
ghost use Rattle.wp_gen.specs.Reached.{IsOver, IsBack, IsAtLastSide, GoesOn, StandsAtEnd, ComesToEnd, GoesTo, ahead, blocks_from};

use crate::formulas::each_goal;
use crate::head::{among, head_commands};
use crate::paths::{before_last, last_of};
use crate::reached::{
    Next, Reached, Spot, over, over_call, over_statements, to_false_side, to_true_side,
    with_goals_at,
};
use crate::row::name_of;
use crate::variant::where_variant;
use logic_term::{AdtDecl, Contract, Label, Term};
use mir_ir::{
    Block, Body, Callee, Contracts, FnId, Head, Initialised, Operand, Place, Resolves,
    TerminatorKind,
};
use prophecy_logic::{Goal, MetGoal, State};
use std::alloc::Global;
use text_core::{Kind, NoMemory, Span};

/// What the walk of a body looks up: the contracts of all functions, its own, what may be gone where, which references end where, and
/// the declared types. So far nothing reads which references end.
#[derive(Clone, Copy)]
pub struct Walk<'a> {
    pub body: &'a Body,
    pub contracts: &'a Contracts,
    pub contract: &'a Contract,
    pub init: &'a Initialised,
    pub resolves: &'a Resolves,
    pub decls: &'a [AdtDecl],
}

// ---- the return

fn at_answers(alloc: Global, body: &Body, contract: &Contract) -> Result<Vec<Term>, NoMemory>
    ensures { IfOk result (λ v. v.items ≡ map (at_answer body.now contract.now) contract.now.post) }
{
    let answer = Term::var(alloc, name_of(body, 0))?;
    let post = contract.post.as_slice();
    let mut all = Vec::with_capacity(alloc, post.len())?;
    for term in post {
        all.push(term.replaced(alloc, contract.answer, &answer)?)?;
    }
    Ok(all)
}

/// The spans after the first ones, so many.
fn spans_after(spans: &[Span], count: usize) -> &[Span]
    ensures { result.now ≡ drop count spans.now }
{
    if count < spans.len() {
        &spans[count..]
    } else {
        &[]
    }
}

fn goals_at_return(alloc: Global, body: &Body, contract: &Contract) -> Result<Vec<Goal>, NoMemory>
    ensures { IfOk result (λ v. v.items ≡ goals_at_return body.now contract.now) }
{
    let owed = at_answers(alloc, body, contract)?;
    let spans = spans_after(contract.spans.as_slice(), contract.pre.len());
    each_goal(alloc, Kind::Ensures, owed.as_slice(), spans)
}

/// The goals of a return, behind those that were met.
fn at_return(alloc: Global, walk: &Walk<'_>, reached: Reached) -> Result<Vec<MetGoal>, NoMemory>
    ensures { IfOk result (λ v. Adds reached.state reached.goals.items (goals_at_return walk.now.body.now walk.now.contract.now) v.items) }
{
    let owed = goals_at_return(alloc, walk.body, walk.contract)?;
    let Reached { state, goals } = reached;
    with_goals_at(alloc, &state, goals, owed.as_slice())
}

// ---- the panic

/// The goal at a panic, which no run is to come to, behind those that were met.
fn at_panic(alloc: Global, span: Span, reached: Reached) -> Result<Vec<MetGoal>, NoMemory>
    ensures { IfOk result (λ v. Adds reached.state reached.goals.items (goals_at_panic span) v.items) }
{
    let never = Goal {
        kind: Kind::Unreachable,
        span,
        formula: Term::truth(alloc, false)?,
    };
    let mut owed = Vec::with_capacity(alloc, 1)?;
    owed.push(never)?;
    let Reached { state, goals } = reached;
    with_goals_at(alloc, &state, goals, owed.as_slice())
}

// ---- loop heads

/// Past a loop head at the first arrival: each invariant is a goal, and then is known.
fn enter_loop(
    alloc: Global,
    walk: &Walk<'_>,
    label: Label,
    head: &Head,
    reached: Reached,
) -> Result<Reached, NoMemory>
    ensures { IfOk result (IsOver (goals_at_entry head.now) (head_commands walk.now.body.now walk.now.init.now label head.now) reached) }
{
    let invariants = head.invariants.as_slice();
    let owed = each_goal(alloc, Kind::InvEntry, invariants, head.spans.as_slice())?;
    let commands = head_commands(alloc, walk.body, walk.init, label, head)?;
    over(alloc, reached, owed.as_slice(), commands.as_slice())
}

/// The goals of an arrival at a head that was passed: each invariant.
fn arrive_again(alloc: Global, head: &Head, reached: Reached) -> Result<Vec<MetGoal>, NoMemory>
    ensures { IfOk result (λ v. Adds reached.state reached.goals.items (goals_after_turn head.now) v.items) }
{
    let invariants = head.invariants.as_slice();
    let owed = each_goal(alloc, Kind::InvKept, invariants, head.spans.as_slice())?;
    let Reached { state, goals } = reached;
    with_goals_at(alloc, &state, goals, owed.as_slice())
}

// ---- blocks

/// The label before the others.
fn with_label(first: Label, rest: Vec<Label>) -> Result<Vec<Label>, NoMemory>
    ensures { IfOk result (λ v. v.items ≡ first ∷ rest.items) }
{
    let mut all = rest;
    all.insert(0, first)?;
    Ok(all)
}

/// The same labels.
fn copied(alloc: Global, labels: &[Label]) -> Result<Vec<Label>, NoMemory>
    ensures { IfOk result (λ v. v.items ≡ labels.now) }
{
    let mut all = Vec::with_capacity(alloc, labels.len())?;
    all.extend_from_slice(labels)?;
    Ok(all)
}

/// The contract by which a call is reasoned about.
pub(crate) fn contract_at(contracts: &Contracts, callee: Callee) -> &Contract
    requires { (c : ContractValue) × (contract_at contracts.now callee ≡ Some c) }
    ensures { contract_at contracts.now callee ≡ Some result.now }
{
    let Callee::Function(FnId::Body(number)) = callee;
    &contracts.of.as_slice()[number as usize]
}

/// Over the statements of the block, to its end.
fn through(
    alloc: Global,
    walk: &Walk<'_>,
    heads: Vec<Label>,
    label: Label,
    block: &Block,
    reached: Reached,
) -> Result<Spot, NoMemory>
    requires { MayWalk (setting walk.now) heads.items label block.now }
    ensures { IfOk result (StandsAtEnd (setting walk.now) (Within (setting walk.now) heads.items (start_of label)) reached label block.now) }
{
    let reached = over_statements(alloc, walk, label, block.statements.as_slice(), reached)?;
    Ok(Spot {
        heads,
        label,
        reached,
    })
}

/// From the arrival at a loop head that was not passed to the end of its block.
fn through_head(
    alloc: Global,
    walk: &Walk<'_>,
    block: &Block,
    head: &Head,
    spot: Spot,
) -> Result<Spot, NoMemory>
    requires here { MayArrive (setting walk.now) spot.heads.items spot.label }
    requires block { block_in walk.now.body.now.blocks spot.label ≡ Some block.now }
    requires head { block.now.head ≡ Some head.now }
    requires not_passed { among spot.label spot.heads.items ≡ false }
    ensures { IfOk result (StandsAtEnd (setting walk.now) (Arrives (setting walk.now) spot.heads.items spot.label) spot.reached spot.label block.now) }
{
    let Spot {
        heads,
        label,
        reached,
    } = spot;
    let inside = enter_loop(alloc, walk, label, head, reached)?;
    let passed = with_label(label, heads)?;
    through(alloc, walk, passed, label, block, inside)
}

/// From the arrival at a block that is no head to its end.
fn through_plain(
    alloc: Global,
    walk: &Walk<'_>,
    block: &Block,
    spot: Spot,
) -> Result<Spot, NoMemory>
    requires here { MayArrive (setting walk.now) spot.heads.items spot.label }
    requires block { block_in walk.now.body.now.blocks spot.label ≡ Some block.now }
    requires no_head { block.now.head ≡ None }
    ensures { IfOk result (StandsAtEnd (setting walk.now) (Arrives (setting walk.now) spot.heads.items spot.label) spot.reached spot.label block.now) }
{
    let Spot {
        heads,
        label,
        reached,
    } = spot;
    through(alloc, walk, heads, label, block, reached)
}

/// From the arrival at a block to its end; or all goals, where the path ends at the arrival.
fn to_end(alloc: Global, walk: &Walk<'_>, block: &Block, spot: Spot) -> Result<Next, NoMemory>
    requires here { MayArrive (setting walk.now) spot.heads.items spot.label }
    requires block { block_in walk.now.body.now.blocks spot.label ≡ Some block.now }
    ensures { IfOk result (ComesToEnd (setting walk.now) spot block.now) }
{
    match &block.head {
        None => {
            let end = through_plain(alloc, walk, block, spot)?;
            Ok(Next::On(end))
        }
        Some(head) => {
            if among(spot.label, spot.heads.as_slice()) {
                let goals = arrive_again(alloc, head, spot.reached)?;
                return Ok(Next::Done(goals));
            }
            let end = through_head(alloc, walk, block, head, spot)?;
            Ok(Next::On(end))
        }
    }
}

/// To the side of a branch where the operand is not true, with the goals of the other side, which was walked.
fn to_other_side(
    alloc: Global,
    body: &Body,
    operand: &Operand,
    state: State,
    goals: Vec<MetGoal>,
) -> Result<Reached, NoMemory>
    ensures { IfOk result (IsOver [] (where_false body.now operand.now) (record { state = state; goals = goals })) }
{
    let back = Reached { state, goals };
    to_false_side(alloc, body, operand, back)
}

/// A number of 32 bits; want of memory where it is larger.
fn small(count: usize) -> Result<u32, NoMemory>
    ensures { IfOk result (λ n. n ≡ count) }
{
    if count > u32::MAX as usize {
        return Err(NoMemory);
    }
    Ok(count as u32)
}

/// To the side of a switch where the place is of the variant.
fn to_variant(
    alloc: Global,
    walk: &Walk<'_>,
    place: &Place,
    variant: u32,
    state: State,
    goals: Vec<MetGoal>,
) -> Result<Reached, NoMemory>
    ensures { IfOk result (IsOver [] (where_variant walk.now.body.now walk.now.decls.now place.now variant) (record { state = state; goals = goals })) }
{
    let commands = where_variant(alloc, walk.body, walk.decls, place, variant)?;
    over(alloc, Reached { state, goals }, &[], commands.as_slice())
}

/// To the last side of a switch, the others having been walked; or all goals, where there is none.
fn to_last_side(
    alloc: Global,
    walk: &Walk<'_>,
    place: &Place,
    labels: &[Label],
    spot: Spot,
) -> Result<Next, NoMemory>
    ensures { IfOk result (IsAtLastSide (setting walk.now) place.now labels.now spot) }
{
    let Spot { heads, reached, .. } = spot;
    let Reached { state, goals } = reached;
    let Some(label) = last_of(labels) else {
        return Ok(Next::Done(goals));
    };
    let variant = small(before_last(labels).len())?;
    let reached = to_variant(alloc, walk, place, variant, state, goals)?;
    Ok(Next::On(Spot {
        heads,
        label,
        reached,
    }))
}

/// Over the sides of a switch at the end of the block to these labels, which are its first ones, and back at the end with their goals.
#[cycle(walk)]
fn over_sides(
    alloc: Global,
    walk: &Walk<'_>,
    block: &Block,
    place: &Place,
    labels: &[Label],
    spot: Spot,
) -> Result<Spot, NoMemory>
    requires can { CanWalk (setting walk.now) }
    requires here { MayWalk (setting walk.now) spot.heads.items spot.label block.now }
    requires edges { AreTargets labels.now block.now.end.kind }
    ensures { IfOk result (IsBack (setting walk.now) place.now labels.now spot) }
{
    let Spot {
        heads,
        label,
        reached,
    } = spot;
    let Reached { state, goals } = reached;
    let mut goals = goals;
    let mut variant: u32 = 0;
    for to in labels {
        let side = to_variant(alloc, walk, place, variant, state.share(alloc)?, goals)?;
        let first = Spot {
            heads: copied(alloc, heads.as_slice())?,
            label: *to,
            reached: side,
        };
        goals = arrive(alloc, walk, first)?;
        variant = variant.checked_add(1).ok_or(NoMemory)?;
    }
    let reached = Reached { state, goals };
    Ok(Spot {
        heads,
        label,
        reached,
    })
}

/// From the end of a block to the next arrival on the path, the first side of a branch, and all sides of a switch but the last, being walked; or all
/// goals, where the path ends.
#[cycle(walk)]
fn from_end(alloc: Global, walk: &Walk<'_>, block: &Block, spot: Spot) -> Result<Next, NoMemory>
    requires can { CanWalk (setting walk.now) }
    requires here { MayWalk (setting walk.now) spot.heads.items spot.label block.now }
    ensures { IfOk result (GoesTo (setting walk.now) (Ends (setting walk.now) spot.heads.items block.now.end) spot.reached (blocks_from walk.now.body.now.blocks spot.label)) }
{
    let Spot {
        heads,
        label,
        reached,
    } = spot;
    match &block.end.kind {
        TerminatorKind::Goto(next) => Ok(Next::On(Spot {
            heads,
            label: *next,
            reached,
        })),
        TerminatorKind::If(operand, yes, no) => {
            let state = reached.state.share(alloc)?;
            let true_side = to_true_side(alloc, walk.body, operand, reached)?;
            let first = Spot {
                heads: copied(alloc, heads.as_slice())?,
                label: *yes,
                reached: true_side,
            };
            let goals = arrive(alloc, walk, first)?;
            let reached = to_other_side(alloc, walk.body, operand, state, goals)?;
            Ok(Next::On(Spot {
                heads,
                label: *no,
                reached,
            }))
        }
        TerminatorKind::Switch(place, labels) => {
            let labels = labels.as_slice();
            let spot = Spot {
                heads,
                label,
                reached,
            };
            let back = over_sides(alloc, walk, block, place, before_last(labels), spot)?;
            to_last_side(alloc, walk, place, labels, back)
        }
        TerminatorKind::Call(place, callee, _, args, next) => {
            let args = args.as_slice();
            let reached = over_call(alloc, walk, block.end.span, place, *callee, args, reached)?;
            Ok(Next::On(Spot {
                heads,
                label: *next,
                reached,
            }))
        }
        TerminatorKind::Return => {
            let goals = at_return(alloc, walk, reached)?;
            Ok(Next::Done(goals))
        }
        TerminatorKind::Panic(_) => {
            let goals = at_panic(alloc, block.end.span, reached)?;
            Ok(Next::Done(goals))
        }
    }
}

/// From an arrival to the next one on the path; or all goals, where the path ends.
#[cycle(walk)]
fn turn(alloc: Global, walk: &Walk<'_>, spot: Spot) -> Result<Next, NoMemory>
    requires can { CanWalk (setting walk.now) }
    requires here { MayArrive (setting walk.now) spot.heads.items spot.label }
    ensures { IfOk result (GoesTo (setting walk.now) (Arrives (setting walk.now) spot.heads.items spot.label) spot.reached (ahead walk.now.body.now.blocks spot.heads.items spot.label)) }
{
    let Some(block) = walk.body.block(spot.label) else {
        unreachable!()
    };
    match to_end(alloc, walk, block, spot)? {
        Next::On(end) => from_end(alloc, walk, block, end),
        Next::Done(goals) => Ok(Next::Done(goals)),
    }
}

/// The goals from the arrival at a block on, behind those that were met. Blocks are walked by a loop; what takes stack is the first side of
/// a branch, and each side of a switch but the last, so no more calls are pending than the body has paths.
#[cycle(walk)]
fn arrive(alloc: Global, walk: &Walk<'_>, spot: Spot) -> Result<Vec<MetGoal>, NoMemory>
    requires can { CanWalk (setting walk.now) }
    requires here { MayArrive (setting walk.now) spot.heads.items spot.label }
    ensures { IfOk result (λ v. GoesOn (Arrives (setting walk.now) spot.heads.items spot.label) spot.reached v.items) }
{
    let mut here = spot;
    'path: loop {
        match turn(alloc, walk, here)? {
            Next::On(next) => here = next,
            Next::Done(goals) => return Ok(goals),
        }
    }
}

/// The goals from a body's entry on, behind those that were met.
pub(crate) fn goals_from_entry(
    alloc: Global,
    walk: &Walk<'_>,
    reached: Reached,
) -> Result<Vec<MetGoal>, NoMemory>
    requires { CanWalk (setting walk.now) }
    ensures { IfOk result (λ v. GoesOn (Arrives (setting walk.now) [] walk.now.body.now.entry) reached v.items) }
{
    let heads = Vec::new(alloc);
    let label = walk.body.entry;
    arrive(
        alloc,
        walk,
        Spot {
            heads,
            label,
            reached,
        },
    )
}
