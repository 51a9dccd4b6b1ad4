//! Where a walk stands, and how it comes over rows.
ghost use Rattle.std.specs.Prelude.{[], length, IfOk};
ghost use Rattle.prophecy_logic.specs.Row.{goals_of, commands_of};
ghost use Rattle.prophecy_logic.specs.Walk.{where_true, where_false};
ghost use Rattle.prophecy_logic.specs.Walkable.{IsKnown};
ghost use Rattle.wp_gen.specs.Setting.{setting};
ghost use Rattle.prophecy_logic.specs.State.{Adds};
ghost use Rattle.wp_gen.specs.Reached.{AreStatements, IsOver, IsOverCall, Passes};

use crate::call::{call_commands, goals_of_call};
use crate::row::{goals_of, operand_term};
use crate::step::commands_of;
use crate::walk::{Walk, contract_at};
use logic_term::{Label, Term};
use mir_ir::{Body, Callee, Operand, Place, Statement};
use prophecy_logic::{Command, Goal, MetGoal, State};
use std::alloc::Global;
use text_core::{NoMemory, Span};

/// Where a walk stands, and the goals that it has met.
#[derive(Drop)]
pub(crate) struct Reached {
    pub(crate) state: State,
    pub(crate) goals: Vec<MetGoal>,
}

/// Where a walk comes to the block of the label, or is in it: the heads that it passed, and what it reached.
#[derive(Drop)]
pub(crate) struct Spot {
    pub(crate) heads: Vec<Label>,
    pub(crate) label: Label,
    pub(crate) reached: Reached,
}

/// How a path goes on: from another place, or not, with all goals from where it began.
#[derive(Drop)]
pub(crate) enum Next {
    On(Spot),
    Done(Vec<MetGoal>),
}

/// The goals at the state, behind others.
pub(crate) fn with_goals_at(
    alloc: Global,
    state: &State,
    first: Vec<MetGoal>,
    owed: &[Goal],
) -> Result<Vec<MetGoal>, NoMemory>
    ensures { IfOk result (λ v. Adds state.now first.items owed.now v.items) }
{
    let mut all = first;
    for goal in owed {
        all.push(state.goal(alloc, goal)?)?;
    }
    Ok(all)
}

/// Over a row with these goals and commands.
pub(crate) fn over(
    alloc: Global,
    reached: Reached,
    owed: &[Goal],
    commands: &[Command],
) -> Result<Reached, NoMemory>
    ensures { IfOk result (IsOver owed.now commands.now reached) }
{
    let Reached { state, goals } = reached;
    let goals = with_goals_at(alloc, &state, goals, owed)?;
    let state = state.after_all(alloc, commands)?;
    Ok(Reached { state, goals })
}

// ---- statements

fn over_statement(
    alloc: Global,
    body: &Body,
    statement: &Statement,
    reached: Reached,
) -> Result<Reached, NoMemory>
    ensures { IfOk result (IsOver (goals_of body.now statement.now.span statement.now.kind) (commands_of body.now statement.now.kind) reached) }
{
    let owed = goals_of(alloc, body, statement.span, &statement.kind)?;
    let commands = commands_of(alloc, body, &statement.kind)?;
    over(alloc, reached, owed.as_slice(), commands.as_slice())
}

/// Over the statements of the block of the label, in order.
pub(crate) fn over_statements(
    alloc: Global,
    walk: &Walk<'_>,
    label: Label,
    statements: &[Statement],
    reached: Reached,
) -> Result<Reached, NoMemory>
    requires { AreStatements walk.now.body.now label statements.now }
    ensures { IfOk result (Passes (setting walk.now) label (length statements.now) reached) }
{
    let mut here = reached;
    for statement in statements {
        here = over_statement(alloc, walk.body, statement, here)?;
    }
    Ok(here)
}

// ---- branches

/// To the side where the operand is true.
pub(crate) fn to_true_side(
    alloc: Global,
    body: &Body,
    operand: &Operand,
    reached: Reached,
) -> Result<Reached, NoMemory>
    ensures { IfOk result (IsOver [] (where_true body.now operand.now) reached) }
{
    let mut commands = Vec::with_capacity(alloc, 1)?;
    commands.push(Command::Assume(operand_term(alloc, body, operand)?))?;
    over(alloc, reached, &[], commands.as_slice())
}

/// To the side where it is not.
pub(crate) fn to_false_side(
    alloc: Global,
    body: &Body,
    operand: &Operand,
    reached: Reached,
) -> Result<Reached, NoMemory>
    ensures { IfOk result (IsOver [] (where_false body.now operand.now) reached) }
{
    let value = operand_term(alloc, body, operand)?;
    let opposite = Term::not(alloc, value)?;
    let mut commands = Vec::with_capacity(alloc, 1)?;
    commands.push(Command::Assume(opposite))?;
    over(alloc, reached, &[], commands.as_slice())
}

// ---- calls

/// Over a call.
pub(crate) fn over_call(
    alloc: Global,
    walk: &Walk<'_>,
    span: Span,
    place: &Place,
    callee: Callee,
    args: &[Operand],
    reached: Reached,
) -> Result<Reached, NoMemory>
    requires { IsKnown (setting walk.now) callee place.now }
    ensures { IfOk result (IsOverCall (setting walk.now) span place.now callee args.now reached) }
{
    let contract = contract_at(walk.contracts, callee);
    let ty = &walk.body.locals.as_slice()[place.local as usize];
    let owed = goals_of_call(alloc, walk.body, contract, span, args)?;
    let commands = call_commands(alloc, walk.body, contract, place.local, ty, args)?;
    over(alloc, reached, owed.as_slice(), commands.as_slice())
}
