//! The obligations of a body.
ghost use Rattle.std.specs.Prelude.{◌≡◌, ◌∷◌, [], ◌++◌, IfOk, IfErr, drop};
ghost use Rattle.prophecy_logic.specs.Graph.{AreObligations};
ghost use Rattle.prophecy_logic.specs.Walk.{parameters, stored, entry_commands};
ghost use Rattle.prophecy_logic.specs.State.{listed};
ghost use Rattle.wp_gen.specs.Reached.{AreMet};
ghost use Rattle.wp_gen.specs.Limits.{HasFewObligations, RefusesWalk};
ghost use Rattle.prophecy_logic.specs.Walkable.{CanWalk};
ghost use Rattle.wp_gen.specs.Setting.{setting};

use crate::call::with_assumed;
use crate::count::{OBLIGATIONS, room_after};
use crate::paths::check_paths;
use crate::reached::Reached;
use crate::row::name_of;
use crate::walk::{Walk, goals_from_entry};
use logic_term::{Contract, Obligation, Term, Ty};
use mir_ir::Body;
use prophecy_logic::{Command, MetGoal, State};
use std::alloc::Global;
use text_core::{Items, Limit, LimitKind, Name, NoMemory, PassError, Text};

/// Each parameter has some value of its type.
pub(crate) fn parameters(
    alloc: Global,
    names: &[Name],
    types: &[Ty],
) -> Result<Vec<Command>, NoMemory>
    ensures { IfOk result (λ v. v.items ≡ parameters names.now types.now) }
{
    let mut commands = Vec::new(alloc);
    for i in 0..names.len().min(types.len()) {
        commands.push(Command::Fresh(names[i], types[i].copy(alloc)?))?;
    }
    Ok(commands)
}

/// The locals from number 1 on have the values of the names, behind other commands.
fn with_stored(
    alloc: Global,
    first: Vec<Command>,
    body: &Body,
    names: &[Name],
) -> Result<Vec<Command>, NoMemory>
    ensures { IfOk result (λ v. v.items ≡ first.items ++ stored body.now 1 names.now) }
{
    let mut all = first;
    let mut local: u32 = 1;
    for name in names {
        all.push(Command::Set(name_of(body, local), Term::var(alloc, *name)?))?;
        local = local.checked_add(1).ok_or(NoMemory)?;
    }
    Ok(all)
}

/// The types of the locals after the answer.
fn types_after_answer(types: &[Ty]) -> &[Ty]
    ensures { result.now ≡ drop 1 types.now }
{
    match types {
        [_, rest @ ..] => rest,
        [] => types,
    }
}

/// The commands at the entry of a body: its parameters, and what its contract lets it know of them.
fn entry_commands(alloc: Global, body: &Body, contract: &Contract) -> Result<Vec<Command>, NoMemory>
    ensures { IfOk result (λ v. v.items ≡ entry_commands body.now contract.now) }
{
    let types = types_after_answer(body.locals.as_slice());
    let names = contract.params.as_slice();
    let commands = parameters(alloc, names, types)?;
    let commands = with_assumed(alloc, commands, contract.pre.as_slice())?;
    with_stored(alloc, commands, body, names)
}

/// The goals of a body with its contract, closed at its entry and in normal form.
fn goals(alloc: Global, walk: &Walk<'_>) -> Result<Vec<MetGoal>, NoMemory>
    requires { CanWalk (setting walk.now) }
    ensures { IfOk result (λ v. AreMet (setting walk.now) v.items) }
{
    let commands = entry_commands(alloc, walk.body, walk.contract)?;
    let state = State::new(alloc)?.after_all(alloc, commands.as_slice())?;
    let goals = Vec::new(alloc);
    goals_from_entry(alloc, walk, Reached { state, goals })
}

fn obligation(
    alloc: Global,
    owner: &Text,
    number: u32,
    goal: MetGoal,
) -> Result<Obligation, NoMemory>
    ensures { IfOk result (λ o. o ∷ [] ≡ listed owner.now number (goal ∷ [])) }
{
    let MetGoal { kind, span, goal } = goal;
    let owner = owner.copy(alloc)?;
    Ok(Obligation {
        owner,
        number,
        kind,
        span,
        from: None,
        params: Items::new(alloc),
        goal,
    })
}

/// The goals as obligations, numbered from `first` on.
fn listed(
    alloc: Global,
    owner: &Text,
    first: u32,
    goals: Vec<MetGoal>,
) -> Result<Vec<Obligation>, NoMemory>
    ensures { IfOk result (λ v. v.items ≡ listed owner.now first goals.items) }
{
    let mut obligations = Vec::new(alloc);
    let mut number = first;
    for goal in goals {
        obligations.push(obligation(alloc, owner, number, goal)?)?;
        number = number.checked_add(1).ok_or(NoMemory)?;
    }
    Ok(obligations)
}

/// The obligations of a body with its contract, numbered from `first` on, in the order of the walk of its paths, for a caller that
/// has counted paths and obligations itself. Want of memory is answered too where the number of a local or of an obligation would
/// pass 32 bits.
pub fn counted_obligations(
    alloc: Global,
    walk: &Walk<'_>,
    first: u32,
) -> Result<Vec<Obligation>, NoMemory>
    requires { CanWalk (setting walk.now) }
    ensures { IfOk result (λ v. AreObligations (setting walk.now) first v.items) }
{
    let goals = goals(alloc, walk)?;
    listed(alloc, &walk.body.owner, first, goals)
}

/// The obligations of a body with its contract, numbered from `first` on, in the order of the walk of its paths.
///
/// Errors: `Limit` where the body has more than 1,024 paths, or else more than 1,000,000 obligations, and before one is made;
/// `NoMemory`, also where the number of a local or of an obligation would pass 32 bits; never `Source`.
pub fn obligations(alloc: Global, walk: &Walk<'_>, first: u32) -> Result<Vec<Obligation>, PassError>
    requires { CanWalk (setting walk.now) }
    ensures ok { IfOk result (λ v. HasFewObligations (setting walk.now) first v.items) }
    ensures refused { IfErr result (RefusesWalk (setting walk.now)) }
{
    match check_paths(walk.body) {
        Err(limit) => Err(PassError::Limit(limit)),
        Ok(_) => match room_after(walk, OBLIGATIONS) {
            None => Err(PassError::Limit(Limit {
                kind: LimitKind::Obligations,
                counted: OBLIGATIONS as u64 + 1,
                bound: OBLIGATIONS as u64,
            })),
            Some(_) => Ok(counted_obligations(alloc, walk, first)?),
        },
    }
}
