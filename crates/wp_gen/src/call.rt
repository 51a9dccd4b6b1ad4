//! Calls: the callee's contract at the arguments.
ghost use Rattle.std.specs.Prelude.{◌≡◌, ◌∷◌, [], ◌++◌, map, IfOk};
ghost use Rattle.prophecy_logic.specs.Row.{operand_term};
ghost use Rattle.logic_term.specs.Subst.{with_terms};
ghost use Rattle.prophecy_logic.specs.Command.{assumed};
ghost use Rattle.prophecy_logic.specs.Walk.{entries, at_arguments, at_arguments_and_answer, goals_of_call, call_commands};

use crate::formulas::all_at;
use crate::row::{name_of, operand_terms, value_name};
use logic_term::{Contract, Replacement, Term, Ty};
use mir_ir::{Body, Operand};
use prophecy_logic::{Command, Goal};
use std::alloc::Global;
use text_core::{Kind, Name, NoMemory, Span};

fn entry(name: Name, by: &Term) -> Result<Replacement, NoMemory>
    ensures { IfOk result (λ e. e ≡ record { name = name; by = by.now }) }
{
    let by = by.share()?;
    Ok(Replacement { name, by })
}

/// The terms for the names, behind others.
fn with_entries(
    alloc: Global,
    first: Vec<Replacement>,
    names: &[Name],
    terms: &[Term],
) -> Result<Vec<Replacement>, NoMemory>
    ensures { IfOk result (λ v. v.items ≡ first.items ++ entries names.now terms.now) }
{
    let mut all = first;
    for i in 0..names.len().min(terms.len()) {
        all.push(entry(names[i], &terms[i])?)?;
    }
    Ok(all)
}

fn each_with_terms(
    alloc: Global,
    sub: &[Replacement],
    terms: &[Term],
) -> Result<Vec<Term>, NoMemory>
    ensures { IfOk result (λ v. v.items ≡ map (with_terms sub.now) terms.now) }
{
    let mut all = Vec::with_capacity(alloc, terms.len())?;
    for term in terms {
        all.push(term.with(alloc, sub)?)?;
    }
    Ok(all)
}

/// The goals of a call of a function with this contract.
pub(crate) fn goals_of_call(
    alloc: Global,
    body: &Body,
    callee: &Contract,
    span: Span,
    args: &[Operand],
) -> Result<Vec<Goal>, NoMemory>
    ensures { IfOk result (λ v. v.items ≡ goals_of_call body.now callee.now span args.now) }
{
    let terms = operand_terms(alloc, body, args)?;
    let sub = with_entries(
        alloc,
        Vec::new(alloc),
        callee.params.as_slice(),
        terms.as_slice(),
    )?;
    let owed = each_with_terms(alloc, sub.as_slice(), callee.pre.as_slice())?;
    all_at(alloc, Kind::Requires, span, owed.as_slice())
}

/// Each formula known, behind other commands.
pub(crate) fn with_assumed(
    alloc: Global,
    first: Vec<Command>,
    terms: &[Term],
) -> Result<Vec<Command>, NoMemory>
    ensures { IfOk result (λ v. v.items ≡ first.items ++ assumed terms.now) }
{
    let mut all = first;
    for term in terms {
        all.push(Command::Assume(term.share()?))?;
    }
    Ok(all)
}

/// What each `ensures` of the callee says of these arguments and of the new value.
fn known_after(
    alloc: Global,
    body: &Body,
    callee: &Contract,
    args: &[Operand],
) -> Result<Vec<Term>, NoMemory>
    ensures { IfOk result (λ v. v.items ≡ map (at_arguments_and_answer body.now callee.now args.now) callee.now.post) }
{
    let terms = operand_terms(alloc, body, args)?;
    let by = Term::var(alloc, value_name())?;
    let mut sub = Vec::new(alloc);
    sub.push(Replacement {
        name: callee.answer,
        by,
    })?;
    let sub = with_entries(alloc, sub, callee.params.as_slice(), terms.as_slice())?;
    each_with_terms(alloc, sub.as_slice(), callee.post.as_slice())
}

/// The commands of a call whose answer comes to local `x`, which has the type.
pub(crate) fn call_commands(
    alloc: Global,
    body: &Body,
    callee: &Contract,
    x: u32,
    ty: &Ty,
    args: &[Operand],
) -> Result<Vec<Command>, NoMemory>
    ensures { IfOk result (λ v. v.items ≡ call_commands body.now callee.now x ty.now args.now) }
{
    let value = value_name();
    let known = known_after(alloc, body, callee, args)?;
    let mut commands = Vec::new(alloc);
    commands.push(Command::Fresh(value, ty.copy(alloc)?))?;
    let mut commands = with_assumed(alloc, commands, known.as_slice())?;
    let answer = Term::var(alloc, value)?;
    commands.push(Command::Set(name_of(body, x), answer))?;
    Ok(commands)
}
