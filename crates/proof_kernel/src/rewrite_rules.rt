//! The rule that puts an equation into the goal, or into a hypothesis.
ghost use Rattle.std.specs.Prelude.{◌≡◌, Some, None, IfOk, MatchOption};
ghost use Rattle.proof_kernel.specs.ChangeCode.{changed_by, past_change};
ghost use Rattle.proof_kernel.specs.RewriteRules.{sides, changing, rewrite_rule};
ghost use Rattle.proof_kernel.specs.Rules.{Finds};
ghost use Rattle.proof_kernel.specs.declared.step.Target.TheVariants as targets;

use crate::exchange::{Change, exchanged};
use crate::rules::{one_premise, with_hypothesis};
use crate::sequent::Sequent;
use crate::step::{Direction, Rewriting, Target};
use logic_term::{Label2, Term, TermBinary, TermForm, reduce};
use std::alloc::Global;
use text_core::NoMemory;

// ---- terms

/// A number past all names that are free in the terms of the change.
fn past_change(alloc: Global, change: Change<'_>) -> Result<u64, NoMemory>
    ensures { IfOk result (λ n. n ≡ past_change change.entry) }
{
    match change {
        Change::Put(of, by) => Ok(of.above_free(alloc)?.max(by.above_free(alloc)?)),
        Change::Decide(known) => known.above_free(alloc),
    }
}

/// The normal form of the changed term. No name is captured.
fn changed(alloc: Global, change: Change<'_>, t: &Term) -> Result<Term, NoMemory>
    ensures { IfOk result (λ r. r ≡ changed_by change.entry t.now) }
{
    let names = past_change(alloc, change)?;
    let depth = t.above_free(alloc)?.max(names);
    let numbered = t.placed(alloc, false, depth, &[])?;
    let other = exchanged(alloc, change, depth, &numbered)?;
    reduce(alloc, &other)
}

/// The sides of an equation: what is replaced, and by what. `None` exactly where the formula is no equation.
fn sides(direction: Direction, t: &Term) -> Option<(&Term, &Term)>
    ensures { MatchOption result (sides direction t.now ≡ None) (λ p. sides direction t.now ≡ Some (p.0.now, p.1.now)) }
{
    match (direction, t.form()) {
        (Direction::Forward, TermForm::Binary(TermBinary::Equal, a, b)) => Some((a, b)),
        (Direction::Backward, TermForm::Binary(TermBinary::Equal, a, b)) => Some((b, a)),
        _ => None,
    }
}

// ---- the rule

fn in_goal(
    alloc: Global,
    step: u32,
    q: &Sequent,
    change: Change<'_>,
) -> Result<Option<Vec<Sequent>>, NoMemory>
    ensures { IfOk result (λ o. Finds (changing step q.now targets.Goal (changed_by change.entry)) o) }
{
    let goal = q.goal(alloc)?;
    let goal = changed(alloc, change, &goal)?;
    let premise = q.with_goal(goal)?;
    let premises = one_premise(alloc, premise)?;
    Ok(Some(premises))
}

fn in_hypothesis(
    alloc: Global,
    step: u32,
    label: Label2,
    q: &Sequent,
    change: Change<'_>,
) -> Result<Option<Vec<Sequent>>, NoMemory>
    ensures { IfOk result (λ o. Finds (changing step q.now (targets.Hyp label) (changed_by change.entry)) o) }
{
    let Some(h) = q.hypothesis(alloc, label)? else {
        return Ok(None);
    };
    let h = changed(alloc, change, &h)?;
    let premise = with_hypothesis(alloc, step, q, h)?;
    let premises = one_premise(alloc, premise)?;
    Ok(Some(premises))
}

/// The changed goal instead, or the changed hypothesis as one more; `None` exactly where the hypothesis is not there.
pub(crate) fn changing(
    alloc: Global,
    target: Target,
    step: u32,
    q: &Sequent,
    change: Change<'_>,
) -> Result<Option<Vec<Sequent>>, NoMemory>
    ensures { IfOk result (λ o. Finds (changing step q.now target (changed_by change.entry)) o) }
{
    match target {
        Target::Goal => in_goal(alloc, step, q, change),
        Target::Hyp(label) => in_hypothesis(alloc, step, label, q, change),
    }
}

/// The premise of step `step`; `None` exactly where a hypothesis is not there, or the one that is to be put is no equation.
pub fn rewrite_rule(
    alloc: Global,
    rewriting: Rewriting,
    step: u32,
    q: &Sequent,
) -> Result<Option<Vec<Sequent>>, NoMemory>
    ensures { IfOk result (λ o. Finds (rewrite_rule rewriting step q.now) o) }
{
    let Some(equation) = q.hypothesis(alloc, rewriting.equation)? else {
        return Ok(None);
    };
    match sides(rewriting.direction, &equation) {
        None => Ok(None),
        Some((of, by)) => changing(alloc, rewriting.target, step, q, Change::Put(of, by)),
    }
}
