ghost use Rattle.std.specs.Prelude.{◌≡◌, ◌↔◌, ◌∷◌, ◌+◌, [], Some, IfOk, MatchOption, IsTrue, map, true, false};
ghost use Rattle.logic_term.specs.declared.kinds.Label2.{Label2};
ghost use Rattle.logic_term.specs.Canonical.{SameUpToNames};
ghost use Rattle.logic_term.specs.Term.{Term as Tree, is_conjunction};
ghost use Rattle.proof_kernel.specs.Rules.{hypothesis, same_up_to_names, with_hyps, closed_if, Finds, with_goal, conjuncts};

use crate::sequent::Sequent;
use logic_term::{Label2, Term};
use std::alloc::Global;
use text_core::NoMemory;

// ---- terms and premises

/// Whether both are the same up to the names that they bind, as a truth value.
pub(crate) fn are_same(alloc: Global, t: &Term, other: &Term) -> Result<bool, NoMemory>
    ensures { IfOk result (λ b. b ≡ same_up_to_names t.now other.now) }
{
    t.same_up_to_names(alloc, other)
}

/// No premise where the test holds, and nothing where it does not.
pub(crate) fn closed_if(alloc: Global, holds: bool) -> Option<Vec<Sequent>>
    ensures { Finds (closed_if holds) result }
{
    if holds { Some(Vec::new(alloc)) } else { None }
}

pub(crate) fn one_premise(alloc: Global, premise: Sequent) -> Result<Vec<Sequent>, NoMemory>
    ensures { IfOk result (λ v. v.items ≡ premise ∷ []) }
{
    let mut premises = Vec::with_capacity(alloc, 1)?;
    premises.push(premise)?;
    Ok(premises)
}

pub(crate) fn two_premises(
    alloc: Global,
    first: Sequent,
    second: Sequent,
) -> Result<Vec<Sequent>, NoMemory>
    ensures { IfOk result (λ v. v.items ≡ first ∷ second ∷ []) }
{
    let mut premises = one_premise(alloc, first)?;
    premises.push(second)?;
    Ok(premises)
}

/// The sequent with the formula as the only hypothesis of the step.
pub(crate) fn with_hypothesis(
    alloc: Global,
    step: u32,
    q: &Sequent,
    hyp: Term,
) -> Result<Sequent, NoMemory>
    ensures { IfOk result (λ p. p ≡ with_hyps step q.now (hyp ∷ [])) }
{
    let q = q.share()?;
    q.assuming(alloc, Label2 { step, part: 1 }, hyp)
}

fn next_part(part: u32) -> Result<u32, NoMemory>
    ensures { IfOk result (λ n. n ≡ part + 1) }
{
    part.checked_add(1).ok_or(NoMemory)
}

/// The sequent with the formulas as the hypotheses of the step.
pub(crate) fn with_hypotheses(
    alloc: Global,
    step: u32,
    q: &Sequent,
    hyps: &[Term],
) -> Result<Sequent, NoMemory>
    ensures { IfOk result (λ p. p ≡ with_hyps step q.now hyps.now) }
{
    let mut all = q.share()?;
    let mut part: u32 = 1;
    for i in 0..hyps.len() {
        let hyp = hyps[i].share()?;
        all = all.assuming(alloc, Label2 { step, part }, hyp)?;
        part = next_part(part)?;
    }
    Ok(all)
}

// ---- single rules

/// Whether the hypothesis of the label is the goal, up to the names that both bind.
pub fn is_hypothesis(alloc: Global, label: Label2, q: &Sequent) -> Result<bool, NoMemory>
    ensures { IfOk result (λ b. IsTrue b ↔ ((h : Tree) × (hypothesis label q.now.hyps ≡ Some h) × SameUpToNames h q.now.goal)) }
{
    match q.hypothesis(alloc, label)? {
        None => Ok(false),
        Some(h) => {
            let goal = q.goal(alloc)?;
            h.same_up_to_names(alloc, &goal)
        }
    }
}

/// The conjuncts of the term, at all levels. They may be in one another by the thousand.
pub(crate) fn conjuncts_of(alloc: Global, t: &Term) -> Result<Vec<Term>, NoMemory>
    ensures { IfOk result (λ v. v.items ≡ conjuncts t.now) }
{
    let mut all = Vec::new(alloc);
    let mut left = Vec::new(alloc);
    left.push(t)?;
    while let Some(next) = left.pop() {
        match next.as_conjunction() {
            Some((a, b)) => {
                left.push(b)?;
                left.push(a)?;
            }
            None => all.push(next.share()?)?,
        }
    }
    Ok(all)
}

fn with_each_goal(alloc: Global, q: &Sequent, goals: &[Term]) -> Result<Vec<Sequent>, NoMemory>
    ensures { IfOk result (λ v. v.items ≡ map (with_goal q.now) goals.now) }
{
    let mut premises = Vec::with_capacity(alloc, goals.len())?;
    for i in 0..goals.len() {
        let goal = goals[i].share()?;
        premises.push(q.with_goal(goal)?)?;
    }
    Ok(premises)
}

/// A premise for each conjunct of the goal; `None` exactly where the goal is no conjunction.
pub fn split(alloc: Global, q: &Sequent) -> Result<Option<Vec<Sequent>>, NoMemory>
    ensures { IfOk result (λ o. MatchOption o
        (is_conjunction q.now.goal ≡ false)
        (λ premises. (is_conjunction q.now.goal ≡ true) × (premises.items ≡ map (with_goal q.now) (conjuncts q.now.goal)))) }
{
    let goal = q.goal(alloc)?;
    if !goal.is_conjunction() {
        return Ok(None);
    }
    let goals = conjuncts_of(alloc, &goal)?;
    let premises = with_each_goal(alloc, q, goals.as_slice())?;
    Ok(Some(premises))
}
