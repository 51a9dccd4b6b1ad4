//! The rules by the form of the goal.
ghost use Rattle.std.specs.Prelude.{◌≡◌, ◌∷◌, [], Some, IfOk};
ghost use Rattle.logic_term.specs.Term.{implies, is_at_most, is_equal};
ghost use Rattle.std.specs.Option.{option_copied};
ghost use Rattle.proof_kernel.specs.GoalRules.{is_reflexive, is_true, left_of, right_of, denied_of, both_ways, both_orders, to_show, to_show_all, refuting, to_refute, goal_rule};
ghost use Rattle.proof_kernel.specs.Rules.{Finds};
ghost use Rattle.proof_kernel.specs.declared.step.GoalRule.TheVariants as rules;

use crate::rules::{are_same, closed_if, one_premise, two_premises, with_hypothesis};
use crate::sequent::Sequent;
use crate::sort_tests::{are_formulas, are_integers};
use crate::step::GoalRule;
use logic_term::{Term, TermBinary, TermForm, TermUnary};
use std::alloc::Global;
use text_core::NoMemory;

// ---- forms

/// Whether the formula is an equation of a term with itself, up to bound names.
fn is_reflexive(alloc: Global, t: &Term) -> Result<bool, NoMemory>
    ensures { IfOk result (λ b. b ≡ is_reflexive t.now) }
{
    match t.form() {
        TermForm::Binary(TermBinary::Equal, a, b) => are_same(alloc, a, b),
        _ => Ok(false),
    }
}

fn is_true(t: &Term) -> bool
    ensures { result ≡ is_true t.now }
{
    match t.form() {
        TermForm::Truth(holds) => holds,
        _ => false,
    }
}

fn left_of(t: &Term) -> Option<&Term>
    ensures { option_copied result ≡ left_of t.now }
{
    match t.form() {
        TermForm::Binary(TermBinary::Or, a, _) => Some(a),
        _ => None,
    }
}

fn right_of(t: &Term) -> Option<&Term>
    ensures { option_copied result ≡ right_of t.now }
{
    match t.form() {
        TermForm::Binary(TermBinary::Or, _, b) => Some(b),
        _ => None,
    }
}

/// What the formula denies.
fn denied_of(t: &Term) -> Option<&Term>
    ensures { option_copied result ≡ denied_of t.now }
{
    match t.form() {
        TermForm::Unary(TermUnary::Not, a) => Some(a),
        _ => None,
    }
}

// ---- premises

fn to_show(
    alloc: Global,
    q: &Sequent,
    goal: Option<&Term>,
) -> Result<Option<Vec<Sequent>>, NoMemory>
    ensures { IfOk result (λ o. Finds (to_show q.now (option_copied goal.entry)) o) }
{
    match goal {
        None => Ok(None),
        Some(goal) => {
            let premise = q.with_goal(goal.share()?)?;
            let premises = one_premise(alloc, premise)?;
            Ok(Some(premises))
        }
    }
}

/// The premise with the hypothesis and the goal `false`.
fn refuting(alloc: Global, step: u32, q: &Sequent, hyp: Term) -> Result<Vec<Sequent>, NoMemory>
    ensures { IfOk result (λ v. v.items ≡ refuting step q.now hyp ∷ []) }
{
    let q = with_hypothesis(alloc, step, q, hyp)?;
    let goal = Term::truth(alloc, false)?;
    let premise = q.with_goal(goal)?;
    one_premise(alloc, premise)
}

fn to_refute(
    alloc: Global,
    step: u32,
    q: &Sequent,
    hyp: Option<&Term>,
) -> Result<Option<Vec<Sequent>>, NoMemory>
    ensures { IfOk result (λ o. Finds (to_refute step q.now (option_copied hyp.entry)) o) }
{
    match hyp {
        None => Ok(None),
        Some(hyp) => {
            let premises = refuting(alloc, step, q, hyp.share()?)?;
            Ok(Some(premises))
        }
    }
}

// ---- equations

fn both_goals(
    alloc: Global,
    q: &Sequent,
    first: Term,
    second: Term,
) -> Result<Option<Vec<Sequent>>, NoMemory>
    ensures { IfOk result (λ o. Finds (to_show_all q.now (Some (first ∷ second ∷ []))) o) }
{
    let first = q.with_goal(first)?;
    let second = q.with_goal(second)?;
    let premises = two_premises(alloc, first, second)?;
    Ok(Some(premises))
}

fn implication(alloc: Global, a: &Term, b: &Term) -> Result<Term, NoMemory>
    ensures { IfOk result (λ t. t ≡ implies a.now b.now) }
{
    let a = a.share()?;
    Term::implies(alloc, a, b.share()?)
}

fn order(alloc: Global, a: &Term, b: &Term) -> Result<Term, NoMemory>
    ensures { IfOk result (λ t. t ≡ is_at_most a.now b.now) }
{
    let a = a.share()?;
    Term::at_most(alloc, a, b.share()?)
}

fn both_ways_of(
    alloc: Global,
    q: &Sequent,
    a: &Term,
    b: &Term,
) -> Result<Option<Vec<Sequent>>, NoMemory>
    ensures { IfOk result (λ o. Finds (to_show_all q.now (both_ways q.now.vars (is_equal a.now b.now))) o) }
{
    if !are_formulas(q, a, b) {
        return Ok(None);
    }
    let there = implication(alloc, a, b)?;
    let back = implication(alloc, b, a)?;
    both_goals(alloc, q, there, back)
}

/// Of an equation of formulas: each implies the other.
fn both_ways(alloc: Global, q: &Sequent, goal: &Term) -> Result<Option<Vec<Sequent>>, NoMemory>
    ensures { IfOk result (λ o. Finds (to_show_all q.now (both_ways q.now.vars goal.now)) o) }
{
    match goal.form() {
        TermForm::Binary(TermBinary::Equal, a, b) => both_ways_of(alloc, q, a, b),
        _ => Ok(None),
    }
}

fn both_orders_of(
    alloc: Global,
    q: &Sequent,
    a: &Term,
    b: &Term,
) -> Result<Option<Vec<Sequent>>, NoMemory>
    ensures { IfOk result (λ o. Finds (to_show_all q.now (both_orders q.now.vars (is_equal a.now b.now))) o) }
{
    if !are_integers(q, a, b) {
        return Ok(None);
    }
    let there = order(alloc, a, b)?;
    let back = order(alloc, b, a)?;
    both_goals(alloc, q, there, back)
}

/// Of an equation of integers: each is at most the other.
fn both_orders(alloc: Global, q: &Sequent, goal: &Term) -> Result<Option<Vec<Sequent>>, NoMemory>
    ensures { IfOk result (λ o. Finds (to_show_all q.now (both_orders q.now.vars goal.now)) o) }
{
    match goal.form() {
        TermForm::Binary(TermBinary::Equal, a, b) => both_orders_of(alloc, q, a, b),
        _ => Ok(None),
    }
}

// ---- the rules

fn by_contradiction(
    alloc: Global,
    step: u32,
    q: &Sequent,
    goal: &Term,
) -> Result<Option<Vec<Sequent>>, NoMemory>
    requires { goal.now ≡ q.now.goal }
    ensures { IfOk result (λ o. Finds (goal_rule rules.ByContradiction step q.now) o) }
{
    let hyp = Term::not(alloc, goal.share()?)?;
    let premises = refuting(alloc, step, q, hyp)?;
    Ok(Some(premises))
}

/// The premises of step `step`; `None` exactly where the rule does not apply.
pub fn goal_rule(
    alloc: Global,
    rule: GoalRule,
    step: u32,
    q: &Sequent,
) -> Result<Option<Vec<Sequent>>, NoMemory>
    ensures { IfOk result (λ o. Finds (goal_rule rule step q.now) o) }
{
    let goal = q.goal(alloc)?;
    match rule {
        GoalRule::Refl => Ok(closed_if(alloc, is_reflexive(alloc, &goal)?)),
        GoalRule::Truth => Ok(closed_if(alloc, is_true(&goal))),
        GoalRule::Left => to_show(alloc, q, left_of(&goal)),
        GoalRule::Right => to_show(alloc, q, right_of(&goal)),
        GoalRule::Contra => to_refute(alloc, step, q, denied_of(&goal)),
        GoalRule::ByContradiction => by_contradiction(alloc, step, q, &goal),
        GoalRule::Iff => both_ways(alloc, q, &goal),
        GoalRule::Antisymmetry => both_orders(alloc, q, &goal),
    }
}
