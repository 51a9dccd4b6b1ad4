//! The rules by the form of one hypothesis.
ghost use Rattle.std.specs.Prelude.{◌≡◌, ◌∷◌, [], Some, IfOk, MatchOption, map, false, if◌then◌else◌};
ghost use Rattle.logic_term.specs.Term.{not, or, implies, two, bind};
ghost use Rattle.logic_term.specs.TermOperator.{binary_operator, quantifier};
ghost use Rattle.proof_kernel.specs.HypothesisRules.{is_false, disjuncts, is_disjunction, alone, pushed, one_case, if_formulas, choice_cases, other_quantifier, denied_cases, cases_of, in_cases, together, on_hypothesis, hypothesis_rule};
ghost use Rattle.std.specs.Option.{option_map};
ghost use Rattle.proof_kernel.specs.Rules.{conjuncts, dropping, with_goal, with_hyps, Finds};

use crate::back_rule::back_of;
use crate::constructor_rules::{equates_apart, injected};
use crate::pair_rules::adding;
use crate::rules::{
    closed_if, conjuncts_of, one_premise, two_premises, with_hypotheses, with_hypothesis,
};
use crate::sequent::Sequent;
use crate::sort_tests::are_formulas;
use crate::step::HypothesisRule;
use logic_term::{Label2, Quantifier, Sort, Term, TermBinary, TermForm, TermUnary};
use std::alloc::Global;
use text_core::{Name, NoMemory};

fn is_false(t: &Term) -> bool
    ensures { result ≡ is_false t.now }
{
    match t.form() {
        TermForm::Truth(holds) => !holds,
        _ => false,
    }
}

// ---- cases

/// Both sides of a disjunction.
fn as_disjunction(t: &Term) -> Option<(&Term, &Term)>
    ensures { MatchOption result (is_disjunction t.now ≡ false) (λ p. t.now ≡ or p.0.now p.1.now) }
{
    match t.form() {
        TermForm::Binary(TermBinary::Or, a, b) => Some((a, b)),
        _ => None,
    }
}

/// The disjuncts of the term, at all levels. They may be in one another by the thousand.
fn disjuncts_of(alloc: Global, t: &Term) -> Result<Vec<Term>, NoMemory>
    ensures { IfOk result (λ v. v.items ≡ disjuncts t.now) }
{
    let mut all = Vec::new(alloc);
    let mut left = Vec::new(alloc);
    left.push(t)?;
    while let Some(next) = left.pop() {
        match as_disjunction(next) {
            Some((a, b)) => {
                left.push(b)?;
                left.push(a)?;
            }
            None => all.push(next.share()?)?,
        }
    }
    Ok(all)
}

/// A premise for each formula, which is its hypothesis.
fn with_each(alloc: Global, step: u32, q: &Sequent, hyps: &[Term]) -> Result<Vec<Sequent>, NoMemory>
    ensures { IfOk result (λ v. v.items ≡ map (with_hyps step q.now) (map alone hyps.now)) }
{
    let mut premises = Vec::with_capacity(alloc, hyps.len())?;
    for i in 0..hyps.len() {
        let hyp = hyps[i].share()?;
        premises.push(with_hypothesis(alloc, step, q, hyp)?)?;
    }
    Ok(premises)
}

fn denied(alloc: Global, t: &Term) -> Result<Term, NoMemory>
    ensures { IfOk result (λ d. d ≡ not t.now) }
{
    let t = t.share()?;
    Term::not(alloc, t)
}

/// Both joined, the second denied.
fn joined(alloc: Global, op: TermBinary, a: Term, b: &Term) -> Result<Option<Term>, NoMemory>
    ensures { IfOk result (λ o. o ≡ Some (two (binary_operator op) a (not b.now))) }
{
    let b = denied(alloc, b)?;
    let t = Term::binary(alloc, op, a, b)?;
    Ok(Some(t))
}

fn other_quantifier(word: Quantifier) -> Quantifier
    ensures { quantifier result ≡ other_quantifier (quantifier word) }
{
    match word {
        Quantifier::Forall => Quantifier::Exists,
        Quantifier::Exists => Quantifier::Forall,
    }
}

/// The denial of a quantified formula: the other quantifier over the denied body.
fn pushed_under(
    alloc: Global,
    word: Quantifier,
    name: Name,
    sort: &Sort,
    body: &Term,
) -> Result<Term, NoMemory>
    ensures { IfOk result (λ d. d ≡ bind (other_quantifier (quantifier word)) name sort.now (not body.now)) }
{
    let sort = sort.copy(alloc)?;
    let body = denied(alloc, body)?;
    Term::quantified(alloc, other_quantifier(word), name, sort, body)
}

/// The denial of the formula, pushed inward by one level.
fn pushed(alloc: Global, t: &Term) -> Result<Option<Term>, NoMemory>
    ensures { IfOk result (λ o. o ≡ pushed t.now) }
{
    match t.form() {
        TermForm::Binary(TermBinary::And, a, b) => {
            joined(alloc, TermBinary::Or, denied(alloc, a)?, b)
        }
        TermForm::Binary(TermBinary::Or, a, b) => {
            joined(alloc, TermBinary::And, denied(alloc, a)?, b)
        }
        TermForm::Binary(TermBinary::Implies, a, b) => {
            joined(alloc, TermBinary::And, a.share()?, b)
        }
        TermForm::Unary(TermUnary::Not, a) => Ok(Some(a.share()?)),
        TermForm::Quantified(word, name, sort, body) => {
            Ok(Some(pushed_under(alloc, word, name, sort, body)?))
        }
        _ => Ok(None),
    }
}

fn in_one_case(
    alloc: Global,
    step: u32,
    q: &Sequent,
    hyp: Option<Term>,
) -> Result<Option<Vec<Sequent>>, NoMemory>
    ensures { IfOk result (λ o. Finds (in_cases step q.now (one_case hyp)) o) }
{
    match hyp {
        None => Ok(None),
        Some(hyp) => {
            let premise = with_hypothesis(alloc, step, q, hyp)?;
            let premises = one_premise(alloc, premise)?;
            Ok(Some(premises))
        }
    }
}

/// One premise, with all conjuncts.
fn by_conjuncts(alloc: Global, step: u32, q: &Sequent, t: &Term) -> Result<Vec<Sequent>, NoMemory>
    ensures { IfOk result (λ v. v.items ≡ map (with_hyps step q.now) (conjuncts t.now ∷ [])) }
{
    let hyps = conjuncts_of(alloc, t)?;
    let premise = with_hypotheses(alloc, step, q, hyps.as_slice())?;
    one_premise(alloc, premise)
}

/// A premise for each disjunct.
fn by_disjuncts(alloc: Global, step: u32, q: &Sequent, t: &Term) -> Result<Vec<Sequent>, NoMemory>
    ensures { IfOk result (λ v. v.items ≡ map (with_hyps step q.now) (map alone (disjuncts t.now))) }
{
    let hyps = disjuncts_of(alloc, t)?;
    with_each(alloc, step, q, hyps.as_slice())
}

/// The premise is false, or the conclusion is true.
fn by_implication(
    alloc: Global,
    step: u32,
    q: &Sequent,
    premise: &Term,
    conclusion: &Term,
) -> Result<Vec<Sequent>, NoMemory>
    ensures { IfOk result (λ v. v.items ≡ map (with_hyps step q.now) (alone (not premise.now) ∷ alone conclusion.now ∷ [])) }
{
    let first = with_hypothesis(alloc, step, q, denied(alloc, premise)?)?;
    let second = with_hypothesis(alloc, step, q, conclusion.share()?)?;
    two_premises(alloc, first, second)
}

/// The formula, or its denial.
fn sided(alloc: Global, t: &Term, holds: bool) -> Result<Term, NoMemory>
    ensures { IfOk result (λ d. d ≡ (if holds then t.now else not t.now)) }
{
    if holds { t.share() } else { denied(alloc, t) }
}

/// The sequent where both formulas are true.
fn where_both_are(
    alloc: Global,
    step: u32,
    q: &Sequent,
    a: Term,
    b: Term,
) -> Result<Sequent, NoMemory>
    ensures { IfOk result (λ p. p ≡ with_hyps step q.now (a ∷ b ∷ [])) }
{
    let q = q.share()?;
    let q = q.assuming(alloc, Label2 { step, part: 1 }, a)?;
    q.assuming(alloc, Label2 { step, part: 2 }, b)
}

/// The sequent where each of both formulas is true or not, as is said.
fn where_they_are(
    alloc: Global,
    step: u32,
    q: &Sequent,
    a: &Term,
    a_holds: bool,
    b: &Term,
    b_holds: bool,
) -> Result<Sequent, NoMemory>
    ensures { IfOk result (λ p. p ≡ with_hyps step q.now ((if a_holds then a.now else not a.now) ∷ (if b_holds then b.now else not b.now) ∷ [])) }
{
    let a = sided(alloc, a, a_holds)?;
    let b = sided(alloc, b, b_holds)?;
    where_both_are(alloc, step, q, a, b)
}

/// Two formulas are both true or both false; or just one of them is true.
fn by_values(
    alloc: Global,
    step: u32,
    q: &Sequent,
    same: bool,
    a: &Term,
    b: &Term,
) -> Result<Option<Vec<Sequent>>, NoMemory>
    ensures { IfOk result (λ o. Finds (in_cases step q.now (if_formulas q.now.vars same a.now b.now)) o) }
{
    if !are_formulas(q, a, b) {
        return Ok(None);
    }
    let first = where_they_are(alloc, step, q, a, true, b, same)?;
    let second = where_they_are(alloc, step, q, a, false, b, !same)?;
    let premises = two_premises(alloc, first, second)?;
    Ok(Some(premises))
}

/// The condition is true, and the first side is or is not, as is said; or it is false, and the second side is or is not.
fn by_choice(
    alloc: Global,
    step: u32,
    q: &Sequent,
    holds: bool,
    condition: &Term,
    a: &Term,
    b: &Term,
) -> Result<Vec<Sequent>, NoMemory>
    ensures { IfOk result (λ v. v.items ≡ map (with_hyps step q.now) (choice_cases holds condition.now a.now b.now)) }
{
    let first = where_they_are(alloc, step, q, condition, true, a, holds)?;
    let second = where_they_are(alloc, step, q, condition, false, b, holds)?;
    two_premises(alloc, first, second)
}

/// A premise for each case of the denial of the formula.
fn denied_cases(
    alloc: Global,
    step: u32,
    q: &Sequent,
    t: &Term,
) -> Result<Option<Vec<Sequent>>, NoMemory>
    ensures { IfOk result (λ o. Finds (in_cases step q.now (denied_cases q.now.vars t.now)) o) }
{
    match t.form() {
        TermForm::Binary(TermBinary::Equal, a, b) => by_values(alloc, step, q, false, a, b),
        TermForm::Choice(c, a, b) => Ok(Some(by_choice(alloc, step, q, false, c, a, b)?)),
        _ => in_one_case(alloc, step, q, pushed(alloc, t)?),
    }
}

/// A premise for each case of the hypothesis.
fn cases(alloc: Global, step: u32, q: &Sequent, h: &Term) -> Result<Option<Vec<Sequent>>, NoMemory>
    ensures { IfOk result (λ o. Finds (in_cases step q.now (cases_of q.now.vars h.now)) o) }
{
    match h.form() {
        TermForm::Binary(TermBinary::And, _, _) => Ok(Some(by_conjuncts(alloc, step, q, h)?)),
        TermForm::Binary(TermBinary::Or, _, _) => Ok(Some(by_disjuncts(alloc, step, q, h)?)),
        TermForm::Binary(TermBinary::Implies, a, b) => {
            Ok(Some(by_implication(alloc, step, q, a, b)?))
        }
        TermForm::Binary(TermBinary::Equal, a, b) => by_values(alloc, step, q, true, a, b),
        TermForm::Choice(c, a, b) => Ok(Some(by_choice(alloc, step, q, true, c, a, b)?)),
        TermForm::Unary(TermUnary::Not, a) => denied_cases(alloc, step, q, a),
        _ => Ok(None),
    }
}

/// One premise, with all the formulas.
fn in_one_together(
    alloc: Global,
    step: u32,
    q: &Sequent,
    hyps: Option<Vec<Term>>,
) -> Result<Option<Vec<Sequent>>, NoMemory>
    ensures { IfOk result (λ o. Finds (in_cases step q.now (together (option_map (λ v. v.items) hyps))) o) }
{
    match hyps {
        None => Ok(None),
        Some(hyps) => {
            let premise = with_hypotheses(alloc, step, q, hyps.as_slice())?;
            let premises = one_premise(alloc, premise)?;
            Ok(Some(premises))
        }
    }
}

// ---- the rules

fn dropping(alloc: Global, label: Label2, q: &Sequent) -> Result<Vec<Sequent>, NoMemory>
    ensures { IfOk result (λ v. v.items ≡ dropping label q.now ∷ []) }
{
    let premise = q.dropping(alloc, label)?;
    one_premise(alloc, premise)
}

/// The premise without the hypothesis, which stands before the goal.
fn reverting(alloc: Global, label: Label2, q: &Sequent, h: &Term) -> Result<Vec<Sequent>, NoMemory>
    ensures { IfOk result (λ v. v.items ≡ with_goal (dropping label q.now) (implies h.now q.now.goal) ∷ []) }
{
    let goal = q.goal(alloc)?;
    let goal = Term::implies(alloc, h.share()?, goal)?;
    let premise = q.dropping(alloc, label)?;
    let premise = premise.with_goal(goal)?;
    one_premise(alloc, premise)
}

fn on_hypothesis(
    alloc: Global,
    rule: HypothesisRule,
    step: u32,
    label: Label2,
    q: &Sequent,
    h: &Term,
) -> Result<Option<Vec<Sequent>>, NoMemory>
    ensures { IfOk result (λ o. Finds (on_hypothesis rule step label q.now h.now) o) }
{
    match rule {
        HypothesisRule::Cases => cases(alloc, step, q, h),
        HypothesisRule::Absurd => Ok(closed_if(alloc, is_false(h))),
        HypothesisRule::Drop => Ok(Some(dropping(alloc, label, q)?)),
        HypothesisRule::Revert => Ok(Some(reverting(alloc, label, q, h)?)),
        HypothesisRule::Back => adding(alloc, step, q, back_of(alloc, q, h)?),
        HypothesisRule::Inject => in_one_together(alloc, step, q, injected(alloc, h)?),
        HypothesisRule::Differ => Ok(closed_if(alloc, equates_apart(h))),
    }
}

/// The premises of step `step`; `None` exactly where there is no hypothesis of the label, or the rule does not apply to it.
pub fn hypothesis_rule(
    alloc: Global,
    rule: HypothesisRule,
    step: u32,
    label: Label2,
    q: &Sequent,
) -> Result<Option<Vec<Sequent>>, NoMemory>
    ensures { IfOk result (λ o. Finds (hypothesis_rule rule step label q.now) o) }
{
    match q.hypothesis(alloc, label)? {
        None => Ok(None),
        Some(h) => on_hypothesis(alloc, rule, step, label, q, &h),
    }
}
