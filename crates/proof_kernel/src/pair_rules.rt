//! The rules by the forms of two hypotheses.
ghost use Rattle.std.specs.Prelude.{◌≡◌, IfOk, Some, None, if◌then◌else◌};
ghost use Rattle.proof_kernel.specs.PairRules.{concluded, is_denied_by, distance, product, adding, on_two, pair_rule};
ghost use Rattle.proof_kernel.specs.Rules.{Finds};

use crate::rules::{are_same, closed_if, one_premise, with_hypothesis};
use crate::sequent::Sequent;
use crate::step::PairRule;
use logic_term::{Label2, Term, TermBinary, TermForm, TermUnary};
use source_kinds::ArithOp;
use std::alloc::Global;
use text_core::NoMemory;

// ---- forms

fn shared_if(holds: bool, t: &Term) -> Result<Option<Term>, NoMemory>
    ensures { IfOk result (λ o. o ≡ (if holds then Some t.now else None)) }
{
    if holds {
        let t = t.share()?;
        Ok(Some(t))
    } else {
        Ok(None)
    }
}

/// What the implication says where its premise is this formula, up to bound names.
fn concluded(alloc: Global, h: &Term, premise: &Term) -> Result<Option<Term>, NoMemory>
    ensures { IfOk result (λ o. o ≡ concluded h.now premise.now) }
{
    match h.form() {
        TermForm::Binary(TermBinary::Implies, a, b) => shared_if(are_same(alloc, a, premise)?, b),
        _ => Ok(None),
    }
}

/// Whether the second denies the first, up to bound names.
fn is_denied_by(alloc: Global, h: &Term, denial: &Term) -> Result<bool, NoMemory>
    ensures { IfOk result (λ b. b ≡ is_denied_by h.now denial.now) }
{
    match denial.form() {
        TermForm::Unary(TermUnary::Not, a) => are_same(alloc, a, h),
        _ => Ok(false),
    }
}

/// `b - a` of `a <= b`
fn distance(alloc: Global, t: &Term) -> Result<Option<Term>, NoMemory>
    ensures { IfOk result (λ o. o ≡ distance t.now) }
{
    match t.form() {
        TermForm::Binary(TermBinary::AtMost, a, b) => {
            let b = b.share()?;
            let d = Term::calculate(alloc, ArithOp::Sub, b, a.share()?)?;
            Ok(Some(d))
        }
        _ => Ok(None),
    }
}

/// `0 <= x * y`
fn not_negative(alloc: Global, x: Term, y: Term) -> Result<Term, NoMemory>
    ensures { IfOk result (λ t. product (Some x) (Some y) ≡ Some t) }
{
    let times = Term::calculate(alloc, ArithOp::Mul, x, y)?;
    let zero = Term::integer(alloc, 0)?;
    Term::at_most(alloc, zero, times)
}

/// `0 <= (b - a) * (d - c)` of `a <= b` and `c <= d`
fn product(alloc: Global, h: &Term, k: &Term) -> Result<Option<Term>, NoMemory>
    ensures { IfOk result (λ o. o ≡ product (distance h.now) (distance k.now)) }
{
    let Some(x) = distance(alloc, h)? else {
        return Ok(None);
    };
    let Some(y) = distance(alloc, k)? else {
        return Ok(None);
    };
    let t = not_negative(alloc, x, y)?;
    Ok(Some(t))
}

// ---- the rules

pub(crate) fn adding(
    alloc: Global,
    step: u32,
    q: &Sequent,
    hyp: Option<Term>,
) -> Result<Option<Vec<Sequent>>, NoMemory>
    ensures { IfOk result (λ o. Finds (adding step q.now hyp) o) }
{
    match hyp {
        None => Ok(None),
        Some(hyp) => {
            let premise = with_hypothesis(alloc, step, q, hyp)?;
            let premises = one_premise(alloc, premise)?;
            Ok(Some(premises))
        }
    }
}

fn on_two(
    alloc: Global,
    rule: PairRule,
    step: u32,
    q: &Sequent,
    h: &Term,
    k: &Term,
) -> Result<Option<Vec<Sequent>>, NoMemory>
    ensures { IfOk result (λ o. Finds (on_two rule step q.now h.now k.now) o) }
{
    match rule {
        PairRule::ModusPonens => adding(alloc, step, q, concluded(alloc, h, k)?),
        PairRule::Contradiction => Ok(closed_if(alloc, is_denied_by(alloc, h, k)?)),
        PairRule::Product => adding(alloc, step, q, product(alloc, h, k)?),
    }
}

/// The premises of step `step`; `None` exactly where a hypothesis is missing, or the rule does not apply to them.
pub fn pair_rule(
    alloc: Global,
    rule: PairRule,
    step: u32,
    first: Label2,
    second: Label2,
    q: &Sequent,
) -> Result<Option<Vec<Sequent>>, NoMemory>
    ensures { IfOk result (λ o. Finds (pair_rule rule step first second q.now) o) }
{
    let Some(h) = q.hypothesis(alloc, first)? else {
        return Ok(None);
    };
    let Some(k) = q.hypothesis(alloc, second)? else {
        return Ok(None);
    };
    on_two(alloc, rule, step, q, &h, &k)
}
