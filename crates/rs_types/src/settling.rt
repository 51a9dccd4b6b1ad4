//! Rounds over cases, until a further one changes nothing.
ghost use Rattle.std.specs.Prelude.{◌≡◌, IfOk, IsTrue, map};
ghost use Rattle.rs_types.specs.Refused.{ChecksAreAsked};
ghost use Rattle.rs_types.specs.Weighing.{reweighed, roots_from, Settled};

use crate::asking::{ask_for, variants_at};
use crate::checks::Check;
use crate::weighing::{Case, Question, same_weights, variants_weight};
use logic_term::AdtDecl;
use std::alloc::Global;
use text_core::{Items, NoMemory};

/// A case for each declared type, whatever its type arguments are.
fn roots(alloc: Global, decls: &[AdtDecl]) -> Result<Vec<Case>, NoMemory>
    ensures { IfOk result (λ v. v.items ≡ roots_from 0 decls.now) }
{
    let mut cases = Vec::with_capacity(alloc, decls.len())?;
    for d in 0..decls.len() {
        let adt = u32::try_from(d).map_err(|_| NoMemory)?;
        cases.push(Case {
            adt,
            given: Items::new(alloc),
            weight: 0,
        })?;
    }
    Ok(cases)
}

/// The case with what it weighs by the cases.
fn weighed_again(
    alloc: Global,
    question: Question,
    decls: &[AdtDecl],
    cases: &[Case],
    case: &Case,
) -> Result<Case, NoMemory>
    ensures { IfOk result (λ c. c ≡ reweighed question decls.now cases.now case.now) }
{
    let variants = variants_at(decls, case.adt);
    let weight = variants_weight(alloc, question, cases, case.given.as_slice(), variants)?;
    let given = Items::from_vec(Vec::from_slice(alloc, case.given.as_slice())?);
    Ok(Case {
        adt: case.adt,
        given,
        weight,
    })
}

fn all_weighed_again(
    alloc: Global,
    question: Question,
    decls: &[AdtDecl],
    cases: &[Case],
) -> Result<Vec<Case>, NoMemory>
    ensures { IfOk result (λ v. v.items ≡ map (reweighed question decls.now cases.now) cases.now) }
{
    let mut again = Vec::with_capacity(alloc, cases.len())?;
    for i in 0..cases.len() {
        again.push(weighed_again(alloc, question, decls, cases, &cases[i])?)?;
    }
    Ok(again)
}

#[tactic(auto, using(crate::proofs::Cases::same_case))]
fn is_same(one: &Case, other: &Case) -> bool
    ensures { IsTrue result → one.now ≡ other.now }
{
    one.adt == other.adt
        && one.weight == other.weight
        && same_weights(one.given.as_slice(), other.given.as_slice())
}

fn are_same(one: &[Case], other: &[Case]) -> bool
    ensures { IsTrue result → one.now ≡ other.now }
{
    if one.len() != other.len() {
        return false;
    }
    for i in 0..one.len() {
        if !is_same(&one[i], &other[i]) {
            return false;
        }
    }
    true
}

/// What all declared types weigh, at all arguments that matter to their fields and to the types of the checks. Each round but the last adds a case
/// or makes a weight larger, so that memory is at its end before the number of rounds is.
#[tactic(auto, using(crate::proofs::Growth::one_round, crate::proofs::Growth::settled))]
pub(crate) fn settled_for(
    alloc: Global,
    question: Question,
    decls: &[AdtDecl],
    checks: &[Check],
) -> Result<Vec<Case>, NoMemory>
    ensures settled { IfOk result (λ v. Settled question decls.now v.items) }
    ensures asked { IfOk result (λ v. ChecksAreAsked question v.items checks.now) }
{
    let mut cases = roots(alloc, decls)?;
    for _ in 0..u32::MAX {
        let mut next = all_weighed_again(alloc, question, decls, cases.as_slice())?;
        ask_for(alloc, question, decls, cases.as_slice(), checks, &mut next)?;
        if are_same(next.as_slice(), cases.as_slice()) {
            return Ok(cases);
        }
        cases = next;
    }
    Err(NoMemory)
}

/// What all declared types weigh, at all arguments that matter to their fields.
pub(crate) fn settled(
    alloc: Global,
    question: Question,
    decls: &[AdtDecl],
) -> Result<Vec<Case>, NoMemory>
    ensures { IfOk result (λ v. Settled question decls.now v.items) }
{
    settled_for(alloc, question, decls, &[])
}
