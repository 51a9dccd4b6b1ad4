//! Instances of a universal hypothesis.
ghost use Rattle.std.specs.Prelude.{◌≡◌, IfOk, Some};
ghost use Rattle.logic_elab.specs.Sorts.{same_ty};
ghost use Rattle.proof_kernel.specs.Instances.{instance, instance_rule, put_first};
ghost use Rattle.proof_kernel.specs.Rules.{Finds};
ghost use Rattle.proof_kernel.specs.TermRules.{term_at};

use crate::sequent::Sequent;
use crate::term_rules::{assuming_all, term_at};
use logic_elab::SortedTerm;
use logic_term::{AdtDecl, Label2, Quantifier, Replacement, Sort, Term, TermForm};
use source_trees::Pterm;
use std::alloc::Global;
use text_core::NoMemory;

pub(crate) fn is_sort(s: &Sort, t: &Sort) -> bool
    ensures { result ≡ same_ty s.now t.now }
{
    s.same(t)
}

/// The term for the name of the first quantifier of the formula, and what is quantified; `None` exactly where none leads it, or where the
/// term is of another sort.
fn put_first(found: SortedTerm, formula: &Term) -> Result<Option<(Replacement, Term)>, NoMemory>
    ensures { IfOk result (λ o. o ≡ put_first (Some found) formula.now) }
{
    let SortedTerm { sort, term } = found;
    match formula.form() {
        TermForm::Quantified(Quantifier::Forall, name, wanted, body) => {
            if !is_sort(&sort, wanted) {
                return Ok(None);
            }
            let by = term.into_inner();
            Ok(Some((Replacement { name, by }, body.share()?)))
        }
        _ => Ok(None),
    }
}

/// The same of a term at the sequent.
fn put_at(
    alloc: Global,
    adts: &[AdtDecl],
    q: &Sequent,
    t: &Pterm,
    formula: &Term,
) -> Result<Option<(Replacement, Term)>, NoMemory>
    ensures { IfOk result (λ o. o ≡ put_first (term_at adts.now q.now t.now) formula.now) }
{
    match term_at(alloc, adts, q, t)? {
        None => Ok(None),
        Some(found) => put_first(found, formula),
    }
}

/// The formula with the terms for the names of its leading quantifiers; `None` exactly where there is no term, or one of them does not fit.
fn instance(
    alloc: Global,
    adts: &[AdtDecl],
    q: &Sequent,
    ts: &[Pterm],
    formula: Term,
) -> Result<Option<Term>, NoMemory>
    ensures { IfOk result (λ o. o ≡ instance adts.now q.now ts.now formula) }
{
    if ts.is_empty() {
        return Ok(None);
    }
    let mut put = Vec::with_capacity(alloc, ts.len())?;
    let mut body = formula;
    for i in 0..ts.len() {
        let Some((entry, inner)) = put_at(alloc, adts, q, &ts[i], &body)? else {
            return Ok(None);
        };
        put.push(entry)?;
        body = inner;
    }
    put.reverse();
    Ok(Some(body.with(alloc, put.as_slice())?))
}

/// The premise of step `step`; `None` exactly where there is no such hypothesis, or no such instance of it.
pub(crate) fn instance_rule(
    alloc: Global,
    adts: &[AdtDecl],
    step: u32,
    label: Label2,
    ts: &[Pterm],
    q: &Sequent,
) -> Result<Option<Vec<Sequent>>, NoMemory>
    ensures { IfOk result (λ o. Finds (instance_rule adts.now step q.now label ts.now) o) }
{
    let Some(formula) = q.hypothesis(alloc, label)? else {
        return Ok(None);
    };
    let Some(found) = instance(alloc, adts, q, ts, formula)? else {
        return Ok(None);
    };
    Ok(Some(assuming_all(alloc, step, q, &[found])?))
}
