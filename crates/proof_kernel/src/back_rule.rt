//! The step from equal unbounded integers to equal machine integers.
ghost use Rattle.std.specs.Prelude.{◌≡◌, IfOk, Some};
ghost use Rattle.std.specs.Option.{option_copied};
ghost use Rattle.proof_kernel.specs.BackRule.{if_machine, machine_sort, is_one_sort, modeled_by, equated, back_of};

use crate::sequent::Sequent;
use logic_term::{Sort, Term, TermBinary, TermForm, TermUnary, TyNode};
use std::alloc::Global;
use text_core::NoMemory;

fn if_machine(sort: Option<&Sort>) -> Option<&Sort>
    ensures { option_copied result ≡ if_machine (option_copied sort.entry) }
{
    match sort {
        Some(sort) if matches!(&sort.node, TyNode::Int(_)) => Some(sort),
        _ => None,
    }
}

/// The machine type of the term; `None` where it is of another sort.
fn machine_sort<'a>(q: &'a Sequent, t: &'a Term) -> Option<&'a Sort>
    ensures { option_copied result ≡ machine_sort q.now.vars t.now }
{
    match t.form() {
        TermForm::Var(name) => if_machine(q.sort_of(name)),
        TermForm::Lit(_, sort) => if_machine(Some(sort)),
        _ => None,
    }
}

fn is_one_sort(s: Option<&Sort>, t: Option<&Sort>) -> bool
    ensures { result ≡ is_one_sort (option_copied s.entry) (option_copied t.entry) }
{
    match (s, t) {
        (Some(s), Some(t)) => s.same(t),
        _ => false,
    }
}

/// `a` of `a@`.
fn modeled_by(t: &Term) -> Option<&Term>
    ensures { option_copied result ≡ modeled_by t.now }
{
    match t.form() {
        TermForm::Unary(TermUnary::Model, a) => Some(a),
        _ => None,
    }
}

fn equated(
    alloc: Global,
    q: &Sequent,
    a: Option<&Term>,
    b: Option<&Term>,
) -> Result<Option<Term>, NoMemory>
    ensures { IfOk result (λ o. o ≡ equated q.now.vars (option_copied a.entry) (option_copied b.entry)) }
{
    let (Some(a), Some(b)) = (a, b) else {
        return Ok(None);
    };
    if !is_one_sort(machine_sort(q, a), machine_sort(q, b)) {
        return Ok(None);
    }
    let equation = Term::equal(alloc, a.share()?, b.share()?)?;
    Ok(Some(equation))
}

/// What `a@ == b@` says of a and b; `None` exactly where the formula is no such equation of one machine type.
pub(crate) fn back_of(alloc: Global, q: &Sequent, h: &Term) -> Result<Option<Term>, NoMemory>
    ensures { IfOk result (λ o. o ≡ back_of q.now.vars h.now) }
{
    match h.form() {
        TermForm::Binary(TermBinary::Equal, t, u) => equated(
            alloc,
            q,
            modeled_by(t),
            modeled_by(u),
        ),
        _ => Ok(None),
    }
}
