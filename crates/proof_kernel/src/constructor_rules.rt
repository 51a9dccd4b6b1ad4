//! What an equation of values that constructors made says.
ghost use Rattle.std.specs.Prelude.{◌≡◌, None, Some, IfOk, MatchOption, length};
ghost use Rattle.std.specs.Option.{option_map};
ghost use Rattle.logic_term.specs.Matches.{same_ctor};
ghost use Rattle.logic_term.specs.Term.{Terms};
ghost use Rattle.logic_term.specs.TermView.{terms_of};
ghost use Rattle.logic_term.specs.declared.kinds.Ctor.{Ctor as Constructor};
ghost use Rattle.proof_kernel.specs.ConstructorRules.{constructed, equations, injected, injected_by, equates_apart, apart_by};

use logic_term::{Ctor, Term, TermBinary, TermForm};
use std::alloc::Global;
use text_core::NoMemory;

fn same_ctor(a: Ctor, b: Ctor) -> bool
    ensures { result ≡ same_ctor a b }
{
    match (a, b) {
        (Ctor::Tuple, Ctor::Tuple) => true,
        (Ctor::Variant(d, k), Ctor::Variant(e, j)) => d.0 == e.0 && k == j,
        (Ctor::Closure(n), Ctor::Closure(m)) => n == m,
        _ => false,
    }
}

/// The constructor that makes the value, and its parts.
fn constructed(t: &Term) -> Option<(Ctor, &[Term])>
    ensures { MatchOption result (constructed t.now ≡ None) (λ p. constructed t.now ≡ Some (p.0, terms_of p.1.now)) }
{
    match t.form() {
        TermForm::Make(ctor, parts) => Some((ctor, parts)),
        _ => None,
    }
}

/// The equations of the terms at the same places, of which there are equally many.
fn equations(alloc: Global, a: &[Term], b: &[Term]) -> Result<Vec<Term>, NoMemory>
    requires { length a.now ≡ length b.now }
    ensures { IfOk result (λ v. v.items ≡ equations (terms_of a.now) (terms_of b.now)) }
{
    let mut all = Vec::with_capacity(alloc, a.len())?;
    for i in 0..a.len() {
        let equation = Term::equal(alloc, a[i].share()?, b[i].share()?)?;
        all.push(equation)?;
    }
    Ok(all)
}

/// The equations of the parts; `None` exactly where the terms are no values of one constructor, with equally many parts.
fn injected_by(alloc: Global, a: &Term, b: &Term) -> Result<Option<Vec<Term>>, NoMemory>
    ensures { IfOk result (λ o. option_map (λ v. v.items) o ≡ injected_by (constructed a.now) (constructed b.now)) }
{
    match (constructed(a), constructed(b)) {
        (Some((c, ts)), Some((d, us))) => {
            if same_ctor(c, d) && ts.len() == us.len() {
                Ok(Some(equations(alloc, ts, us)?))
            } else {
                Ok(None)
            }
        }
        _ => Ok(None),
    }
}

/// The equations of the parts, if the formula equates two values of one constructor.
pub(crate) fn injected(alloc: Global, h: &Term) -> Result<Option<Vec<Term>>, NoMemory>
    ensures { IfOk result (λ o. option_map (λ v. v.items) o ≡ injected h.now) }
{
    match h.form() {
        TermForm::Binary(TermBinary::Equal, a, b) => injected_by(alloc, a, b),
        _ => Ok(None),
    }
}

fn are_apart(a: &Term, b: &Term) -> bool
    ensures { result ≡ apart_by (constructed a.now) (constructed b.now) }
{
    match (constructed(a), constructed(b)) {
        (Some((c, _)), Some((d, _))) => !same_ctor(c, d),
        _ => false,
    }
}

/// Whether the formula equates values of two constructors.
pub(crate) fn equates_apart(h: &Term) -> bool
    ensures { result ≡ equates_apart h.now }
{
    match h.form() {
        TermForm::Binary(TermBinary::Equal, a, b) => are_apart(a, b),
        _ => false,
    }
}
