//! Terms of the sorts bool and Int, by their forms.
ghost use Rattle.std.specs.Prelude.{◌≡◌};
ghost use Rattle.proof_kernel.specs.SortTests.{is_bool_var, is_formula, are_formulas, are_integers};
ghost use Rattle.proof_kernel.specs.Rules.{sort_of};

use crate::linear::is_integer;
use crate::sequent::Sequent;
use logic_term::{Term, TermBinary, TermForm, TermUnary, TyNode};
use text_core::Name;

/// Whether the variable has the sort bool.
fn is_bool_var(q: &Sequent, name: Name) -> bool
    ensures { result ≡ is_bool_var (sort_of name q.now.vars) }
{
    match q.sort_of(name) {
        Some(sort) => matches!(sort.node, TyNode::Bool),
        None => false,
    }
}

/// Whether the term has the sort bool: an `if` where both its sides do.
#[cycle(is_formula)]
fn is_formula(q: &Sequent, t: &Term) -> bool
    ensures { result ≡ is_formula q.now.vars t.now }
{
    match t.form() {
        TermForm::Var(name) => is_bool_var(q, name),
        TermForm::Choice(_, a, b) => is_formula(q, a) && is_formula(q, b),
        TermForm::Lit(_, _)
        | TermForm::Make(_, _)
        | TermForm::Unary(TermUnary::Model | TermUnary::Negative | TermUnary::Field(_), _)
        | TermForm::Binary(TermBinary::Arith(_), _, _) => false,
        _ => true,
    }
}

pub(crate) fn are_formulas(q: &Sequent, a: &Term, b: &Term) -> bool
    ensures { result ≡ are_formulas q.now.vars a.now b.now }
{
    is_formula(q, a) && is_formula(q, b)
}

pub(crate) fn are_integers(q: &Sequent, a: &Term, b: &Term) -> bool
    ensures { result ≡ are_integers q.now.vars a.now b.now }
{
    is_integer(q, a) && is_integer(q, b)
}
