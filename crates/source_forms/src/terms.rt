//! Terms of contracts.
ghost use Rattle.std.specs.Prelude.{◌≡◌};
ghost use Rattle.std.specs.Option.{option_copied};
ghost use Rattle.source_trees.specs.Pterm as T;
ghost use Rattle.source_trees.specs.PtermView.{terms_of, field_terms_of, arms_of};
ghost use Rattle.source_forms.specs.Forms.{is_among, here, in_each, ◌or_else◌};
ghost use Rattle.source_forms.specs.TermForms.{unary_term_form, quantifier_form, unbuilt_binder, unbuilt_term, unbuilt_terms, unbuilt_field_terms, unbuilt_term_arms};
ghost use Rattle.source_forms.specs.LeftForms.{left_term, before_term, behind_term};

use crate::form::{ELSEWHERE, Form};
use crate::patterns::unbuilt_pattern;
use crate::place::here;
use crate::types::{path_form, unbuilt_path, unbuilt_type};
use source_trees::{Binder, FieldTerm, Path, Pterm, PtermNode, Quantifier, TermArm, UnaryTerm};
use text_core::Span;

fn unary_term_form(op: UnaryTerm) -> Form
    ensures { result ≡ unary_term_form op }
{
    match op {
        UnaryTerm::Neg => Form::NegativeTerm,
        UnaryTerm::Not => Form::NotTerm,
        UnaryTerm::Current => Form::CurrentTerm,
        UnaryTerm::Final => Form::FinalTerm,
        UnaryTerm::View => Form::ViewTerm,
    }
}

fn quantifier_form(quantifier: Quantifier) -> Form
    ensures { result ≡ quantifier_form quantifier }
{
    match quantifier {
        Quantifier::Forall => Form::Forall,
        Quantifier::Exists => Form::Exists,
    }
}

/// A path alone.
fn path(built: &[Form], span: Span, path: &Path) -> Option<u64>
    ensures { result ≡ unbuilt_term (is_among built.now) (T.path span path.now) }
{
    let form = path_form(Form::NameTerm, Form::PathTerm, path);
    first_of!(here(built, form, span), unbuilt_path(built, path))
}

/// The types of what a quantifier binds.
fn unbuilt_binders(built: &[Form], binders: &[Binder]) -> Option<u64>
    ensures { result ≡ in_each (unbuilt_binder (is_among built.now)) binders.now }
{
    for binder in binders {
        if let Some(start) = unbuilt_type(built, &binder.ty) {
            return Some(start);
        }
    }
    None
}

/// The operand on the left.
fn left_of(term: &Pterm) -> Option<&Pterm>
    ensures { option_copied result ≡ left_term term.now }
{
    match &*term.node {
        PtermNode::Unary(_, t) => Some(t),
        PtermNode::Binary(_, t, _) => Some(t),
        PtermNode::Field(t, _) => Some(t),
        PtermNode::Part(t, _) => Some(t),
        PtermNode::Method(t, _, _) => Some(t),
        _ => None,
    }
}

/// The first form in the term that is not built. Operands on the left are gone down by the loop, since they may be in one another by
/// the thousand: what is behind one of them comes before what is behind the terms that it is in.
#[cycle(unbuilt_term)]
pub(crate) fn unbuilt_term(built: &[Form], term: &Pterm) -> Option<u64>
    ensures { result ≡ unbuilt_term (is_among built.now) term.now }
{
    let mut term = term;
    let mut after = None;
    while let Some(left) = left_of(term) {
        if let Some(start) = unbuilt_before(built, term) {
            return Some(start);
        }
        after = first_of!(unbuilt_behind(built, term), after);
        term = left;
    }
    first_of!(unbuilt_before(built, term), after)
}

/// What is before the operand on the left, or all of the term where there is none.
#[cycle(unbuilt_term)]
fn unbuilt_before(built: &[Form], term: &Pterm) -> Option<u64>
    ensures { result ≡ before_term (is_among built.now) term.now }
{
    let span = term.span;
    match &*term.node {
        PtermNode::Int(_, _) => here(built, Form::IntegerTerm, span),
        PtermNode::Truth(_) => here(built, Form::TruthTerm, span),
        PtermNode::Answer(_) => here(built, Form::Answer, span),
        PtermNode::Receiver => here(built, Form::SelfTerm, span),
        PtermNode::Path(of) => path(built, span, of),
        PtermNode::Unary(op, _) => here(built, unary_term_form(*op), span),
        PtermNode::Binary(_, _, _) => here(built, Form::BinaryTerm, span),
        PtermNode::MutRef(t, u) => two(built, Form::MutRefTerm, span, t, u),
        PtermNode::Field(_, _) => here(built, Form::FieldTerm, span),
        PtermNode::Part(_, _) => here(built, Form::PartTerm, span),
        PtermNode::Method(_, _, _) => here(built, Form::MethodTerm, span),
        PtermNode::Call(of, arguments) => call(built, span, of, arguments),
        PtermNode::Literal(of, fields) => literal(built, span, of, fields),
        PtermNode::Tuple(parts) => several(built, Form::TupleTerm, span, parts),
        PtermNode::If(condition, yes, no) => choice(built, span, condition, yes, no),
        PtermNode::Match(t, arms) => matching(built, span, t, arms),
        PtermNode::Quantified(quantifier, binders, body) => {
            quantified(built, span, *quantifier, binders, body)
        }
        PtermNode::Predicate(_, arguments) => {
            several(built, Form::PredicateTerm, span, arguments)
        }
    }
}

/// What is behind the operand on the left.
#[cycle(unbuilt_term)]
fn unbuilt_behind(built: &[Form], term: &Pterm) -> Option<u64>
    ensures { result ≡ behind_term (is_among built.now) term.now }
{
    match &*term.node {
        PtermNode::Binary(_, _, u) => unbuilt_term(built, u),
        PtermNode::Method(_, _, arguments) => unbuilt_terms(built, arguments),
        _ => None,
    }
}

/// A form with two parts.
#[cycle(unbuilt_term)]
fn two(built: &[Form], form: Form, span: Span, t: &Pterm, u: &Pterm) -> Option<u64>
    ensures { result ≡ (here (is_among built.now) form span or_else unbuilt_term (is_among built.now) t.now or_else unbuilt_term (is_among built.now) u.now) }
{
    first_of!(
        here(built, form, span),
        unbuilt_term(built, t),
        unbuilt_term(built, u)
    )
}

/// A form with a list of parts.
#[cycle(unbuilt_term)]
fn several(built: &[Form], form: Form, span: Span, terms: &[Pterm]) -> Option<u64>
    ensures { result ≡ (here (is_among built.now) form span or_else unbuilt_terms (is_among built.now) (terms_of terms.now)) }
{
    first_of!(here(built, form, span), unbuilt_terms(built, terms))
}

#[cycle(unbuilt_term)]
fn call(built: &[Form], span: Span, path: &Path, arguments: &[Pterm]) -> Option<u64>
    ensures { result ≡ unbuilt_term (is_among built.now) (T.call span path.now (terms_of arguments.now)) }
{
    first_of!(
        here(built, Form::CallTerm, span),
        unbuilt_path(built, path),
        unbuilt_terms(built, arguments)
    )
}

#[cycle(unbuilt_term)]
fn literal(built: &[Form], span: Span, path: &Path, fields: &[FieldTerm]) -> Option<u64>
    ensures { result ≡ unbuilt_term (is_among built.now) (T.literal span path.now (field_terms_of fields.now)) }
{
    first_of!(
        here(built, Form::LiteralTerm, span),
        unbuilt_path(built, path),
        unbuilt_field_terms(built, fields)
    )
}

#[cycle(unbuilt_term)]
fn choice(built: &[Form], span: Span, condition: &Pterm, yes: &Pterm, no: &Pterm) -> Option<u64>
    ensures { result ≡ unbuilt_term (is_among built.now) (T.choice span condition.now yes.now no.now) }
{
    first_of!(
        here(built, Form::IfTerm, span),
        unbuilt_term(built, condition),
        unbuilt_term(built, yes),
        unbuilt_term(built, no)
    )
}

#[cycle(unbuilt_term)]
fn matching(built: &[Form], span: Span, t: &Pterm, arms: &[TermArm]) -> Option<u64>
    ensures { result ≡ unbuilt_term (is_among built.now) (T.matching span t.now (arms_of arms.now)) }
{
    first_of!(
        here(built, Form::MatchTerm, span),
        unbuilt_term(built, t),
        unbuilt_term_arms(built, arms)
    )
}

#[cycle(unbuilt_term)]
fn quantified(
    built: &[Form],
    span: Span,
    quantifier: Quantifier,
    binders: &[Binder],
    body: &Pterm,
) -> Option<u64>
    ensures { result ≡ unbuilt_term (is_among built.now) (T.quantified span quantifier binders.now body.now) }
{
    first_of!(
        here(built, quantifier_form(quantifier), span),
        unbuilt_binders(built, binders),
        unbuilt_term(built, body)
    )
}

#[cycle(unbuilt_term)]
#[tactic(auto, using(crate::proofs::Sizes::parts))]
fn unbuilt_terms(built: &[Form], terms: &[Pterm]) -> Option<u64>
    ensures { result ≡ unbuilt_terms (is_among built.now) (terms_of terms.now) }
{
    for term in terms {
        if let Some(start) = unbuilt_term(built, term) {
            return Some(start);
        }
    }
    None
}

#[cycle(unbuilt_term)]
#[tactic(auto, using(crate::proofs::Sizes::parts))]
fn unbuilt_field_terms(built: &[Form], fields: &[FieldTerm]) -> Option<u64>
    ensures { result ≡ unbuilt_field_terms (is_among built.now) (field_terms_of fields.now) }
{
    for field in fields {
        if let Some(start) = unbuilt_term(built, &field.value) {
            return Some(start);
        }
    }
    None
}

#[cycle(unbuilt_term)]
#[tactic(auto, using(crate::proofs::Sizes::parts))]
fn unbuilt_term_arms(built: &[Form], arms: &[TermArm]) -> Option<u64>
    ensures { result ≡ unbuilt_term_arms (is_among built.now) (arms_of arms.now) }
{
    for arm in arms {
        if let Some(start) = unbuilt_pattern(built, &ELSEWHERE, &arm.pattern) {
            return Some(start);
        }
        if let Some(start) = unbuilt_term(built, &arm.body) {
            return Some(start);
        }
    }
    None
}
