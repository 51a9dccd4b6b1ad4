//! Attributes and parameters.
ghost use Rattle.std.specs.Prelude.{◌≡◌};
ghost use Rattle.source_forms.specs.Forms.{is_among, in_each};
ghost use Rattle.source_forms.specs.ExprForms.{clause_form, unbuilt_attribute, borrowed_form, unbuilt_param};

use crate::form::{Form, Promises};
use crate::place::here;
use crate::terms::unbuilt_term;
use crate::types::unbuilt_type;
use source_trees::{Attribute, AttributeNode, ClauseKind, Param, ParamNode};

fn clause_form(forms: &Promises, kind: ClauseKind) -> Form
    ensures { result ≡ clause_form forms.now kind }
{
    match kind {
        ClauseKind::Requires => forms.precondition,
        ClauseKind::Ensures => forms.postcondition,
        ClauseKind::Invariant => forms.invariant,
        ClauseKind::Variant => forms.variant,
    }
}

/// The first form in the attribute that is not built, by the forms that it may have where it stands.
#[tactic(auto, unfolding(crate::specs::ExprForms::unbuilt_attribute))]
fn unbuilt_attribute(built: &[Form], forms: &Promises, attribute: &Attribute) -> Option<u64>
    ensures { result ≡ unbuilt_attribute (is_among built.now) forms.now attribute.now }
{
    let span = attribute.span;
    match &attribute.node {
        AttributeNode::Clause(kind, term) => {
            let form = clause_form(forms, *kind);
            first_of!(here(built, form, span), unbuilt_term(built, term))
        }
        AttributeNode::Logic => here(built, forms.logic, span),
        AttributeNode::Law => here(built, forms.law, span),
        AttributeNode::Derive(_) => here(built, forms.derive, span),
        AttributeNode::Skipped => None,
    }
}

pub(crate) fn unbuilt_attributes(
    built: &[Form],
    forms: &Promises,
    attributes: &[Attribute],
) -> Option<u64>
    ensures { result ≡ in_each (unbuilt_attribute (is_among built.now) forms.now) attributes.now }
{
    for attribute in attributes {
        if let Some(start) = unbuilt_attribute(built, forms, attribute) {
            return Some(start);
        }
    }
    None
}

fn borrowed_form(mutable: bool) -> Form
    ensures { result ≡ borrowed_form mutable }
{
    if mutable {
        Form::MutableSelfParameter
    } else {
        Form::SharedSelfParameter
    }
}

#[tactic(auto, unfolding(crate::specs::ExprForms::unbuilt_param))]
fn unbuilt_param(built: &[Form], param: &Param) -> Option<u64>
    ensures { result ≡ unbuilt_param (is_among built.now) param.now }
{
    let span = param.span;
    match &param.node {
        ParamNode::Named(_, _, ty) => {
            first_of!(
                here(built, Form::NamedParameter, span),
                unbuilt_type(built, ty)
            )
        }
        ParamNode::Receiver(_) => here(built, Form::SelfParameter, span),
        ParamNode::Borrowed(_, mutable) => here(built, borrowed_form(*mutable), span),
    }
}

pub(crate) fn unbuilt_params(built: &[Form], params: &[Param]) -> Option<u64>
    ensures { result ≡ in_each (unbuilt_param (is_among built.now)) params.now }
{
    for param in params {
        if let Some(start) = unbuilt_param(built, param) {
            return Some(start);
        }
    }
    None
}
