//! Items.
ghost use Rattle.std.specs.Prelude.{◌≡◌};
ghost use Rattle.source_forms.specs.Forms.{is_among, here, in_some, in_each};
ghost use Rattle.source_trees.specs.declared.item.ItemNode.TheVariants as I;
ghost use Rattle.source_forms.specs.ExprForms.{unbuilt_attribute};
ghost use Rattle.source_forms.specs.ItemForms.{unbuilt_bound, unbuilt_generic, unbuilt_condition, unbuilt_body, unbuilt_function, unbuilt_method, unbuilt_field_type, unbuilt_field, unbuilt_fields, unbuilt_variant, impl_form, unbuilt_impl_item, unbuilt_impl, promises_of, unbuilt_node, unbuilt_item, first_unbuilt};

use crate::attributes::{unbuilt_attributes, unbuilt_params};
use crate::expressions::{unbuilt_answer, unbuilt_expr};
use crate::form::{BEFORE_FUNCTION, BEFORE_ITEM, Form};
use crate::place::here;
use crate::terms::unbuilt_term;
use crate::types::{unbuilt_type, unbuilt_types};
use source_trees::{
    Attribute, Body, Bound, BoundNode, Condition, ConditionNode, Enum, Field, Fields, Function,
    GenericNode, GenericParam, Impl, ImplItem, Item, ItemNode, Method, Segment, Struct, TypeTree,
    Variant, VariantFields,
};
use text_core::Span;

// ---- type parameters and conditions

#[tactic(auto, unfolding(crate::specs::ItemForms::unbuilt_bound))]
fn unbuilt_bound(built: &[Form], bound: &Bound) -> Option<u64>
    ensures { result ≡ unbuilt_bound (is_among built.now) bound.now }
{
    match &bound.node {
        BoundNode::Trait(_) => here(built, Form::TraitBound, bound.span),
        BoundNode::Call(_, types, answer) => {
            first_of!(
                here(built, Form::CallBound, bound.span),
                unbuilt_types(built, types.as_slice()),
                unbuilt_answer(built, answer)
            )
        }
    }
}

fn unbuilt_bounds(built: &[Form], bounds: &[Bound]) -> Option<u64>
    ensures { result ≡ in_each (unbuilt_bound (is_among built.now)) bounds.now }
{
    for bound in bounds {
        if let Some(start) = unbuilt_bound(built, bound) {
            return Some(start);
        }
    }
    None
}

#[tactic(auto, unfolding(crate::specs::ItemForms::unbuilt_generic))]
fn unbuilt_generic(built: &[Form], generic: &GenericParam) -> Option<u64>
    ensures { result ≡ unbuilt_generic (is_among built.now) generic.now }
{
    match &generic.node {
        GenericNode::Lifetime(_, _) => here(built, Form::LifetimeParameter, generic.span),
        GenericNode::Type(_, bounds) => {
            first_of!(
                here(built, Form::TypeParameter, generic.span),
                unbuilt_bounds(built, bounds.as_slice())
            )
        }
    }
}

fn unbuilt_generics(built: &[Form], generics: &[GenericParam]) -> Option<u64>
    ensures { result ≡ in_each (unbuilt_generic (is_among built.now)) generics.now }
{
    for generic in generics {
        if let Some(start) = unbuilt_generic(built, generic) {
            return Some(start);
        }
    }
    None
}

#[tactic(auto, unfolding(crate::specs::ItemForms::unbuilt_condition))]
fn unbuilt_condition(built: &[Form], condition: &Condition) -> Option<u64>
    ensures { result ≡ unbuilt_condition (is_among built.now) condition.now }
{
    match &condition.node {
        ConditionNode::Lifetime(_, _) => here(built, Form::LifetimeCondition, condition.span),
        ConditionNode::Type(_, bounds) => {
            first_of!(
                here(built, Form::TypeCondition, condition.span),
                unbuilt_bounds(built, bounds.as_slice())
            )
        }
    }
}

fn unbuilt_conditions(built: &[Form], conditions: &[Condition]) -> Option<u64>
    ensures { result ≡ in_each (unbuilt_condition (is_among built.now)) conditions.now }
{
    for condition in conditions {
        if let Some(start) = unbuilt_condition(built, condition) {
            return Some(start);
        }
    }
    None
}

// ---- functions

/// A form that stands there, if it does.
fn here_if(built: &[Form], form: Form, span: Option<Span>) -> Option<u64>
    ensures { result ≡ in_some (here (is_among built.now) form) span }
{
    match span {
        None => None,
        Some(span) => here(built, form, span),
    }
}

/// A body, of a function that stands there.
fn unbuilt_body(built: &[Form], own: Span, body: &Body) -> Option<u64>
    ensures { result ≡ unbuilt_body (is_among built.now) own body.now }
{
    match body {
        Body::Block(e) => { first_of!(here(built, Form::BlockBody, own), unbuilt_expr(built, e)) }
        Body::Term(term) => {
            first_of!(here(built, Form::TermBody, own), unbuilt_term(built, term))
        }
        Body::Missing => here(built, Form::NoBody, own),
    }
}

/// What stands behind `fn`, of a function that stands there.
#[tactic(auto, unfolding(crate::specs::ItemForms::unbuilt_function))]
fn unbuilt_function(built: &[Form], own: Span, f: &Function) -> Option<u64>
    ensures { result ≡ unbuilt_function (is_among built.now) own f.now }
{
    first_of!(
        here_if(built, Form::TypeParameters, f.generics_span),
        unbuilt_generics(built, f.generics.as_slice()),
        unbuilt_params(built, f.params.as_slice()),
        unbuilt_answer(built, &f.answer),
        here_if(built, Form::Conditions, f.conditions_span),
        unbuilt_conditions(built, f.conditions.as_slice()),
        unbuilt_body(built, own, &f.body)
    )
}

/// A function of a trait or an impl.
#[tactic(auto, unfolding(crate::specs::ItemForms::unbuilt_method))]
fn unbuilt_method(built: &[Form], form: Form, method: &Method) -> Option<u64>
    ensures { result ≡ unbuilt_method (is_among built.now) form method.now }
{
    first_of!(
        here(built, form, method.span),
        unbuilt_attributes(built, &BEFORE_FUNCTION, method.attributes.as_slice()),
        unbuilt_function(built, method.span, &method.function)
    )
}

fn unbuilt_methods(built: &[Form], form: Form, methods: &[Method]) -> Option<u64>
    ensures { result ≡ in_each (unbuilt_method (is_among built.now) form) methods.now }
{
    for method in methods {
        if let Some(start) = unbuilt_method(built, form, method) {
            return Some(start);
        }
    }
    None
}

// ---- structs and enums

#[tactic(auto, unfolding(crate::specs::ItemForms::unbuilt_field_type))]
fn unbuilt_field_type(built: &[Form], ty: &TypeTree) -> Option<u64>
    ensures { result ≡ unbuilt_field_type (is_among built.now) ty.now }
{
    here(built, Form::FieldType, ty.span)
}

/// The same of the types of the fields of a variant.
fn unbuilt_field_types(built: &[Form], types: &[TypeTree]) -> Option<u64>
    ensures { result ≡ in_each (unbuilt_field_type (is_among built.now)) types.now }
{
    for ty in types {
        if let Some(start) = unbuilt_field_type(built, ty) {
            return Some(start);
        }
    }
    None
}

#[tactic(auto, unfolding(crate::specs::ItemForms::unbuilt_field))]
fn unbuilt_fields(built: &[Form], fields: &[Field]) -> Option<u64>
    ensures { result ≡ in_each (unbuilt_field (is_among built.now)) fields.now }
{
    for field in fields {
        if let Some(start) = unbuilt_field_type(built, &field.ty) {
            return Some(start);
        }
    }
    None
}

fn unbuilt_struct(built: &[Form], own: Span, of: &Struct) -> Option<u64>
    ensures { result ≡ unbuilt_node (is_among built.now) own (I.Struct of.now) }
{
    first_of!(
        here(built, Form::Struct, own),
        unbuilt_generics(built, of.generics.as_slice()),
        struct_fields(built, &of.fields)
    )
}

fn struct_fields(built: &[Form], fields: &Fields) -> Option<u64>
    ensures { result ≡ unbuilt_fields (is_among built.now) fields.now }
{
    match fields {
        Fields::Unit => None,
        Fields::Tuple(fields) => unbuilt_fields(built, fields.as_slice()),
        Fields::Named(fields) => unbuilt_fields(built, fields.as_slice()),
    }
}

#[tactic(auto, unfolding(crate::specs::ItemForms::unbuilt_variant))]
fn unbuilt_variant(built: &[Form], variant: &Variant) -> Option<u64>
    ensures { result ≡ unbuilt_variant (is_among built.now) variant.now }
{
    match &variant.fields {
        VariantFields::Unit => None,
        VariantFields::Tuple(types) => unbuilt_field_types(built, types.as_slice()),
        VariantFields::Named(fields) => unbuilt_fields(built, fields.as_slice()),
    }
}

fn unbuilt_variants(built: &[Form], variants: &[Variant]) -> Option<u64>
    ensures { result ≡ in_each (unbuilt_variant (is_among built.now)) variants.now }
{
    for variant in variants {
        if let Some(start) = unbuilt_variant(built, variant) {
            return Some(start);
        }
    }
    None
}

fn unbuilt_enum(built: &[Form], own: Span, of: &Enum) -> Option<u64>
    ensures { result ≡ unbuilt_node (is_among built.now) own (I.Enum of.now) }
{
    first_of!(
        here(built, Form::Enum, own),
        unbuilt_generics(built, of.generics.as_slice()),
        unbuilt_variants(built, of.variants.as_slice())
    )
}

// ---- impls

fn impl_form(of: Option<Segment>) -> Form
    ensures { result ≡ impl_form of }
{
    match of {
        None => Form::Impl,
        Some(_) => Form::TraitImpl,
    }
}

fn unbuilt_impl_item(built: &[Form], item: &ImplItem) -> Option<u64>
    ensures { result ≡ unbuilt_impl_item (is_among built.now) item.now }
{
    match item {
        ImplItem::ViewType(span, _, ty) => {
            first_of!(here(built, Form::ViewType, *span), unbuilt_type(built, ty))
        }
        ImplItem::Method(method) => unbuilt_method(built, Form::ImplFunction, method),
    }
}

fn unbuilt_impl_items(built: &[Form], items: &[ImplItem]) -> Option<u64>
    ensures { result ≡ in_each (unbuilt_impl_item (is_among built.now)) items.now }
{
    for item in items {
        if let Some(start) = unbuilt_impl_item(built, item) {
            return Some(start);
        }
    }
    None
}

#[tactic(auto, unfolding(crate::specs::ItemForms::unbuilt_impl))]
fn unbuilt_impl(built: &[Form], of: &Impl) -> Option<u64>
    ensures { result ≡ unbuilt_impl (is_among built.now) of.now }
{
    first_of!(
        unbuilt_generics(built, of.generics.as_slice()),
        unbuilt_type(built, &of.target),
        unbuilt_conditions(built, of.conditions.as_slice()),
        unbuilt_impl_items(built, of.items.as_slice())
    )
}

// ---- items

/// The attributes before an item.
fn unbuilt_promises(built: &[Form], attributes: &[Attribute], node: &ItemNode) -> Option<u64>
    ensures { result ≡ in_each (unbuilt_attribute (is_among built.now) (promises_of node.now)) attributes.now }
{
    match node {
        ItemNode::Function(_) => unbuilt_attributes(built, &BEFORE_FUNCTION, attributes),
        ItemNode::Struct(_) => unbuilt_attributes(built, &BEFORE_ITEM, attributes),
        ItemNode::Enum(_) => unbuilt_attributes(built, &BEFORE_ITEM, attributes),
        ItemNode::Trait(_) => unbuilt_attributes(built, &BEFORE_ITEM, attributes),
        ItemNode::Impl(_) => unbuilt_attributes(built, &BEFORE_ITEM, attributes),
        ItemNode::Use => unbuilt_attributes(built, &BEFORE_ITEM, attributes),
        ItemNode::ExternCrate => unbuilt_attributes(built, &BEFORE_ITEM, attributes),
    }
}

/// An item that stands there.
fn unbuilt_node(built: &[Form], own: Span, node: &ItemNode) -> Option<u64>
    ensures { result ≡ unbuilt_node (is_among built.now) own node.now }
{
    match node {
        ItemNode::Function(f) => {
            first_of!(
                here(built, Form::Function, own),
                unbuilt_function(built, own, f)
            )
        }
        ItemNode::Struct(of) => unbuilt_struct(built, own, of),
        ItemNode::Enum(of) => unbuilt_enum(built, own, of),
        ItemNode::Trait(of) => {
            first_of!(
                here(built, Form::Trait, own),
                unbuilt_methods(built, Form::TraitFunction, of.methods.as_slice())
            )
        }
        ItemNode::Impl(of) => {
            first_of!(here(built, impl_form(of.of), own), unbuilt_impl(built, of))
        }
        ItemNode::Use => None,
        ItemNode::ExternCrate => None,
    }
}

#[tactic(auto, unfolding(crate::specs::ItemForms::unbuilt_item))]
fn unbuilt_item(built: &[Form], item: &Item) -> Option<u64>
    ensures { result ≡ unbuilt_item (is_among built.now) item.now }
{
    first_of!(
        unbuilt_promises(built, item.attributes.as_slice(), &item.node),
        unbuilt_node(built, item.own, &item.node)
    )
}

/// The byte at which the first form of these items begins, in source order, that is not among those that are built; none where all
/// of them are. The `let` of a condition is told by one byte behind the `if` or `while` before it: it is the first token from there on.
#[tactic(auto, unfolding(crate::specs::ItemForms::first_unbuilt))]
pub fn first_unbuilt(items: &[Item], built: &[Form]) -> Option<u64>
    ensures { result ≡ first_unbuilt (is_among built.now) items.now }
{
    for item in items {
        if let Some(start) = unbuilt_item(built, item) {
            return Some(start);
        }
    }
    None
}
