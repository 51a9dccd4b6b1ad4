//! What an item is refused for before the types that are written in it are looked at.
ghost use Rattle.std.specs.Prelude.{◌≡◌, IfOk, Some, None};
ghost use Rattle.declared_types.specs.Answers.{double_name, unknown_name, unbuilt};
ghost use Rattle.declared_types.specs.Declaring.{is_among, double_in, double_of, named, type_name, maker_name, value_name, may_stand, stray, stray_before, unknown_in, bound_among, parameter_refusal, parameters_refusal, generics_of, head_refusal};
ghost use Rattle.declared_types.specs.Answers.{or_else};

use crate::heads::{lifetime_name, lifetimes_of, parameter_name};
use crate::lists::push_some;
use source_trees::{
    Attribute, AttributeNode, Bound, Fields, GenericNode, GenericParam, Item, ItemNode, Segment,
};
use std::alloc::Global;
use text_core::{Code, Name, NoMemory, SourceError, Span};

fn refusal(code: Code, span: Span) -> Option<SourceError>
    ensures { result ≡ Some (record { code = code; span = span; other = None }) }
{
    Some(SourceError {
        code,
        span,
        other: None,
    })
}

/// The first refusal, if there is one.
fn or_else(one: Option<SourceError>, other: Option<SourceError>) -> Option<SourceError>
    ensures { result ≡ or_else one other }
{
    match one {
        Some(error) => Some(error),
        None => other,
    }
}

// ---- names

fn is_among(name: Name, names: &[Name]) -> bool
    ensures { result ≡ is_among name names.now }
{
    for other in names {
        if name.0 == other.0 {
            return true;
        }
    }
    false
}

/// E06 at the name, where it is among these.
pub(crate) fn double_in(names: &[Name], name: Segment) -> Option<SourceError>
    ensures { result ≡ double_in names.now name }
{
    if is_among(name.name, names) {
        return refusal(Code::E06, name.span);
    }
    None
}

pub(crate) fn double_of(names: &[Name], name: Option<Segment>) -> Option<SourceError>
    ensures { result ≡ double_of names.now name }
{
    match name {
        None => None,
        Some(name) => double_in(names, name),
    }
}

pub(crate) fn named(name: Option<Segment>) -> Option<Name>
    ensures { result ≡ named name }
{
    match name {
        None => None,
        Some(name) => Some(name.name),
    }
}

/// The name that the item has among types and traits.
pub(crate) fn type_name(item: &Item) -> Option<Segment>
    ensures { result ≡ type_name item.now.node }
{
    match &item.node {
        ItemNode::Struct(it) => Some(it.name),
        ItemNode::Enum(it) => Some(it.name),
        ItemNode::Trait(it) => Some(it.name),
        ItemNode::Function(_) | ItemNode::Impl(_) | ItemNode::Use | ItemNode::ExternCrate => None,
    }
}

fn maker_name(name: Segment, fields: &Fields) -> Option<Segment>
    ensures { result ≡ maker_name name fields.now }
{
    match fields {
        Fields::Unit | Fields::Tuple(_) => Some(name),
        Fields::Named(_) => None,
    }
}

/// The name that it has among functions, tuple structs and unit structs.
pub(crate) fn value_name(item: &Item) -> Option<Segment>
    ensures { result ≡ value_name item.now.node }
{
    match &item.node {
        ItemNode::Function(it) => Some(it.name),
        ItemNode::Struct(it) => maker_name(it.name, &it.fields),
        ItemNode::Enum(_)
        | ItemNode::Trait(_)
        | ItemNode::Impl(_)
        | ItemNode::Use
        | ItemNode::ExternCrate => None,
    }
}

// ---- attributes

fn may_stand(derives: bool, attribute: &Attribute) -> bool
    ensures { result ≡ may_stand derives attribute.now.node }
{
    match &attribute.node {
        AttributeNode::Skipped => true,
        AttributeNode::Derive(_) => derives,
        AttributeNode::Clause(_, _) | AttributeNode::Logic | AttributeNode::Law => false,
    }
}

fn stray(derives: bool, attributes: &[Attribute]) -> Option<SourceError>
    ensures { result ≡ stray derives attributes.now }
{
    for attribute in attributes {
        if !may_stand(derives, attribute) {
            return refusal(Code::E20, attribute.span);
        }
    }
    None
}

fn stray_before(item: &Item) -> Option<SourceError>
    ensures { result ≡ stray_before item.now.attributes item.now.node }
{
    match &item.node {
        ItemNode::Function(_) => None,
        ItemNode::Struct(_) | ItemNode::Enum(_) => stray(true, item.attributes.as_slice()),
        ItemNode::Trait(_) | ItemNode::Impl(_) | ItemNode::Use | ItemNode::ExternCrate => {
            stray(false, item.attributes.as_slice())
        }
    }
}

// ---- parameters of declared types

fn unknown_in(names: &[Name], name: Option<Segment>) -> Option<SourceError>
    ensures { result ≡ unknown_in names.now name }
{
    match name {
        Some(name) if !is_among(name.name, names) => refusal(Code::E05, name.span),
        _ => None,
    }
}

fn bound_among(bounds: &[Bound]) -> Option<SourceError>
    ensures { result ≡ bound_among bounds.now }
{
    match bounds {
        [] => None,
        [first, ..] => refusal(Code::E20, first.span),
    }
}

fn parameter_refusal(
    all: &[Name],
    lifetimes: &[Name],
    parameters: &[Name],
    param: &GenericParam,
) -> Option<SourceError>
    ensures { result ≡ parameter_refusal all.now lifetimes.now parameters.now param.now.node }
{
    match &param.node {
        GenericNode::Lifetime(name, bound) => {
            or_else(double_in(lifetimes, *name), unknown_in(all, *bound))
        }
        GenericNode::Type(name, bounds) => {
            or_else(double_in(parameters, *name), bound_among(bounds.as_slice()))
        }
    }
}

fn parameters_refusal(
    alloc: Global,
    params: &[GenericParam],
) -> Result<Option<SourceError>, NoMemory>
    ensures { IfOk result (λ o. o ≡ parameters_refusal params.now) }
{
    let all = lifetimes_of(alloc, params)?;
    let mut lifetimes = Vec::new(alloc);
    let mut parameters = Vec::new(alloc);
    for param in params {
        let refused = parameter_refusal(
            all.as_slice(),
            lifetimes.as_slice(),
            parameters.as_slice(),
            param,
        );
        if refused.is_some() {
            return Ok(refused);
        }
        push_some(&mut lifetimes, lifetime_name(param))?;
        push_some(&mut parameters, parameter_name(param))?;
    }
    Ok(None)
}

fn generics_of(item: &Item) -> &[GenericParam]
    ensures { result.now ≡ generics_of item.now.node }
{
    match &item.node {
        ItemNode::Struct(it) => it.generics.as_slice(),
        ItemNode::Enum(it) => it.generics.as_slice(),
        ItemNode::Function(_)
        | ItemNode::Trait(_)
        | ItemNode::Impl(_)
        | ItemNode::Use
        | ItemNode::ExternCrate => &[],
    }
}

/// What the item is refused for by its attributes, its name or its parameters, the names of earlier items being known.
pub(crate) fn head_refusal(
    alloc: Global,
    types: &[Name],
    values: &[Name],
    item: &Item,
) -> Result<Option<SourceError>, NoMemory>
    ensures { IfOk result (λ o. o ≡ head_refusal types.now values.now item.now) }
{
    let attribute = stray_before(item);
    if attribute.is_some() {
        return Ok(attribute);
    }
    let type_double = double_of(types, type_name(item));
    if type_double.is_some() {
        return Ok(type_double);
    }
    let value_double = double_of(values, value_name(item));
    if value_double.is_some() {
        return Ok(value_double);
    }
    parameters_refusal(alloc, generics_of(item))
}
