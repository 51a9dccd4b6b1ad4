//! Declared types by their names and parameters alone.
ghost use Rattle.std.specs.Prelude.{◌≡◌, IfOk, OnOk, length, ◌++◌, []};
ghost use Rattle.declared_types.specs.Answers.{with_some};
ghost use Rattle.declared_types.specs.DeclaredTypes.{lifetime_name, parameter_name, lifetimes_of, parameters_of, has_copy, is_copy, derives_copy, decl_of, head, is_option, declares_option, option_type, prelude, heads};

use crate::lists::push_some;
use logic_term::{AdtDecl, FieldDecl, Ty, TyNode, VariantDecl, VariantKind};
use rs_types::AdtTable;
use source_trees::{Attribute, AttributeNode, GenericNode, GenericParam, Item, ItemNode, Segment};
use std::alloc::Global;
use text_core::name::{COPY, NONE, OPTION, SOME};
use text_core::{Items, Name, NoMemory, Span};

// ---- parameters

pub(crate) fn lifetime_name(param: &GenericParam) -> Option<Name>
    ensures { result ≡ lifetime_name param.now.node }
{
    match &param.node {
        GenericNode::Lifetime(name, _) => Some(name.name),
        GenericNode::Type(_, _) => None,
    }
}

pub(crate) fn parameter_name(param: &GenericParam) -> Option<Name>
    ensures { result ≡ parameter_name param.now.node }
{
    match &param.node {
        GenericNode::Lifetime(_, _) => None,
        GenericNode::Type(name, _) => Some(name.name),
    }
}

/// The lifetimes of an item, by number.
#[tactic(auto, using(crate::proofs::Declaration::with_behind))]
pub(crate) fn lifetimes_of(alloc: Global, params: &[GenericParam]) -> Result<Vec<Name>, NoMemory>
    ensures { IfOk result (λ v. v.items ≡ lifetimes_of params.now) }
{
    let mut names = Vec::new(alloc);
    for param in params {
        push_some(&mut names, lifetime_name(param))?;
    }
    Ok(names)
}

/// Its type parameters, by number.
#[tactic(auto, using(crate::proofs::Declaration::with_behind))]
pub(crate) fn parameters_of(alloc: Global, params: &[GenericParam]) -> Result<Vec<Name>, NoMemory>
    ensures { IfOk result (λ v. v.items ≡ parameters_of params.now) }
{
    let mut names = Vec::new(alloc);
    for param in params {
        push_some(&mut names, parameter_name(param))?;
    }
    Ok(names)
}

// ---- heads

fn has_copy(names: &[Segment]) -> bool
    ensures { result ≡ has_copy names.now }
{
    for name in names {
        if name.name.0 == COPY.0 {
            return true;
        }
    }
    false
}

fn is_copy(attribute: &Attribute) -> bool
    ensures { result ≡ is_copy attribute.now.node }
{
    match &attribute.node {
        AttributeNode::Derive(names) => has_copy(names.as_slice()),
        AttributeNode::Clause(_, _)
        | AttributeNode::Logic
        | AttributeNode::Law
        | AttributeNode::Skipped => false,
    }
}

/// Whether `Copy` is among the names of a `derive`.
fn derives_copy(attributes: &[Attribute]) -> bool
    ensures { result ≡ derives_copy attributes.now }
{
    for attribute in attributes {
        if is_copy(attribute) {
            return true;
        }
    }
    false
}

fn count_of(names: &[Name]) -> Result<u32, NoMemory>
    ensures { IfOk result (λ n. n ≡ length names.now) }
{
    u32::try_from(names.len()).map_err(|_| NoMemory)
}

/// The declared type of the name with these variants.
pub(crate) fn decl_of(
    alloc: Global,
    name: Segment,
    params: &[GenericParam],
    is_struct: bool,
    attributes: &[Attribute],
    variants: Items<VariantDecl>,
) -> Result<AdtDecl, NoMemory>
    ensures { IfOk result (λ d. d ≡ decl_of name params.now is_struct attributes.now variants) }
{
    let lifetimes = lifetimes_of(alloc, params)?;
    let parameters = parameters_of(alloc, params)?;
    let regions = count_of(lifetimes.as_slice())?;
    let count = count_of(parameters.as_slice())?;
    let copy = derives_copy(attributes);
    Ok(AdtDecl {
        name: name.name,
        regions,
        params: count,
        variants,
        is_struct,
        copy,
        span: name.span,
    })
}

/// The declared type of the item, without its variants.
fn head(alloc: Global, item: &Item) -> Result<Option<AdtDecl>, NoMemory>
    ensures { IfOk result (λ o. o ≡ head item.now.attributes item.now.node) }
{
    let attributes = item.attributes.as_slice();
    let none = Items::new(alloc);
    match &item.node {
        ItemNode::Struct(it) => {
            let params = it.generics.as_slice();
            let decl = decl_of(alloc, it.name, params, true, attributes, none)?;
            Ok(Some(decl))
        }
        ItemNode::Enum(it) => {
            let params = it.generics.as_slice();
            let decl = decl_of(alloc, it.name, params, false, attributes, none)?;
            Ok(Some(decl))
        }
        ItemNode::Function(_)
        | ItemNode::Trait(_)
        | ItemNode::Impl(_)
        | ItemNode::Use
        | ItemNode::ExternCrate => Ok(None),
    }
}

// ---- `Option`

fn is_option(item: &Item) -> bool
    ensures { result ≡ is_option item.now.node }
{
    match &item.node {
        ItemNode::Struct(it) => it.name.name.0 == OPTION.0,
        ItemNode::Enum(it) => it.name.name.0 == OPTION.0,
        ItemNode::Function(_)
        | ItemNode::Trait(_)
        | ItemNode::Impl(_)
        | ItemNode::Use
        | ItemNode::ExternCrate => false,
    }
}

fn declares_option(items: &[Item]) -> bool
    ensures { result ≡ declares_option items.now }
{
    for item in items {
        if is_option(item) {
            return true;
        }
    }
    false
}

/// `enum Option<T> { None, Some(T) }`
#[tactic(auto, unfolding(constructors::specs::FieldNames::numbered))]
fn option_type(alloc: Global) -> Result<AdtDecl, NoMemory>
    ensures { IfOk result (λ d. d ≡ option_type) }
{
    let span = Span { start: 0, end: 0 };
    let mut fields = Items::new(alloc);
    fields.push(FieldDecl {
        name: Name::fresh(0),
        ty: Ty {
            node: TyNode::Param(0),
        },
        span,
    })?;
    let mut variants = Items::new(alloc);
    variants.push(VariantDecl {
        name: NONE,
        kind: VariantKind::Unit,
        fields: Items::new(alloc),
    })?;
    variants.push(VariantDecl {
        name: SOME,
        kind: VariantKind::Numbered,
        fields,
    })?;
    Ok(AdtDecl {
        name: OPTION,
        regions: 0,
        params: 1,
        variants,
        is_struct: false,
        copy: true,
        span,
    })
}

/// The table of what is declared before the items.
pub(crate) fn prelude(alloc: Global, items: &[Item]) -> Result<AdtTable, NoMemory>
    ensures { IfOk result (λ t. t ≡ prelude items.now) }
{
    let mut table = AdtTable::new(alloc);
    if !declares_option(items) {
        table.put(option_type(alloc)?)?;
    }
    Ok(table)
}

/// Puts the type behind the others, if there is one.
pub(crate) fn put_some(table: &mut AdtTable, decl: Option<AdtDecl>) -> Result<(), NoMemory>
    ensures { OnOk result (table.new ≡ table.old ++ with_some decl []) }
{
    if let Some(decl) = decl {
        table.put(decl)?;
    }
    Ok(())
}

/// All declared types without the variants of those that the items declare.
#[tactic(auto, using(crate::proofs::Declaration::with_behind), unfolding(crate::specs::DeclaredTypes::heads))]
pub(crate) fn heads(alloc: Global, items: &[Item]) -> Result<AdtTable, NoMemory>
    ensures { IfOk result (λ t. t ≡ heads items.now) }
{
    let mut table = prelude(alloc, items)?;
    for item in items {
        put_some(&mut table, head(alloc, item)?)?;
    }
    Ok(table)
}
