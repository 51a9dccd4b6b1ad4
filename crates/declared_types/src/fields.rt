//! The declared types with their fields.
ghost use Rattle.std.specs.Prelude.{◌≡◌, ◌+◌, ◌∷◌, [], IfOk};
ghost use Rattle.logic_term.specs.TyView.{tys_of};
ghost use Rattle.source_trees.specs.TypeTreeView.{span_of as type_span};
ghost use Rattle.rs_types.specs.Bounded.{params_from};
ghost use Rattle.rs_types.specs.Meant.{meant, scope_of};
ghost use Rattle.rs_types.specs.declared.written.Elision.TheVariants.{Refused};
ghost use Rattle.declared_types.specs.DeclaredTypes.{struct_kind, variant_kind, type_or_unit, field_name, field_decl, fields_from, parts_from, struct_fields, variant_fields, variants_of, regions_from, own_type, item_scope, declared_type, takes, types_from, first_number, heads, declared_types, lifetimes_of, parameters_of};
ghost use Rattle.constructors.specs.FieldNames.{numbered};

use crate::heads::{decl_of, lifetimes_of, parameters_of, prelude, put_some};
use logic_term::{
    AdtDecl, AdtId, CompoundTy, FieldDecl, Region, Ty, TyNode, VariantDecl, VariantKind,
};
use rs_types::{AdtTable, Elision, TypeScope, meant};
use source_trees::{
    Enum, Field, Fields, GenericParam, Item, ItemNode, Segment, Struct, TypeNode, TypeTree,
    Variant, VariantFields,
};
use std::alloc::Global;
use text_core::{Items, Name, NoMemory, PassError, Span};

// ---- what stands in an item

fn regions_of(alloc: Global, count: usize) -> Result<Vec<Region>, NoMemory>
    ensures { IfOk result (λ v. v.items ≡ regions_from count 0) }
{
    let mut made = Vec::new(alloc);
    for i in 0..count {
        let number = u32::try_from(i).map_err(|_| NoMemory)?;
        made.push(Region(number))?;
    }
    Ok(made)
}

fn params_of(alloc: Global, count: usize) -> Result<Vec<Ty>, NoMemory>
    ensures { IfOk result (λ v. tys_of v.items ≡ params_from count 0) }
{
    let mut made = Vec::new(alloc);
    for i in 0..count {
        let number = u32::try_from(i).map_err(|_| NoMemory)?;
        made.push(Ty {
            node: TyNode::Param(number),
        })?;
    }
    Ok(made)
}

/// What is in scope in an item beside the declared types.
#[derive(Drop)]
pub(crate) struct ItemNames {
    pub(crate) lifetimes: Vec<Name>,
    pub(crate) parameters: Vec<Name>,
    pub(crate) self_ty: Option<Ty>,
}

/// Of the declared type of this number.
pub(crate) fn names_of(
    alloc: Global,
    number: u32,
    params: &[GenericParam],
) -> Result<ItemNames, NoMemory>
    ensures lifetimes { IfOk result (λ n. n.lifetimes.items ≡ lifetimes_of params.now) }
    ensures parameters { IfOk result (λ n. n.parameters.items ≡ parameters_of params.now) }
    ensures self_ty { IfOk result (λ n. n.self_ty ≡ Some (own_type number params.now)) }
{
    let lifetimes = lifetimes_of(alloc, params)?;
    let parameters = parameters_of(alloc, params)?;
    let regions = regions_of(alloc, lifetimes.len())?;
    let types = params_of(alloc, parameters.len())?;
    let own = Ty::compound(alloc, CompoundTy::Adt(AdtId(number), regions, types))?;
    let self_ty = Some(own);
    Ok(ItemNames {
        lifetimes,
        parameters,
        self_ty,
    })
}

// ---- fields

/// Where the type is written.
pub(crate) fn span_of(written: &TypeTree) -> Span
    ensures { result ≡ type_span written.now }
{
    match &*written.node {
        TypeNode::Named(_, _)
        | TypeNode::Tuple(_)
        | TypeNode::Reference(_, _, _)
        | TypeNode::SelfType
        | TypeNode::SelfView => written.span,
    }
}

/// The type of a field; unit where it is refused.
fn type_or_unit(alloc: Global, scope: &TypeScope<'_>, written: &TypeTree) -> Result<Ty, NoMemory>
    ensures { IfOk result (λ t. t ≡ type_or_unit (meant (scope_of scope.now) Refused written.now)) }
{
    match meant(alloc, scope, Elision::Refused, written) {
        Ok((ty, _)) => Ok(ty),
        Err(PassError::Source(_)) => Ok(Ty::unit(alloc)),
        Err(_) => Err(NoMemory),
    }
}

/// The name of the field of this number.
#[tactic(auto, unfolding(constructors::specs::FieldNames::numbered))]
fn field_name(number: u32, name: Option<Segment>) -> Name
    ensures { result ≡ field_name number name }
{
    match name {
        None => Name::fresh(u64::from(number)),
        Some(name) => name.name,
    }
}

fn field_decl(
    alloc: Global,
    scope: &TypeScope<'_>,
    number: usize,
    name: Option<Segment>,
    written: &TypeTree,
) -> Result<FieldDecl, NoMemory>
    ensures { IfOk result (λ f. f ≡ field_decl (scope_of scope.now) number name written.now) }
{
    let number = u32::try_from(number).map_err(|_| NoMemory)?;
    let ty = type_or_unit(alloc, scope, written)?;
    Ok(FieldDecl {
        name: field_name(number, name),
        ty,
        span: span_of(written),
    })
}

fn fields_of(
    alloc: Global,
    scope: &TypeScope<'_>,
    fields: &[Field],
) -> Result<Items<FieldDecl>, NoMemory>
    ensures { IfOk result (λ v. v ≡ fields_from (scope_of scope.now) 0 fields.now) }
{
    let mut made = Items::new(alloc);
    for i in 0..fields.len() {
        let field = &fields[i];
        made.push(field_decl(alloc, scope, i, field.name, &field.ty)?)?;
    }
    Ok(made)
}

/// Fields without names.
fn parts_of(
    alloc: Global,
    scope: &TypeScope<'_>,
    types: &[TypeTree],
) -> Result<Items<FieldDecl>, NoMemory>
    ensures { IfOk result (λ v. v ≡ parts_from (scope_of scope.now) 0 types.now) }
{
    let mut made = Items::new(alloc);
    for i in 0..types.len() {
        made.push(field_decl(alloc, scope, i, None, &types[i])?)?;
    }
    Ok(made)
}

fn struct_fields(
    alloc: Global,
    scope: &TypeScope<'_>,
    fields: &Fields,
) -> Result<Items<FieldDecl>, NoMemory>
    ensures { IfOk result (λ v. v ≡ struct_fields (scope_of scope.now) fields.now) }
{
    match fields {
        Fields::Unit => Ok(Items::new(alloc)),
        Fields::Tuple(fields) => fields_of(alloc, scope, fields.as_slice()),
        Fields::Named(fields) => fields_of(alloc, scope, fields.as_slice()),
    }
}

fn variant_fields(
    alloc: Global,
    scope: &TypeScope<'_>,
    fields: &VariantFields,
) -> Result<Items<FieldDecl>, NoMemory>
    ensures { IfOk result (λ v. v ≡ variant_fields (scope_of scope.now) fields.now) }
{
    match fields {
        VariantFields::Unit => Ok(Items::new(alloc)),
        VariantFields::Tuple(types) => parts_of(alloc, scope, types.as_slice()),
        VariantFields::Named(fields) => fields_of(alloc, scope, fields.as_slice()),
    }
}

/// How the fields of a struct are written.
fn struct_kind(fields: &Fields) -> VariantKind
    ensures { result ≡ struct_kind fields.now }
{
    match fields {
        Fields::Unit => VariantKind::Unit,
        Fields::Tuple(_) => VariantKind::Numbered,
        Fields::Named(_) => VariantKind::Named,
    }
}

/// How the fields of a variant are written.
fn variant_kind(fields: &VariantFields) -> VariantKind
    ensures { result ≡ variant_kind fields.now }
{
    match fields {
        VariantFields::Unit => VariantKind::Unit,
        VariantFields::Tuple(_) => VariantKind::Numbered,
        VariantFields::Named(_) => VariantKind::Named,
    }
}

fn variants_of(
    alloc: Global,
    scope: &TypeScope<'_>,
    variants: &[Variant],
) -> Result<Items<VariantDecl>, NoMemory>
    ensures { IfOk result (λ v. v ≡ variants_of (scope_of scope.now) variants.now) }
{
    let mut made = Items::new(alloc);
    for variant in variants {
        let fields = variant_fields(alloc, scope, &variant.fields)?;
        made.push(VariantDecl {
            name: variant.name.name,
            kind: variant_kind(&variant.fields),
            fields,
        })?;
    }
    Ok(made)
}

// ---- declared types

/// The one variant of a struct.
fn struct_variant(
    alloc: Global,
    heads: &AdtTable,
    number: u32,
    it: &Struct,
) -> Result<Items<VariantDecl>, NoMemory>
    ensures { IfOk result (λ v. v ≡ record { name = it.now.name.name; kind = struct_kind it.now.fields; fields = struct_fields (item_scope heads.now number it.now.generics) it.now.fields } ∷ []) }
{
    let names = names_of(alloc, number, it.generics.as_slice())?;
    let scope = TypeScope {
        declared: heads,
        lifetimes: names.lifetimes.as_slice(),
        parameters: names.parameters.as_slice(),
        self_ty: &names.self_ty,
        has_int: false,
    };
    let fields = struct_fields(alloc, &scope, &it.fields)?;
    let mut made = Items::new(alloc);
    made.push(VariantDecl {
        name: it.name.name,
        kind: struct_kind(&it.fields),
        fields,
    })?;
    Ok(made)
}

fn enum_variants(
    alloc: Global,
    heads: &AdtTable,
    number: u32,
    it: &Enum,
) -> Result<Items<VariantDecl>, NoMemory>
    ensures { IfOk result (λ v. v ≡ variants_of (item_scope heads.now number it.now.generics) it.now.variants) }
{
    let names = names_of(alloc, number, it.generics.as_slice())?;
    let scope = TypeScope {
        declared: heads,
        lifetimes: names.lifetimes.as_slice(),
        parameters: names.parameters.as_slice(),
        self_ty: &names.self_ty,
        has_int: false,
    };
    variants_of(alloc, &scope, it.variants.as_slice())
}

/// The declared type of the item, if it declares one; its number is known.
fn declared_type(
    alloc: Global,
    heads: &AdtTable,
    number: u32,
    item: &Item,
) -> Result<Option<AdtDecl>, NoMemory>
    ensures { IfOk result (λ o. o ≡ declared_type heads.now number item.now.attributes item.now.node) }
{
    let attributes = item.attributes.as_slice();
    match &item.node {
        ItemNode::Struct(it) => {
            let variants = struct_variant(alloc, heads, number, it)?;
            let params = it.generics.as_slice();
            let decl = decl_of(alloc, it.name, params, true, attributes, variants)?;
            Ok(Some(decl))
        }
        ItemNode::Enum(it) => {
            let variants = enum_variants(alloc, heads, number, it)?;
            let params = it.generics.as_slice();
            let decl = decl_of(alloc, it.name, params, false, attributes, variants)?;
            Ok(Some(decl))
        }
        ItemNode::Function(_)
        | ItemNode::Trait(_)
        | ItemNode::Impl(_)
        | ItemNode::Use
        | ItemNode::ExternCrate => Ok(None),
    }
}

/// The number behind those that the item takes.
pub(crate) fn next_number(number: u32, item: &Item) -> Result<u32, NoMemory>
    ensures { IfOk result (λ n. n ≡ number + takes item.now.node) }
{
    match &item.node {
        ItemNode::Struct(_) | ItemNode::Enum(_) => number.checked_add(1).ok_or(NoMemory),
        ItemNode::Function(_)
        | ItemNode::Trait(_)
        | ItemNode::Impl(_)
        | ItemNode::Use
        | ItemNode::ExternCrate => Ok(number),
    }
}

/// The number of the first declared type of the items.
pub(crate) fn first_number(alloc: Global, items: &[Item]) -> Result<u32, NoMemory>
    ensures { IfOk result (λ n. n ≡ first_number items.now) }
{
    let before = prelude(alloc, items)?;
    u32::try_from(before.decls().len()).map_err(|_| NoMemory)
}

/// All declared types, where their heads are known.
#[tactic(auto, using(crate::proofs::Declaration::with_behind), unfolding(crate::specs::DeclaredTypes::declared_types))]
pub(crate) fn declared_types(
    alloc: Global,
    known: &AdtTable,
    items: &[Item],
) -> Result<AdtTable, NoMemory>
    requires { known.now ≡ heads items.now }
    ensures { IfOk result (λ t. t ≡ declared_types items.now) }
{
    let mut number = first_number(alloc, items)?;
    let mut table = prelude(alloc, items)?;
    for item in items {
        put_some(&mut table, declared_type(alloc, known, number, item)?)?;
        number = next_number(number, item)?;
    }
    Ok(table)
}
