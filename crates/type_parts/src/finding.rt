//! Parts of tuples, and fields of structs.
ghost use Rattle.std.specs.Prelude.{◌≡◌, ◌<◌, ◌^◌, None, Some, IfOk, MatchOption, slice_get};
ghost use Rattle.logic_term.specs.TyView.{tys_of};
ghost use Rattle.type_parts.specs.Parts.{field_from, field_of, is_boxed, only_fields, part_if, part_number, part_of, struct_fields};

use logic_term::{AdtDecl, AdtId, CompoundTy, FieldDecl, Ty, TyNode, TyUnary, VariantDecl};
use rs_types::applied;
use source_trees::Number;
use std::alloc::Global;
use text_core::{Name, NoMemory};

// ---- fields

/// The fields of the one variant; none of more.
fn only_fields(variants: &[VariantDecl]) -> &[FieldDecl]
    ensures { result.now ≡ only_fields variants.now }
{
    if variants.len() != 1 {
        return &[];
    }
    variants[0].fields.as_slice()
}

/// The fields of the declared type, where it is a struct.
fn fields_in(decl: &AdtDecl) -> &[FieldDecl]
    ensures { result.now ≡ struct_fields (Some decl.now) }
{
    if decl.is_struct {
        only_fields(decl.variants.as_slice())
    } else {
        &[]
    }
}

/// The fields of the struct; none of another declared type.
fn struct_fields(decls: &[AdtDecl], adt: AdtId) -> &[FieldDecl]
    ensures { result.now ≡ struct_fields (slice_get decls.now adt.0) }
{
    match decls.get(adt.0 as usize) {
        Some(decl) => fields_in(decl),
        None => &[],
    }
}

/// The number of the field of the name, from 0, and its type at these types for the parameters.
fn field_among(
    alloc: Global,
    fields: &[FieldDecl],
    types: &[Ty],
    name: Name,
) -> Result<Option<(u32, Ty)>, NoMemory>
    ensures { IfOk result (λ o. o ≡ field_from 0 name (tys_of types.now) fields.now) }
{
    let mut number = 0;
    for field in fields {
        if field.name.0 == name.0 {
            let ty = applied(alloc, types, &field.ty)?;
            return Ok(Some((number, ty)));
        }
        number = u32::checked_add(number, 1).ok_or(NoMemory)?;
    }
    Ok(None)
}

/// The field of the name, in a value of the type: its number and its type; `None` exactly where there is none.
#[tactic(auto, using(crate::proofs::Numbered::no_unary_field))]
pub fn field_of(
    alloc: Global,
    decls: &[AdtDecl],
    ty: &Ty,
    name: Name,
) -> Result<Option<(u32, Ty)>, NoMemory>
    ensures { IfOk result (λ o. o ≡ field_of decls.now name ty.now) }
{
    let TyNode::Compound(parts) = &ty.node else {
        return Ok(None);
    };
    match &**parts {
        CompoundTy::Adt(adt, _, types) => {
            field_among(alloc, struct_fields(decls, *adt), types, name)
        }
        CompoundTy::Unary(_, _) | CompoundTy::Closure(_, _, _, _) => Ok(None),
    }
}

// ---- parts

/// The number; none where it has a type at its end. Want of memory where it would pass 63 bits.
fn number_in(number: &Number) -> Result<Option<u64>, NoMemory>
    ensures number { IfOk result (λ o. o ≡ part_number number.now) }
    ensures few { IfOk result (λ o. MatchOption o (Unit {0}) (λ n. n < 2 ^ 63)) }
{
    if number.suffix.is_some() || number.value < 0 {
        return Ok(None);
    }
    match u64::try_from(number.value) {
        Ok(value) if value < 1 << 63 => Ok(Some(value)),
        _ => Err(NoMemory),
    }
}

/// The part of this number of a tuple of these.
fn part_among(alloc: Global, parts: &[Ty], number: u64) -> Result<Option<(u32, Ty)>, NoMemory>
    ensures { IfOk result (λ o. MatchOption o (slice_get parts.now number ≡ None) (λ p. (p.0 ≡ number) × (slice_get parts.now number ≡ Some p.1))) }
{
    match parts.get(number as usize) {
        Some(ty) => {
            let place = u32::try_from(number).map_err(|_| NoMemory)?;
            Ok(Some((place, ty.copy(alloc)?)))
        }
        None => Ok(None),
    }
}

/// The part of this number of a value of the type: of a tuple, or of a struct whose fields have numbers for names.
#[tactic(auto, using(crate::proofs::Numbered::numbered_part, crate::proofs::Numbered::tuple_part))]
fn part_at(
    alloc: Global,
    decls: &[AdtDecl],
    ty: &Ty,
    number: u64,
) -> Result<Option<(u32, Ty)>, NoMemory>
    requires { number < 2 ^ 63 }
    ensures { IfOk result (λ o. o ≡ part_of decls.now ty.now number) }
{
    match &ty.node {
        TyNode::Tuple(parts) => {
            let found = part_among(alloc, parts, number)?;
            Ok(found)
        }
        TyNode::Compound(_) => field_of(alloc, decls, ty, Name::fresh(number)),
        TyNode::Int(_) | TyNode::Bool | TyNode::MathInt | TyNode::Param(_) => Ok(None),
    }
}

/// The part of this number of a value of the type, of a tuple or of a struct whose fields have numbers for names: its number and its type; `None` exactly
/// where there is none.
pub fn part_of(
    alloc: Global,
    decls: &[AdtDecl],
    ty: &Ty,
    number: &Number,
) -> Result<Option<(u32, Ty)>, NoMemory>
    ensures { IfOk result (λ o. o ≡ part_if decls.now ty.now (part_number number.now)) }
{
    match number_in(number)? {
        Some(place) => part_at(alloc, decls, ty, place),
        None => Ok(None),
    }
}

/// Whether it is the type of a box.
pub fn is_boxed(ty: &Ty) -> bool
    ensures { result ≡ is_boxed ty.now }
{
    match &ty.node {
        TyNode::Compound(parts) => matches!(&**parts, CompoundTy::Unary(TyUnary::Boxed, _)),
        _ => false,
    }
}
