//! Switches: what is known where a place is of a variant.
ghost use Rattle.std.specs.Prelude.{◌≡◌, Some, map, IfOk, slice_get};
ghost use Rattle.std.specs.Option.{option_copied};
ghost use Rattle.logic_term.specs.Sort.{instance};
ghost use Rattle.logic_term.specs.Term.{var};
ghost use Rattle.logic_term.specs.Theory.{variant_of};
ghost use Rattle.logic_term.specs.TyView.{compound_of, tys_of};
ghost use Rattle.logic_term.specs.declared.kinds.Ctor.TheVariants.{Variant};
ghost use Rattle.prophecy_logic.specs.Row.{part_name, part_names};
ghost use Rattle.prophecy_logic.specs.Walk.{types_at, of_parts, of_variant, variant_commands, where_variant};

use crate::oblige::parameters;
use crate::row::name_of;
use logic_term::{AdtDecl, AdtId, CompoundTy, Ctor, FieldDecl, Term, Ty, TyNode, VariantDecl};
use mir_ir::{Body, Place};
use prophecy_logic::Command;
use rs_types::applied;
use std::alloc::Global;
use text_core::{Name, NoMemory};

/// The name of the part of this number of a new value.
#[tactic(auto, unfolding(prophecy_logic::specs::Row::part_name))]
fn part_name(number: u32) -> Name
    ensures { result ≡ part_name number }
{
    Name((1 << 63) + (1 << 62) + 1 + number as u64)
}

/// A name for each of the types.
fn part_names(alloc: Global, types: &[Ty]) -> Result<Vec<Name>, NoMemory>
    ensures { IfOk result (λ v. v.items ≡ part_names 0 types.now) }
{
    let mut names = Vec::with_capacity(alloc, types.len())?;
    let mut number: u32 = 0;
    for ty in types {
        names.push(part_name(number))?;
        number = number.checked_add(1).ok_or(NoMemory)?;
    }
    Ok(names)
}

fn variables(alloc: Global, names: &[Name]) -> Result<Vec<Term>, NoMemory>
    ensures { IfOk result (λ v. v.items ≡ map var names.now) }
{
    let mut all = Vec::with_capacity(alloc, names.len())?;
    for name in names {
        all.push(Term::var(alloc, *name)?)?;
    }
    Ok(all)
}

/// What is made of new values of these types.
fn of_parts(alloc: Global, ctor: Ctor, types: &[Ty]) -> Result<Term, NoMemory>
    ensures { IfOk result (λ t. t ≡ of_parts ctor types.now) }
{
    let names = part_names(alloc, types)?;
    let parts = variables(alloc, names.as_slice())?;
    Term::made(alloc, ctor, parts)
}

/// The local is made of some values of these types.
fn of_variant(
    alloc: Global,
    body: &Body,
    x: u32,
    ctor: Ctor,
    types: &[Ty],
) -> Result<Vec<Command>, NoMemory>
    ensures { IfOk result (λ v. v.items ≡ of_variant body.now x ctor types.now) }
{
    let names = part_names(alloc, types)?;
    let value = of_parts(alloc, ctor, types)?;
    let same = value.share()?;
    let variable = Term::var(alloc, name_of(body, x))?;
    let known = Term::equal(alloc, variable, same)?;
    let mut commands = parameters(alloc, names.as_slice(), types)?;
    commands.push(Command::Assume(known))?;
    commands.push(Command::Set(name_of(body, x), value))?;
    Ok(commands)
}

/// The types of the fields, at types for the parameters of their type.
fn types_of(alloc: Global, types: &[Ty], fields: &[FieldDecl]) -> Result<Vec<Ty>, NoMemory>
    ensures { IfOk result (λ v. v.items ≡ map (λ f. instance (tys_of types.now) f.ty) fields.now) }
{
    let mut all = Vec::with_capacity(alloc, fields.len())?;
    for field in fields {
        all.push(applied(alloc, types, &field.ty)?)?;
    }
    Ok(all)
}

/// The variant of the number of the declared type.
fn variant_of(decls: &[AdtDecl], adt: AdtId, variant: u32) -> Option<&VariantDecl>
    ensures { option_copied result ≡ variant_of (slice_get decls.now adt.0) variant }
{
    let decl = decls.get(adt.0 as usize)?;
    decl.variants.get(variant as usize)
}

/// The types of its fields, at types for the parameters of the type.
fn types_at(
    alloc: Global,
    decls: &[AdtDecl],
    adt: AdtId,
    variant: u32,
    types: &[Ty],
) -> Result<Vec<Ty>, NoMemory>
    ensures { IfOk result (λ v. v.items ≡ types_at (tys_of types.now) (variant_of (slice_get decls.now adt.0) variant)) }
{
    match variant_of(decls, adt, variant) {
        Some(found) => types_of(alloc, types, found.fields.as_slice()),
        None => Ok(Vec::new(alloc)),
    }
}

/// Where a local of a declared type is of the variant.
fn of_declared(
    alloc: Global,
    body: &Body,
    decls: &[AdtDecl],
    x: u32,
    variant: u32,
    adt: AdtId,
    types: &[Ty],
) -> Result<Vec<Command>, NoMemory>
    ensures { IfOk result (λ v. v.items ≡ of_variant body.now x (Variant adt variant) (types_at (tys_of types.now) (variant_of (slice_get decls.now adt.0) variant))) }
{
    let fields = types_at(alloc, decls, adt, variant, types)?;
    of_variant(
        alloc,
        body,
        x,
        Ctor::Variant(adt, variant),
        fields.as_slice(),
    )
}

#[tactic(auto, using(crate::proofs::Variants::unary_is_no_variant))]
fn of_compound(
    alloc: Global,
    body: &Body,
    decls: &[AdtDecl],
    x: u32,
    variant: u32,
    ty: &CompoundTy,
) -> Result<Vec<Command>, NoMemory>
    ensures { IfOk result (λ v. v.items ≡ variant_commands body.now decls.now x variant (Some (compound_of ty.now))) }
{
    match ty {
        CompoundTy::Adt(adt, _, types) => {
            of_declared(alloc, body, decls, x, variant, *adt, types)
        }
        CompoundTy::Unary(_, _) => Ok(Vec::new(alloc)),
        CompoundTy::Closure(_, _, _, _) => Ok(Vec::new(alloc)),
    }
}

/// Where a local of the type is of the variant.
fn of_type(
    alloc: Global,
    body: &Body,
    decls: &[AdtDecl],
    x: u32,
    variant: u32,
    ty: &Ty,
) -> Result<Vec<Command>, NoMemory>
    ensures { IfOk result (λ v. v.items ≡ variant_commands body.now decls.now x variant (Some ty.now)) }
{
    match &ty.node {
        TyNode::Compound(parts) => of_compound(alloc, body, decls, x, variant, parts),
        _ => Ok(Vec::new(alloc)),
    }
}

/// Where the place is of the variant of this number.
pub(crate) fn where_variant(
    alloc: Global,
    body: &Body,
    decls: &[AdtDecl],
    place: &Place,
    variant: u32,
) -> Result<Vec<Command>, NoMemory>
    ensures { IfOk result (λ v. v.items ≡ where_variant body.now decls.now place.now variant) }
{
    match body.locals.get(place.local as usize) {
        Some(ty) => of_type(alloc, body, decls, place.local, variant, ty),
        None => Ok(Vec::new(alloc)),
    }
}
