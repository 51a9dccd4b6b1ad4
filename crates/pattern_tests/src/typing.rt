ghost use Rattle.std.specs.Prelude.{◌≡◌, true, IfOk};
ghost use Rattle.logic_term.specs.TyView.{tys_of};
ghost use Rattle.logic_term.specs.PatternView.{pats_of};
ghost use Rattle.pat_check.specs.Typed.{fields_in, core, integers, is_integer, IsPat, ArePats, AllPats};
ghost use Rattle.pattern_tests.specs.Parts.{HasParts, HasFields};

use logic_term::{
    AdtDecl, AdtId, CompoundTy, Ctor, PatNode, Ty, TyNode, TyUnary, TypedPat, copy_types,
};
use rs_types::applied;
use source_kinds::IntKind;
use std::alloc::Global;
use text_core::NoMemory;

/// The type behind boxes, references and snapshots.
#[cycle(core)]
fn core(t: &Ty) -> &Ty
    ensures { result.now ≡ core t.now }
{
    match &t.node {
        TyNode::Compound(parts) => match &**parts {
            CompoundTy::Unary(op, inner) => match op {
                TyUnary::Boxed => core(inner),
                TyUnary::Shared(_) => core(inner),
                TyUnary::Unique(_) => core(inner),
                TyUnary::Snapshot => core(inner),
                TyUnary::View => t,
            },
            CompoundTy::Adt(_, _, _) => t,
            CompoundTy::Closure(_, _, _, _) => t,
        },
        TyNode::Int(_) => t,
        TyNode::Bool => t,
        TyNode::MathInt => t,
        TyNode::Tuple(_) => t,
        TyNode::Param(_) => t,
    }
}

fn integers(kind: Option<IntKind>) -> Ty
    ensures { result ≡ integers kind }
{
    match kind {
        None => Ty::math_int(),
        Some(kind) => Ty::int(kind),
    }
}

fn is_integer(kind: Option<IntKind>, z: i128) -> bool
    ensures { result ≡ is_integer kind z }
{
    match kind {
        None => true,
        Some(kind) => kind.lowest() <= z && z <= kind.highest(),
    }
}

/// The types of the fields of the variant, at types for the type's parameters; `None` where it is not declared.
fn fields_of(
    alloc: Global,
    decls: &[AdtDecl],
    adt: AdtId,
    variant: u32,
    types: &[Ty],
) -> Result<Option<Vec<Ty>>, NoMemory>
    ensures { IfOk result (λ o. HasFields (fields_in decls.now adt variant) (tys_of types.now) o) }
{
    let Some(decl) = decls.get(adt.0 as usize) else {
        return Ok(None);
    };
    let Some(variant) = decl.variants.get(variant as usize) else {
        return Ok(None);
    };
    let fields = variant.fields.as_slice();
    let mut made = Vec::with_capacity(alloc, fields.len())?;
    for i in 0..fields.len() {
        made.push(applied(alloc, types, &fields[i].ty)?)?;
    }
    Ok(Some(made))
}

/// The types of the parts of a value of the type that is made so, where one may be.
fn parts_of(
    alloc: Global,
    decls: &[AdtDecl],
    ctor: Ctor,
    t: &Ty,
) -> Result<Option<Vec<Ty>>, NoMemory>
    ensures { IfOk result (λ o. HasParts (fields_in decls.now) t.now ctor o) }
{
    match ctor {
        Ctor::Tuple => match &t.node {
            TyNode::Tuple(parts) => Ok(Some(copy_types(alloc, parts)?)),
            _ => Ok(None),
        },
        Ctor::Variant(adt, variant) => match &t.node {
            TyNode::Compound(parts) => match &**parts {
                CompoundTy::Adt(other, _, types) => {
                    if adt.0 != other.0 {
                        return Ok(None);
                    }
                    fields_of(alloc, decls, adt, variant, types)
                }
                _ => Ok(None),
            },
            _ => Ok(None),
        },
        Ctor::Closure(_) => Ok(None),
    }
}

/// Whether the pattern is one of the type; where it is said to be, it is.
#[cycle(pattern)]
fn is_pattern(alloc: Global, decls: &[AdtDecl], pat: &TypedPat, t: &Ty) -> Result<bool, NoMemory>
    ensures { IfOk result (λ b. b ≡ true → IsPat (fields_in decls.now) pat.now t.now) }
{
    match &*pat.node {
        PatNode::Wild => Ok(true),
        PatNode::Bound(_, _) => Ok(true),
        PatNode::Literal(kind, z) => Ok(core(t).same(&integers(*kind)) && is_integer(*kind, *z)),
        PatNode::Truth(_) => Ok(core(t).same(&Ty::bool())),
        PatNode::Made(ctor, parts) => match parts_of(alloc, decls, *ctor, core(t))? {
            None => Ok(false),
            Some(types) => are_parts(alloc, decls, parts, types.as_slice()),
        },
    }
}

/// The same of the parts of a value.
#[cycle(pattern)]
#[tactic(auto, using(logic_term::specs::PatternFalls::each_smaller))]
fn are_parts(
    alloc: Global,
    decls: &[AdtDecl],
    pats: &[TypedPat],
    types: &[Ty],
) -> Result<bool, NoMemory>
    ensures { IfOk result (λ b. b ≡ true → ArePats (fields_in decls.now) (pats_of pats.now) (tys_of types.now)) }
{
    if pats.len() != types.len() {
        return Ok(false);
    }
    for i in 0..pats.len() {
        if !is_pattern(alloc, decls, &pats[i], &types[i])? {
            return Ok(false);
        }
    }
    Ok(true)
}

/// Whether all are patterns of the type; where they are said to be, they are.
pub fn are_patterns(
    alloc: Global,
    decls: &[AdtDecl],
    pats: &[TypedPat],
    t: &Ty,
) -> Result<bool, NoMemory>
    ensures { IfOk result (λ b. b ≡ true → AllPats (fields_in decls.now) pats.now t.now) }
{
    for i in 0..pats.len() {
        if !is_pattern(alloc, decls, &pats[i], t)? {
            return Ok(false);
        }
    }
    Ok(true)
}
