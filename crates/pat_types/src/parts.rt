//! Constructors in patterns.
ghost use Rattle.std.specs.Prelude.{◌≡◌, List, IfOk, map};
ghost use Rattle.logic_term.specs.Sort.{instances};
ghost use Rattle.logic_term.specs.Theory.{field_ty};
ghost use Rattle.logic_term.specs.TyView.{tys_of};
ghost use Rattle.logic_term.specs.Pattern.{shape};
ghost use Rattle.logic_term.specs.PatternView.{pats_of};
ghost use Rattle.constructors.specs.Constructors.{constructor_by};
ghost use Rattle.pat_types.specs.Answers.{AnswersAs, Gives};
ghost use Rattle.pat_types.specs.declared.names.BoundName.{BoundName};
ghost use Rattle.pat_types.specs.PatternTyping.{alone, makes, makes_values, name_bound, tuple_maker};
ghost use Rattle.pat_types.specs.Makers.{constructors_as, maker_by};

use crate::leaves::pattern_of;
use crate::refusal::mismatch;
use constructors::{Constructor, constructor_named, same_kind};
use logic_term::{
    CompoundTy, Ctor, FieldDecl, PatNode, Ty, TyNode, TypedPat, VariantKind, copy_types,
};
use rs_types::{AdtTable, applied};
use source_trees::{Path, PathNode, Segment};
use std::alloc::Global;
use text_core::{NoMemory, PassError, Span};

/// A constructor with the types of its parts.
#[derive(Drop)]
pub(crate) struct Maker {
    pub(crate) ctor: Ctor,
    pub(crate) types: Vec<Ty>,
}

/// A tuple. E07 where it is none.
pub(crate) fn tuple_maker(alloc: Global, span: Span, seen: &Ty) -> Result<Maker, PassError>
    ensures { AnswersAs result (tuple_maker span seen.now) maker_by }
{
    match &seen.node {
        TyNode::Tuple(types) => Ok(Maker {
            ctor: Ctor::Tuple,
            types: copy_types(alloc, types)?,
        }),
        _ => Err(mismatch(span)),
    }
}

/// The types of the fields, at these types for the parameters.
fn field_types(alloc: Global, arguments: &[Ty], fields: &[FieldDecl]) -> Result<Vec<Ty>, NoMemory>
    ensures { IfOk result (λ ts. tys_of ts.items ≡ instances (tys_of arguments.now) (tys_of (map field_ty fields.now))) }
{
    let mut types = Vec::with_capacity(alloc, fields.len())?;
    for i in 0..fields.len() {
        types.push(applied(alloc, arguments, &fields[i].ty)?)?;
    }
    Ok(types)
}

/// It with the types of its parts, where it makes values of what is seen and its parts are written so. E07 at the span where not.
#[tactic(auto, using(crate::proofs::Unmade::no_unary_maker))]
pub(crate) fn makes(
    alloc: Global,
    span: Span,
    kind: VariantKind,
    seen: &Ty,
    constructor: Constructor<'_>,
) -> Result<Maker, PassError>
    ensures { AnswersAs result (makes span kind seen.now (constructor_by constructor.entry)) maker_by }
{
    let TyNode::Compound(parts) = &seen.node else {
        return Err(mismatch(span));
    };
    match &**parts {
        CompoundTy::Adt(adt, _, arguments)
            if same_kind(kind, constructor.kind) && adt.0 == constructor.id.0 => {
            Ok(Maker {
                ctor: Ctor::Variant(constructor.id, constructor.variant),
                types: field_types(alloc, arguments, constructor.fields)?,
            })
        }
        _ => Err(mismatch(span)),
    }
}

/// The tree of these parts.
pub(crate) fn shaped(
    alloc: Global,
    ty: &Ty,
    ctor: Ctor,
    parts: Vec<TypedPat>,
) -> Result<TypedPat, NoMemory>
    ensures { IfOk result (λ p. p ≡ shape ty.now ctor (pats_of parts.items)) }
{
    pattern_of(alloc, ty, PatNode::Made(ctor, parts))
}

/// The constructor without parts. E07 where it has some.
#[tactic(auto, using(crate::proofs::Unmade::alone_without))]
pub(crate) fn alone(
    alloc: Global,
    span: Span,
    ty: &Ty,
    maker: &Maker,
) -> Result<TypedPat, PassError>
    ensures { (xs : List BoundName) → Gives result (alone span ty.now xs (maker_by maker.now)) xs }
{
    if !maker.types.is_empty() {
        return Err(mismatch(span));
    }
    Ok(shaped(alloc, ty, maker.ctor, Vec::new(alloc))?)
}

/// Whether a name alone, of which this is found, makes a value, and so is not bound.
pub(crate) fn makes_values(constructor: &Option<Constructor<'_>>) -> bool
    ensures { result ≡ makes_values (constructors_as constructor.now) }
{
    match constructor {
        None => false,
        Some(constructor) => !same_kind(VariantKind::Named, constructor.kind),
    }
}

/// The name that the path binds, if it binds one.
pub(crate) fn name_bound(types: &AdtTable, path: &Path) -> Result<Option<Segment>, NoMemory>
    ensures { IfOk result (λ o. o ≡ name_bound types.now path.now.node) }
{
    let PathNode::Names(name, others, arguments) = &path.node else {
        return Ok(None);
    };
    if !others.is_empty() || !arguments.is_empty() {
        return Ok(None);
    }
    let found = constructor_named(types, name.name)?;
    if makes_values(&found) {
        Ok(None)
    } else {
        Ok(Some(*name))
    }
}
