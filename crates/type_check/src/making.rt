//! Structs and variants at types for the parameters of their declared types.
ghost use Rattle.std.specs.Prelude.{◌≡◌, ◌==◌, [], IfOk};
ghost use Rattle.logic_term.specs.Ty.{adt};
ghost use Rattle.logic_term.specs.TyView.{tys_of};
ghost use Rattle.constructors.specs.Constructors.{constructor_by};
ghost use Rattle.type_check.specs.Answers.{AnswersAs};
ghost use Rattle.type_check.specs.Makers.{arguments_for, arguments_from, maker_by, maker_of};
ghost use Rattle.type_check.specs.Literals.{arguments_as, made_by};

use crate::refusal::{mismatch, unbuilt};
use crate::types::is_built;
use constructors::{Constructor, constructor_of, same_kind};
use logic_term::{AdtDecl, AdtId, CompoundTy, FieldDecl, Ty, TyNode, VariantKind, copy_types};
use rs_types::AdtTable;
use source_trees::Path;
use std::alloc::Global;
use text_core::{NoMemory, PassError, Span};

/// A struct or a variant, at types for the parameters of its declared type.
#[derive(Drop)]
pub(crate) struct Maker<'a> {
    pub(crate) id: AdtId,
    pub(crate) variant: u32,
    pub(crate) arguments: Vec<Ty>,
    pub(crate) fields: &'a [FieldDecl],
}

/// The types for the parameters of the declared type in the expected type, where it is one of it.
#[tactic(auto, using(crate::proofs::FoundParts::no_unary_arguments))]
fn arguments_from(
    alloc: Global,
    id: AdtId,
    expected: &Option<Ty>,
) -> Result<Option<Vec<Ty>>, NoMemory>
    ensures { IfOk result (λ o. arguments_as o ≡ arguments_from id.0 expected.now) }
{
    let Some(
        Ty {
            node: TyNode::Compound(parts),
        },
    ) = expected
    else {
        return Ok(None);
    };
    match &**parts {
        CompoundTy::Adt(found, _, types) if found.0 == id.0 => {
            Ok(Some(copy_types(alloc, types)?))
        }
        _ => Ok(None),
    }
}

/// The types for so many parameters of it.
fn arguments_for(
    alloc: Global,
    params: u32,
    id: AdtId,
    expected: &Option<Ty>,
) -> Result<Option<Vec<Ty>>, NoMemory>
    ensures { IfOk result (λ o. arguments_as o ≡ arguments_for params id.0 expected.now) }
{
    if params == 0 {
        return Ok(Some(Vec::new(alloc)));
    }
    arguments_from(alloc, id, expected)
}

/// The declared type at these types for its parameters.
pub(crate) fn declared_ty(alloc: Global, id: AdtId, arguments: &[Ty]) -> Result<Ty, NoMemory>
    ensures { IfOk result (λ t. t ≡ adt id [] (tys_of arguments.now)) }
{
    let types = copy_types(alloc, arguments)?;
    Ty::compound(alloc, CompoundTy::Adt(id, Vec::new(alloc), types))
}

/// It, at the types that are found for its parameters.
fn maker_by<'a>(
    alloc: Global,
    decls: &[AdtDecl],
    span: Span,
    constructor: Constructor<'a>,
    arguments: Option<Vec<Ty>>,
) -> Result<Maker<'a>, PassError>
    ensures { AnswersAs result (maker_by decls.now span (constructor_by constructor.entry) (arguments_as arguments)) made_by }
{
    let Some(arguments) = arguments else {
        return Err(unbuilt(span));
    };
    let ty = declared_ty(alloc, constructor.id, arguments.as_slice())?;
    if constructor.regions != 0 || !is_built(decls, &ty) {
        return Err(unbuilt(span));
    }
    Ok(Maker {
        id: constructor.id,
        variant: constructor.variant,
        arguments,
        fields: constructor.fields,
    })
}

/// What the path makes, where its fields are written so; the span is that of the expression. E05 at a name that is not known, and E07 at the
/// expression where its fields are written in another way.
#[tactic(auto, unfolding(crate::specs::Makers::maker_of))]
pub(crate) fn maker_of<'a>(
    alloc: Global,
    types: &'a AdtTable,
    kind: VariantKind,
    expected: &Option<Ty>,
    span: Span,
    path: &Path,
) -> Result<Maker<'a>, PassError>
    ensures { AnswersAs result (maker_of types.now kind expected.now span path.now.node) made_by }
{
    let constructor = constructor_of(types, span, path)?;
    if !same_kind(kind, constructor.kind) {
        return Err(mismatch(span));
    }
    let arguments = arguments_for(alloc, constructor.params, constructor.id, expected)?;
    maker_by(alloc, types.decls(), span, constructor, arguments)
}
