//! The sorts that written types are in terms.
ghost use Rattle.std.specs.Prelude.{◌≡◌, IfOk, option_map, slice_get};
ghost use Rattle.logic_term.specs.TyView.{tys_of};
ghost use Rattle.rs_types.specs.Table.{number_of};
ghost use Rattle.source_trees.specs.TypeTree.{named};
ghost use Rattle.source_trees.specs.TypeTreeView.{type_arguments_of, types_of};
ghost use Rattle.logic_elab.specs.Answers.{Answers, AnswersAs};
ghost use Rattle.logic_elab.specs.WrittenSorts.{sort_named, alone, declared_sort, sort_at, written_sort, written_sorts, argument_sorts};

use crate::refusal::{mismatch, unbuilt, unknown_name};
use logic_term::{AdtDecl, AdtId, CompoundTy, Ty, TyNode};
use rs_types::{TypeName, word_of};
use source_trees::{Segment, TypeArgument, TypeNode, TypeTree};
use std::alloc::Global;
use text_core::{Name, NoMemory, PassError, Span};

// ---- names

/// The declared type of this name.
#[tactic(auto, using(crate::proofs::ArgumentsByPart::number_on, crate::proofs::ArgumentsByPart::number_end))]
fn declared_number(declared: &[AdtDecl], name: Name) -> Result<Option<AdtId>, NoMemory>
    ensures { IfOk result (λ o. option_map (λ i. i.0) o ≡ number_of name.0 declared.now) }
{
    for i in 0..declared.len() {
        if declared[i].name.0 == name.0 {
            let number = u32::try_from(i).map_err(|_| NoMemory)?;
            return Ok(Some(AdtId(number)));
        }
    }
    Ok(None)
}

/// What the name stands for: one of the types that are declared, or a word.
#[tactic(auto, unfolding(crate::specs::WrittenSorts::sort_named))]
fn sort_named(declared: &[AdtDecl], name: Name) -> Result<Option<TypeName>, NoMemory>
    ensures { IfOk result (λ o. o ≡ sort_named declared.now name) }
{
    match declared_number(declared, name)? {
        Some(id) => Ok(Some(TypeName::Declared(id))),
        None => Ok(word_of(name)),
    }
}

// ---- a name at arguments

/// A type that takes no arguments.
fn alone(span: Span, ty: Ty, arguments: &[Ty]) -> Result<Ty, PassError>
    ensures { Answers result (alone span ty arguments.now) }
{
    if arguments.is_empty() {
        Ok(ty)
    } else {
        Err(mismatch(span))
    }
}

/// A declared type at arguments; those with lifetimes are not built.
fn declared_sort(
    alloc: Global,
    declared: &[AdtDecl],
    span: Span,
    id: AdtId,
    arguments: Vec<Ty>,
) -> Result<Ty, PassError>
    ensures { Answers result (declared_sort span id (slice_get declared.now id.0) arguments.items) }
{
    let Some(decl) = declared.get(id.0 as usize) else {
        return Err(mismatch(span));
    };
    if arguments.len() != decl.params as usize {
        return Err(mismatch(span));
    }
    if decl.regions != 0 {
        return Err(unbuilt(span));
    }
    let parts = CompoundTy::Adt(id, Vec::new(alloc), arguments);
    Ok(Ty::compound(alloc, parts)?)
}

/// What the name stands for, at the arguments.
#[tactic(auto, unfolding(crate::specs::WrittenSorts::sort_at))]
fn sort_at(
    alloc: Global,
    declared: &[AdtDecl],
    span: Span,
    word: TypeName,
    arguments: Vec<Ty>,
) -> Result<Ty, PassError>
    ensures { Answers result (sort_at declared.now span word arguments.items) }
{
    match word {
        TypeName::Int(kind) => alone(span, Ty::int(kind), arguments.as_slice()),
        TypeName::Bool => alone(span, Ty::bool(), arguments.as_slice()),
        TypeName::MathInt => alone(span, Ty::math_int(), arguments.as_slice()),
        TypeName::Declared(id) => declared_sort(alloc, declared, span, id, arguments),
        TypeName::Parameter(_) | TypeName::Box => Err(unbuilt(span)),
    }
}

// ---- types

/// The sorts of the parts of a tuple, from the left.
#[cycle(written_sort)]
fn written_sorts(
    alloc: Global,
    declared: &[AdtDecl],
    written: &[TypeTree],
) -> Result<Vec<Ty>, PassError>
    ensures { AnswersAs result (written_sorts declared.now (types_of written.now)) (λ v. tys_of v.items) }
{
    let mut sorts = Vec::with_capacity(alloc, written.len())?;
    for i in 0..written.len() {
        let sort = written_sort(alloc, declared, &written[i])?;
        sorts.push(sort)?;
    }
    Ok(sorts)
}

/// The sorts of the arguments of a type, whose span it is, from the left.
#[cycle(written_sort)]
fn argument_sorts(
    alloc: Global,
    declared: &[AdtDecl],
    span: Span,
    arguments: &[TypeArgument],
) -> Result<Vec<Ty>, PassError>
    ensures { AnswersAs result (argument_sorts declared.now span (type_arguments_of arguments.now)) (λ v. v.items) }
{
    let mut sorts = Vec::with_capacity(alloc, arguments.len())?;
    for i in 0..arguments.len() {
        let TypeArgument::Type(written) = &arguments[i] else {
            return Err(unbuilt(span));
        };
        let sort = written_sort(alloc, declared, written)?;
        sorts.push(sort)?;
    }
    Ok(sorts)
}

/// The sort that a name at arguments is.
#[cycle(written_sort)]
fn named_sort(
    alloc: Global,
    declared: &[AdtDecl],
    span: Span,
    name: Segment,
    arguments: &[TypeArgument],
) -> Result<Ty, PassError>
    ensures { Answers result (written_sort declared.now (named span name (type_arguments_of arguments.now))) }
{
    let Some(word) = sort_named(declared, name.name)? else {
        return Err(unknown_name(name.span));
    };
    let sorts = argument_sorts(alloc, declared, span, arguments)?;
    sort_at(alloc, declared, span, word, sorts)
}

/// The sort that is written, where these types are declared: E05 at a name that stands for no type, E07 where it has not as many arguments as it takes, and
/// E20 at a type that is not built in terms.
#[cycle(written_sort)]
pub(crate) fn written_sort(
    alloc: Global,
    declared: &[AdtDecl],
    written: &TypeTree,
) -> Result<Ty, PassError>
    ensures { Answers result (written_sort declared.now written.now) }
{
    let span = written.span;
    match &*written.node {
        TypeNode::Named(name, arguments) => named_sort(alloc, declared, span, *name, arguments),
        TypeNode::Tuple(parts) => {
            let node = TyNode::Tuple(written_sorts(alloc, declared, parts)?);
            Ok(Ty { node })
        }
        TypeNode::Reference(_, _, _) | TypeNode::SelfType | TypeNode::SelfView => {
            Err(unbuilt(span))
        }
    }
}
