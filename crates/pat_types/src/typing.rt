//! The walk over a written pattern.
ghost use Rattle.std.specs.Prelude.{[]};
ghost use Rattle.logic_term.specs.Sort.{nth_ty};
ghost use Rattle.logic_term.specs.TyView.{tys_of};
ghost use Rattle.source_trees.specs.Pat.{fields as written_struct, parts as written_parts, tuple as written_tuple};
ghost use Rattle.source_trees.specs.PatView.{field_pats_of as written_fields, pats_of as written_pats};
ghost use Rattle.pat_types.specs.Answers.{AnswersAs, Gives, GivesAs};
ghost use Rattle.pat_types.specs.Makers.{fields_by};
ghost use Rattle.pat_types.specs.PatternTyping.{mutable_at, name_bound, no_fields, path_at, pattern_typed, typed, typed_fields, typed_parts};

use crate::fields::{FieldPatterns, no_fields};
use crate::leaves::{integer_at, pattern_of, truth_at};
use crate::names::{BoundName, bind, bind_mutable};
use crate::parts::{alone, makes, makes_values, name_bound, shaped, tuple_maker};
use crate::refusal::mismatch;
use crate::seen::seen;
use constructors::{constructor_named, constructor_of};
use logic_term::{BindingKind, FieldDecl, PatNode as TypedNode, Ty, TypedPat, VariantKind};
use rs_types::AdtTable;
use source_trees::{FieldPat, Pat, PatNode, Path, Segment};
use std::alloc::Global;
use text_core::{PassError, Span};

/// What a written pattern comes to at a type.
#[derive(Drop)]
pub struct PatternTyping {
    pub pattern: TypedPat,
    /// All names that it binds, from left to right in the source.
    pub names: Vec<BoundName>,
}

/// What a written pattern comes to at the type of its value, by the declared types (Rust Reference, "Patterns"). A pattern that is no name and no
/// wildcard looks through references, and names behind them are bound to references ("Binding modes").
///
/// Errors: `Source` by E05 at a name of a constructor or of a field that is not there, by E06 at a name or a field that stands twice, by E07 at a
/// pattern that is of another type, has another number of parts or lacks a field, and by E20 at a form that is not built: the first part that is
/// refused refuses the whole. `NoMemory`. Never `Limit`.
pub fn type_pattern(
    alloc: Global,
    types: &AdtTable,
    pattern: &Pat,
    ty: &Ty,
) -> Result<PatternTyping, PassError>
    ensures { AnswersAs result (pattern_typed types.now pattern.now ty.now) (λ a. (a.pattern, a.names.items)) }
{
    let mut names = Vec::new(alloc);
    let pattern = type_under(alloc, types, BindingKind::Value, &mut names, pattern, ty)?;
    Ok(PatternTyping { pattern, names })
}

/// A name behind `mut`. E07 at the pattern where the name alone makes a value.
fn type_mutable(
    alloc: Global,
    types: &AdtTable,
    mode: BindingKind,
    span: Span,
    names: &mut Vec<BoundName>,
    name: Segment,
    ty: &Ty,
) -> Result<TypedPat, PassError>
    ensures { Gives result (mutable_at types.now mode span ty.now names.old.items name) names.new.items }
{
    if makes_values(&constructor_named(types, name.name)?) {
        return Err(mismatch(span));
    }
    bind_mutable(alloc, mode, span, ty, names, name)
}

/// A path: a name that is bound, else a constructor without parts.
fn type_path(
    alloc: Global,
    types: &AdtTable,
    mode: BindingKind,
    span: Span,
    names: &mut Vec<BoundName>,
    path: &Path,
    ty: &Ty,
) -> Result<TypedPat, PassError>
    ensures { Gives result (path_at types.now mode span ty.now names.old.items path.now.node (name_bound types.now path.now.node)) names.new.items }
{
    if let Some(name) = name_bound(types, path)? {
        return bind(alloc, mode, false, ty, names, name);
    }
    let constructor = constructor_of(types, span, path)?;
    let (_, seen) = seen(mode, ty);
    let maker = makes(alloc, span, VariantKind::Unit, seen, constructor)?;
    alone(alloc, span, ty, &maker)
}

/// The pattern, at a value that is reached so, behind these names.
#[cycle(type_pattern)]
#[tactic(auto, using(crate::proofs::Sizes::parts))]
fn type_under(
    alloc: Global,
    types: &AdtTable,
    mode: BindingKind,
    names: &mut Vec<BoundName>,
    pattern: &Pat,
    ty: &Ty,
) -> Result<TypedPat, PassError>
    ensures { Gives result (typed types.now mode names.old.items pattern.now ty.now) names.new.items }
{
    let span = pattern.span;
    match &*pattern.node {
        PatNode::Any => Ok(pattern_of(alloc, ty, TypedNode::Wild)?),
        PatNode::Mutable(name) => type_mutable(alloc, types, mode, span, names, *name, ty),
        PatNode::Int(number, suffix) => {
            let (_, seen) = seen(mode, ty);
            integer_at(alloc, span, ty, seen, *number, *suffix)
        }
        PatNode::Truth(holds) => {
            let (_, seen) = seen(mode, ty);
            truth_at(alloc, span, ty, seen, *holds)
        }
        PatNode::Tuple(parts) => type_tuple(alloc, types, mode, span, names, parts, ty),
        PatNode::Path(path) => type_path(alloc, types, mode, span, names, path, ty),
        PatNode::Parts(path, parts) => {
            type_made(alloc, types, mode, span, names, path, parts, ty)
        }
        PatNode::Fields(path, fields, rest) => {
            type_struct(alloc, types, mode, span, names, path, fields, *rest, ty)
        }
    }
}

/// A tuple of these parts.
#[cycle(type_pattern)]
fn type_tuple(
    alloc: Global,
    types: &AdtTable,
    mode: BindingKind,
    span: Span,
    names: &mut Vec<BoundName>,
    parts: &[Pat],
    ty: &Ty,
) -> Result<TypedPat, PassError>
    ensures { Gives result (typed types.now mode names.old.items (written_tuple span (written_pats parts.now)) ty.now) names.new.items }
{
    let (inner, seen) = seen(mode, ty);
    let maker = tuple_maker(alloc, span, seen)?;
    let parts = type_parts(
        alloc,
        types,
        inner,
        span,
        names,
        parts,
        maker.types.as_slice(),
    )?;
    Ok(shaped(alloc, ty, maker.ctor, parts)?)
}

/// A constructor with its parts in parentheses.
#[cycle(type_pattern)]
fn type_made(
    alloc: Global,
    types: &AdtTable,
    mode: BindingKind,
    span: Span,
    names: &mut Vec<BoundName>,
    path: &Path,
    parts: &[Pat],
    ty: &Ty,
) -> Result<TypedPat, PassError>
    ensures { Gives result (typed types.now mode names.old.items (written_parts span path.now (written_pats parts.now)) ty.now) names.new.items }
{
    let constructor = constructor_of(types, span, path)?;
    let (inner, seen) = seen(mode, ty);
    let maker = makes(alloc, span, VariantKind::Numbered, seen, constructor)?;
    let parts = type_parts(
        alloc,
        types,
        inner,
        span,
        names,
        parts,
        maker.types.as_slice(),
    )?;
    Ok(shaped(alloc, ty, maker.ctor, parts)?)
}

/// A constructor with its fields by name.
#[cycle(type_pattern)]
fn type_struct(
    alloc: Global,
    types: &AdtTable,
    mode: BindingKind,
    span: Span,
    names: &mut Vec<BoundName>,
    path: &Path,
    fields: &[FieldPat],
    rest: bool,
    ty: &Ty,
) -> Result<TypedPat, PassError>
    ensures { Gives result (typed types.now mode names.old.items (written_struct span path.now (written_fields fields.now) rest) ty.now) names.new.items }
{
    let constructor = constructor_of(types, span, path)?;
    let (inner, seen) = seen(mode, ty);
    let maker = makes(alloc, span, VariantKind::Named, seen, constructor)?;
    let made = type_fields(
        alloc,
        types,
        inner,
        names,
        constructor.fields,
        maker.types.as_slice(),
        fields,
    )?;
    let parts = made.complete(span, rest)?;
    Ok(shaped(alloc, ty, maker.ctor, parts)?)
}

/// The parts of the pattern of this span, at these types.
#[cycle(type_pattern)]
#[tactic(auto, using(crate::proofs::Sizes::parts))]
fn type_parts(
    alloc: Global,
    types: &AdtTable,
    mode: BindingKind,
    span: Span,
    names: &mut Vec<BoundName>,
    parts: &[Pat],
    wanted: &[Ty],
) -> Result<Vec<TypedPat>, PassError>
    ensures { GivesAs result (typed_parts types.now mode span [] names.old.items (written_pats parts.now) (tys_of wanted.now)) (λ v. v.items) names.new.items }
{
    let mut made = Vec::with_capacity(alloc, parts.len())?;
    for i in 0..parts.len() {
        if i >= wanted.len() {
            return Err(mismatch(span));
        }
        let part = type_under(alloc, types, mode, names, &parts[i], &wanted[i])?;
        made.push(part)?;
    }
    if parts.len() < wanted.len() {
        return Err(mismatch(span));
    }
    Ok(made)
}

/// Fields by name, of a constructor of these fields.
#[cycle(type_pattern)]
#[tactic(auto, using(crate::proofs::Sizes::parts))]
fn type_fields(
    alloc: Global,
    types: &AdtTable,
    mode: BindingKind,
    names: &mut Vec<BoundName>,
    declared: &[FieldDecl],
    wanted: &[Ty],
    fields: &[FieldPat],
) -> Result<FieldPatterns, PassError>
    ensures { GivesAs result (typed_fields types.now mode declared.now (tys_of wanted.now) (no_fields declared.now (tys_of wanted.now)) names.old.items (written_fields fields.now)) fields_by names.new.items }
{
    let mut made = no_fields(alloc, declared, wanted)?;
    for i in 0..fields.len() {
        let field = &fields[i];
        let number = made.place_of(declared, field.name)?;
        let part = type_field(alloc, types, mode, names, wanted, number, &field.pattern)?;
        made.put(number, part);
    }
    Ok(made)
}

/// The pattern for the field of this number.
#[cycle(type_pattern)]
fn type_field(
    alloc: Global,
    types: &AdtTable,
    mode: BindingKind,
    names: &mut Vec<BoundName>,
    wanted: &[Ty],
    number: usize,
    pattern: &Pat,
) -> Result<TypedPat, PassError>
    ensures { Gives result (typed types.now mode names.old.items pattern.now (nth_ty (tys_of wanted.now) number)) names.new.items }
{
    if number >= wanted.len() {
        return Err(PassError::NoMemory);
    }
    type_under(alloc, types, mode, names, pattern, &wanted[number])
}
