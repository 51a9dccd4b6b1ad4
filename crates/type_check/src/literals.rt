//! Struct literals.
ghost use Rattle.std.specs.Prelude.{◌≡◌, drop};
ghost use Rattle.text_core.specs.declared.fault.PassError.TheVariants as errors;
ghost use Rattle.type_check.specs.Answers.{Answers, AnswersAs};
ghost use Rattle.type_check.specs.Literals.{made_by};
ghost use Rattle.type_check.specs.TypedExpr.{none};
ghost use Rattle.type_check.specs.TypedExprView.{exprs_of};
ghost use Rattle.type_check.specs.Typing.{has_field, literal_made, made_alone, next_field, no_field_left, not_next};

use crate::making::{Maker, declared_ty};
use crate::refusal::{double_name, mismatch, unbuilt, unknown_name};
use crate::typed::{TypedExpr, TypedNode};
use crate::types::is_built;
use crate::typing::fit;
use logic_term::{AdtDecl, Ctor, FieldDecl, Ty};
use rs_types::applied;
use source_trees::Segment;
use std::alloc::Global;
use text_core::{Name, PassError, Span};

// ---- fields

fn has_field(name: Name, fields: &[FieldDecl]) -> bool
    ensures { result ≡ has_field name fields.now }
{
    for field in fields {
        if field.name.0 == name.0 {
            return true;
        }
    }
    false
}

/// Why the name is not that of the next field, where these are left of all.
fn not_next(all: &[FieldDecl], left: &[FieldDecl], name: Segment) -> PassError
    ensures { result ≡ errors.Source (not_next all.now left.now name) }
{
    if has_field(name.name, left) {
        unbuilt(name.span)
    } else if has_field(name.name, all) {
        double_name(name.span)
    } else {
        unknown_name(name.span)
    }
}

/// The fields of the struct from this number on.
fn left_from<'a>(maker: &Maker<'a>, number: usize) -> &'a [FieldDecl]
    ensures { result.now ≡ drop number maker.now.fields.now }
{
    if number < maker.fields.len() {
        &maker.fields[number..]
    } else {
        &[]
    }
}

/// The type of the field of this number, where the name is its.
pub(crate) fn next_field(
    alloc: Global,
    decls: &[AdtDecl],
    maker: &Maker<'_>,
    number: usize,
    name: Segment,
) -> Result<Ty, PassError>
    ensures { Answers result (next_field decls.now (made_by maker.now) (drop number maker.now.fields.now) name) }
{
    let left = left_from(maker, number);
    match left.get(0) {
        Some(field) if field.name.0 == name.name.0 => {
            let ty = applied(alloc, maker.arguments.as_slice(), &field.ty)?;
            if is_built(decls, &ty) {
                Ok(ty)
            } else {
                Err(unbuilt(name.span))
            }
        }
        _ => Err(not_next(maker.fields, left, name)),
    }
}

/// No field of the struct may be missing behind so many.
#[tactic(auto, using(crate::proofs::FieldParts::some_left, crate::proofs::FieldParts::none_left))]
pub(crate) fn no_field_left(maker: &Maker<'_>, span: Span, given: usize) -> Result<(), PassError>
    ensures { AnswersAs result (no_field_left span (drop given maker.now.fields.now)) (λ nothing. none) }
{
    if given < maker.fields.len() {
        return Err(mismatch(span));
    }
    Ok(())
}

/// The value that is made of these.
#[tactic(auto, unfolding(crate::specs::Typing::literal_made))]
pub(crate) fn literal_made(
    alloc: Global,
    expected: &Option<Ty>,
    span: Span,
    maker: Maker<'_>,
    parts: Vec<TypedExpr>,
) -> Result<TypedExpr, PassError>
    ensures { Answers result (literal_made expected.now span (made_by maker.entry) (exprs_of parts.items)) }
{
    let ty = declared_ty(alloc, maker.id, maker.arguments.as_slice())?;
    let node = TypedNode::Make(Ctor::Variant(maker.id, maker.variant), parts);
    fit(alloc, expected, span, ty, span, node)
}

/// The value without fields that is made.
pub(crate) fn made_alone(
    alloc: Global,
    expected: &Option<Ty>,
    span: Span,
    maker: Maker<'_>,
) -> Result<TypedExpr, PassError>
    ensures { Answers result (made_alone expected.now span (made_by maker.entry)) }
{
    no_field_left(&maker, span, 0)?;
    literal_made(alloc, expected, span, maker, Vec::new(alloc))
}
