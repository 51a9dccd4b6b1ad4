//! Parts of tuples, and fields of structs.
ghost use Rattle.type_check.specs.Answers.{Answers};
ghost use Rattle.type_check.specs.Typing.{part_by, parted, selected};

use crate::refusal::{unbuilt, unknown_name};
use crate::typed::{TypedExpr, TypedNode};
use crate::types::is_built;
use crate::typing::{fit, ty_of};
use logic_term::{AdtDecl, Ty};
use source_trees::{Number, Segment};
use std::alloc::Global;
use text_core::{PassError, Span};
use type_parts::{field_of, is_boxed, part_of};

/// The part that was found. E05 at its name or number where there is none, and E20 at the whole where it is not built.
fn part_by(
    alloc: Global,
    decls: &[AdtDecl],
    expected: &Option<Ty>,
    span: Span,
    at: Span,
    value: TypedExpr,
    found: Option<(u32, Ty)>,
) -> Result<TypedExpr, PassError>
    ensures { Answers result (part_by decls.now expected.now span at value found) }
{
    let Some((number, ty)) = found else {
        return Err(if is_boxed(ty_of(&value)) {
            unbuilt(span)
        } else {
            unknown_name(at)
        });
    };
    if !is_built(decls, &ty) {
        return Err(unbuilt(span));
    }
    let node = TypedNode::Part(value, number);
    fit(alloc, expected, span, ty, span, node)
}

/// The part of this number of the value.
#[tactic(auto, unfolding(crate::specs::Typing::parted))]
pub(crate) fn parted(
    alloc: Global,
    decls: &[AdtDecl],
    expected: &Option<Ty>,
    span: Span,
    number: &Number,
    value: TypedExpr,
) -> Result<TypedExpr, PassError>
    ensures { Answers result (parted decls.now expected.now span number.now value) }
{
    let found = part_of(alloc, decls, ty_of(&value), number)?;
    part_by(alloc, decls, expected, span, number.span, value, found)
}

/// The field of the name of the value.
#[tactic(auto, unfolding(crate::specs::Typing::selected))]
pub(crate) fn selected(
    alloc: Global,
    decls: &[AdtDecl],
    expected: &Option<Ty>,
    span: Span,
    name: Segment,
    value: TypedExpr,
) -> Result<TypedExpr, PassError>
    ensures { Answers result (selected decls.now expected.now span name value) }
{
    let found = field_of(alloc, decls, ty_of(&value), name.name)?;
    part_by(alloc, decls, expected, span, name.span, value, found)
}
