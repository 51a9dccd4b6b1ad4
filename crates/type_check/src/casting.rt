//! Casts. Their operands may be integers of any types whose integers are all of the written one.
ghost use Rattle.source_trees.specs.ExprView.{span_of};
ghost use Rattle.source_trees.specs.TypeTreeView.{span_of as type_span};
ghost use Rattle.type_check.specs.Answers.{Answers};
ghost use Rattle.type_check.specs.Chains.{cast_behind};
ghost use Rattle.type_check.specs.Typing.{widened};
ghost use Rattle.std.specs.Prelude.{◌≡◌};

use crate::refusal::mismatch;
use crate::typed::{TypedExpr, TypedNode};
use crate::typing::{fit, ty_of};
use crate::written::written_type;
use logic_term::{Ty, TyNode};
use rs_types::AdtTable;
use source_trees::{Expr, TypeTree};
use std::alloc::Global;
use text_core::{PassError, Span};

/// The spans of a cast: its own, the operand's and the written type's.
#[derive(Clone, Copy)]
pub(crate) struct CastSpans {
    whole: Span,
    operand: Span,
    target: Span,
}

pub(crate) fn cast_spans(whole: Span, operand: &Expr, target: &TypeTree) -> CastSpans
    ensures { result ≡ record { whole = whole; operand = span_of operand.now; target = type_span target.now } }
{
    CastSpans {
        whole,
        operand: operand.span,
        target: target.span,
    }
}

/// The cast of the operand to the type. E07 at the operand or at the type where it is no machine integer, and at the whole where an integer of the
/// operand's type is none of the other.
#[tactic(auto, unfolding(crate::specs::Typing::widened))]
pub(crate) fn widened(
    alloc: Global,
    expected: &Option<Ty>,
    spans: CastSpans,
    operand: TypedExpr,
    target: &Ty,
) -> Result<TypedExpr, PassError>
    ensures { Answers result (widened expected.now spans.whole spans.operand spans.target (operand, target.now)) }
{
    let TyNode::Int(from) = ty_of(&operand).node else {
        return Err(mismatch(spans.operand));
    };
    let TyNode::Int(to) = target.node else {
        return Err(mismatch(spans.target));
    };
    if !from.widens_to(to) {
        return Err(mismatch(spans.whole));
    }
    let ty = Ty::int(to);
    let node = TypedNode::Cast(operand);
    fit(alloc, expected, spans.whole, ty, spans.whole, node)
}

/// The cast of this operand, which is typed, to the written type.
pub(crate) fn cast_to(
    alloc: Global,
    types: &AdtTable,
    expected: &Option<Ty>,
    whole: Span,
    a: &Expr,
    target: &TypeTree,
    operand: TypedExpr,
) -> Result<TypedExpr, PassError>
    ensures { Answers result (cast_behind types.now whole a.now target.now expected.now operand) }
{
    let ty = written_type(alloc, types, target)?;
    widened(alloc, expected, cast_spans(whole, a, target), operand, &ty)
}
