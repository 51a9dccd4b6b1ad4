//! Patterns without parts.
ghost use Rattle.std.specs.Prelude.{◌≡◌, ◌&&◌, IfOk};
ghost use Rattle.source_kinds.specs.Range.{fits};
ghost use Rattle.logic_term.specs.PatternView.{pat_of};
ghost use Rattle.pat_types.specs.Answers.{Answers};
ghost use Rattle.pat_types.specs.PatternTyping.{integer_at, may_be, truth_at};

use crate::refusal::mismatch;
use logic_term::{PatNode, Ty, TyNode, TypedPat};
use pat_check::same_int;
use source_kinds::IntKind;
use std::alloc::Global;
use text_core::{NoMemory, PassError, Span};

/// The node at the type.
pub(crate) fn pattern_of(alloc: Global, ty: &Ty, node: PatNode) -> Result<TypedPat, NoMemory>
    ensures { IfOk result (λ p. p ≡ pat_of ty.now node) }
{
    let ty = ty.copy(alloc)?;
    Ok(TypedPat {
        ty,
        node: Box::new(alloc, node)?,
    })
}

/// Whether an integer with this type at its end, if it has one, may be of the kind.
fn may_be(kind: IntKind, suffix: Option<IntKind>) -> bool
    ensures { result ≡ may_be kind suffix }
{
    match suffix {
        None => true,
        Some(other) => same_int(kind, other),
    }
}

fn fits(kind: IntKind, number: i128) -> bool
    ensures { result ≡ fits kind number }
{
    kind.lowest() <= number && number <= kind.highest()
}

/// An integer, where this is seen of a value of the type. E07 where it is none of it.
pub(crate) fn integer_at(
    alloc: Global,
    span: Span,
    ty: &Ty,
    seen: &Ty,
    number: i128,
    suffix: Option<IntKind>,
) -> Result<TypedPat, PassError>
    ensures { Answers result (integer_at span ty.now seen.now number suffix) }
{
    match &seen.node {
        TyNode::Int(kind) if may_be(*kind, suffix) && fits(*kind, number) => {
            Ok(pattern_of(alloc, ty, PatNode::Literal(Some(*kind), number))?)
        }
        TyNode::MathInt if suffix.is_none() => {
            Ok(pattern_of(alloc, ty, PatNode::Literal(None, number))?)
        }
        _ => Err(mismatch(span)),
    }
}

/// `true` or `false`. E07 where what is seen is not `bool`.
pub(crate) fn truth_at(
    alloc: Global,
    span: Span,
    ty: &Ty,
    seen: &Ty,
    holds: bool,
) -> Result<TypedPat, PassError>
    ensures { Answers result (truth_at span ty.now seen.now holds) }
{
    match &seen.node {
        TyNode::Bool => Ok(pattern_of(alloc, ty, PatNode::Truth(holds))?),
        _ => Err(mismatch(span)),
    }
}
