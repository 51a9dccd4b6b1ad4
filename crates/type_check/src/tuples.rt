//! Tuples.
ghost use Rattle.std.specs.Prelude.{◌≡◌, IfOk, map};
ghost use Rattle.type_check.specs.Answers.{Answers};
ghost use Rattle.type_check.specs.TypedExprView.{exprs_of, ty_of};
ghost use Rattle.type_check.specs.Typing.{parts_of, tupled};

use crate::typed::{TypedExpr, TypedNode};
use crate::typing::{fit, ty_of};
use logic_term::{Ctor, Ty, TyNode};
use std::alloc::Global;
use text_core::{NoMemory, PassError, Span};

/// The types of the parts, where a tuple is expected; else none.
#[tactic(auto, using(crate::proofs::TupleTypes::listed_types))]
pub(crate) fn parts_of(expected: &Option<Ty>) -> &[Ty]
    ensures { result.now ≡ parts_of expected.now }
{
    match expected {
        Some(
            Ty {
                node: TyNode::Tuple(parts),
            },
        ) => parts.as_slice(),
        _ => &[],
    }
}

/// The types of expressions.
fn types_of(alloc: Global, parts: &[TypedExpr]) -> Result<Vec<Ty>, NoMemory>
    ensures { IfOk result (λ v. v.items ≡ map ty_of parts.now) }
{
    let mut types = Vec::with_capacity(alloc, parts.len())?;
    for part in parts {
        types.push(ty_of(part).copy(alloc)?)?;
    }
    Ok(types)
}

/// The tuple of these parts.
#[tactic(auto, unfolding(crate::specs::Typing::tupled), using(crate::proofs::TupleTypes::all_types))]
pub(crate) fn tupled(
    alloc: Global,
    expected: &Option<Ty>,
    span: Span,
    parts: Vec<TypedExpr>,
) -> Result<TypedExpr, PassError>
    ensures { Answers result (tupled expected.now span (exprs_of parts.items)) }
{
    let node = TyNode::Tuple(types_of(alloc, parts.as_slice())?);
    let made = TypedNode::Make(Ctor::Tuple, parts);
    fit(alloc, expected, span, Ty { node }, span, made)
}
