//! Loops and closures with the attributes before them.
ghost use Rattle.std.specs.Prelude.{◌≡◌, List, IfOk, IfErr};
ghost use Rattle.text_core.specs.declared.span.Span.{Span};
ghost use Rattle.source_trees.specs.declared.attribute.Attribute.{Attribute};
ghost use Rattle.source_trees.specs.Expr.{attributed};
ghost use Rattle.source_trees.specs.ExprView.{expr_of};
ghost use Rattle.rs_syntax.specs.MakeOperators.{across, applied, begun, on_operand, with_attributes};

use crate::make_operators::applied;
use crate::nodes::made;
use crate::part::Suffix;
use source_trees::{Attribute, Expr, ExprNode};
use std::alloc::Global;
use text_core::{Items, NoMemory, Span};

/// From the start of the first to the end of the last.
pub(crate) fn across(first: Span, last: Span) -> Span
    ensures { result ≡ across first last }
{
    Span {
        start: first.start,
        end: last.end,
    }
}

/// From the first attribute on.
#[tactic(auto, unfolding(crate::specs::MakeOperators::begun))]
pub(crate) fn begun(attributes: &Items<Attribute>, span: Span) -> Span
    ensures { result ≡ begun attributes.now span }
{
    match attributes.get(0) {
        Some(attribute) => across(attribute.span, span),
        None => span,
    }
}

/// The first operand, and the operator on it; any node that is no operation comes back as the error.
#[tactic(auto, unfolding(crate::specs::MakeOperators::on_operand))]
fn taken_apart(node: ExprNode) -> Result<(Expr, Suffix), ExprNode>
    ensures operation { IfOk result (λ p. (span : Span) → expr_of span node ≡ applied span p.0 p.1) }
    ensures operand { IfErr result (λ n. (n ≡ node) × ((start : Span) (attributes : List Attribute) (span : Span) → on_operand start attributes (expr_of span n) ≡ attributed (across start span) attributes (expr_of span n))) }
{
    match node {
        ExprNode::Assign(operand, value) => Ok((operand, Suffix::Assign(value))),
        ExprNode::Update(op, place, operand, value) => {
            Ok((operand, Suffix::Update(op, place, value)))
        }
        ExprNode::Lazy(op, operand, other) => Ok((operand, Suffix::Lazy(op, other))),
        ExprNode::Binary(op, place, operand, other) => {
            Ok((operand, Suffix::Binary(op, place, other)))
        }
        ExprNode::Cast(operand, ty) => Ok((operand, Suffix::Cast(ty))),
        ExprNode::Field(operand, name, types) => Ok((operand, Suffix::Field(name, types))),
        ExprNode::Part(operand, number) => Ok((operand, Suffix::Part(number))),
        ExprNode::Method(operand, name, types, arguments) => {
            let arguments = Items::from_vec(arguments);
            Ok((operand, Suffix::Method(name, types, arguments)))
        }
        ExprNode::Call(operand, arguments) => {
            Ok((operand, Suffix::Call(Items::from_vec(arguments))))
        }
        node => Err(node),
    }
}

/// The attributes on the first operand; it and the operators behind it begin where they do.
#[tactic(auto, using(crate::proofs::Attributed::on_operand_applied))]
fn on_operand(
    alloc: Global,
    start: Span,
    attributes: Items<Attribute>,
    expr: Expr,
) -> Result<Expr, NoMemory>
    ensures { IfOk result (λ e. e ≡ on_operand start attributes expr) }
{
    let (span, node) = expr.into_parts();
    let whole = across(start, span);
    match taken_apart(node) {
        Ok((operand, suffix)) => {
            let operand = on_operand(alloc, start, attributes, operand)?;
            applied(alloc, whole, operand, suffix)
        }
        Err(node) => {
            let expr = made(alloc, span, node)?;
            made(alloc, whole, ExprNode::Attributed(attributes, expr))
        }
    }
}

/// The expression with the attributes before it, if there are any. Err only for want of memory.
#[tactic(auto, unfolding(crate::specs::MakeOperators::with_attributes))]
pub(crate) fn with_attributes(
    alloc: Global,
    attributes: Items<Attribute>,
    expr: Expr,
) -> Result<Expr, NoMemory>
    ensures { IfOk result (λ e. e ≡ with_attributes attributes expr) }
{
    match attributes.get(0) {
        Some(first) => {
            let start = first.span;
            on_operand(alloc, start, attributes, expr)
        }
        None => Ok(expr),
    }
}
