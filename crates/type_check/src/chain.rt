//! Chains of operations. They group to the left, so that a chain is as deep as it is long: its left operands are gone down by a loop,
//! and what stands above them waits on a stack.
ghost use Rattle.std.specs.Prelude.{◌≡◌, ◌≤◌, List, Some, IfOk, MatchOption};
ghost use Rattle.source_trees.specs.ExprView.{expr_size, span_of};
ghost use Rattle.type_check.specs.declared.scope.Variable.{Variable};
ghost use Rattle.type_check.specs.Answers.{Answers};
ghost use Rattle.type_check.specs.Chains.{GoesFirst, GoesLeft, climbed, ended, first_ty, frames_size, left_of, operand_of, operand_ty, right_of, second_ty, written, written_above};
ghost use Rattle.type_check.specs.Setting.{Setting};
ghost use Rattle.type_check.specs.Typing.{typed};

use crate::operands::Operands;
use crate::scope::Variable;
use crate::typed::TypedExpr;
use crate::types::is_arithmetic;
use crate::typing::{given_ty, is_bare, lazy, operated, span_of, spans_at, updated};
use logic_term::Ty;
use source_kinds::{BinaryOp, LazyOp};
use source_trees::{Expr, ExprNode, TypeTree};
use std::alloc::Global;
use text_core::{NoMemory, PassError, Span};

/// An operation whose left operand is typed before the right one.
#[derive(Clone, Copy)]
pub(crate) enum Operation<'a> {
    /// The operator with its span, and the operands.
    Binary(BinaryOp, Span, &'a Expr, &'a Expr),
    Lazy(LazyOp, &'a Expr, &'a Expr),
    /// A compound assignment: what is assigned to stands on the left.
    Update(BinaryOp, Span, &'a Expr, &'a Expr),
}

/// What stands above an operand that is typed first.
#[derive(Clone, Copy)]
pub(crate) enum Above<'a> {
    Operation(Operation<'a>),
    /// A cast of the operand to the type.
    Cast(&'a Expr, &'a TypeTree),
}

/// An operation or a cast whose left operand is being typed.
#[derive(Drop)]
pub(crate) struct Frame<'a> {
    /// From its first token to its last.
    pub(crate) whole: Span,
    pub(crate) above: Above<'a>,
    /// The type that is expected of it, if one is.
    pub(crate) expected: Option<Ty>,
}

/// The operations and casts around an expression, the outermost first, with the expression and the type that is expected of it.
#[derive(Drop)]
pub(crate) struct Descent<'a> {
    pub(crate) frames: Vec<Frame<'a>>,
    pub(crate) bottom: &'a Expr,
    pub(crate) wanted: Option<Ty>,
}

/// The operation that the expression is, if its left operand is typed first.
fn operation_of(e: &Expr) -> Option<Operation<'_>>
    ensures written { MatchOption result (Unit {0}) (λ o. written (span_of e.now) o ≡ e.now) }
    ensures left { MatchOption result (Unit {0}) GoesLeft }
{
    match &*e.node {
        ExprNode::Binary(op, at, a, b) if !is_bare(a) => Some(Operation::Binary(*op, *at, a, b)),
        ExprNode::Lazy(op, a, b) => Some(Operation::Lazy(*op, a, b)),
        ExprNode::Update(op, at, a, b) => Some(Operation::Update(*op, *at, a, b)),
        _ => None,
    }
}

/// The operation or the cast that the expression is, if its operand is typed first.
fn above_of(e: &Expr) -> Option<Above<'_>>
    ensures written { MatchOption result (Unit {0}) (λ a. written_above (span_of e.now) a ≡ e.now) }
    ensures first { MatchOption result (Unit {0}) GoesFirst }
{
    match &*e.node {
        ExprNode::Cast(a, target) if !is_bare(a) => Some(Above::Cast(a, target)),
        _ => match operation_of(e) {
            Some(operation) => Some(Above::Operation(operation)),
            None => None,
        },
    }
}

fn left_of<'a>(operation: &Operation<'a>) -> &'a Expr
    ensures { result.now ≡ left_of operation.now }
{
    match *operation {
        Operation::Binary(_, _, a, _) => a,
        Operation::Lazy(_, a, _) => a,
        Operation::Update(_, _, a, _) => a,
    }
}

fn operand_of<'a>(above: &Above<'a>) -> &'a Expr
    ensures { result.now ≡ operand_of above.now }
{
    match above {
        Above::Operation(operation) => left_of(operation),
        Above::Cast(a, _) => a,
    }
}

pub(crate) fn right_of<'a>(operation: &Operation<'a>) -> &'a Expr
    ensures { result.now ≡ right_of operation.now }
{
    match *operation {
        Operation::Binary(_, _, _, b) => b,
        Operation::Lazy(_, _, b) => b,
        Operation::Update(_, _, _, b) => b,
    }
}

fn copied(alloc: Global, ty: &Option<Ty>) -> Result<Option<Ty>, NoMemory>
    ensures { IfOk result (λ t. t ≡ ty.now) }
{
    match ty {
        None => Ok(None),
        Some(ty) => Ok(Some(ty.copy(alloc)?)),
    }
}

/// The type that is expected of the left operand, where this one is expected of the whole.
fn first_ty(
    alloc: Global,
    operation: &Operation<'_>,
    expected: &Option<Ty>,
) -> Result<Option<Ty>, NoMemory>
    ensures { IfOk result (λ t. t ≡ first_ty operation.now expected.now) }
{
    match *operation {
        Operation::Binary(op, _, _, _) if is_arithmetic(op) => copied(alloc, expected),
        Operation::Binary(_, _, _, _) | Operation::Update(_, _, _, _) => Ok(None),
        Operation::Lazy(_, _, _) => Ok(Some(Ty::bool())),
    }
}

/// The same of an operation or a cast.
fn operand_ty(
    alloc: Global,
    above: &Above<'_>,
    expected: &Option<Ty>,
) -> Result<Option<Ty>, NoMemory>
    ensures { IfOk result (λ t. t ≡ operand_ty above.now expected.now) }
{
    match above {
        Above::Operation(operation) => first_ty(alloc, operation, expected),
        Above::Cast(_, _) => Ok(None),
    }
}

/// The type that is expected of the right operand.
pub(crate) fn second_ty(
    alloc: Global,
    operation: &Operation<'_>,
    expected: &Option<Ty>,
    left: &TypedExpr,
) -> Result<Option<Ty>, NoMemory>
    ensures { IfOk result (λ t. t ≡ Some (second_ty operation.now expected.now left.now)) }
{
    match first_ty(alloc, operation, expected)? {
        Some(ty) => Ok(Some(ty)),
        None => given_ty(alloc, left),
    }
}

/// Goes down the left operands.
pub(crate) fn descend<'a>(
    alloc: Global,
    e: &'a Expr,
    expected: &Option<Ty>,
) -> Result<Descent<'a>, NoMemory>
    ensures typed { IfOk result (λ d. (σ : Setting) (Γ : List Variable) → typed σ Γ e.now expected.now ≡ climbed σ Γ d.frames.items (typed σ Γ d.bottom.now d.wanted)) }
    ensures smaller { IfOk result (λ d. expr_size d.bottom.now ≤ expr_size e.now) }
    ensures frames { IfOk result (λ d. frames_size d.frames.items ≤ expr_size e.now) }
{
    let mut frames = Vec::new(alloc);
    let mut bottom = e;
    let mut wanted = copied(alloc, expected)?;
    while let Some(above) = above_of(bottom) {
        let first = operand_ty(alloc, &above, &wanted)?;
        let whole = span_of(bottom);
        bottom = operand_of(&above);
        frames.push(Frame {
            whole,
            above,
            expected: wanted,
        })?;
        wanted = first;
    }
    Ok(Descent {
        frames,
        bottom,
        wanted,
    })
}

/// The operation, whose operands are typed.
pub(crate) fn finish(
    alloc: Global,
    scope: &[Variable],
    expected: &Option<Ty>,
    whole: Span,
    operation: Operation<'_>,
    left: TypedExpr,
    right: TypedExpr,
) -> Result<TypedExpr, PassError>
    ensures { Answers result (ended scope.now whole operation.entry expected.now left right) }
{
    match operation {
        Operation::Binary(op, at, a, _) => {
            let spans = spans_at(whole, at, a);
            operated(alloc, expected, spans, op, Operands { left, right })
        }
        Operation::Lazy(op, _, _) => lazy(alloc, expected, whole, op, left, right),
        Operation::Update(op, at, a, _) => {
            let spans = spans_at(whole, at, a);
            updated(alloc, scope, expected, spans, op, left, right)
        }
    }
}
