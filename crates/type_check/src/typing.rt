ghost use Rattle.std.specs.Prelude.{◌≡◌, Ok, Some, IfOk, slice_get};
ghost use Rattle.logic_term.specs.Ty.{bool};
ghost use Rattle.source_trees.specs.ExprView.{span_of};
ghost use Rattle.type_check.specs.Answers.{Answers};
ghost use Rattle.type_check.specs.TypedExpr as tree;
ghost use Rattle.type_check.specs.TypedExprView.{ty_of, typed_of, exprs_of};
ghost use Rattle.type_check.specs.Typing.{fit, order_of, literal_kind, literal, negated, is_bare, operated, if_mutable, may_write, assigned, updated, is_updated, asked, given, choice_ty, chosen, panicked, returned, bare_return, endless, in_a_loop};
ghost use Rattle.type_check.specs.WellTyped.{unit};

use crate::assertion::Assertion;
use crate::breaking::breaks;
use crate::leaving::leaves;
use crate::operands::{Operands, Order};
use crate::refusal::{mismatch, not_mutable};
use crate::scope::Variable;
use crate::typed::{TypedExpr, TypedNode};
use crate::types::{fits, is_signed_ty, is_updated, operation_ty, same_ty};
use logic_term::{Ty, TyNode};
use source_kinds::{BinaryOp, IntKind, LazyOp};
use source_trees::{Expr, ExprNode, PanicMacro};
use std::alloc::Global;
use text_core::{Cause, NoMemory, PassError, Span};

/// From the expression's first token to its last.
pub(crate) fn span_of(e: &Expr) -> Span
    ensures { result ≡ span_of e.now }
{
    e.span
}

pub(crate) fn ty_of(e: &TypedExpr) -> &Ty
    ensures { result.now ≡ ty_of e.now }
{
    &e.ty
}

/// The type of the expression, as one that another is checked against.
pub(crate) fn given_ty(alloc: Global, e: &TypedExpr) -> Result<Option<Ty>, NoMemory>
    ensures { IfOk result (λ t. t ≡ Some (ty_of e.now)) }
{
    Ok(Some(ty_of(e).copy(alloc)?))
}

/// The expression of this type and node, where the type is the expected one, if there is one. `whole` is the span of the
/// expression as it is written.
#[tactic(auto, unfolding(crate::specs::Typing::fit))]
pub(crate) fn fit(
    alloc: Global,
    expected: &Option<Ty>,
    whole: Span,
    ty: Ty,
    span: Span,
    node: TypedNode,
) -> Result<TypedExpr, PassError>
    ensures { Answers result (fit expected.now whole (typed_of ty span node)) }
{
    let node = Box::new(alloc, node)?;
    let e = TypedExpr { ty, span, node };
    match expected {
        None => Ok(e),
        Some(ty) if same_ty(ty_of(&e), ty) => Ok(e),
        Some(_) => Err(mismatch(whole)),
    }
}

fn literal_kind(kind: Option<IntKind>, expected: &Option<Ty>) -> Option<IntKind>
    ensures { result ≡ literal_kind kind expected.now }
{
    if kind.is_some() {
        return kind;
    }
    match expected {
        None => Some(IntKind::I32),
        Some(ty) => match &ty.node {
            TyNode::Int(kind) => Some(*kind),
            _ => None,
        },
    }
}

#[tactic(auto, unfolding(crate::specs::Typing::literal))]
pub(crate) fn literal(
    alloc: Global,
    expected: &Option<Ty>,
    span: Span,
    number: i128,
    kind: Option<IntKind>,
) -> Result<TypedExpr, PassError>
    ensures { Answers result (literal expected.now span number kind) }
{
    match literal_kind(kind, expected) {
        Some(kind) if fits(kind, number) => {
            let node = TypedNode::Int(number, kind);
            let ty = Ty::int(kind);
            fit(alloc, expected, span, ty, span, node)
        }
        _ => Err(mismatch(span)),
    }
}

/// The spans of an expression with an operator: its own, the operator's and the first operand's.
#[derive(Clone, Copy)]
pub(crate) struct Spans {
    pub(crate) whole: Span,
    pub(crate) operator: Span,
    pub(crate) first: Span,
}

#[tactic(auto, unfolding(crate::specs::Typing::negated))]
pub(crate) fn negated(
    alloc: Global,
    expected: &Option<Ty>,
    spans: Spans,
    operand: TypedExpr,
) -> Result<TypedExpr, PassError>
    ensures { Answers result (negated expected.now spans.whole spans.operator spans.first operand) }
{
    if !is_signed_ty(ty_of(&operand)) {
        return Err(mismatch(spans.first));
    }
    let ty = ty_of(&operand).copy(alloc)?;
    let node = TypedNode::Neg(operand);
    let span = spans.operator;
    fit(alloc, expected, spans.whole, ty, span, node)
}

/// Whether the expression is an integer without a type at its end.
pub(crate) fn is_bare(e: &Expr) -> bool
    ensures { result ≡ is_bare e.now }
{
    matches!(&*e.node, ExprNode::Int(_, None))
}

#[tactic(auto, unfolding(crate::specs::Typing::operated))]
pub(crate) fn operated(
    alloc: Global,
    expected: &Option<Ty>,
    spans: Spans,
    op: BinaryOp,
    operands: Operands,
) -> Result<TypedExpr, PassError>
    ensures { Answers result (operated expected.now spans.whole spans.operator spans.first op operands) }
{
    let Operands { left, right } = operands;
    let Some(ty) = operation_ty(op, ty_of(&left)) else {
        return Err(mismatch(spans.first));
    };
    let node = TypedNode::Binary(op, left, right);
    let span = spans.operator;
    fit(alloc, expected, spans.whole, ty, span, node)
}

/// Whether the target is a variable that is mutable, a part of one, or no variable at all.
#[cycle(may_write)]
#[tactic(auto, using(crate::proofs::TypedParts::typed_parts))]
fn may_write(scope: &[Variable], target: &TypedExpr) -> bool
    ensures { result ≡ may_write scope.now target.now }
{
    match &*target.node {
        TypedNode::Variable(place) => match scope.get(*place as usize) {
            Some(variable) => variable.mutable,
            None => false,
        },
        TypedNode::Part(whole, _) => may_write(scope, whole),
        _ => true,
    }
}

fn if_mutable(mutable: bool, left: Span, e: TypedExpr) -> Result<TypedExpr, PassError>
    ensures { Answers result (if_mutable mutable left e) }
{
    if mutable {
        Ok(e)
    } else {
        Err(not_mutable(left))
    }
}

#[tactic(auto, unfolding(crate::specs::Typing::assigned))]
pub(crate) fn assigned(
    alloc: Global,
    scope: &[Variable],
    expected: &Option<Ty>,
    span: Span,
    left: Span,
    target: TypedExpr,
    value: TypedExpr,
) -> Result<TypedExpr, PassError>
    ensures { Answers result (assigned scope.now expected.now span left target value) }
{
    let mutable = may_write(scope, &target);
    let ty = Ty::unit(alloc);
    let node = TypedNode::Assign(target, value);
    let e = fit(alloc, expected, span, ty, span, node)?;
    if_mutable(mutable, left, e)
}

#[tactic(auto, unfolding(crate::specs::Typing::updated))]
pub(crate) fn updated(
    alloc: Global,
    scope: &[Variable],
    expected: &Option<Ty>,
    spans: Spans,
    op: BinaryOp,
    target: TypedExpr,
    value: TypedExpr,
) -> Result<TypedExpr, PassError>
    ensures { Answers result (updated scope.now expected.now spans.whole spans.operator spans.first op target value) }
{
    if !is_updated(op, ty_of(&target)) {
        return Err(mismatch(spans.first));
    }
    let mutable = may_write(scope, &target);
    let ty = Ty::unit(alloc);
    let span = spans.operator;
    let node = TypedNode::Update(op, target, value);
    let e = fit(alloc, expected, spans.whole, ty, span, node)?;
    if_mutable(mutable, spans.first, e)
}

pub(crate) fn truth(
    alloc: Global,
    expected: &Option<Ty>,
    span: Span,
    holds: bool,
) -> Result<TypedExpr, PassError>
    ensures { Answers result (fit expected.now span (tree.truth bool span holds)) }
{
    let node = TypedNode::Truth(holds);
    let ty = Ty::bool();
    fit(alloc, expected, span, ty, span, node)
}

pub(crate) fn denied(
    alloc: Global,
    expected: &Option<Ty>,
    span: Span,
    operand: TypedExpr,
) -> Result<TypedExpr, PassError>
    ensures { Answers result (fit expected.now span (tree.denied bool span operand)) }
{
    let node = TypedNode::Not(operand);
    let ty = Ty::bool();
    fit(alloc, expected, span, ty, span, node)
}

pub(crate) fn lazy(
    alloc: Global,
    expected: &Option<Ty>,
    span: Span,
    op: LazyOp,
    left: TypedExpr,
    right: TypedExpr,
) -> Result<TypedExpr, PassError>
    ensures { Answers result (fit expected.now span (tree.lazy bool span op left right)) }
{
    let node = TypedNode::Lazy(op, left, right);
    let ty = Ty::bool();
    fit(alloc, expected, span, ty, span, node)
}

/// The type that is asked of what leaves: unit where none is expected.
pub(crate) fn asked(alloc: Global, expected: &Option<Ty>) -> Result<Ty, NoMemory>
    ensures { IfOk result (λ t. t ≡ asked expected.now) }
{
    match expected {
        None => Ok(Ty::unit(alloc)),
        Some(ty) => ty.copy(alloc),
    }
}

/// `panic!` and `unreachable!`, which fit every type.
pub(crate) fn panicked(
    alloc: Global,
    expected: &Option<Ty>,
    span: Span,
    panic: PanicMacro,
) -> Result<TypedExpr, PassError>
    ensures { Answers result (panicked expected.now span panic) }
{
    let ty = asked(alloc, expected)?;
    let cause = match panic {
        PanicMacro::Panic => Cause::Panic,
        PanicMacro::Unreachable => Cause::Unreachable,
    };
    let node = Box::new(alloc, TypedNode::Panic(cause))?;
    Ok(TypedExpr { ty, span, node })
}

/// `return` with this answer, which fits every type.
pub(crate) fn returned(
    alloc: Global,
    expected: &Option<Ty>,
    span: Span,
    answer: TypedExpr,
) -> Result<TypedExpr, PassError>
    ensures { Answers result (Ok (returned expected.now span answer)) }
{
    let ty = asked(alloc, expected)?;
    let node = Box::new(alloc, TypedNode::Return(answer))?;
    Ok(TypedExpr { ty, span, node })
}

/// `return` without a value, where this is the type of the answer.
pub(crate) fn bare_return(
    alloc: Global,
    answer: &Ty,
    expected: &Option<Ty>,
    span: Span,
) -> Result<TypedExpr, PassError>
    ensures { Answers result (bare_return answer.now expected.now span) }
{
    let ty = Ty::unit(alloc);
    if !same_ty(&ty, answer) {
        return Err(mismatch(span));
    }
    let node = Box::new(alloc, TypedNode::Block(Vec::new(alloc)))?;
    let nothing = TypedExpr { ty, span, node };
    returned(alloc, expected, span, nothing)
}

/// `loop`, which has the type unit where a `break` leaves it, and else fits every type.
#[tactic(auto, unfolding(crate::specs::Typing::endless))]
pub(crate) fn endless(
    alloc: Global,
    expected: &Option<Ty>,
    span: Span,
    invariants: Vec<Assertion>,
    body: TypedExpr,
) -> Result<TypedExpr, PassError>
    ensures { Answers result (endless expected.now span invariants.items body) }
{
    if breaks(&body) {
        let ty = Ty::unit(alloc);
        let node = TypedNode::LoopUntilBreak(invariants, body);
        return fit(alloc, expected, span, ty, span, node);
    }
    let ty = asked(alloc, expected)?;
    let node = Box::new(alloc, TypedNode::Loop(invariants, body))?;
    Ok(TypedExpr { ty, span, node })
}

/// `break` or `continue`, which fits every type where a loop is around.
pub(crate) fn in_a_loop(
    alloc: Global,
    in_loop: bool,
    expected: &Option<Ty>,
    span: Span,
    node: TypedNode,
) -> Result<TypedExpr, PassError>
    ensures { Answers result (in_a_loop in_loop span (typed_of (asked expected.now) span node)) }
{
    if !in_loop {
        return Err(mismatch(span));
    }
    let ty = asked(alloc, expected)?;
    let node = Box::new(alloc, node)?;
    Ok(TypedExpr { ty, span, node })
}

/// The type that is asked of the second side of a choice: that of the first, if that has a value.
pub(crate) fn given_by(
    alloc: Global,
    expected: &Option<Ty>,
    first: &TypedExpr,
) -> Result<Option<Ty>, NoMemory>
    ensures { IfOk result (λ t. t ≡ given expected.now first.now) }
{
    if leaves(first) {
        copy_asked(alloc, expected)
    } else {
        given_ty(alloc, first)
    }
}

/// A copy of the type that is asked for, if one is.
pub(crate) fn copy_asked(alloc: Global, asked: &Option<Ty>) -> Result<Option<Ty>, NoMemory>
    ensures { IfOk result (λ t. t ≡ asked.now) }
{
    match asked {
        None => Ok(None),
        Some(ty) => Ok(Some(ty.copy(alloc)?)),
    }
}

/// The type of both sides of a choice.
fn choice_ty(alloc: Global, first: &TypedExpr, second: &TypedExpr) -> Result<Ty, NoMemory>
    ensures { IfOk result (λ t. t ≡ choice_ty first.now second.now) }
{
    if leaves(first) {
        ty_of(second).copy(alloc)
    } else {
        ty_of(first).copy(alloc)
    }
}

/// `if` without `else`.
pub(crate) fn branch(
    alloc: Global,
    expected: &Option<Ty>,
    span: Span,
    condition: TypedExpr,
    body: TypedExpr,
) -> Result<TypedExpr, PassError>
    ensures { Answers result (fit expected.now span (tree.branch unit span condition body)) }
{
    let node = TypedNode::If(condition, body);
    let ty = Ty::unit(alloc);
    fit(alloc, expected, span, ty, span, node)
}

pub(crate) fn choice(
    alloc: Global,
    expected: &Option<Ty>,
    span: Span,
    condition: TypedExpr,
    yes: TypedExpr,
    no: TypedExpr,
) -> Result<TypedExpr, PassError>
    ensures { Answers result (chosen expected.now span condition yes no) }
{
    let ty = choice_ty(alloc, &yes, &no)?;
    let node = TypedNode::IfElse(condition, yes, no);
    fit(alloc, expected, span, ty, span, node)
}

pub(crate) fn repeat(
    alloc: Global,
    expected: &Option<Ty>,
    span: Span,
    invariants: Vec<Assertion>,
    condition: TypedExpr,
    body: TypedExpr,
) -> Result<TypedExpr, PassError>
    ensures { Answers result (fit expected.now span (tree.repeat unit span invariants.items condition body)) }
{
    let node = TypedNode::While(invariants, condition, body);
    let ty = Ty::unit(alloc);
    fit(alloc, expected, span, ty, span, node)
}

/// How the operands of an operation get their types, where a type is expected of it and each operand may be an integer
/// without a type at its end.
pub(crate) fn order_of(
    alloc: Global,
    arithmetic: bool,
    expected: &Option<Ty>,
    first: bool,
    second: bool,
) -> Result<Order, NoMemory>
    ensures { IfOk result (λ order. order ≡ order_of arithmetic expected.now first second) }
{
    if let Some(ty) = expected
        && arithmetic
    {
        return Ok(Order::Against(ty.copy(alloc)?));
    }
    Ok(match (first, second) {
        (true, true) => Order::Against(Ty::int(IntKind::I32)),
        (true, false) => Order::SecondGives,
        (false, _) => Order::FirstGives,
    })
}

/// The type of the parameter of this place, if there is one.
pub(crate) fn param_ty(alloc: Global, params: &[Ty], at: usize) -> Result<Option<Ty>, NoMemory>
    ensures { IfOk result (λ t. t ≡ slice_get params.now at) }
{
    match params.get(at) {
        None => Ok(None),
        Some(ty) => Ok(Some(ty.copy(alloc)?)),
    }
}

/// The spans of an expression with an operator before or after this operand.
pub(crate) fn spans_at(whole: Span, operator: Span, operand: &Expr) -> Spans
    ensures { result ≡ record { whole = whole; operator = operator; first = span_of operand.now } }
{
    Spans {
        whole,
        operator,
        first: span_of(operand),
    }
}
