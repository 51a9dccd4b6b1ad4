ghost use Rattle.std.specs.Prelude.{◌≡◌, OnOk};
ghost use Rattle.source_trees.specs.Expr as E;
ghost use Rattle.source_trees.specs.ExprView.{exprs_of as written_exprs, field_exprs_of as written_fields, span_of, stmts_of as written_stmts};
ghost use Rattle.type_check.specs.Answers.{Answers, AnswersAs};
ghost use Rattle.type_check.specs.Chains.{behind, finished};
ghost use Rattle.type_check.specs.Literals.{made_by};
ghost use Rattle.type_check.specs.Setting.{setting_of};
ghost use Rattle.type_check.specs.TypedExprView.{exprs_of};
ghost use Rattle.type_check.specs.Typing.{is_bare, opened, operands, order_of, typed, typed_args, typed_fields, typed_statement, typed_stmts};
ghost use Rattle.type_check.specs.WellTyped.{is_arithmetic};

use crate::calling::{callee_of, params_of, with_arguments};
use crate::casting::{cast_spans, cast_to, widened};
use crate::chain::{Above, Descent, Frame, Operation, descend, finish, right_of, second_ty};
use crate::literals::{literal_made, next_field, no_field_left};
use crate::loops::{type_loop, type_while, type_while_by};
use crate::making::{Maker, maker_of};
use crate::matching::{type_branch_by, type_choice_by, type_match};
use crate::naming::named;
use crate::operands::{Operands, Order};
use crate::refusal::unbuilt;
use crate::scope::Variable;
use crate::selecting::{parted, selected};
use crate::setting::Setting;
use crate::statements::{block_with, declare, whole_block};
use crate::tuples::{parts_of, tupled};
use crate::typed::{TypedExpr, TypedNode, TypedStmt};
use crate::types::is_arithmetic;
use crate::typing::{
    assigned, bare_return, branch, choice, denied, given_by, given_ty, in_a_loop, is_bare, lazy,
    literal, negated, operated, order_of, panicked, param_ty, returned, span_of, spans_at, truth,
    updated,
};
use crate::written::{step_of, written_type};
use logic_term::{Ty, VariantKind};
use source_kinds::{BinaryOp, LazyOp};
use source_trees::{
    Attribute, Expr, ExprNode, FieldExpr, Number, Path, Segment, Stmt, TypeTree, UnaryOp,
};
use std::alloc::Global;
use text_core::{PassError, Span};

/// The expression with its type: the expected one, where there is one. What the scope holds is as before where it
/// answers. Left operands are gone down by a loop.
#[cycle(type_expr)]
pub(crate) fn type_expr(
    alloc: Global,
    setting: &Setting<'_>,
    scope: &mut Vec<Variable>,
    e: &Expr,
    expected: &Option<Ty>,
) -> Result<TypedExpr, PassError>
    ensures answers { Answers result (typed (setting_of setting.now) scope.old.items e.now expected.now) }
    ensures kept { OnOk result (scope.new.items ≡ scope.old.items) }
{
    let Descent {
        mut frames,
        bottom,
        wanted,
    } = descend(alloc, e, expected)?;
    let mut typed = type_form(alloc, setting, scope, bottom, &wanted)?;
    while let Some(frame) = frames.pop() {
        typed = type_behind(alloc, setting, scope, frame, typed)?;
    }
    Ok(typed)
}

/// The operation or the cast, whose left operand is typed.
#[cycle(type_expr)]
fn type_behind(
    alloc: Global,
    setting: &Setting<'_>,
    scope: &mut Vec<Variable>,
    frame: Frame<'_>,
    left: TypedExpr,
) -> Result<TypedExpr, PassError>
    ensures answers { Answers result (behind (setting_of setting.now) scope.old.items frame.entry left) }
    ensures kept { OnOk result (scope.new.items ≡ scope.old.items) }
{
    let Frame {
        whole,
        above,
        expected,
    } = frame;
    match above {
        Above::Operation(operation) => type_right(
            alloc, setting, scope, &expected, whole, operation, left,
        ),
        Above::Cast(a, target) => {
            cast_to(alloc, setting.types, &expected, whole, a, target, left)
        }
    }
}

/// The operation, whose left operand is typed.
#[cycle(type_expr)]
fn type_right(
    alloc: Global,
    setting: &Setting<'_>,
    scope: &mut Vec<Variable>,
    expected: &Option<Ty>,
    whole: Span,
    operation: Operation<'_>,
    left: TypedExpr,
) -> Result<TypedExpr, PassError>
    ensures answers { Answers result (finished (setting_of setting.now) scope.old.items whole operation.entry expected.now left) }
    ensures kept { OnOk result (scope.new.items ≡ scope.old.items) }
{
    let wanted = second_ty(alloc, &operation, expected, &left)?;
    let right = right_of(&operation);
    let right = type_expr(alloc, setting, scope, right, &wanted)?;
    finish(
        alloc,
        scope.as_slice(),
        expected,
        whole,
        operation,
        left,
        right,
    )
}

/// The same as `type_expr`, each operand by a call.
#[cycle(type_expr)]
#[tactic(auto, using(crate::proofs::Parts::parts))]
fn type_form(
    alloc: Global,
    setting: &Setting<'_>,
    scope: &mut Vec<Variable>,
    e: &Expr,
    expected: &Option<Ty>,
) -> Result<TypedExpr, PassError>
    ensures answers { Answers result (typed (setting_of setting.now) scope.old.items e.now expected.now) }
    ensures kept { OnOk result (scope.new.items ≡ scope.old.items) }
{
    let whole = e.span;
    match &*e.node {
        ExprNode::Int(number, kind) => literal(alloc, expected, whole, *number, *kind),
        ExprNode::Truth(holds) => truth(alloc, expected, whole, *holds),
        ExprNode::Path(path) => named(
            alloc,
            setting.types,
            scope.as_slice(),
            expected,
            whole,
            path,
        ),
        ExprNode::Unary(op, at, a) => type_unary(
            alloc, setting, scope, expected, whole, *op, *at, a,
        ),
        ExprNode::Cast(a, target) => type_cast(alloc, setting, scope, expected, whole, a, target),
        ExprNode::Binary(op, at, a, b) => type_binary(
            alloc, setting, scope, expected, whole, *op, *at, a, b,
        ),
        ExprNode::Lazy(op, a, b) => type_lazy(alloc, setting, scope, expected, whole, *op, a, b),
        ExprNode::Assign(left, value) => type_assign(
            alloc, setting, scope, expected, whole, left, value,
        ),
        ExprNode::Update(op, at, left, value) => type_update(
            alloc, setting, scope, expected, whole, *op, *at, left, value,
        ),
        ExprNode::Call(f, args) => type_call(alloc, setting, scope, expected, whole, f, args),
        ExprNode::Tuple(parts) => type_tuple(alloc, setting, scope, expected, whole, parts),
        ExprNode::Part(value, number) => type_part(
            alloc, setting, scope, expected, whole, value, number,
        ),
        ExprNode::Field(value, name, types) => type_field(
            alloc,
            setting,
            scope,
            expected,
            whole,
            value,
            *name,
            types.as_slice(),
        ),
        ExprNode::Literal(path, fields) => type_literal(
            alloc, setting, scope, expected, whole, path, fields,
        ),
        ExprNode::Block(stmts) => type_block(alloc, setting, scope, expected, whole, stmts),
        ExprNode::BlockWith(stmts, last) => type_block_with(
            alloc, setting, scope, expected, whole, stmts, last,
        ),
        ExprNode::If(None, condition, body) => type_branch(
            alloc, setting, scope, expected, whole, condition, body,
        ),
        ExprNode::IfElse(None, condition, yes, no) => type_choice(
            alloc, setting, scope, expected, whole, condition, yes, no,
        ),
        ExprNode::If(Some(pattern), value, body) => type_branch_by(
            alloc, setting, scope, expected, whole, pattern, value, body,
        ),
        ExprNode::IfElse(Some(pattern), value, yes, no) => type_choice_by(
            alloc, setting, scope, expected, whole, pattern, value, yes, no,
        ),
        ExprNode::Match(value, arms) => type_match(
            alloc, setting, scope, expected, whole, value, arms,
        ),
        ExprNode::While(None, condition, body) => type_while(
            alloc,
            setting,
            scope,
            expected,
            whole,
            &[],
            condition,
            body,
        ),
        ExprNode::While(Some(pattern), value, body) => type_while_by(
            alloc,
            setting,
            scope,
            expected,
            whole,
            &[],
            pattern,
            value,
            body,
        ),
        ExprNode::Attributed(attributes, e) => type_attributed(
            alloc,
            setting,
            scope,
            expected,
            whole,
            attributes.as_slice(),
            e,
        ),
        ExprNode::Loop(body) => type_loop(alloc, setting, scope, expected, whole, &[], body),
        ExprNode::Panic(panic, _) => panicked(alloc, expected, whole, *panic),
        ExprNode::Return => bare_return(alloc, setting.answer, expected, whole),
        ExprNode::ReturnWith(value) => type_return(alloc, setting, scope, expected, whole, value),
        ExprNode::Break => in_a_loop(alloc, setting.in_loop, expected, whole, TypedNode::Break),
        ExprNode::Continue => in_a_loop(
            alloc,
            setting.in_loop,
            expected,
            whole,
            TypedNode::Continue,
        ),
        ExprNode::Receiver
        | ExprNode::Closure(_, _, _, _, _)
        | ExprNode::Ghost(_, _)
        | ExprNode::Borrow(_, _)
        | ExprNode::Method(_, _, _, _) => Err(unbuilt(whole)),
    }
}

/// `-e`, `!e` and `*e`.
#[cycle(type_expr)]
#[tactic(auto, using(crate::proofs::Parts::parts))]
fn type_unary(
    alloc: Global,
    setting: &Setting<'_>,
    scope: &mut Vec<Variable>,
    expected: &Option<Ty>,
    whole: Span,
    op: UnaryOp,
    operator: Span,
    a: &Expr,
) -> Result<TypedExpr, PassError>
    ensures answers { Answers result (typed (setting_of setting.now) scope.old.items (E.unary whole op operator a.now) expected.now) }
    ensures kept { OnOk result (scope.new.items ≡ scope.old.items) }
{
    match op {
        UnaryOp::Neg => {
            let operand = type_expr(alloc, setting, scope, a, expected)?;
            negated(alloc, expected, spans_at(whole, operator, a), operand)
        }
        UnaryOp::Not => {
            let operand = type_expr(alloc, setting, scope, a, &Some(Ty::bool()))?;
            denied(alloc, expected, whole, operand)
        }
        UnaryOp::Deref => Err(unbuilt(whole)),
    }
}

/// `a as T`: an integer without a type at its end has the type T.
#[cycle(type_expr)]
#[tactic(auto, using(crate::proofs::Parts::parts))]
fn type_cast(
    alloc: Global,
    setting: &Setting<'_>,
    scope: &mut Vec<Variable>,
    expected: &Option<Ty>,
    whole: Span,
    a: &Expr,
    target: &TypeTree,
) -> Result<TypedExpr, PassError>
    ensures answers { Answers result (typed (setting_of setting.now) scope.old.items (E.cast whole a.now target.now) expected.now) }
    ensures kept { OnOk result (scope.new.items ≡ scope.old.items) }
{
    if !is_bare(a) {
        let operand = type_expr(alloc, setting, scope, a, &None)?;
        return cast_to(alloc, setting.types, expected, whole, a, target, operand);
    }
    let ty = written_type(alloc, setting.types, target)?;
    let wanted = Some(ty.copy(alloc)?);
    let operand = type_expr(alloc, setting, scope, a, &wanted)?;
    let spans = cast_spans(whole, a, target);
    widened(alloc, expected, spans, operand, &ty)
}

/// `left + right` and the like.
#[cycle(type_expr)]
#[tactic(auto, using(crate::proofs::Parts::parts))]
fn type_binary(
    alloc: Global,
    setting: &Setting<'_>,
    scope: &mut Vec<Variable>,
    expected: &Option<Ty>,
    whole: Span,
    op: BinaryOp,
    operator: Span,
    a: &Expr,
    b: &Expr,
) -> Result<TypedExpr, PassError>
    ensures answers { Answers result (typed (setting_of setting.now) scope.old.items (E.binary whole op operator a.now b.now) expected.now) }
    ensures kept { OnOk result (scope.new.items ≡ scope.old.items) }
{
    let order = order_of(alloc, is_arithmetic(op), expected, is_bare(a), is_bare(b))?;
    let operands = type_operands(alloc, setting, scope, order, a, b)?;
    let spans = spans_at(whole, operator, a);
    operated(alloc, expected, spans, op, operands)
}

/// `left && right` and `left || right`.
#[cycle(type_expr)]
#[tactic(auto, using(crate::proofs::Parts::parts))]
fn type_lazy(
    alloc: Global,
    setting: &Setting<'_>,
    scope: &mut Vec<Variable>,
    expected: &Option<Ty>,
    whole: Span,
    op: LazyOp,
    left: &Expr,
    right: &Expr,
) -> Result<TypedExpr, PassError>
    ensures answers { Answers result (typed (setting_of setting.now) scope.old.items (E.lazy whole op left.now right.now) expected.now) }
    ensures kept { OnOk result (scope.new.items ≡ scope.old.items) }
{
    let left = type_expr(alloc, setting, scope, left, &Some(Ty::bool()))?;
    let right = type_expr(alloc, setting, scope, right, &Some(Ty::bool()))?;
    lazy(alloc, expected, whole, op, left, right)
}

/// `left = value`
#[cycle(type_expr)]
#[tactic(auto, using(crate::proofs::Parts::parts))]
fn type_assign(
    alloc: Global,
    setting: &Setting<'_>,
    scope: &mut Vec<Variable>,
    expected: &Option<Ty>,
    whole: Span,
    left: &Expr,
    value: &Expr,
) -> Result<TypedExpr, PassError>
    ensures answers { Answers result (typed (setting_of setting.now) scope.old.items (E.assign whole left.now value.now) expected.now) }
    ensures kept { OnOk result (scope.new.items ≡ scope.old.items) }
{
    let target = type_expr(alloc, setting, scope, left, &None)?;
    let wanted = given_ty(alloc, &target)?;
    let value = type_expr(alloc, setting, scope, value, &wanted)?;
    assigned(
        alloc,
        scope.as_slice(),
        expected,
        whole,
        span_of(left),
        target,
        value,
    )
}

/// `left += value` and the like.
#[cycle(type_expr)]
#[tactic(auto, using(crate::proofs::Parts::parts))]
fn type_update(
    alloc: Global,
    setting: &Setting<'_>,
    scope: &mut Vec<Variable>,
    expected: &Option<Ty>,
    whole: Span,
    op: BinaryOp,
    operator: Span,
    left: &Expr,
    value: &Expr,
) -> Result<TypedExpr, PassError>
    ensures answers { Answers result (typed (setting_of setting.now) scope.old.items (E.update whole op operator left.now value.now) expected.now) }
    ensures kept { OnOk result (scope.new.items ≡ scope.old.items) }
{
    let target = type_expr(alloc, setting, scope, left, &None)?;
    let wanted = given_ty(alloc, &target)?;
    let value = type_expr(alloc, setting, scope, value, &wanted)?;
    let spans = spans_at(whole, operator, left);
    updated(alloc, scope.as_slice(), expected, spans, op, target, value)
}

/// A call.
#[cycle(type_expr)]
#[tactic(auto, using(crate::proofs::Parts::parts))]
fn type_call(
    alloc: Global,
    setting: &Setting<'_>,
    scope: &mut Vec<Variable>,
    expected: &Option<Ty>,
    whole: Span,
    f: &Expr,
    args: &[Expr],
) -> Result<TypedExpr, PassError>
    ensures answers { Answers result (typed (setting_of setting.now) scope.old.items (E.call whole f.now (written_exprs args.now)) expected.now) }
    ensures kept { OnOk result (scope.new.items ≡ scope.old.items) }
{
    let callee = callee_of(alloc, setting, scope.as_slice(), expected, whole, f)?;
    let params = params_of(alloc, &callee)?;
    let args = type_args(alloc, setting, scope, args, params.as_slice())?;
    with_arguments(alloc, expected, whole, callee, params.len(), args)
}

/// A block without a last expression.
#[cycle(type_expr)]
#[tactic(auto, using(crate::proofs::Parts::parts))]
fn type_block(
    alloc: Global,
    setting: &Setting<'_>,
    scope: &mut Vec<Variable>,
    expected: &Option<Ty>,
    whole: Span,
    stmts: &[Stmt],
) -> Result<TypedExpr, PassError>
    ensures answers { Answers result (typed (setting_of setting.now) scope.old.items (E.block whole (written_stmts stmts.now)) expected.now) }
    ensures kept { OnOk result (scope.new.items ≡ scope.old.items) }
{
    let around = scope.len();
    let stmts = type_statements(alloc, setting, scope, stmts)?;
    scope.truncate(around);
    whole_block(alloc, expected, whole, stmts)
}

/// A block with a last expression.
#[cycle(type_expr)]
#[tactic(auto, using(crate::proofs::Parts::parts))]
fn type_block_with(
    alloc: Global,
    setting: &Setting<'_>,
    scope: &mut Vec<Variable>,
    expected: &Option<Ty>,
    whole: Span,
    stmts: &[Stmt],
    last: &Expr,
) -> Result<TypedExpr, PassError>
    ensures answers { Answers result (typed (setting_of setting.now) scope.old.items (E.block_with whole (written_stmts stmts.now) last.now) expected.now) }
    ensures kept { OnOk result (scope.new.items ≡ scope.old.items) }
{
    let around = scope.len();
    let stmts = type_statements(alloc, setting, scope, stmts)?;
    let last = type_expr(alloc, setting, scope, last, expected)?;
    scope.truncate(around);
    block_with(alloc, expected, whole, stmts, last)
}

/// `if` without `else`.
#[cycle(type_expr)]
#[tactic(auto, using(crate::proofs::Parts::parts))]
fn type_branch(
    alloc: Global,
    setting: &Setting<'_>,
    scope: &mut Vec<Variable>,
    expected: &Option<Ty>,
    whole: Span,
    condition: &Expr,
    body: &Expr,
) -> Result<TypedExpr, PassError>
    ensures answers { Answers result (typed (setting_of setting.now) scope.old.items (E.branch whole None condition.now body.now) expected.now) }
    ensures kept { OnOk result (scope.new.items ≡ scope.old.items) }
{
    let test = type_expr(alloc, setting, scope, condition, &Some(Ty::bool()))?;
    let body = type_expr(alloc, setting, scope, body, &Some(Ty::unit(alloc)))?;
    branch(alloc, expected, whole, test, body)
}

/// `if` with `else`: the first of the two gives the other its type, unless it leaves.
#[cycle(type_expr)]
#[tactic(auto, using(crate::proofs::Parts::parts))]
fn type_choice(
    alloc: Global,
    setting: &Setting<'_>,
    scope: &mut Vec<Variable>,
    expected: &Option<Ty>,
    whole: Span,
    condition: &Expr,
    yes: &Expr,
    no: &Expr,
) -> Result<TypedExpr, PassError>
    ensures answers { Answers result (typed (setting_of setting.now) scope.old.items (E.choice whole None condition.now yes.now no.now) expected.now) }
    ensures kept { OnOk result (scope.new.items ≡ scope.old.items) }
{
    let condition = type_expr(alloc, setting, scope, condition, &Some(Ty::bool()))?;
    let yes = type_expr(alloc, setting, scope, yes, expected)?;
    let wanted = given_by(alloc, expected, &yes)?;
    let no = type_expr(alloc, setting, scope, no, &wanted)?;
    choice(alloc, expected, whole, condition, yes, no)
}

/// `return` with a value.
#[cycle(type_expr)]
#[tactic(auto, using(crate::proofs::Parts::parts))]
fn type_return(
    alloc: Global,
    setting: &Setting<'_>,
    scope: &mut Vec<Variable>,
    expected: &Option<Ty>,
    whole: Span,
    value: &Expr,
) -> Result<TypedExpr, PassError>
    ensures answers { Answers result (typed (setting_of setting.now) scope.old.items (E.return_with whole value.now) expected.now) }
    ensures kept { OnOk result (scope.new.items ≡ scope.old.items) }
{
    let wanted = Some(setting.answer.copy(alloc)?);
    let value = type_expr(alloc, setting, scope, value, &wanted)?;
    returned(alloc, expected, whole, value)
}

/// A loop or a closure with attributes before it.
#[cycle(type_expr)]
#[tactic(auto, using(crate::proofs::Parts::parts))]
fn type_attributed(
    alloc: Global,
    setting: &Setting<'_>,
    scope: &mut Vec<Variable>,
    expected: &Option<Ty>,
    whole: Span,
    attributes: &[Attribute],
    e: &Expr,
) -> Result<TypedExpr, PassError>
    ensures answers { Answers result (typed (setting_of setting.now) scope.old.items (E.attributed whole attributes.now e.now) expected.now) }
    ensures kept { OnOk result (scope.new.items ≡ scope.old.items) }
{
    match &*e.node {
        ExprNode::While(pattern, condition, body) => match pattern {
            None => type_while(
                alloc, setting, scope, expected, whole, attributes, condition, body,
            ),
            Some(pattern) => type_while_by(
                alloc, setting, scope, expected, whole, attributes, pattern, condition, body,
            ),
        },
        ExprNode::Loop(body) => type_loop(alloc, setting, scope, expected, whole, attributes, body),
        _ => Err(unbuilt(whole)),
    }
}

/// The operands of an operation, each at its type.
#[cycle(type_expr)]
#[tactic(auto, using(crate::proofs::Parts::parts))]
fn type_operands(
    alloc: Global,
    setting: &Setting<'_>,
    scope: &mut Vec<Variable>,
    order: Order,
    a: &Expr,
    b: &Expr,
) -> Result<Operands, PassError>
    ensures answers { Answers result (operands order (typed (setting_of setting.now) scope.old.items a.now) (typed (setting_of setting.now) scope.old.items b.now)) }
    ensures kept { OnOk result (scope.new.items ≡ scope.old.items) }
{
    match order {
        Order::Against(wanted) => {
            let wanted = Some(wanted);
            let left = type_expr(alloc, setting, scope, a, &wanted)?;
            let right = type_expr(alloc, setting, scope, b, &wanted)?;
            Ok(Operands { left, right })
        }
        Order::SecondGives => {
            let right = type_expr(alloc, setting, scope, b, &None)?;
            let wanted = given_ty(alloc, &right)?;
            let left = type_expr(alloc, setting, scope, a, &wanted)?;
            Ok(Operands { left, right })
        }
        Order::FirstGives => {
            let left = type_expr(alloc, setting, scope, a, &None)?;
            let wanted = given_ty(alloc, &left)?;
            let right = type_expr(alloc, setting, scope, b, &wanted)?;
            Ok(Operands { left, right })
        }
    }
}

/// `(a, b)`.
#[cycle(type_expr)]
#[tactic(auto, using(crate::proofs::Parts::parts))]
fn type_tuple(
    alloc: Global,
    setting: &Setting<'_>,
    scope: &mut Vec<Variable>,
    expected: &Option<Ty>,
    whole: Span,
    parts: &[Expr],
) -> Result<TypedExpr, PassError>
    ensures answers { Answers result (typed (setting_of setting.now) scope.old.items (E.tuple whole (written_exprs parts.now)) expected.now) }
    ensures kept { OnOk result (scope.new.items ≡ scope.old.items) }
{
    let parts = type_args(alloc, setting, scope, parts, parts_of(expected))?;
    tupled(alloc, expected, whole, parts)
}

/// `a.0`.
#[cycle(type_expr)]
#[tactic(auto, using(crate::proofs::Parts::parts))]
fn type_part(
    alloc: Global,
    setting: &Setting<'_>,
    scope: &mut Vec<Variable>,
    expected: &Option<Ty>,
    whole: Span,
    value: &Expr,
    number: &Number,
) -> Result<TypedExpr, PassError>
    ensures answers { Answers result (typed (setting_of setting.now) scope.old.items (E.part whole value.now number.now) expected.now) }
    ensures kept { OnOk result (scope.new.items ≡ scope.old.items) }
{
    let value = type_expr(alloc, setting, scope, value, &None)?;
    parted(alloc, setting.types.decls(), expected, whole, number, value)
}

/// `a.x`. The types behind `::` are not built.
#[cycle(type_expr)]
#[tactic(auto, using(crate::proofs::Parts::parts))]
fn type_field(
    alloc: Global,
    setting: &Setting<'_>,
    scope: &mut Vec<Variable>,
    expected: &Option<Ty>,
    whole: Span,
    value: &Expr,
    name: Segment,
    types: &[TypeTree],
) -> Result<TypedExpr, PassError>
    ensures answers { Answers result (typed (setting_of setting.now) scope.old.items (E.field whole value.now name types.now) expected.now) }
    ensures kept { OnOk result (scope.new.items ≡ scope.old.items) }
{
    if !types.is_empty() {
        return Err(unbuilt(whole));
    }
    let value = type_expr(alloc, setting, scope, value, &None)?;
    selected(alloc, setting.types.decls(), expected, whole, name, value)
}

/// `S { x: a }`.
#[cycle(type_expr)]
#[tactic(auto, using(crate::proofs::Parts::parts))]
fn type_literal(
    alloc: Global,
    setting: &Setting<'_>,
    scope: &mut Vec<Variable>,
    expected: &Option<Ty>,
    whole: Span,
    path: &Path,
    fields: &[FieldExpr],
) -> Result<TypedExpr, PassError>
    ensures answers { Answers result (typed (setting_of setting.now) scope.old.items (E.literal whole path.now (written_fields fields.now)) expected.now) }
    ensures kept { OnOk result (scope.new.items ≡ scope.old.items) }
{
    let maker = maker_of(
        alloc,
        setting.types,
        VariantKind::Named,
        expected,
        whole,
        path,
    )?;
    let parts = type_fields(alloc, setting, scope, whole, &maker, fields)?;
    literal_made(alloc, expected, whole, maker, parts)
}

/// The fields of a literal of the struct.
#[cycle(type_expr)]
#[tactic(auto, using(crate::proofs::Parts::parts))]
fn type_fields(
    alloc: Global,
    setting: &Setting<'_>,
    scope: &mut Vec<Variable>,
    whole: Span,
    maker: &Maker<'_>,
    fields: &[FieldExpr],
) -> Result<Vec<TypedExpr>, PassError>
    ensures answers { AnswersAs result (typed_fields (setting_of setting.now) scope.old.items whole (made_by maker.now) maker.now.fields.now (written_fields fields.now)) (λ v. exprs_of v.items) }
    ensures kept { OnOk result (scope.new.items ≡ scope.old.items) }
{
    let mut typed = Vec::with_capacity(alloc, fields.len())?;
    for i in 0..fields.len() {
        let field = &fields[i];
        let wanted = next_field(alloc, setting.types.decls(), maker, i, field.name)?;
        let part = type_expr(alloc, setting, scope, &field.value, &Some(wanted))?;
        typed.push(part)?;
    }
    no_field_left(maker, whole, fields.len())?;
    Ok(typed)
}

/// Arguments for parameters of these types.
#[cycle(type_expr)]
#[tactic(auto, using(crate::proofs::Parts::parts))]
fn type_args(
    alloc: Global,
    setting: &Setting<'_>,
    scope: &mut Vec<Variable>,
    args: &[Expr],
    params: &[Ty],
) -> Result<Vec<TypedExpr>, PassError>
    ensures answers { AnswersAs result (typed_args (setting_of setting.now) scope.old.items (written_exprs args.now) params.now) (λ v. exprs_of v.items) }
    ensures kept { OnOk result (scope.new.items ≡ scope.old.items) }
{
    let mut typed = Vec::with_capacity(alloc, args.len())?;
    for i in 0..args.len() {
        let wanted = param_ty(alloc, params, i)?;
        let arg = type_expr(alloc, setting, scope, &args[i], &wanted)?;
        typed.push(arg)?;
    }
    Ok(typed)
}

/// The statements of a block. What they declare stands in the scope afterwards.
#[cycle(type_expr)]
#[tactic(auto, using(crate::proofs::Parts::parts))]
fn type_statements(
    alloc: Global,
    setting: &Setting<'_>,
    scope: &mut Vec<Variable>,
    stmts: &[Stmt],
) -> Result<Vec<TypedStmt>, PassError>
    ensures { AnswersAs result (typed_stmts (setting_of setting.now) scope.old.items (written_stmts stmts.now)) (λ v. opened scope.new.items v.items) }
{
    let mut typed = Vec::with_capacity(alloc, stmts.len())?;
    for i in 0..stmts.len() {
        let stmt = type_statement(alloc, setting, scope, &stmts[i])?;
        typed.push(stmt)?;
    }
    Ok(typed)
}

/// A statement. What it declares stands in the scope afterwards.
#[cycle(type_expr)]
#[tactic(auto, using(crate::proofs::Parts::parts))]
fn type_statement(
    alloc: Global,
    setting: &Setting<'_>,
    scope: &mut Vec<Variable>,
    stmt: &Stmt,
) -> Result<TypedStmt, PassError>
    ensures { AnswersAs result (typed_statement (setting_of setting.now) scope.old.items stmt.now) (λ s. (scope.new.items, s)) }
{
    let step = step_of(alloc, setting.types, &stmt.kind)?;
    let value = type_expr(alloc, setting, scope, &stmt.value, &step.expected)?;
    declare(alloc, scope, step.declares, &value)?;
    let binds = step.declares.is_some();
    Ok(TypedStmt { binds, value })
}
