//! Statements and expressions.
ghost use Rattle.std.specs.Prelude.{◌≡◌};
ghost use Rattle.std.specs.Option.{option_copied};
ghost use Rattle.source_trees.specs.Expr as E;
ghost use Rattle.source_trees.specs.ExprView.{exprs_of, stmts_of, arms_of, field_exprs_of};
ghost use Rattle.source_forms.specs.declared.form.Form.TheVariants as forms;
ghost use Rattle.source_forms.specs.Forms.{is_among, here, in_some, in_each, ◌or_else◌};
ghost use Rattle.source_forms.specs.TypeForms.{unbuilt_type};
ghost use Rattle.source_forms.specs.ExprForms.{unbuilt_attribute, unbuilt_param, promises_before, unbuilt_kind, unbuilt_condition, panic_form, logical_form, unary_form, borrow_form, call_form, unbuilt_expr, unbuilt_exprs, unbuilt_stmts, unbuilt_arms, unbuilt_field_exprs};
ghost use Rattle.source_forms.specs.LeftForms.{left_expr, before_expr, behind_expr};

use crate::attributes::{unbuilt_attributes, unbuilt_params};
use crate::form::{BEFORE_CLOSURE, BEFORE_LOOP, ELSEWHERE, Form, IN_LET};
use crate::patterns::unbuilt_pattern;
use crate::place::{behind, here};
use crate::terms::unbuilt_term;
use crate::types::{path_form, unbuilt_path, unbuilt_type, unbuilt_types};
use source_trees::{
    Arm, Attribute, Expr, ExprNode, FieldExpr, GhostMacro, PanicMacro, Param, Pat, Path, Pterm,
    Stmt, StmtKind, TypeTree, UnaryOp,
};
use text_core::Span;

// ---- forms

fn panic_form(of: PanicMacro) -> Form
    ensures { result ≡ panic_form of }
{
    match of {
        PanicMacro::Panic => Form::Panic,
        PanicMacro::Unreachable => Form::Unreachable,
    }
}

fn logical_form(of: GhostMacro) -> Form
    ensures { result ≡ logical_form of }
{
    match of {
        GhostMacro::ProofAssert => Form::ProofAssert,
        GhostMacro::Snapshot => Form::Snapshot,
    }
}

fn unary_form(op: UnaryOp) -> Form
    ensures { result ≡ unary_form op }
{
    match op {
        UnaryOp::Neg => Form::Negative,
        UnaryOp::Not => Form::Not,
        UnaryOp::Deref => Form::Deref,
    }
}

fn borrow_form(mutable: bool) -> Form
    ensures { result ≡ borrow_form mutable }
{
    if mutable {
        Form::MutableBorrow
    } else {
        Form::SharedBorrow
    }
}

#[tactic(auto, unfolding(crate::specs::ExprForms::call_form))]
fn call_form(called: &Expr) -> Form
    ensures { result ≡ call_form called.now }
{
    match &*called.node {
        ExprNode::Path(path) => path_form(Form::Call, Form::OtherCall, path),
        _ => Form::OtherCall,
    }
}

// ---- parts that are no expressions

/// The type that is written, if there is one.
pub(crate) fn unbuilt_answer(built: &[Form], ty: &Option<TypeTree>) -> Option<u64>
    ensures { result ≡ in_some (unbuilt_type (is_among built.now)) ty.now }
{
    match ty {
        None => None,
        Some(ty) => unbuilt_type(built, ty),
    }
}

/// What stands before the value of a statement.
fn unbuilt_kind(built: &[Form], kind: &StmtKind) -> Option<u64>
    ensures { result ≡ unbuilt_kind (is_among built.now) kind.now }
{
    match kind {
        StmtKind::Let(pattern, ty) => {
            first_of!(
                unbuilt_pattern(built, &IN_LET, pattern),
                unbuilt_answer(built, ty)
            )
        }
        StmtKind::Run => None,
        StmtKind::Blocklike => None,
    }
}

/// The head of an `if` or a `while`, up to its condition: a pattern is that of a `let`.
fn unbuilt_condition(
    built: &[Form],
    plain: Form,
    patterned: Form,
    span: Span,
    pattern: &Option<Pat>,
) -> Option<u64>
    ensures { result ≡ unbuilt_condition (is_among built.now) plain patterned span pattern.now }
{
    match pattern {
        None => here(built, plain, span),
        Some(pattern) => {
            first_of!(
                behind(built, patterned, span),
                unbuilt_pattern(built, &ELSEWHERE, pattern)
            )
        }
    }
}

/// The attributes before a loop or a closure.
#[tactic(auto, unfolding(crate::specs::ExprForms::promises_before))]
fn unbuilt_promises(built: &[Form], attributes: &[Attribute], e: &Expr) -> Option<u64>
    ensures { result ≡ in_each (unbuilt_attribute (is_among built.now) (promises_before e.now)) attributes.now }
{
    match &*e.node {
        ExprNode::Closure(_, _, _, _, _) => unbuilt_attributes(built, &BEFORE_CLOSURE, attributes),
        _ => unbuilt_attributes(built, &BEFORE_LOOP, attributes),
    }
}

/// A path alone.
fn path(built: &[Form], span: Span, path: &Path) -> Option<u64>
    ensures { result ≡ unbuilt_expr (is_among built.now) (E.path span path.now) }
{
    let form = path_form(Form::Name, Form::Path, path);
    first_of!(here(built, form, span), unbuilt_path(built, path))
}

/// `proof_assert!` or `snapshot!`
fn logical(built: &[Form], span: Span, of: GhostMacro, term: &Pterm) -> Option<u64>
    ensures { result ≡ unbuilt_expr (is_among built.now) (E.logical span of term.now) }
{
    first_of!(
        here(built, logical_form(of), span),
        unbuilt_term(built, term)
    )
}

// ---- expressions

/// The operand on the left.
fn left_of(e: &Expr) -> Option<&Expr>
    ensures { option_copied result ≡ left_expr e.now }
{
    match &*e.node {
        ExprNode::Assign(d, _) => Some(d),
        ExprNode::Update(_, _, d, _) => Some(d),
        ExprNode::Lazy(_, d, _) => Some(d),
        ExprNode::Binary(_, _, d, _) => Some(d),
        ExprNode::Cast(e, _) => Some(e),
        ExprNode::Unary(_, _, e) => Some(e),
        ExprNode::Borrow(_, e) => Some(e),
        ExprNode::Field(e, _, _) => Some(e),
        ExprNode::Part(e, _) => Some(e),
        ExprNode::Method(e, _, _, _) => Some(e),
        ExprNode::Call(e, _) => Some(e),
        _ => None,
    }
}

/// The first form in the expression that is not built. Operands on the left are gone down by the loop, since they may be in one another
/// by the thousand: what is behind one of them comes before what is behind the expressions that it is in.
#[cycle(unbuilt_expr)]
pub(crate) fn unbuilt_expr(built: &[Form], e: &Expr) -> Option<u64>
    ensures { result ≡ unbuilt_expr (is_among built.now) e.now }
{
    let mut e = e;
    let mut after = None;
    while let Some(left) = left_of(e) {
        if let Some(start) = unbuilt_before(built, e) {
            return Some(start);
        }
        after = first_of!(unbuilt_behind(built, e), after);
        e = left;
    }
    first_of!(unbuilt_before(built, e), after)
}

/// What is before the operand on the left, or all of the expression where there is none.
#[cycle(unbuilt_expr)]
fn unbuilt_before(built: &[Form], e: &Expr) -> Option<u64>
    ensures { result ≡ before_expr (is_among built.now) e.now }
{
    let span = e.span;
    match &*e.node {
        ExprNode::Int(_, _) => here(built, Form::Integer, span),
        ExprNode::Truth(_) => here(built, Form::Truth, span),
        ExprNode::Receiver => here(built, Form::SelfValue, span),
        ExprNode::Path(of) => path(built, span, of),
        ExprNode::Literal(of, fields) => literal(built, span, of, fields),
        ExprNode::Tuple(parts) => tuple(built, span, parts),
        ExprNode::Block(statements) => block(built, span, statements),
        ExprNode::BlockWith(statements, e) => block_with(built, span, statements, e),
        ExprNode::If(pattern, test, body) => branch(built, span, pattern, test, body),
        ExprNode::IfElse(pattern, test, yes, no) => choice(built, span, pattern, test, yes, no),
        ExprNode::Match(e, arms) => matching(built, span, e, arms),
        ExprNode::While(pattern, test, body) => repeat(built, span, pattern, test, body),
        ExprNode::Loop(body) => one(built, Form::Loop, span, body),
        ExprNode::Attributed(attributes, e) => attributed(built, attributes.as_slice(), e),
        ExprNode::Closure(_, _, of, ty, body) => closure(built, span, of.as_slice(), ty, body),
        ExprNode::Return => here(built, Form::Return, span),
        ExprNode::ReturnWith(e) => one(built, Form::Return, span, e),
        ExprNode::Break => here(built, Form::Break, span),
        ExprNode::Continue => here(built, Form::Continue, span),
        ExprNode::Panic(of, _) => here(built, panic_form(*of), span),
        ExprNode::Ghost(of, term) => logical(built, span, *of, term),
        ExprNode::Assign(_, _) => here(built, Form::Assign, span),
        ExprNode::Update(_, _, _, _) => here(built, Form::Update, span),
        ExprNode::Lazy(_, _, _) => here(built, Form::Lazy, span),
        ExprNode::Binary(_, _, _, _) => here(built, Form::Binary, span),
        ExprNode::Cast(_, _) => here(built, Form::Cast, span),
        ExprNode::Unary(op, _, _) => here(built, unary_form(*op), span),
        ExprNode::Borrow(mutable, _) => here(built, borrow_form(*mutable), span),
        ExprNode::Field(_, _, _) => here(built, Form::Field, span),
        ExprNode::Part(_, _) => here(built, Form::Part, span),
        ExprNode::Method(_, _, _, _) => here(built, Form::Method, span),
        ExprNode::Call(e, _) => here(built, call_form(e), span),
    }
}

/// What is behind the operand on the left.
#[cycle(unbuilt_expr)]
fn unbuilt_behind(built: &[Form], e: &Expr) -> Option<u64>
    ensures { result ≡ behind_expr (is_among built.now) e.now }
{
    match &*e.node {
        ExprNode::Assign(_, e) => unbuilt_expr(built, e),
        ExprNode::Update(_, _, _, e) => unbuilt_expr(built, e),
        ExprNode::Lazy(_, _, e) => unbuilt_expr(built, e),
        ExprNode::Binary(_, _, _, e) => unbuilt_expr(built, e),
        ExprNode::Cast(_, ty) => unbuilt_type(built, ty),
        ExprNode::Field(_, _, types) => unbuilt_types(built, types.as_slice()),
        ExprNode::Method(_, _, types, arguments) => first_of!(
            unbuilt_types(built, types.as_slice()),
            unbuilt_exprs(built, arguments)
        ),
        ExprNode::Call(_, arguments) => unbuilt_exprs(built, arguments),
        _ => None,
    }
}

/// A form with one part.
#[cycle(unbuilt_expr)]
fn one(built: &[Form], form: Form, span: Span, e: &Expr) -> Option<u64>
    ensures { result ≡ (here (is_among built.now) form span or_else unbuilt_expr (is_among built.now) e.now) }
{
    first_of!(here(built, form, span), unbuilt_expr(built, e))
}

/// An `if` without `else`.
#[cycle(unbuilt_expr)]
fn branch(
    built: &[Form],
    span: Span,
    pattern: &Option<Pat>,
    test: &Expr,
    body: &Expr,
) -> Option<u64>
    ensures { result ≡ unbuilt_expr (is_among built.now) (E.branch span pattern.now test.now body.now) }
{
    first_of!(
        unbuilt_condition(built, Form::If, Form::IfLet, span, pattern),
        unbuilt_expr(built, test),
        unbuilt_expr(built, body)
    )
}

#[cycle(unbuilt_expr)]
fn choice(
    built: &[Form],
    span: Span,
    pattern: &Option<Pat>,
    test: &Expr,
    yes: &Expr,
    no: &Expr,
) -> Option<u64>
    ensures { result ≡ unbuilt_expr (is_among built.now) (E.choice span pattern.now test.now yes.now no.now) }
{
    first_of!(
        unbuilt_condition(built, Form::If, Form::IfLet, span, pattern),
        unbuilt_expr(built, test),
        unbuilt_expr(built, yes),
        unbuilt_expr(built, no)
    )
}

#[cycle(unbuilt_expr)]
fn repeat(
    built: &[Form],
    span: Span,
    pattern: &Option<Pat>,
    test: &Expr,
    body: &Expr,
) -> Option<u64>
    ensures { result ≡ unbuilt_expr (is_among built.now) (E.repeat span pattern.now test.now body.now) }
{
    first_of!(
        unbuilt_condition(built, Form::While, Form::WhileLet, span, pattern),
        unbuilt_expr(built, test),
        unbuilt_expr(built, body)
    )
}

/// A loop or a closure with the attributes before it.
#[cycle(unbuilt_expr)]
fn attributed(built: &[Form], attributes: &[Attribute], e: &Expr) -> Option<u64>
    ensures { result ≡ (in_each (unbuilt_attribute (is_among built.now) (promises_before e.now)) attributes.now or_else unbuilt_expr (is_among built.now) e.now) }
{
    first_of!(
        unbuilt_promises(built, attributes, e),
        unbuilt_expr(built, e)
    )
}

/// A struct literal.
#[cycle(unbuilt_expr)]
fn literal(built: &[Form], span: Span, path: &Path, fields: &[FieldExpr]) -> Option<u64>
    ensures { result ≡ unbuilt_expr (is_among built.now) (E.literal span path.now (field_exprs_of fields.now)) }
{
    first_of!(
        here(built, Form::Literal, span),
        unbuilt_path(built, path),
        unbuilt_field_exprs(built, fields)
    )
}

#[cycle(unbuilt_expr)]
fn tuple(built: &[Form], span: Span, parts: &[Expr]) -> Option<u64>
    ensures { result ≡ unbuilt_expr (is_among built.now) (E.tuple span (exprs_of parts.now)) }
{
    first_of!(here(built, Form::Tuple, span), unbuilt_exprs(built, parts))
}

#[cycle(unbuilt_expr)]
fn block(built: &[Form], span: Span, statements: &[Stmt]) -> Option<u64>
    ensures { result ≡ unbuilt_expr (is_among built.now) (E.block span (stmts_of statements.now)) }
{
    first_of!(
        here(built, Form::Block, span),
        unbuilt_stmts(built, statements)
    )
}

/// A block with its value.
#[cycle(unbuilt_expr)]
fn block_with(built: &[Form], span: Span, statements: &[Stmt], e: &Expr) -> Option<u64>
    ensures { result ≡ unbuilt_expr (is_among built.now) (E.block_with span (stmts_of statements.now) e.now) }
{
    first_of!(
        here(built, Form::Block, span),
        unbuilt_stmts(built, statements),
        unbuilt_expr(built, e)
    )
}

#[cycle(unbuilt_expr)]
fn matching(built: &[Form], span: Span, e: &Expr, arms: &[Arm]) -> Option<u64>
    ensures { result ≡ unbuilt_expr (is_among built.now) (E.matching span e.now (arms_of arms.now)) }
{
    first_of!(
        here(built, Form::Match, span),
        unbuilt_expr(built, e),
        unbuilt_arms(built, arms)
    )
}

#[cycle(unbuilt_expr)]
fn closure(
    built: &[Form],
    span: Span,
    parameters: &[Param],
    ty: &Option<TypeTree>,
    body: &Expr,
) -> Option<u64>
    ensures { result ≡ (here (is_among built.now) forms.Closure span or_else in_each (unbuilt_param (is_among built.now)) parameters.now or_else in_some (unbuilt_type (is_among built.now)) ty.now or_else unbuilt_expr (is_among built.now) body.now) }
{
    first_of!(
        here(built, Form::Closure, span),
        unbuilt_params(built, parameters),
        unbuilt_answer(built, ty),
        unbuilt_expr(built, body)
    )
}

#[cycle(unbuilt_expr)]
#[tactic(auto, using(crate::proofs::Sizes::parts))]
fn unbuilt_exprs(built: &[Form], es: &[Expr]) -> Option<u64>
    ensures { result ≡ unbuilt_exprs (is_among built.now) (exprs_of es.now) }
{
    for e in es {
        if let Some(start) = unbuilt_expr(built, e) {
            return Some(start);
        }
    }
    None
}

#[cycle(unbuilt_expr)]
#[tactic(auto, using(crate::proofs::Sizes::parts))]
fn unbuilt_stmts(built: &[Form], statements: &[Stmt]) -> Option<u64>
    ensures { result ≡ unbuilt_stmts (is_among built.now) (stmts_of statements.now) }
{
    for statement in statements {
        if let Some(start) = unbuilt_kind(built, &statement.kind) {
            return Some(start);
        }
        if let Some(start) = unbuilt_expr(built, &statement.value) {
            return Some(start);
        }
    }
    None
}

#[cycle(unbuilt_expr)]
#[tactic(auto, using(crate::proofs::Sizes::parts))]
fn unbuilt_arms(built: &[Form], arms: &[Arm]) -> Option<u64>
    ensures { result ≡ unbuilt_arms (is_among built.now) (arms_of arms.now) }
{
    for arm in arms {
        if let Some(start) = unbuilt_pattern(built, &ELSEWHERE, &arm.pattern) {
            return Some(start);
        }
        if let Some(start) = unbuilt_expr(built, &arm.body) {
            return Some(start);
        }
    }
    None
}

#[cycle(unbuilt_expr)]
#[tactic(auto, using(crate::proofs::Sizes::parts))]
fn unbuilt_field_exprs(built: &[Form], fields: &[FieldExpr]) -> Option<u64>
    ensures { result ≡ unbuilt_field_exprs (is_among built.now) (field_exprs_of fields.now) }
{
    for field in fields {
        if let Some(start) = unbuilt_expr(built, &field.value) {
            return Some(start);
        }
    }
    None
}
