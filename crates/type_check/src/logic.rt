ghost use Rattle.std.specs.Prelude.{◌≡◌, ◌≤◌, ◌<◌, ◌||◌, MatchOption, IfOk};
ghost use Rattle.type_check.specs.Breaks.{breaks};
ghost use Rattle.type_check.specs.FirstBad.{bad_of, bad_among, bad_in, bad_in_stmts, bad_in_exprs, bad_in_arms, bad_clause, bad_in_function, first_bad, match_refusal};
ghost use Rattle.type_check.specs.Answers.{or_else};
ghost use Rattle.type_check.specs.TypedExpr.{done};
ghost use Rattle.type_check.specs.TypedExprView.{arms_of, exprs_of, patterns_of, stmts_of, ty_of, typed_size};

use crate::assertion::Assertion;
use crate::covering::match_refusal;
use crate::program::{TypedClause, TypedFunction};
use crate::typed::{TypedArm, TypedExpr, TypedNode, TypedStmt};
use crate::typing::ty_of;
use std::alloc::Global;
use text_core::{NoMemory, SourceError, Span};

fn earlier(first: Option<SourceError>, second: Option<SourceError>) -> Option<SourceError>
    ensures { result ≡ or_else first second }
{
    if first.is_some() { first } else { second }
}

fn bad_of(assertion: &Assertion) -> Option<SourceError>
    ensures { result ≡ bad_of assertion.now }
{
    match assertion {
        Assertion::Good(_, _) => None,
        Assertion::Bad(error) => Some(*error),
    }
}

fn bad_among(assertions: &[Assertion]) -> Option<SourceError>
    ensures { result ≡ bad_among assertions.now }
{
    for assertion in assertions {
        let bad = bad_of(assertion);
        if bad.is_some() {
            return bad;
        }
    }
    None
}

/// The operands of an operation.
pub(crate) fn operands_of(e: &TypedExpr) -> Option<(&TypedExpr, &TypedExpr)>
    ensures bad { MatchOption result (Unit {0}) (λ p. bad_in e.now ≡ or_else (bad_in p.0.now) (bad_in p.1.now)) }
    ensures breaks { MatchOption result (Unit {0}) (λ p. breaks e.now ≡ (breaks p.0.now || breaks p.1.now)) }
    ensures left { MatchOption result (Unit {0}) (λ p. typed_size p.0.now < typed_size e.now) }
    ensures right { MatchOption result (Unit {0}) (λ p. typed_size p.1.now < typed_size e.now) }
{
    match &*e.node {
        TypedNode::Binary(_, a, b) => Some((a, b)),
        TypedNode::Lazy(_, a, b) => Some((a, b)),
        TypedNode::Assign(a, b) => Some((a, b)),
        TypedNode::Update(_, a, b) => Some((a, b)),
        _ => None,
    }
}

/// What is cast, through all casts; the expression itself where it is none. By a loop, since casts stack as deep as they are long.
pub(crate) fn cast_operand(e: &TypedExpr) -> &TypedExpr
    ensures bad { bad_in e.now ≡ bad_in result.now }
    ensures breaks { breaks e.now ≡ breaks result.now }
    ensures smaller { typed_size result.now ≤ typed_size e.now }
{
    let mut operand = e;
    while let TypedNode::Cast(inner) = &*operand.node {
        operand = inner;
    }
    operand
}

/// The first refusal of an invariant or a match in the expression. Left operands are gone down by a loop; what is found further left
/// stands earlier.
#[cycle(bad_in)]
fn bad_in(alloc: Global, e: &TypedExpr) -> Result<Option<SourceError>, NoMemory>
    ensures { IfOk result (λ r. r ≡ bad_in e.now) }
{
    let mut bottom = cast_operand(e);
    let mut found = None;
    while let Some((left, right)) = operands_of(bottom) {
        found = earlier(bad_in(alloc, right)?, found);
        bottom = cast_operand(left);
    }
    Ok(earlier(bad_in_form(alloc, bottom)?, found))
}

/// The same of two expressions, one behind the other.
#[cycle(bad_in)]
fn bad_in_both(
    alloc: Global,
    first: &TypedExpr,
    second: &TypedExpr,
) -> Result<Option<SourceError>, NoMemory>
    ensures { IfOk result (λ r. r ≡ or_else (bad_in first.now) (bad_in second.now)) }
{
    let bad = bad_in(alloc, first)?;
    if bad.is_some() {
        return Ok(bad);
    }
    bad_in(alloc, second)
}

/// The same of statements and the last one behind them.
#[cycle(bad_in)]
fn bad_in_block(
    alloc: Global,
    stmts: &[TypedStmt],
    last: &TypedExpr,
) -> Result<Option<SourceError>, NoMemory>
    ensures { IfOk result (λ r. r ≡ or_else (bad_in_stmts (stmts_of stmts.now done)) (bad_in last.now)) }
{
    let bad = bad_in_stmts(alloc, stmts)?;
    if bad.is_some() {
        return Ok(bad);
    }
    bad_in(alloc, last)
}

/// The same of a match at the span.
#[cycle(bad_in)]
fn bad_in_match(
    alloc: Global,
    span: Span,
    value: &TypedExpr,
    arms: &[TypedArm],
) -> Result<Option<SourceError>, NoMemory>
    ensures { IfOk result (λ r. r ≡ or_else (bad_in value.now) (or_else (bad_in_arms (arms_of arms.now)) (match_refusal span (ty_of value.now) (patterns_of (arms_of arms.now))))) }
{
    let bad = bad_in(alloc, value)?;
    if bad.is_some() {
        return Ok(bad);
    }
    let bad = bad_in_arms(alloc, arms)?;
    if bad.is_some() {
        return Ok(bad);
    }
    match_refusal(alloc, span, ty_of(value), arms)
}

/// The same of an expression, each part by a call.
#[cycle(bad_in)]
#[tactic(auto, using(crate::proofs::TypedParts::typed_parts))]
fn bad_in_form(alloc: Global, e: &TypedExpr) -> Result<Option<SourceError>, NoMemory>
    ensures { IfOk result (λ r. r ≡ bad_in e.now) }
{
    match &*e.node {
        TypedNode::Int(_, _) => Ok(None),
        TypedNode::Truth(_) => Ok(None),
        TypedNode::Variable(_) => Ok(None),
        TypedNode::Neg(a) => bad_in(alloc, a),
        TypedNode::Not(a) => bad_in(alloc, a),
        TypedNode::Cast(a) => bad_in(alloc, a),
        TypedNode::Binary(_, a, b) => bad_in_both(alloc, a, b),
        TypedNode::Lazy(_, a, b) => bad_in_both(alloc, a, b),
        TypedNode::Assign(a, b) => bad_in_both(alloc, a, b),
        TypedNode::Update(_, a, b) => bad_in_both(alloc, a, b),
        TypedNode::Call(_, args) => bad_in_exprs(alloc, args),
        TypedNode::Make(_, parts) => bad_in_exprs(alloc, parts),
        TypedNode::Part(a, _) => bad_in(alloc, a),
        TypedNode::Block(stmts) => bad_in_stmts(alloc, stmts),
        TypedNode::BlockWith(stmts, last) => bad_in_block(alloc, stmts, last),
        TypedNode::BlockLeaving(stmts, last) => bad_in_block(alloc, stmts, last),
        TypedNode::If(c, a) => bad_in_both(alloc, c, a),
        TypedNode::IfElse(c, a, b) => Ok(earlier(bad_in(alloc, c)?, bad_in_both(alloc, a, b)?)),
        TypedNode::Match(value, arms) => bad_in_match(alloc, e.span, value, arms),
        TypedNode::While(invariants, c, b) => {
            Ok(earlier(bad_among(invariants), bad_in_both(alloc, c, b)?))
        }
        TypedNode::Panic(_) => Ok(None),
        TypedNode::Return(a) => bad_in(alloc, a),
        TypedNode::Loop(invariants, b) => Ok(earlier(bad_among(invariants), bad_in(alloc, b)?)),
        TypedNode::LoopUntilBreak(invariants, b) => {
            Ok(earlier(bad_among(invariants), bad_in(alloc, b)?))
        }
        TypedNode::Break => Ok(None),
        TypedNode::Continue => Ok(None),
    }
}

#[cycle(bad_in)]
#[tactic(auto, using(crate::proofs::TypedParts::typed_parts))]
fn bad_in_exprs(alloc: Global, es: &[TypedExpr]) -> Result<Option<SourceError>, NoMemory>
    ensures { IfOk result (λ r. r ≡ bad_in_exprs (exprs_of es.now)) }
{
    for i in 0..es.len() {
        let bad = bad_in(alloc, &es[i])?;
        if bad.is_some() {
            return Ok(bad);
        }
    }
    Ok(None)
}

#[cycle(bad_in)]
#[tactic(auto, using(crate::proofs::TypedParts::typed_parts))]
fn bad_in_stmts(alloc: Global, stmts: &[TypedStmt]) -> Result<Option<SourceError>, NoMemory>
    ensures { IfOk result (λ r. r ≡ bad_in_stmts (stmts_of stmts.now done)) }
{
    for i in 0..stmts.len() {
        let bad = bad_in(alloc, &stmts[i].value)?;
        if bad.is_some() {
            return Ok(bad);
        }
    }
    Ok(None)
}

#[cycle(bad_in)]
#[tactic(auto, using(crate::proofs::TypedParts::typed_parts))]
fn bad_in_arms(alloc: Global, arms: &[TypedArm]) -> Result<Option<SourceError>, NoMemory>
    ensures { IfOk result (λ r. r ≡ bad_in_arms (arms_of arms.now)) }
{
    for i in 0..arms.len() {
        let bad = bad_in(alloc, &arms[i].body)?;
        if bad.is_some() {
            return Ok(bad);
        }
    }
    Ok(None)
}

fn bad_clause(clauses: &[TypedClause]) -> Option<SourceError>
    ensures { result ≡ bad_clause clauses.now }
{
    for clause in clauses {
        let bad = bad_of(&clause.formula);
        if bad.is_some() {
            return bad;
        }
    }
    None
}

fn bad_in_function(alloc: Global, function: &TypedFunction) -> Result<Option<SourceError>, NoMemory>
    ensures { IfOk result (λ r. r ≡ bad_in_function function.now) }
{
    let bad = bad_clause(function.clauses.as_slice());
    if bad.is_some() {
        return Ok(bad);
    }
    bad_in(alloc, &function.body)
}

/// The first refusal of a clause, an invariant or a match, in source order.
pub(crate) fn first_bad(
    alloc: Global,
    functions: &[TypedFunction],
) -> Result<Option<SourceError>, NoMemory>
    ensures { IfOk result (λ r. r ≡ first_bad functions.now) }
{
    for function in functions {
        let bad = bad_in_function(alloc, function)?;
        if bad.is_some() {
            return Ok(bad);
        }
    }
    Ok(None)
}
