ghost use Rattle.std.specs.Prelude.{◌≡◌};
ghost use Rattle.type_check.specs.Breaks.{breaks, some_arm_breaks, some_breaks, some_statement_breaks};
ghost use Rattle.type_check.specs.TypedExpr.{done};
ghost use Rattle.type_check.specs.TypedExprView.{arms_of, exprs_of, stmts_of};

use crate::logic::{cast_operand, operands_of};
use crate::typed::{TypedArm, TypedExpr, TypedNode, TypedStmt};

/// Whether a `break` in the expression leaves the loop around it. Left operands are gone down by a loop.
#[cycle(breaks)]
#[tactic(auto, using(crate::proofs::BreakParts::right_parts))]
pub(crate) fn breaks(e: &TypedExpr) -> bool
    ensures { result ≡ breaks e.now }
{
    let mut bottom = cast_operand(e);
    while let Some((left, right)) = operands_of(bottom) {
        if breaks(right) {
            return true;
        }
        bottom = cast_operand(left);
    }
    form_breaks(bottom)
}

/// The same, each part by a call. A loop in it has `break`s of its own.
#[cycle(breaks)]
#[tactic(auto, using(crate::proofs::BreakParts::break_parts))]
fn form_breaks(e: &TypedExpr) -> bool
    ensures { result ≡ breaks e.now }
{
    match &*e.node {
        TypedNode::Break => true,
        TypedNode::Neg(a) => breaks(a),
        TypedNode::Not(a) => breaks(a),
        TypedNode::Cast(a) => breaks(a),
        TypedNode::Binary(_, a, b) => breaks(a) || breaks(b),
        TypedNode::Lazy(_, a, b) => breaks(a) || breaks(b),
        TypedNode::Assign(a, b) => breaks(a) || breaks(b),
        TypedNode::Update(_, a, b) => breaks(a) || breaks(b),
        TypedNode::Call(_, args) => some_breaks(args),
        TypedNode::Make(_, parts) => some_breaks(parts),
        TypedNode::Part(a, _) => breaks(a),
        TypedNode::Block(stmts) => some_statement_breaks(stmts),
        TypedNode::BlockWith(stmts, last) => some_statement_breaks(stmts) || breaks(last),
        TypedNode::BlockLeaving(stmts, last) => some_statement_breaks(stmts) || breaks(last),
        TypedNode::If(c, a) => breaks(c) || breaks(a),
        TypedNode::IfElse(c, a, b) => breaks(c) || breaks(a) || breaks(b),
        TypedNode::Match(value, arms) => breaks(value) || some_arm_breaks(arms),
        TypedNode::Return(a) => breaks(a),
        _ => false,
    }
}

#[cycle(breaks)]
#[tactic(auto, using(crate::proofs::BreakParts::break_parts))]
fn some_breaks(es: &[TypedExpr]) -> bool
    ensures { result ≡ some_breaks (exprs_of es.now) }
{
    for i in 0..es.len() {
        if breaks(&es[i]) {
            return true;
        }
    }
    false
}

#[cycle(breaks)]
#[tactic(auto, using(crate::proofs::BreakParts::break_parts))]
fn some_statement_breaks(stmts: &[TypedStmt]) -> bool
    ensures { result ≡ some_statement_breaks (stmts_of stmts.now done) }
{
    for i in 0..stmts.len() {
        if breaks(&stmts[i].value) {
            return true;
        }
    }
    false
}

#[cycle(breaks)]
#[tactic(auto, using(crate::proofs::BreakParts::break_parts))]
fn some_arm_breaks(arms: &[TypedArm]) -> bool
    ensures { result ≡ some_arm_breaks (arms_of arms.now) }
{
    for i in 0..arms.len() {
        if breaks(&arms[i].body) {
            return true;
        }
    }
    false
}
