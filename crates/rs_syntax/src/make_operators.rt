//! What operators make of their operands.
ghost use Rattle.std.specs.Prelude.{◌≡◌, reverse, IfOk};
ghost use Rattle.rs_syntax.specs.MakeOperators.{applied, assigned, assigning, assignment_made, binary_of, computing, operated, operation_made, updating_of};

use crate::nodes::{made, nothing};
use crate::part::{Part, Suffix, Value, next};
use pearlite::{span_from, word_at, word_before};
use source_grammar::kinds;
use source_kinds::{BinaryOp, LazyOp};
use source_trees::{Expr, ExprNode};
use source_words::Word;
use std::alloc::Global;
use text_core::{NoMemory, Span};

/// The operator that the token is, but for `+`.
#[tactic(auto, unfolding(crate::specs::MakeOperators::binary_of))]
fn binary_of(kind: u8) -> BinaryOp
    ensures { result ≡ binary_of kind }
{
    match kind {
        kinds::MINUS => BinaryOp::Sub,
        kinds::STAR => BinaryOp::Mul,
        kinds::SLASH => BinaryOp::Div,
        kinds::PERCENT => BinaryOp::Rem,
        kinds::EQUAL_EQUAL => BinaryOp::Eq,
        kinds::NOT_EQUAL => BinaryOp::Ne,
        kinds::LESS => BinaryOp::Lt,
        kinds::AT_MOST => BinaryOp::Le,
        kinds::GREATER => BinaryOp::Gt,
        kinds::AT_LEAST => BinaryOp::Ge,
        _ => BinaryOp::Add,
    }
}

/// The operator of the assignment that the token is, but for `+=`.
#[tactic(auto, unfolding(crate::specs::MakeOperators::updating_of))]
fn updating_of(kind: u8) -> BinaryOp
    ensures { result ≡ updating_of kind }
{
    match kind {
        kinds::MINUS_EQUAL => BinaryOp::Sub,
        kinds::STAR_EQUAL => BinaryOp::Mul,
        kinds::SLASH_EQUAL => BinaryOp::Div,
        kinds::PERCENT_EQUAL => BinaryOp::Rem,
        _ => BinaryOp::Add,
    }
}

/// The operator of that token, with its second operand.
#[tactic(auto, unfolding(crate::specs::MakeOperators::computing))]
pub(crate) fn computing(word: Word, operand: Expr) -> Suffix
    ensures { result ≡ computing word operand }
{
    match word.kind {
        kinds::OR_OR => Suffix::Lazy(LazyOp::Or, operand),
        kinds::AND_AND => Suffix::Lazy(LazyOp::And, operand),
        kind => Suffix::Binary(binary_of(kind), word.span, operand),
    }
}

/// The assignment of that token, with its value.
#[tactic(auto, unfolding(crate::specs::MakeOperators::assigning))]
fn assigning(word: Word, value: Expr) -> Suffix
    ensures { result ≡ assigning word value }
{
    match word.kind {
        kinds::EQUAL => Suffix::Assign(value),
        kind => Suffix::Update(updating_of(kind), word.span, value),
    }
}

/// The operator on this operand. Err only for want of memory.
pub(crate) fn applied(
    alloc: Global,
    span: Span,
    operand: Expr,
    suffix: Suffix,
) -> Result<Expr, NoMemory>
    ensures { IfOk result (λ e. e ≡ applied span operand suffix) }
{
    made(alloc, span, suffix.on(operand))
}

/// The operators behind the operand, which begins at the token `from`, one after another.
#[tactic(auto, unfolding(crate::specs::MakeOperators::operated, crate::specs::MakeOperators::applied_to))]
fn operated(
    alloc: Global,
    words: &[Word],
    from: usize,
    operand: Expr,
    parts: &mut Vec<Part>,
) -> Result<Expr, NoMemory>
    ensures { IfOk result (λ e. e ≡ operated words.now from operand (reverse parts.old.items)) }
{
    let mut whole = operand;
    while let Some(part) = next(parts) {
        let span = span_from(words, from, part.to);
        if let Some(suffix) = part.value.into_suffix(word_before(words, part.from, 1)) {
            whole = applied(alloc, span, whole, suffix)?;
        }
    }
    Ok(whole)
}

/// An operand and the operators behind it. Err only for want of memory.
#[tactic(auto, unfolding(crate::specs::MakeOperators::operation_made, crate::specs::MakeOperators::operation_of))]
pub(crate) fn operation(
    alloc: Global,
    words: &[Word],
    from: usize,
    parts: &mut Vec<Part>,
) -> Result<Value, NoMemory>
    ensures { IfOk result (λ v. v ≡ operation_made words.now from (reverse parts.old.items)) }
{
    let expr = match next(parts) {
        Some(part) => {
            let operand = part.value.into_expr(alloc)?;
            operated(alloc, words, from, operand, parts)?
        }
        None => nothing(alloc)?,
    };
    Ok(Value::Expr(expr))
}

/// The targets before the value, which ends before the token `to`, the last one first.
#[tactic(auto, unfolding(crate::specs::MakeOperators::assigned, crate::specs::MakeOperators::assigned_to))]
fn assigned(
    alloc: Global,
    words: &[Word],
    to: usize,
    value: Expr,
    parts: &mut Vec<Part>,
) -> Result<Expr, NoMemory>
    ensures { IfOk result (λ e. e ≡ assigned words.now to value (reverse parts.old.items)) }
{
    let mut whole = value;
    while let Some(part) = next(parts) {
        let word = word_at(words, part.to);
        let span = span_from(words, part.from, to);
        if let Some(target) = part.value.as_expr() {
            whole = applied(alloc, span, target, assigning(word, whole))?;
        }
    }
    Ok(whole)
}

/// Targets of assignments and the value. Err only for want of memory.
#[tactic(auto, unfolding(crate::specs::MakeOperators::assignment_made, crate::specs::MakeOperators::assignment_of))]
pub(crate) fn assignment(
    alloc: Global,
    words: &[Word],
    to: usize,
    parts: &mut Vec<Part>,
) -> Result<Value, NoMemory>
    ensures { IfOk result (λ v. v ≡ assignment_made words.now to (reverse parts.old.items)) }
{
    parts.reverse();
    let expr = match next(parts) {
        Some(part) => {
            let value = part.value.into_expr(alloc)?;
            assigned(alloc, words, to, value, parts)?
        }
        None => nothing(alloc)?,
    };
    Ok(Value::Expr(expr))
}
