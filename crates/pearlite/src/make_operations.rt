//! What is made of the lines of operations on terms.
ghost use Rattle.std.specs.Prelude.{◌≡◌, ◌≤ℤ◌, IfOk, IfSome, pos, reverse};
ghost use Rattle.pearlite.specs.MakeTerms.{applied, applied_by, magnitude, operation, operator_of, prefix_of, prefix_term_made, prefixed, suffixed, term_member_made, term_operation_made, unsigned};
ghost use Rattle.source_trees.specs.PtermView.{pterm_of};
ghost use Rattle.pearlite.specs.declared.part.Value.TheVariants as V;

use crate::families::{next_term, take_all, term_with};
use crate::part::{Part, TermSuffix, Value};
use crate::parts::{next, place_of_next, skip};
use crate::tokens::{
    is_before, number_of, segment_at, segment_before, span_from, word_at, word_before,
};
use source_grammar::kinds;
use source_kinds::{ArithOp, Comparison, IntKind};
use source_trees::{BinaryTerm, Pterm, PtermNode, UnaryTerm};
use source_words::Word;
use std::alloc::Global;
use text_core::{NoMemory, Span};

/// The operator between two terms.
fn operator_of(kind: u8) -> BinaryTerm
    ensures { result ≡ operator_of kind }
{
    match kind {
        kinds::OR_OR => BinaryTerm::Or,
        kinds::AND_AND => BinaryTerm::And,
        kinds::EQUAL_EQUAL => BinaryTerm::Compare(Comparison::Eq),
        kinds::NOT_EQUAL => BinaryTerm::Compare(Comparison::Ne),
        kinds::LESS => BinaryTerm::Compare(Comparison::Lt),
        kinds::AT_MOST => BinaryTerm::Compare(Comparison::Le),
        kinds::GREATER => BinaryTerm::Compare(Comparison::Gt),
        kinds::AT_LEAST => BinaryTerm::Compare(Comparison::Ge),
        kinds::PLUS => BinaryTerm::Calculate(ArithOp::Add),
        kinds::MINUS => BinaryTerm::Calculate(ArithOp::Sub),
        kinds::STAR => BinaryTerm::Calculate(ArithOp::Mul),
        kinds::SLASH => BinaryTerm::Calculate(ArithOp::Div),
        kinds::PERCENT => BinaryTerm::Calculate(ArithOp::Rem),
        _ => BinaryTerm::Implies,
    }
}

/// The operand with what stands behind it.
#[tactic(auto, unfolding(crate::specs::MakeTerms::suffixed))]
fn suffixed(
    alloc: Global,
    span: Span,
    operand: Pterm,
    suffix: TermSuffix,
) -> Result<Pterm, NoMemory>
    ensures { IfOk result (λ term. term ≡ suffixed span operand suffix) }
{
    let node = match suffix {
        TermSuffix::View => PtermNode::Unary(UnaryTerm::View, operand),
        TermSuffix::Field(name) => PtermNode::Field(operand, name),
        TermSuffix::Part(number) => PtermNode::Part(operand, number),
        TermSuffix::Method(name, terms) => PtermNode::Method(operand, name, terms.into_vec()),
    };
    term_with(alloc, span, node)
}

/// What stands so far, with one more operand or suffix.
#[tactic(auto, unfolding(crate::specs::MakeTerms::applied_by, crate::specs::Parts::as_term, crate::specs::Parts::as_suffix, crate::specs::Parts::is_suffix))]
fn applied_by(
    alloc: Global,
    span: Span,
    op: BinaryTerm,
    left: Pterm,
    value: Value,
) -> Result<Pterm, NoMemory>
    ensures { IfOk result (λ term. term ≡ applied_by span op left value) }
{
    if value.is_suffix() {
        return match value.into_suffix() {
            Some(suffix) => suffixed(alloc, span, left, suffix),
            None => Ok(left),
        };
    }
    match value.into_term() {
        Some(right) => term_with(alloc, span, PtermNode::Binary(op, left, right)),
        None => Ok(left),
    }
}

/// What stands so far, with one more part of the line.
#[tactic(auto, unfolding(crate::specs::MakeTerms::applied))]
fn applied(
    alloc: Global,
    words: &[Word],
    from: usize,
    left: Pterm,
    part: Part,
) -> Result<Pterm, NoMemory>
    ensures { IfOk result (λ term. term ≡ applied words.now from left part) }
{
    let span = span_from(words, from, part.to);
    let op = operator_of(word_before(words, part.from, 1).kind);
    applied_by(alloc, span, op, left, part.value)
}

/// Operands and suffixes behind a first operand, from the left.
#[tactic(auto, unfolding(crate::specs::MakeTerms::operation))]
fn operation(
    alloc: Global,
    words: &[Word],
    from: usize,
    first: Pterm,
    parts: &mut Vec<Part>,
) -> Result<Pterm, NoMemory>
    ensures { IfOk result (λ term. term ≡ operation words.now from first (reverse parts.old.items)) }
{
    let mut left = first;
    while let Some(part) = next(parts) {
        left = applied(alloc, words, from, left, part)?;
    }
    Ok(left)
}

/// Operands with operators between them, or an operand with what stands behind it.
#[tactic(auto, unfolding(crate::specs::MakeTerms::term_operation_made))]
pub fn term_operation(
    alloc: Global,
    words: &[Word],
    from: usize,
    parts: &mut Vec<Part>,
) -> Result<Value, NoMemory>
    ensures { IfOk result (λ v. v ≡ term_operation_made words.now from (reverse parts.old.items)) }
{
    let first = next_term(alloc, parts)?;
    Ok(Value::Term(operation(alloc, words, from, first, parts)?))
}

fn prefix_of(kind: u8) -> UnaryTerm
    ensures { result ≡ prefix_of kind }
{
    match kind {
        kinds::MINUS => UnaryTerm::Neg,
        kinds::NOT => UnaryTerm::Not,
        kinds::STAR => UnaryTerm::Current,
        _ => UnaryTerm::Final,
    }
}

/// A number with its type, where it is not negative.
pub fn unsigned(value: i128, suffix: Option<IntKind>) -> Option<(i128, Option<IntKind>)>
    ensures value { result ≡ unsigned value suffix }
    ensures low { IfSome result (λ p. pos 0 ≤ℤ p.0) }
{
    if value >= 0 {
        Some((value, suffix))
    } else {
        None
    }
}

/// The integer, where it is one that is not negative.
#[tactic(auto, unfolding(crate::specs::MakeTerms::magnitude))]
fn magnitude(term: &Pterm) -> Option<(i128, Option<IntKind>)>
    ensures value { result ≡ magnitude term.now }
    ensures low { IfSome result (λ p. pos 0 ≤ℤ p.0) }
{
    match &*term.node {
        PtermNode::Int(value, suffix) => unsigned(*value, *suffix),
        _ => None,
    }
}

/// The operator and the operand.
#[tactic(auto, unfolding(crate::specs::MakeTerms::prefixed))]
fn prefixed(alloc: Global, span: Span, op: UnaryTerm, operand: Pterm) -> Result<Pterm, NoMemory>
    ensures { IfOk result (λ term. term ≡ prefixed span op (magnitude operand) operand) }
{
    match (op, magnitude(&operand)) {
        (UnaryTerm::Neg, Some((value, suffix))) => {
            term_with(alloc, span, PtermNode::Int(-value, suffix))
        }
        _ => term_with(alloc, span, PtermNode::Unary(op, operand)),
    }
}

/// `-`, `!`, `*` or `^`, and the operand.
#[tactic(auto, unfolding(crate::specs::MakeTerms::prefix_term_made))]
pub fn prefix_term(
    alloc: Global,
    words: &[Word],
    from: usize,
    to: usize,
    parts: &mut Vec<Part>,
) -> Result<Value, NoMemory>
    ensures { IfOk result (λ v. v ≡ prefix_term_made words.now from to (reverse parts.old.items)) }
{
    let operand = next_term(alloc, parts)?;
    let op = prefix_of(word_at(words, from).kind);
    Ok(Value::Term(prefixed(alloc, span_from(words, from, to), op, operand)?))
}

/// `.` and a part by its number, a field, or a method with its arguments.
#[tactic(auto, unfolding(crate::specs::MakeTerms::term_member_made))]
pub fn term_member(
    alloc: Global,
    words: &[Word],
    to: usize,
    parts: &mut Vec<Part>,
) -> Result<Value, NoMemory>
    ensures { IfOk result (λ v. v ≡ term_member_made words.now to (reverse parts.old.items)) }
{
    if is_before(words, kinds::CLOSE_PAREN, to, 1) {
        skip(parts);
        let name = segment_at(words, place_of_next(parts));
        skip(parts);
        let terms = take_all::<Pterm>(alloc, parts)?;
        Ok(Value::Suffix(TermSuffix::Method(name, terms)))
    } else if is_before(words, kinds::INTEGER, to, 1) {
        let number = number_of(word_before(words, to, 1));
        Ok(Value::Suffix(TermSuffix::Part(number)))
    } else {
        Ok(Value::Suffix(TermSuffix::Field(segment_before(words, to, 1))))
    }
}
