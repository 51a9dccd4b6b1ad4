//! What is made of the lines of patterns.
ghost use Rattle.std.specs.Prelude.{◌≡◌, IfOk, reverse, unwrap_or};
ghost use Rattle.pearlite.specs.MakePatterns.{bound, field_pattern_made, integer_pattern_made, mut_pattern_made, opposite, path_pattern_by, path_pattern_made, truth_pattern_made, tuple_pattern_made, wildcard_made};
ghost use Rattle.pearlite.specs.Parts.{as_pattern, first_of};
ghost use Rattle.source_trees.specs.PatView.{pat_of};
ghost use Rattle.text_core.specs.declared.span.Span.{Span};
ghost use Rattle.pearlite.specs.declared.part.Value.TheVariants as V;

use crate::families::{next_of, next_path, pattern_with, take_all};
use crate::part::{Part, Value};
use crate::parts::alone;
use crate::tokens::{is_at, is_before, segment_at, segment_before, span_from, word_before};
use source_grammar::kinds;
use source_trees::{FieldPat, Pat, PatNode, Path, PathNode, Segment};
use source_words::Word;
use std::alloc::Global;
use text_core::{Items, NoMemory, Span};

/// The pattern as a value.
fn pattern_value(alloc: Global, span: Span, node: PatNode) -> Result<Value, NoMemory>
    ensures { IfOk result (λ v. v ≡ V.Pattern (pat_of span node)) }
{
    Ok(Value::Pattern(pattern_with(alloc, span, node)?))
}

/// `_`
#[tactic(auto, unfolding(crate::specs::MakePatterns::wildcard_made))]
pub fn wildcard(alloc: Global, words: &[Word], from: usize, to: usize) -> Result<Value, NoMemory>
    ensures { IfOk result (λ v. v ≡ wildcard_made words.now from to) }
{
    pattern_value(alloc, span_from(words, from, to), PatNode::Any)
}

/// `mut` and the name.
#[tactic(auto, unfolding(crate::specs::MakePatterns::mut_pattern_made))]
pub fn mut_pattern(alloc: Global, words: &[Word], from: usize, to: usize) -> Result<Value, NoMemory>
    ensures { IfOk result (λ v. v ≡ mut_pattern_made words.now from to) }
{
    let node = PatNode::Mutable(segment_before(words, to, 1));
    pattern_value(alloc, span_from(words, from, to), node)
}

/// The opposite of the number of a word, which is not negative.
fn opposite(number: i128) -> i128
    ensures { result ≡ opposite number }
{
    if number >= 0 { -number } else { number }
}

/// An integer, with `-` or without.
#[tactic(auto, unfolding(crate::specs::MakePatterns::integer_pattern_made))]
pub fn integer_pattern(
    alloc: Global,
    words: &[Word],
    from: usize,
    to: usize,
) -> Result<Value, NoMemory>
    ensures { IfOk result (λ v. v ≡ integer_pattern_made words.now from to) }
{
    let word = word_before(words, to, 1);
    let value = if is_at(words, kinds::MINUS, from) {
        opposite(word.value)
    } else {
        word.value
    };
    pattern_value(
        alloc,
        span_from(words, from, to),
        PatNode::Int(value, word.suffix),
    )
}

/// `true` or `false`
#[tactic(auto, unfolding(crate::specs::MakePatterns::truth_pattern_made))]
pub fn truth_pattern(
    alloc: Global,
    words: &[Word],
    from: usize,
    to: usize,
) -> Result<Value, NoMemory>
    ensures { IfOk result (λ v. v ≡ truth_pattern_made words.now from to) }
{
    let node = PatNode::Truth(is_at(words, kinds::KW_TRUE, from));
    pattern_value(alloc, span_from(words, from, to), node)
}

/// `(`, the patterns, `)`.
#[tactic(auto, unfolding(crate::specs::MakePatterns::tuple_pattern_made))]
pub fn tuple_pattern(
    alloc: Global,
    words: &[Word],
    from: usize,
    to: usize,
    parts: &mut Vec<Part>,
) -> Result<Value, NoMemory>
    ensures { IfOk result (λ v. v ≡ tuple_pattern_made words.now from to (reverse parts.old.items)) }
{
    match alone(parts) {
        Some(value) => Ok(value),
        None => {
            let patterns = take_all::<Pat>(alloc, parts)?;
            let node = PatNode::Tuple(patterns.into_vec());
            pattern_value(alloc, span_from(words, from, to), node)
        }
    }
}

/// The path, with the parts or the fields behind it.
#[tactic(auto, unfolding(crate::specs::MakePatterns::path_pattern_by))]
fn path_pattern_node(
    alloc: Global,
    words: &[Word],
    to: usize,
    path: Path,
    parts: &mut Vec<Part>,
) -> Result<PatNode, NoMemory>
    ensures { IfOk result (λ node. (span : Span) → pat_of span node ≡ path_pattern_by words.now to span path (reverse parts.old.items)) }
{
    if is_before(words, kinds::CLOSE_PAREN, to, 1) {
        let patterns = take_all::<Pat>(alloc, parts)?;
        Ok(PatNode::Parts(path, patterns.into_vec()))
    } else if is_before(words, kinds::CLOSE_BRACE, to, 1) {
        let fields = take_all::<FieldPat>(alloc, parts)?;
        let more = is_before(words, kinds::DOT_DOT, to, 2);
        Ok(PatNode::Fields(path, fields.into_vec(), more))
    } else {
        Ok(PatNode::Path(path))
    }
}

/// A path, with parts or fields or alone.
#[tactic(auto, unfolding(crate::specs::MakePatterns::path_pattern_made))]
pub fn path_pattern(
    alloc: Global,
    words: &[Word],
    from: usize,
    to: usize,
    parts: &mut Vec<Part>,
) -> Result<Value, NoMemory>
    ensures { IfOk result (λ v. v ≡ path_pattern_made words.now from to (reverse parts.old.items)) }
{
    let path = next_path(alloc, parts);
    let node = path_pattern_node(alloc, words, to, path, parts)?;
    pattern_value(alloc, span_from(words, from, to), node)
}

/// The pattern of a name alone, which binds it.
fn bound(alloc: Global, name: Segment) -> Result<Pat, NoMemory>
    ensures { IfOk result (λ pattern. pattern ≡ bound name) }
{
    let path = Path {
        span: name.span,
        node: PathNode::Names(name, Items::new(alloc), Items::new(alloc)),
    };
    pattern_with(alloc, name.span, PatNode::Path(path))
}

/// The pattern of a field, where one stands there, and else its name.
fn pattern_or_name(alloc: Global, name: Segment, parts: &mut Vec<Part>) -> Result<Pat, NoMemory>
    ensures { IfOk result (λ pattern. pattern ≡ unwrap_or (first_of as_pattern (reverse parts.old.items)) (bound name)) }
{
    match next_of::<Pat>(parts) {
        Some(pattern) => Ok(pattern),
        None => bound(alloc, name),
    }
}

/// A field of a constructor.
#[tactic(auto, unfolding(crate::specs::MakePatterns::field_pattern_made))]
pub fn field_pattern(
    alloc: Global,
    words: &[Word],
    from: usize,
    to: usize,
    parts: &mut Vec<Part>,
) -> Result<Value, NoMemory>
    ensures { IfOk result (λ v. v ≡ field_pattern_made words.now from to (reverse parts.old.items)) }
{
    let name = segment_at(words, from);
    let pattern = pattern_or_name(alloc, name, parts)?;
    Ok(Value::FieldPattern(FieldPat {
        span: span_from(words, from, to),
        name,
        pattern,
    }))
}
