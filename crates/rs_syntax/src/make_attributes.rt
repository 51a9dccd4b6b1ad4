//! What the lines of attributes make.
ghost use Rattle.std.specs.Prelude.{◌≡◌, reverse, IfOk};
ghost use Rattle.rs_syntax.specs.MakeAttributes.{clause_of, clause_made, is_separator, with_name, derive_made};

use crate::gathering::{Gather, first_of, gather_all};
use crate::part::families::{discard, skip};
use crate::part::{Part, Value, segment_at};
use pearlite::{Value as Shape, is_at};
use source_grammar::kinds;
use source_trees::{AttributeNode, ClauseKind, Pterm, Segment};
use source_words::Word;
use std::alloc::Global;
use text_core::{Items, NoMemory};

/// The kind of a clause, by its word.
fn clause_of(words: &[Word], place: usize) -> ClauseKind
    ensures { result ≡ clause_of words.now place }
{
    if is_at(words, kinds::WORD_REQUIRES, place) {
        ClauseKind::Requires
    } else if is_at(words, kinds::WORD_ENSURES, place) {
        ClauseKind::Ensures
    } else if is_at(words, kinds::WORD_INVARIANT, place) {
        ClauseKind::Invariant
    } else {
        ClauseKind::Variant
    }
}

/// `requires(t)` and the like.
#[tactic(auto, unfolding(crate::specs::MakeAttributes::clause_made))]
pub(crate) fn clause(words: &[Word], from: usize, parts: &mut Vec<Part>) -> Value
    ensures { result ≡ clause_made words.now from (reverse parts.old.items) }
{
    match first_of::<Pterm>(parts) {
        Some(term) => Value::Attribute(AttributeNode::Clause(clause_of(words, from), term)),
        None => Value::Shape(Shape::Passed),
    }
}

/// Whether what stands there stands around names.
fn is_separator(words: &[Word], place: usize) -> bool
    ensures { result ≡ is_separator words.now place }
{
    is_at(words, kinds::OPEN_PAREN, place)
        || is_at(words, kinds::COMMA, place)
        || is_at(words, kinds::CLOSE_PAREN, place)
}

impl Gather for Items<Segment> {
    ghost with = { with_name };

    fn add(&mut self, words: &[Word], part: Part) -> Result<(), NoMemory> {
        let Part { value, from, to: _ } = part;
        discard(value);
        if is_separator(words, from) {
            return Ok(());
        }
        self.push(segment_at(words, from))
    }
}

/// `derive(A, B)`
#[tactic(auto, unfolding(crate::specs::MakeAttributes::derive_made))]
pub(crate) fn derive(
    alloc: Global,
    words: &[Word],
    parts: &mut Vec<Part>,
) -> Result<Value, NoMemory>
    ensures { IfOk result (λ v. v ≡ derive_made words.now (reverse parts.old.items)) }
{
    skip(parts);
    let names: Items<Segment> = gather_all(words, parts, Items::new(alloc))?;
    Ok(Value::Attribute(AttributeNode::Derive(names)))
}
