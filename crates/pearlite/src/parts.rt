//! The parts of a line by their order. They stand with the last one first, and are popped in their order.
ghost use Rattle.std.specs.Prelude.{◌≡◌, [], ◌∷◌, IfNone, IfOk, MatchOption, reverse};
ghost use Rattle.pearlite.specs.Parts.{all_of, alone, as_type, first, front, last, name_of, names_in, others};

use crate::part::{Part, Value, discard};
use crate::tokens::{has_name, segment_at, word_at};
use source_trees::{Segment, TypeTree};
use source_words::Word;
use std::alloc::Global;
use text_core::{Items, NoMemory};

/// The next part.
pub fn next(parts: &mut Vec<Part>) -> Option<Part>
    ensures { MatchOption result ((reverse parts.old.items ≡ []) × (parts.new.items ≡ [])) (λ part. reverse parts.old.items ≡ part ∷ reverse parts.new.items) }
{
    parts.pop()
}

/// Takes the next part off, which nothing needs.
#[tactic(auto, unfolding(crate::specs::Parts::others))]
pub fn skip(parts: &mut Vec<Part>)
    ensures { reverse parts.new.items ≡ others (reverse parts.old.items) }
{
    if let Some(part) = next(parts) {
        discard(part.value);
    }
}

/// The place of the first token of the next part.
#[tactic(auto, unfolding(crate::specs::Parts::others, crate::specs::Parts::first))]
pub fn place_of_next(parts: &[Part]) -> usize
    ensures { result ≡ (first (reverse parts.now)).from }
{
    match parts.last() {
        Some(part) => part.from,
        None => 0,
    }
}

/// What stands between two parentheses, where this is one part, and else all parts stay.
#[tactic(auto, unfolding(crate::specs::Parts::alone))]
pub fn alone(parts: &mut Vec<Part>) -> Option<Value>
    ensures value { result ≡ alone (reverse parts.old.items) }
    ensures rest { IfNone result (parts.new.items ≡ parts.old.items) }
{
    if parts.len() != 3 {
        return None;
    }
    skip(parts);
    match next(parts) {
        Some(part) => Some(part.value),
        None => None,
    }
}

/// The value of the last part, which is taken off.
pub fn take_last(parts: &mut Vec<Part>) -> Value
    ensures value { result ≡ (last (reverse parts.old.items)).value }
    ensures rest { reverse parts.new.items ≡ front (reverse parts.old.items) }
{
    if parts.len() == 0 {
        return Value::Passed;
    }
    parts.remove(0).value
}

/// The name that the part is, where it is a token with a name.
fn name_of(words: &[Word], part: &Part) -> Option<Segment>
    ensures { result ≡ name_of words.now part.now }
{
    if part.value.is_token() && has_name(word_at(words, part.from).kind) {
        Some(segment_at(words, part.from))
    } else {
        None
    }
}

/// The names among the tokens, and all types, in order.
#[tactic(auto, unfolding(crate::specs::Parts::all_of, crate::specs::Parts::names_in))]
pub fn names_and_types(
    alloc: Global,
    words: &[Word],
    parts: &mut Vec<Part>,
) -> Result<(Items<Segment>, Items<TypeTree>), NoMemory>
    ensures names { IfOk result (λ found. found.0 ≡ names_in words.now (reverse parts.old.items)) }
    ensures types { IfOk result (λ found. found.1 ≡ all_of as_type (reverse parts.old.items)) }
{
    let mut names = Items::new(alloc);
    let mut types = Items::new(alloc);
    while let Some(part) = next(parts) {
        if let Some(name) = name_of(words, &part) {
            names.push(name)?;
        }
        if let Some(ty) = part.value.into_type() {
            types.push(ty)?;
        }
    }
    Ok((names, types))
}
