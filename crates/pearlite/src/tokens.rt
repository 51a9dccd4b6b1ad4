//! The tokens of a line, by their places among the words.
ghost use Rattle.std.specs.Prelude.{◌≡◌, ◌-◌, nat_eq};
ghost use Rattle.pearlite.specs.MakeTerms.{number_of};
ghost use Rattle.pearlite.specs.MakeTypes.{lifetime_at};
ghost use Rattle.pearlite.specs.Parts.{has_name, segment_at, span_from, word_at};

use source_grammar::kinds;
use source_trees::{Number, Segment};
use source_words::Word;
use text_core::{Name, Span};

/// An empty part at the start of the source.
pub const NOWHERE: Span = Span { start: 0, end: 0 };

const NO_WORD: Word = Word {
    kind: kinds::IDENTIFIER,
    span: NOWHERE,
    name: Name(0),
    value: 0,
    suffix: None,
};

pub fn word_at(words: &[Word], place: usize) -> Word
    ensures { result ≡ word_at words.now place }
{
    match words.get(place) {
        Some(word) => *word,
        None => NO_WORD,
    }
}

/// The word that stands so many tokens before that place.
pub fn word_before(words: &[Word], place: usize, count: usize) -> Word
    ensures { result ≡ word_at words.now (place - count) }
{
    word_at(words, place.saturating_sub(count))
}

/// Whether the word is of that kind.
pub fn is_at(words: &[Word], kind: u8, place: usize) -> bool
    ensures { result ≡ nat_eq (word_at words.now place).kind kind }
{
    word_at(words, place).kind == kind
}

/// Whether the word that stands so many tokens before that place is of that kind.
pub fn is_before(words: &[Word], kind: u8, place: usize, count: usize) -> bool
    ensures { result ≡ nat_eq (word_at words.now (place - count)).kind kind }
{
    word_before(words, place, count).kind == kind
}

/// The name at that place.
pub fn segment_at(words: &[Word], place: usize) -> Segment
    ensures { result ≡ segment_at words.now place }
{
    let word = word_at(words, place);
    Segment {
        name: word.name,
        span: word.span,
    }
}

/// The name that stands so many tokens before that place.
pub fn segment_before(words: &[Word], place: usize, count: usize) -> Segment
    ensures { result ≡ segment_at words.now (place - count) }
{
    segment_at(words, place.saturating_sub(count))
}

/// The lifetime, where one stands there.
pub fn lifetime_at(words: &[Word], place: usize) -> Option<Segment>
    ensures { result ≡ lifetime_at words.now place }
{
    if is_at(words, kinds::LIFETIME, place) {
        Some(segment_at(words, place))
    } else {
        None
    }
}

/// The number that a word stands for.
pub fn number_of(word: Word) -> Number
    ensures { result ≡ number_of word }
{
    Number {
        span: word.span,
        value: word.value,
        suffix: word.suffix,
    }
}

/// From the first token to before the one behind the last.
pub fn span_from(words: &[Word], from: usize, to: usize) -> Span
    ensures { result ≡ span_from words.now from to }
{
    Span {
        start: word_at(words, from).span.start,
        end: word_before(words, to, 1).span.end,
    }
}

/// Whether tokens of the kind have names.
pub fn has_name(kind: u8) -> bool
    ensures { result ≡ has_name kind }
{
    kind == kinds::IDENTIFIER
        || kind == kinds::LIFETIME
        || (kind >= kinds::WORD_CREUSOT_CONTRACTS && kind <= kinds::WORD_YIELD)
}
