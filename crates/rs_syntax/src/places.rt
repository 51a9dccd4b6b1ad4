//! What stands at places among words.
ghost use Rattle.std.specs.Prelude.{◌≡◌, ◌+◌, nat_eq};
ghost use Rattle.pearlite.specs.Parts.{word_at, segment_at};

use crate::part::word_behind;
use source_trees::Segment;
use source_words::Word;

/// Whether the word that stands so many tokens behind that place is of that kind.
pub(crate) fn is_behind(words: &[Word], kind: u8, place: usize, count: usize) -> bool
    ensures { result ≡ nat_eq (word_at words.now (place + count)).kind kind }
{
    word_behind(words, place, count).kind == kind
}

/// The name that stands so many tokens behind that place.
pub(crate) fn segment_behind(words: &[Word], place: usize, count: usize) -> Segment
    ensures { result ≡ segment_at words.now (place + count) }
{
    let word = word_behind(words, place, count);
    Segment {
        name: word.name,
        span: word.span,
    }
}
