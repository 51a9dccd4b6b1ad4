//! The errors that faults of the grammar stand for.
ghost use Rattle.std.specs.Prelude.{◌≡◌};
ghost use Rattle.source_words.specs.Faults.{error_at, error_of, span_at};

use crate::word::Word;
use source_grammar::SyntaxFault;
use text_core::{Code, PassError, SourceError, Span};

/// The span of the word at the position, or the empty one at the end of the bytes.
pub fn span_at(words: &[Word], end: u32, position: usize) -> Span
    ensures { result ≡ span_at words.now end position }
{
    match words.get(position) {
        Some(word) => word.span,
        None => Span { start: end, end },
    }
}

fn error_at(code: Code, words: &[Word], end: u32, position: usize) -> SourceError
    ensures { result ≡ error_at code words.now end position }
{
    SourceError {
        code,
        span: span_at(words, end, position),
        other: None,
    }
}

/// The error of a fault of the words, behind which the bytes end at that offset: E03 for a token that cannot continue, E20
/// for one that begins a construct that the language leaves out, E04 for one that passes a limit.
pub fn error_of(words: &[Word], end: u32, fault: SyntaxFault) -> PassError
    ensures { result ≡ error_of words.now end fault }
{
    match fault {
        SyntaxFault::Stray(position) => {
            PassError::Source(error_at(Code::E03, words, end, position))
        }
        SyntaxFault::LeftOut(position) => {
            PassError::Source(error_at(Code::E20, words, end, position))
        }
        SyntaxFault::TooDeep(position) => {
            PassError::Source(error_at(Code::E04, words, end, position))
        }
        SyntaxFault::NoMemory => PassError::NoMemory,
    }
}
