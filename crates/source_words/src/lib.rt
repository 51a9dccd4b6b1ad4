//! The words of a source: its tokens with the kinds of the grammar, names and numbers.
#![tactic(auto)]

mod faults;
mod integers;
mod kinds;
mod quoted_words;
mod tables;
mod tokens;
mod word;
mod words;

pub use faults::{error_of, span_at};
pub use tokens::tokens_of;
pub use word::Word;
pub use words::{kinds_of_words, words_of, words_of_tokens};
