//! The tokens of a source text.
#![tactic(auto)]

mod blanks;
mod fronts;
mod integers;
mod laws;
mod lexer;
mod marks;
mod strings;
mod tables;
mod token;
mod words;

pub use laws::{
    a_lexer_gives_the_tokens_of_the_text, a_next_token_is_the_only_answer,
    a_refusal_is_the_only_answer, a_text_has_one_list_of_tokens, a_token_has_one_kind,
    an_identifier_is_an_admitted_token,
};
pub use lexer::Lexer;
pub use token::{Token, TokenKind};
pub use words::is_identifier;
