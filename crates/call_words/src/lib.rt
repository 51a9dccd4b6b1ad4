//! The words of a call of the program: which command they are, and what they ask for.
#![tactic(auto)]

mod grammar;
mod laws;
mod request;

pub use laws::{plain_words_ask, words_read_as_the_table};
pub use request::{Request, Verb, request_of};
