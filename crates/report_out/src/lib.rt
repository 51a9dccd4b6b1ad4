//! What is printed: the report of a verdict, and the lines that say why there is none.
#![tactic(auto)]

mod line;
mod line_feeds;
mod listed;
mod printing;
mod refusal;
mod verdict;

pub use listed::{ListedItem, listing};
pub use printing::report;
pub use refusal::{limit_error, proof_error, source_error, words_error};
pub use verdict::{FnLine, LeftItem, Reason, Verdict};
