//! A goal, which is a term, as text.
#![tactic(auto)]

mod piece;
mod sort;
mod spelling;
mod term;

pub use sort::sort_bytes;
pub use spelling::Spelling;
pub use term::goal_text;
