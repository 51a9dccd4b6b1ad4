//! Terms of contracts and of proofs: what they become where they stand.
#![tactic(auto)]

mod binders;
mod chain;
mod elaborating;
mod laws;
mod parts;
mod refusal;
mod scope;
mod sorted;
mod sorts;
mod written_sorts;

pub use elaborating::{elaborate, elaborate_formula};
pub use laws::{elaborated_terms_are_sorted, elaborated_terms_speak_of_their_scope};
pub use scope::{Symbol, TermScope};
pub use sorted::SortedTerm;
