//! The verdict on a source: which obligations its proofs prove, and which functions are verified.
#![tactic(auto)]

mod built;
mod check;
mod fault;
mod judge;
mod laws;
mod listing;
mod owed;
mod preparing;
mod program;
mod reach;
mod table;
mod verdict;
mod verifying;

pub use fault::Refusal;
pub use laws::{
    a_source_has_one_answer, a_verdict_is_one, accepted_sources_never_get_stuck,
    each_obligation_is_settled_rightly, functions_owe_one_list, obligations_are_counted,
    obligations_are_of_one_walk, paths_are_counted, refusals_are_at_one_line,
};
pub use listing::list;
pub use owed::Owed;
pub use preparing::{SOURCE_BYTES, prepare};
pub use program::Program;
pub use verdict::verdict_on;
pub use verifying::{PROOF_BYTES, proofs_of, verify};
