//! Texts that are whole terms.
#![tactic(auto)]

mod laws;
mod reading;

pub use laws::a_text_is_a_term_or_none;
pub use reading::{TermFault, read_whole_term};
