//! The pages of the companion: why a source is refused, which obligations are open and where their proofs stop, and a proof file to begin
//! with.
#![tactic(auto)]

mod attempt;
mod error_page;
mod formula;
mod goal_page;
mod hint;
mod naming;
mod opening;
mod page;
mod place;
mod sequent_page;
mod skeleton_page;
mod spelling;

pub use page::{Page, Verb, make_page};
pub use place::Source;
