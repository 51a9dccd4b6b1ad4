//! The declared types of a source, and what it is refused for by what its items declare.
#![tactic(auto)]

mod checks;
mod declarations;
mod double;
mod fields;
mod heads;
mod lists;

pub use declarations::declare;
