//! Written patterns at a type: what they match, and the names that they bind.
#![tactic(auto)]

mod fields;
mod laws;
mod leaves;
mod names;
mod parts;
mod refusal;
mod seen;
mod typing;

pub use laws::{bound_names_are_listed, typed_patterns_fit};
pub use names::BoundName;
pub use typing::{PatternTyping, type_pattern};
