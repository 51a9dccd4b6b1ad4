//! The parts of a value of a type: of a tuple by their numbers, of a struct by the names of its fields.
#![tactic(auto)]

mod finding;
mod laws;

pub use finding::{field_of, is_boxed, part_of};
pub use laws::found_parts_have_their_sorts;
