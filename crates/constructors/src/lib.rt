//! What a source declares, and what of it makes a value by a name or by a path: structs, and variants of enums.
#![tactic(auto)]

mod declared;
mod finding;
mod laws;
mod refusal;

pub use declared::Declared;
pub use finding::{Constructor, constructor_named, constructor_of, same_kind};
pub use laws::constructors_are_declared;
