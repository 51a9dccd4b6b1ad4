//! The declared types of a program: their table, which are accepted, which types are `Copy`, what a written type means, and types at types for their
//! parameters.
#![tactic(auto)]

mod applying;
mod asking;
mod bounded;
mod checks;
mod closing;
mod copy_rows;
mod copy_types;
mod copying;
mod holding;
mod laws;
mod meaning;
mod settling;
mod standing;
mod table;
mod weighing;
mod written;

pub use applying::{applied, apply};
pub use checks::Check;
pub use copy_types::CopyTypes;
pub use laws::{a_cycle_is_endless, first_refusals_are_one, ranked_types_are_bounded};
pub use meaning::{meant, word_of};
pub use table::AdtTable;
pub use written::{ArgumentList, Elision, TypeName, TypeScope};
