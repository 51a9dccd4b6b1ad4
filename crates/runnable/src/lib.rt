//! Which programs run so far: those over types whose values are copied and hold no references.
#![tactic(auto)]

mod laws;
mod running;
mod types;

pub use laws::{copy_types_are_told, owned_types_are_valued, programs_that_run_are_plain};
pub use running::first_unrun;
