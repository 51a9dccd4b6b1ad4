//! The obligations of a body with its contract: what has to be true so that the body never panics and meets its contract.
#![tactic(auto)]

mod call;
mod count;
mod formulas;
mod head;
mod laws;
mod marks;
mod oblige;
mod paths;
mod reached;
mod row;
mod step;
mod variant;
mod walk;

pub use count::{OBLIGATIONS, room_after};
pub use laws::{obligations_exist, paths_are_counted};
pub use oblige::{counted_obligations, obligations};
pub use paths::{PATHS, check_paths};
pub use walk::Walk;
