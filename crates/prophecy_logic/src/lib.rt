//! What the code of a body says of values: the row of each statement and edge, the tree of rows of a body's walk, and path states.
#![tactic(auto)]

mod command;
mod goal;
mod laws;
mod operation;
mod state;
mod touch;

pub use command::Command;
pub use goal::{Goal, MetGoal};
pub use laws::{goals_are_seen_before, prefixes_have_goals, walks_are_one, walks_exist};
pub use operation::{Compared, Operation};
pub use state::State;
pub use touch::Touch;
