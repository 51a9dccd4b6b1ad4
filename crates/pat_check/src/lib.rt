//! Which values of a type no arm of a match takes, and the tree of tests that finds the first arm that takes a value.
#![tactic(auto)]

mod bindings;
mod branches;
mod copying;
mod coverage;
mod deciding;
mod decision;
mod finding;
mod finding_kind;
mod flat;
mod joining;
mod kinds;
mod known;
mod laws;
mod next;
mod pat_value;
mod put;
mod state;
mod task;
mod test;
mod unnamed;

pub use copying::copied;
pub use coverage::missing;
pub use deciding::tree;
pub use decision::{Decision, DecisionNode};
pub use flat::is_flat;
pub use kinds::same_int;
pub use laws::{
    a_tree_is_one, flat_trees_are_of_rows, pattern_values_stand_for_values, trees_decide,
};
pub use pat_value::{PatValue, PatValueNode};
