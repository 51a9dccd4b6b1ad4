//! Programs whose obligations are true are good on the machine.
#![tactic(auto)]

mod laws;
mod node;

pub use laws::{a_loop_and_a_call_meet_the_conditions, true_obligations_make_good};
pub use node::Node;
