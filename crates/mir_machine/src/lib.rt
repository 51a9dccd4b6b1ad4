//! The machine that runs bodies of MIR: trees, states, its steps, and what it means that a function is good.
#![tactic(auto)]

mod args;
mod arithmetic;
mod ends;
mod entry;
mod frame;
mod halt;
mod laws;
mod machine;
mod memory;
mod outcome;
mod run_error;
mod running;
mod scalar;
mod spot;
mod statements;
mod steps;
mod taken;
mod tree;

pub use args::Args;
pub use frame::{Frame, State};
pub use laws::proper_calls_are_never_stuck;
pub use machine::{Machine, NoIntrinsics};
pub use mir_ir::{
    Block, Bodies, Body, Callee, FnId, Head, Lit, Operand, Place, Point, Proj, Rvalue, Statement,
    StatementKind, Terminator, TerminatorKind,
};
pub use outcome::Outcome;
pub use run_error::RunError;
pub use spot::Spot;
pub use tree::{PointerTree, Tree, TreeNode};
