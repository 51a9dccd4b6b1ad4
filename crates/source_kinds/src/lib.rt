//! The integer types and the operators of sources, by which trees, terms and bodies speak alike (Rust Reference, "Numeric types" and
//! "Operator expressions").
#![tactic(auto)]

mod kinds;

pub use kinds::{ArithOp, BinaryOp, Comparison, IntKind, LazyOp};
