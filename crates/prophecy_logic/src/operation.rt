//! Binary operators, by what they owe and give.
use source_kinds::ArithOp;

/// A binary operator, by what it owes and gives.
#[derive(Clone, Copy)]
pub enum Operation {
    /// The exact result, which has to be of the type.
    Exact(ArithOp),
    /// The quotient or the remainder, where the divisor is not 0.
    Divided(ArithOp),
    /// A comparison, which owes nothing.
    Compared,
}

/// What is compared: two truth values, or two integers.
#[derive(Clone, Copy)]
pub enum Compared {
    Truths,
    Integers,
}
