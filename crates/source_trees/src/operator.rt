use source_kinds::{ArithOp, Comparison};

/// The operators with one operand.
#[derive(Clone, Copy)]
pub enum UnaryTerm {
    /// `-t`
    Neg,
    /// `!t`
    Not,
    /// `*t`
    Current,
    /// `^t`
    Final,
    /// `t@`
    View,
}

/// The operators with two operands.
#[derive(Clone, Copy)]
pub enum BinaryTerm {
    /// `==>`
    Implies,
    /// `||`
    Or,
    /// `&&`
    And,
    Compare(Comparison),
    Calculate(ArithOp),
}

/// The quantifiers.
#[derive(Clone, Copy)]
pub enum Quantifier {
    Forall,
    Exists,
}

/// The predicates of closures.
#[derive(Clone, Copy)]
pub enum Predicate {
    Precondition,
    Postcondition,
    PostconditionMut,
    PostconditionOnce,
}

/// The traits of closures.
#[derive(Clone, Copy)]
pub enum CallTrait {
    Fn,
    FnMut,
    FnOnce,
}

/// The macros that a run is not to reach.
#[derive(Clone, Copy)]
pub enum PanicMacro {
    /// `panic!`
    Panic,
    /// `unreachable!`
    Unreachable,
}

/// The macros that hold a term among program code.
#[derive(Clone, Copy)]
pub enum GhostMacro {
    /// `proof_assert!`
    ProofAssert,
    /// `snapshot!`
    Snapshot,
}

/// The operators of program code with one operand.
#[derive(Clone, Copy)]
pub enum UnaryOp {
    /// `-e`
    Neg,
    /// `!e`
    Not,
    /// `*e`
    Deref,
}
