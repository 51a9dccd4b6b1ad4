use crate::path::Segment;
use crate::pterm::Pterm;
use text_core::{Items, Span};

/// The clauses of contracts, loops and closures.
#[derive(Clone, Copy)]
pub enum ClauseKind {
    /// `requires(t)`
    Requires,
    /// `ensures(t)`
    Ensures,
    /// `invariant(t)`
    Invariant,
    /// `variant(t)`
    Variant,
}

/// What stands in the brackets of an attribute.
#[derive(Drop)]
pub enum AttributeNode {
    Clause(ClauseKind, Pterm),
    /// `logic`
    Logic,
    /// `law`
    Law,
    /// `derive(A, B)`
    Derive(Items<Segment>),
    /// `allow`, `inline`, `must_use` or `doc`, with any words.
    Skipped,
}

/// An attribute before an item, a function, a loop or a closure.
#[derive(Drop)]
pub struct Attribute {
    /// From its `#` to its `]`.
    pub span: Span,
    pub node: AttributeNode,
}
