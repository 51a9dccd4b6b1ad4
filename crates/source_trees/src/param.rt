use crate::path::Segment;
use crate::types::TypeTree;
use text_core::Span;

/// The forms of parameters.
#[derive(Drop)]
pub enum ParamNode {
    /// `x: T`, and whether `mut` stands before it.
    Named(bool, Segment, TypeTree),
    /// `self`, and whether `mut` stands before it.
    Receiver(bool),
    /// `&self`, with the lifetime if one is written, and whether `mut` is.
    Borrowed(Option<Segment>, bool),
}

/// A parameter of a function or a closure.
#[derive(Drop)]
pub struct Param {
    pub span: Span,
    pub node: ParamNode,
}
