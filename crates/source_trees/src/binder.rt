use crate::path::Segment;
use crate::types::TypeTree;
use text_core::Span;

/// A variable that a quantifier binds.
#[derive(Drop)]
pub struct Binder {
    /// From its first token to its last.
    pub span: Span,
    pub name: Segment,
    pub ty: TypeTree,
}
