use crate::types::TypeTree;
use source_kinds::IntKind;
use text_core::{Items, Name, Span};

/// A name in its place.
#[derive(Clone, Copy)]
pub struct Segment {
    pub name: Name,
    pub span: Span,
}

/// The number of a part, as that of `t.0`, in its place.
#[derive(Clone, Copy)]
pub struct Number {
    pub span: Span,
    pub value: i128,
    /// The type at its end, if it has one.
    pub suffix: Option<IntKind>,
}

/// A path as it is written.
#[derive(Drop)]
pub struct Path {
    /// From its first token to its last.
    pub span: Span,
    pub node: PathNode,
}

/// The forms of paths.
pub enum PathNode {
    /// `a::b::<T>`: the first name, those behind it, and the types at the end, none where no `::<` stands.
    Names(Segment, Items<Segment>, Items<TypeTree>),
    /// `a::<T>::b`
    Member(Segment, Items<TypeTree>, Segment),
    /// `<T as A>::b`
    Qualified(TypeTree, Segment, Segment),
}

// By hand, so that whoever holds one drops it by a call (docs/architecture.md).
impl Drop for PathNode {
    fn drop(self) {
        match self {
            PathNode::Names(_, _, _) | PathNode::Member(_, _, _) | PathNode::Qualified(_, _, _) =>
                {}
        }
    }
}
