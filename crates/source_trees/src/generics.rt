use crate::operator::CallTrait;
use crate::path::Segment;
use crate::types::TypeTree;
use text_core::{Items, Span};

/// What a type has to meet.
#[derive(Drop)]
pub enum BoundNode {
    /// The name of a trait.
    Trait(Segment),
    /// `Fn(S) -> T` and the like: the types that are taken, and that of the answer if one is written.
    Call(CallTrait, Items<TypeTree>, Option<TypeTree>),
}

#[derive(Drop)]
pub struct Bound {
    pub span: Span,
    pub node: BoundNode,
}

/// The forms of parameters of declarations.
#[derive(Drop)]
pub enum GenericNode {
    /// A lifetime, and its bound if one is written.
    Lifetime(Segment, Option<Segment>),
    /// A type parameter and its bounds.
    Type(Segment, Items<Bound>),
}

/// A parameter of a declaration.
#[derive(Drop)]
pub struct GenericParam {
    pub span: Span,
    pub node: GenericNode,
}

/// The forms of conditions behind `where`.
#[derive(Drop)]
pub enum ConditionNode {
    /// `'a: 'b`
    Lifetime(Segment, Segment),
    /// `T: A`
    Type(Segment, Items<Bound>),
}

/// A condition behind `where`.
#[derive(Drop)]
pub struct Condition {
    pub span: Span,
    pub node: ConditionNode,
}
