use crate::path::Segment;
use std::marker::Model;
use text_core::Span;

/// A type as it is written. Contracts see the tree of specs/TypeTree.antt.
#[cycle(type_tree)]
#[derive(Drop)]
pub struct TypeTree {
    /// From its first token to its last; that of `(T)` is that of `T`.
    pub span: Span,
    pub node: Box<TypeNode>,
}

/// What a type is at its top.
#[cycle(type_tree)]
#[derive(Drop)]
pub enum TypeNode {
    /// A name with its arguments, none where no `<` stands.
    Named(Segment, Vec<TypeArgument>),
    Tuple(Vec<TypeTree>),
    /// `&T`, with the lifetime if one is written, and whether `mut` is.
    Reference(Option<Segment>, bool, TypeTree),
    /// `Self`
    SelfType,
    /// `Self::ViewTy`
    SelfView,
}

/// What stands between the `<` and the `>` of a type, in any order.
#[cycle(type_tree)]
#[derive(Drop)]
pub enum TypeArgument {
    Lifetime(Segment),
    Type(TypeTree),
}

impl Model for TypeTree {
    ghost use Rattle.source_trees.specs.TypeTree.{TypeTree as Tree};
    ghost use Rattle.source_trees.specs.TypeTreeCode.{coded_type_tree};

    ghost Value = { Tree };

    ghost coded = { coded_type_tree };

    ghost use Rattle.source_trees.specs.TypeTreeView.{type_tree_of, type_tree_size};

    ghost view = { λ t. type_tree_of t.span t.node.value };

    ghost size = { type_tree_size };

    ghost use Rattle.source_trees.specs.TypeTreeFalls.{falls};

    ghost size_decreases = { λ a h. falls a.span a.node.value };
}
