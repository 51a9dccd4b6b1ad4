use crate::path::{Path, Segment};
use source_kinds::IntKind;
use std::marker::Model;
use text_core::Span;

/// A pattern as it is written. Contracts see the tree of specs/Pat.antt.
#[cycle(pat)]
#[derive(Drop)]
pub struct Pat {
    /// From its first token to its last; that of `(P)` is that of `P`.
    pub span: Span,
    pub node: Box<PatNode>,
}

/// What a pattern is at its top.
#[cycle(pat)]
#[derive(Drop)]
pub enum PatNode {
    /// `_`
    Any,
    /// `mut x`
    Mutable(Segment),
    /// An integer with its sign, and the type at its end if it has one.
    Int(i128, Option<IntKind>),
    Truth(bool),
    Tuple(Vec<Pat>),
    /// A path alone: a constructor, or a name that is bound.
    Path(Path),
    /// A constructor with its parts in parentheses.
    Parts(Path, Vec<Pat>),
    /// A constructor with its fields, and whether `..` stands behind them.
    Fields(Path, Vec<FieldPat>, bool),
}

/// A field of a constructor; `x` alone is `x: x`.
#[cycle(pat)]
#[derive(Drop)]
pub struct FieldPat {
    /// From its first token to its last.
    pub span: Span,
    pub name: Segment,
    pub pattern: Pat,
}

impl Model for Pat {
    ghost use Rattle.source_trees.specs.Pat.{Pat as Tree};
    ghost use Rattle.source_trees.specs.PatCode.{coded_pat};

    ghost Value = { Tree };

    ghost coded = { coded_pat };

    ghost use Rattle.source_trees.specs.PatView.{pat_of, pat_size};

    ghost view = { λ p. pat_of p.span p.node.value };

    ghost size = { pat_size };

    ghost use Rattle.source_trees.specs.PatFalls.{falls};

    ghost size_decreases = { λ a h. falls a.span a.node.value };
}
