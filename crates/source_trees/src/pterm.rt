ghost use Rattle.std.specs.Prelude.{◌<◌, IfSome};
ghost use Rattle.source_trees.specs.PtermView.{pterm_size};

use crate::binder::Binder;
use crate::operator::{BinaryTerm, Predicate, Quantifier, UnaryTerm};
use crate::path::{Number, Path, Segment};
use crate::pattern::Pat;
use source_kinds::IntKind;
use std::marker::Model;
use text_core::{Name, Span};

/// A term of a contract as it is written. Contracts see the tree of specs/Pterm.antt.
#[cycle(pterm)]
pub struct Pterm {
    /// From its first token to its last; that of `(X)` is that of `X`.
    pub span: Span,
    pub node: Box<PtermNode>,
}

/// What a term is at its top.
#[cycle(pterm)]
#[derive(Drop)]
pub enum PtermNode {
    /// An integer, with the type at its end if it has one. A `-` right before the integer belongs to it.
    Int(i128, Option<IntKind>),
    Truth(bool),
    /// `result`, which has a name as each identifier.
    Answer(Name),
    /// `self`
    Receiver,
    Path(Path),
    Unary(UnaryTerm, Pterm),
    Binary(BinaryTerm, Pterm, Pterm),
    /// `MutRef(t, u)`
    MutRef(Pterm, Pterm),
    /// `t.f`
    Field(Pterm, Segment),
    /// `t.0`
    Part(Pterm, Number),
    /// `t.f(u, v)`
    Method(Pterm, Segment, Vec<Pterm>),
    /// `f(u, v)`
    Call(Path, Vec<Pterm>),
    /// `S { f: t }`
    Literal(Path, Vec<FieldTerm>),
    Tuple(Vec<Pterm>),
    /// The condition and both branches.
    If(Pterm, Pterm, Pterm),
    Match(Pterm, Vec<TermArm>),
    /// The variables and the body.
    Quantified(Quantifier, Vec<Binder>, Pterm),
    Predicate(Predicate, Vec<Pterm>),
}

/// A field of a struct literal.
#[cycle(pterm)]
#[derive(Drop)]
pub struct FieldTerm {
    /// From its first token to its last.
    pub span: Span,
    pub name: Segment,
    pub value: Pterm,
}

/// An arm of a `match`.
#[cycle(pterm)]
#[derive(Drop)]
pub struct TermArm {
    /// From its first token to its last.
    pub span: Span,
    pub pattern: Pat,
    pub body: Pterm,
}

// By a loop down the left operands, since a chain of operations is as deep as it is long.
impl Drop for Pterm {
    #[cycle(pterm)]
    fn drop(mut self) {
        loop {
            match self.into_left() {
                Some(left) => self = left,
                None => return,
            }
        }
    }
}

impl Pterm {
    /// Its left operand, if it has one. All else of it is dropped.
    #[cycle(pterm)]
    fn into_left(self) -> Option<Pterm>
        ensures { IfSome result (λ left. pterm_size left < pterm_size self) }
    {
        let Pterm { span: _, node } = self;
        match Box::into_inner(node) {
            PtermNode::Unary(_, left) => Some(left),
            PtermNode::Binary(_, left, _) => Some(left),
            PtermNode::Field(left, _) => Some(left),
            PtermNode::Part(left, _) => Some(left),
            PtermNode::Method(left, _, _arguments) => Some(left),
            PtermNode::Call(_path, _arguments) => None,
            PtermNode::Literal(_path, _fields) => None,
            PtermNode::Tuple(_parts) => None,
            PtermNode::Match(_value, _arms) => None,
            PtermNode::Predicate(_, _arguments) => None,
            _other => None,
        }
    }
}

impl Model for Pterm {
    ghost use Rattle.source_trees.specs.Pterm.{Pterm as Tree};
    ghost use Rattle.source_trees.specs.PtermCode.{coded_pterm};

    ghost Value = { Tree };

    ghost coded = { coded_pterm };

    ghost use Rattle.source_trees.specs.PtermView.{pterm_of, pterm_size};

    ghost view = { λ t. pterm_of t.span t.node.value };

    ghost size = { pterm_size };

    ghost use Rattle.source_trees.specs.PtermFalls.{falls};

    ghost size_decreases = { λ a h. falls a.span a.node.value };
}
