use crate::kinds::Ctor;
use crate::ty::Ty;
use source_kinds::IntKind;
use std::marker::Model;
use text_core::{Items, Name};

/// How a pattern binds a name: to the value, or to a reference to it where the pattern looks through a reference.
#[derive(Clone, Copy)]
pub enum BindingKind {
    Value,
    Shared,
    Unique,
}

/// A part of a value: the variant that the value is of, and the number of the field, both from 0. Tuples and structs are
/// of variant 0.
#[derive(Clone, Copy)]
pub struct PatStep {
    pub variant: u32,
    pub field: u32,
}

/// The way from a value to a part of it, one step a level. Boxes and references take no step.
pub type PatPath = Items<PatStep>;

/// A name and the part of the value that it is bound to.
#[derive(Drop)]
pub struct Binding {
    pub name: Name,
    pub path: PatPath,
}

/// A pattern with its type. Contracts see the tree of specs/Pattern.antt.
#[cycle(pattern)]
#[derive(Drop)]
pub struct TypedPat {
    /// That of the values at its place, references included.
    pub ty: Ty,
    pub node: Box<PatNode>,
}

/// What a pattern is at its top.
#[cycle(pattern)]
#[derive(Drop)]
pub enum PatNode {
    Wild,
    Bound(Name, BindingKind),
    /// An integer of a machine type, or of the unbounded integers where no type is named.
    Literal(Option<IntKind>, i128),
    Truth(bool),
    /// A constructor, with a pattern for each part.
    Made(Ctor, Vec<TypedPat>),
}

impl Model for TypedPat {
    ghost use Rattle.logic_term.specs.Pattern.{Pat as Tree};
    ghost use Rattle.logic_term.specs.PatternCode.{coded_pat};

    ghost Value = { Tree };

    ghost coded = { coded_pat };

    ghost use Rattle.logic_term.specs.PatternView.{pat_of, pat_size};

    ghost view = { λ p. pat_of p.ty p.node.value };

    ghost size = { pat_size };

    ghost use Rattle.logic_term.specs.PatternFalls.{falls};

    ghost size_decreases = { λ a h. falls a.ty a.node.value };
}
