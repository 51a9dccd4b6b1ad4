use source_kinds::IntKind;
use text_core::Items;

/// One part of a place's path.
#[derive(Clone, Copy)]
pub enum Proj {
    /// A field of a tuple, a struct or a variant, from 0.
    Field(u32),
    /// The variant of an enum, from 0.
    Variant(u32),
    /// What a box or a reference holds.
    Deref,
}

/// A local of the running body, and the path into it.
#[derive(Drop)]
pub struct Place {
    pub local: u32,
    pub path: Items<Proj>,
}

/// A literal; an integer is one of its kind's.
#[derive(Clone, Copy)]
pub enum Lit {
    Int(i128, IntKind),
    Bool(bool),
}

/// What a statement or a block's end takes.
#[derive(Drop)]
pub enum Operand {
    Copy(Place),
    Move(Place),
    Const(Lit),
}
