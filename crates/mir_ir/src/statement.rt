use crate::place::{Operand, Place};
use logic_term::Ctor;
use source_kinds::{BinaryOp, IntKind};
use text_core::{Items, Span};

/// The right side of an assignment.
#[derive(Drop)]
pub enum Rvalue {
    Use(Operand),
    Binary(BinaryOp, Operand, Operand),
    /// `-x` of a signed integer.
    Neg(Operand),
    /// `!x` of a truth value.
    Not(Operand),
    /// The same integer, of a type that has each value of the operand's.
    Widen(Operand, IntKind),
    /// A value made of the operands' values, in order.
    Make(Ctor, Items<Operand>),
    /// A box of the operand's value.
    BoxNew(Operand),
}

pub enum StatementKind {
    Assign(Place, Rvalue),
    /// The local, by its number, holds nothing from here on.
    Dead(u32),
}

// By hand, so that whoever holds one drops it by a call (docs/architecture.md).
impl Drop for StatementKind {
    fn drop(self) {
        match self {
            StatementKind::Assign(_, _) | StatementKind::Dead(_) => {}
        }
    }
}

#[derive(Drop)]
pub struct Statement {
    pub span: Span,
    pub kind: StatementKind,
}
