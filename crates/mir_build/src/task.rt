//! What is left to do of an expression whose left operands are lowered by a loop.

use logic_term::Ty;
use source_kinds::{BinaryOp, IntKind, LazyOp};
use text_core::Span;
use type_check::TypedExpr;

/// What an expression does behind its left operand.
#[derive(Clone, Copy)]
pub(crate) enum Behind<'a> {
    /// The right operand.
    Binary(BinaryOp, &'a TypedExpr),
    Lazy(LazyOp, &'a TypedExpr),
    /// The type of a cast.
    Cast(IntKind),
    /// What is assigned to, at whose root the left operand is, and the local of the value.
    Assign(&'a TypedExpr, u32),
    /// The same, and the type of the value.
    Update(BinaryOp, &'a TypedExpr, &'a Ty, u32),
    /// A part, at whose root the left operand is.
    Part(&'a TypedExpr),
}

/// An expression whose left operand is lowered before the rest of it.
#[derive(Clone, Copy)]
pub(crate) struct Pending<'a> {
    pub(crate) span: Span,
    /// The local of the left operand.
    pub(crate) operand: u32,
    /// The local of the expression.
    pub(crate) target: u32,
    pub(crate) behind: Behind<'a>,
}

#[derive(Clone, Copy)]
pub(crate) enum Task<'a> {
    /// The value of the expression goes to the local.
    Lower(&'a TypedExpr, u32),
    Finish(Pending<'a>),
}
