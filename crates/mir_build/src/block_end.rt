//! How the statements of a block end.

use type_check::TypedExpr;

#[derive(Clone, Copy)]
pub(crate) enum BlockEnd<'a> {
    /// Without a last expression.
    Unit,
    /// By the last expression.
    Value(&'a TypedExpr),
    /// By a last statement of this value, which leaves.
    Leaves(&'a TypedExpr),
}
