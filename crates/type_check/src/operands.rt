use crate::typed::TypedExpr;
use logic_term::Ty;

/// The operands of an operation.
#[derive(Drop)]
pub(crate) struct Operands {
    pub(crate) left: TypedExpr,
    pub(crate) right: TypedExpr,
}

/// How the operands of an operation get their types.
#[derive(Drop)]
pub(crate) enum Order {
    /// Both are checked against this one.
    Against(Ty),
    /// The first is checked against the type that the second gives.
    SecondGives,
    /// The second is checked against the type that the first gives.
    FirstGives,
}
