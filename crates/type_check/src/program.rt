use crate::assertion::Assertion;
use crate::typed::TypedExpr;
use logic_term::Ty;
use text_core::{Items, Name, Span};

/// When a clause of a contract holds.
#[derive(Clone, Copy)]
pub enum ClauseKind {
    /// Before the call.
    Requires,
    /// Behind the call.
    Ensures,
}

/// A clause of a contract, over the parameters, and in `ensures` the answer.
#[derive(Drop)]
pub struct TypedClause {
    pub kind: ClauseKind,
    pub formula: Assertion,
}

/// The types of a function's parameters and of its answer.
#[derive(Drop)]
pub struct Signature {
    pub params: Items<Ty>,
    pub answer: Ty,
}

/// A function whose names are resolved and whose expressions have types.
#[derive(Drop)]
pub struct TypedFunction {
    pub name: Name,
    /// That of the name.
    pub span: Span,
    pub signature: Signature,
    /// Where the type of the answer is written, at the name where none is; and then those of the parameters.
    pub types_at: Items<Span>,
    /// In source order.
    pub clauses: Items<TypedClause>,
    /// The parameters are variables 0, 1 and so on.
    pub body: TypedExpr,
}

/// The functions of a source, in source order. A call names a function by its place here.
#[derive(Drop)]
pub struct TypedProgram {
    pub functions: Items<TypedFunction>,
}
