//! Names and types: which variable each name means, and which type each expression has.
#![tactic(auto)]

mod arms;
mod assertion;
mod breaking;
mod calling;
mod casting;
mod chain;
mod checking;
mod covering;
mod declaring;
mod elaborate;
mod expressions;
mod heading;
mod laws;
mod leaving;
mod lists;
mod literals;
mod logic;
mod loops;
mod making;
mod matching;
mod naming;
mod operands;
mod program;
mod refusal;
mod scalars;
mod scope;
mod selecting;
mod setting;
mod statements;
mod tuples;
mod typed;
mod types;
mod typing;
mod written;

pub use assertion::Assertion;
pub use checking::check;
pub use covering::patterns_of;
pub use elaborate::{answer_name, variable_name};
pub use laws::{
    checked_programs_fit, expressions_are_typed_by_rules, refusals_have_causes,
    typed_expressions_fit,
};
pub use leaving::{all_arms_leave, leaves};
pub use program::{ClauseKind, Signature, TypedClause, TypedFunction, TypedProgram};
pub use typed::{TypedArm, TypedExpr, TypedNode, TypedStmt};
