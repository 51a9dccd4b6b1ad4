//! The trees of sources, as they are written: items, statements, expressions, types, patterns and terms in all forms.
#![tactic(auto)]

mod attribute;
mod binder;
mod expr;
mod generics;
mod item;
mod operator;
mod param;
mod path;
mod pattern;
mod pterm;
mod statement;
mod types;

pub use attribute::{Attribute, AttributeNode, ClauseKind};
pub use binder::Binder;
pub use expr::{Arm, Expr, ExprNode, FieldExpr, Stmt};
pub use generics::{Bound, BoundNode, Condition, ConditionNode, GenericNode, GenericParam};
pub use item::{
    Body, Enum, Field, Fields, Function, Impl, ImplItem, Item, ItemNode, Method, Struct, Trait,
    Variant, VariantFields, Visibility,
};
pub use operator::{
    BinaryTerm, CallTrait, GhostMacro, PanicMacro, Predicate, Quantifier, UnaryOp, UnaryTerm,
};
pub use param::{Param, ParamNode};
pub use path::{Number, Path, PathNode, Segment};
pub use pattern::{FieldPat, Pat, PatNode};
pub use pterm::{FieldTerm, Pterm, PtermNode, TermArm};
pub use statement::StmtKind;
pub use types::{TypeArgument, TypeNode, TypeTree};
