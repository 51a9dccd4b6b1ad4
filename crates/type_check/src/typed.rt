ghost use Rattle.std.specs.Prelude.{◌<◌, IfSome};
ghost use Rattle.type_check.specs.TypedExprView.{typed_size};

use crate::assertion::Assertion;
use logic_term::{Ctor, Ty, TypedPat};
use pat_types::BoundName;
use source_kinds::{BinaryOp, IntKind, LazyOp};
use std::marker::Model;
use text_core::{Cause, Span};

/// An expression with its type. A variable is the number of variables that are in scope around its declaration. Contracts
/// see the tree of specs/TypedExpr.antt.
#[cycle(typed)]
pub struct TypedExpr {
    pub ty: Ty,
    /// Where a panic of it stands: the operator's for an operation and a compound assignment, the whole call's for a
    /// call, else that of the expression.
    pub span: Span,
    pub node: Box<TypedNode>,
}

/// What an expression is at its top.
#[cycle(typed)]
#[derive(Drop)]
pub enum TypedNode {
    Int(i128, IntKind),
    Truth(bool),
    /// A variable.
    Variable(u32),
    Neg(TypedExpr),
    Not(TypedExpr),
    /// `e as T`, where T is its type.
    Cast(TypedExpr),
    Binary(BinaryOp, TypedExpr, TypedExpr),
    Lazy(LazyOp, TypedExpr, TypedExpr),
    /// To the first. Where that is no variable, what is assigned is lost.
    Assign(TypedExpr, TypedExpr),
    /// `x += e` and the like.
    Update(BinaryOp, TypedExpr, TypedExpr),
    /// A function of the program, by its place.
    Call(u32, Vec<TypedExpr>),
    /// A value that is made of these parts.
    Make(Ctor, Vec<TypedExpr>),
    /// The part of this number, from 0, of a tuple.
    Part(TypedExpr, u32),
    Block(Vec<TypedStmt>),
    BlockWith(Vec<TypedStmt>, TypedExpr),
    /// The statements before the last one, and the value of that one, which leaves.
    BlockLeaving(Vec<TypedStmt>, TypedExpr),
    If(TypedExpr, TypedExpr),
    IfElse(TypedExpr, TypedExpr, TypedExpr),
    /// The value, and the arms, of which the first whose pattern matches counts.
    Match(TypedExpr, Vec<TypedArm>),
    /// The invariants, the condition and the body.
    While(Vec<Assertion>, TypedExpr, TypedExpr),
    /// What always panics.
    Panic(Cause),
    /// `return` with the answer.
    Return(TypedExpr),
    /// `loop` with its invariants, which no `break` leaves.
    Loop(Vec<Assertion>, TypedExpr),
    /// `loop` with its invariants, which a `break` leaves.
    LoopUntilBreak(Vec<Assertion>, TypedExpr),
    /// To behind the loop around it.
    Break,
    /// To the next turn of the loop around it.
    Continue,
}

/// A statement: with `binds` it declares the next variable, which is in scope to the end of the block.
#[cycle(typed)]
#[derive(Drop)]
pub struct TypedStmt {
    pub binds: bool,
    pub value: TypedExpr,
}

/// An arm of a match: the names that its pattern binds are the next variables, in this order, in scope in its body.
#[cycle(typed)]
#[derive(Drop)]
pub struct TypedArm {
    pub pattern: TypedPat,
    pub names: Vec<BoundName>,
    pub body: TypedExpr,
}

impl Model for TypedExpr {
    ghost use Rattle.type_check.specs.TypedExpr.{TypedExpr as Tree};
    ghost use Rattle.type_check.specs.TypedExprCode.{coded_typed};

    ghost Value = { Tree };

    ghost coded = { coded_typed };

    ghost use Rattle.type_check.specs.TypedExprView.{typed_of, typed_size};

    ghost view = { λ e. typed_of e.ty e.span e.node.value };

    ghost size = { typed_size };

    ghost use Rattle.type_check.specs.TypedExprFalls.{falls};

    ghost size_decreases = { λ a h. falls a.ty a.span a.node.value };
}

// By a loop down the left operands, since a chain of operations is as deep as it is long.
impl Drop for TypedExpr {
    #[cycle(typed)]
    fn drop(mut self) {
        loop {
            match self.into_left() {
                Some(left) => self = left,
                None => return,
            }
        }
    }
}

impl TypedExpr {
    /// Its left operand, if it has one. All else of it is dropped.
    #[cycle(typed)]
    fn into_left(self) -> Option<TypedExpr>
        ensures { IfSome result (λ left. typed_size left < typed_size self) }
    {
        let TypedExpr {
            ty: _ty,
            span: _,
            node,
        } = self;
        match Box::into_inner(node) {
            TypedNode::Neg(left) => Some(left),
            TypedNode::Not(left) => Some(left),
            TypedNode::Cast(left) => Some(left),
            TypedNode::Binary(_, left, _) => Some(left),
            TypedNode::Lazy(_, left, _) => Some(left),
            TypedNode::Assign(left, _) => Some(left),
            TypedNode::Update(_, left, _) => Some(left),
            TypedNode::Part(left, _) => Some(left),
            TypedNode::Call(_, _args) => None,
            TypedNode::Make(_, _parts) => None,
            TypedNode::Block(_stmts) => None,
            TypedNode::BlockWith(_stmts, _last) => None,
            TypedNode::BlockLeaving(_stmts, _last) => None,
            TypedNode::Match(_value, _arms) => None,
            _other => None,
        }
    }
}
