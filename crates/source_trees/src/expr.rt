ghost use Rattle.std.specs.Prelude.{◌≡◌, ◌<◌, IfSome};
ghost use Rattle.source_trees.specs.ExprView.{expr_of, expr_size};

use crate::attribute::Attribute;
use crate::operator::{GhostMacro, PanicMacro, UnaryOp};
use crate::param::Param;
use crate::path::{Number, Path, Segment};
use crate::pattern::Pat;
use crate::pterm::Pterm;
use crate::statement::StmtKind;
use crate::types::TypeTree;
use source_kinds::{BinaryOp, IntKind, LazyOp};
use std::marker::Model;
use text_core::{Items, Span};

/// An expression of program code as it is written. Contracts see the tree of specs/Expr.antt.
#[cycle(expr)]
pub struct Expr {
    /// From its first token to its last; that of `(X)` is that of `X`.
    pub span: Span,
    pub node: Box<ExprNode>,
}

/// What an expression is at its top.
#[cycle(expr)]
#[derive(Drop)]
pub enum ExprNode {
    /// An integer, with the type at its end if it has one. A `-` right before the integer belongs to it.
    Int(i128, Option<IntKind>),
    Truth(bool),
    /// `self`
    Receiver,
    Path(Path),
    /// `S { f: e }`
    Literal(Path, Vec<FieldExpr>),
    Tuple(Vec<Expr>),
    /// A block without a last expression.
    Block(Vec<Stmt>),
    /// A block whose value is that of its last expression.
    BlockWith(Vec<Stmt>, Expr),
    /// The condition and the block, without `else`; the pattern where the condition is `let p = e`, and then `e`.
    If(Option<Pat>, Expr, Expr),
    IfElse(Option<Pat>, Expr, Expr, Expr),
    Match(Expr, Vec<Arm>),
    /// The condition and the body; the pattern where the condition is `let p = e`, and then `e`.
    While(Option<Pat>, Expr, Expr),
    Loop(Expr),
    /// A loop or a closure with the attributes before it.
    Attributed(Items<Attribute>, Expr),
    /// The span of its first token, which is `move`, `||` or `|`, whether `move` stands there, the parameters, the type of
    /// the answer if one is written, and the body.
    Closure(Span, bool, Items<Param>, Option<TypeTree>, Expr),
    /// `return` alone.
    Return,
    /// `return e`
    ReturnWith(Expr),
    Break,
    Continue,
    /// `panic!` or `unreachable!`, and the span of its text if it has one.
    Panic(PanicMacro, Option<Span>),
    /// `proof_assert!` or `snapshot!`
    Ghost(GhostMacro, Pterm),
    /// `d = e`
    Assign(Expr, Expr),
    /// `d += e` and the like, and the span of the operator.
    Update(BinaryOp, Span, Expr, Expr),
    Lazy(LazyOp, Expr, Expr),
    /// `d + e` and the like, and the span of the operator.
    Binary(BinaryOp, Span, Expr, Expr),
    /// `e as T`
    Cast(Expr, TypeTree),
    /// The operator with its span, and the operand.
    Unary(UnaryOp, Span, Expr),
    /// `&e`, and whether `mut` stands there.
    Borrow(bool, Expr),
    /// `e.f`, with the types behind `::`, none where they are not written.
    Field(Expr, Segment, Items<TypeTree>),
    /// `e.0`
    Part(Expr, Number),
    /// `e.f::<T>(d)`, with the types behind `::` and the arguments.
    Method(Expr, Segment, Items<TypeTree>, Vec<Expr>),
    /// `e(d)`
    Call(Expr, Vec<Expr>),
}

/// A statement of a block.
#[cycle(expr)]
#[derive(Drop)]
pub struct Stmt {
    pub span: Span,
    pub kind: StmtKind,
    pub value: Expr,
}

/// An arm of a `match`.
#[cycle(expr)]
#[derive(Drop)]
pub struct Arm {
    /// From its pattern to the end of its body.
    pub span: Span,
    pub pattern: Pat,
    pub body: Expr,
}

/// A field of a struct literal. A name alone is its own value.
#[cycle(expr)]
#[derive(Drop)]
pub struct FieldExpr {
    pub span: Span,
    pub name: Segment,
    pub value: Expr,
}

// By a loop down the left operands, since a chain of operations is as deep as it is long.
impl Drop for Expr {
    #[cycle(expr)]
    fn drop(mut self) {
        loop {
            match self.into_left() {
                Some(left) => self = left,
                None => return,
            }
        }
    }
}

impl Expr {
    /// Its span, and what it is at its top.
    pub fn into_parts(self) -> (Span, ExprNode)
        ensures { expr_of result.0 result.1 ≡ self }
    {
        let Expr { span, node } = self;
        (span, Box::into_inner(node))
    }

    /// Its left operand, if it has one. All else of it is dropped.
    #[cycle(expr)]
    fn into_left(self) -> Option<Expr>
        ensures { IfSome result (λ left. expr_size left < expr_size self) }
    {
        let Expr { span: _, node } = self;
        match Box::into_inner(node) {
            ExprNode::Unary(_, _, left) => Some(left),
            ExprNode::Binary(_, _, left, _) => Some(left),
            ExprNode::Lazy(_, left, _) => Some(left),
            ExprNode::Update(_, _, left, _) => Some(left),
            ExprNode::Cast(left, _) => Some(left),
            ExprNode::Field(left, _, _) => Some(left),
            ExprNode::Part(left, _) => Some(left),
            ExprNode::Method(left, _, _types, _arguments) => Some(left),
            ExprNode::Call(left, _arguments) => Some(left),
            ExprNode::Literal(_path, _fields) => None,
            ExprNode::Tuple(_parts) => None,
            ExprNode::Block(_statements) => None,
            ExprNode::BlockWith(_statements, _last) => None,
            ExprNode::Match(_value, _arms) => None,
            _other => None,
        }
    }
}

impl Model for Expr {
    ghost use Rattle.source_trees.specs.Expr.{Expr as Tree};
    ghost use Rattle.source_trees.specs.ExprCode.{coded_expr};

    ghost Value = { Tree };

    ghost coded = { coded_expr };

    ghost use Rattle.source_trees.specs.ExprView.{expr_of, expr_size};

    ghost view = { λ e. expr_of e.span e.node.value };

    ghost size = { expr_size };

    ghost use Rattle.source_trees.specs.ExprFalls.{falls};

    ghost size_decreases = { λ a h. falls a.span a.node.value };
}
