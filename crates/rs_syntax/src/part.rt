//! The parts of a line, and what they are worth.
ghost use Rattle.std.specs.Prelude.{◌≡◌, ◌∷◌, [], ◌+◌, reverse, IfOk, MatchOption, OnOk};
ghost use Rattle.pearlite.specs.Parts.{word_at};
ghost use Rattle.text_core.specs.declared.span.Span.{Span};
ghost use Rattle.source_trees.specs.ExprView.{expr_of};
ghost use Rattle.rs_syntax.specs.MakeOperators.{applied, as_expr, expr_in, suffix_by};
ghost use Rattle.rs_syntax.specs.Parts.{element_by, found_of, joined, part_span};

mod adding;
pub(crate) mod families;

use crate::element::{Element, attribute_from, element_of_shape};
use crate::found::Found;
use crate::make_operators::computing;
use crate::nodes::nothing;
use pearlite::Value as Shape;
pub(crate) use pearlite::{segment_at, span_from, word_at};
use source_kinds::{BinaryOp, LazyOp};
use source_trees::{
    AttributeNode, Bound, Condition, Expr, ExprNode, Field, FieldExpr, Function, GenericParam,
    ImplItem, Item, ItemNode, Method, Number, Param, Pat, Segment, Stmt, TypeTree, Variant,
};
use source_words::Word;
use std::alloc::Global;
use text_core::{Boxed, Items, NoMemory, Span};

/// An operator with what stands behind it, without its first operand.
pub enum Suffix {
    /// `= e`
    Assign(Expr),
    /// `+= e` and the like, and the span of the operator.
    Update(BinaryOp, Span, Expr),
    Lazy(LazyOp, Expr),
    /// `+ e` and the like, and the span of the operator.
    Binary(BinaryOp, Span, Expr),
    /// `as T`
    Cast(TypeTree),
    /// `.f`, with the types behind `::`.
    Field(Segment, Items<TypeTree>),
    /// `.0`
    Part(Number),
    /// `.f::<T>(d)`, with the types behind `::` and the arguments.
    Method(Segment, Items<TypeTree>, Items<Expr>),
    /// `(d)`
    Call(Items<Expr>),
}

// By hand, so that whoever holds one drops it by a call (docs/architecture.md).
impl Drop for Suffix {
    fn drop(self) {
        match self {
            Suffix::Assign(_)
            | Suffix::Update(_, _, _)
            | Suffix::Lazy(_, _)
            | Suffix::Binary(_, _, _)
            | Suffix::Cast(_)
            | Suffix::Field(_, _)
            | Suffix::Part(_)
            | Suffix::Method(_, _, _)
            | Suffix::Call(_) => {}
        }
    }
}

impl Suffix {
    /// What it makes of this operand.
    pub(crate) fn on(self, operand: Expr) -> ExprNode
        ensures { (span : Span) → expr_of span result ≡ applied span operand self }
    {
        match self {
            Suffix::Assign(value) => ExprNode::Assign(operand, value),
            Suffix::Update(op, place, value) => ExprNode::Update(op, place, operand, value),
            Suffix::Lazy(op, other) => ExprNode::Lazy(op, operand, other),
            Suffix::Binary(op, place, other) => ExprNode::Binary(op, place, operand, other),
            Suffix::Cast(ty) => ExprNode::Cast(operand, ty),
            Suffix::Field(name, types) => ExprNode::Field(operand, name, types),
            Suffix::Part(number) => ExprNode::Part(operand, number),
            Suffix::Method(name, types, arguments) => {
                ExprNode::Method(operand, name, types, arguments.into_vec())
            }
            Suffix::Call(arguments) => ExprNode::Call(operand, arguments.into_vec()),
        }
    }
}

/// What a token or a line is worth.
pub enum Value {
    /// A token, and what a line of types, patterns, paths or terms is worth.
    Shape(Shape),
    Expr(Expr),
    /// `let p: T = e;`
    Stmt(Boxed<Stmt>),
    /// A blocklike that stands as a statement, and whether a `;` stands behind it.
    BlocklikeStatement(Expr, bool),
    /// `let p = e` as a condition.
    Condition(Pat, Expr),
    /// `.` with a member behind it.
    Suffix(Boxed<Suffix>),
    /// `(d, e)` behind a function or the name of a method.
    Arguments(Items<Expr>),
    FieldExpr(Boxed<FieldExpr>),
    /// What stands in the brackets of an attribute.
    Attribute(AttributeNode),
    GenericParam(Boxed<GenericParam>),
    /// From `<` to `>`.
    Generics(Items<GenericParam>),
    Bound(Boxed<Bound>),
    WhereCondition(Boxed<Condition>),
    /// From `where` to the last condition.
    Where(Items<Condition>),
    Param(Boxed<Param>),
    /// A function without its body.
    Function(Boxed<Function>),
    Field(Boxed<Field>),
    Variant(Boxed<Variant>),
    Method(Boxed<Method>),
    ImplItem(Boxed<ImplItem>),
    /// What stands before the items of an impl: its trait, and its type.
    ImplHead(Option<Segment>, TypeTree),
    /// An item without attributes and visibility.
    ItemNode(Boxed<ItemNode>),
    Item(Boxed<Item>),
}

// By hand, so that whoever holds one drops it by a call (docs/architecture.md).
impl Drop for Value {
    fn drop(self) {
        match self {
            Value::Shape(_)
            | Value::Expr(_)
            | Value::Stmt(_)
            | Value::BlocklikeStatement(_, _)
            | Value::Condition(_, _)
            | Value::Suffix(_)
            | Value::Arguments(_)
            | Value::FieldExpr(_)
            | Value::Attribute(_)
            | Value::GenericParam(_)
            | Value::Generics(_)
            | Value::Bound(_)
            | Value::WhereCondition(_)
            | Value::Where(_)
            | Value::Param(_)
            | Value::Function(_)
            | Value::Field(_)
            | Value::Variant(_)
            | Value::Method(_)
            | Value::ImplItem(_)
            | Value::ImplHead(_, _)
            | Value::ItemNode(_)
            | Value::Item(_) => {}
        }
    }
}

impl Value {
    /// Adds what it is to what was found.
    #[tactic(auto, unfolding(crate::specs::Parts::found_of))]
    pub(crate) fn add_to(self, found: &mut Found) -> Result<(), NoMemory>
        ensures { OnOk result (found.new ≡ joined found.old (found_of self)) }
    {
        match self {
            Value::Expr(expr) => found.exprs.push(expr),
            Value::Condition(pattern, expr) => {
                found.patterns.push(pattern)?;
                found.exprs.push(expr)
            }
            Value::Shape(shape) => found.add_shape(shape),
            Value::Param(param) => found.params.push(param.into_inner()),
            Value::FieldExpr(field) => found.fields.push(field.into_inner()),
            Value::Arguments(exprs) => found.arguments.push(exprs),
            _ => Ok(()),
        }
    }

    /// The expression, where it is one.
    #[tactic(auto, unfolding(crate::specs::MakeOperators::as_expr))]
    pub(crate) fn as_expr(self) -> Option<Expr>
        ensures { result ≡ as_expr self }
    {
        match self {
            Value::Expr(expr) => Some(expr),
            _ => None,
        }
    }

    /// The expression; where it is none, the literal `false` at the start of the source.
    pub(crate) fn into_expr(self, alloc: Global) -> Result<Expr, NoMemory>
        ensures { IfOk result (λ e. e ≡ expr_in self) }
    {
        match self.as_expr() {
            Some(expr) => Ok(expr),
            None => nothing(alloc),
        }
    }

    /// What stands behind an operand: a second operand behind the token of its operator, which is given, the type of a
    /// cast, a member or arguments.
    #[tactic(auto, unfolding(crate::specs::MakeOperators::suffix_by, pearlite::specs::Parts::as_type))]
    pub(crate) fn into_suffix(self, word: Word) -> Option<Suffix>
        ensures { result ≡ suffix_by word self }
    {
        match self {
            Value::Expr(expr) => Some(computing(word, expr)),
            Value::Shape(shape) => match shape.into_type() {
                Some(ty) => Some(Suffix::Cast(ty)),
                None => None,
            },
            Value::Suffix(suffix) => Some(suffix.into_inner()),
            Value::Arguments(arguments) => Some(Suffix::Call(arguments)),
            _ => None,
        }
    }

    /// What it is among the tokens of a block or of a `match` from `from` to before `to`.
    #[tactic(auto, unfolding(crate::specs::Parts::element_by))]
    pub(crate) fn into_element(self, words: &[Word], from: usize, to: usize) -> Element
        ensures { result ≡ element_by words.now from to self }
    {
        match self {
            Value::Stmt(stmt) => Element::Stmt(stmt),
            Value::BlocklikeStatement(expr, closed) => Element::Blocklike(expr, closed),
            Value::Expr(expr) => Element::Expr(expr),
            Value::Attribute(node) => attribute_from(words, from, 2, to, node),
            Value::Shape(shape) => element_of_shape(words, from, to, shape),
            _ => Element::Other,
        }
    }
}

/// What a part is worth, and where it stands: from its first token to before the one behind its last.
#[derive(Drop)]
pub struct Part {
    pub value: Value,
    pub from: usize,
    pub to: usize,
}

impl Part {
    /// From its first token to its last.
    pub(crate) fn span(&self, words: &[Word]) -> Span
        ensures { result ≡ part_span words.now self.now }
    {
        span_from(words, self.from, self.to)
    }
}

/// Takes the next part off. Parts stand last first.
pub(crate) fn next(parts: &mut Vec<Part>) -> Option<Part>
    ensures { MatchOption result ((reverse parts.old.items ≡ []) × (reverse parts.new.items ≡ [])) (λ part. reverse parts.old.items ≡ part ∷ reverse parts.new.items) }
{
    parts.pop()
}

/// The token so many places behind that one.
pub(crate) fn word_behind(words: &[Word], place: usize, count: usize) -> Word
    ensures { result ≡ word_at words.now (place + count) }
{
    match place.checked_add(count) {
        Some(behind) => word_at(words, behind),
        None => word_at(words, words.len()),
    }
}
