//! What blocks make of their statements.
ghost use Rattle.std.specs.Prelude.{◌≡◌, ◌∷◌, [], ◌++◌, reverse, IfOk};
ghost use Rattle.source_trees.specs.declared.statement.StmtKind.TheVariants as K;
ghost use Rattle.rs_syntax.specs.MakeExpressions.{attributed_made, value_of};
ghost use Rattle.rs_syntax.specs.MakeStatements.{block_by, block_made, no_statements, settled, statement_of, statements_in, with_blocklike, with_element, with_end};

use crate::element::Element;
use crate::make_attributed::{across, begun, with_attributes};
use crate::nodes::{made, nothing};
use crate::part::{Part, Value, next};
use pearlite::span_from;
use source_trees::{Attribute, Expr, ExprNode, Stmt, StmtKind};
use source_words::Word;
use std::alloc::Global;
use std::mem;
use text_core::{Items, NoMemory, Span};

/// The statements of a block so far.
pub struct Statements {
    pub done: Items<Stmt>,
    /// The last statement, which may yet be the value of the block.
    pub last: Option<Stmt>,
    /// The attributes of the loop or closure that is to come.
    pub attributes: Items<Attribute>,
}

// By hand, so that whoever holds one drops it by a call (docs/architecture.md).
impl Drop for Statements {
    fn drop(self) {
        let Statements {
            done: _,
            last: _,
            attributes: _,
        } = self;
    }
}

impl Statements {
    fn new(alloc: Global) -> Statements
        ensures { result ≡ no_statements }
    {
        Statements {
            done: Items::new(alloc),
            last: None,
            attributes: Items::new(alloc),
        }
    }

    /// Behind the last statement another stands, so that it is not the value of the block.
    fn settle(&mut self) -> Result<(), NoMemory>
        ensures { IfOk result (λ _. self.new ≡ record self.old { done = settled self.old; last = None }) }
    {
        match mem::replace(&mut self.last, None) {
            Some(stmt) => self.done.push(stmt),
            None => Ok(()),
        }
    }

    /// Takes the attributes that wait off.
    fn waiting(&mut self, alloc: Global) -> Items<Attribute>
        ensures attributes { result ≡ self.old.attributes }
        ensures rest { self.new ≡ record self.old { attributes = [] } }
    {
        mem::replace(&mut self.attributes, Items::new(alloc))
    }

    /// A statement with the attributes that wait.
    #[tactic(auto, unfolding(crate::specs::MakeStatements::statement_of))]
    fn statement(
        &mut self,
        alloc: Global,
        kind: StmtKind,
        span: Span,
        expr: Expr,
    ) -> Result<Stmt, NoMemory>
        ensures value { IfOk result (λ stmt. stmt ≡ statement_of kind self.old.attributes span expr) }
        ensures rest { IfOk result (λ _. self.new ≡ record self.old { attributes = [] }) }
    {
        let attributes = self.waiting(alloc);
        let span = begun(&attributes, span);
        let value = with_attributes(alloc, attributes, expr)?;
        Ok(Stmt { span, kind, value })
    }

    /// A statement behind the others, which ends there.
    fn push(&mut self, alloc: Global, stmt: Stmt) -> Result<(), NoMemory>
        ensures { IfOk result (λ _. self.new ≡ record { done = settled self.old ++ stmt ∷ []; last = None; attributes = [] }) }
    {
        self.settle()?;
        self.attributes = Items::new(alloc);
        self.done.push(stmt)
    }

    /// A statement behind the others, which may yet be the value of the block.
    fn begin(&mut self, stmt: Stmt) -> Result<(), NoMemory>
        ensures { IfOk result (λ _. self.new ≡ record self.old { done = settled self.old; last = Some stmt }) }
    {
        self.settle()?;
        self.last = Some(stmt);
        Ok(())
    }

    /// A blocklike behind the others.
    #[tactic(auto, unfolding(crate::specs::MakeStatements::with_blocklike, crate::specs::MakeStatements::statement_of))]
    fn add_blocklike(
        &mut self,
        alloc: Global,
        span: Span,
        expr: Expr,
        closed: bool,
    ) -> Result<(), NoMemory>
        ensures { IfOk result (λ _. self.new ≡ with_blocklike self.old (statement_of K.Blocklike self.old.attributes span expr) closed) }
    {
        let stmt = self.statement(alloc, StmtKind::Blocklike, span, expr)?;
        if closed {
            self.push(alloc, stmt)
        } else {
            self.begin(stmt)
        }
    }

    /// The last statement ends with this `;`.
    #[tactic(auto, unfolding(crate::specs::MakeStatements::with_end))]
    fn end(&mut self, span: Span) -> Result<(), NoMemory>
        ensures { IfOk result (λ _. self.new ≡ with_end self.old span self.old.last) }
    {
        match mem::replace(&mut self.last, None) {
            Some(stmt) => {
                let mut stmt = stmt;
                stmt.span = across(stmt.span, span);
                self.done.push(stmt)
            }
            None => Ok(()),
        }
    }

    /// Adds what stands next in the block.
    #[tactic(auto, unfolding(crate::specs::MakeStatements::with_element))]
    fn add(&mut self, alloc: Global, span: Span, element: Element) -> Result<(), NoMemory>
        ensures { IfOk result (λ _. self.new ≡ with_element self.old span element) }
    {
        match element {
            Element::Stmt(stmt) => self.push(alloc, stmt.into_inner()),
            Element::Blocklike(expr, closed) => self.add_blocklike(alloc, span, expr, closed),
            Element::Expr(expr) => {
                let stmt = self.statement(alloc, StmtKind::Run, span, expr)?;
                self.begin(stmt)
            }
            Element::Attribute(attribute) => self.attributes.push(attribute),
            Element::Semicolon => self.end(span),
            Element::Pattern(_) | Element::Other => Ok(()),
        }
    }

    /// The block of them.
    #[tactic(auto, unfolding(crate::specs::MakeStatements::block_by))]
    fn block(self, alloc: Global, span: Span) -> Result<Expr, NoMemory>
        ensures { IfOk result (λ e. e ≡ block_by span self.done self.last) }
    {
        let Statements {
            done,
            last,
            attributes: _,
        } = self;
        let done = done.into_vec();
        match last {
            Some(last) => made(alloc, span, ExprNode::BlockWith(done, last.value)),
            None => made(alloc, span, ExprNode::Block(done)),
        }
    }

    /// The value of the last one.
    #[tactic(auto, unfolding(crate::specs::MakeExpressions::value_of))]
    fn value(self, alloc: Global) -> Result<Expr, NoMemory>
        ensures { IfOk result (λ e. e ≡ value_of self.last) }
    {
        let Statements {
            done: _,
            last,
            attributes: _,
        } = self;
        match last {
            Some(last) => Ok(last.value),
            None => nothing(alloc),
        }
    }
}

/// The statements among the parts.
#[tactic(auto, unfolding(crate::specs::MakeStatements::statements_in))]
fn statements_in(
    alloc: Global,
    words: &[Word],
    parts: &mut Vec<Part>,
) -> Result<Statements, NoMemory>
    ensures { IfOk result (λ s. s ≡ statements_in words.now no_statements (reverse parts.old.items)) }
{
    let mut statements = Statements::new(alloc);
    while let Some(part) = next(parts) {
        let span = part.span(words);
        let element = part.value.into_element(words, part.from, part.to);
        statements.add(alloc, span, element)?;
    }
    Ok(statements)
}

/// `{`, statements, `}`. Err only for want of memory.
#[tactic(auto, unfolding(crate::specs::MakeStatements::block_made))]
pub(crate) fn block(
    alloc: Global,
    words: &[Word],
    from: usize,
    to: usize,
    parts: &mut Vec<Part>,
) -> Result<Value, NoMemory>
    ensures { IfOk result (λ v. v ≡ block_made words.now from to (reverse parts.old.items)) }
{
    let statements = statements_in(alloc, words, parts)?;
    let span = span_from(words, from, to);
    let expr = statements.block(alloc, span)?;
    Ok(Value::Expr(expr))
}

/// A loop or a closure with the attributes before it. Err only for want of memory.
#[tactic(auto, unfolding(crate::specs::MakeExpressions::attributed_made))]
pub(crate) fn attributed(
    alloc: Global,
    words: &[Word],
    parts: &mut Vec<Part>,
) -> Result<Value, NoMemory>
    ensures { IfOk result (λ v. v ≡ attributed_made words.now (reverse parts.old.items)) }
{
    let statements = statements_in(alloc, words, parts)?;
    Ok(Value::Expr(statements.value(alloc)?))
}
