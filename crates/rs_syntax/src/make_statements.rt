//! What statements, branches, loops and conditions make.
ghost use Rattle.std.specs.Prelude.{◌≡◌, reverse, IfOk};
ghost use Rattle.rs_syntax.specs.declared.part.Value.TheVariants as V;
ghost use Rattle.rs_syntax.specs.MakeStatements.{blocklike_made, forever_made, if_made, let_condition_made, let_made, while_made};

use crate::found::{first_expr, found_in, take_first};
use crate::make_expressions::plain;
use crate::part::{Part, Value};
use pearlite::{is_before, span_from};
use source_grammar::kinds;
use source_trees::{ExprNode, Stmt, StmtKind};
use source_words::Word;
use std::alloc::Global;
use text_core::{Boxed, NoMemory};

/// A blocklike as a statement, with the `;` behind it if one stands there. Err only for want of memory.
#[tactic(auto, unfolding(crate::specs::MakeStatements::blocklike_made))]
pub(crate) fn blocklike(
    alloc: Global,
    words: &[Word],
    to: usize,
    parts: &mut Vec<Part>,
) -> Result<Value, NoMemory>
    ensures { IfOk result (λ v. v ≡ blocklike_made words.now to (reverse parts.old.items)) }
{
    let expr = first_expr(alloc, parts)?;
    let closed = is_before(words, kinds::SEMICOLON, to, 1);
    Ok(Value::BlocklikeStatement(expr, closed))
}

fn statement(alloc: Global, stmt: Stmt) -> Result<Value, NoMemory>
    ensures { IfOk result (λ v. v ≡ V.Stmt stmt) }
{
    let stmt = Boxed::new(alloc, stmt)?;
    Ok(Value::Stmt(stmt))
}

/// `let p: T = e;`. Err only for want of memory.
#[tactic(auto, unfolding(crate::specs::MakeStatements::let_made))]
pub(crate) fn let_statement(
    alloc: Global,
    words: &[Word],
    from: usize,
    to: usize,
    parts: &mut Vec<Part>,
) -> Result<Value, NoMemory>
    ensures { IfOk result (λ v. v ≡ let_made words.now from to (reverse parts.old.items)) }
{
    let mut found = found_in(alloc, parts)?;
    let pattern = found.next_pattern(alloc)?;
    let value = found.next_expr(alloc)?;
    let kind = StmtKind::Let(pattern, take_first(alloc, &mut found.types));
    let span = span_from(words, from, to);
    statement(alloc, Stmt { span, kind, value })
}

/// `let p = e` as a condition. Err only for want of memory.
#[tactic(auto, unfolding(crate::specs::MakeStatements::let_condition_made))]
pub(crate) fn let_condition(alloc: Global, parts: &mut Vec<Part>) -> Result<Value, NoMemory>
    ensures { IfOk result (λ v. v ≡ let_condition_made (reverse parts.old.items)) }
{
    let mut found = found_in(alloc, parts)?;
    let pattern = found.next_pattern(alloc)?;
    let expr = found.next_expr(alloc)?;
    Ok(Value::Condition(pattern, expr))
}

/// `if`, the condition, the block, and what stands behind `else`. Err only for want of memory.
#[tactic(auto, using(crate::proofs::Families::second_expr, crate::proofs::Families::third), unfolding(crate::specs::MakeStatements::if_made, crate::specs::MakeStatements::if_by))]
pub(crate) fn branch(
    alloc: Global,
    words: &[Word],
    from: usize,
    to: usize,
    parts: &mut Vec<Part>,
) -> Result<Value, NoMemory>
    ensures { IfOk result (λ v. v ≡ if_made words.now from to (reverse parts.old.items)) }
{
    let mut found = found_in(alloc, parts)?;
    let condition = found.next_expr(alloc)?;
    let body = found.next_expr(alloc)?;
    let pattern = found.pattern(alloc);
    let node = match take_first(alloc, &mut found.exprs) {
        Some(other) => ExprNode::IfElse(pattern, condition, body, other),
        None => ExprNode::If(pattern, condition, body),
    };
    plain(alloc, words, from, to, node)
}

/// `while`, the condition and the body. Err only for want of memory.
#[tactic(auto, using(crate::proofs::Families::second_expr), unfolding(crate::specs::MakeStatements::while_made))]
pub(crate) fn while_loop(
    alloc: Global,
    words: &[Word],
    from: usize,
    to: usize,
    parts: &mut Vec<Part>,
) -> Result<Value, NoMemory>
    ensures { IfOk result (λ v. v ≡ while_made words.now from to (reverse parts.old.items)) }
{
    let mut found = found_in(alloc, parts)?;
    let condition = found.next_expr(alloc)?;
    let body = found.next_expr(alloc)?;
    let node = ExprNode::While(found.pattern(alloc), condition, body);
    plain(alloc, words, from, to, node)
}

/// `loop` and the body. Err only for want of memory.
#[tactic(auto, unfolding(crate::specs::MakeStatements::forever_made))]
pub(crate) fn endless_loop(
    alloc: Global,
    words: &[Word],
    from: usize,
    to: usize,
    parts: &mut Vec<Part>,
) -> Result<Value, NoMemory>
    ensures { IfOk result (λ v. v ≡ forever_made words.now from to (reverse parts.old.items)) }
{
    let body = first_expr(alloc, parts)?;
    plain(alloc, words, from, to, ExprNode::Loop(body))
}
