ghost use Rattle.std.specs.Prelude.{◌≡◌, OnOk};
ghost use Rattle.type_check.specs.Answers.{Answers};
ghost use Rattle.type_check.specs.Leaves.{ends_leaving};
ghost use Rattle.type_check.specs.TypedExpr.{done, last as ends_with, leaving};
ghost use Rattle.type_check.specs.TypedExprView.{stmts_of};
ghost use Rattle.type_check.specs.Typing.{closed, declared, without_last};

use crate::leaving::leaves;
use crate::scope::{Declared, Variable};
use crate::typed::{TypedExpr, TypedNode, TypedStmt};
use crate::typing::{asked, fit, ty_of};
use logic_term::Ty;
use std::alloc::Global;
use text_core::{NoMemory, PassError, Span};

/// What a statement does beside its value.
#[derive(Drop)]
pub(crate) struct Step {
    pub(crate) declares: Option<Declared>,
    /// The type that its value is checked against, if there is one.
    pub(crate) expected: Option<Ty>,
}

/// Puts what a statement of the value declares into the scope.
pub(crate) fn declare(
    alloc: Global,
    scope: &mut Vec<Variable>,
    declares: Option<Declared>,
    value: &TypedExpr,
) -> Result<(), NoMemory>
    ensures { OnOk result (scope.new.items ≡ declared scope.old.items declares value.now) }
{
    if let Some(Declared { name, mutable }) = declares {
        let ty = ty_of(value).copy(alloc)?;
        scope.push(Variable { name, ty, mutable })?;
    }
    Ok(())
}

/// A block without a last expression, whose last statement, if it has one, does not leave.
#[tactic(auto, unfolding(crate::specs::Typing::closed), using(crate::proofs::StatementLists::block_ty_after))]
fn block(
    alloc: Global,
    expected: &Option<Ty>,
    span: Span,
    stmts: Vec<TypedStmt>,
) -> Result<TypedExpr, PassError>
    ensures { Answers result (closed expected.now span (stmts_of stmts.items done)) }
{
    let ty = Ty::unit(alloc);
    let node = TypedNode::Block(stmts);
    fit(alloc, expected, span, ty, span, node)
}

/// A block whose last statement has this value, which leaves.
#[tactic(auto, unfolding(crate::specs::Typing::closed), using(crate::proofs::StatementLists::block_ty_after))]
fn block_leaving(
    alloc: Global,
    expected: &Option<Ty>,
    span: Span,
    stmts: Vec<TypedStmt>,
    last: TypedExpr,
) -> Result<TypedExpr, PassError>
    ensures { Answers result (closed expected.now span (stmts_of stmts.items (leaving last))) }
{
    let ty = asked(alloc, expected)?;
    let node = TypedNode::BlockLeaving(stmts, last);
    fit(alloc, expected, span, ty, span, node)
}

/// Whether the last of the statements leaves.
fn last_leaves(stmts: &[TypedStmt]) -> bool
    ensures { result ≡ ends_leaving stmts.now }
{
    match stmts.last() {
        None => false,
        Some(stmt) => leaves(&stmt.value),
    }
}

/// A block without a last expression.
#[tactic(auto, using(crate::proofs::StatementLists::last_of))]
pub(crate) fn whole_block(
    alloc: Global,
    expected: &Option<Ty>,
    span: Span,
    mut stmts: Vec<TypedStmt>,
) -> Result<TypedExpr, PassError>
    ensures { Answers result (closed expected.now span (without_last stmts.items)) }
{
    if !last_leaves(&stmts) {
        return block(alloc, expected, span, stmts);
    }
    match stmts.pop() {
        None => block(alloc, expected, span, stmts),
        Some(stmt) => {
            let TypedStmt { binds: _, value } = stmt;
            block_leaving(alloc, expected, span, stmts, value)
        }
    }
}

/// A block with a last expression.
#[tactic(auto, unfolding(crate::specs::Typing::closed), using(crate::proofs::StatementLists::block_ty_after))]
pub(crate) fn block_with(
    alloc: Global,
    expected: &Option<Ty>,
    span: Span,
    stmts: Vec<TypedStmt>,
    last: TypedExpr,
) -> Result<TypedExpr, PassError>
    ensures { Answers result (closed expected.now span (stmts_of stmts.items (ends_with last))) }
{
    let ty = ty_of(&last).copy(alloc)?;
    let node = TypedNode::BlockWith(stmts, last);
    fit(alloc, expected, span, ty, span, node)
}
