//! Nodes of expressions.
ghost use Rattle.std.specs.Prelude.{◌≡◌, IfOk, false};
ghost use Rattle.pearlite.specs.Parts.{nowhere};
ghost use Rattle.source_trees.specs.Expr.{truth};
ghost use Rattle.source_trees.specs.ExprView.{expr_of};

use pearlite::NOWHERE;
use source_trees::{Expr, ExprNode};
use std::alloc::Global;
use text_core::{NoMemory, Span};

/// The expression with this at its top. Err only for want of memory.
pub(crate) fn made(alloc: Global, span: Span, node: ExprNode) -> Result<Expr, NoMemory>
    ensures { IfOk result (λ e. e ≡ expr_of span node) }
{
    let node = Box::new(alloc, node)?;
    Ok(Expr { span, node })
}

/// What stands for an expression where none is: `false` at the start of the source.
pub(crate) fn nothing(alloc: Global) -> Result<Expr, NoMemory>
    ensures { IfOk result (λ e. e ≡ truth nowhere false) }
{
    made(alloc, NOWHERE, ExprNode::Truth(false))
}
