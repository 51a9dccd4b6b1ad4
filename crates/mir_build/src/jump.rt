//! Out of the innermost loop, and on to its next turn.
ghost use Rattle.std.specs.Prelude.{◌≡◌, ◌&&◌, length, OnOk};
ghost use Rattle.type_check.specs.Leaves.{leaves};
ghost use Rattle.mir_build.specs.Lowering.{die_from};
ghost use Rattle.mir_build.specs.Numbered.{jump, loop_at};
ghost use Rattle.mir_build.specs.Built.{written, around};

use crate::around::{Around, innermost};
use crate::builder::Builder;
use logic_term::Label;
use mir_ir::TerminatorKind;
use text_core::{NoMemory, Span};
use type_check::{TypedExpr, leaves};

/// What is bound behind the first `depth` variables in scope ends, the innermost first. It stays in scope.
fn end_inside(b: &mut Builder, c: &Around, span: Span, depth: usize) -> Result<(), NoMemory>
    ensures text { OnOk result (b.new.text ≡ written (die_from span depth (around c.now).scope) b.old.text) }
    ensures labels { OnOk result (b.new.labels ≡ b.old.labels) }
    ensures locals { OnOk result (length b.new.text.locals ≡ length b.old.text.locals) }
{
    let mut left = c.scope.len();
    while left > depth {
        left -= 1;
        b.kill(span, c.scope[left].local)?;
    }
    Ok(())
}

/// Ends what is bound inside of a loop, and leads to the label.
#[tactic(auto, using(crate::proofs::Runs::running))]
fn lower_jump(
    b: &mut Builder,
    c: &Around,
    span: Span,
    depth: usize,
    to: Label,
) -> Result<(), NoMemory>
    ensures text { OnOk result (b.new.text ≡ written (jump span depth to (around c.now).scope) b.old.text) }
    ensures labels { OnOk result (b.new.labels ≡ b.old.labels) }
    ensures locals { OnOk result (length b.new.text.locals ≡ length b.old.text.locals) }
{
    end_inside(b, c, span, depth)?;
    b.leave(span, TerminatorKind::Goto(to))
}

/// `break`.
pub(crate) fn lower_break(b: &mut Builder, c: &Around, span: Span) -> Result<(), NoMemory>
    ensures text { OnOk result (b.new.text ≡ written (jump span (loop_at (around c.now).loops).depth (loop_at (around c.now).loops).after (around c.now).scope) b.old.text) }
    ensures labels { OnOk result (b.new.labels ≡ b.old.labels) }
    ensures locals { OnOk result (length b.new.text.locals ≡ length b.old.text.locals) }
{
    let inner = innermost(c);
    lower_jump(b, c, span, inner.depth, inner.after)
}

/// `continue`.
pub(crate) fn lower_continue(b: &mut Builder, c: &Around, span: Span) -> Result<(), NoMemory>
    ensures text { OnOk result (b.new.text ≡ written (jump span (loop_at (around c.now).loops).depth (loop_at (around c.now).loops).head (around c.now).scope) b.old.text) }
    ensures labels { OnOk result (b.new.labels ≡ b.old.labels) }
    ensures locals { OnOk result (length b.new.text.locals ≡ length b.old.text.locals) }
{
    let inner = innermost(c);
    lower_jump(b, c, span, inner.depth, inner.head)
}

/// Whether both sides of a choice leave.
pub(crate) fn both_leave(x: &TypedExpr, y: &TypedExpr) -> bool
    ensures { result ≡ (leaves x.now && leaves y.now) }
{
    leaves(x) && leaves(y)
}
