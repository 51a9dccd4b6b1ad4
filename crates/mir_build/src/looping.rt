//! Into loops and out of them.
ghost use Rattle.std.specs.Prelude.{None, ◌≡◌, ◌∷◌, [], length, map, OnOk};
ghost use Rattle.type_check.specs.FirstBad.{bad_among};
ghost use Rattle.mir_ir.specs.declared.terminator.TerminatorKind.TheVariants.{Goto};
ghost use Rattle.mir_build.specs.Text.{Turns, Leaves, Owns};
ghost use Rattle.mir_build.specs.Lowering.{put_unit, ends, at, at_head, looping, head_of};
ghost use Rattle.mir_build.specs.Numbered.{formula_of, between, label};
ghost use Rattle.mir_build.specs.Built.{written, around, outside};

use crate::around::{Around, Loop, head_of, nest};
use crate::builder::Builder;
use logic_term::Label;
use mir_ir::{Terminator, TerminatorKind};
use std::alloc::Global;
use text_core::{NoMemory, Span};
use type_check::Assertion;

/// Opens the head of a loop, behind which the block `after` stands, and goes into the loop.
pub(crate) fn enter_loop(
    alloc: Global,
    b: &mut Builder,
    c: &mut Around<'_>,
    span: Span,
    invariants: &[Assertion],
    head: u32,
    after: u32,
) -> Result<(), NoMemory>
    requires { bad_among invariants.now ≡ None }
    ensures text { OnOk result (b.new.text ≡ written (Turns (ends span (Goto (label head))) (at_head (looping (around c.old) (label head) (label after)) (label head) (head_of (around c.old) (map formula_of invariants.now))) ∷ []) b.old.text) }
    ensures locals { OnOk result (length b.new.text.locals ≡ length b.old.text.locals) }
    ensures labels { b.new.labels ≡ b.old.labels }
    ensures around { OnOk result (around c.new ≡ looping (around c.old) (label head) (label after)) }
    ensures count { OnOk result (length c.new.scope.items ≡ length c.old.scope.items) }
{
    let at_head = head_of(alloc, c, invariants)?;
    c.loops.push(Loop {
        head: Label(head),
        after: Label(after),
        depth: c.scope.len(),
    })?;
    let nest = nest(alloc, c)?;
    let kind = TerminatorKind::Goto(Label(head));
    let end = Terminator { span, kind };
    b.text.turn(alloc, end, Label(head), nest, Some(at_head))
}

/// Goes back to the head, leaves the loop, which is the innermost one, and writes the unit to local `d`. The locals from
/// the first on are the loop's own.
#[tactic(auto, using(crate::proofs::Runs::running))]
pub(crate) fn leave_loop(
    alloc: Global,
    b: &mut Builder,
    c: &mut Around<'_>,
    span: Span,
    head: u32,
    after: u32,
    first: u32,
    d: u32,
) -> Result<(), NoMemory>
    ensures text { OnOk result (b.new.text ≡ written (Turns (ends span (Goto (label head))) (at (outside (around c.old)) (label after)) ∷ Owns (label head) (between first (length b.old.text.locals)) ∷ put_unit span d ∷ []) b.old.text) }
    ensures locals { OnOk result (length b.new.text.locals ≡ length b.old.text.locals) }
    ensures labels { b.new.labels ≡ b.old.labels }
    ensures around { around c.new ≡ outside (around c.old) }
    ensures count { length c.new.scope.items ≡ length c.old.scope.items }
{
    c.loops.pop();
    b.go(alloc, c, span, head, after)?;
    b.own(alloc, head, first)?;
    b.put_unit(alloc, span, d)
}

/// Goes back to the head, and out of the loop, which is the innermost one: no block stands behind it. The locals from the first on
/// are the loop's own.
#[tactic(auto, using(crate::proofs::Runs::running))]
pub(crate) fn end_loop(
    alloc: Global,
    b: &mut Builder,
    c: &mut Around<'_>,
    span: Span,
    head: u32,
    first: u32,
) -> Result<(), NoMemory>
    ensures text { OnOk result (b.new.text ≡ written (Leaves (ends span (Goto (label head))) ∷ Owns (label head) (between first (length b.old.text.locals)) ∷ []) b.old.text) }
    ensures locals { OnOk result (length b.new.text.locals ≡ length b.old.text.locals) }
    ensures labels { b.new.labels ≡ b.old.labels }
    ensures around { around c.new ≡ outside (around c.old) }
    ensures count { length c.new.scope.items ≡ length c.old.scope.items }
{
    c.loops.pop();
    b.leave(span, TerminatorKind::Goto(Label(head)))?;
    b.own(alloc, head, first)
}
