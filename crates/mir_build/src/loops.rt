//! Lowering of loops.
ghost use Rattle.std.specs.Prelude.{None, ◌≡◌, ◌+◌, ◌^◌, ◌≤◌, ◌<◌, max, length, OnOk, IfOk, IfErr};
ghost use Rattle.type_check.specs.Answers.{or_else};
ghost use Rattle.type_check.specs.FirstBad.{bad_among, bad_in};
ghost use Rattle.type_check.specs.TypedExpr.{repeat};
ghost use Rattle.type_check.specs.WellTyped.{unit};
ghost use Rattle.mir_build.specs.Numbered.{into, loop_text, endless_text, broken_text, labels, locals};
ghost use Rattle.mir_build.specs.Reach.{reach};
ghost use Rattle.mir_build.specs.Built.{written, around};
ghost use Rattle.mir_build.specs.declared.stop.Stop.TheVariants.{Blocks};

use crate::around::Around;
use crate::builder::{Builder, moved};
use crate::expression::lower_new;
use crate::looping::{end_loop, enter_loop, leave_loop};
use crate::stop::Stop;
use logic_term::Label;
use mir_ir::TerminatorKind;
use std::alloc::Global;
use text_core::Span;
use type_check::{Assertion, TypedExpr};

/// The condition and the body of a loop. Answers the first local of the loop's own.
#[cycle(lower)]
#[tactic(auto, using(crate::proofs::Runs::running))]
fn lower_loop(
    alloc: Global,
    b: &mut Builder,
    c: &mut Around<'_>,
    span: Span,
    head: u32,
    x: &TypedExpr,
    y: &TypedExpr,
) -> Result<u32, Stop>
    requires small { head + 2 < 2 ^ 32 }
    requires scope { max (reach x.now) (reach y.now) ≤ length c.old.scope.items }
    requires good { or_else (bad_in x.now) (bad_in y.now) ≡ None }
    ensures first { IfOk result (λ t. t ≡ length b.old.text.locals) }
    ensures text { OnOk result (b.new.text ≡ written (loop_text x.now y.now span (around c.old) head b.old.labels (length b.old.text.locals)) b.old.text) }
    ensures labels { OnOk result (b.new.labels ≡ b.old.labels + labels x.now + labels y.now) }
    ensures locals { OnOk result (length b.new.text.locals ≡ length b.old.text.locals + 1 + locals x.now + 1 + locals y.now) }
    ensures limit { IfErr result (λ stop. stop ≡ Blocks → 4096 < b.old.labels + labels x.now + labels y.now) }
    ensures most { OnOk result (b.old.labels ≤ 4096 → b.new.labels ≤ 4096) }
    ensures around { OnOk result (around c.new ≡ around c.old) }
    ensures count { OnOk result (length c.new.scope.items ≡ length c.old.scope.items) }
{
    let t = lower_new(alloc, b, c, x)?;
    let test = TerminatorKind::If(moved(alloc, t), Label(head + 1), Label(head + 2));
    b.turn(alloc, c, span, test, head + 1)?;
    lower_new(alloc, b, c, y)?;
    Ok(t)
}

#[cycle(lower)]
#[tactic(auto, using(crate::proofs::Runs::running))]
pub(crate) fn lower_repeat(
    alloc: Global,
    b: &mut Builder,
    c: &mut Around<'_>,
    span: Span,
    invariants: &[Assertion],
    x: &TypedExpr,
    y: &TypedExpr,
    d: u32,
) -> Result<(), Stop>
    requires scope { max (reach x.now) (reach y.now) ≤ length c.old.scope.items }
    requires good { or_else (bad_among invariants.now) (or_else (bad_in x.now) (bad_in y.now)) ≡ None }
    ensures text { OnOk result (b.new.text ≡ written (into (repeat unit span invariants.now x.now y.now) (around c.old) b.old.labels (length b.old.text.locals) d) b.old.text) }
    ensures labels { OnOk result (b.new.labels ≡ b.old.labels + labels (repeat unit span invariants.now x.now y.now)) }
    ensures locals { OnOk result (length b.new.text.locals ≡ length b.old.text.locals + locals (repeat unit span invariants.now x.now y.now)) }
    ensures limit { IfErr result (λ stop. stop ≡ Blocks → 4096 < b.old.labels + labels (repeat unit span invariants.now x.now y.now)) }
    ensures most { OnOk result (b.old.labels ≤ 4096 → b.new.labels ≤ 4096) }
    ensures around { OnOk result (around c.new ≡ around c.old) }
    ensures count { OnOk result (length c.new.scope.items ≡ length c.old.scope.items) }
{
    let head = b.take_labels(3)?;
    enter_loop(alloc, b, c, span, invariants, head, head + 2)?;
    let t = lower_loop(alloc, b, c, span, head, x, y)?;
    leave_loop(alloc, b, c, span, head, head + 2, t, d)?;
    Ok(())
}

/// `loop`, which is not left.
#[cycle(lower)]
#[tactic(auto, using(crate::proofs::Runs::running))]
pub(crate) fn lower_endless(
    alloc: Global,
    b: &mut Builder,
    c: &mut Around<'_>,
    span: Span,
    invariants: &[Assertion],
    x: &TypedExpr,
) -> Result<(), Stop>
    requires scope { reach x.now ≤ length c.old.scope.items }
    requires good { or_else (bad_among invariants.now) (bad_in x.now) ≡ None }
    ensures text { OnOk result (b.new.text ≡ written (endless_text x.now invariants.now span (around c.old) b.old.labels (length b.old.text.locals)) b.old.text) }
    ensures labels { OnOk result (b.new.labels ≡ b.old.labels + 1 + labels x.now) }
    ensures locals { OnOk result (length b.new.text.locals ≡ length b.old.text.locals + 1 + locals x.now) }
    ensures limit { IfErr result (λ stop. stop ≡ Blocks → 4096 < b.old.labels + 1 + labels x.now) }
    ensures most { OnOk result (b.old.labels ≤ 4096 → b.new.labels ≤ 4096) }
    ensures around { OnOk result (around c.new ≡ around c.old) }
    ensures count { OnOk result (length c.new.scope.items ≡ length c.old.scope.items) }
{
    let head = b.take_labels(1)?;
    enter_loop(alloc, b, c, span, invariants, head, head)?;
    let t = lower_new(alloc, b, c, x)?;
    end_loop(alloc, b, c, span, head, t)?;
    Ok(())
}

/// `loop`, which a `break` leaves.
#[cycle(lower)]
#[tactic(auto, using(crate::proofs::Runs::running))]
pub(crate) fn lower_until_break(
    alloc: Global,
    b: &mut Builder,
    c: &mut Around<'_>,
    span: Span,
    invariants: &[Assertion],
    x: &TypedExpr,
    d: u32,
) -> Result<(), Stop>
    requires scope { reach x.now ≤ length c.old.scope.items }
    requires good { or_else (bad_among invariants.now) (bad_in x.now) ≡ None }
    ensures text { OnOk result (b.new.text ≡ written (broken_text x.now invariants.now span (around c.old) b.old.labels (length b.old.text.locals) d) b.old.text) }
    ensures labels { OnOk result (b.new.labels ≡ b.old.labels + 2 + labels x.now) }
    ensures locals { OnOk result (length b.new.text.locals ≡ length b.old.text.locals + 1 + locals x.now) }
    ensures limit { IfErr result (λ stop. stop ≡ Blocks → 4096 < b.old.labels + 2 + labels x.now) }
    ensures most { OnOk result (b.old.labels ≤ 4096 → b.new.labels ≤ 4096) }
    ensures around { OnOk result (around c.new ≡ around c.old) }
    ensures count { OnOk result (length c.new.scope.items ≡ length c.old.scope.items) }
{
    let head = b.take_labels(2)?;
    enter_loop(alloc, b, c, span, invariants, head, head + 1)?;
    let t = lower_new(alloc, b, c, x)?;
    leave_loop(alloc, b, c, span, head, head + 1, t, d)?;
    Ok(())
}
