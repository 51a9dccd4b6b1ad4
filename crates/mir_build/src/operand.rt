//! Left operands: what is pushed of an expression while one is lowered.
ghost use Rattle.std.specs.Prelude.{true, None, ◌≡◌, ◌+◌, ◌≤◌, ◌<◌, ◌*◌, max, ◌∷◌, ◌++◌, [], length, OnOk, IfErr};
ghost use Rattle.type_check.specs.FirstBad.{bad_in};
ghost use Rattle.type_check.specs.TypedExprView.{ty_of, span_of, typed_size};
ghost use Rattle.mir_build.specs.Text.{Makes};
ghost use Rattle.mir_build.specs.Lowering.{is_place};
ghost use Rattle.mir_build.specs.Numbered.{into, kind_of, labels, locals};
ghost use Rattle.mir_build.specs.Reach.{reach};
ghost use Rattle.mir_build.specs.Built.{written, around};
ghost use Rattle.mir_build.specs.Taking.{taken};
ghost use Rattle.runnable.specs.CopyDecided.{is_copied};
ghost use Rattle.mir_build.specs.Tasks.{to_do, tasks_text, tasks_labels, tasks_locals, tasks_size, tasks_reach, tasks_bad, tasks_weight};
ghost use Rattle.mir_build.specs.declared.task.Task.TheVariants.{Lower, Finish};
ghost use Rattle.mir_build.specs.declared.stop.Stop.TheVariants.{Blocks};

use crate::around::Around;
use crate::assignment::{is_variable, lower_place, root_of};
use crate::builder::Builder;
use crate::stop::Stop;
use crate::task::{Behind, Pending, Task};
use logic_term::{Ty, TyNode};
use mir_ir::{Operand, Place, Rvalue};
use rs_types::CopyTypes;
use source_kinds::IntKind;
use std::alloc::Global;
use text_core::Span;
use type_check::TypedExpr;

#[tactic(auto, using(crate::proofs::Parts::ty_of_node))]
pub(crate) fn type_of(e: &TypedExpr) -> &Ty
    ensures { result.now ≡ ty_of e.now }
{
    &e.ty
}

#[tactic(auto, using(crate::proofs::Parts::span_of_node))]
pub(crate) fn value_span(e: &TypedExpr) -> Span
    ensures { result ≡ span_of e.now }
{
    e.span
}

/// The integer type of a cast.
pub(crate) fn kind_of(ty: &Ty) -> IntKind
    ensures { result ≡ kind_of ty.now }
{
    match ty.node {
        TyNode::Int(kind) => kind,
        _ => IntKind::I32,
    }
}

/// The left operand is next, which goes to a new local, and then the rest of the expression, which goes to local `target`.
#[tactic(auto, using(crate::proofs::Runs::running, crate::proofs::TaskStack::pushed))]
pub(crate) fn push_left<'a>(
    alloc: Global,
    b: &mut Builder,
    span: Span,
    left: &'a TypedExpr,
    target: u32,
    behind: Behind<'a>,
    tasks: &mut Vec<Task<'a>>,
) -> Result<(), Stop>
    ensures text { OnOk result (b.new.text ≡ written (Makes (length b.old.text.locals) (ty_of left.entry.now) ∷ []) b.old.text) }
    ensures labels { OnOk result (b.new.labels ≡ b.old.labels) }
    ensures locals { OnOk result (length b.new.text.locals ≡ length b.old.text.locals + 1) }
    ensures limit { IfErr result (λ stop. stop ≡ Blocks → ⊥) }
    ensures tasks { OnOk result (to_do tasks.new.items ≡ Lower left.entry (length b.old.text.locals) ∷ Finish (record { span = span; operand = length b.old.text.locals; target = target; behind = behind.entry }) ∷ to_do tasks.old.items) }
{
    let operand = b.make(alloc, type_of(left))?;
    tasks.push(Task::Finish(Pending {
        span,
        operand,
        target,
        behind,
    }))?;
    tasks.push(Task::Lower(left, operand))?;
    Ok(())
}

/// Whether the type is `Copy`.
#[tactic(auto, using(runnable::proofs::CopyDecided::is_copied_by))]
fn is_copied(types: &CopyTypes, ty: &Ty) -> bool
    ensures { result ≡ is_copied types.now ty.now }
{
    types.is_copy(ty)
}

/// What takes the value at a place of the type: a `Copy` type is copied, another is moved.
pub(crate) fn take(types: &CopyTypes, ty: &Ty, place: Place) -> Operand
    ensures { result ≡ taken (is_copied types.now ty.now) place }
{
    match is_copied(types, ty) {
        true => Operand::Copy(place),
        false => Operand::Move(place),
    }
}

/// The value of what names a place. What is no variable, at the root of parts, goes to a temporary.
#[tactic(auto, using(crate::proofs::Runs::running, crate::proofs::Parts::span_of_node, crate::proofs::Targets::copies))]
pub(crate) fn take_place<'a>(
    alloc: Global,
    b: &mut Builder,
    c: &Around<'_>,
    e: &'a TypedExpr,
    d: u32,
    tasks: &mut Vec<Task<'a>>,
) -> Result<(), Stop>
    requires place { is_place e.now ≡ true }
    requires scope { reach e.now ≤ length c.now.scope.items }
    ensures text { OnOk result (written (tasks_text (to_do tasks.new.items) (around c.now) b.new.labels (length b.new.text.locals)) b.new.text
        ≡ written (into e.now (around c.now) b.old.labels (length b.old.text.locals) d
        ++ tasks_text (to_do tasks.old.items) (around c.now) (b.old.labels + labels e.now) (length b.old.text.locals + locals e.now)) b.old.text) }
    ensures labels { OnOk result (b.new.labels + tasks_labels (to_do tasks.new.items) ≡ b.old.labels + labels e.now + tasks_labels (to_do tasks.old.items)) }
    ensures locals { OnOk result (length b.new.text.locals + tasks_locals (to_do tasks.new.items) ≡ length b.old.text.locals + locals e.now + tasks_locals (to_do tasks.old.items)) }
    ensures limit { IfErr result (λ stop. stop ≡ Blocks → ⊥) }
    ensures most { OnOk result (b.old.labels ≤ 4096 → b.new.labels ≤ 4096) }
    ensures size { OnOk result (tasks_size (to_do tasks.new.items) ≤ max (typed_size e.now) (tasks_size (to_do tasks.old.items))) }
    ensures reach { OnOk result (tasks_reach (to_do tasks.new.items) ≤ max (reach e.now) (tasks_reach (to_do tasks.old.items))) }
    ensures good { OnOk result (bad_in e.now ≡ None → tasks_bad (to_do tasks.old.items) ≡ None → tasks_bad (to_do tasks.new.items) ≡ None) }
    ensures weight { OnOk result (tasks_weight (to_do tasks.new.items) < 2 * typed_size e.now + tasks_weight (to_do tasks.old.items)) }
{
    let span = e.span;
    let root = root_of(e);
    if !is_variable(root) {
        return push_left(alloc, b, span, root, d, Behind::Part(e), tasks);
    }
    let place = lower_place(alloc, c.scope.as_slice(), e, 0)?;
    let value = take(c.types, type_of(e), place);
    Ok(b.put(alloc, span, d, Rvalue::Use(value))?)
}
