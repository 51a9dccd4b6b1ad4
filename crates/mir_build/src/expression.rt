//! Lowering of expressions: what they add to the text of their body.
ghost use Rattle.std.specs.Prelude.{true, false, None, ◌≡◌, ◌+◌, ◌≤◌, ◌<◌, ◌*◌, max, ◌∷◌, ◌++◌, [], length, map, OnOk, IfOk, IfErr};
ghost use Rattle.type_check.specs.Answers.{or_else};
ghost use Rattle.type_check.specs.FirstBad.{bad_in, bad_in_exprs, bad_in_stmts};
ghost use Rattle.type_check.specs.TypedExpr.{negative, denied, assign, update, branch, choice, call, make};
ghost use Rattle.type_check.specs.TypedExprView.{ty_of, stmts_of, exprs_of, typed_size};
ghost use Rattle.type_check.specs.WellTyped.{unit};
ghost use Rattle.mir_ir.specs.declared.terminator.TerminatorKind.TheVariants.{Return};
ghost use Rattle.mir_build.specs.Text.{Makes, Leaves};
ghost use Rattle.mir_build.specs.Lowering.{moved, ends};
ghost use Rattle.mir_build.specs.Numbered.{into, rest, if_text, args, temporaries, labels, labels_of, labels_in, locals, locals_of, locals_in};
ghost use Rattle.mir_build.specs.Reach.{reach, reach_of, reach_in};
ghost use Rattle.mir_build.specs.Built.{written, around, end_of};
ghost use Rattle.mir_build.specs.Tasks.{to_do, lazy_text, behind_labels, behind_locals, behind_reach, behind_bad, task_text, task_labels, task_locals, task_size, task_reach, task_bad, task_weight};
ghost use Rattle.mir_build.specs.Tasks.{tasks_text, tasks_labels, tasks_locals, tasks_size, tasks_reach, tasks_bad, tasks_weight};
ghost use Rattle.mir_build.specs.declared.task.Task.TheVariants.{Finish};
ghost use Rattle.mir_build.specs.declared.stop.Stop.TheVariants.{Blocks};

use crate::around::Around;
use crate::assignment::{is_variable, lower_place, put_assign, put_update, root_of};
use crate::binding::end_bindings;
use crate::block_end::BlockEnd;
use crate::builder::{Builder, moved, whole};
use crate::jump::{both_leave, lower_break, lower_continue};
use crate::loops::{lower_endless, lower_repeat, lower_until_break};
use crate::matches::lower_match;
use crate::operand::{kind_of, push_left, take, take_place, type_of};
use crate::stop::Stop;
use crate::task::{Behind, Pending, Task};
use logic_term::{Ctor, Label};
use mir_ir::{Callee, FnId, Lit, Operand, Rvalue, TerminatorKind};
use source_kinds::{BinaryOp, LazyOp};
use std::alloc::Global;
use text_core::{Items, Span};
use type_check::{TypedExpr, TypedNode, TypedStmt};

/// A new local that holds the value.
#[cycle(lower)]
#[tactic(auto, using(crate::proofs::Runs::running))]
pub(crate) fn lower_new(
    alloc: Global,
    b: &mut Builder,
    c: &mut Around<'_>,
    e: &TypedExpr,
) -> Result<u32, Stop>
    requires scope { reach e.now ≤ length c.old.scope.items }
    requires good { bad_in e.now ≡ None }
    ensures number { IfOk result (λ t. t ≡ length b.old.text.locals) }
    ensures text { IfOk result (λ t. b.new.text ≡ written (Makes t (ty_of e.now) ∷ into e.now (around c.old) b.old.labels (t + 1) t) b.old.text) }
    ensures labels { OnOk result (b.new.labels ≡ b.old.labels + labels e.now) }
    ensures locals { OnOk result (length b.new.text.locals ≡ length b.old.text.locals + 1 + locals e.now) }
    ensures limit { IfErr result (λ stop. stop ≡ Blocks → 4096 < b.old.labels + labels e.now) }
    ensures most { OnOk result (b.old.labels ≤ 4096 → b.new.labels ≤ 4096) }
    ensures around { OnOk result (around c.new ≡ around c.old) }
    ensures count { OnOk result (length c.new.scope.items ≡ length c.old.scope.items) }
{
    let t = b.make(alloc, type_of(e))?;
    lower_into(alloc, b, c, e, t)?;
    Ok(t)
}

/// Writes the value to local `d`. Left operands are gone down by the loop, since they may be in one another by the thousand.
#[cycle(lower)]
#[tactic(auto, using(crate::proofs::Runs::running, crate::proofs::TaskStack::popped))]
pub(crate) fn lower_into(
    alloc: Global,
    b: &mut Builder,
    c: &mut Around<'_>,
    e: &TypedExpr,
    d: u32,
) -> Result<(), Stop>
    requires scope { reach e.now ≤ length c.old.scope.items }
    requires good { bad_in e.now ≡ None }
    ensures text { OnOk result (b.new.text ≡ written (into e.now (around c.old) b.old.labels (length b.old.text.locals) d) b.old.text) }
    ensures labels { OnOk result (b.new.labels ≡ b.old.labels + labels e.now) }
    ensures locals { OnOk result (length b.new.text.locals ≡ length b.old.text.locals + locals e.now) }
    ensures limit { IfErr result (λ stop. stop ≡ Blocks → 4096 < b.old.labels + labels e.now) }
    ensures most { OnOk result (b.old.labels ≤ 4096 → b.new.labels ≤ 4096) }
    ensures around { OnOk result (around c.new ≡ around c.old) }
    ensures count { OnOk result (length c.new.scope.items ≡ length c.old.scope.items) }
{
    let mut tasks = Vec::new(alloc);
    tasks.push(Task::Lower(e, d))?;
    while let Some(task) = tasks.pop() {
        do_task(alloc, b, c, task, &mut tasks)?;
    }
    Ok(())
}

#[cycle(lower)]
#[tactic(auto, using(crate::proofs::Runs::running))]
fn do_task<'a>(
    alloc: Global,
    b: &mut Builder,
    c: &mut Around<'_>,
    task: Task<'a>,
    tasks: &mut Vec<Task<'a>>,
) -> Result<(), Stop>
    requires scope { task_reach task ≤ length c.old.scope.items }
    requires good { task_bad task ≡ None }
    ensures text { OnOk result (written (tasks_text (to_do tasks.new.items) (around c.old) b.new.labels (length b.new.text.locals)) b.new.text
        ≡ written (task_text task.entry (around c.old) b.old.labels (length b.old.text.locals) ++ tasks_text (to_do tasks.old.items) (around c.old) (b.old.labels + task_labels task.entry) (length b.old.text.locals + task_locals task.entry)) b.old.text) }
    ensures labels { OnOk result (b.new.labels + tasks_labels (to_do tasks.new.items) ≡ b.old.labels + task_labels task.entry + tasks_labels (to_do tasks.old.items)) }
    ensures locals { OnOk result (length b.new.text.locals + tasks_locals (to_do tasks.new.items) ≡ length b.old.text.locals + task_locals task.entry + tasks_locals (to_do tasks.old.items)) }
    ensures limit { IfErr result (λ stop. stop ≡ Blocks → 4096 < b.old.labels + task_labels task.entry) }
    ensures most { OnOk result (b.old.labels ≤ 4096 → b.new.labels ≤ 4096) }
    ensures around { OnOk result (around c.new ≡ around c.old) }
    ensures count { OnOk result (length c.new.scope.items ≡ length c.old.scope.items) }
    ensures size { OnOk result (tasks_size (to_do tasks.new.items) ≤ max (task_size task.entry) (tasks_size (to_do tasks.old.items))) }
    ensures reach { OnOk result (tasks_reach (to_do tasks.new.items) ≤ max (task_reach task.entry) (tasks_reach (to_do tasks.old.items))) }
    ensures good { OnOk result (tasks_bad (to_do tasks.old.items) ≡ None → tasks_bad (to_do tasks.new.items) ≡ None) }
    ensures weight { OnOk result (tasks_weight (to_do tasks.new.items) < task_weight task.entry + tasks_weight (to_do tasks.old.items)) }
{
    match task {
        Task::Lower(e, d) => lower_left(alloc, b, c, e, d, tasks),
        Task::Finish(pending) => lower_behind(alloc, b, c, &pending),
    }
}

/// Lowers the expression, or what of it comes before its left operand, and pushes the rest.
#[cycle(lower)]
#[tactic(auto, using(crate::proofs::Runs::running))]
fn lower_left<'a>(
    alloc: Global,
    b: &mut Builder,
    c: &mut Around<'_>,
    e: &'a TypedExpr,
    d: u32,
    tasks: &mut Vec<Task<'a>>,
) -> Result<(), Stop>
    requires scope { reach e.now ≤ length c.old.scope.items }
    requires good { bad_in e.now ≡ None }
    ensures text { OnOk result (written (tasks_text (to_do tasks.new.items) (around c.old) b.new.labels (length b.new.text.locals)) b.new.text
        ≡ written (into e.now (around c.old) b.old.labels (length b.old.text.locals) d
        ++ tasks_text (to_do tasks.old.items) (around c.old) (b.old.labels + labels e.now) (length b.old.text.locals + locals e.now)) b.old.text) }
    ensures labels { OnOk result (b.new.labels + tasks_labels (to_do tasks.new.items) ≡ b.old.labels + labels e.now + tasks_labels (to_do tasks.old.items)) }
    ensures locals { OnOk result (length b.new.text.locals + tasks_locals (to_do tasks.new.items) ≡ length b.old.text.locals + locals e.now + tasks_locals (to_do tasks.old.items)) }
    ensures limit { IfErr result (λ stop. stop ≡ Blocks → 4096 < b.old.labels + labels e.now) }
    ensures most { OnOk result (b.old.labels ≤ 4096 → b.new.labels ≤ 4096) }
    ensures around { OnOk result (around c.new ≡ around c.old) }
    ensures count { OnOk result (length c.new.scope.items ≡ length c.old.scope.items) }
    ensures size { OnOk result (tasks_size (to_do tasks.new.items) ≤ max (typed_size e.now) (tasks_size (to_do tasks.old.items))) }
    ensures reach { OnOk result (tasks_reach (to_do tasks.new.items) ≤ max (reach e.now) (tasks_reach (to_do tasks.old.items))) }
    ensures good { OnOk result (tasks_bad (to_do tasks.old.items) ≡ None → tasks_bad (to_do tasks.new.items) ≡ None) }
    ensures weight { OnOk result (tasks_weight (to_do tasks.new.items) < 2 * typed_size e.now + tasks_weight (to_do tasks.old.items)) }
{
    let span = e.span;
    match &*e.node {
        TypedNode::Binary(op, x, y) => {
            push_left(alloc, b, span, x, d, Behind::Binary(*op, y), tasks)
        }
        TypedNode::Lazy(op, x, y) => push_left(alloc, b, span, x, d, Behind::Lazy(*op, y), tasks),
        TypedNode::Assign(to, x) => lower_assign(alloc, b, c, span, to, x, d, tasks),
        TypedNode::Update(op, to, x) => lower_update(alloc, b, c, span, *op, to, x, d, tasks),
        TypedNode::Int(z, k) => Ok(b.put_constant(alloc, span, d, Lit::Int(*z, *k))?),
        TypedNode::Truth(v) => Ok(b.put_constant(alloc, span, d, Lit::Bool(*v))?),
        TypedNode::Variable(_) | TypedNode::Part(_, _) => take_place(alloc, b, c, e, d, tasks),
        TypedNode::Neg(x) => lower_neg(alloc, b, c, span, x, d),
        TypedNode::Not(x) => lower_not(alloc, b, c, span, x, d),
        TypedNode::Cast(x) => {
            push_left(
                alloc,
                b,
                span,
                x,
                d,
                Behind::Cast(kind_of(type_of(e))),
                tasks,
            )
        }
        TypedNode::Call(f, es) => lower_call(alloc, b, c, span, *f, es, d),
        TypedNode::Make(k, es) => lower_make(alloc, b, c, span, *k, es, d),
        TypedNode::Block(ss) => lower_rest(alloc, b, c, false, span, ss, BlockEnd::Unit, d),
        TypedNode::BlockWith(ss, last) => {
            lower_rest(alloc, b, c, false, span, ss, BlockEnd::Value(last), d)
        }
        TypedNode::BlockLeaving(ss, last) => {
            lower_rest(alloc, b, c, false, span, ss, BlockEnd::Leaves(last), d)
        }
        TypedNode::If(x, y) => lower_branch(alloc, b, c, span, x, y, d),
        TypedNode::IfElse(x, y, z) => lower_choice(alloc, b, c, span, x, y, z, d),
        TypedNode::Match(value, arms) => lower_match(alloc, b, c, span, value, arms, d),
        TypedNode::While(is, x, y) => lower_repeat(alloc, b, c, span, is, x, y, d),
        TypedNode::Panic(cause) => Ok(b.leave(span, TerminatorKind::Panic(*cause))?),
        TypedNode::Return(x) => lower_return(alloc, b, c, span, x),
        TypedNode::Loop(is, x) => lower_endless(alloc, b, c, span, is, x),
        TypedNode::LoopUntilBreak(is, x) => lower_until_break(alloc, b, c, span, is, x, d),
        TypedNode::Break => Ok(lower_break(b, c, span)?),
        TypedNode::Continue => Ok(lower_continue(b, c, span)?),
    }
}

/// What is left of an expression whose left operand is in its local.
#[cycle(lower)]
#[tactic(auto, using(crate::proofs::Runs::running))]
fn lower_behind(
    alloc: Global,
    b: &mut Builder,
    c: &mut Around<'_>,
    pending: &Pending,
) -> Result<(), Stop>
    requires scope { behind_reach pending.now.behind ≤ length c.old.scope.items }
    requires good { behind_bad pending.now.behind ≡ None }
    ensures text { OnOk result (b.new.text ≡ written (task_text (Finish pending.now) (around c.old) b.old.labels (length b.old.text.locals)) b.old.text) }
    ensures labels { OnOk result (b.new.labels ≡ b.old.labels + behind_labels pending.now.behind) }
    ensures locals { OnOk result (length b.new.text.locals ≡ length b.old.text.locals + behind_locals pending.now.behind) }
    ensures limit { IfErr result (λ stop. stop ≡ Blocks → 4096 < b.old.labels + behind_labels pending.now.behind) }
    ensures most { OnOk result (b.old.labels ≤ 4096 → b.new.labels ≤ 4096) }
    ensures around { OnOk result (around c.new ≡ around c.old) }
    ensures count { OnOk result (length c.new.scope.items ≡ length c.old.scope.items) }
{
    let (span, x, d) = (pending.span, pending.operand, pending.target);
    match pending.behind {
        Behind::Binary(op, right) => {
            let y = lower_new(alloc, b, c, right)?;
            let value = Rvalue::Binary(op, moved(alloc, x), moved(alloc, y));
            Ok(b.put(alloc, span, d, value)?)
        }
        Behind::Cast(kind) => {
            let value = Rvalue::Widen(moved(alloc, x), kind);
            Ok(b.put(alloc, span, d, value)?)
        }
        Behind::Lazy(op, right) => lower_lazy(alloc, b, c, span, op, x, right, d),
        Behind::Assign(to, value) => {
            let place = lower_place(alloc, c.scope.as_slice(), to, x)?;
            Ok(put_assign(alloc, b, span, place, value, d)?)
        }
        Behind::Update(op, to, ty, value) => {
            let place = lower_place(alloc, c.scope.as_slice(), to, x)?;
            put_update(alloc, b, span, op, place, ty, value, d)
        }
        Behind::Part(e) => {
            let place = lower_place(alloc, c.scope.as_slice(), e, x)?;
            let value = take(c.types, type_of(e), place);
            Ok(b.put(alloc, span, d, Rvalue::Use(value))?)
        }
    }
}

/// `-x`.
#[cycle(lower)]
#[tactic(auto, using(crate::proofs::Runs::running))]
fn lower_neg(
    alloc: Global,
    b: &mut Builder,
    c: &mut Around<'_>,
    span: Span,
    x: &TypedExpr,
    d: u32,
) -> Result<(), Stop>
    requires scope { reach x.now ≤ length c.old.scope.items }
    requires good { bad_in x.now ≡ None }
    ensures text { OnOk result (b.new.text ≡ written (into (negative unit span x.now) (around c.old) b.old.labels (length b.old.text.locals) d) b.old.text) }
    ensures labels { OnOk result (b.new.labels ≡ b.old.labels + labels x.now) }
    ensures locals { OnOk result (length b.new.text.locals ≡ length b.old.text.locals + 1 + locals x.now) }
    ensures limit { IfErr result (λ stop. stop ≡ Blocks → 4096 < b.old.labels + labels x.now) }
    ensures most { OnOk result (b.old.labels ≤ 4096 → b.new.labels ≤ 4096) }
    ensures around { OnOk result (around c.new ≡ around c.old) }
    ensures count { OnOk result (length c.new.scope.items ≡ length c.old.scope.items) }
{
    let t = lower_new(alloc, b, c, x)?;
    Ok(b.put(alloc, span, d, Rvalue::Neg(moved(alloc, t)))?)
}

/// `!x`.
#[cycle(lower)]
#[tactic(auto, using(crate::proofs::Runs::running))]
fn lower_not(
    alloc: Global,
    b: &mut Builder,
    c: &mut Around<'_>,
    span: Span,
    x: &TypedExpr,
    d: u32,
) -> Result<(), Stop>
    requires scope { reach x.now ≤ length c.old.scope.items }
    requires good { bad_in x.now ≡ None }
    ensures text { OnOk result (b.new.text ≡ written (into (denied unit span x.now) (around c.old) b.old.labels (length b.old.text.locals) d) b.old.text) }
    ensures labels { OnOk result (b.new.labels ≡ b.old.labels + labels x.now) }
    ensures locals { OnOk result (length b.new.text.locals ≡ length b.old.text.locals + 1 + locals x.now) }
    ensures limit { IfErr result (λ stop. stop ≡ Blocks → 4096 < b.old.labels + labels x.now) }
    ensures most { OnOk result (b.old.labels ≤ 4096 → b.new.labels ≤ 4096) }
    ensures around { OnOk result (around c.new ≡ around c.old) }
    ensures count { OnOk result (length c.new.scope.items ≡ length c.old.scope.items) }
{
    let t = lower_new(alloc, b, c, x)?;
    Ok(b.put(alloc, span, d, Rvalue::Not(moved(alloc, t)))?)
}

/// `to = value`: the value first. What names no place, at the root of parts too, goes to a temporary.
#[cycle(lower)]
#[tactic(auto, using(crate::proofs::Runs::running, crate::proofs::Targets::targets))]
fn lower_assign<'a>(
    alloc: Global,
    b: &mut Builder,
    c: &mut Around<'_>,
    span: Span,
    to: &'a TypedExpr,
    x: &TypedExpr,
    d: u32,
    tasks: &mut Vec<Task<'a>>,
) -> Result<(), Stop>
    requires scope { max (reach to.now) (reach x.now) ≤ length c.old.scope.items }
    requires good { or_else (bad_in to.now) (bad_in x.now) ≡ None }
    ensures text { OnOk result (written (tasks_text (to_do tasks.new.items) (around c.old) b.new.labels (length b.new.text.locals)) b.new.text
        ≡ written (into (assign unit span to.entry.now x.now) (around c.old) b.old.labels (length b.old.text.locals) d
        ++ tasks_text (to_do tasks.old.items) (around c.old) (b.old.labels + labels (assign unit span to.entry.now x.now)) (length b.old.text.locals + locals (assign unit span to.entry.now x.now))) b.old.text) }
    ensures labels { OnOk result (b.new.labels + tasks_labels (to_do tasks.new.items) ≡ b.old.labels + labels (assign unit span to.entry.now x.now) + tasks_labels (to_do tasks.old.items)) }
    ensures locals { OnOk result (length b.new.text.locals + tasks_locals (to_do tasks.new.items) ≡ length b.old.text.locals + locals (assign unit span to.entry.now x.now) + tasks_locals (to_do tasks.old.items)) }
    ensures limit { IfErr result (λ stop. stop ≡ Blocks → 4096 < b.old.labels + labels (assign unit span to.entry.now x.now)) }
    ensures most { OnOk result (b.old.labels ≤ 4096 → b.new.labels ≤ 4096) }
    ensures around { OnOk result (around c.new ≡ around c.old) }
    ensures count { OnOk result (length c.new.scope.items ≡ length c.old.scope.items) }
    ensures size { OnOk result (tasks_size (to_do tasks.new.items) ≤ max (typed_size (assign unit span to.entry.now x.now)) (tasks_size (to_do tasks.old.items))) }
    ensures reach { OnOk result (tasks_reach (to_do tasks.new.items) ≤ max (reach (assign unit span to.entry.now x.now)) (tasks_reach (to_do tasks.old.items))) }
    ensures good { OnOk result (tasks_bad (to_do tasks.old.items) ≡ None → tasks_bad (to_do tasks.new.items) ≡ None) }
    ensures weight { OnOk result (tasks_weight (to_do tasks.new.items) < 2 * typed_size (assign unit span to.entry.now x.now) + tasks_weight (to_do tasks.old.items)) }
{
    let value = lower_new(alloc, b, c, x)?;
    let root = root_of(to);
    if !is_variable(root) {
        return push_left(alloc, b, span, root, d, Behind::Assign(to, value), tasks);
    }
    let place = lower_place(alloc, c.scope.as_slice(), to, 0)?;
    Ok(put_assign(alloc, b, span, place, value, d)?)
}

/// `to op= value`, in the same way.
#[cycle(lower)]
#[tactic(auto, using(crate::proofs::Runs::running, crate::proofs::Targets::targets))]
fn lower_update<'a>(
    alloc: Global,
    b: &mut Builder,
    c: &mut Around<'_>,
    span: Span,
    op: BinaryOp,
    to: &'a TypedExpr,
    x: &'a TypedExpr,
    d: u32,
    tasks: &mut Vec<Task<'a>>,
) -> Result<(), Stop>
    requires scope { max (reach to.now) (reach x.now) ≤ length c.old.scope.items }
    requires good { or_else (bad_in to.now) (bad_in x.now) ≡ None }
    ensures text { OnOk result (written (tasks_text (to_do tasks.new.items) (around c.old) b.new.labels (length b.new.text.locals)) b.new.text
        ≡ written (into (update unit span op to.entry.now x.now) (around c.old) b.old.labels (length b.old.text.locals) d
        ++ tasks_text (to_do tasks.old.items) (around c.old) (b.old.labels + labels (update unit span op to.entry.now x.now)) (length b.old.text.locals + locals (update unit span op to.entry.now x.now))) b.old.text) }
    ensures labels { OnOk result (b.new.labels + tasks_labels (to_do tasks.new.items) ≡ b.old.labels + labels (update unit span op to.entry.now x.now) + tasks_labels (to_do tasks.old.items)) }
    ensures locals { OnOk result (length b.new.text.locals + tasks_locals (to_do tasks.new.items) ≡ length b.old.text.locals + locals (update unit span op to.entry.now x.now) + tasks_locals (to_do tasks.old.items)) }
    ensures limit { IfErr result (λ stop. stop ≡ Blocks → 4096 < b.old.labels + labels (update unit span op to.entry.now x.now)) }
    ensures most { OnOk result (b.old.labels ≤ 4096 → b.new.labels ≤ 4096) }
    ensures around { OnOk result (around c.new ≡ around c.old) }
    ensures count { OnOk result (length c.new.scope.items ≡ length c.old.scope.items) }
    ensures size { OnOk result (tasks_size (to_do tasks.new.items) ≤ max (typed_size (update unit span op to.entry.now x.now)) (tasks_size (to_do tasks.old.items))) }
    ensures reach { OnOk result (tasks_reach (to_do tasks.new.items) ≤ max (reach (update unit span op to.entry.now x.now)) (tasks_reach (to_do tasks.old.items))) }
    ensures good { OnOk result (tasks_bad (to_do tasks.old.items) ≡ None → tasks_bad (to_do tasks.new.items) ≡ None) }
    ensures weight { OnOk result (tasks_weight (to_do tasks.new.items) < 2 * typed_size (update unit span op to.entry.now x.now) + tasks_weight (to_do tasks.old.items)) }
{
    let value = lower_new(alloc, b, c, x)?;
    let root = root_of(to);
    if !is_variable(root) {
        let behind = Behind::Update(op, to, type_of(x), value);
        return push_left(alloc, b, span, root, d, behind, tasks);
    }
    let place = lower_place(alloc, c.scope.as_slice(), to, 0)?;
    put_update(alloc, b, span, op, place, type_of(x), value, d)
}

/// The second operand of `&&` or `||`, where its value is needed; the first one is in local `t`.
#[cycle(lower)]
#[tactic(auto, using(crate::proofs::Runs::running))]
fn lower_lazy(
    alloc: Global,
    b: &mut Builder,
    c: &mut Around<'_>,
    span: Span,
    op: LazyOp,
    t: u32,
    y: &TypedExpr,
    d: u32,
) -> Result<(), Stop>
    requires scope { reach y.now ≤ length c.old.scope.items }
    requires good { bad_in y.now ≡ None }
    ensures text { OnOk result (b.new.text ≡ written (lazy_text op y.now span t d (around c.old) b.old.labels (length b.old.text.locals)) b.old.text) }
    ensures labels { OnOk result (b.new.labels ≡ b.old.labels + 3 + labels y.now) }
    ensures locals { OnOk result (length b.new.text.locals ≡ length b.old.text.locals + locals y.now) }
    ensures limit { IfErr result (λ stop. stop ≡ Blocks → 4096 < b.old.labels + 3 + labels y.now) }
    ensures most { OnOk result (b.old.labels ≤ 4096 → b.new.labels ≤ 4096) }
    ensures around { OnOk result (around c.new ≡ around c.old) }
    ensures count { OnOk result (length c.new.scope.items ≡ length c.old.scope.items) }
{
    let yes = b.take_labels(3)?;
    let no = yes + 1;
    let after = yes + 2;
    let test = TerminatorKind::If(moved(alloc, t), Label(yes), Label(no));
    b.turn(alloc, c, span, test, yes)?;
    match op {
        LazyOp::And => {
            lower_into(alloc, b, c, y, d)?;
            b.go(alloc, c, span, after, no)?;
            b.put_constant(alloc, span, d, Lit::Bool(false))?;
            b.go(alloc, c, span, after, after)?;
            Ok(())
        }
        LazyOp::Or => {
            b.put_constant(alloc, span, d, Lit::Bool(true))?;
            b.go(alloc, c, span, after, no)?;
            lower_into(alloc, b, c, y, d)?;
            b.go(alloc, c, span, after, after)?;
            Ok(())
        }
    }
}

#[cycle(lower)]
#[tactic(auto, using(crate::proofs::Runs::running))]
fn lower_branch(
    alloc: Global,
    b: &mut Builder,
    c: &mut Around<'_>,
    span: Span,
    x: &TypedExpr,
    y: &TypedExpr,
    d: u32,
) -> Result<(), Stop>
    requires scope { max (reach x.now) (reach y.now) ≤ length c.old.scope.items }
    requires good { or_else (bad_in x.now) (bad_in y.now) ≡ None }
    ensures text { OnOk result (b.new.text ≡ written (into (branch unit span x.now y.now) (around c.old) b.old.labels (length b.old.text.locals) d) b.old.text) }
    ensures labels { OnOk result (b.new.labels ≡ b.old.labels + labels (branch unit span x.now y.now)) }
    ensures locals { OnOk result (length b.new.text.locals ≡ length b.old.text.locals + locals (branch unit span x.now y.now)) }
    ensures limit { IfErr result (λ stop. stop ≡ Blocks → 4096 < b.old.labels + labels (branch unit span x.now y.now)) }
    ensures most { OnOk result (b.old.labels ≤ 4096 → b.new.labels ≤ 4096) }
    ensures around { OnOk result (around c.new ≡ around c.old) }
    ensures count { OnOk result (length c.new.scope.items ≡ length c.old.scope.items) }
{
    let t = lower_new(alloc, b, c, x)?;
    let yes = b.take_labels(3)?;
    let no = yes + 1;
    let after = yes + 2;
    let test = TerminatorKind::If(moved(alloc, t), Label(yes), Label(no));
    b.turn(alloc, c, span, test, yes)?;
    lower_into(alloc, b, c, y, d)?;
    b.go(alloc, c, span, after, no)?;
    b.put_unit(alloc, span, d)?;
    b.go(alloc, c, span, after, after)?;
    Ok(())
}

/// `if` with `else`.
#[cycle(lower)]
#[tactic(auto, using(crate::proofs::Runs::running))]
fn lower_choice(
    alloc: Global,
    b: &mut Builder,
    c: &mut Around<'_>,
    span: Span,
    x: &TypedExpr,
    y: &TypedExpr,
    z: &TypedExpr,
    d: u32,
) -> Result<(), Stop>
    requires scope { max (reach x.now) (max (reach y.now) (reach z.now)) ≤ length c.old.scope.items }
    requires good { or_else (bad_in x.now) (or_else (bad_in y.now) (bad_in z.now)) ≡ None }
    ensures text { OnOk result (b.new.text ≡ written (into (choice unit span x.now y.now z.now) (around c.old) b.old.labels (length b.old.text.locals) d) b.old.text) }
    ensures labels { OnOk result (b.new.labels ≡ b.old.labels + labels (choice unit span x.now y.now z.now)) }
    ensures locals { OnOk result (length b.new.text.locals ≡ length b.old.text.locals + locals (choice unit span x.now y.now z.now)) }
    ensures limit { IfErr result (λ stop. stop ≡ Blocks → 4096 < b.old.labels + labels (choice unit span x.now y.now z.now)) }
    ensures most { OnOk result (b.old.labels ≤ 4096 → b.new.labels ≤ 4096) }
    ensures around { OnOk result (around c.new ≡ around c.old) }
    ensures count { OnOk result (length c.new.scope.items ≡ length c.old.scope.items) }
{
    if both_leave(y, z) {
        lower_fork(alloc, b, c, span, x, y, z, d)
    } else {
        lower_join(alloc, b, c, span, x, y, z, d)
    }
}

/// `if` with `else`, a side of which has a value: behind it a block stands.
#[cycle(lower)]
#[tactic(auto, using(crate::proofs::Runs::running))]
fn lower_join(
    alloc: Global,
    b: &mut Builder,
    c: &mut Around<'_>,
    span: Span,
    x: &TypedExpr,
    y: &TypedExpr,
    z: &TypedExpr,
    d: u32,
) -> Result<(), Stop>
    requires scope { max (reach x.now) (max (reach y.now) (reach z.now)) ≤ length c.old.scope.items }
    requires good { or_else (bad_in x.now) (or_else (bad_in y.now) (bad_in z.now)) ≡ None }
    ensures text { OnOk result (b.new.text ≡ written (if_text false x.now y.now z.now span d (around c.old) b.old.labels (length b.old.text.locals)) b.old.text) }
    ensures labels { OnOk result (b.new.labels ≡ b.old.labels + labels x.now + 3 + labels y.now + labels z.now) }
    ensures locals { OnOk result (length b.new.text.locals ≡ length b.old.text.locals + 1 + locals x.now + locals y.now + locals z.now) }
    ensures limit { IfErr result (λ stop. stop ≡ Blocks → 4096 < b.old.labels + labels x.now + 3 + labels y.now + labels z.now) }
    ensures most { OnOk result (b.old.labels ≤ 4096 → b.new.labels ≤ 4096) }
    ensures around { OnOk result (around c.new ≡ around c.old) }
    ensures count { OnOk result (length c.new.scope.items ≡ length c.old.scope.items) }
{
    let t = lower_new(alloc, b, c, x)?;
    let yes = b.take_labels(3)?;
    let no = yes + 1;
    let after = yes + 2;
    let test = TerminatorKind::If(moved(alloc, t), Label(yes), Label(no));
    b.turn(alloc, c, span, test, yes)?;
    lower_into(alloc, b, c, y, d)?;
    b.go(alloc, c, span, after, no)?;
    lower_into(alloc, b, c, z, d)?;
    b.go(alloc, c, span, after, after)?;
    Ok(())
}

/// The same, where both sides leave.
#[cycle(lower)]
#[tactic(auto, using(crate::proofs::Runs::running))]
fn lower_fork(
    alloc: Global,
    b: &mut Builder,
    c: &mut Around<'_>,
    span: Span,
    x: &TypedExpr,
    y: &TypedExpr,
    z: &TypedExpr,
    d: u32,
) -> Result<(), Stop>
    requires scope { max (reach x.now) (max (reach y.now) (reach z.now)) ≤ length c.old.scope.items }
    requires good { or_else (bad_in x.now) (or_else (bad_in y.now) (bad_in z.now)) ≡ None }
    ensures text { OnOk result (b.new.text ≡ written (if_text true x.now y.now z.now span d (around c.old) b.old.labels (length b.old.text.locals)) b.old.text) }
    ensures labels { OnOk result (b.new.labels ≡ b.old.labels + labels x.now + 2 + labels y.now + labels z.now) }
    ensures locals { OnOk result (length b.new.text.locals ≡ length b.old.text.locals + 1 + locals x.now + locals y.now + locals z.now) }
    ensures limit { IfErr result (λ stop. stop ≡ Blocks → 4096 < b.old.labels + labels x.now + 2 + labels y.now + labels z.now) }
    ensures most { OnOk result (b.old.labels ≤ 4096 → b.new.labels ≤ 4096) }
    ensures around { OnOk result (around c.new ≡ around c.old) }
    ensures count { OnOk result (length c.new.scope.items ≡ length c.old.scope.items) }
{
    let t = lower_new(alloc, b, c, x)?;
    let yes = b.take_labels(2)?;
    let no = yes + 1;
    let test = TerminatorKind::If(moved(alloc, t), Label(yes), Label(no));
    b.turn(alloc, c, span, test, yes)?;
    lower_into(alloc, b, c, y, d)?;
    // No block is open here: this only opens the next one.
    b.go(alloc, c, span, no, no)?;
    lower_into(alloc, b, c, z, d)
}

/// `return`: the answer goes to local 0.
#[cycle(lower)]
#[tactic(auto, using(crate::proofs::Runs::running))]
fn lower_return(
    alloc: Global,
    b: &mut Builder,
    c: &mut Around<'_>,
    span: Span,
    x: &TypedExpr,
) -> Result<(), Stop>
    requires scope { reach x.now ≤ length c.old.scope.items }
    requires good { bad_in x.now ≡ None }
    ensures text { OnOk result (b.new.text ≡ written (into x.now (around c.old) b.old.labels (length b.old.text.locals) 0 ++ Leaves (ends span Return) ∷ []) b.old.text) }
    ensures labels { OnOk result (b.new.labels ≡ b.old.labels + labels x.now) }
    ensures locals { OnOk result (length b.new.text.locals ≡ length b.old.text.locals + locals x.now) }
    ensures limit { IfErr result (λ stop. stop ≡ Blocks → 4096 < b.old.labels + labels x.now) }
    ensures most { OnOk result (b.old.labels ≤ 4096 → b.new.labels ≤ 4096) }
    ensures around { OnOk result (around c.new ≡ around c.old) }
    ensures count { OnOk result (length c.new.scope.items ≡ length c.old.scope.items) }
{
    lower_into(alloc, b, c, x, 0)?;
    Ok(b.leave(span, TerminatorKind::Return)?)
}

#[cycle(lower)]
#[tactic(auto, using(crate::proofs::Runs::running))]
fn lower_call(
    alloc: Global,
    b: &mut Builder,
    c: &mut Around<'_>,
    span: Span,
    f: u32,
    es: &[TypedExpr],
    d: u32,
) -> Result<(), Stop>
    requires scope { reach_in (exprs_of es.now) ≤ length c.old.scope.items }
    requires good { bad_in_exprs (exprs_of es.now) ≡ None }
    ensures text { OnOk result (b.new.text ≡ written (into (call unit span f (exprs_of es.now)) (around c.old) b.old.labels (length b.old.text.locals) d) b.old.text) }
    ensures labels { OnOk result (b.new.labels ≡ b.old.labels + labels (call unit span f (exprs_of es.now))) }
    ensures locals { OnOk result (length b.new.text.locals ≡ length b.old.text.locals + locals (call unit span f (exprs_of es.now))) }
    ensures limit { IfErr result (λ stop. stop ≡ Blocks → 4096 < b.old.labels + labels (call unit span f (exprs_of es.now))) }
    ensures most { OnOk result (b.old.labels ≤ 4096 → b.new.labels ≤ 4096) }
    ensures around { OnOk result (around c.new ≡ around c.old) }
    ensures count { OnOk result (length c.new.scope.items ≡ length c.old.scope.items) }
{
    let operands = lower_args(alloc, b, c, es)?;
    let after = b.take_labels(1)?;
    let function = Callee::Function(FnId::Body(f));
    let types = Items::new(alloc);
    let call = TerminatorKind::Call(whole(alloc, d), function, types, operands, Label(after));
    b.turn(alloc, c, span, call, after)?;
    Ok(())
}

/// A value that is made of parts.
#[cycle(lower)]
#[tactic(auto, using(crate::proofs::Runs::running))]
fn lower_make(
    alloc: Global,
    b: &mut Builder,
    c: &mut Around<'_>,
    span: Span,
    k: Ctor,
    es: &[TypedExpr],
    d: u32,
) -> Result<(), Stop>
    requires scope { reach_in (exprs_of es.now) ≤ length c.old.scope.items }
    requires good { bad_in_exprs (exprs_of es.now) ≡ None }
    ensures text { OnOk result (b.new.text ≡ written (into (make unit span k (exprs_of es.now)) (around c.old) b.old.labels (length b.old.text.locals) d) b.old.text) }
    ensures labels { OnOk result (b.new.labels ≡ b.old.labels + labels_in (exprs_of es.now)) }
    ensures locals { OnOk result (length b.new.text.locals ≡ length b.old.text.locals + locals_in (exprs_of es.now)) }
    ensures limit { IfErr result (λ stop. stop ≡ Blocks → 4096 < b.old.labels + labels_in (exprs_of es.now)) }
    ensures most { OnOk result (b.old.labels ≤ 4096 → b.new.labels ≤ 4096) }
    ensures around { OnOk result (around c.new ≡ around c.old) }
    ensures count { OnOk result (length c.new.scope.items ≡ length c.old.scope.items) }
{
    let operands = lower_args(alloc, b, c, es)?;
    Ok(b.put(alloc, span, d, Rvalue::Make(k, operands))?)
}

/// The values of the arguments, or parts, each in a local of its own.
#[cycle(lower)]
#[tactic(auto, using(crate::proofs::Runs::running, crate::proofs::Good::each_good))]
fn lower_args(
    alloc: Global,
    b: &mut Builder,
    c: &mut Around<'_>,
    es: &[TypedExpr],
) -> Result<Items<Operand>, Stop>
    requires scope { reach_in (exprs_of es.now) ≤ length c.old.scope.items }
    requires good { bad_in_exprs (exprs_of es.now) ≡ None }
    ensures text { OnOk result (b.new.text ≡ written (args (exprs_of es.now) (around c.old) b.old.labels (length b.old.text.locals)) b.old.text) }
    ensures labels { OnOk result (b.new.labels ≡ b.old.labels + labels_in (exprs_of es.now)) }
    ensures locals { OnOk result (length b.new.text.locals ≡ length b.old.text.locals + locals_in (exprs_of es.now)) }
    ensures limit { IfErr result (λ stop. stop ≡ Blocks → 4096 < b.old.labels + labels_in (exprs_of es.now)) }
    ensures most { OnOk result (b.old.labels ≤ 4096 → b.new.labels ≤ 4096) }
    ensures around { OnOk result (around c.new ≡ around c.old) }
    ensures count { OnOk result (length c.new.scope.items ≡ length c.old.scope.items) }
    ensures operands { IfOk result (λ v. v ≡ map moved (temporaries (exprs_of es.now) (length b.old.text.locals))) }
{
    let mut all = Items::new(alloc);
    for e in es {
        let t = lower_new(alloc, b, c, e)?;
        all.push(moved(alloc, t))?;
    }
    Ok(all)
}

/// The statements of a block and its end. Bindings end with the block, but for the outermost block of a body.
#[cycle(lower)]
#[tactic(auto, using(crate::proofs::Runs::running, crate::proofs::Bindings::statement_smaller, crate::proofs::Bindings::end_smaller, crate::proofs::Scopes::statement_reaches, crate::proofs::Scopes::end_reaches, crate::proofs::Good::statement_good, crate::proofs::Good::end_good))]
pub(crate) fn lower_rest(
    alloc: Global,
    b: &mut Builder,
    c: &mut Around<'_>,
    outer: bool,
    span: Span,
    statements: &[TypedStmt],
    end: BlockEnd<'_>,
    d: u32,
) -> Result<(), Stop>
    requires scope { reach_of (stmts_of statements.now (end_of end)) ≤ length c.old.scope.items }
    requires good { bad_in_stmts (stmts_of statements.now (end_of end)) ≡ None }
    ensures text { OnOk result (b.new.text ≡ written (rest (stmts_of statements.now (end_of end.entry)) outer span (around c.old) b.old.labels (length b.old.text.locals) d) b.old.text) }
    ensures labels { OnOk result (b.new.labels ≡ b.old.labels + labels_of (stmts_of statements.now (end_of end.entry))) }
    ensures locals { OnOk result (length b.new.text.locals ≡ length b.old.text.locals + locals_of (stmts_of statements.now (end_of end.entry))) }
    ensures limit { IfErr result (λ stop. stop ≡ Blocks → 4096 < b.old.labels + labels_of (stmts_of statements.now (end_of end.entry))) }
    ensures most { OnOk result (b.old.labels ≤ 4096 → b.new.labels ≤ 4096) }
    ensures around { OnOk result (around c.new ≡ around c.old) }
    ensures count { OnOk result (length c.new.scope.items ≡ length c.old.scope.items) }
{
    let before = c.scope.len();
    for statement in statements {
        let t = lower_new(alloc, b, c, &statement.value)?;
        if statement.binds {
            c.scope.push(whole(alloc, t))?;
        }
    }
    match end {
        BlockEnd::Unit => b.put_unit(alloc, span, d)?,
        BlockEnd::Value(value) => lower_into(alloc, b, c, value, d)?,
        BlockEnd::Leaves(value) => {
            lower_new(alloc, b, c, value)?;
        }
    }
    end_bindings(b, c, outer, span, before)?;
    Ok(())
}
