//! Lowering of matches: the tests of the value, by the tree of the patterns, and the arms.
ghost use Rattle.std.specs.Prelude.{ℕ, true, false, None, Some, Option, ◌≡◌, ◌+◌, ◌≤◌, ◌<◌, max, ◌∷◌, ◌++◌, [], length, is_some, OnOk, IfOk, IfErr};
ghost use Rattle.logic_term.specs.Ty.{bool};
ghost use Rattle.mir_ir.specs.declared.place.Operand.TheVariants.{Copy};
ghost use Rattle.mir_ir.specs.declared.statement.Rvalue.TheVariants.{Use};
ghost use Rattle.mir_ir.specs.declared.terminator.TerminatorKind.TheVariants.{If};
ghost use Rattle.pat_check.specs.Flat.{all_flat, flat_tree};
ghost use Rattle.type_check.specs.Answers.{or_else};
ghost use Rattle.type_check.specs.FirstBad.{bad_in, bad_in_arms, match_refusal};
ghost use Rattle.type_check.specs.Leaves.{all_arms_leave};
ghost use Rattle.type_check.specs.Scalars.{is_scalar};
ghost use Rattle.type_check.specs.TypedExpr.{matched};
ghost use Rattle.type_check.specs.TypedExprView.{ty_of, arms_of, patterns_of};
ghost use Rattle.type_check.specs.WellTyped.{unit};
ghost use Rattle.mir_build.specs.Taking.{taken};
ghost use Rattle.runnable.specs.CopyDecided.{is_copied};
ghost use Rattle.mir_build.specs.Text.{Makes, Turns};
ghost use Rattle.mir_build.specs.Lowering.{moved, ends, at, binds, dies_in, edge_to, is_place, met, puts};
ghost use Rattle.mir_build.specs.Numbered.{into, label, labels, locals, place_of, text_before, temporary_count};
ghost use Rattle.mir_build.specs.Numbered.{behind_label, met_labels, literal_rvalue, tests_take, tests_text, tested_by, arm_labels, arm_locals, arm_into};
ghost use Rattle.mir_build.specs.Reach.{reach, reach_in_arms};
ghost use Rattle.mir_build.specs.Built.{written, around};
ghost use Rattle.mir_build.specs.declared.stop.Stop.TheVariants.{Blocks};

use crate::around::{Around, same_place};
use crate::assignment::{is_variable, lower_place, root_of};
use crate::binding::end_bindings;
use crate::builder::{Builder, moved, whole};
use crate::expression::{lower_into, lower_new};
use crate::operand::{kind_of, take, type_of};
use crate::stop::Stop;
use logic_term::{Label, Ty};
use mir_ir::{Lit, Operand, Place, Rvalue, TerminatorKind};
use pat_check::{Decision, DecisionNode, tree};
use source_kinds::BinaryOp;
use std::alloc::Global;
use text_core::{NoMemory, Span};
use type_check::{TypedArm, TypedExpr, all_arms_leave, patterns_of};

/// The tree of flat patterns of a scalar type, which cover it.
#[tactic(auto, using(crate::proofs::MatchParts::flat))]
fn tree_of(alloc: Global, ty: &Ty, arms: &[TypedArm]) -> Result<Decision, NoMemory>
    requires scalar { is_scalar ty.now ≡ true }
    requires flat { all_flat ty.now (patterns_of (arms_of arms.now)) ≡ true }
    requires covered { is_some (flat_tree ty.now (patterns_of (arms_of arms.now))) ≡ true }
    ensures { IfOk result (λ D. flat_tree ty.now (patterns_of (arms_of arms.now)) ≡ Some D) }
{
    let patterns = patterns_of(alloc, arms)?;
    tree(alloc, patterns.as_slice(), ty, &[])
}

/// The label behind the arms, unless all of them leave.
fn take_behind(b: &mut Builder, arms: &[TypedArm]) -> Result<Option<Label>, Stop>
    ensures label { IfOk result (λ after. after ≡ behind_label (all_arms_leave (arms_of arms.now)) b.old.labels) }
    ensures labels { OnOk result (b.new.labels ≡ b.old.labels + met_labels (all_arms_leave (arms_of arms.now))) }
    ensures limit { IfErr result (λ stop. stop ≡ Blocks → 4096 < b.old.labels + met_labels (all_arms_leave (arms_of arms.now))) }
    ensures most { OnOk result (b.old.labels ≤ 4096 → b.new.labels ≤ 4096) }
    ensures text { b.new.text ≡ b.old.text }
{
    if all_arms_leave(arms) {
        return Ok(None);
    }
    let after = b.take_labels(1)?;
    Ok(Some(Label(after)))
}

/// The block behind the arms, if there is one.
fn meet(
    alloc: Global,
    b: &mut Builder,
    c: &Around<'_>,
    span: Span,
    after: Option<Label>,
) -> Result<(), NoMemory>
    ensures text { OnOk result (b.new.text ≡ written (met (around c.now) span after) b.old.text) }
    ensures labels { b.new.labels ≡ b.old.labels }
    ensures locals { OnOk result (length b.new.text.locals ≡ length b.old.text.locals) }
{
    match after {
        Some(Label(after)) => b.go(alloc, c, span, after, after),
        None => Ok(()),
    }
}

/// Where the edge behind all arms but the last leads.
fn edge_to(after: Option<Label>, next: u32) -> Label
    ensures { result ≡ edge_to after (label next) }
{
    match after {
        Some(after) => after,
        None => Label(next),
    }
}

/// A local says which of two sides is run, and the first one begins. Answers its label; that of the other one is the next.
#[tactic(auto, using(crate::proofs::Runs::running))]
fn begin_sides(
    alloc: Global,
    b: &mut Builder,
    c: &Around<'_>,
    span: Span,
    value: Rvalue,
) -> Result<u32, Stop>
    ensures first { IfOk result (λ l. l ≡ b.old.labels) }
    ensures text { OnOk result (b.new.text ≡ written (let t = length b.old.text.locals in Makes t bool ∷ puts span t value ∷ Turns (ends span (If (moved t) (label b.old.labels) (label (b.old.labels + 1)))) (at (around c.now) (label b.old.labels)) ∷ []) b.old.text) }
    ensures labels { OnOk result (b.new.labels ≡ b.old.labels + 2) }
    ensures locals { OnOk result (length b.new.text.locals ≡ length b.old.text.locals + 1) }
    ensures limit { IfErr result (λ stop. stop ≡ Blocks → 4096 < b.old.labels + 2) }
    ensures most { OnOk result (b.new.labels ≤ 4096) }
{
    let first = b.take_labels(2)?;
    let t = b.make(alloc, &Ty::bool())?;
    b.put(alloc, span, t, value)?;
    let test = TerminatorKind::If(moved(alloc, t), Label(first), Label(first + 1));
    b.turn(alloc, c, span, test, first)?;
    Ok(first)
}

/// What is matched: its place. What names no place, at the root of parts too, goes to a temporary.
#[cycle(lower)]
#[tactic(auto, using(crate::proofs::Runs::running, crate::proofs::Targets::targets))]
fn lower_matched(
    alloc: Global,
    b: &mut Builder,
    c: &mut Around<'_>,
    value: &TypedExpr,
) -> Result<Place, Stop>
    requires scope { reach value.now ≤ length c.old.scope.items }
    requires good { bad_in value.now ≡ None }
    ensures place { IfOk result (λ p. p ≡ place_of (around c.old).scope (length b.old.text.locals) value.now) }
    ensures text { OnOk result (b.new.text ≡ written (text_before value.now (around c.old) b.old.labels (length b.old.text.locals)) b.old.text) }
    ensures labels { OnOk result (b.new.labels ≡ b.old.labels + labels value.now) }
    ensures locals { OnOk result (length b.new.text.locals ≡ length b.old.text.locals + temporary_count (is_place value.now) + locals value.now) }
    ensures limit { IfErr result (λ stop. stop ≡ Blocks → 4096 < b.old.labels + labels value.now) }
    ensures most { OnOk result (b.old.labels ≤ 4096 → b.new.labels ≤ 4096) }
    ensures around { OnOk result (around c.new ≡ around c.old) }
    ensures count { OnOk result (length c.new.scope.items ≡ length c.old.scope.items) }
{
    let root = root_of(value);
    if is_variable(root) {
        return Ok(lower_place(alloc, c.scope.as_slice(), value, 0)?);
    }
    let t = lower_new(alloc, b, c, root)?;
    Ok(lower_place(alloc, c.scope.as_slice(), value, t)?)
}

/// A match by flat patterns.
#[cycle(lower)]
#[tactic(auto, using(crate::proofs::Runs::running, crate::proofs::MatchParts::accepted))]
pub(crate) fn lower_match(
    alloc: Global,
    b: &mut Builder,
    c: &mut Around<'_>,
    span: Span,
    value: &TypedExpr,
    arms: &[TypedArm],
    d: u32,
) -> Result<(), Stop>
    requires scope { max (reach value.now) (reach_in_arms (arms_of arms.now)) ≤ length c.old.scope.items }
    requires good { or_else (bad_in value.now) (or_else (bad_in_arms (arms_of arms.now)) (match_refusal span (ty_of value.now) (patterns_of (arms_of arms.now)))) ≡ None }
    ensures text { OnOk result (b.new.text ≡ written (into (matched unit span value.now (arms_of arms.now)) (around c.old) b.old.labels (length b.old.text.locals) d) b.old.text) }
    ensures labels { OnOk result (b.new.labels ≡ b.old.labels + labels (matched unit span value.now (arms_of arms.now))) }
    ensures locals { OnOk result (length b.new.text.locals ≡ length b.old.text.locals + locals (matched unit span value.now (arms_of arms.now))) }
    ensures limit { IfErr result (λ stop. stop ≡ Blocks → 4096 < b.old.labels + labels (matched unit span value.now (arms_of arms.now))) }
    ensures most { OnOk result (b.old.labels ≤ 4096 → b.new.labels ≤ 4096) }
    ensures around { OnOk result (around c.new ≡ around c.old) }
    ensures count { OnOk result (length c.new.scope.items ≡ length c.old.scope.items) }
{
    let place = lower_matched(alloc, b, c, value)?;
    let tree = tree_of(alloc, type_of(value), arms)?;
    let after = take_behind(b, arms)?;
    lower_tests(
        alloc,
        b,
        c,
        span,
        type_of(value),
        &place,
        arms,
        after,
        &tree,
        d,
    )?;
    Ok(meet(alloc, b, c, span, after)?)
}

/// The tests of the tree, of the value at the place, and the arms, which lead to the block behind them.
#[cycle(lower)]
#[tactic(auto, using(crate::proofs::Runs::running))]
fn lower_tests(
    alloc: Global,
    b: &mut Builder,
    c: &mut Around<'_>,
    span: Span,
    ty: &Ty,
    place: &Place,
    arms: &[TypedArm],
    after: Option<Label>,
    tree: &Decision,
    d: u32,
) -> Result<(), Stop>
    requires scope { reach_in_arms (arms_of arms.now) ≤ length c.old.scope.items }
    requires good { bad_in_arms (arms_of arms.now) ≡ None }
    ensures text { OnOk result (b.new.text ≡ written
        (tests_text (around c.old) span ty.now place.now after (arm_labels (arms_of arms.now)) (arm_locals (arms_of arms.now))
        (arm_into (arms_of arms.now) (around c.old) span ty.now place.now d) tree.now b.old.labels (length b.old.text.locals)) b.old.text) }
    ensures labels { OnOk result (b.new.labels ≡ b.old.labels + tests_take 2 (arm_labels (arms_of arms.now)) tree.now) }
    ensures locals { OnOk result (length b.new.text.locals ≡ length b.old.text.locals + tests_take 1 (arm_locals (arms_of arms.now)) tree.now) }
    ensures limit { IfErr result (λ stop. stop ≡ Blocks → 4096 < b.old.labels + tests_take 2 (arm_labels (arms_of arms.now)) tree.now) }
    ensures most { OnOk result (b.old.labels ≤ 4096 → b.new.labels ≤ 4096) }
    ensures around { OnOk result (around c.new ≡ around c.old) }
    ensures count { OnOk result (length c.new.scope.items ≡ length c.old.scope.items) }
{
    match &*tree.node {
        DecisionNode::Leaf(number, _) => {
            lower_arm(alloc, b, c, span, ty, place, arms, *number, d)
        }
        DecisionNode::Switch(_, _) => Ok(()),
        DecisionNode::Truth(_, yes, no) => {
            let value = Rvalue::Use(Operand::Copy(same_place(alloc, place)?));
            lower_sides(alloc, b, c, span, ty, place, arms, after, value, yes, no, d)
        }
        DecisionNode::Literal(_, z, yes, no) => {
            let value = literal_test(alloc, ty, place, *z)?;
            lower_sides(alloc, b, c, span, ty, place, arms, after, value, yes, no, d)
        }
    }
}

/// Whether the value at the place is the integer.
fn literal_test(alloc: Global, ty: &Ty, place: &Place, z: i128) -> Result<Rvalue, NoMemory>
    ensures { IfOk result (λ r. r ≡ literal_rvalue ty.now place.now z) }
{
    let value = Operand::Copy(same_place(alloc, place)?);
    let literal = Operand::Const(Lit::Int(z, kind_of(ty)));
    Ok(Rvalue::Binary(BinaryOp::Eq, value, literal))
}

/// A test, which is true or not, and the tests behind it.
#[cycle(lower)]
#[tactic(auto, using(crate::proofs::Runs::running))]
fn lower_sides(
    alloc: Global,
    b: &mut Builder,
    c: &mut Around<'_>,
    span: Span,
    ty: &Ty,
    place: &Place,
    arms: &[TypedArm],
    after: Option<Label>,
    value: Rvalue,
    yes: &Decision,
    no: &Decision,
    d: u32,
) -> Result<(), Stop>
    requires scope { reach_in_arms (arms_of arms.now) ≤ length c.old.scope.items }
    requires good { bad_in_arms (arms_of arms.now) ≡ None }
    ensures text { OnOk result (b.new.text ≡ written (tested_by (around c.old) span (length b.old.text.locals) value b.old.labels after
        (tests_text (around c.old) span ty.now place.now after (arm_labels (arms_of arms.now)) (arm_locals (arms_of arms.now)) (arm_into (arms_of arms.now) (around c.old) span ty.now place.now d) yes.now (b.old.labels + 2) (length b.old.text.locals + 1))
        (tests_text (around c.old) span ty.now place.now after (arm_labels (arms_of arms.now)) (arm_locals (arms_of arms.now)) (arm_into (arms_of arms.now) (around c.old) span ty.now place.now d) no.now
        (b.old.labels + 2 + tests_take 2 (arm_labels (arms_of arms.now)) yes.now) (length b.old.text.locals + 1 + tests_take 1 (arm_locals (arms_of arms.now)) yes.now))) b.old.text) }
    ensures labels { OnOk result (b.new.labels ≡ b.old.labels + 2 + tests_take 2 (arm_labels (arms_of arms.now)) yes.now + tests_take 2 (arm_labels (arms_of arms.now)) no.now) }
    ensures locals { OnOk result (length b.new.text.locals ≡ length b.old.text.locals + 1 + tests_take 1 (arm_locals (arms_of arms.now)) yes.now + tests_take 1 (arm_locals (arms_of arms.now)) no.now) }
    ensures limit { IfErr result (λ stop. stop ≡ Blocks → 4096 < b.old.labels + 2 + tests_take 2 (arm_labels (arms_of arms.now)) yes.now + tests_take 2 (arm_labels (arms_of arms.now)) no.now) }
    ensures most { OnOk result (b.old.labels ≤ 4096 → b.new.labels ≤ 4096) }
    ensures around { OnOk result (around c.new ≡ around c.old) }
    ensures count { OnOk result (length c.new.scope.items ≡ length c.old.scope.items) }
{
    let other = begin_sides(alloc, b, c, span, value)? + 1;
    lower_tests(alloc, b, c, span, ty, place, arms, after, yes, d)?;
    let edge = TerminatorKind::Goto(edge_to(after, other));
    b.turn(alloc, c, span, edge, other)?;
    lower_tests(alloc, b, c, span, ty, place, arms, after, no, d)
}

/// The arm of the number.
#[cycle(lower)]
#[tactic(auto, using(crate::proofs::Runs::running, crate::proofs::MatchParts::arms))]
fn lower_arm(
    alloc: Global,
    b: &mut Builder,
    c: &mut Around<'_>,
    span: Span,
    ty: &Ty,
    place: &Place,
    arms: &[TypedArm],
    number: u32,
    d: u32,
) -> Result<(), Stop>
    requires scope { reach_in_arms (arms_of arms.now) ≤ length c.old.scope.items }
    requires good { bad_in_arms (arms_of arms.now) ≡ None }
    ensures text { OnOk result (b.new.text ≡ written (arm_into (arms_of arms.now) (around c.old) span ty.now place.now d number b.old.labels (length b.old.text.locals)) b.old.text) }
    ensures labels { OnOk result (b.new.labels ≡ b.old.labels + arm_labels (arms_of arms.now) number) }
    ensures locals { OnOk result (length b.new.text.locals ≡ length b.old.text.locals + arm_locals (arms_of arms.now) number) }
    ensures limit { IfErr result (λ stop. stop ≡ Blocks → 4096 < b.old.labels + arm_labels (arms_of arms.now) number) }
    ensures most { OnOk result (b.old.labels ≤ 4096 → b.new.labels ≤ 4096) }
    ensures around { OnOk result (around c.new ≡ around c.old) }
    ensures count { OnOk result (length c.new.scope.items ≡ length c.old.scope.items) }
{
    let position = number as usize;
    if position >= arms.len() {
        return Ok(());
    }
    let arm = &arms[position];
    match arm.names.len() {
        0 => lower_into(alloc, b, c, &arm.body, d),
        1 => lower_bound(alloc, b, c, span, ty, place, &arm.body, d),
        // No flat pattern of a typed match binds more.
        _ => Err(Stop::NoMemory),
    }
}

/// The body of an arm whose pattern binds a name, which is a local of its own.
#[cycle(lower)]
#[tactic(auto, using(crate::proofs::Runs::running, crate::proofs::MatchParts::binding))]
fn lower_bound(
    alloc: Global,
    b: &mut Builder,
    c: &mut Around<'_>,
    span: Span,
    ty: &Ty,
    place: &Place,
    body: &TypedExpr,
    d: u32,
) -> Result<(), Stop>
    requires scope { reach body.now ≤ length c.old.scope.items + 1 }
    requires good { bad_in body.now ≡ None }
    ensures text { OnOk result (b.new.text ≡ written (let t = length b.old.text.locals in Makes t ty.now ∷ puts span t (Use (taken (is_copied (around c.old).types ty.now) place.now)) ∷ (into body.now (binds (around c.old) t) b.old.labels (t + 1) d ++ dies_in false span t)) b.old.text) }
    ensures labels { OnOk result (b.new.labels ≡ b.old.labels + labels body.now) }
    ensures locals { OnOk result (length b.new.text.locals ≡ length b.old.text.locals + 1 + locals body.now) }
    ensures limit { IfErr result (λ stop. stop ≡ Blocks → 4096 < b.old.labels + labels body.now) }
    ensures most { OnOk result (b.old.labels ≤ 4096 → b.new.labels ≤ 4096) }
    ensures around { OnOk result (around c.new ≡ around c.old) }
    ensures count { OnOk result (length c.new.scope.items ≡ length c.old.scope.items) }
{
    let before = c.scope.len();
    let t = b.make(alloc, ty)?;
    let value = take(c.types, ty, same_place(alloc, place)?);
    b.put(alloc, span, t, Rvalue::Use(value))?;
    c.scope.push(whole(alloc, t))?;
    lower_into(alloc, b, c, body, d)?;
    end_bindings(b, c, false, span, before)?;
    Ok(())
}
