ghost use Rattle.std.specs.Prelude.{◌≡◌, ◌↔◌, ℕ, ◌+◌, ◌<◌, ◌^◌, ◌∷◌, ◌++◌, [], false, true, reverse, IfOk, OnOk, OnErr, IsTrue, Ok, Err};
ghost use Rattle.std.specs.List.{list_all};
ghost use Rattle.std.specs.Option.{option_copied};
ghost use Rattle.proof_kernel.specs.declared.step.Step.TheVariants as kinds;
ghost use Rattle.proof_kernel.specs.Accepts.{begun};
ghost use Rattle.proof_kernel.specs.Kernel.{Applies, CanBeDone, FitsNoRule, IsTooWide, IsWide, NothingApplies, UnlessNoMemory, first_of, is_above, cites_above};
ghost use Rattle.proof_kernel.specs.Made.{IsMade, IsMadeFirst, others_of};
ghost use Rattle.proof_kernel.specs.Setting.{setting};
ghost use Rattle.proof_kernel.specs.Steps.{label_of_target, labels_in, labels_of};
ghost use Rattle.proof_kernel.specs.Rules.{free_in_hyps};
ghost use Rattle.proof_kernel.specs.VariantRules.{AllNew};

use crate::decide_rule::decide_rule;
use crate::goal_rules::goal_rule;
use crate::hypothesis_rules::hypothesis_rule;
use crate::instances::instance_rule;
use crate::intro::intro;
use crate::linear::{LinAnswer, certifies};
use crate::pair_rules::pair_rule;
use crate::rewrite_rules::rewrite_rule;
use crate::rules::{is_hypothesis, one_premise, split};
use crate::sequent::Sequent;
use crate::setting::{Scope, Tables};
use crate::step::{
    GoalRule, HypothesisRule, Multiple, PairRule, Reference, Rewriting, Step, Target, TermRule,
};
use crate::term_rules::{division_rule, term_rule};
use crate::unpack_rule::{is_new_in, unpack_rule};
use crate::variant_rules::{are_all_new, induction_rule, variants_rule};
use logic_term::{Label2, Obligation};
use source_trees::Pterm;
use std::alloc::Global;
use std::marker::Model;
use text_core::{Items, Name, NoMemory};
use thiserror::Error;

/// Why a step is refused. `step` is the number of the refused step.
#[derive(Clone, Copy, Debug, Error)]
pub enum StepError {
    /// A cited step is not above this one.
    #[error("step {step} cites a step that is not above it")]
    UnknownStep { step: u32 },
    /// A number of a certificate passes 128 bits signed.
    #[error("a number of step {step} passes 128 bits")]
    TooWide { step: u32 },
    /// No case of the rules fits.
    #[error("no rule fits step {step}")]
    RuleFails { step: u32 },
    #[error("out of memory")]
    NoMemory,
}

impl From<NoMemory> for StepError {
    ghost use Rattle.std.specs.Prelude.{◌≡◌};
    ghost use Rattle.proof_kernel.specs.declared.kernel.StepError.TheVariants as errors;

    ghost from_gives = { λ _ e. e ≡ errors.NoMemory };

    fn from(_refused: NoMemory) -> StepError {
        StepError::NoMemory
    }
}

/// A proof under way: what it is about, the number of the next step, from 1, and the sequents that are left, the first one first.
#[derive(Drop)]
pub struct Kernel<'a> {
    scope: Scope<'a>,
    step: u32,
    /// The first sequent stands last.
    stack: Vec<Sequent>,
}

impl<'a> Model for Kernel<'a> {
    ghost use Rattle.proof_kernel.specs.Progress.{Progress};
    ghost use Rattle.proof_kernel.specs.ProgressCode.{coded_progress};

    ghost Value = { Progress };

    ghost coded = { coded_progress };

    ghost use Rattle.std.specs.Prelude.{reverse};
    ghost use Rattle.proof_kernel.specs.Setting.{setting};

    ghost view = { λ k. record { setting = setting k.scope; step = k.step; left = reverse k.stack.items } };
}

fn is_label_above(step: u32, label: Label2) -> bool
    ensures { result ≡ is_above step label }
{
    0 < label.step && label.step < step
}

fn is_in_order(step: u32, reference: Reference) -> bool
    ensures { result ≡ list_all (is_above step) (labels_in reference) }
{
    match reference {
        Reference::Goal => true,
        Reference::Hyp(label) => is_label_above(step, label),
        Reference::Back(label) => is_label_above(step, label),
    }
}

fn are_in_order(step: u32, multiples: &[Multiple]) -> bool
    ensures { result ≡ list_all (λ m. list_all (is_above step) (labels_in m.of)) multiples.now }
{
    multiples.iter().all(|m| is_in_order(step, m.of))
}

fn is_rewriting_in_order(step: u32, rewriting: Rewriting) -> bool
    ensures { result ≡ list_all (is_above step) (labels_of (kinds.Rewrite rewriting)) }
{
    is_label_above(step, rewriting.equation) && is_target_in_order(step, rewriting.target)
}

fn is_target_in_order(step: u32, target: Target) -> bool
    ensures { result ≡ list_all (is_above step) (label_of_target target) }
{
    match target {
        Target::Goal => true,
        Target::Hyp(label) => is_label_above(step, label),
    }
}

/// Whether each step that the step with this number cites is above it.
fn cites_in_order(number: u32, step: &Step) -> bool
    ensures { result ≡ cites_above number step.now }
{
    match step {
        Step::Hyp(label) => is_label_above(number, *label),
        Step::Lin(multiples) => are_in_order(number, multiples.as_slice()),
        Step::OnHypothesis(_, label) => is_label_above(number, *label),
        Step::OnTwo(_, first, second) => {
            is_label_above(number, *first) && is_label_above(number, *second)
        }
        Step::Rewrite(rewriting) => is_rewriting_in_order(number, *rewriting),
        Step::Decide(label, target) => {
            is_label_above(number, *label) && is_target_in_order(number, *target)
        }
        Step::Instantiate(label, _) => is_label_above(number, *label),
        Step::Unpack(label, _) => is_label_above(number, *label),
        Step::Intro(_) | Step::Split | Step::OnGoal(_) => true,
        Step::OnTerm(_, _) | Step::Divide(_, _) => true,
        Step::ByVariants(_, _) | Step::Induct(_, _) => true,
    }
}

/// What a step makes of a sequent.
#[derive(Drop)]
enum Made {
    Premises(Vec<Sequent>),
    /// A number of the step's certificate passes 128 bits.
    TooWide,
    /// No case of the rules fits.
    Nothing,
}

fn by_intro(
    alloc: Global,
    scope: &Scope<'_>,
    number: u32,
    names: &Items<Name>,
    q: &Sequent,
) -> Result<Made, NoMemory>
    ensures { IfOk result (λ made. IsMade (setting scope.now) number q.now (kinds.Intro names.now) made) }
{
    match intro(alloc, number, names.as_slice(), q)? {
        None => Ok(Made::Nothing),
        Some(premise) => {
            let premises = one_premise(alloc, premise)?;
            Ok(Made::Premises(premises))
        }
    }
}

fn by_hyp(
    alloc: Global,
    scope: &Scope<'_>,
    number: u32,
    label: Label2,
    q: &Sequent,
) -> Result<Made, NoMemory>
    ensures { IfOk result (λ made. IsMade (setting scope.now) number q.now (kinds.Hyp label) made) }
{
    if is_hypothesis(alloc, label, q)? {
        Ok(Made::Premises(Vec::new(alloc)))
    } else {
        Ok(Made::Nothing)
    }
}

fn by_split(alloc: Global, scope: &Scope<'_>, number: u32, q: &Sequent) -> Result<Made, NoMemory>
    ensures { IfOk result (λ made. IsMade (setting scope.now) number q.now kinds.Split made) }
{
    match split(alloc, q)? {
        None => Ok(Made::Nothing),
        Some(premises) => Ok(Made::Premises(premises)),
    }
}

fn by_lin(
    alloc: Global,
    scope: &Scope<'_>,
    number: u32,
    multiples: &Items<Multiple>,
    q: &Sequent,
) -> Result<Made, NoMemory>
    ensures { IfOk result (λ made. IsMade (setting scope.now) number q.now (kinds.Lin multiples.now) made) }
{
    if multiples.len() > u32::MAX as usize {
        return Err(NoMemory);
    }
    match certifies(alloc, q, multiples.as_slice())? {
        LinAnswer::Closes => Ok(Made::Premises(Vec::new(alloc))),
        LinAnswer::TooWide => Ok(Made::TooWide),
        LinAnswer::Fails => Ok(Made::Nothing),
    }
}

fn by_goal(
    alloc: Global,
    scope: &Scope<'_>,
    number: u32,
    rule: GoalRule,
    q: &Sequent,
) -> Result<Made, NoMemory>
    ensures { IfOk result (λ made. IsMade (setting scope.now) number q.now (kinds.OnGoal rule) made) }
{
    match goal_rule(alloc, rule, number, q)? {
        None => Ok(Made::Nothing),
        Some(premises) => Ok(Made::Premises(premises)),
    }
}

fn by_hypothesis(
    alloc: Global,
    scope: &Scope<'_>,
    number: u32,
    rule: HypothesisRule,
    label: Label2,
    q: &Sequent,
) -> Result<Made, NoMemory>
    ensures { IfOk result (λ made. IsMade (setting scope.now) number q.now (kinds.OnHypothesis rule label) made) }
{
    match hypothesis_rule(alloc, rule, number, label, q)? {
        None => Ok(Made::Nothing),
        Some(premises) => Ok(Made::Premises(premises)),
    }
}

fn by_two(
    alloc: Global,
    scope: &Scope<'_>,
    number: u32,
    rule: PairRule,
    first: Label2,
    second: Label2,
    q: &Sequent,
) -> Result<Made, NoMemory>
    ensures { IfOk result (λ made. IsMade (setting scope.now) number q.now (kinds.OnTwo rule first second) made) }
{
    match pair_rule(alloc, rule, number, first, second, q)? {
        None => Ok(Made::Nothing),
        Some(premises) => Ok(Made::Premises(premises)),
    }
}

fn by_rewriting(
    alloc: Global,
    scope: &Scope<'_>,
    number: u32,
    rewriting: Rewriting,
    q: &Sequent,
) -> Result<Made, NoMemory>
    ensures { IfOk result (λ made. IsMade (setting scope.now) number q.now (kinds.Rewrite rewriting) made) }
{
    match rewrite_rule(alloc, rewriting, number, q)? {
        None => Ok(Made::Nothing),
        Some(premises) => Ok(Made::Premises(premises)),
    }
}

fn by_deciding(
    alloc: Global,
    scope: &Scope<'_>,
    number: u32,
    label: Label2,
    target: Target,
    q: &Sequent,
) -> Result<Made, NoMemory>
    ensures { IfOk result (λ made. IsMade (setting scope.now) number q.now (kinds.Decide label target) made) }
{
    match decide_rule(alloc, number, label, target, q)? {
        None => Ok(Made::Nothing),
        Some(premises) => Ok(Made::Premises(premises)),
    }
}

fn by_term(
    alloc: Global,
    scope: &Scope<'_>,
    number: u32,
    rule: TermRule,
    t: &Pterm,
    q: &Sequent,
) -> Result<Made, NoMemory>
    ensures { IfOk result (λ made. IsMade (setting scope.now) number q.now (kinds.OnTerm rule t.now) made) }
{
    let adts = scope.tables.adts.as_slice();
    match term_rule(alloc, adts, rule, number, t, q)? {
        None => Ok(Made::Nothing),
        Some(premises) => Ok(Made::Premises(premises)),
    }
}

fn by_division(
    alloc: Global,
    scope: &Scope<'_>,
    number: u32,
    t: &Pterm,
    u: &Pterm,
    q: &Sequent,
) -> Result<Made, NoMemory>
    ensures { IfOk result (λ made. IsMade (setting scope.now) number q.now (kinds.Divide t.now u.now) made) }
{
    let adts = scope.tables.adts.as_slice();
    match division_rule(alloc, adts, number, t, u, q)? {
        None => Ok(Made::Nothing),
        Some(premises) => Ok(Made::Premises(premises)),
    }
}

fn by_instance(
    alloc: Global,
    scope: &Scope<'_>,
    number: u32,
    label: Label2,
    ts: &Items<Pterm>,
    q: &Sequent,
) -> Result<Made, NoMemory>
    ensures { IfOk result (λ made. IsMade (setting scope.now) number q.now (kinds.Instantiate label ts.now) made) }
{
    let adts = scope.tables.adts.as_slice();
    match instance_rule(alloc, adts, number, label, ts.as_slice(), q)? {
        None => Ok(Made::Nothing),
        Some(premises) => Ok(Made::Premises(premises)),
    }
}

fn by_unpacking(
    alloc: Global,
    scope: &Scope<'_>,
    number: u32,
    label: Label2,
    name: Name,
    q: &Sequent,
) -> Result<Made, NoMemory>
    ensures { IfOk result (λ made. IsMade (setting scope.now) number q.now (kinds.Unpack label name) made) }
{
    if !is_new_in(alloc, name, q)? {
        return Ok(Made::Nothing);
    }
    match unpack_rule(alloc, number, label, name, q)? {
        None => Ok(Made::Nothing),
        Some(premises) => Ok(Made::Premises(premises)),
    }
}

fn by_variants(
    alloc: Global,
    scope: &Scope<'_>,
    number: u32,
    t: &Pterm,
    names: &Items<Items<Name>>,
    q: &Sequent,
) -> Result<Made, NoMemory>
    ensures { IfOk result (λ made. IsMade (setting scope.now) number q.now (kinds.ByVariants t.now names.now) made) }
{
    if !are_all_new(alloc, names.as_slice(), q)? {
        return Ok(Made::Nothing);
    }
    let adts = scope.tables.adts.as_slice();
    match variants_rule(alloc, adts, number, t, names.as_slice(), q)? {
        None => Ok(Made::Nothing),
        Some(premises) => Ok(Made::Premises(premises)),
    }
}

/// Whether the name is free in a hypothesis, or a name of the lists is not new.
fn is_hindered(
    alloc: Global,
    name: Name,
    names: &[Items<Name>],
    q: &Sequent,
) -> Result<bool, NoMemory>
    ensures { IfOk result (λ b. (b ≡ false) ↔ (AllNew names.now q.now × (free_in_hyps name q.now.hyps ≡ false))) }
{
    if !are_all_new(alloc, names, q)? {
        return Ok(true);
    }
    q.is_free_in_hypotheses(alloc, name)
}

fn by_induction(
    alloc: Global,
    scope: &Scope<'_>,
    number: u32,
    name: Name,
    names: &Items<Items<Name>>,
    q: &Sequent,
) -> Result<Made, NoMemory>
    ensures { IfOk result (λ made. IsMade (setting scope.now) number q.now (kinds.Induct name names.now) made) }
{
    if is_hindered(alloc, name, names.as_slice(), q)? {
        return Ok(Made::Nothing);
    }
    let adts = scope.tables.adts.as_slice();
    match induction_rule(alloc, adts, number, name, names.as_slice(), q)? {
        None => Ok(Made::Nothing),
        Some(premises) => Ok(Made::Premises(premises)),
    }
}

/// What the step with this number makes of the sequent.
fn made_of(
    alloc: Global,
    scope: &Scope<'_>,
    number: u32,
    step: &Step,
    q: &Sequent,
) -> Result<Made, NoMemory>
    ensures { IfOk result (λ made. IsMade (setting scope.now) number q.now step.now made) }
{
    match step {
        Step::Intro(names) => by_intro(alloc, scope, number, names, q),
        Step::Hyp(label) => by_hyp(alloc, scope, number, *label, q),
        Step::Split => by_split(alloc, scope, number, q),
        Step::Lin(multiples) => by_lin(alloc, scope, number, multiples, q),
        Step::OnGoal(rule) => by_goal(alloc, scope, number, *rule, q),
        Step::OnHypothesis(rule, label) => by_hypothesis(alloc, scope, number, *rule, *label, q),
        Step::OnTwo(rule, first, second) => {
            by_two(alloc, scope, number, *rule, *first, *second, q)
        }
        Step::Rewrite(rewriting) => by_rewriting(alloc, scope, number, *rewriting, q),
        Step::Decide(label, target) => by_deciding(alloc, scope, number, *label, *target, q),
        Step::OnTerm(rule, t) => by_term(alloc, scope, number, *rule, t, q),
        Step::Divide(t, u) => by_division(alloc, scope, number, t, u, q),
        Step::Instantiate(label, ts) => by_instance(alloc, scope, number, *label, ts, q),
        Step::Unpack(label, name) => by_unpacking(alloc, scope, number, *label, *name, q),
        Step::ByVariants(t, names) => by_variants(alloc, scope, number, t, names, q),
        Step::Induct(name, names) => by_induction(alloc, scope, number, *name, names, q),
    }
}

/// The same at the last sequent of the stack; nothing where it is empty.
fn made_of_last(
    alloc: Global,
    scope: &Scope<'_>,
    number: u32,
    step: &Step,
    stack: &[Sequent],
) -> Result<Made, NoMemory>
    ensures { IfOk result (λ made. IsMadeFirst (setting scope.now) number (reverse stack.now) step.now made) }
{
    match stack.last() {
        None => Ok(Made::Nothing),
        Some(q) => made_of(alloc, scope, number, step, q),
    }
}

/// Puts the premises in the place of the last sequent, the first of them last. For want of memory nothing changes.
fn replace_last(stack: &mut Vec<Sequent>, mut premises: Vec<Sequent>) -> Result<(), NoMemory>
    ensures ok { OnOk result (reverse stack.new.items ≡ premises.items ++ others_of (reverse stack.old.items)) }
    ensures err { OnErr result (stack.new.items ≡ stack.old.items) }
{
    premises.reverse();
    stack.reserve(premises.len())?;
    let _replaced = stack.pop();
    stack.append(&mut premises)?;
    Ok(())
}

impl<'a> Kernel<'a> {
    /// The proof of an obligation under way, with these tables: its goal alone, at step 1.
    pub fn new(
        alloc: Global,
        goal: &'a Obligation,
        tables: &'a Tables,
    ) -> Result<Kernel<'a>, NoMemory>
        ensures { IfOk result (λ k. k ≡ begun tables.now goal.now) }
    {
        let q = Sequent::whole(alloc, goal.goal.share()?)?;
        let stack = one_premise(alloc, q)?;
        let scope = Scope {
            tables,
            obligation: goal,
        };
        Ok(Kernel {
            scope,
            step: 1,
            stack,
        })
    }

    /// Does the step at the first sequent, whose place its premises take. A refused step changes nothing. `UnknownStep`
    /// is looked at first, and `TooWide` before `RuleFails`.
    ///
    /// # Errors
    ///
    /// `UnknownStep` where a cited step is not above this one, `TooWide` where else a number of the certificate passes
    /// 128 bits, `RuleFails` where else no rule fits, each with the number of this step; and `NoMemory`.
    pub fn apply(&mut self, alloc: Global, step: &Step) -> Result<(), StepError>
        requires { self.old.step + 1 < 2 ^ 32 }
        ensures ok { OnOk result (Applies self.old step.now self.new × (cites_above self.old.step step.now ≡ true)) }
        ensures err { OnErr result (self.new ≡ self.old) }
        ensures unknown { (n : ℕ) → (result ≡ Err (StepError.UnknownStep n)) ↔ ((n ≡ self.old.step) × (cites_above self.old.step step.now ≡ false)) }
        ensures wide { (n : ℕ) → result ≡ Err (StepError.TooWide n) → (n ≡ self.old.step) × (cites_above self.old.step step.now ≡ true) × IsWide self.old step.now }
        ensures fails { (n : ℕ) → result ≡ Err (StepError.RuleFails n) → (n ≡ self.old.step) × (cites_above self.old.step step.now ≡ true) × (IsWide self.old step.now → ⊥) × NothingApplies self.old step.now }
        // And each answer comes where it is due, or memory was refused.
        ensures done_where_due { CanBeDone self.old step.now → UnlessNoMemory result (Ok tt) }
        ensures wide_where_due { IsTooWide self.old step.now → UnlessNoMemory result (Err (StepError.TooWide self.old.step)) }
        ensures fails_where_due { FitsNoRule self.old step.now → UnlessNoMemory result (Err (StepError.RuleFails self.old.step)) }
    {
        let number = self.step;
        if !cites_in_order(number, step) {
            return Err(StepError::UnknownStep { step: number });
        }
        match made_of_last(alloc, &self.scope, number, step, self.stack.as_slice())? {
            Made::Premises(premises) => {
                replace_last(&mut self.stack, premises)?;
                self.step = number + 1;
                Ok(())
            }
            Made::TooWide => Err(StepError::TooWide { step: number }),
            Made::Nothing => Err(StepError::RuleFails { step: number }),
        }
    }

    /// Whether no sequent is left.
    pub fn closed(&self) -> bool
        ensures { IsTrue result ↔ (self.now.left ≡ []) }
    {
        self.stack.is_empty()
    }

    /// The sequent that the next step acts on; `None` exactly where the proof is closed.
    pub fn first(&self) -> Option<&Sequent>
        ensures { option_copied result ≡ first_of self.now.left }
    {
        self.stack.last()
    }
}
