//! The step that takes off what leads a goal.
ghost use Rattle.std.specs.Prelude.{◌≡◌, ◌↔◌, ◌≤◌, ◌∷◌, ◌++◌, ◌+◌, [], length, reverse, zip, IfOk, IsTrue, MatchOption};
ghost use Rattle.text_core.specs.declared.name.Name.{Name};
ghost use Rattle.logic_term.specs.Subst.{renamed};
ghost use Rattle.proof_kernel.specs.Sequent.{Sequent};
ghost use Rattle.proof_kernel.specs.Rules.{label, sort_of, with_goal, AreNew, IsNew, TakesOff, Intros, TakesSome};
ghost use Rattle.proof_kernel.specs.Intro.{assuming, declaring, IsAbove, TakesOn};
ghost use Rattle.proof_kernel.specs.Opened.{assuming_opened, count_known, opened_variables, renames_from};
ghost use Rattle.logic_term.specs.Context.{count_variables};

use crate::opened::{Opened, count_known, renames, sorts_of};
use crate::sequent::Sequent;
use logic_term::{
    Context, Label2, Quantifier, Renaming, Sort, Term, TermBinary, TermForm, is_one_of,
};
use std::alloc::Global;
use text_core::{Items, Name, NoMemory};

// ---- new names

/// Whether the name is no variable of the sequent and free nowhere in it. What is past `above` is free nowhere.
pub(crate) fn is_new(alloc: Global, name: Name, q: &Sequent, above: u64) -> Result<bool, NoMemory>
    requires { IsAbove above q.now }
    ensures { IfOk result (λ b. IsTrue b ↔ IsNew name q.now) }
{
    if q.sort_of(name).is_some() {
        return Ok(false);
    }
    if above <= name.0 {
        return Ok(true);
    }
    q.is_free_nowhere(alloc, name)
}

/// Whether the names are new in the sequent, and no two are one.
pub(crate) fn are_new(
    alloc: Global,
    names: &[Name],
    q: &Sequent,
    above: u64,
) -> Result<bool, NoMemory>
    requires { IsAbove above q.now }
    ensures { IfOk result (λ b. IsTrue b ↔ AreNew names.now q.now) }
{
    for i in 0..names.len() {
        if !is_new(alloc, names[i], q, above)? || is_one_of(names[i], &names[i + 1..]) {
            return Ok(false);
        }
    }
    Ok(true)
}

// ---- what leads

/// A sequent without some of what leads its goal: the names that the quantifiers got, and the number of the next hypothesis. The goal
/// stays until all is taken off.
#[derive(Drop)]
struct Taken {
    q: Sequent,
    bound: Vec<Renaming>,
    part: u32,
}

impl Taken {
    /// One more hypothesis of the step.
    fn assume(self, alloc: Global, step: u32, premise: &Term) -> Result<Taken, NoMemory>
        ensures q { IfOk result (λ taken. taken.q ≡ assuming self.q (label step self.part) (renamed self.bound.items premise.now)) }
        ensures bound { IfOk result (λ taken. taken.bound.items ≡ self.bound.items) }
        ensures part { IfOk result (λ taken. taken.part ≡ self.part + 1) }
    {
        let Taken { q, mut bound, part } = self;
        let hyp = premise.renamed(alloc, &mut bound)?;
        let q = q.assuming(alloc, Label2 { step, part }, hyp)?;
        let part = part.checked_add(1).ok_or(NoMemory)?;
        Ok(Taken { q, bound, part })
    }

    /// One more variable, for a quantifier over `from`.
    fn declare(self, alloc: Global, name: Name, from: Name, sort: &Sort) -> Result<Taken, NoMemory>
        ensures q { IfOk result (λ taken. taken.q ≡ declaring self.q name sort.now) }
        ensures bound { IfOk result (λ taken. taken.bound.items ≡ self.bound.items ++ record { from = from; to = name } ∷ []) }
        ensures part { IfOk result (λ taken. taken.part ≡ self.part) }
    {
        let Taken { q, mut bound, part } = self;
        let q = q.declaring(alloc, name, sort.copy(alloc)?)?;
        bound.push(Renaming { from, to: name })?;
        Ok(Taken { q, bound, part })
    }

    /// The sequent, with what is left of the goal.
    fn ended(self, alloc: Global, goal: &Term) -> Result<Sequent, NoMemory>
        ensures { IfOk result (λ q. q ≡ with_goal self.q (renamed self.bound.items goal.now)) }
    {
        let Taken {
            q,
            mut bound,
            part: _,
        } = self;
        q.with_goal(goal.renamed(alloc, &mut bound)?)
    }
}

// ---- where taking off starts

/// What is taken off at first, how many of the names it has, and the formula that leads on. All names from `above` on are free nowhere in
/// the sequent.
#[derive(Drop)]
struct Start {
    left: Taken,
    used: usize,
    formula: Term,
    above: u64,
}

/// Nothing is taken off.
fn start_at_goal(alloc: Global, q: &Sequent) -> Result<Start, NoMemory>
    ensures goal { IfOk result (λ s. s.formula ≡ q.now.goal) }
    ensures q { IfOk result (λ s. s.left.q ≡ q.now) }
    ensures none { IfOk result (λ s. (s.left.bound.items ≡ []) × (s.left.part ≡ 1) × (s.used ≡ 0)) }
    ensures above { IfOk result (λ s. IsAbove s.above q.now) }
{
    let left = Taken {
        q: q.share()?,
        bound: Vec::new(alloc),
        part: 1,
    };
    let formula = q.goal(alloc)?;
    let above = q.above_free(alloc)?;
    Ok(Start {
        left,
        used: 0,
        formula,
        above,
    })
}

/// The sequent with a variable for each sort, the last of which stands first, under the names.
fn with_variables(
    alloc: Global,
    names: &[Name],
    q: Sequent,
    mut sorts: Vec<Sort>,
) -> Result<Sequent, NoMemory>
    requires { length sorts.items ≤ length names.now }
    ensures { IfOk result (λ r. r ≡ record { vars = q.vars ++ zip names.now (reverse sorts.items); hyps = q.hyps; goal = q.goal }) }
{
    let mut all = q;
    let mut used: usize = 0;
    while let Some(sort) = sorts.pop() {
        all = all.declaring(alloc, names[used], sort)?;
        used += 1;
    }
    Ok(all)
}

/// The sequent with what stands before a formula, under the names.
fn with_opened(
    alloc: Global,
    step: u32,
    names: &[Name],
    q: Sequent,
    context: Context,
) -> Result<Sequent, NoMemory>
    requires { count_variables context ≤ length names.now }
    ensures { IfOk result (λ r. r ≡ assuming_opened (record { vars = q.vars ++ opened_variables names.now context; hyps = q.hyps; goal = q.goal }) step names.now context) }
{
    let sorts = sorts_of(alloc, &context)?;
    let q = with_variables(alloc, names, q, sorts)?;
    let names = Items::from_slice(alloc, names)?;
    let opened = Opened {
        step,
        names,
        context,
    };
    q.assuming_opened(alloc, opened)
}

/// All that stands before the formula of the goal is taken off.
fn start_at_formula(
    alloc: Global,
    step: u32,
    names: &[Name],
    q: &Sequent,
    context: Context,
    formula: Term,
) -> Result<Start, NoMemory>
    requires { count_variables context ≤ length names.now }
    ensures goal { IfOk result (λ s. s.formula ≡ formula) }
    ensures q { IfOk result (λ s. s.left.q ≡ assuming_opened (record { vars = q.now.vars ++ opened_variables names.now context; hyps = q.now.hyps; goal = q.now.goal }) step names.now context) }
    ensures bound { IfOk result (λ s. s.left.bound.items ≡ renames_from 0 (count_variables context) names.now) }
    ensures part { IfOk result (λ s. s.left.part ≡ count_known context + 1) }
    ensures used { IfOk result (λ s. s.used ≡ count_variables context) }
    ensures above { IfOk result (λ s. s.above ≡ 0) }
{
    let count = context.count_variables()?;
    let used = usize::try_from(count).ok().ok_or(NoMemory)?;
    let part = count_known(&context)?.checked_add(1).ok_or(NoMemory)?;
    let bound = renames(alloc, count, names)?;
    let q = with_opened(alloc, step, names, q.share()?, context)?;
    let left = Taken { q, bound, part };
    Ok(Start {
        left,
        used,
        formula,
        above: 0,
    })
}

/// Where there is a name for each variable that stands before the formula of a goal, all that stands there is taken off at first.
fn started(alloc: Global, step: u32, names: &[Name], q: &Sequent) -> Result<Start, NoMemory>
    ensures takes { IfOk result (λ s. TakesOn step names.now q.now s.used s.left.part s.left.bound.items s.formula s.left.q) }
    ensures above { IfOk result (λ s. IsAbove s.above q.now) }
{
    if let Some((context, formula)) = q.opened(alloc)? {
        if context.count_variables()? <= names.len() as u64 {
            return start_at_formula(alloc, step, names, q, context, formula);
        }
    }
    start_at_goal(alloc, q)
}

// ---- the step

/// The sequent without what leads its goal, with these names for the quantifiers; `None` where a name is left that no quantifier is to have.
fn take(
    alloc: Global,
    step: u32,
    names: &[Name],
    q: &Sequent,
    start: Start,
) -> Result<Option<Sequent>, NoMemory>
    requires { TakesOn step names.now q.now start.used start.left.part start.left.bound.items start.formula start.left.q }
    ensures { IfOk result (λ o. MatchOption o
        ((p : Sequent) → TakesOff step names.now q.now p → ⊥)
        (λ r. TakesOff step names.now q.now r)) }
{
    let Start {
        mut left,
        mut used,
        formula,
        above: _,
    } = start;
    let mut goal = &formula;
    let mut leads = true;
    while leads {
        match goal.form() {
            TermForm::Binary(TermBinary::Implies, premise, rest) => {
                left = left.assume(alloc, step, premise)?;
                goal = rest;
            }
            TermForm::Quantified(Quantifier::Forall, from, sort, body) if used < names.len() => {
                left = left.declare(alloc, names[used], from, sort)?;
                used += 1;
                goal = body;
            }
            _ => leads = false,
        }
    }
    if used < names.len() {
        return Ok(None);
    }
    let q = left.ended(alloc, goal)?;
    Ok(Some(q))
}

/// Whether there is something to be taken off: a name, or a premise.
fn takes_some(alloc: Global, names: &[Name], q: &Sequent) -> Result<bool, NoMemory>
    ensures { IfOk result (λ b. IsTrue b ↔ TakesSome names.now q.now) }
{
    if !names.is_empty() {
        return Ok(true);
    }
    let goal = q.goal(alloc)?;
    Ok(goal.is_implication())
}

/// The premise of a step that takes off what leads the goal, with these names for the quantifiers; `None` exactly where no such step applies.
pub fn intro(
    alloc: Global,
    step: u32,
    names: &[Name],
    q: &Sequent,
) -> Result<Option<Sequent>, NoMemory>
    ensures { IfOk result (λ o. MatchOption o
        ((p : Sequent) → TakesSome names.now q.now → Intros step names.now q.now p → ⊥)
        (λ r. TakesSome names.now q.now × Intros step names.now q.now r)) }
{
    let some = takes_some(alloc, names, q)?;
    if !some {
        return Ok(None);
    }
    let start = started(alloc, step, names, q)?;
    let new = are_new(alloc, names, q, start.above)?;
    if !new {
        return Ok(None);
    }
    take(alloc, step, names, q, start)
}
