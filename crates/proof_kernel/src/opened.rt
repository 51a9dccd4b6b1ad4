//! What is known before the formula of a goal, as hypotheses under names. Each of them is made where it is looked up.
ghost use Rattle.std.specs.Prelude.{◌≡◌, ◌≤◌, reverse, IfOk, false, if◌then◌else◌};
ghost use Rattle.logic_term.specs.Free.{free};
ghost use Rattle.text_core.specs.declared.name.Name.{Name};
ghost use Rattle.proof_kernel.specs.Dropped.{free_but_in, is_dropped};
ghost use Rattle.proof_kernel.specs.Opened.{EntriesAreTakenOff, count_known, known_under, opened_hypotheses, renames_from, sorts_in};
ghost use Rattle.proof_kernel.specs.Rules.{hypothesis, free_in_hyps};

use logic_term::{Context, Entry, Label2, Renaming, Sort, Term};
use std::alloc::Global;
use text_core::{Items, Name, NoMemory};

/// Numbered entries are taken off at once.
fn entries_are_taken_off()
    ensures { EntriesAreTakenOff }
{}

/// What stands before the formula of a goal, with names for its variables. What is known there are the hypotheses of the step.
#[derive(Drop)]
pub(crate) struct Opened {
    pub(crate) step: u32,
    pub(crate) names: Items<Name>,
    pub(crate) context: Context,
}

/// How many formulas are known.
pub(crate) fn count_known(context: &Context) -> Result<u32, NoMemory>
    ensures { IfOk result (λ n. n ≡ count_known context.now) }
{
    let mut count: u32 = 0;
    let mut here = context;
    while let Some((entry, before)) = here.last() {
        if let Entry::Known(_) = entry {
            count = count.checked_add(1).ok_or(NoMemory)?;
        }
        here = before;
    }
    Ok(count)
}

/// The sorts of the variables, the last one first.
pub(crate) fn sorts_of(alloc: Global, context: &Context) -> Result<Vec<Sort>, NoMemory>
    ensures { IfOk result (λ v. reverse v.items ≡ sorts_in context.now) }
{
    let mut sorts = Vec::new(alloc);
    let mut here = context;
    while let Some((entry, before)) = here.last() {
        if let Entry::Variable(_, sort) = entry {
            sorts.push(sort.copy(alloc)?)?;
        }
        here = before;
    }
    Ok(sorts)
}

/// So many numbers, from 0 on, get the names at their places.
pub(crate) fn renames(alloc: Global, count: u64, names: &[Name]) -> Result<Vec<Renaming>, NoMemory>
    ensures { IfOk result (λ v. v.items ≡ renames_from 0 count names.now) }
{
    let mut all = Vec::new(alloc);
    let mut number: u64 = 0;
    for i in 0..names.len() {
        if number == count {
            return Ok(all);
        }
        all.push(Renaming {
            from: Name(number),
            to: names[i],
        })?;
        number += 1;
    }
    Ok(all)
}

/// Whether the label is one of these.
pub(crate) fn is_dropped(label: Label2, dropped: &[Label2]) -> bool
    ensures { result ≡ is_dropped label dropped.now }
{
    dropped.iter().any(|other| other.step == label.step && other.part == label.part)
}

/// The known formula behind the entries, under the names.
pub(crate) fn known_under(
    alloc: Global,
    names: &[Name],
    before: &Context,
    known: &Term,
) -> Result<Term, NoMemory>
    ensures { IfOk result (λ t. t ≡ known_under names.now before.now known.now) }
{
    let numbered = before.numbered_term(alloc, known)?;
    let mut bound = renames(alloc, before.count_variables()?, names)?;
    numbered.renamed(alloc, &mut bound)
}

impl Opened {
    /// The hypothesis of the label.
    pub(crate) fn hypothesis(&self, alloc: Global, label: Label2) -> Result<Option<Term>, NoMemory>
        ensures { IfOk result (λ o. o ≡ hypothesis label (opened_hypotheses self.now.step self.now.names self.now.context)) }
    {
        if label.step != self.step {
            return Ok(None);
        }
        let mut part = count_known(&self.context)?;
        let mut here = &self.context;
        while let Some((entry, before)) = here.last() {
            if let Entry::Known(known) = entry {
                if part == label.part {
                    let hyp = known_under(alloc, self.names.as_slice(), before, known)?;
                    return Ok(Some(hyp));
                }
                part -= 1;
            }
            here = before;
        }
        Ok(None)
    }

    /// Whether the name is free in the known formula behind the entries, unless that is dropped.
    fn is_free_in_known(
        &self,
        alloc: Global,
        name: Name,
        dropped: bool,
        before: &Context,
        known: &Term,
    ) -> Result<bool, NoMemory>
        ensures { IfOk result (λ b. b ≡ (if dropped then false else free name (known_under self.now.names before.now known.now))) }
    {
        if dropped {
            return Ok(false);
        }
        let hyp = known_under(alloc, self.names.as_slice(), before, known)?;
        hyp.free_in(alloc, name)
    }

    /// Whether the name is free in a hypothesis that has none of these labels.
    pub(crate) fn is_free(
        &self,
        alloc: Global,
        name: Name,
        dropped: &[Label2],
    ) -> Result<bool, NoMemory>
        ensures { IfOk result (λ b. b ≡ free_but_in name dropped.now (opened_hypotheses self.now.step self.now.names self.now.context)) }
    {
        let step = self.step;
        let mut part = count_known(&self.context)?;
        let mut here = &self.context;
        while let Some((entry, before)) = here.last() {
            if let Entry::Known(known) = entry {
                let passed = is_dropped(Label2 { step, part }, dropped);
                if self.is_free_in_known(alloc, name, passed, before, known)? {
                    return Ok(true);
                }
                part -= 1;
            }
            here = before;
        }
        Ok(false)
    }

    /// A number past all names that are free in the hypotheses, and at least the other number.
    pub(crate) fn above(&self, alloc: Global, least: u64) -> Result<u64, NoMemory>
        ensures least { IfOk result (λ n. least ≤ n) }
        ensures above { IfOk result (λ n. (x : Name) → n ≤ x.0 → free_in_hyps x (opened_hypotheses self.now.step self.now.names self.now.context) ≡ false) }
    {
        let mut most = least;
        let mut here = &self.context;
        while let Some((entry, before)) = here.last() {
            if let Entry::Known(known) = entry {
                let hyp = known_under(alloc, self.names.as_slice(), before, known)?;
                most = most.max(hyp.above_free(alloc)?);
            }
            here = before;
        }
        Ok(most)
    }
}
