//! The local context of a sequent: its variables and its hypotheses.
ghost use Rattle.std.specs.Prelude.{◌≡◌, ◌↔◌, ◌≤◌, ◌∷◌, [], IfOk, IsTrue, MatchOption, Some, None, if◌then◌else◌, false};
ghost use Rattle.std.specs.Option.{option_copied, option_or};
ghost use Rattle.text_core.specs.declared.name.Name.{Name};
ghost use Rattle.logic_term.specs.Canonical.{above_free};
ghost use Rattle.proof_kernel.specs.Rules.{hypothesis, sort_of, free_in_hyps};
ghost use Rattle.logic_term.specs.Free.{free};
ghost use Rattle.proof_kernel.specs.Dropped.{free_but_in};
ghost use Rattle.proof_kernel.specs.LocalContext.{variables_in, hypotheses_in, drops, removes, with_dropped};

use crate::opened::{Opened, is_dropped};
use logic_term::{Label2, Sort, Term};
use std::alloc::Global;
use std::marker::Model;
use std::rc::Rc;
use text_core::{Name, NoMemory};

/// A variable with its sort, a hypothesis with its label, the hypotheses of a context that was taken off under names, or that the earlier
/// hypothesis of the label is forgotten, or the earlier variables of the name.
#[derive(Drop)]
pub(crate) enum LocalEntry {
    Variable(Name, Sort),
    Hypothesis(Label2, Term),
    Opened(Opened),
    Dropped(Label2),
    Removed(Name),
}

/// The variables and the hypotheses of a sequent, shared with the premises that have them too. Contracts see the list of the entries,
/// the last one first.
#[cycle(local_context)]
pub(crate) struct LocalContext {
    link: Rc<LocalLink>,
}

/// The last entry, and those before it.
#[cycle(local_context)]
#[derive(Drop)]
pub(crate) enum LocalLink {
    Start,
    After(LocalEntry, LocalContext),
}

impl Model for LocalContext {
    ghost use Rattle.std.specs.Prelude.{List, length};
    ghost use Rattle.std.specs.Coded.{coded_list};
    ghost use Rattle.proof_kernel.specs.contracts.local_context.LocalEntry as entries;
    ghost use Rattle.proof_kernel.specs.declared.local_context.LocalEntry.{LocalEntry as EntryValue};

    ghost Value = { List EntryValue };

    ghost coded = { coded_list entries.the_row.coded };

    ghost use Rattle.proof_kernel.specs.LocalContextView.{entries_of};

    ghost view = { λ c. entries_of c.link.value };

    ghost size = { length };

    ghost use Rattle.proof_kernel.specs.LocalContextFalls.{falls};

    ghost size_decreases = { λ a h. falls a.link.value };
}

// By a loop, so that a long context does not run out of stack.
impl Drop for LocalContext {
    fn drop(mut self) {
        loop {
            let LocalContext { link } = self;
            match Rc::into_inner(link) {
                Some(LocalLink::After(_, before)) => self = before,
                Some(LocalLink::Start) | None => return,
            }
        }
    }
}

/// The sort of the variable, where the entry is this one.
fn sort_at(entry: &LocalEntry, name: Name) -> Option<&Sort>
    ensures { option_copied result ≡ sort_of name (variables_in (entry.now ∷ [])) }
{
    match entry {
        LocalEntry::Variable(other, sort) if name.0 == other.0 => Some(sort),
        _ => None,
    }
}

fn shared_if(alloc: Global, holds: bool, hyp: &Term) -> Result<Option<Term>, NoMemory>
    ensures { IfOk result (λ o. o ≡ (if holds then Some hyp.now else None)) }
{
    if holds {
        let hyp = hyp.share()?;
        Ok(Some(hyp))
    } else {
        Ok(None)
    }
}

/// The hypothesis of the label, where the entry has it.
fn hypothesis_at(alloc: Global, entry: &LocalEntry, label: Label2) -> Result<Option<Term>, NoMemory>
    ensures { IfOk result (λ o. o ≡ hypothesis label (hypotheses_in (entry.now ∷ []))) }
{
    match entry {
        LocalEntry::Variable(_, _) => Ok(None),
        LocalEntry::Hypothesis(other, hyp) => {
            let same = label.step == other.step && label.part == other.part;
            shared_if(alloc, same, hyp)
        }
        LocalEntry::Opened(opened) => opened.hypothesis(alloc, label),
        LocalEntry::Dropped(_) | LocalEntry::Removed(_) => Ok(None),
    }
}

/// Whether the entry takes out the variables of the name.
fn removes(entry: &LocalEntry, name: Name) -> bool
    ensures { result ≡ removes entry.now name }
{
    match entry {
        LocalEntry::Removed(other) => other.0 == name.0,
        _ => false,
    }
}

/// Whether the entry forgets the hypothesis of the label.
fn drops(entry: &LocalEntry, label: Label2) -> bool
    ensures { result ≡ drops entry.now label }
{
    match entry {
        LocalEntry::Dropped(other) => label.step == other.step && label.part == other.part,
        _ => false,
    }
}

/// The hypothesis of the earlier entry, where both have one.
fn first_of(earlier: Option<Term>, later: Option<Term>) -> Option<Term>
    ensures { result ≡ option_or earlier later }
{
    earlier.or(later)
}

fn is_free_unless(alloc: Global, dropped: bool, hyp: &Term, name: Name) -> Result<bool, NoMemory>
    ensures { IfOk result (λ b. b ≡ (if dropped then false else free name hyp.now)) }
{
    if dropped {
        return Ok(false);
    }
    hyp.free_in(alloc, name)
}

/// Whether the name is free in the entry's hypotheses but for those of these labels.
fn is_free_at(
    alloc: Global,
    entry: &LocalEntry,
    name: Name,
    dropped: &[Label2],
) -> Result<bool, NoMemory>
    ensures { IfOk result (λ b. b ≡ free_but_in name dropped.now (hypotheses_in (entry.now ∷ []))) }
{
    match entry {
        LocalEntry::Variable(_, _) | LocalEntry::Dropped(_) | LocalEntry::Removed(_) => Ok(false),
        LocalEntry::Hypothesis(label, hyp) => {
            is_free_unless(alloc, is_dropped(*label, dropped), hyp, name)
        }
        LocalEntry::Opened(opened) => opened.is_free(alloc, name, dropped),
    }
}

/// One more label, where the entry forgets one.
fn add_dropped(entry: &LocalEntry, dropped: &mut Vec<Label2>) -> Result<(), NoMemory>
    ensures { IfOk result (λ _. dropped.new.items ≡ with_dropped entry.now dropped.old.items) }
{
    if let LocalEntry::Dropped(label) = entry {
        dropped.push(*label)?;
    }
    Ok(())
}

/// A number past all names that are free in the entry's hypotheses, and at least the other number.
#[tactic(auto, using(crate::proofs::IntroLaw::not_free_above))]
fn above_entry(alloc: Global, entry: &LocalEntry, most: u64) -> Result<u64, NoMemory>
    ensures most { IfOk result (λ n. most ≤ n) }
    ensures above { IfOk result (λ n. (x : Name) → n ≤ x.0 → free_in_hyps x (hypotheses_in (entry.now ∷ [])) ≡ false) }
{
    match entry {
        LocalEntry::Variable(_, _) => Ok(most),
        LocalEntry::Hypothesis(_, hyp) => Ok(most.max(hyp.above_free(alloc)?)),
        LocalEntry::Opened(opened) => opened.above(alloc, most),
        LocalEntry::Dropped(_) | LocalEntry::Removed(_) => Ok(most),
    }
}

impl LocalContext {
    /// No entries.
    pub(crate) fn new(alloc: Global) -> Result<LocalContext, NoMemory>
        ensures { IfOk result (λ c. c ≡ []) }
    {
        let link = Rc::new(alloc, LocalLink::Start)?;
        Ok(LocalContext { link })
    }

    /// The same entries, shared. Want of memory is answered where they are shared too often to be counted.
    pub(crate) fn share(&self) -> Result<LocalContext, NoMemory>
        ensures { IfOk result (λ c. c ≡ self.now) }
    {
        let link = self.link.clone()?;
        Ok(LocalContext { link })
    }

    /// One more entry, behind the others.
    pub(crate) fn and(self, alloc: Global, entry: LocalEntry) -> Result<LocalContext, NoMemory>
        ensures { IfOk result (λ c. c ≡ entry ∷ self) }
    {
        let link = Rc::new(alloc, LocalLink::After(entry, self))?;
        Ok(LocalContext { link })
    }

    /// The last entry, and what stands before it.
    fn last(&self) -> Option<(&LocalEntry, &LocalContext)>
        ensures { MatchOption result (self.now ≡ []) (λ p. self.now ≡ p.0.now ∷ p.1.now) }
    {
        match &*self.link {
            LocalLink::Start => None,
            LocalLink::After(entry, before) => Some((entry, before)),
        }
    }

    /// Whether there are no entries.
    pub(crate) fn is_empty(&self) -> bool
        ensures { IsTrue result ↔ (self.now ≡ []) }
    {
        self.last().is_none()
    }

    /// The sort of the variable; `None` exactly where it is not declared.
    pub(crate) fn sort_of(&self, name: Name) -> Option<&Sort>
        ensures { option_copied result ≡ sort_of name (variables_in self.now) }
    {
        let mut here = self;
        let mut found = None;
        while let Some((entry, before)) = here.last() {
            if removes(entry, name) {
                return found;
            }
            if let Some(sort) = sort_at(entry, name) {
                found = Some(sort);
            }
            here = before;
        }
        found
    }

    /// The hypothesis of the label; `None` exactly where there is none.
    pub(crate) fn hypothesis(&self, alloc: Global, label: Label2) -> Result<Option<Term>, NoMemory>
        ensures { IfOk result (λ o. o ≡ hypothesis label (hypotheses_in self.now)) }
    {
        let mut here = self;
        let mut found = None;
        while let Some((entry, before)) = here.last() {
            if drops(entry, label) {
                return Ok(found);
            }
            let seen = hypothesis_at(alloc, entry, label)?;
            found = first_of(seen, found);
            here = before;
        }
        Ok(found)
    }

    /// Whether the name is free in a hypothesis.
    pub(crate) fn is_free(&self, alloc: Global, name: Name) -> Result<bool, NoMemory>
        ensures { IfOk result (λ b. b ≡ free_in_hyps name (hypotheses_in self.now)) }
    {
        let mut here = self;
        let mut dropped = Vec::new(alloc);
        while let Some((entry, before)) = here.last() {
            if is_free_at(alloc, entry, name, dropped.as_slice())? {
                return Ok(true);
            }
            add_dropped(entry, &mut dropped)?;
            here = before;
        }
        Ok(false)
    }

    /// A number past all names that are free in the hypotheses, and at least the other number.
    pub(crate) fn above(&self, alloc: Global, least: u64) -> Result<u64, NoMemory>
        ensures least { IfOk result (λ n. least ≤ n) }
        ensures above { IfOk result (λ n. (x : Name) → n ≤ x.0 → free_in_hyps x (hypotheses_in self.now) ≡ false) }
    {
        let mut here = self;
        let mut most = least;
        while let Some((entry, before)) = here.last() {
            most = above_entry(alloc, entry, most)?;
            here = before;
        }
        Ok(most)
    }
}
