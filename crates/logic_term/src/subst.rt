ghost use Rattle.std.specs.Prelude.{◌≡◌, [], ◌∷◌, ◌++◌, IfOk, OnOk};
ghost use Rattle.logic_term.specs.Free.{free};
ghost use Rattle.logic_term.specs.Subst.{above, above_entries, numbers_before, renamed, with_terms, replaced};
ghost use Rattle.logic_term.specs.Walk.{above_top, is_bound_by, is_name, parts, to_do};

use crate::term::{Term, TermNode};
use std::alloc::Global;
use text_core::{Name, NoMemory};

/// A bound name, and the name that it gets.
#[derive(Clone, Copy)]
pub struct Renaming {
    pub from: Name,
    pub to: Name,
}

/// A term for a name.
#[derive(Drop)]
pub struct Replacement {
    pub name: Name,
    pub by: Term,
}

impl Term {
    /// Whether the name is free in the term.
    pub fn free_in(&self, alloc: Global, name: Name) -> Result<bool, NoMemory>
        ensures { IfOk result (λ b. b ≡ free name self.now) }
    {
        let mut left = Vec::new(alloc);
        left.push(self)?;
        while let Some(t) = left.pop() {
            if t.is_name(name) {
                return Ok(true);
            }
            if !t.binds(name) {
                t.push_parts(&mut left)?;
            }
        }
        Ok(false)
    }

    fn is_name(&self, name: Name) -> bool
        ensures { result ≡ is_name name self.now }
    {
        match self.node() {
            TermNode::Var(other) => name.0 == other.0,
            _ => false,
        }
    }

    /// Whether the term is a quantifier over the name.
    fn binds(&self, name: Name) -> bool
        ensures { result ≡ is_bound_by name self.now }
    {
        match self.node() {
            TermNode::Quantified(_, other, _, _) => name.0 == other.0,
            _ => false,
        }
    }

    /// One past the largest name in the term, bound names included.
    pub fn above(&self, alloc: Global) -> Result<u64, NoMemory>
        ensures { IfOk result (λ n. n ≡ above self.now) }
    {
        let mut most = 0u64;
        let mut left = Vec::new(alloc);
        left.push(self)?;
        while let Some(t) = left.pop() {
            most = most.max(t.above_top()?);
            t.push_parts(&mut left)?;
        }
        Ok(most)
    }

    /// One past the name that stands at the top of the term; 0 where none does.
    fn above_top(&self) -> Result<u64, NoMemory>
        ensures { IfOk result (λ n. n ≡ above_top self.now) }
    {
        match self.node() {
            TermNode::Var(name) => name.0.checked_add(1).ok_or(NoMemory),
            TermNode::Quantified(_, name, _, _) => name.0.checked_add(1).ok_or(NoMemory),
            _ => Ok(0),
        }
    }

    /// Adds the direct parts of the term, the first last.
    #[tactic(auto, using(crate::proofs::Walking::listed_terms))]
    fn push_parts<'a>(&'a self, left: &mut Vec<&'a Term>) -> Result<(), NoMemory>
        ensures { IfOk result (λ _. to_do left.new.items ≡ parts self.now ++ to_do left.old.items) }
    {
        match self.node() {
            TermNode::Make(_, parts) => push_all(parts, left),
            TermNode::Unary(_, t) => push_one(t, left),
            TermNode::Binary(_, a, b) => {
                push_one(b, left)?;
                push_one(a, left)
            }
            TermNode::Choice(c, a, b) => {
                push_one(b, left)?;
                push_one(a, left)?;
                push_one(c, left)
            }
            TermNode::Quantified(_, _, _, t) => push_one(t, left),
            _ => Ok(()),
        }
    }

    /// The term with the entries' terms for its free names, all at once; no name is captured.
    pub fn with(&self, alloc: Global, sub: &[Replacement]) -> Result<Term, NoMemory>
        ensures { IfOk result (λ t. t ≡ with_terms sub.now self.now) }
    {
        let own = self.above(alloc)?;
        let others = above_entries(alloc, sub)?;
        self.placed(alloc, false, own.max(others), sub)
    }

    /// The term with names for its free names, all at once, the last of a name counting; no name is captured. The list is as it was
    /// where the answer is a term.
    pub fn renamed(&self, alloc: Global, names: &mut Vec<Renaming>) -> Result<Term, NoMemory>
        ensures ok { IfOk result (λ t. t ≡ renamed names.old.items self.now) }
        ensures kept { OnOk result (names.new.items ≡ names.old.items) }
    {
        let own = self.above(alloc)?;
        let others = above_names(names.as_slice())?;
        self.placed_in(alloc, false, own.max(others), names, &[])
    }

    /// The term with another for the name; no name is captured.
    pub fn replaced(&self, alloc: Global, name: Name, by: &Term) -> Result<Term, NoMemory>
        ensures { IfOk result (λ t. t ≡ replaced name by.now self.now) }
    {
        let own = self.above(alloc)?;
        let others = by.above(alloc)?;
        let by = by.share()?;
        let mut sub = Vec::with_capacity(alloc, 1)?;
        sub.push(Replacement { name, by })?;
        self.placed(alloc, false, own.max(others), sub.as_slice())
    }
}

/// One past the largest of the names that are given.
fn above_names(names: &[Renaming]) -> Result<u64, NoMemory>
    ensures { IfOk result (λ n. n ≡ above_entries (numbers_before names.now [])) }
{
    let mut most: u64 = 0;
    for i in 0..names.len() {
        let renaming = &names[i];
        let here = renaming.to.0.checked_add(1).ok_or(NoMemory)?;
        most = here.max(most);
    }
    Ok(most)
}

/// One past the largest name in the entries' terms.
fn above_entries(alloc: Global, sub: &[Replacement]) -> Result<u64, NoMemory>
    ensures { IfOk result (λ n. n ≡ above_entries sub.now) }
{
    let mut most: u64 = 0;
    for i in (0..sub.len()).rev() {
        let here = sub[i].by.above(alloc)?;
        most = here.max(most);
    }
    Ok(most)
}

// ---- terms that are still to be gone over

fn push_one<'a>(t: &'a Term, left: &mut Vec<&'a Term>) -> Result<(), NoMemory>
    ensures { IfOk result (λ _. to_do left.new.items ≡ t.now ∷ to_do left.old.items) }
{
    left.push(t)?;
    Ok(())
}

/// The terms, the first last.
fn push_all<'a>(terms: &'a [Term], left: &mut Vec<&'a Term>) -> Result<(), NoMemory>
    ensures { IfOk result (λ _. to_do left.new.items ≡ terms.now ++ to_do left.old.items) }
{
    for i in (0..terms.len()).rev() {
        left.push(&terms[i])?;
    }
    Ok(())
}
