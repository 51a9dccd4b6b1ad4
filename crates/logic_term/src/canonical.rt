ghost use Rattle.std.specs.Prelude.{◌≡◌, ◌∷◌, ◌++◌, [], ◌↔◌, suc, IfOk, IsTrue, Some, map, if◌then◌else◌};
ghost use Rattle.logic_term.specs.Canonical.{is_one_of, above_free, canonical, SameUpToNames};
ghost use Rattle.logic_term.specs.Scopes.{above_free_top, binds, scopes, within};

use crate::term::{Term, TermNode};
use std::alloc::Global;
use text_core::{Name, NoMemory};

/// Whether the name is one of these.
pub fn is_one_of(name: Name, names: &[Name]) -> bool
    ensures { result ≡ is_one_of name names.now }
{
    let mut left = names.len();
    while left > 0 {
        left -= 1;
        let other = &names[left];
        if name.0 == other.0 {
            return true;
        }
    }
    false
}

fn above_name(name: Name, bound: &[Name]) -> Result<u64, NoMemory>
    ensures { IfOk result (λ n. n ≡ (if is_one_of name bound.now then 0 else suc name.0)) }
{
    if is_one_of(name, bound) {
        return Ok(0);
    }
    name.0.checked_add(1).ok_or(NoMemory)
}

impl Term {
    /// One past the largest name that is free in the term.
    pub fn above_free(&self, alloc: Global) -> Result<u64, NoMemory>
        ensures { IfOk result (λ n. n ≡ above_free [] self.now) }
    {
        let mut bound = Vec::new(alloc);
        let mut most = 0u64;
        let mut left = Vec::new(alloc);
        left.push(Scoped::Within(self))?;
        while let Some(next) = left.pop() {
            match next {
                Scoped::Within(t) => {
                    most = most.max(t.above_free_top(bound.as_slice())?);
                    t.push_scoped(&mut bound, &mut left)?;
                }
                Scoped::Left => {
                    bound.pop();
                }
            }
        }
        Ok(most)
    }

    /// One past the term, where it is a name that is none of these; else 0.
    fn above_free_top(&self, bound: &[Name]) -> Result<u64, NoMemory>
        ensures { IfOk result (λ n. n ≡ above_free_top bound.now self.now) }
    {
        match self.node() {
            TermNode::Var(name) => above_name(*name, bound),
            _ => Ok(0),
        }
    }

    /// Adds the direct parts of the term, the first last. The name of a quantifier is bound until its body is done.
    #[tactic(auto, using(crate::proofs::Walking::listed_terms))]
    fn push_scoped<'a>(
        &'a self,
        bound: &mut Vec<Name>,
        left: &mut Vec<Scoped<'a>>,
    ) -> Result<(), NoMemory>
        ensures bound { IfOk result (λ _. bound.new.items ≡ bound.old.items ++ binds self.now) }
        ensures left { IfOk result (λ _. scopes left.new.items ≡ within self.now ++ scopes left.old.items) }
    {
        match self.node() {
            TermNode::Make(_, parts) => push_all_within(parts, left),
            TermNode::Unary(_, t) => push_within(t, left),
            TermNode::Binary(_, a, b) => {
                push_within(b, left)?;
                push_within(a, left)
            }
            TermNode::Choice(c, a, b) => {
                push_within(b, left)?;
                push_within(a, left)?;
                push_within(c, left)
            }
            TermNode::Quantified(_, name, _, t) => {
                bound.push(*name)?;
                left.push(Scoped::Left)?;
                push_within(t, left)
            }
            _ => Ok(()),
        }
    }

    /// The term with its bound names numbered from one past its largest free name on: the same for all terms that differ
    /// in bound names alone.
    #[tactic(auto, unfolding(crate::specs::Canonical::canonical))]
    pub fn canonical(&self, alloc: Global) -> Result<Term, NoMemory>
        ensures { IfOk result (λ t. t ≡ canonical self.now) }
    {
        let next = self.above_free(alloc)?;
        self.placed(alloc, false, next, &[])
    }

    /// Whether both are the same up to the names that they bind.
    pub fn same_up_to_names(&self, alloc: Global, other: &Term) -> Result<bool, NoMemory>
        ensures { IfOk result (λ b. IsTrue b ↔ SameUpToNames self.now other.now) }
    {
        let left = self.canonical(alloc)?;
        let right = other.canonical(alloc)?;
        left.same(alloc, &right)
    }
}

// ---- what is still to be gone over

/// A step of a walk through scopes.
#[derive(Clone, Copy)]
enum Scoped<'a> {
    /// The term is next.
    Within(&'a Term),
    /// The scope of the name that was bound last ends here.
    Left,
}

fn push_within<'a>(t: &'a Term, left: &mut Vec<Scoped<'a>>) -> Result<(), NoMemory>
    ensures { IfOk result (λ _. scopes left.new.items ≡ Some t.now ∷ scopes left.old.items) }
{
    left.push(Scoped::Within(t))?;
    Ok(())
}

/// The terms, the first last.
fn push_all_within<'a>(terms: &'a [Term], left: &mut Vec<Scoped<'a>>) -> Result<(), NoMemory>
    ensures { IfOk result (λ _. scopes left.new.items ≡ map Some terms.now ++ scopes left.old.items) }
{
    for i in (0..terms.len()).rev() {
        left.push(Scoped::Within(&terms[i]))?;
    }
    Ok(())
}
