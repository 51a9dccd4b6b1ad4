//! What stands before a formula: variables, and what is known.
ghost use Rattle.std.specs.Prelude.{◌≡◌, ◌∷◌, [], IfOk, MatchOption};
ghost use Rattle.logic_term.specs.Context.{closed, count_variables, numbers, numbered_term};

use crate::subst::Replacement;
use crate::term::Term;
use crate::ty::Ty;
use std::alloc::Global;
use std::marker::Model;
use std::rc::Rc;
use text_core::{Name, NoMemory};

/// What stands before a formula: a variable with its type, or a formula that is known.
#[derive(Drop)]
pub enum Entry {
    Variable(Name, Ty),
    Known(Term),
}

/// What stands before formulas, shared by all that go on from here. Contracts see the list of the entries, the last one first.
#[cycle(context)]
pub struct Context {
    link: Rc<Link>,
}

/// The last entry, and those before it.
#[cycle(context)]
#[derive(Drop)]
pub(crate) enum Link {
    Start,
    After(Entry, Context),
}

impl Model for Context {
    ghost use Rattle.std.specs.Prelude.{List, length};
    ghost use Rattle.std.specs.Coded.{coded_list};
    ghost use Rattle.logic_term.specs.contracts.context.Entry as entries;
    ghost use Rattle.logic_term.specs.declared.context.Entry.{Entry as EntryValue};

    ghost Value = { List EntryValue };

    ghost coded = { coded_list entries.the_row.coded };

    ghost use Rattle.logic_term.specs.ContextView.{entries_of};

    ghost view = { λ c. entries_of c.link.value };

    ghost size = { length };

    ghost use Rattle.logic_term.specs.ContextFalls.{falls};

    ghost size_decreases = { λ a h. falls a.link.value };
}

// By a loop, so that a long context does not run out of stack.
impl Drop for Context {
    fn drop(mut self) {
        loop {
            let Context { link } = self;
            match Rc::into_inner(link) {
                Some(Link::After(_, before)) => self = before,
                Some(Link::Start) | None => return,
            }
        }
    }
}

/// The formula behind the entry.
fn behind(alloc: Global, entry: &Entry, formula: Term) -> Result<Term, NoMemory>
    ensures { IfOk result (λ t. closed [] t ≡ closed (entry.now ∷ []) formula) }
{
    match entry {
        Entry::Variable(name, sort) => {
            let sort = sort.copy(alloc)?;
            Term::forall(alloc, *name, sort, formula)
        }
        Entry::Known(known) => {
            let known = known.share()?;
            Term::implies(alloc, known, formula)
        }
    }
}

impl Context {
    /// No entries.
    pub fn new(alloc: Global) -> Result<Context, NoMemory>
        ensures { IfOk result (λ c. c ≡ []) }
    {
        let link = Rc::new(alloc, Link::Start)?;
        Ok(Context { link })
    }

    /// The same entries, shared. Want of memory is answered where they are shared too often to be counted.
    pub fn share(&self) -> Result<Context, NoMemory>
        ensures { IfOk result (λ c. c ≡ self.now) }
    {
        let link = self.link.clone()?;
        Ok(Context { link })
    }

    /// One more entry, behind the others.
    pub fn and(self, alloc: Global, entry: Entry) -> Result<Context, NoMemory>
        ensures { IfOk result (λ c. c ≡ entry ∷ self) }
    {
        let link = Rc::new(alloc, Link::After(entry, self))?;
        Ok(Context { link })
    }

    /// The formula behind the entries.
    pub fn close(&self, alloc: Global, formula: Term) -> Result<Term, NoMemory>
        ensures { IfOk result (λ t. t ≡ closed self.now formula) }
    {
        let mut here = self;
        let mut all = formula;
        while let Link::After(entry, before) = &*here.link {
            all = behind(alloc, entry, all)?;
            here = before;
        }
        Ok(all)
    }

    /// The last entry, and what stands before it.
    pub fn last(&self) -> Option<(&Entry, &Context)>
        ensures { MatchOption result (self.now ≡ []) (λ p. self.now ≡ p.0.now ∷ p.1.now) }
    {
        match &*self.link {
            Link::Start => None,
            Link::After(entry, before) => Some((entry, before)),
        }
    }

    /// How many variables there are.
    pub fn count_variables(&self) -> Result<u64, NoMemory>
        ensures { IfOk result (λ n. n ≡ count_variables self.now) }
    {
        let mut count: u64 = 0;
        let mut here = self;
        while let Some((entry, before)) = here.last() {
            if let Entry::Variable(_, _) = entry {
                count = count.checked_add(1).ok_or(NoMemory)?;
            }
            here = before;
        }
        Ok(count)
    }

    /// Each variable's number in place of its name, the last one first.
    fn numbers(&self, alloc: Global) -> Result<Vec<Replacement>, NoMemory>
        ensures { IfOk result (λ v. v.items ≡ numbers self.now) }
    {
        let mut all = Vec::new(alloc);
        let mut left = self.count_variables()?;
        let mut here = self;
        while let Some((entry, before)) = here.last() {
            if let Entry::Variable(name, _) = entry {
                left -= 1;
                let by = Term::var(alloc, Name(left))?;
                all.push(Replacement { name: *name, by })?;
            }
            here = before;
        }
        Ok(all)
    }

    /// The term behind the entries in normal form, with numbers for their variables, and its bound names numbered from there on.
    pub fn numbered_term(&self, alloc: Global, t: &Term) -> Result<Term, NoMemory>
        ensures { IfOk result (λ r. r ≡ numbered_term self.now t.now) }
    {
        let numbers = self.numbers(alloc)?;
        let next = self.count_variables()?;
        t.placed(alloc, true, next, numbers.as_slice())
    }
}
