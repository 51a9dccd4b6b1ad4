//! Path states: the terms that names stand for, and what stands before a goal.
ghost use Rattle.std.specs.Prelude.{◌≡◌, ◌∷◌, [], ◌≤◌, IfOk};
ghost use Rattle.logic_term.specs.Normal.{reduced};
ghost use Rattle.logic_term.specs.Subst.{above};
ghost use Rattle.prophecy_logic.specs.State.{first_new, start, made, after, goal_at, IsBelow, Leads, IsGoalAt};

use crate::command::Command;
use crate::goal::{Goal, MetGoal};
use logic_term::{Context, Entry, Replacement, Term, Ty};
use std::alloc::Global;
use std::marker::Model;
use text_core::{Name, NoMemory};

/// A path state: the terms that names stand for now, a number past those of all new names, and what stands before a goal.
#[derive(Drop)]
pub struct State {
    terms: Vec<Replacement>,
    next: u64,
    context: Context,
}

impl Model for State {
    ghost use Rattle.prophecy_logic.specs.State.{State as StateValue};
    ghost use Rattle.prophecy_logic.specs.StateCode.{coded_state};

    ghost Value = { StateValue };

    ghost coded = { coded_state };

    ghost view = { λ s. record { terms = s.terms.items; next = s.next; context = s.context } };
}

/// The first number of the names that a walk makes.
#[tactic(auto, unfolding(crate::specs::State::first_new))]
fn first_new() -> u64
    ensures { result ≡ first_new }
{
    (1 << 63) + (1 << 62) + (1 << 32) + 1
}

/// The terms, shared.
fn share_all(alloc: Global, terms: &[Replacement]) -> Result<Vec<Replacement>, NoMemory>
    ensures { IfOk result (λ v. v.items ≡ terms.now) }
{
    let mut all = Vec::with_capacity(alloc, terms.len())?;
    for i in 0..terms.len() {
        let by = terms[i].by.share()?;
        let name = terms[i].name;
        all.push(Replacement { name, by })?;
    }
    Ok(all)
}

/// The terms with another one for the name, which hides an earlier one.
fn with_term(terms: Vec<Replacement>, name: Name, by: Term) -> Result<Vec<Replacement>, NoMemory>
    ensures { IfOk result (λ v. v.items ≡ record { name = name; by = by } ∷ terms.items) }
{
    let mut all = terms;
    all.insert(0, Replacement { name, by })?;
    Ok(all)
}

impl State {
    /// Each name stands for itself.
    pub fn new(alloc: Global) -> Result<State, NoMemory>
        ensures { IfOk result (λ s. s ≡ start) }
    {
        let context = Context::new(alloc)?;
        Ok(State {
            terms: Vec::new(alloc),
            next: first_new(),
            context,
        })
    }

    /// The same state, its terms and what stands before goals shared.
    pub fn share(&self, alloc: Global) -> Result<State, NoMemory>
        ensures { IfOk result (λ s. s ≡ self.now) }
    {
        let context = self.context.share()?;
        let terms = share_all(alloc, self.terms.as_slice())?;
        Ok(State {
            terms,
            next: self.next,
            context,
        })
    }

    /// The term in normal form, where names stand for the state's terms. Want of memory is answered where a name is one of those that a
    /// walk makes.
    fn made(&self, alloc: Global, term: &Term) -> Result<Term, NoMemory>
        ensures is { IfOk result (λ t. t ≡ made self.now term.now) }
        ensures below { IfOk result (λ t. above term.now ≤ first_new) }
    {
        if term.above(alloc)? > first_new() {
            return Err(NoMemory);
        }
        term.placed(alloc, true, self.next, self.terms.as_slice())
    }

    /// From here on the name stands for the value of the term.
    fn set(self, alloc: Global, name: Name, term: &Term) -> Result<State, NoMemory>
        ensures { IfOk result (λ s. (s ≡ after self (Command.Set name term.now)) × IsBelow (Command.Set name term.now)) }
    {
        let by = self.made(alloc, term)?;
        let State {
            terms,
            next,
            context,
        } = self;
        let terms = with_term(terms, name, by)?;
        Ok(State {
            terms,
            next,
            context,
        })
    }

    /// From here on the name stands for some value of the type.
    fn renew(self, alloc: Global, name: Name, sort: &Ty) -> Result<State, NoMemory>
        ensures { IfOk result (λ s. s ≡ after self (Command.Fresh name sort.now)) }
    {
        let State {
            terms,
            next,
            context,
        } = self;
        let number = Name(next);
        let terms = with_term(terms, name, Term::var(alloc, number)?)?;
        let context = context.and(alloc, Entry::Variable(number, sort.copy(alloc)?))?;
        let next = next.checked_add(1).ok_or(NoMemory)?;
        Ok(State {
            terms,
            next,
            context,
        })
    }

    /// From here on the formula is known.
    fn assume(self, alloc: Global, formula: &Term) -> Result<State, NoMemory>
        ensures { IfOk result (λ s. (s ≡ after self (Command.Assume formula.now)) × IsBelow (Command.Assume formula.now)) }
    {
        let known = self.made(alloc, formula)?;
        let State {
            terms,
            next,
            context,
        } = self;
        let context = context.and(alloc, Entry::Known(known))?;
        Ok(State {
            terms,
            next,
            context,
        })
    }

    /// The state after the command.
    fn after(self, alloc: Global, command: &Command) -> Result<State, NoMemory>
        ensures { IfOk result (λ s. (s ≡ after self command.now) × IsBelow command.now) }
    {
        match command {
            Command::Set(name, term) => self.set(alloc, *name, term),
            Command::Fresh(name, sort) => self.renew(alloc, *name, sort),
            Command::Assume(formula) => self.assume(alloc, formula),
        }
    }

    /// The state after the commands.
    pub fn after_all(self, alloc: Global, commands: &[Command]) -> Result<State, NoMemory>
        ensures { IfOk result (λ s. Leads self commands.now s) }
    {
        let mut state = self;
        for command in commands {
            state = state.after(alloc, command)?;
        }
        Ok(state)
    }

    /// The formula as a goal at this state, behind what stands before it.
    fn closed(&self, alloc: Global, formula: &Term) -> Result<logic_term::Goal, NoMemory>
        ensures is { IfOk result (λ g. g ≡ reduced (goal_at self.now formula.now)) }
        ensures below { IfOk result (λ g. above formula.now ≤ first_new) }
    {
        let made = self.made(alloc, formula)?;
        let context = self.context.share()?;
        Ok(logic_term::Goal::new(context, made))
    }

    /// The goal at this state.
    pub fn goal(&self, alloc: Global, goal: &Goal) -> Result<MetGoal, NoMemory>
        ensures { IfOk result (λ g. IsGoalAt self.now goal.now g) }
    {
        let closed = self.closed(alloc, &goal.formula)?;
        Ok(MetGoal {
            kind: goal.kind,
            span: goal.span,
            goal: closed,
        })
    }
}
