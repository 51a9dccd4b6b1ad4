//! Goals: formulas behind what stands before them.
ghost use Rattle.std.specs.Prelude.{◌≡◌, IfOk, MatchOption};
ghost use Rattle.logic_term.specs.Context.{closed, IsOpened};
ghost use Rattle.logic_term.specs.Normal.{reduced};

use crate::context::Context;
use crate::placed::reduce;
use crate::term::Term;
use std::alloc::Global;
use std::marker::Model;
use text_core::NoMemory;

/// A goal: a formula behind what is shared with other goals. Contracts see the closed formula in normal form, which is made only where
/// it is asked for.
#[derive(Drop)]
pub struct Goal {
    context: Context,
    formula: Term,
}

impl Model for Goal {
    ghost use Rattle.logic_term.specs.Context.{closed};
    ghost use Rattle.logic_term.specs.Normal.{reduced};
    ghost use Rattle.logic_term.specs.Term.{Term as Tree};
    ghost use Rattle.logic_term.specs.TermCode.{coded_term};

    ghost Value = { Tree };

    ghost coded = { coded_term };

    ghost view = { λ g. reduced (closed g.context g.formula) };
}

impl Goal {
    /// The formula behind the entries.
    pub fn new(context: Context, formula: Term) -> Goal
        ensures { result ≡ reduced (closed context formula) }
    {
        Goal { context, formula }
    }

    /// The formula, with nothing before it.
    pub fn of(alloc: Global, formula: Term) -> Result<Goal, NoMemory>
        ensures { IfOk result (λ g. g ≡ reduced formula) }
    {
        let context = Context::new(alloc)?;
        Ok(Goal { context, formula })
    }

    /// The same goal, shared. Want of memory is answered where it is shared too often to be counted.
    pub fn share(&self) -> Result<Goal, NoMemory>
        ensures { IfOk result (λ g. g ≡ self.now) }
    {
        let context = self.context.share()?;
        let formula = self.formula.share()?;
        Ok(Goal { context, formula })
    }

    /// The closed formula in normal form.
    pub fn term(&self, alloc: Global) -> Result<Term, NoMemory>
        ensures { IfOk result (λ t. t ≡ self.now) }
    {
        let formula = self.formula.share()?;
        let closed = self.context.close(alloc, formula)?;
        reduce(alloc, &closed)
    }

    /// What stands before the formula in the closed formula, shared, and the formula there, both with numbers for the variables. No known
    /// formula is made for it. `None` where names are free in the goal.
    pub fn opened(&self, alloc: Global) -> Result<Option<(Context, Term)>, NoMemory>
        ensures { IfOk result (λ o. MatchOption o (Unit {0}) (λ p. IsOpened self.now p.0 p.1)) }
    {
        let formula = self.formula.share()?;
        let closed = self.context.close(alloc, formula)?;
        let above = closed.above_free(alloc)?;
        if above > 0 {
            return Ok(None);
        }
        let formula = self.context.numbered_term(alloc, &self.formula)?;
        let context = self.context.share()?;
        Ok(Some((context, formula)))
    }
}
