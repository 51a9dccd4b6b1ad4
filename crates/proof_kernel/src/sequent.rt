ghost use Rattle.std.specs.Prelude.{◌≡◌, ◌↔◌, ◌++◌, ◌∷◌, [], IfOk, IsTrue, MatchOption, false};
ghost use Rattle.std.specs.Option.{option_copied};
ghost use Rattle.logic_term.specs.Context.{IsOpened};
ghost use Rattle.logic_term.specs.Free.{free};
ghost use Rattle.proof_kernel.specs.Rules.{hypothesis, sort_of, free_in_hyps, with_goal, dropping, removing};
ghost use Rattle.proof_kernel.specs.Intro.{assuming, declaring, IsAbove};
ghost use Rattle.proof_kernel.specs.Opened.{assuming_opened};
ghost use Rattle.proof_kernel.specs.SequentGoalView.{goal_of};

use crate::local_context::{LocalContext, LocalEntry};
use crate::opened::Opened;
use logic_term::{Context, Goal, Label2, Sort, Term};
use std::alloc::Global;
use std::marker::Model;
use text_core::{Name, NoMemory};

/// Variables with their sorts, labelled hypotheses, and a goal. Variables and hypotheses are shared with the sequents that were made of
/// this one.
#[derive(Drop)]
pub struct Sequent {
    context: LocalContext,
    goal: SequentGoal,
}

/// The goal of a sequent.
#[derive(Drop)]
enum SequentGoal {
    /// That of an obligation, of which nothing is taken off.
    Whole(Goal),
    Made(Term),
}

impl SequentGoal {
    fn share(&self) -> Result<SequentGoal, NoMemory>
        ensures { IfOk result (λ g. g ≡ self.now) }
    {
        match self {
            SequentGoal::Whole(goal) => Ok(SequentGoal::Whole(goal.share()?)),
            SequentGoal::Made(term) => Ok(SequentGoal::Made(term.share()?)),
        }
    }

    fn term(&self, alloc: Global) -> Result<Term, NoMemory>
        ensures { IfOk result (λ t. t ≡ goal_of self.now) }
    {
        match self {
            SequentGoal::Whole(goal) => goal.term(alloc),
            SequentGoal::Made(term) => term.share(),
        }
    }
}

impl Model for Sequent {
    ghost use Rattle.proof_kernel.specs.Sequent.{Sequent as SequentValue};
    ghost use Rattle.proof_kernel.specs.SequentCode.{coded_sequent};
    ghost use Rattle.proof_kernel.specs.LocalContext.{variables_in, hypotheses_in};
    ghost use Rattle.proof_kernel.specs.SequentGoalView.{goal_of};

    ghost Value = { SequentValue };

    ghost coded = { coded_sequent };

    ghost view = { λ q. record { vars = variables_in q.context; hyps = hypotheses_in q.context; goal = goal_of q.goal } };
}

impl Sequent {
    /// The goal, with no variable and no hypothesis.
    pub fn new(alloc: Global, goal: Term) -> Result<Sequent, NoMemory>
        ensures { IfOk result (λ q. q ≡ record { vars = []; hyps = []; goal = goal }) }
    {
        let context = LocalContext::new(alloc)?;
        let goal = SequentGoal::Made(goal);
        Ok(Sequent { context, goal })
    }

    /// The goal of an obligation, with no variable and no hypothesis.
    pub(crate) fn whole(alloc: Global, goal: Goal) -> Result<Sequent, NoMemory>
        ensures { IfOk result (λ q. q ≡ record { vars = []; hyps = []; goal = goal }) }
    {
        let context = LocalContext::new(alloc)?;
        let goal = SequentGoal::Whole(goal);
        Ok(Sequent { context, goal })
    }

    /// The same sequent, shared. Want of memory is answered where it is shared too often to be counted.
    pub fn share(&self) -> Result<Sequent, NoMemory>
        ensures { IfOk result (λ q. q ≡ self.now) }
    {
        let context = self.context.share()?;
        let goal = self.goal.share()?;
        Ok(Sequent { context, goal })
    }

    /// The sequent with one more variable.
    pub fn declaring(self, alloc: Global, name: Name, sort: Sort) -> Result<Sequent, NoMemory>
        ensures { IfOk result (λ q. q ≡ declaring self name sort) }
    {
        let Sequent { context, goal } = self;
        let context = context.and(alloc, LocalEntry::Variable(name, sort))?;
        Ok(Sequent { context, goal })
    }

    /// The sequent with one more hypothesis.
    pub fn assuming(self, alloc: Global, label: Label2, hyp: Term) -> Result<Sequent, NoMemory>
        ensures { IfOk result (λ q. q ≡ assuming self label hyp) }
    {
        let Sequent { context, goal } = self;
        let context = context.and(alloc, LocalEntry::Hypothesis(label, hyp))?;
        Ok(Sequent { context, goal })
    }

    /// The sequent with the hypotheses of what was opened.
    pub(crate) fn assuming_opened(self, alloc: Global, opened: Opened) -> Result<Sequent, NoMemory>
        ensures { IfOk result (λ q. q ≡ assuming_opened self opened.step opened.names opened.context) }
    {
        let Sequent { context, goal } = self;
        let context = context.and(alloc, LocalEntry::Opened(opened))?;
        Ok(Sequent { context, goal })
    }

    /// The same variables and hypotheses with another goal.
    pub(crate) fn with_goal(&self, goal: Term) -> Result<Sequent, NoMemory>
        ensures { IfOk result (λ q. q ≡ with_goal self.now goal) }
    {
        let context = self.context.share()?;
        let goal = SequentGoal::Made(goal);
        Ok(Sequent { context, goal })
    }

    /// The sequent without the hypothesis of the label.
    pub(crate) fn dropping(&self, alloc: Global, label: Label2) -> Result<Sequent, NoMemory>
        ensures { IfOk result (λ q. q ≡ dropping label self.now) }
    {
        let context = self.context.share()?;
        let context = context.and(alloc, LocalEntry::Dropped(label))?;
        let goal = self.goal.share()?;
        Ok(Sequent { context, goal })
    }

    /// The sequent without the variable.
    pub(crate) fn removing(&self, alloc: Global, name: Name) -> Result<Sequent, NoMemory>
        ensures { IfOk result (λ q. q ≡ removing name self.now) }
    {
        let context = self.context.share()?;
        let context = context.and(alloc, LocalEntry::Removed(name))?;
        let goal = self.goal.share()?;
        Ok(Sequent { context, goal })
    }

    pub fn goal(&self, alloc: Global) -> Result<Term, NoMemory>
        ensures { IfOk result (λ t. t ≡ self.now.goal) }
    {
        self.goal.term(alloc)
    }

    /// What stands before the formula of the goal, and the formula, both with numbers for the variables. `None` where the goal is no
    /// obligation's, where there are variables or hypotheses, and where names are free in the goal.
    pub(crate) fn opened(&self, alloc: Global) -> Result<Option<(Context, Term)>, NoMemory>
        ensures { IfOk result (λ o. MatchOption o (Unit {0}) (λ p. (self.now.vars ≡ []) × (self.now.hyps ≡ []) × IsOpened self.now.goal p.0 p.1)) }
    {
        if !self.context.is_empty() {
            return Ok(None);
        }
        match &self.goal {
            SequentGoal::Whole(goal) => goal.opened(alloc),
            SequentGoal::Made(_) => Ok(None),
        }
    }

    /// The hypothesis of the label; `None` exactly where there is none.
    pub fn hypothesis(&self, alloc: Global, label: Label2) -> Result<Option<Term>, NoMemory>
        ensures { IfOk result (λ o. o ≡ hypothesis label self.now.hyps) }
    {
        self.context.hypothesis(alloc, label)
    }

    /// The sort of the variable; `None` exactly where it is not declared.
    pub fn sort_of(&self, name: Name) -> Option<&Sort>
        ensures { option_copied result ≡ sort_of name self.now.vars }
    {
        self.context.sort_of(name)
    }

    /// A number past all names that are free in the sequent.
    pub(crate) fn above_free(&self, alloc: Global) -> Result<u64, NoMemory>
        ensures { IfOk result (λ n. IsAbove n self.now) }
    {
        let goal = self.goal.term(alloc)?;
        let least = goal.above_free(alloc)?;
        let all = self.context.above(alloc, least)?;
        Ok(all)
    }

    /// Whether the name is free in a hypothesis.
    pub(crate) fn is_free_in_hypotheses(&self, alloc: Global, name: Name) -> Result<bool, NoMemory>
        ensures { IfOk result (λ b. b ≡ free_in_hyps name self.now.hyps) }
    {
        self.context.is_free(alloc, name)
    }

    /// Whether the name is free in no hypothesis and not in the goal.
    pub(crate) fn is_free_nowhere(&self, alloc: Global, name: Name) -> Result<bool, NoMemory>
        ensures { IfOk result (λ b. IsTrue b ↔ ((free_in_hyps name self.now.hyps ≡ false) × (free name self.now.goal ≡ false))) }
    {
        if self.context.is_free(alloc, name)? {
            return Ok(false);
        }
        let goal = self.goal.term(alloc)?;
        let is_in_goal = goal.free_in(alloc, name)?;
        Ok(!is_in_goal)
    }
}
