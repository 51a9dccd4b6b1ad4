//! The rules by terms, which are elaborated at the sequent.
ghost use Rattle.std.specs.Prelude.{◌≡◌, ◌∷◌, [], IfOk, map};
ghost use Rattle.logic_term.specs.Normal.{reduced};
ghost use Rattle.logic_term.specs.Term.{calculate};
ghost use Rattle.proof_kernel.specs.Rules.{Finds, with_hyps};
ghost use Rattle.proof_kernel.specs.EtaRule.{eta_at};
ghost use Rattle.proof_kernel.specs.GoalRules.{to_show};
ghost use Rattle.proof_kernel.specs.TermRules.{at_term, assuming_all, bounds, bounds_at, by_term, division, division_of, division_rule, formula, number, number_if, shown_first, term_at, term_rule, true_or_false, witnessed, divides_back, is_not_zero, remainder_near, remainder_near_negative, remainder_not_above, remainder_not_below, zero_term};
ghost use Rattle.proof_kernel.specs.declared.step.TermRule.TheVariants as rules;

use crate::eta_rule::eta_at;
use crate::instances::is_sort;
use crate::rules::{one_premise, two_premises, with_hypotheses, with_hypothesis};
use crate::sequent::Sequent;
use crate::step::TermRule;
use logic_elab::{SortedTerm, Symbol, TermScope, elaborate};
use logic_term::{AdtDecl, Quantifier, Replacement, Term, TermForm, TyNode, reduce};
use source_kinds::{ArithOp, IntKind};
use source_trees::Pterm;
use std::alloc::Global;
use text_core::{Name, NoMemory, PassError};

/// What names mean at a sequent: its variables; and the declared types.
#[derive(Clone, Copy)]
struct Variables<'a> {
    adts: &'a [AdtDecl],
    sequent: &'a Sequent,
}

impl<'a> TermScope for Variables<'a> {
    ghost use Rattle.proof_kernel.specs.TermRules.{scope_of as scope_at};

    ghost scope = { λ variables. scope_at variables.adts.now variables.sequent.now.vars };

    fn variable(&self, alloc: Global, name: Name) -> Result<Option<Symbol>, NoMemory> {
        match self.sequent.sort_of(name) {
            None => Ok(None),
            Some(sort) => {
                let sort = sort.copy(alloc)?;
                Ok(Some(Symbol { name, sort }))
            }
        }
    }

    fn answer(&self, _alloc: Global) -> Result<Option<Symbol>, NoMemory> {
        Ok(None)
    }

    fn types(&self) -> &[AdtDecl] {
        self.adts
    }
}

/// What the term is at the sequent; `None` exactly where it does not elaborate.
pub(crate) fn term_at(
    alloc: Global,
    adts: &[AdtDecl],
    q: &Sequent,
    t: &Pterm,
) -> Result<Option<SortedTerm>, NoMemory>
    ensures { IfOk result (λ o. o ≡ term_at adts.now q.now t.now) }
{
    let scope = Variables { adts, sequent: q };
    match elaborate(alloc, &scope, t) {
        Ok(term) => Ok(Some(term)),
        Err(PassError::Source(_)) => Ok(None),
        Err(_) => Err(NoMemory),
    }
}

// ---- one term

/// The formula at another term for the variable, in normal form.
pub(crate) fn at_term(alloc: Global, name: Name, by: Term, t: &Term) -> Result<Term, NoMemory>
    ensures { IfOk result (λ u. u ≡ at_term name by t.now) }
{
    let t = t.with(alloc, &[Replacement { name, by }])?;
    reduce(alloc, &t)
}

/// The term in normal form, if it is a formula.
fn formula(alloc: Global, t: SortedTerm) -> Result<Option<Term>, NoMemory>
    ensures { IfOk result (λ o. o ≡ formula t) }
{
    let SortedTerm { sort, term } = t;
    match &sort.node {
        TyNode::Bool => {
            let formula = reduce(alloc, &term.into_inner())?;
            Ok(Some(formula))
        }
        _ => Ok(None),
    }
}

/// The formula as a goal, and then as a hypothesis.
fn cut(alloc: Global, step: u32, q: &Sequent, formula: Term) -> Result<Vec<Sequent>, NoMemory>
    ensures { IfOk result (λ v. v.items ≡ shown_first step q.now formula) }
{
    let to_show = q.with_goal(formula.share()?)?;
    let shown = with_hypothesis(alloc, step, q, formula)?;
    two_premises(alloc, to_show, shown)
}

/// The formula as a hypothesis, and then its denial.
fn on_truth(alloc: Global, step: u32, q: &Sequent, formula: Term) -> Result<Vec<Sequent>, NoMemory>
    ensures { IfOk result (λ v. v.items ≡ true_or_false step q.now formula) }
{
    let holds = with_hypothesis(alloc, step, q, formula.share()?)?;
    let denial = Term::not(alloc, formula)?;
    let fails = with_hypothesis(alloc, step, q, denial)?;
    two_premises(alloc, holds, fails)
}

/// The formulas in normal form.
fn all_reduced(alloc: Global, formulas: &[Term]) -> Result<Vec<Term>, NoMemory>
    ensures { IfOk result (λ v. v.items ≡ map reduced formulas.now) }
{
    let mut all = Vec::with_capacity(alloc, formulas.len())?;
    for i in 0..formulas.len() {
        let formula = reduce(alloc, &formulas[i])?;
        all.push(formula)?;
    }
    Ok(all)
}

/// The sequent with the formulas, in normal form, as the hypotheses of the step.
pub(crate) fn assuming_all(
    alloc: Global,
    step: u32,
    q: &Sequent,
    formulas: &[Term],
) -> Result<Vec<Sequent>, NoMemory>
    ensures { IfOk result (λ v. v.items ≡ with_hyps step q.now (map reduced formulas.now) ∷ []) }
{
    let formulas = all_reduced(alloc, formulas)?;
    let premise = with_hypotheses(alloc, step, q, formulas.as_slice())?;
    one_premise(alloc, premise)
}

/// The bounds of a machine integer.
fn bounds(alloc: Global, kind: IntKind, t: Term) -> Result<Vec<Term>, NoMemory>
    ensures { IfOk result (λ v. v.items ≡ bounds kind t) }
{
    let model = Term::model(alloc, t)?;
    let lowest = Term::integer(alloc, kind.lowest())?;
    let highest = Term::integer(alloc, kind.highest())?;
    let mut both = Vec::with_capacity(alloc, 2)?;
    both.push(Term::at_most(alloc, lowest, model.share()?)?)?;
    both.push(Term::at_most(alloc, model, highest)?)?;
    Ok(both)
}

/// The bounds of the term; `None` exactly where it is no machine integer.
fn range(
    alloc: Global,
    step: u32,
    q: &Sequent,
    t: SortedTerm,
) -> Result<Option<Vec<Sequent>>, NoMemory>
    ensures { IfOk result (λ o. Finds (assuming_all step q.now (bounds_at t.sort t.term)) o) }
{
    let SortedTerm { sort, term } = t;
    match &sort.node {
        TyNode::Int(kind) => {
            let both = bounds(alloc, *kind, term.into_inner())?;
            Ok(Some(assuming_all(alloc, step, q, both.as_slice())?))
        }
        _ => Ok(None),
    }
}

/// The body of the existential formula at the term; `None` exactly where the formula is no such, or the term is of another sort than the bound
/// variable.
fn witnessed(alloc: Global, t: SortedTerm, formula: &Term) -> Result<Option<Term>, NoMemory>
    ensures { IfOk result (λ o. o ≡ witnessed t formula.now) }
{
    let SortedTerm { sort, term } = t;
    match formula.form() {
        TermForm::Quantified(Quantifier::Exists, name, wanted, body) => {
            if !is_sort(&sort, wanted) {
                return Ok(None);
            }
            Ok(Some(at_term(alloc, name, term.into_inner(), body)?))
        }
        _ => Ok(None),
    }
}

/// The goal at the term.
fn witness(alloc: Global, q: &Sequent, t: SortedTerm) -> Result<Option<Vec<Sequent>>, NoMemory>
    ensures { IfOk result (λ o. Finds (to_show q.now (witnessed t q.now.goal)) o) }
{
    let goal = q.goal(alloc)?;
    match witnessed(alloc, t, &goal)? {
        None => Ok(None),
        Some(goal) => Ok(Some(one_premise(alloc, q.with_goal(goal)?)?)),
    }
}

/// That the term is made of its parts; `None` exactly where it is of no tuple and no struct.
fn eta(
    alloc: Global,
    adts: &[AdtDecl],
    step: u32,
    q: &Sequent,
    t: SortedTerm,
) -> Result<Option<Vec<Sequent>>, NoMemory>
    ensures { IfOk result (λ o. Finds (assuming_all step q.now (eta_at adts.now t)) o) }
{
    match eta_at(alloc, adts, t)? {
        None => Ok(None),
        Some(equation) => Ok(Some(assuming_all(alloc, step, q, &[equation])?)),
    }
}

fn by_term(
    alloc: Global,
    adts: &[AdtDecl],
    rule: TermRule,
    step: u32,
    q: &Sequent,
    t: SortedTerm,
) -> Result<Option<Vec<Sequent>>, NoMemory>
    ensures { IfOk result (λ o. Finds (by_term adts.now rule step q.now t) o) }
{
    match rule {
        TermRule::Cut => match formula(alloc, t)? {
            None => Ok(None),
            Some(formula) => Ok(Some(cut(alloc, step, q, formula)?)),
        },
        TermRule::On => match formula(alloc, t)? {
            None => Ok(None),
            Some(formula) => Ok(Some(on_truth(alloc, step, q, formula)?)),
        },
        TermRule::Range => range(alloc, step, q, t),
        TermRule::Witness => witness(alloc, q, t),
        TermRule::Eta => eta(alloc, adts, step, q, t),
    }
}

/// The premises of step `step`; `None` exactly where the term is nothing at the sequent that the rule takes.
pub(crate) fn term_rule(
    alloc: Global,
    adts: &[AdtDecl],
    rule: TermRule,
    step: u32,
    t: &Pterm,
    q: &Sequent,
) -> Result<Option<Vec<Sequent>>, NoMemory>
    ensures { IfOk result (λ o. Finds (term_rule adts.now rule step q.now t.now) o) }
{
    match term_at(alloc, adts, q, t)? {
        None => Ok(None),
        Some(term) => by_term(alloc, adts, rule, step, q, term),
    }
}

// ---- division

fn zero(alloc: Global) -> Result<Term, NoMemory>
    ensures { IfOk result (λ t. t ≡ zero_term) }
{
    Term::integer(alloc, 0)
}

fn is_not_zero(alloc: Global, b: &Term) -> Result<Term, NoMemory>
    ensures { IfOk result (λ t. t ≡ is_not_zero b.now) }
{
    let is_zero = Term::equal(alloc, b.share()?, zero(alloc)?)?;
    Term::not(alloc, is_zero)
}

fn operation(alloc: Global, op: ArithOp, a: &Term, b: &Term) -> Result<Term, NoMemory>
    ensures { IfOk result (λ t. t ≡ calculate op a.now b.now) }
{
    Term::calculate(alloc, op, a.share()?, b.share()?)
}

fn divides_back(alloc: Global, a: &Term, b: &Term) -> Result<Term, NoMemory>
    ensures { IfOk result (λ t. t ≡ divides_back a.now b.now) }
{
    let quotient = operation(alloc, ArithOp::Div, a, b)?;
    let multiple = Term::calculate(alloc, ArithOp::Mul, b.share()?, quotient)?;
    let remainder = operation(alloc, ArithOp::Rem, a, b)?;
    let sum = Term::calculate(alloc, ArithOp::Add, multiple, remainder)?;
    let equation = Term::equal(alloc, a.share()?, sum)?;
    Term::implies(alloc, is_not_zero(alloc, b)?, equation)
}

fn remainder_not_below(alloc: Global, a: &Term, b: &Term) -> Result<Term, NoMemory>
    ensures { IfOk result (λ t. t ≡ remainder_not_below a.now b.now) }
{
    let not_below = Term::at_most(alloc, zero(alloc)?, a.share()?)?;
    let premise = Term::and(alloc, not_below, is_not_zero(alloc, b)?)?;
    let remainder = operation(alloc, ArithOp::Rem, a, b)?;
    let bound = Term::at_most(alloc, zero(alloc)?, remainder)?;
    Term::implies(alloc, premise, bound)
}

fn remainder_not_above(alloc: Global, a: &Term, b: &Term) -> Result<Term, NoMemory>
    ensures { IfOk result (λ t. t ≡ remainder_not_above a.now b.now) }
{
    let not_above = Term::at_most(alloc, a.share()?, zero(alloc)?)?;
    let premise = Term::and(alloc, not_above, is_not_zero(alloc, b)?)?;
    let remainder = operation(alloc, ArithOp::Rem, a, b)?;
    let bound = Term::at_most(alloc, remainder, zero(alloc)?)?;
    Term::implies(alloc, premise, bound)
}

fn remainder_near(alloc: Global, a: &Term, b: &Term) -> Result<Term, NoMemory>
    ensures { IfOk result (λ t. t ≡ remainder_near a.now b.now) }
{
    let premise = Term::less(alloc, zero(alloc)?, b.share()?)?;
    let remainder = operation(alloc, ArithOp::Rem, a, b)?;
    let negative = Term::negative(alloc, b.share()?)?;
    let above = Term::less(alloc, negative, remainder.share()?)?;
    let below = Term::less(alloc, remainder, b.share()?)?;
    Term::implies(alloc, premise, Term::and(alloc, above, below)?)
}

fn remainder_near_negative(alloc: Global, a: &Term, b: &Term) -> Result<Term, NoMemory>
    ensures { IfOk result (λ t. t ≡ remainder_near_negative a.now b.now) }
{
    let premise = Term::less(alloc, b.share()?, zero(alloc)?)?;
    let remainder = operation(alloc, ArithOp::Rem, a, b)?;
    let negative = Term::negative(alloc, b.share()?)?;
    let above = Term::less(alloc, b.share()?, remainder.share()?)?;
    let below = Term::less(alloc, remainder, negative)?;
    Term::implies(alloc, premise, Term::and(alloc, above, below)?)
}

/// What the division of a by b says.
fn division(alloc: Global, a: &Term, b: &Term) -> Result<Vec<Term>, NoMemory>
    ensures { IfOk result (λ v. v.items ≡ division a.now b.now) }
{
    let mut all = Vec::with_capacity(alloc, 5)?;
    all.push(divides_back(alloc, a, b)?)?;
    all.push(remainder_not_below(alloc, a, b)?)?;
    all.push(remainder_not_above(alloc, a, b)?)?;
    all.push(remainder_near(alloc, a, b)?)?;
    all.push(remainder_near_negative(alloc, a, b)?)?;
    Ok(all)
}

/// The term, if it is an unbounded integer at the sequent.
fn number_at(
    alloc: Global,
    adts: &[AdtDecl],
    q: &Sequent,
    t: &Pterm,
) -> Result<Option<Term>, NoMemory>
    ensures { IfOk result (λ o. o ≡ number_if (term_at adts.now q.now t.now)) }
{
    let Some(term) = term_at(alloc, adts, q, t)? else {
        return Ok(None);
    };
    let SortedTerm { sort, term } = term;
    match &sort.node {
        TyNode::MathInt => Ok(Some(term.into_inner())),
        _ => Ok(None),
    }
}

/// The premise of step `step` by two terms; `None` exactly where one of them is no unbounded integer at the sequent.
pub(crate) fn division_rule(
    alloc: Global,
    adts: &[AdtDecl],
    step: u32,
    t: &Pterm,
    u: &Pterm,
    q: &Sequent,
) -> Result<Option<Vec<Sequent>>, NoMemory>
    ensures { IfOk result (λ o. Finds (division_rule adts.now step q.now t.now u.now) o) }
{
    let Some(a) = number_at(alloc, adts, q, t)? else {
        return Ok(None);
    };
    let Some(b) = number_at(alloc, adts, q, u)? else {
        return Ok(None);
    };
    let formulas = division(alloc, &a, &b)?;
    Ok(Some(assuming_all(alloc, step, q, formulas.as_slice())?))
}
