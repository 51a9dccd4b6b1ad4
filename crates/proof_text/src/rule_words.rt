//! The rules that words name.
ghost use Rattle.std.specs.Prelude.{◌≡◌};
ghost use Rattle.std.specs.Option.{option_copied};
ghost use Rattle.proof_text.specs.ProofTextFile.{at_labels, rule_step_of};
ghost use Rattle.proof_text.specs.ProofTextRules.{goal_rule_of, hypothesis_rule_of, pair_rule_of, term_line_of, target_of, put_in, rewriting_in, place_in};

use crate::word::{cut, label, labels};
use logic_term::Label2;
use proof_kernel::{
    Direction, GoalRule, HypothesisRule, PairRule, Rewriting, Step, Target, TermRule,
};

#[tactic(auto, unfolding(crate::specs::ProofTextRules::goal_rule_of))]
fn goal_rule(word: &str) -> Option<GoalRule>
    ensures { result ≡ goal_rule_of word.now }
{
    match word {
        "refl" => Some(GoalRule::Refl),
        "true" => Some(GoalRule::Truth),
        "left" => Some(GoalRule::Left),
        "right" => Some(GoalRule::Right),
        "contra" => Some(GoalRule::Contra),
        "byc" => Some(GoalRule::ByContradiction),
        "iff" => Some(GoalRule::Iff),
        "antisym" => Some(GoalRule::Antisymmetry),
        _ => None,
    }
}

#[tactic(auto, unfolding(crate::specs::ProofTextRules::hypothesis_rule_of))]
fn hypothesis_rule(word: &str) -> Option<HypothesisRule>
    ensures { result ≡ hypothesis_rule_of word.now }
{
    match word {
        "cases" => Some(HypothesisRule::Cases),
        "absurd" => Some(HypothesisRule::Absurd),
        "drop" => Some(HypothesisRule::Drop),
        "revert" => Some(HypothesisRule::Revert),
        "back" => Some(HypothesisRule::Back),
        "inj" => Some(HypothesisRule::Inject),
        "differ" => Some(HypothesisRule::Differ),
        _ => None,
    }
}

#[tactic(auto, unfolding(crate::specs::ProofTextRules::pair_rule_of))]
fn pair_rule(word: &str) -> Option<PairRule>
    ensures { result ≡ pair_rule_of word.now }
{
    match word {
        "mp" => Some(PairRule::ModusPonens),
        "absurd" => Some(PairRule::Contradiction),
        "mul" => Some(PairRule::Product),
        _ => None,
    }
}

/// A kind of line that ends with terms.
#[derive(Clone, Copy)]
pub(crate) enum TermLine {
    /// One term, and the rule.
    Rule(TermRule),
    /// Two terms: what is divided, and by what.
    Division,
    /// A label, and one term or more.
    Instance,
}

#[tactic(auto, unfolding(crate::specs::ProofTextRules::term_line_of))]
pub(crate) fn term_line(word: &str) -> Option<TermLine>
    ensures { result ≡ term_line_of word.now }
{
    match word {
        "cut" => Some(TermLine::Rule(TermRule::Cut)),
        "on" => Some(TermLine::Rule(TermRule::On)),
        "range" => Some(TermLine::Rule(TermRule::Range)),
        "exists" => Some(TermLine::Rule(TermRule::Witness)),
        "eta" => Some(TermLine::Rule(TermRule::Eta)),
        "div" => Some(TermLine::Division),
        "inst" => Some(TermLine::Instance),
        _ => None,
    }
}

/// The step of a rule at one label, or at two.
fn at_labels(head: &str, label: Label2, other: Option<Label2>) -> Option<Step>
    ensures { result ≡ at_labels head.now label other }
{
    match other {
        None => Some(Step::OnHypothesis(hypothesis_rule(head)?, label)),
        Some(other) => Some(Step::OnTwo(pair_rule(head)?, label, other)),
    }
}

/// The step of a rule, by its word and the rest of the line.
pub(crate) fn rule_step(head: &str, rest: Option<&str>) -> Option<Step>
    ensures { result ≡ rule_step_of head.now (option_copied rest.entry) }
{
    match rest {
        None => Some(Step::OnGoal(goal_rule(head)?)),
        Some(rest) => {
            let (label, other) = labels(rest)?;
            at_labels(head, label, other)
        }
    }
}

/// `in L`
fn target(rest: &str) -> Option<Target>
    ensures { result ≡ target_of rest.now }
{
    let (word, hypothesis) = cut(rest, ' ')?;
    let hypothesis = label(hypothesis)?;
    if word == "in" {
        Some(Target::Hyp(hypothesis))
    } else {
        None
    }
}

/// A label, alone or before `in` and another.
fn put(direction: Direction, rest: &str) -> Option<Rewriting>
    ensures { result ≡ put_in direction rest.now }
{
    match cut(rest, ' ') {
        None => {
            let equation = label(rest)?;
            Some(Rewriting {
                direction,
                equation,
                target: Target::Goal,
            })
        }
        Some((first, second)) => {
            let equation = label(first)?;
            let target = target(second)?;
            Some(Rewriting {
                direction,
                equation,
                target,
            })
        }
    }
}

/// A label, alone or before `in` and another.
pub(crate) fn place(rest: &str) -> Option<(Label2, Target)>
    ensures { result ≡ place_in rest.now }
{
    let put = put(Direction::Forward, rest)?;
    Some((put.equation, put.target))
}

/// Which equation is put where, from its first side to its second; the other way round behind `<`.
pub(crate) fn rewriting(rest: &str) -> Option<Rewriting>
    ensures { result ≡ rewriting_in rest.now }
{
    match cut(rest, ' ') {
        None => put(Direction::Forward, rest),
        Some((word, others)) => {
            if word == "<" {
                put(Direction::Backward, others)
            } else {
                put(Direction::Forward, rest)
            }
        }
    }
}
