//! Formulas to be shown.
use logic_term::Term;
use std::marker::Model;
use text_core::{Kind, Span};

/// A formula to be shown at a point of a body, and what it is for.
#[derive(Drop)]
pub struct Goal {
    pub kind: Kind,
    pub span: Span,
    pub formula: Term,
}

/// A goal that a walk has met, behind what stands before it. Contracts see the goal with its formula closed and in normal form.
#[derive(Drop)]
pub struct MetGoal {
    pub kind: Kind,
    pub span: Span,
    pub goal: logic_term::Goal,
}

impl Model for MetGoal {
    ghost use Rattle.prophecy_logic.specs.contracts.goal.Goal as goals;
    ghost use Rattle.prophecy_logic.specs.declared.goal.Goal.{Goal as GoalValue};

    ghost Value = { GoalValue };

    ghost coded = { goals.the_row.coded };

    ghost view = { λ g. record { kind = g.kind; span = g.span; formula = g.goal } };
}
