//! The kernel: sequents, the steps of proofs, and what each step makes of a sequent.
#![tactic(auto)]

mod back_rule;
mod constructor_rules;
mod decide_rule;
mod erasing;
mod eta_rule;
mod exchange;
mod goal_rules;
mod hypothesis_rules;
mod instances;
mod intro;
mod kernel;
mod laws;
mod linear;
mod local_context;
mod opened;
mod pair_rules;
mod polynomial;
mod rewrite_rules;
mod rules;
mod sequent;
mod setting;
mod sort_tests;
mod step;
mod term_rules;
mod unpack_rule;
mod variant_rules;

pub use kernel::{Kernel, StepError};
pub use laws::{
    proofs_are_accepted, rules_are_sound, steps_are_refused_once, steps_give_one_result,
    steps_name_their_own, what_is_derived_is_true, wide_is_not_done,
};
pub use linear::{LinAnswer, certifies};
pub use sequent::Sequent;
pub use setting::Tables;
pub use step::{
    Direction, GoalRule, HypothesisRule, Multiple, PairRule, Reference, Rewriting, Step, Target,
    TermRule,
};
