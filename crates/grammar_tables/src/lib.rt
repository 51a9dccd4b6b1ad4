//! Grammars as tables: a predictive parser that goes by them, and an evaluator of the derivations that it finds.
#![tactic(auto)]

mod evaluating;
mod laws;
mod parsing;
mod symbol;
mod tables;

pub use evaluating::{Expansion, SemanticValue, Work, evaluate};
pub use laws::{
    a_derivation_has_one_tree, a_refusal_is_at_the_first_offender, a_text_has_one_derivation,
    sums_meet_the_conditions, the_tests_show_the_conditions, what_is_accepted_is_derived,
};
pub use parsing::{Expected, Front, ParseError, Refusal, parse, parse_front};
pub use symbol::{Mark, Symbol};
pub use tables::{BodyRange, Tables};
