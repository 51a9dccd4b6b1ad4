//! Lowering: typed functions become bodies of basic blocks.
#![tactic(auto)]

mod around;
mod assignment;
mod binding;
mod block_end;
mod builder;
mod contract;
mod expression;
mod function;
mod jump;
mod laws;
mod looping;
mod loops;
mod lowered;
mod matches;
mod operand;
mod program;
mod stop;
mod task;

pub use laws::{
    blocks_are_counted, lowered_bodies_are_laid_out, lowered_bodies_are_sound,
    lowered_contracts_speak_of_parameters, lowered_heads_speak_of_what_is_there,
    programs_lower_in_one_way,
};
pub use lowered::Lowered;
pub use program::lower;
