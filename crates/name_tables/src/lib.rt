//! Tables of names that grow as texts are used: laws, and no code.
#![tactic(auto)]

mod laws;

pub use laws::{a_table_keeps_its_names, each_text_has_one_name};
