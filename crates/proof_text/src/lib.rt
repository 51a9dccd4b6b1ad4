//! Proof files, version 1: the proofs of obligations, step by step, as text.
#![tactic(auto)]

mod fault;
mod laws;
mod line;
mod lists;
mod proof;
mod reader;
mod rule_words;
mod step;
mod table;
mod texts;
mod word;

pub use fault::ProofTextError;
pub use laws::{a_file_is_spelled_once, texts_have_one_reading};
pub use proof::{NumberedStep, Proof, ProofFile};
pub use reader::read_proofs;
