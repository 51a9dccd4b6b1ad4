//! Tests of patterns: which values are missing, and the trees of tests.
#![tactic(auto)]

pub mod answers;
#[cfg(test)]
mod build;
#[cfg(test)]
mod tables;
pub mod texts;
pub mod typing;
