//! Tests of the pages of the companion.
#![tactic(auto)]

#[cfg(test)]
mod pages;
