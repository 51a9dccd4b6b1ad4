//! Tests of the calls that read the words of a source and parse them by the whole grammar.
#![tactic(auto)]

#[cfg(test)]
mod limits;
#[cfg(test)]
mod sources;
#[cfg(test)]
mod terms;
