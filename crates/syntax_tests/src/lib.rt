//! Tests of the calls that make trees of sources and of terms.
#![tactic(auto)]

#[cfg(test)]
mod cursors;
#[cfg(test)]
mod grouping;
#[cfg(test)]
mod items;
#[cfg(test)]
mod terms;
