//! Tests of bodies, of their obligations, and of their runs.
#![tactic(auto)]

#[cfg(test)]
mod bodies;
#[cfg(test)]
mod goals;
#[cfg(test)]
mod obligations;
#[cfg(test)]
mod runs;
