//! Tests of written patterns at types, and of what makes values by a name or a path, from the texts of sources.
#![tactic(auto)]

#[cfg(test)]
mod boxes;
#[cfg(test)]
mod constructors_named;
#[cfg(test)]
mod fields;
#[cfg(test)]
mod leaves;
#[cfg(test)]
mod making;
#[cfg(test)]
mod modes;
pub mod printed;
#[cfg(test)]
mod source;
#[cfg(test)]
mod tuples;
