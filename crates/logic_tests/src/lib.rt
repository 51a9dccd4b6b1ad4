//! Tests of terms, of the steps of proofs and of proof files.
#![tactic(auto)]

#[cfg(test)]
mod certificates;
#[cfg(test)]
mod depth;
#[cfg(test)]
mod field_rows;
#[cfg(test)]
mod goals;
#[cfg(test)]
mod proof_files;
#[cfg(test)]
mod rows;
#[cfg(test)]
mod rule_rows;
#[cfg(test)]
mod steps;
#[cfg(test)]
mod terms;
#[cfg(test)]
mod variant_rows;
#[cfg(test)]
mod written;
