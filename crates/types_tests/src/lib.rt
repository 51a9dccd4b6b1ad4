//! Tests of the table of declared types, of which types are `Copy`, of assignments, of what leaves, of `break` and `continue`, of tuples, of structs in functions, of fields in terms, of casts, of `match`, `if let` and `while let`, and of what does not run yet.
#![tactic(auto)]

#[cfg(test)]
mod assigning;
#[cfg(test)]
mod breaking;
#[cfg(test)]
mod build;
#[cfg(test)]
mod casting;
#[cfg(test)]
mod closing;
#[cfg(test)]
mod copying;
#[cfg(test)]
mod declaring;
#[cfg(test)]
mod field_terms;
#[cfg(test)]
mod leaving;
#[cfg(test)]
mod making;
#[cfg(test)]
mod matching;
#[cfg(test)]
mod meaning;
#[cfg(test)]
mod running;
#[cfg(test)]
mod structs;
#[cfg(test)]
mod tables;
#[cfg(test)]
mod tupling;
