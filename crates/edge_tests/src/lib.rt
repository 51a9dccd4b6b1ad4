//! Tests of the devices of the program, and of what the words of a call ask for.
#![tactic(auto)]

#[cfg(test)]
mod devices;
#[cfg(test)]
mod requests;
