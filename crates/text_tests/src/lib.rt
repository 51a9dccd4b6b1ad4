//! Tests of names, texts and lists, of tokens, and of what is printed.
#![tactic(auto)]

#[cfg(test)]
mod reports;
#[cfg(test)]
mod texts;
#[cfg(test)]
mod tokens;
