use crate::test::Test;
use logic_term::{PatPath, TypedPat};

/// What is known of a value says that a pattern does not match, that it matches, or what has to be tested first, and where.
#[derive(Drop)]
pub enum Finding {
    Fails,
    Sure,
    Asks(PatPath, Test),
}

/// What the arms, from above, come to by what is known of a value.
#[derive(Drop)]
pub enum NextTest<'a> {
    /// No arm is left.
    NoRow,
    /// This arm is reached.
    Row(u32, &'a TypedPat),
    /// The first arm that is left, and what it asks.
    Test(usize, PatPath, Test),
}
