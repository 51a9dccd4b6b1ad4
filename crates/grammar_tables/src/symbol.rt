/// What stands in the body of an alternative.
#[derive(Clone, Copy)]
pub enum Symbol {
    /// A token of the kind of that number, or from 128 on one of a class of kinds.
    Terminal(u8),
    /// A nonterminal, by its number.
    Nonterminal(u16),
}

/// What counts at a nonterminal towards a limit.
#[derive(Clone, Copy)]
pub enum Mark {
    Plain,
    /// Its tokens are one level deeper than those around it.
    Level,
    /// Each of its turns is one operator of a chain.
    Chain,
}
