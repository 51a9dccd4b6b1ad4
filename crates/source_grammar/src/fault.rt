/// Why tokens are refused. Positions are numbers of tokens from 0; the number of all tokens is the end.
#[derive(Clone, Copy)]
pub enum SyntaxFault {
    /// E03: the token cannot continue.
    Stray(usize),
    /// E20: the token begins a construct of Rust that the language leaves out.
    LeftOut(usize),
    /// E04: the token opens a level too many, or is an operator too many of its chain.
    TooDeep(usize),
    NoMemory,
}
