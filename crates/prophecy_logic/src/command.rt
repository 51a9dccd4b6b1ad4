use logic_term::{Term, Ty};
use text_core::Name;

/// What a statement, an edge or a call does to the values of names.
#[derive(Drop)]
pub enum Command {
    /// From here on the name stands for the value of the term.
    Set(Name, Term),
    /// From here on the name stands for some value of the type.
    Fresh(Name, Ty),
    /// From here on the formula is known.
    Assume(Term),
}
