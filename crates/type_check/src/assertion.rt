use logic_term::Term;
use text_core::{SourceError, Span};

/// A formula of a contract or an invariant.
#[derive(Drop)]
pub enum Assertion {
    /// The formula, of sort `bool`, over the names of the variables that are there and of the answer, and its span.
    Good(Span, Term),
    /// The written term has a name or a type that is refused.
    Bad(SourceError),
}
