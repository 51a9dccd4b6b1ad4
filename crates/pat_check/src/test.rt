use logic_term::Ctor;
use source_kinds::IntKind;

/// What is asked of a value at some place.
#[derive(Clone, Copy)]
pub enum Test {
    /// What it is made by, where it may be made by this, of so many parts.
    Made(Ctor, u32),
    /// Whether it is this integer.
    Number(Option<IntKind>, i128),
    /// Which truth value it is.
    Truth,
}
