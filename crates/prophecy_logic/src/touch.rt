//! What a loop does to a local.

/// What the blocks of a loop do to a local. A write through its dereference alone, which keeps the final value of a reference, would
/// be a case of its own; so far what is written is a whole local, and terms have no references.
#[derive(Clone, Copy)]
pub enum Touch {
    /// Nothing but reads.
    Untouched,
    /// It is assigned, moved, or has the answer of a call.
    Whole,
}
