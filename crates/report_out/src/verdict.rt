use text_core::{Items, Kind, Span, Text};

/// Whether a function is verified.
#[derive(Drop)]
pub struct FnLine {
    /// As the report spells it.
    pub name: Text,
    pub verified: bool,
}

/// Why an obligation is left.
#[derive(Clone, Copy)]
pub enum Reason {
    /// No proof was given.
    Missing,
    /// The proof that was given is refused at this line of the proof file.
    Proof(u32),
}

/// An obligation that is not proved.
#[derive(Drop)]
pub struct LeftItem {
    pub number: u32,
    pub kind: Kind,
    pub span: Span,
    pub reason: Reason,
    pub owner: Text,
}

/// What is verified, and which obligations are left.
#[derive(Drop)]
pub struct Verdict {
    /// One line for each function, in source order.
    pub functions: Items<FnLine>,
    /// In the order of the obligations.
    pub left: Items<LeftItem>,
    pub obligations: u32,
    pub proved: u32,
}
