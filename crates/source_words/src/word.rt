use source_kinds::IntKind;
use text_core::{Name, Span};

/// A token of a source.
#[derive(Clone, Copy)]
pub struct Word {
    /// The number of its terminal in the grammar.
    pub kind: u8,
    pub span: Span,
    /// Of an identifier or a lifetime; the name 0 of other tokens.
    pub name: Name,
    /// Of an integer; 0 of other tokens.
    pub value: i128,
    /// The type at the end of an integer; `None` of other tokens.
    pub suffix: Option<IntKind>,
}
