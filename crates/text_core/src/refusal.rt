use crate::span::Span;

/// Why a source is refused.
#[derive(Clone, Copy, Debug, PartialEq, Eq)]
pub enum Code {
    /// E01 NotUtf8
    E01,
    /// E02 BadToken
    E02,
    /// E03 Syntax
    E03,
    /// E04 Depth
    E04,
    /// E05 UnknownName
    E05,
    /// E06 DoubleName
    E06,
    /// E07 TypeMismatch
    E07,
    /// E08 AnnotationNeeded
    E08,
    /// E09 NestedReference
    E09,
    /// E10 RecursiveWithoutBox
    E10,
    /// E11 NonExhaustive
    E11,
    /// E12 NoImpl
    E12,
    /// E13 OverlappingImpls
    E13,
    /// E14 MissingImplItem
    E14,
    /// E15 LogicOrder
    E15,
    /// E16 UseOfUninit
    E16,
    /// E17 LoanConflict
    E17,
    /// E18 EscapingLoan
    E18,
    /// E19 LogicInProgram
    E19,
    /// E20 NotInProfile
    E20,
    /// E21 MoveOutOfReference
    E21,
    /// E22 NotMutable
    E22,
}

/// A refusal of a source: why and where. `other` is the second place of E13 and E17, and `None` for all others.
#[derive(Clone, Copy, Debug)]
pub struct SourceError {
    pub code: Code,
    pub span: Span,
    pub other: Option<Span>,
}

/// A quantity that is counted and bounded.
#[derive(Clone, Copy, Debug, PartialEq, Eq)]
pub enum LimitKind {
    SourceBytes,
    Functions,
    Blocks,
    Paths,
    Obligations,
    ProofBytes,
    ProofLines,
    Frames,
    Width,
    Rows,
    Terms,
}

/// A quantity past its bound: what was counted, and the bound.
#[derive(Clone, Copy, Debug)]
pub struct Limit {
    pub kind: LimitKind,
    pub counted: u64,
    pub bound: u64,
}

/// The kinds of obligations.
#[derive(Clone, Copy, PartialEq, Eq)]
pub enum Kind {
    Requires,
    Assert,
    Overflow,
    Division,
    Unreachable,
    InvEntry,
    InvKept,
    Ensures,
    RefineRequires,
    RefineEnsures,
    Law,
    Lemma,
}

/// Why a run panics.
#[derive(Clone, Copy, PartialEq, Eq)]
pub enum Cause {
    Overflow,
    Division,
    Panic,
    Unreachable,
}
