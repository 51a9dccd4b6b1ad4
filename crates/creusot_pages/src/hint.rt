//! What the codes of refusals mean, and what to do about them.
use text_core::{Code, LimitKind};

/// What a code is about, in a few words.
pub(crate) fn title(code: Code) -> &'static str {
    match code {
        Code::E01 => "not UTF-8",
        Code::E02 => "no token",
        Code::E03 => "unexpected token",
        Code::E04 => "too deep",
        Code::E05 => "unknown name",
        Code::E06 => "name given twice",
        Code::E07 => "mismatched types",
        Code::E08 => "type annotation needed",
        Code::E09 => "reference behind a reference",
        Code::E10 => "type holds itself without `Box`",
        Code::E11 => "patterns do not cover all values",
        Code::E12 => "no impl meets the bound",
        Code::E13 => "impls overlap",
        Code::E14 => "missing item of an impl",
        Code::E15 => "logic function out of order",
        Code::E16 => "use of what holds no value",
        Code::E17 => "loan conflict",
        Code::E18 => "loan outlives its place",
        Code::E19 => "logic in program code",
        Code::E20 => "not in the language",
        Code::E21 => "move out of a reference",
        Code::E22 => "not mutable",
    }
}

/// What helps most often.
pub(crate) fn hint(code: Code) -> &'static str {
    match code {
        Code::E01 => "save the file as UTF-8",
        Code::E02 => "remove the character, or close the text or comment that begins here",
        Code::E03 =>
            "see the grammar in docs/language.md; what stands here cannot go on what stands before",
        Code::E04 => "give parts of the expression names by `let`",
        Code::E05 => "no variable, function or type of this name is in scope here",
        Code::E06 => "give one of the two another name",
        Code::E07 => "the type here is not the one that its place asks for",
        Code::E08 => "write the type",
        Code::E09 => "take the inner reference away",
        Code::E10 => "put a `Box` around the part, and give an enum a variant that ends",
        Code::E11 => "add an arm for what is left, or `_`",
        Code::E12 => "write the impl, or ask for less",
        Code::E13 => "remove one of the impls",
        Code::E14 => "write the item that the trait asks for",
        Code::E15 =>
            "recursion goes to a part that a `match` took apart, and calls go to functions further up",
        Code::E16 => "it was moved or never written",
        Code::E17 => "end the earlier loan first",
        Code::E18 => "the place must live longer than its loan",
        Code::E19 => "call logic functions in contracts alone",
        Code::E20 =>
            "this form of Rust is left out, or not built yet: docs/language.md says which are",
        Code::E21 => "copy or clone the value",
        Code::E22 => "declare it with `mut`",
    }
}

/// What is counted by a limit.
pub(crate) fn counted(kind: LimitKind) -> &'static str {
    match kind {
        LimitKind::SourceBytes => "bytes of the source",
        LimitKind::Functions => "functions",
        LimitKind::Blocks => "blocks of a function",
        LimitKind::Paths => "paths of a function",
        LimitKind::Obligations => "obligations",
        LimitKind::ProofBytes => "bytes of the proof file",
        LimitKind::ProofLines => "lines of the proof file",
        LimitKind::Frames => "frames of a run",
        LimitKind::Width => "width of a term",
        LimitKind::Rows => "rows of a step",
        LimitKind::Terms => "terms",
    }
}
