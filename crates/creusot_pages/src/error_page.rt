//! What is shown of a source without a verdict.
use crate::hint::{counted, hint, title};
use crate::place::{Source, marked_line, place_text};
use std::alloc::{AllocError, Global};
use text_core::{Limit, SourceError};
use verify_core::Refusal;

/// A refusal: its place, the line with a mark, and a hint.
fn source_text(
    alloc: Global,
    source: Source<'_>,
    error: SourceError,
) -> Result<String, AllocError> {
    let place = place_text(alloc, source, error.span)?;
    let line = marked_line(alloc, source, error.span)?;
    let (code, title, hint) = (error.code, title(error.code), hint(error.code));
    format!(in alloc; "{place}: error {code:?}: {title}\n{line}    hint: {hint}\n")
}

fn limit_text(alloc: Global, limit: Limit) -> Result<String, AllocError> {
    let kind = counted(limit.kind);
    format!(in alloc;
        "limit: {} {kind}, at most {}\n",
        limit.counted, limit.bound
    )
}

/// Why there is no verdict. `proofs` is the name of the proof file.
pub(crate) fn refusal_text(
    alloc: Global,
    source: Source<'_>,
    proofs: &str,
    refusal: Refusal,
) -> Result<String, AllocError> {
    match refusal {
        Refusal::Source(error) => source_text(alloc, source, error),
        Refusal::Limit(limit) => limit_text(alloc, limit),
        Refusal::Proof(line) => {
            format!(in alloc; "{proofs}:{line}: error: this line is no line of a proof file\n")
        }
        Refusal::NoMemory => Err(AllocError),
    }
}
