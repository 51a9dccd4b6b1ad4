//! The lines that say why there is no report.
ghost use Rattle.std.specs.Prelude.{◌≡◌, ◌+◌, ◌^◌, ◌<◌, ◌++◌, codes, length, IfOk, OnOk, Option};
ghost use Rattle.std.specs.Fmt.{decimal};
ghost use Rattle.report_out.specs.Report.{line_feed, space, span_text, other_text, source_error_line, proof_error_line, words_error_line, limit_line, line_number, code_text, limit_text};

use crate::line::{code_bytes, limit_bytes, push_number, push_place, push_span, push_text};
use std::alloc::Global;
use text_core::{Limit, NoMemory, SourceError, Span, line_of};

/// The second place of a refusal, where it has one.
fn push_other(alloc: Global, out: &mut Vec<u8>, other: Option<Span>) -> Result<(), NoMemory>
    ensures { OnOk result (out.new.items ≡ out.old.items ++ other_text other) }
{
    match other {
        None => Ok(()),
        Some(span) => {
            push_text(out, b" ")?;
            push_span(alloc, out, span)
        }
    }
}

/// The words of a refusal before its line.
fn push_refusal(alloc: Global, out: &mut Vec<u8>, error: SourceError) -> Result<(), NoMemory>
    ensures { OnOk result (out.new.items ≡ out.old.items ++ (codes "error " ++ code_text error.code ++ space ++ span_text error.span ++ other_text error.other)) }
{
    push_text(out, b"error ")?;
    push_text(out, code_bytes(error.code))?;
    push_text(out, b" ")?;
    push_span(alloc, out, error.span)?;
    push_other(alloc, out, error.other)
}

/// The line for a source that is refused. Its one error is want of memory.
pub fn source_error(alloc: Global, error: SourceError, source: &[u8]) -> Result<Vec<u8>, NoMemory>
    requires { length source.now + 1 < 2 ^ 32 }
    ensures { IfOk result (λ bytes. bytes.items ≡ source_error_line source.now error) }
{
    let mut out = Vec::new(alloc);
    push_refusal(alloc, &mut out, error)?;
    push_text(&mut out, b" line ")?;
    push_number(alloc, &mut out, line_of(source, error.span.start) as u64)?;
    push_text(&mut out, b"\n")?;
    Ok(out)
}

/// The line for a proof file that is refused at this line of it, from 1. Its one error is want of memory.
pub fn proof_error(alloc: Global, line: u32) -> Result<Vec<u8>, NoMemory>
    ensures { IfOk result (λ bytes. bytes.items ≡ proof_error_line line) }
{
    let mut out = Vec::from_slice(alloc, b"error proof ")?;
    push_number(alloc, &mut out, line as u64)?;
    push_text(&mut out, b"\n")?;
    Ok(out)
}

/// The line for words that the program is not called with. Its one error is want of memory.
pub fn words_error(alloc: Global) -> Result<Vec<u8>, NoMemory>
    ensures { IfOk result (λ bytes. bytes.items ≡ words_error_line) }
{
    Ok(Vec::from_slice(alloc, b"error words\n")?)
}

/// The line for a quantity past its bound. Its one error is want of memory.
pub fn limit_error(alloc: Global, limit: Limit) -> Result<Vec<u8>, NoMemory>
    ensures { IfOk result (λ bytes. bytes.items ≡ limit_line limit) }
{
    let mut out = Vec::from_slice(alloc, b"limit ")?;
    push_text(&mut out, limit_bytes(limit.kind))?;
    push_text(&mut out, b" ")?;
    push_number(alloc, &mut out, limit.counted)?;
    push_text(&mut out, b" ")?;
    push_number(alloc, &mut out, limit.bound)?;
    push_text(&mut out, b"\n")?;
    Ok(out)
}
