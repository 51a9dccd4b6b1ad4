//! The pieces of lines.
ghost use Rattle.std.specs.Prelude.{◌≡◌, ◌++◌, codes, OnOk};
ghost use Rattle.std.specs.Fmt.{decimal};
ghost use Rattle.report_out.specs.LineFeeds.{AreNumbered};
ghost use Rattle.report_out.specs.Report.{kind_text, reason_text, span_text, line_number, code_text, limit_text};

use crate::line_feeds::{Lines, line_at};
use crate::verdict::Reason;
use std::alloc::Global;
use text_core::{Code, Kind, LimitKind, NoMemory, Span};

pub(crate) fn push_text(out: &mut Vec<u8>, text: &[u8]) -> Result<(), NoMemory>
    ensures { OnOk result (out.new.items ≡ out.old.items ++ text.now) }
{
    out.extend_from_slice(text)?;
    Ok(())
}

pub(crate) fn push_number(alloc: Global, out: &mut Vec<u8>, number: u64) -> Result<(), NoMemory>
    ensures { OnOk result (out.new.items ≡ out.old.items ++ decimal number) }
{
    let digits = number.to_string(alloc)?;
    push_text(out, digits.as_bytes())
}

/// As the report spells it.
pub(crate) fn kind_bytes(kind: Kind) -> &'static [u8]
    ensures { result.now ≡ kind_text kind }
{
    match kind {
        Kind::Requires => b"requires",
        Kind::Assert => b"assert",
        Kind::Overflow => b"overflow",
        Kind::Division => b"division",
        Kind::Unreachable => b"unreachable",
        Kind::InvEntry => b"inv-entry",
        Kind::InvKept => b"inv-kept",
        Kind::Ensures => b"ensures",
        Kind::RefineRequires => b"refine-requires",
        Kind::RefineEnsures => b"refine-ensures",
        Kind::Law => b"law",
        Kind::Lemma => b"lemma",
    }
}

/// As the report spells it.
pub(crate) fn code_bytes(code: Code) -> &'static [u8]
    ensures { result.now ≡ code_text code }
{
    match code {
        Code::E01 => b"E01",
        Code::E02 => b"E02",
        Code::E03 => b"E03",
        Code::E04 => b"E04",
        Code::E05 => b"E05",
        Code::E06 => b"E06",
        Code::E07 => b"E07",
        Code::E08 => b"E08",
        Code::E09 => b"E09",
        Code::E10 => b"E10",
        Code::E11 => b"E11",
        Code::E12 => b"E12",
        Code::E13 => b"E13",
        Code::E14 => b"E14",
        Code::E15 => b"E15",
        Code::E16 => b"E16",
        Code::E17 => b"E17",
        Code::E18 => b"E18",
        Code::E19 => b"E19",
        Code::E20 => b"E20",
        Code::E21 => b"E21",
        Code::E22 => b"E22",
    }
}

/// As the report spells it.
pub(crate) fn limit_bytes(kind: LimitKind) -> &'static [u8]
    ensures { result.now ≡ limit_text kind }
{
    match kind {
        LimitKind::SourceBytes => b"source-bytes",
        LimitKind::Functions => b"functions",
        LimitKind::Blocks => b"blocks",
        LimitKind::Paths => b"paths",
        LimitKind::Obligations => b"obligations",
        LimitKind::ProofBytes => b"proof-bytes",
        LimitKind::ProofLines => b"proof-lines",
        LimitKind::Frames => b"frames",
        LimitKind::Width => b"width",
        LimitKind::Rows => b"rows",
        LimitKind::Terms => b"terms",
    }
}

pub(crate) fn push_reason(alloc: Global, out: &mut Vec<u8>, reason: Reason) -> Result<(), NoMemory>
    ensures { OnOk result (out.new.items ≡ out.old.items ++ reason_text reason) }
{
    match reason {
        Reason::Missing => push_text(out, b"missing"),
        Reason::Proof(line) => {
            push_text(out, b"proof:")?;
            push_number(alloc, out, line as u64)
        }
    }
}

pub(crate) fn push_span(alloc: Global, out: &mut Vec<u8>, span: Span) -> Result<(), NoMemory>
    ensures { OnOk result (out.new.items ≡ out.old.items ++ span_text span) }
{
    push_number(alloc, out, span.start as u64)?;
    push_text(out, b"..")?;
    push_number(alloc, out, span.end as u64)
}

/// The span, and the line where it starts.
pub(crate) fn push_place(
    alloc: Global,
    out: &mut Vec<u8>,
    span: Span,
    lines: &Lines<'_>,
) -> Result<(), NoMemory>
    requires { AreNumbered lines.now }
    ensures { OnOk result (out.new.items ≡ out.old.items ++ (span_text span ++ codes " line " ++ decimal (line_number lines.now.source.now span.start))) }
{
    push_span(alloc, out, span)?;
    push_text(out, b" line ")?;
    push_number(alloc, out, line_at(lines, span.start))
}
