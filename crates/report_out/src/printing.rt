//! The report of a verdict.
ghost use Rattle.std.specs.Prelude.{◌≡◌, ◌+◌, ◌^◌, ◌<◌, ◌++◌, codes, flat_map, length, IfOk, OnOk};
ghost use Rattle.std.specs.Fmt.{decimal};
ghost use Rattle.report_out.specs.LineFeeds.{AreNumbered};
ghost use Rattle.report_out.specs.Report.{line_feed, space, kind_text, reason_text, span_text, line_number, function_line, open_line, verified_count, summary_line, report_of};

use crate::line::{kind_bytes, push_number, push_place, push_reason, push_text};
use crate::line_feeds::{Lines, lines_of};
use crate::verdict::{FnLine, LeftItem, Verdict};
use std::alloc::Global;
use text_core::NoMemory;

/// The words of an open line before its place.
fn push_item(alloc: Global, out: &mut Vec<u8>, item: &LeftItem) -> Result<(), NoMemory>
    ensures { OnOk result (out.new.items ≡ out.old.items ++ (codes "open " ++ decimal item.now.number ++ space ++ kind_text item.now.kind)) }
{
    push_text(out, b"open ")?;
    push_number(alloc, out, item.number as u64)?;
    push_text(out, b" ")?;
    push_text(out, kind_bytes(item.kind))
}

/// The words of an open line after its place.
fn push_cause(alloc: Global, out: &mut Vec<u8>, item: &LeftItem) -> Result<(), NoMemory>
    ensures { OnOk result (out.new.items ≡ out.old.items ++ (reason_text item.now.reason ++ space ++ item.now.owner ++ line_feed)) }
{
    push_reason(alloc, out, item.reason)?;
    push_text(out, b" ")?;
    push_text(out, item.owner.bytes())?;
    push_text(out, b"\n")
}

fn push_open_line(
    alloc: Global,
    out: &mut Vec<u8>,
    item: &LeftItem,
    lines: &Lines<'_>,
) -> Result<(), NoMemory>
    requires { AreNumbered lines.now }
    ensures { OnOk result (out.new.items ≡ out.old.items ++ open_line lines.now.source.now item.now) }
{
    push_item(alloc, out, item)?;
    push_text(out, b" ")?;
    push_place(alloc, out, item.span, lines)?;
    push_text(out, b" ")?;
    push_cause(alloc, out, item)
}

fn push_open_lines(
    alloc: Global,
    out: &mut Vec<u8>,
    left: &[LeftItem],
    lines: &Lines<'_>,
) -> Result<(), NoMemory>
    requires { AreNumbered lines.now }
    ensures { OnOk result (out.new.items ≡ out.old.items ++ flat_map (open_line lines.now.source.now) left.now) }
{
    for item in left {
        push_open_line(alloc, out, item, lines)?;
    }
    Ok(())
}

/// The line of a function that is verified; nothing for another.
fn push_function(out: &mut Vec<u8>, function: &FnLine) -> Result<(), NoMemory>
    ensures { OnOk result (out.new.items ≡ out.old.items ++ function_line function.now) }
{
    if !function.verified {
        return Ok(());
    }
    push_text(out, b"verified ")?;
    push_text(out, function.name.bytes())?;
    push_text(out, b"\n")
}

fn push_functions(out: &mut Vec<u8>, functions: &[FnLine]) -> Result<(), NoMemory>
    ensures { OnOk result (out.new.items ≡ out.old.items ++ flat_map function_line functions.now) }
{
    for function in functions {
        push_function(out, function)?;
    }
    Ok(())
}

fn count_verified(v: &Verdict) -> usize
    ensures { result ≡ verified_count v.now }
{
    v.functions.as_slice().iter().filter(|f| f.verified).count()
}

/// Words, a number, words, a number.
fn push_two_counts(
    alloc: Global,
    out: &mut Vec<u8>,
    before: &[u8],
    first: u64,
    between: &[u8],
    second: u64,
) -> Result<(), NoMemory>
    ensures { OnOk result (out.new.items ≡ out.old.items ++ (before.now ++ decimal first ++ between.now ++ decimal second)) }
{
    push_text(out, before)?;
    push_number(alloc, out, first)?;
    push_text(out, between)?;
    push_number(alloc, out, second)
}

fn push_function_counts(alloc: Global, out: &mut Vec<u8>, v: &Verdict) -> Result<(), NoMemory>
    ensures { OnOk result (out.new.items ≡ out.old.items ++ (codes "summary functions " ++ decimal (length v.now.functions) ++ codes " verified " ++ decimal (verified_count v.now))) }
{
    let functions = v.functions.len() as u64;
    let verified = count_verified(v) as u64;
    push_two_counts(
        alloc,
        out,
        b"summary functions ",
        functions,
        b" verified ",
        verified,
    )
}

fn push_obligation_counts(alloc: Global, out: &mut Vec<u8>, v: &Verdict) -> Result<(), NoMemory>
    ensures { OnOk result (out.new.items ≡ out.old.items ++ (codes " obligations " ++ decimal v.now.obligations ++ codes " proved " ++ decimal v.now.proved)) }
{
    let obligations = v.obligations as u64;
    push_two_counts(
        alloc,
        out,
        b" obligations ",
        obligations,
        b" proved ",
        v.proved as u64,
    )
}

fn push_summary(alloc: Global, out: &mut Vec<u8>, v: &Verdict) -> Result<(), NoMemory>
    ensures { OnOk result (out.new.items ≡ out.old.items ++ summary_line v.now) }
{
    push_function_counts(alloc, out, v)?;
    push_obligation_counts(alloc, out, v)?;
    push_text(out, b"\n")
}

/// The report of the verdict on the source. Its one error is want of memory.
pub fn report(alloc: Global, v: &Verdict, source: &[u8]) -> Result<Vec<u8>, NoMemory>
    requires { length source.now + 1 < 2 ^ 32 }
    ensures { IfOk result (λ bytes. bytes.items ≡ report_of source.now v.now) }
{
    let lines = lines_of(alloc, source)?;
    let mut out = Vec::new(alloc);
    push_functions(&mut out, v.functions.as_slice())?;
    push_open_lines(alloc, &mut out, v.left.as_slice(), &lines)?;
    push_summary(alloc, &mut out, v)?;
    Ok(out)
}
