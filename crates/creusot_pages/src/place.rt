//! Places in a source: file, line and column, the line, and a mark under the place.
ghost use Rattle.std.specs.Prelude.{◌≡◌, ◌≢◌, ◌<◌, ◌≤◌, ◌-◌, ℕ, get_or, length};

use std::alloc::{AllocError, Global};
use text_core::Span;

const LINE_FEED: u8 = b'\n';

/// A source with the name of its file.
#[derive(Clone, Copy)]
pub struct Source<'a> {
    pub name: &'a str,
    pub bytes: &'a [u8],
}

/// A line of a source and where a place begins in it.
#[derive(Clone, Copy)]
struct Line<'a> {
    /// From 1.
    number: usize,
    /// What stands on the line before the place, which ends there or behind it.
    before: &'a [u8],
    marked: &'a [u8],
    behind: &'a [u8],
}

/// The offset behind the last line feed, or 0.
fn line_start(bytes: &[u8]) -> usize
    ensures within { result ≤ length bytes.now }
    ensures behind { 0 < result → get_or bytes.now (result - 1) 0 ≡ 10 }
    ensures last { (i : ℕ) → result ≤ i → i < length bytes.now → get_or bytes.now i 0 ≢ 10 }
{
    let mut start = bytes.len();
    while start > 0 {
        if bytes[start - 1] == LINE_FEED {
            return start;
        }
        start -= 1;
    }
    0
}

/// How many bytes stand before the first line feed.
fn line_length(bytes: &[u8]) -> usize
    ensures within { result ≤ length bytes.now }
    ensures before { result < length bytes.now → get_or bytes.now result 0 ≡ 10 }
    ensures first { (i : ℕ) → i < result → get_or bytes.now i 0 ≢ 10 }
{
    for i in 0..bytes.len() {
        if bytes[i] == LINE_FEED {
            return i;
        }
    }
    bytes.len()
}

fn line_feeds(bytes: &[u8]) -> usize
    ensures { result ≤ length bytes.now }
{
    bytes.iter().filter(|b| **b == LINE_FEED).count()
}

/// The line on which the span begins; a span that goes on to further lines is marked to the end of its first.
fn line_at(bytes: &[u8], span: Span) -> Line<'_> {
    let (front, rest) = bytes.split_at(bytes.len().min(span.start as usize));
    let (_, before) = front.split_at(line_start(front));
    let (line, _) = rest.split_at(line_length(rest));
    let wide = span.end.saturating_sub(span.start) as usize;
    let (marked, behind) = line.split_at(line.len().min(wide));
    Line {
        number: line_feeds(front).saturating_add(1),
        before,
        marked,
        behind,
    }
}

/// Whether the byte begins a character of UTF-8.
fn begins_character(byte: u8) -> bool {
    byte & 0b1100_0000 != 0b1000_0000
}

fn characters(bytes: &[u8]) -> usize
    ensures { result ≤ length bytes.now }
{
    bytes.iter().filter(|b| begins_character(**b)).count()
}

/// As wide as these bytes: a tab for each tab, and a space for each other character.
fn blank(alloc: Global, bytes: &[u8]) -> Result<String, AllocError> {
    let mut out = String::new(alloc);
    for byte in bytes {
        if *byte == b'\t' {
            out.push('\t')?;
        } else if begins_character(*byte) {
            out.push(' ')?;
        }
    }
    Ok(out)
}

/// As many `^` as characters, at least one.
fn mark(alloc: Global, bytes: &[u8]) -> Result<String, AllocError> {
    let mut out = String::new(alloc);
    for _ in 0..characters(bytes).max(1) {
        out.push('^')?;
    }
    Ok(out)
}

/// `FILE:LINE:COLUMN`, each from 1; columns count characters.
pub(crate) fn place_text(
    alloc: Global,
    source: Source<'_>,
    span: Span,
) -> Result<String, AllocError> {
    let line = line_at(source.bytes, span);
    let column = characters(line.before).saturating_add(1);
    format!(in alloc; "{}:{}:{column}", source.name, line.number)
}

/// The line of the place and, under it, a mark.
pub(crate) fn marked_line(
    alloc: Global,
    source: Source<'_>,
    span: Span,
) -> Result<String, AllocError> {
    let line = line_at(source.bytes, span);
    let before = String::from_utf8_lossy(alloc, line.before)?;
    let marked = String::from_utf8_lossy(alloc, line.marked)?;
    let behind = String::from_utf8_lossy(alloc, line.behind)?;
    let blank = blank(alloc, line.before)?;
    let mark = mark(alloc, line.marked)?;
    format!(in alloc; "    {before}{marked}{behind}\n    {blank}{mark}\n")
}
