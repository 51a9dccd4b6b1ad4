//! The numbers of lines. The line feeds of a source are found once for all lines of a report.
ghost use Rattle.std.specs.Prelude.{◌≡◌, ◌+◌, ◌^◌, ◌<◌, ◌++◌, length, IfOk};
ghost use Rattle.report_out.specs.LineFeeds.{AreNumbered, feeds_from, line_feeds};
ghost use Rattle.report_out.specs.Report.{line_number};

use std::alloc::Global;
use text_core::{Items, NoMemory};

/// A source, and the offsets of its line feeds, from 0, in order.
#[derive(Drop)]
pub(crate) struct Lines<'a> {
    pub source: &'a [u8],
    pub feeds: Items<u32>,
}

fn line_feeds(alloc: Global, source: &[u8]) -> Result<Items<u32>, NoMemory>
    requires { length source.now + 1 < 2 ^ 32 }
    ensures { IfOk result (λ feeds. feeds ≡ line_feeds source.now) }
{
    let mut feeds = Items::new(alloc);
    for at in 0..source.len() {
        if source[at] == b'\n' {
            feeds.push(at as u32)?;
        }
    }
    Ok(feeds)
}

/// The source with the places of its line feeds. The one error is want of memory.
pub(crate) fn lines_of<'a>(alloc: Global, source: &'a [u8]) -> Result<Lines<'a>, NoMemory>
    requires { length source.now + 1 < 2 ^ 32 }
    ensures numbered { IfOk result AreNumbered }
    ensures source { IfOk result (λ lines. lines.source.now ≡ source.now) }
{
    let feeds = line_feeds(alloc, source)?;
    Ok(Lines { source, feeds })
}

/// How many line feeds stand before the offset: the feeds that are looked for in halves.
fn feeds_before(lines: &Lines<'_>, offset: u32) -> usize
    requires { AreNumbered lines.now }
    ensures { 1 + result ≡ line_number lines.now.source.now offset }
{
    let feeds = lines.feeds.as_slice();
    let mut first = 0usize;
    let mut last = feeds.len();
    while first < last {
        let middle = first + (last - first) / 2;
        if feeds[middle] < offset {
            first = middle + 1;
        } else {
            last = middle;
        }
    }
    first
}

/// The number of the line, from 1, in which the byte at the offset, from 0, stands: one more than the line feeds before it. An
/// offset past the end counts all line feeds. Takes no memory.
pub(crate) fn line_at(lines: &Lines<'_>, offset: u32) -> u64
    requires { AreNumbered lines.now }
    ensures { result ≡ line_number lines.now.source.now offset }
{
    feeds_before(lines, offset) as u64 + 1
}
