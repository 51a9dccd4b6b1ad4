//! The list of the obligations of a source.
ghost use Rattle.std.specs.Prelude.{◌≡◌, ◌+◌, ◌^◌, ◌<◌, ◌++◌, codes, flat_map, length, IfOk, OnOk};
ghost use Rattle.std.specs.Fmt.{decimal};
ghost use Rattle.report_out.specs.LineFeeds.{AreNumbered};
ghost use Rattle.report_out.specs.Report.{line_feed, space, kind_text, span_text, line_number, listed_line, list_of};

use crate::line::{kind_bytes, push_number, push_place, push_text};
use crate::line_feeds::{Lines, lines_of};
use std::alloc::Global;
use text_core::{Kind, NoMemory, Span, Text};

/// An obligation with its goal, as it is listed.
#[derive(Drop)]
pub struct ListedItem {
    pub number: u32,
    pub kind: Kind,
    pub span: Span,
    pub owner: Text,
    /// As it is printed.
    pub goal: Text,
}

/// The words of an obligation before its place.
fn push_number_and_kind(alloc: Global, out: &mut Vec<u8>, item: &ListedItem) -> Result<(), NoMemory>
    ensures { OnOk result (out.new.items ≡ out.old.items ++ (codes "obligation " ++ decimal item.now.number ++ space ++ kind_text item.now.kind)) }
{
    push_text(out, b"obligation ")?;
    push_number(alloc, out, item.number as u64)?;
    push_text(out, b" ")?;
    push_text(out, kind_bytes(item.kind))
}

/// The words after its place, and the line of its goal.
fn push_owner_and_goal(out: &mut Vec<u8>, item: &ListedItem) -> Result<(), NoMemory>
    ensures { OnOk result (out.new.items ≡ out.old.items ++ (item.now.owner ++ line_feed ++ item.now.goal ++ line_feed)) }
{
    push_text(out, item.owner.bytes())?;
    push_text(out, b"\n")?;
    push_text(out, item.goal.bytes())?;
    push_text(out, b"\n")
}

fn push_listed(
    alloc: Global,
    out: &mut Vec<u8>,
    item: &ListedItem,
    lines: &Lines<'_>,
) -> Result<(), NoMemory>
    requires { AreNumbered lines.now }
    ensures { OnOk result (out.new.items ≡ out.old.items ++ listed_line lines.now.source.now item.now) }
{
    push_number_and_kind(alloc, out, item)?;
    push_text(out, b" ")?;
    push_place(alloc, out, item.span, lines)?;
    push_text(out, b" ")?;
    push_owner_and_goal(out, item)
}

/// The list of obligations of the source: two lines for each, in order. Its one error is want of memory.
pub fn listing(alloc: Global, items: &[ListedItem], source: &[u8]) -> Result<Vec<u8>, NoMemory>
    requires { length source.now + 1 < 2 ^ 32 }
    ensures { IfOk result (λ bytes. bytes.items ≡ list_of source.now items.now) }
{
    let lines = lines_of(alloc, source)?;
    let mut out = Vec::new(alloc);
    for item in items {
        push_listed(alloc, &mut out, item, &lines)?;
    }
    Ok(out)
}
