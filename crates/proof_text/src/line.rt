ghost use Rattle.std.specs.Prelude.{◌≡◌, ℕ, ◌+◌, ◌^◌, ◌<◌, ◌≤◌, ◌==◌, List, Option, OnOk, length};
ghost use Rattle.std.specs.Option.{option_copied, option_map};
ghost use Rattle.proof_text.specs.ProofTextLines.{head_of, rest_of, heading_of, NamesOfParts, NamesTexts};
ghost use Rattle.proof_text.specs.ProofTextFile.{heading, line_by_head, is_passed, line_of};
ghost use Rattle.proof_text.specs.ProofTextReads.{Reads, KeepsNames, GivesTexts, utf8_of, IsHeaded, IsLineOf, room_of};

use crate::fault::Fault;
use crate::step::step;
use crate::word::{cut, number};
use proof_kernel::Step;
use rs_tokens::is_identifier;
use std::alloc::Global;
use text_core::Names;

/// A line after the first.
#[derive(Drop)]
pub(crate) enum Line<'a> {
    Passed,
    Heading(u32, &'a str),
    Step(Step),
    End,
}

/// `NUMBER OWNER`
fn heading<'a>(rest: &'a str) -> Result<Line<'a>, Fault>
    ensures { (table : List (List ℕ)) (head : List ℕ) (whole : Option (List ℕ)) → Reads (IsHeaded table head whole) result (option_map (λ h. heading h.0 h.1) (heading_of rest.now)) }
{
    let (number_word, owner) = cut(rest, ' ').ok_or(Fault::Bad)?;
    let number = number(number_word).ok_or(Fault::Bad)?;
    if !is_identifier(owner) {
        return Err(Fault::Bad);
    }
    Ok(Line::Heading(number, owner))
}

/// The line with this first word and this rest.
#[tactic(auto, unfolding(crate::specs::ProofTextFile::line_by_head))]
fn line_by_head<'a>(
    alloc: Global,
    head: &str,
    rest: Option<&'a str>,
    names: &mut Names,
) -> Result<Line<'a>, Fault>
    requires { length names.old + room_of (option_copied rest) < 2 ^ 32 }
    ensures said { Reads (IsHeaded names.new head.now (option_copied rest.entry)) result (line_by_head head.now (option_copied rest.entry)) }
    ensures table { OnOk result (GivesTexts (NamesOfParts head.now (option_copied rest.entry)) names.old names.new) }
    ensures kept { KeepsNames names.old names.new }
    ensures grown { length names.new ≤ length names.old + room_of (option_copied rest.entry) }
{
    if head == "proof" {
        return heading(rest.ok_or(Fault::Bad)?);
    }
    if head == "end" {
        if rest.is_some() {
            return Err(Fault::Bad);
        }
        return Ok(Line::End);
    }
    Ok(Line::Step(step(alloc, head, rest, names)?))
}

/// The first word, and what stands after the space behind it.
fn parts(text: &str) -> (&str, Option<&str>)
    ensures head { result.0.now ≡ head_of text.now }
    ensures rest { option_copied result.1 ≡ rest_of text.now }
{
    match cut(text, ' ') {
        Some((head, rest)) => (head, Some(rest)),
        None => (text, None),
    }
}

fn line_of_text<'a>(alloc: Global, text: &'a str, names: &mut Names) -> Result<Line<'a>, Fault>
    requires { length names.old + length text.now < 2 ^ 32 }
    ensures said { Reads (IsHeaded names.new (head_of text.now) (rest_of text.now)) result (line_by_head (head_of text.now) (rest_of text.now)) }
    ensures table { OnOk result (GivesTexts (NamesTexts text.now) names.old names.new) }
    ensures kept { KeepsNames names.old names.new }
    ensures grown { length names.new ≤ length names.old + length text.now }
{
    let (head, rest) = parts(text);
    line_by_head(alloc, head, rest, names)
}

fn utf8(bytes: &[u8]) -> Option<&str>
    ensures { option_copied result ≡ utf8_of bytes.now }
{
    str::from_utf8(bytes).ok()
}

/// Whether the line is empty or a comment.
fn is_passed(text: &[u8]) -> bool
    ensures { result ≡ is_passed text.now }
{
    text.is_empty() || text[0] == b'#'
}

/// What the line spells.
#[tactic(auto, unfolding(crate::specs::ProofTextFile::line_of))]
pub(crate) fn read_line<'a>(
    alloc: Global,
    text: &'a [u8],
    names: &mut Names,
) -> Result<Line<'a>, Fault>
    requires { length names.old + length text.now + 1 < 2 ^ 32 }
    ensures said { Reads (IsLineOf names.new text.now) result (line_of text.now) }
    ensures table { OnOk result (GivesTexts (NamesTexts text.now) names.old names.new) }
    ensures kept { KeepsNames names.old names.new }
    ensures grown { length names.new ≤ length names.old + length text.now }
{
    if is_passed(text) {
        return Ok(Line::Passed);
    }
    match utf8(text) {
        Some(text) => line_of_text(alloc, text, names),
        None => Err(Fault::Bad),
    }
}
