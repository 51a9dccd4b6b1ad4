//! A proof file to begin with: each obligation with its goal as a comment, and an `intro` with names.
use crate::goal_page::{Accepted, kind_text};
use crate::opening::{Intro, push_opened};
use crate::place::place_text;
use logic_term::Obligation;
use std::alloc::Global;
use text_core::NoMemory;

/// `# FILE:LINE:COLUMN: KIND`
fn push_comment(
    alloc: Global,
    out: &mut String,
    accepted: Accepted<'_>,
    obligation: &Obligation,
) -> Result<(), NoMemory> {
    let place = place_text(alloc, accepted.source, obligation.span)?;
    let kind = kind_text(obligation.kind);
    writeln!(out, "# {place}: {kind}")?;
    Ok(())
}

/// `intro x y`
fn push_intro(out: &mut String, intro: &Intro) -> Result<(), NoMemory> {
    out.push_str("intro")?;
    for name in &intro.given {
        out.push(' ')?;
        out.push_str(intro.names.text(*name).unwrap_or("_"))?;
    }
    Ok(out.push('\n')?)
}

/// The lines of a proof that is to be written.
fn push_proof(
    alloc: Global,
    out: &mut String,
    obligation: &Obligation,
    intro: &Intro,
) -> Result<(), NoMemory> {
    let owner = String::from_utf8_lossy(alloc, obligation.owner.bytes())?;
    writeln!(out, "proof {} {owner}", obligation.number)?;
    if intro.any {
        push_intro(out, intro)?;
    }
    Ok(out.push_str("end\n")?)
}

/// An obligation: its place and its sequent behind the `intro` as comments, and its proof.
fn push_obligation(
    alloc: Global,
    out: &mut String,
    accepted: Accepted<'_>,
    obligation: &Obligation,
) -> Result<(), NoMemory> {
    let intro = Intro::of(alloc, accepted.words, obligation)?;
    push_comment(alloc, out, accepted, obligation)?;
    push_opened(alloc, out, obligation, accepted.program, &intro, "#     ")?;
    push_proof(alloc, out, obligation, &intro)
}

/// The file: a proof of each obligation, in order.
pub(crate) fn skeleton_text(alloc: Global, accepted: Accepted<'_>) -> Result<String, NoMemory> {
    let mut out = "creusot-proofs 1\n".to_string(alloc)?;
    for owed in accepted.program.obligations.as_slice() {
        push_obligation(alloc, &mut out, accepted, &owed.obligation)?;
    }
    Ok(out)
}
