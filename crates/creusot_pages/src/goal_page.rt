//! The obligations of a source that are open, each with its place and with the sequent at which its proof ends.
ghost use Rattle.std.specs.Prelude.{◌≡◌, ◌<◌, ◌+◌, ◌^◌, length, IfSome};

use crate::attempt::{introduced, steps_done};
use crate::naming::Words;
use crate::opening::{Intro, declared_by, push_opened};
use crate::place::{Source, marked_line, place_text};
use crate::sequent_page::push_sequent;
use crate::spelling::Spelled;
use logic_term::Obligation;
use proof_kernel::Kernel;
use proof_text::{NumberedStep, Proof};
use std::alloc::Global;
use text_core::{Kind, NoMemory};
use verify_core::Program;

/// What is to be shown, that is the obligation, as the report calls it.
pub(crate) fn kind_text(kind: Kind) -> &'static str {
    match kind {
        Kind::Requires => "requires",
        Kind::Assert => "assert",
        Kind::Overflow => "overflow",
        Kind::Division => "division",
        Kind::Unreachable => "unreachable",
        Kind::InvEntry => "inv-entry",
        Kind::InvKept => "inv-kept",
        Kind::Ensures => "ensures",
        Kind::RefineRequires => "refine-requires",
        Kind::RefineEnsures => "refine-ensures",
        Kind::Law => "law",
        Kind::Lemma => "lemma",
    }
}

/// A source that is accepted, and its words.
#[derive(Clone, Copy)]
pub(crate) struct Accepted<'a> {
    pub(crate) source: Source<'a>,
    pub(crate) program: &'a Program,
    pub(crate) words: &'a Words,
}

/// The proofs of a file of this name, whose names are those of the program's table.
#[derive(Clone, Copy)]
pub(crate) struct Proofs<'a> {
    pub(crate) name: &'a str,
    pub(crate) proofs: &'a [Proof],
}

impl<'a> Proofs<'a> {
    /// The proof of the obligation; `None` where there is none.
    fn proof_for(&self, obligation: &Obligation) -> Option<&'a Proof>
        ensures { IfSome result (λ proof. (proof.now.number ≡ obligation.now.number) × (proof.now.owner ≡ obligation.now.owner)) }
    {
        for proof in self.proofs {
            if proof.number == obligation.number && proof.owner.same(&obligation.owner) {
                return Some(proof);
            }
        }
        None
    }
}

/// Behind an empty line, `FILE:LINE:COLUMN: KIND, obligation N of f`, the line and a mark under the place.
fn push_heading(
    alloc: Global,
    out: &mut String,
    source: Source<'_>,
    obligation: &Obligation,
) -> Result<(), NoMemory> {
    let place = place_text(alloc, source, obligation.span)?;
    let line = marked_line(alloc, source, obligation.span)?;
    let owner = String::from_utf8_lossy(alloc, obligation.owner.bytes())?;
    let (kind, number) = (kind_text(obligation.kind), obligation.number);
    if !out.is_empty() {
        out.push('\n')?;
    }
    write!(
        out,
        "{place}: {kind}, obligation {number} of {owner}\n{line}"
    )?;
    Ok(())
}

/// An obligation without a proof.
fn push_unproved(
    alloc: Global,
    out: &mut String,
    accepted: Accepted<'_>,
    obligation: &Obligation,
) -> Result<(), NoMemory> {
    let intro = Intro::of(alloc, accepted.words, obligation)?;
    push_heading(alloc, out, accepted.source, obligation)?;
    out.push_str("    no proof\n")?;
    push_opened(alloc, out, obligation, accepted.program, &intro, "    ")
}

/// The line of the step that is refused, or of the `end` where sequents are left.
fn line_of_stop(steps: &[NumberedStep], done: usize, end: u32) -> u32 {
    match steps.get(done) {
        Some(step) => step.line,
        None => end,
    }
}

/// The first sequent that is left where the proof ends, and how many are.
fn push_stop(
    alloc: Global,
    out: &mut String,
    program: &Program,
    kernel: &Kernel<'_>,
    steps: &[NumberedStep],
) -> Result<(), NoMemory>
    requires { length steps.now + 2 < 2 ^ 32 }
{
    let variables = introduced(alloc, steps)?;
    let number = steps.len() as u32 + 1;
    match kernel.first() {
        Some(q) => {
            let spelled = Spelled {
                alloc,
                variables: &program.names,
                declared: declared_by(program),
                sequent: q,
            };
            push_sequent(out, &spelled, &variables, number, "    ")
        }
        None => Ok(out.push_str("    nothing is left to prove\n")?),
    }
}

/// An obligation with a proof, where that is refused.
fn push_attempt(
    alloc: Global,
    out: &mut String,
    accepted: Accepted<'_>,
    obligation: &Obligation,
    proof: &Proof,
    file: &str,
) -> Result<(), NoMemory> {
    let steps = proof.steps.as_slice();
    if steps.len() >= u32::MAX as usize - 2 {
        return Err(NoMemory);
    }
    let mut kernel = Kernel::new(alloc, obligation, &accepted.program.tables)?;
    let done = steps_done(alloc, &mut kernel, steps)?;
    if done >= steps.len() && kernel.closed() {
        return Ok(());
    }
    push_heading(alloc, out, accepted.source, obligation)?;
    let line = line_of_stop(steps, done, proof.end);
    writeln!(out, "    {file}:{line}: the proof stops here, at")?;
    let (before, _) = steps.split_at(steps.len().min(done));
    push_stop(alloc, out, accepted.program, &kernel, before)
}

/// All obligations that are open, in order.
pub(crate) fn goals_text(
    alloc: Global,
    accepted: Accepted<'_>,
    proofs: Proofs<'_>,
) -> Result<String, NoMemory> {
    let mut out = String::new(alloc);
    for owed in accepted.program.obligations.as_slice() {
        let obligation = &owed.obligation;
        match proofs.proof_for(obligation) {
            Some(proof) => {
                let file = proofs.name;
                push_attempt(alloc, &mut out, accepted, obligation, proof, file)?;
            }
            None => push_unproved(alloc, &mut out, accepted, obligation)?,
        }
    }
    Ok(out)
}
