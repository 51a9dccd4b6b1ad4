//! What is shown of a source.
ghost use Rattle.std.specs.Prelude.{◌≤◌, ◌^◌, length};

use crate::error_page::refusal_text;
use crate::goal_page::{Accepted, Proofs, goals_text};
use crate::naming::Words;
use crate::place::Source;
use crate::skeleton_page::skeleton_text;
use std::alloc::Global;
use text_core::NoMemory;
use verify_core::{Program, Refusal, SOURCE_BYTES, prepare, proofs_of};

/// What is asked for.
#[derive(Clone, Copy)]
pub enum Verb {
    /// Why the source is refused.
    Errors,
    /// Its open obligations.
    Goals,
    /// A proof file to begin with.
    Skeleton,
}

/// What is printed.
#[derive(Drop)]
pub struct Page {
    pub text: String,
    /// Whether something stands in the way of a verdict.
    pub finds: bool,
}

/// The open obligations of a source that is accepted, with the proofs of a file, which may use the names of the source.
fn goals_page(
    alloc: Global,
    source: Source<'_>,
    program: Program,
    words: &Words,
    proofs: Source<'_>,
) -> Result<String, Refusal>
    requires { length program.names ≤ 2 ^ 20 }
{
    let mut program = program;
    let file = proofs_of(alloc, &mut program.names, proofs.bytes)?;
    let accepted = Accepted {
        source,
        program: &program,
        words,
    };
    let proofs = Proofs {
        name: proofs.name,
        proofs: file.proofs.as_slice(),
    };
    Ok(goals_text(alloc, accepted, proofs)?)
}

/// The page of a source that is accepted.
fn accepted_page(
    alloc: Global,
    verb: Verb,
    source: Source<'_>,
    program: Program,
    words: &Words,
    proofs: Source<'_>,
) -> Result<String, Refusal>
    requires { length program.names ≤ 2 ^ 20 }
{
    match verb {
        Verb::Errors => Ok(String::new(alloc)),
        Verb::Skeleton => {
            let accepted = Accepted {
                source,
                program: &program,
                words,
            };
            Ok(skeleton_text(alloc, accepted)?)
        }
        Verb::Goals => goals_page(alloc, source, program, words, proofs),
    }
}

fn page_of(
    alloc: Global,
    verb: Verb,
    source: Source<'_>,
    proofs: Source<'_>,
) -> Result<String, Refusal> {
    let program = prepare(alloc, source.bytes)?;
    if source.bytes.len() > SOURCE_BYTES {
        return Err(Refusal::NoMemory);
    }
    let words = Words::of(alloc, source.bytes)?;
    accepted_page(alloc, verb, source, program, &words, proofs)
}

/// What is shown: the page, or why the source or the proof file is refused. Errors and goals are empty where nothing is
/// wrong. Its one error is want of memory.
pub fn make_page(
    alloc: Global,
    verb: Verb,
    source: Source<'_>,
    proofs: Source<'_>,
) -> Result<Page, NoMemory> {
    match page_of(alloc, verb, source, proofs) {
        Ok(text) => {
            let finds = !text.is_empty() && !matches!(verb, Verb::Skeleton);
            Ok(Page { text, finds })
        }
        Err(refusal) => {
            let text = refusal_text(alloc, source, proofs.name, refusal)?;
            Ok(Page { text, finds: true })
        }
    }
}
