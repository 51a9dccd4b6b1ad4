//! What is answered to the bytes of a source, and to those of its proofs. Nothing is read here.
ghost use Rattle.std.specs.Prelude.{◌≡◌, ◌≤◌, ◌+◌, ◌^◌, ◌<◌, length, IfOk, Some};
ghost use Rattle.std.specs.Option.{option_map};
ghost use Rattle.report_out.specs.Report.{limit_line, report_of};
ghost use Rattle.report_out.specs.declared.verdict.Verdict.{Verdict as VerdictValue};
ghost use Rattle.verify_core.specs.Listing.{list_text};
ghost use Rattle.verify_core.specs.OnSource.{most_proof_bytes};
ghost use Rattle.verify_core.specs.Owed.{HaveOwners};
ghost use Rattle.verify_core.specs.Prepared.{RefusesSource};
ghost use Rattle.verify_core.specs.Verdict.{IsVerdict};
ghost use Rattle.creusot_cli.specs.Answer.{IsWithin, RefusesFetched, AnswersVerify, whole, status_of};
ghost use Rattle.creusot_cli.specs.Call.{Opens, PlansRefusedProofs, IsProofsWithin, fetched};

use crate::verify::files::ReadFile;
use call_words::Verb;
use proof_text::Proof;
use report_out::{limit_error, proof_error, report, source_error};
use std::alloc::Global;
use text_core::{Items, Limit, LimitKind, NoMemory};
use verify_core::{PROOF_BYTES, Program, Refusal, list, prepare, proofs_of, verdict_on};

/// A status, and what is printed with it.
#[derive(Drop)]
pub(crate) struct Plan {
    pub status: u8,
    pub bytes: Vec<u8>,
}

/// What a source decides alone, or its program, whose proofs are to be read.
#[derive(Drop)]
pub(crate) enum Opened {
    Answered(Plan),
    Accepted(Program),
}

/// What is printed where a quantity is past its bound.
pub(crate) fn plan_of_limit(alloc: Global, limit: Limit) -> Result<Plan, NoMemory>
    ensures { IfOk result (λ p. (p.status ≡ 7) × (p.bytes.items ≡ limit_line limit)) }
{
    let bytes = limit_error(alloc, limit)?;
    Ok(Plan { status: 7, bytes })
}

/// The list of the obligations of the program.
fn listed(alloc: Global, source: &[u8], program: &Program) -> Result<Plan, NoMemory>
    requires { length source.now ≤ 2 ^ 20 }
    ensures { IfOk result (λ p. (p.status ≡ 0) × (p.bytes.items ≡ list_text program.now source.now)) }
{
    let bytes = list(alloc, program, source)?;
    Ok(Plan { status: 0, bytes })
}

/// What is printed of a source that is refused for this reason.
fn plan_of_refusal(alloc: Global, refusal: Refusal, source: &[u8]) -> Result<Plan, NoMemory>
    requires short { length source.now ≤ 2 ^ 20 }
    requires refuses { RefusesSource source.now refusal }
    ensures { IfOk result (λ p. RefusesFetched (whole source.now) p.status p.bytes.items) }
{
    match refusal {
        Refusal::Source(error) => {
            let bytes = source_error(alloc, error, source)?;
            Ok(Plan { status: 3, bytes })
        }
        Refusal::Limit(limit) => plan_of_limit(alloc, limit),
        Refusal::Proof(_) => Err(NoMemory),
        Refusal::NoMemory => Err(NoMemory),
    }
}

/// What is answered to a source of these bytes; where it is accepted and is to be verified, its program.
pub(crate) fn answer_on_source(alloc: Global, verb: Verb, source: &[u8]) -> Result<Opened, NoMemory>
    requires { length source.now ≤ 2 ^ 20 }
    ensures { IfOk result (Opens verb source.now) }
{
    match prepare(alloc, source) {
        Ok(program) => match verb {
            Verb::Verify => Ok(Opened::Accepted(program)),
            Verb::List => Ok(Opened::Answered(listed(alloc, source, &program)?)),
        },
        Err(refusal) => Ok(Opened::Answered(plan_of_refusal(alloc, refusal, source)?)),
    }
}

/// The verdict on the program with these proofs, and its report.
fn reported(
    alloc: Global,
    source: &[u8],
    program: &Program,
    proofs: &[Proof],
) -> Result<Plan, NoMemory>
    requires short { length source.now ≤ 2 ^ 20 }
    requires owners { HaveOwners program.now.bodies program.now.obligations }
    ensures { IfOk result (λ p. (v : VerdictValue) × IsVerdict proofs.now program.now v × (p.status ≡ status_of v) × (p.bytes.items ≡ report_of source.now v)) }
{
    let verdict = verdict_on(alloc, program, proofs)?;
    let status = if verdict.left.is_empty() { 0 } else { 1 };
    let bytes = report(alloc, &verdict, source)?;
    Ok(Plan { status, bytes })
}

/// What is printed where the proofs are refused for this reason.
fn plan_of_proofs(alloc: Global, refusal: Refusal) -> Result<Plan, NoMemory>
    ensures { IfOk result (PlansRefusedProofs refusal) }
{
    match refusal {
        Refusal::Proof(line) => {
            let bytes = proof_error(alloc, line)?;
            Ok(Plan { status: 4, bytes })
        }
        Refusal::Limit(limit) => plan_of_limit(alloc, limit),
        Refusal::Source(_) => Err(NoMemory),
        Refusal::NoMemory => Err(NoMemory),
    }
}

/// What is answered to the bytes of a file of proofs, which may use the names of the source.
fn answer_on_file(
    alloc: Global,
    source: &[u8],
    program: Program,
    bytes: &[u8],
) -> Result<Plan, NoMemory>
    requires short { length source.now ≤ 2 ^ 20 }
    requires owners { HaveOwners program.bodies program.obligations }
    requires few_names { length program.names ≤ 2 ^ 20 }
    requires within { length bytes.now ≤ 2 ^ 26 }
    ensures { IfOk result (λ p. AnswersVerify source.now program (Some (whole bytes.now)) p.status p.bytes.items) }
{
    let mut program = program;
    match proofs_of(alloc, &mut program.names, bytes) {
        Ok(file) => reported(alloc, source, &program, file.proofs.as_slice()),
        Err(refusal) => plan_of_proofs(alloc, refusal),
    }
}

/// What is answered to a file of proofs as it was read.
fn answer_on_read(
    alloc: Global,
    source: &[u8],
    program: Program,
    read: &ReadFile,
) -> Result<Plan, NoMemory>
    requires short { length source.now ≤ 2 ^ 20 }
    requires owners { HaveOwners program.bodies program.obligations }
    requires few_names { length program.names ≤ 2 ^ 20 }
    requires within { IsWithin most_proof_bytes (fetched read.now) }
    ensures { IfOk result (λ p. AnswersVerify source.now program (Some (fetched read.now)) p.status p.bytes.items) }
{
    match read {
        ReadFile::Whole(bytes) => answer_on_file(alloc, source, program, bytes.as_slice()),
        ReadFile::TooLong(length) => {
            let limit = Limit {
                kind: LimitKind::ProofBytes,
                counted: *length,
                bound: PROOF_BYTES as u64,
            };
            plan_of_limit(alloc, limit)
        }
    }
}

/// What is answered to an accepted source with what was read of its proofs, if a file is named.
pub(crate) fn answer_on_proofs(
    alloc: Global,
    source: &[u8],
    program: Program,
    proofs: &Option<ReadFile>,
) -> Result<Plan, NoMemory>
    requires short { length source.now ≤ 2 ^ 20 }
    requires owners { HaveOwners program.bodies program.obligations }
    requires few_names { length program.names ≤ 2 ^ 20 }
    requires within { IsProofsWithin proofs.now }
    ensures { IfOk result (λ p. AnswersVerify source.now program (option_map fetched proofs.now) p.status p.bytes.items) }
{
    match proofs {
        None => reported(alloc, source, &program, Items::new(alloc).as_slice()),
        Some(read) => answer_on_read(alloc, source, program, read),
    }
}
