//! What is read for a request, and what is printed in answer to it.
ghost use Rattle.std.specs.Prelude.{◌≡◌, ◌≤◌, ◌^◌, List, ℕ, length, Err, IfOk, Some};
ghost use Rattle.std.specs.Option.{option_copied};
ghost use Rattle.text_core.specs.Counts.{Rose};
ghost use Rattle.io_edge.specs.Faults.{NoneFalls};
ghost use Rattle.call_words.specs.Asked.{asked};
ghost use Rattle.call_words.specs.declared.request.Verb.TheVariants.{Verify};
ghost use Rattle.creusot_cli.specs.Answer.{whole};
ghost use Rattle.creusot_cli.specs.Call.{HeldAs, HasProgram, Answers, AreRead, CannotRead};

use crate::verify::answer::{Opened, Plan, answer_on_proofs, answer_on_source, plan_of_limit};
use crate::verify::files::{ReadFile, Stop, read_file};
use call_words::Request;
use io_edge::Shelf;
use std::alloc::Global;
use text_core::{Limit, LimitKind};
use verify_core::{PROOF_BYTES, Program, SOURCE_BYTES};

/// The file of proofs, if one is named.
fn read_proofs<S: Shelf>(
    alloc: Global,
    shelf: &mut S,
    name: Option<&str>,
) -> Result<Option<ReadFile>, Stop>
    ensures read { IfOk result (AreRead (S.holds shelf.old) (option_copied name.entry)) }
    ensures holds { S.holds shelf.new ≡ S.holds shelf.old }
    ensures failed { result ≡ Err Stop.ShelfFailed → (n : List ℕ) × (option_copied name.entry ≡ Some n) × Rose (S.read_faults shelf.old n) (S.read_faults shelf.new n) }
    ensures none_falls { NoneFalls (S.read_faults shelf.old) (S.read_faults shelf.new) }
    ensures no_write { S.write_faults shelf.new ≡ S.write_faults shelf.old }
{
    match name {
        None => Ok(None),
        Some(name) => Ok(Some(read_file(alloc, shelf, name, PROOF_BYTES as u64)?)),
    }
}

/// What is printed by `verify` of a source that is accepted.
fn verified<S: Shelf>(
    alloc: Global,
    request: Request<'_>,
    source: &[u8],
    program: Program,
    shelf: &mut S,
) -> Result<Plan, Stop>
    requires verb { request.verb ≡ Verify }
    requires has { HasProgram (S.holds shelf.old) (asked request) source.now program }
    ensures ok { IfOk result (λ p. Answers (S.holds shelf.old) (asked request.entry) p.status p.bytes.items) }
    ensures holds { S.holds shelf.new ≡ S.holds shelf.old }
    ensures failed { result ≡ Err Stop.ShelfFailed → CannotRead (S.holds shelf.old) (S.read_faults shelf.old) (S.read_faults shelf.new) (Some (asked request.entry)) }
    ensures none_falls { NoneFalls (S.read_faults shelf.old) (S.read_faults shelf.new) }
    ensures no_write { S.write_faults shelf.new ≡ S.write_faults shelf.old }
{
    let proofs = read_proofs(alloc, shelf, request.proofs)?;
    Ok(answer_on_proofs(alloc, source, program, &proofs)?)
}

/// What is printed of a source.
fn plan_of_source<S: Shelf>(
    alloc: Global,
    request: Request<'_>,
    source: &[u8],
    shelf: &mut S,
) -> Result<Plan, Stop>
    requires short { length source.now ≤ 2 ^ 20 }
    requires held { HeldAs (S.holds shelf.old) request.source.now (whole source.now) }
    ensures ok { IfOk result (λ p. Answers (S.holds shelf.old) (asked request.entry) p.status p.bytes.items) }
    ensures holds { S.holds shelf.new ≡ S.holds shelf.old }
    ensures failed { result ≡ Err Stop.ShelfFailed → CannotRead (S.holds shelf.old) (S.read_faults shelf.old) (S.read_faults shelf.new) (Some (asked request.entry)) }
    ensures none_falls { NoneFalls (S.read_faults shelf.old) (S.read_faults shelf.new) }
    ensures no_write { S.write_faults shelf.new ≡ S.write_faults shelf.old }
{
    match answer_on_source(alloc, request.verb, source)? {
        Opened::Answered(plan) => Ok(plan),
        Opened::Accepted(program) => verified(alloc, request, source, program, shelf),
    }
}

/// The status for what is asked, and what is printed with it.
pub(crate) fn plan_of<S: Shelf>(
    alloc: Global,
    request: Request<'_>,
    shelf: &mut S,
) -> Result<Plan, Stop>
    ensures ok { IfOk result (λ p. Answers (S.holds shelf.old) (asked request.entry) p.status p.bytes.items) }
    ensures holds { S.holds shelf.new ≡ S.holds shelf.old }
    ensures failed { result ≡ Err Stop.ShelfFailed → CannotRead (S.holds shelf.old) (S.read_faults shelf.old) (S.read_faults shelf.new) (Some (asked request.entry)) }
    ensures none_falls { NoneFalls (S.read_faults shelf.old) (S.read_faults shelf.new) }
    ensures no_write { S.write_faults shelf.new ≡ S.write_faults shelf.old }
{
    match read_file(alloc, shelf, request.source, SOURCE_BYTES as u64)? {
        ReadFile::Whole(source) => plan_of_source(alloc, request, source.as_slice(), shelf),
        ReadFile::TooLong(length) => {
            let limit = Limit {
                kind: LimitKind::SourceBytes,
                counted: length,
                bound: SOURCE_BYTES as u64,
            };
            Ok(plan_of_limit(alloc, limit)?)
        }
    }
}
