//! The verdict on a source with its proofs.
ghost use Rattle.std.specs.Prelude.{◌+◌, ◌^◌, ◌<◌, length, IfOk, IfErr, OnOk};
ghost use Rattle.proof_text.specs.ProofTextFile.{SpellsProofs, HasNamesOf};
ghost use Rattle.source_words.specs.Words.{Keeps};
ghost use Rattle.verify_core.specs.OnSource.{IsVerdictOn, RefusesProofs, Refuses};

use crate::fault::Refusal;
use crate::preparing::prepare;
use crate::verdict::verdict_on;
use proof_text::{ProofFile, ProofTextError, read_proofs};
use report_out::Verdict;
use std::alloc::Global;
use text_core::{Limit, LimitKind, Names};

/// The most bytes of a file of proofs.
pub const PROOF_BYTES: usize = 1 << 26;

/// The proofs that the bytes of a file spell. A text has the name that the table gave it, and the other texts of the file get the next
/// ones, in order of first use: so by the table of a source its proofs speak of the fields and the types that it declares.
///
/// Errors: `Proof` with the first bad line, 1-based; `Limit` where there are more than 67,108,864 bytes; `NoMemory`; never `Source`.
pub fn proofs_of(alloc: Global, names: &mut Names, bytes: &[u8]) -> Result<ProofFile, Refusal>
    requires room { length names.old + 2 ^ 26 + 1 < 2 ^ 32 }
    ensures ok { IfOk result (λ file. SpellsProofs names.old bytes.now file) }
    ensures named { OnOk result (HasNamesOf names.old bytes.now names.new) }
    ensures kept { Keeps names.old names.new }
    ensures refused { IfErr result (RefusesProofs bytes.now) }
{
    if bytes.len() > PROOF_BYTES {
        return Err(Refusal::Limit(Limit {
            kind: LimitKind::ProofBytes,
            counted: bytes.len() as u64,
            bound: PROOF_BYTES as u64,
        }));
    }
    match read_proofs(alloc, bytes, names) {
        Ok(file) => Ok(file),
        Err(ProofTextError::BadLine(line)) => Err(Refusal::Proof(line)),
        Err(ProofTextError::NoMemory) => Err(Refusal::NoMemory),
    }
}

/// The verdict on the source with the proofs of a file, which may use the names of the source: which functions are verified, and which
/// obligations are left.
///
/// Errors: those of `prepare`; `Proof` with the first bad line of the file; `Limit` where the file has more than 67,108,864
/// bytes; `NoMemory`.
pub fn verify(alloc: Global, source: &[u8], proofs: &[u8]) -> Result<Verdict, Refusal>
    ensures ok { IfOk result (IsVerdictOn source.now proofs.now) }
    ensures refused { IfErr result (Refuses source.now proofs.now) }
{
    let mut program = prepare(alloc, source)?;
    let file = proofs_of(alloc, &mut program.names, proofs)?;
    let verdict = verdict_on(alloc, &program, file.proofs.as_slice())?;
    Ok(verdict)
}
