//! The verdict on the functions of a program.
ghost use Rattle.std.specs.Prelude.{◌≡◌, length, map, IfOk};
ghost use Rattle.verify_core.specs.Verdict.{IsVerdict};
ghost use Rattle.verify_core.specs.Judging.{AreLinesOf};
ghost use Rattle.verify_core.specs.Owed.{HaveOwners};

use crate::judge::judge;
use crate::owed::Owed;
use crate::program::Program;
use crate::reach::settled_flags;
use crate::table::ProofTable;
use mir_ir::Body;
use proof_text::Proof;
use report_out::{FnLine, Verdict};
use std::alloc::Global;
use text_core::{Items, NoMemory};

fn lines_of(alloc: Global, bodies: &[Body], flags: &[bool]) -> Result<Items<FnLine>, NoMemory>
    requires { length flags.now ≡ length bodies.now }
    ensures { IfOk result (AreLinesOf bodies.now flags.now) }
{
    let mut lines = Items::new(alloc);
    for (at, body) in bodies.iter().enumerate() {
        lines.push(FnLine {
            name: body.owner.copy(alloc)?,
            verified: flags[at],
        })?;
    }
    Ok(lines)
}

fn count(obligations: &[Owed]) -> Result<u32, NoMemory>
    ensures { IfOk result (λ n. n ≡ length obligations.now) }
{
    match u32::try_from(obligations.len()) {
        Ok(count) => Ok(count),
        Err(_) => Err(NoMemory),
    }
}

/// The verdict on the functions of the program, each of whose obligations is owed by a function that has a body, with the proofs of a
/// file: a function is verified where all obligations of all functions that it may reach by calls are proved. Want of memory is
/// answered too where a count would pass 32 bits.
pub fn verdict_on(alloc: Global, program: &Program, proofs: &[Proof]) -> Result<Verdict, NoMemory>
    requires { HaveOwners program.now.bodies program.now.obligations }
    ensures { IfOk result (IsVerdict proofs.now program.now) }
{
    let table = ProofTable::new(alloc, proofs)?;
    let owed = program.obligations.as_slice();
    let bodies = program.bodies.bodies.as_slice();
    let judged = judge(alloc, owed, bodies, &program.tables, &table)?;
    let flags = settled_flags(judged.flags, &program.bodies);
    let functions = lines_of(alloc, bodies, flags.as_slice())?;
    Ok(Verdict {
        functions,
        left: Items::from_vec(judged.left),
        obligations: count(owed)?,
        proved: judged.proved,
    })
}
