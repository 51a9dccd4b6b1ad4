ghost use Rattle.std.specs.Prelude.{◌≡◌, ◌+◌, length, map, true, IfOk, OnOk};
ghost use Rattle.verify_core.specs.Verdict.{Settles, left_item};
ghost use Rattle.verify_core.specs.Judging.{HasJudged, Tallies, without_flag};

use crate::check::refused_line;
use crate::owed::Owed;
use crate::table::ProofTable;
use logic_term::Obligation;
use mir_ir::Body;
use proof_kernel::Tables;
use prophecy_sim::Node;
use report_out::{LeftItem, Reason};
use std::alloc::Global;
use text_core::NoMemory;

/// Why the obligation is left; `None` where it is proved.
fn reason_for(
    alloc: Global,
    obligation: &Obligation,
    tables: &Tables,
    proofs: &ProofTable<'_>,
) -> Result<Option<Reason>, NoMemory>
    ensures { IfOk result (Settles tables.now proofs.now obligation.now) }
{
    let Some(proof) = proofs.proof_for(obligation) else {
        return Ok(Some(Reason::Missing));
    };
    match refused_line(alloc, obligation, tables, proof.steps.as_slice(), proof.end)? {
        None => Ok(None),
        Some(line) => Ok(Some(Reason::Proof(line))),
    }
}

fn left_item(alloc: Global, obligation: &Obligation, reason: Reason) -> Result<LeftItem, NoMemory>
    ensures { IfOk result (λ item. item ≡ left_item obligation.now reason) }
{
    Ok(LeftItem {
        number: obligation.number,
        kind: obligation.kind,
        span: obligation.span,
        reason,
        owner: obligation.owner.copy(alloc)?,
    })
}

/// What is judged so far: the obligations that are left, how many are proved, and whether all that a function owes is, for each
/// function.
#[derive(Drop)]
pub(crate) struct Judged {
    pub left: Vec<LeftItem>,
    pub proved: u32,
    pub flags: Vec<bool>,
}

fn one_more(count: u32) -> Result<u32, NoMemory>
    ensures { IfOk result (λ n. n ≡ count + 1) }
{
    count.checked_add(1).ok_or(NoMemory)
}

/// Unsets the flag of the node.
fn unset(flags: &mut Vec<bool>, node: Node)
    ensures { flags.new.items ≡ without_flag node flags.old.items }
{
    let Node::Function(function) = node;
    if (function as usize) < flags.len() {
        flags[function as usize] = false;
    }
}

/// Takes the obligation into account, which is left for this reason, or proved.
fn settle(
    alloc: Global,
    judged: &mut Judged,
    owed: &Owed,
    reason: Option<Reason>,
) -> Result<(), NoMemory>
    ensures { OnOk result (Tallies owed.now reason judged.old judged.new) }
{
    match reason {
        None => judged.proved = one_more(judged.proved)?,
        Some(reason) => {
            judged
                .left
                .push(left_item(alloc, &owed.obligation, reason)?)?;
            unset(&mut judged.flags, owed.by);
        }
    }
    Ok(())
}

/// A flag for each body, which is set.
fn all_set(alloc: Global, bodies: &[Body]) -> Result<Vec<bool>, NoMemory>
    ensures { IfOk result (λ v. v.items ≡ map (λ _. true) bodies.now) }
{
    let mut flags = Vec::new(alloc);
    for _body in bodies {
        flags.push(true)?;
    }
    Ok(flags)
}

/// Judges the obligations that the functions with these bodies owe. Want of memory is answered too where a count would pass 32
/// bits.
pub(crate) fn judge(
    alloc: Global,
    obligations: &[Owed],
    bodies: &[Body],
    tables: &Tables,
    proofs: &ProofTable<'_>,
) -> Result<Judged, NoMemory>
    ensures { IfOk result (HasJudged tables.now proofs.now obligations.now (length bodies.now)) }
{
    let mut judged = Judged {
        left: Vec::new(alloc),
        proved: 0,
        flags: all_set(alloc, bodies)?,
    };
    for owed in obligations {
        let reason = reason_for(alloc, &owed.obligation, tables, proofs)?;
        settle(alloc, &mut judged, owed, reason)?;
    }
    Ok(judged)
}
