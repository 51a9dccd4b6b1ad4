//! The passes over a source.
ghost use Rattle.std.specs.Prelude.{◌≡◌, ◌+◌, ◌^◌, ◌<◌, ◌≤◌, ◌++◌, [], length, IfOk, IfErr, OnOk};
ghost use Rattle.type_check.specs.Answers.{unbuilt};
ghost use Rattle.type_check.specs.Checked.{AllGood};
ghost use Rattle.type_check.specs.WellTyped.{ProgramFits};
ghost use Rattle.mir_build.specs.Lowering.{IsLowered};
ghost use Rattle.mir_build.specs.Laws.{Lowers};
ghost use Rattle.mir_ir.specs.Body.{no_resolves};
ghost use Rattle.verify_core.specs.declared.fault.Refusal.TheVariants as refusals;
ghost use Rattle.verify_core.specs.Prepared.{IsPrepared, HaveFewPaths, RefusesSource};
ghost use Rattle.verify_core.specs.Owed.{owing};
ghost use Rattle.wp_gen.specs.Setting.{setting};
ghost use Rattle.verify_core.specs.Passes.{IsChecked, CanWalkAll, AddsOwed, AreAllOwed, AreLaidOut, HaveFewGoals, IsSettingAt, IsGoalsError, IsPathsError};

use crate::built::built_items;
use crate::fault::Refusal;
use crate::owed::Owed;
use crate::program::Program;
use declared_types::declare;
use logic_term::Obligation;
use mir_build::{Lowered, lower};
use mir_ir::{Bodies, Resolves};
use proof_kernel::Tables;
use prophecy_sim::Node;
use rs_types::AdtTable;
use runnable::first_unrun;
use std::alloc::Global;
use text_core::{Code, Items, Limit, LimitKind, Names, NoMemory, SourceError, Span};
use type_check::{TypedProgram, check};
use wp_gen::{OBLIGATIONS, Walk, check_paths, counted_obligations, room_after};

/// The most bytes of a source.
pub const SOURCE_BYTES: usize = 1 << 20;

/// The refusal of what does not run yet.
fn not_running(place: Span) -> Refusal
    ensures { result ≡ refusals.Source (unbuilt place) }
{
    Refusal::Source(SourceError {
        code: Code::E20,
        span: place,
        other: None,
    })
}

/// The functions of a source, their names resolved and their expressions typed, and the types that it declares.
fn typed_source(
    alloc: Global,
    source: &[u8],
    names: &mut Names,
) -> Result<(TypedProgram, AdtTable), Refusal>
    requires short { length source.now ≤ 2 ^ 20 }
    requires empty { names.old ≡ [] }
    ensures ok { IfOk result (λ r. IsChecked source.now names.new r.0 r.1) }
    ensures fits { IfOk result (λ r. ProgramFits r.1 r.0) }
    ensures good { IfOk result (λ r. AllGood r.0) }
    ensures refused { IfErr result (RefusesSource source.now) }
{
    let items = built_items(alloc, source, names)?;
    let declared = declare(alloc, items.as_slice())?;
    let typed = check(alloc, items.as_slice(), &declared)?;
    let unrun = first_unrun(alloc, declared.table.decls(), &typed)?;
    match unrun {
        None => Ok((typed, declared.table)),
        Some(place) => Err(not_running(place)),
    }
}

/// That no body has more than 1,024 paths.
fn check_all_paths(bodies: &Bodies) -> Result<(), Limit>
    requires { AreLaidOut bodies.now }
    ensures ok { OnOk result (HaveFewPaths bodies.now) }
    ensures err { IfErr result (IsPathsError bodies.now) }
{
    for body in bodies.bodies.as_slice() {
        check_paths(body)?;
    }
    Ok(())
}

/// What the walk of the function of this place looks up; so far no references end.
fn walk_of<'a>(lowered: &'a Lowered, resolves: &'a Resolves, place: usize) -> Walk<'a>
    requires none { resolves.now ≡ no_resolves }
    requires bodies { place < length lowered.now.bodies.bodies }
    requires contracts { place < length lowered.now.contracts.of }
    requires gone { place < length lowered.now.gone }
    ensures { IsSettingAt lowered.now place (setting result) }
{
    Walk {
        body: &lowered.bodies.bodies.as_slice()[place],
        contracts: &lowered.contracts,
        contract: &lowered.contracts.of.as_slice()[place],
        init: &lowered.gone.as_slice()[place],
        resolves,
        decls: lowered.bodies.decls.as_slice(),
    }
}

/// That the functions have at most 1,000,000 obligations together, found before one is made.
fn check_obligations(alloc: Global, lowered: &Lowered) -> Result<(), Limit>
    requires { CanWalkAll lowered.now }
    ensures ok { OnOk result (HaveFewGoals lowered.now) }
    ensures err { IfErr result (IsGoalsError lowered.now) }
{
    let resolves = Resolves::none(alloc);
    let mut left = OBLIGATIONS;
    for place in 0..lowered.bodies.bodies.len() {
        let walk = walk_of(lowered, &resolves, place);
        let Some(rest) = room_after(&walk, left) else {
            return Err(Limit {
                kind: LimitKind::Obligations,
                counted: OBLIGATIONS as u64 + 1,
                bound: OBLIGATIONS as u64,
            });
        };
        left = rest;
    }
    Ok(())
}

/// The obligations as the node owes them, behind others.
fn with_owing(
    first: Vec<Owed>,
    by: Node,
    obligations: Vec<Obligation>,
) -> Result<Vec<Owed>, NoMemory>
    ensures { IfOk result (λ v. v.items ≡ first.items ++ owing by obligations.items) }
{
    let mut owed = first;
    for obligation in obligations {
        owed.push(Owed { by, obligation })?;
    }
    Ok(owed)
}

/// The obligations of the function of this place, behind those of others.
fn with_function(
    alloc: Global,
    first: Vec<Owed>,
    lowered: &Lowered,
    place: usize,
) -> Result<Vec<Owed>, NoMemory>
    requires inside { place < length lowered.now.bodies.bodies }
    requires walk { CanWalkAll lowered.now }
    ensures { IfOk result (λ v. AddsOwed lowered.now place first.items v.items) }
{
    let resolves = Resolves::none(alloc);
    let walk = walk_of(lowered, &resolves, place);
    let obligations = counted_obligations(alloc, &walk, 1)?;
    Ok(with_owing(first, Node::Function(walk.body.id), obligations)?)
}

/// The obligations of all functions.
fn all_owed(alloc: Global, lowered: &Lowered) -> Result<Items<Owed>, NoMemory>
    requires { CanWalkAll lowered.now }
    ensures { IfOk result (AreAllOwed lowered.now) }
{
    let mut owed = Vec::new(alloc);
    for place in 0..lowered.bodies.bodies.len() {
        owed = with_function(alloc, owed, lowered, place)?;
    }
    Ok(Items::from_vec(owed))
}

/// The program of a source: its functions as bodies, with their contracts and obligations.
///
/// Errors: `Source` by the code and place of the first refusal; `Limit` where the source has more than 1,048,576 bytes or
/// 4,096 functions, a body more than 4,096 blocks or 1,024 paths, or there are more than 1,000,000 obligations; `NoMemory`; never
/// `Proof`.
pub fn prepare(alloc: Global, source: &[u8]) -> Result<Program, Refusal>
    ensures ok { IfOk result (IsPrepared source.now) }
    // So there is room for the names of proofs.
    ensures few_names { IfOk result (λ p. length p.names ≤ 2 ^ 20) }
    ensures refused { IfErr result (RefusesSource source.now) }
{
    if source.len() > SOURCE_BYTES {
        return Err(Refusal::Limit(Limit {
            kind: LimitKind::SourceBytes,
            counted: source.len() as u64,
            bound: SOURCE_BYTES as u64,
        }));
    }
    let mut names = Names::new(alloc);
    let (typed, table) = typed_source(alloc, source, &mut names)?;
    let adts = table.copied(alloc)?;
    let lowered = lower(alloc, &typed, table.into_decls(), &names)?;
    check_all_paths(&lowered.bodies)?;
    check_obligations(alloc, &lowered)?;
    let obligations = all_owed(alloc, &lowered)?;
    let Lowered {
        bodies,
        contracts,
        ..
    } = lowered;
    Ok(Program {
        names,
        bodies,
        contracts,
        tables: Tables { adts },
        obligations,
    })
}
