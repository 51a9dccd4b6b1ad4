ghost use Rattle.std.specs.Prelude.{◌≡◌, ◌≢◌, ◌∷◌, ◌++◌, [], Err, OnOk, OnErr, cond, replicate};
ghost use Rattle.mir_machine.specs.Frame.{State as Frames};
ghost use Rattle.mir_machine.specs.Halt.{Comes};
ghost use Rattle.mir_machine.specs.Tree.{Gone};
ghost use Rattle.mir_machine.specs.Run.{outcome_of_step};
ghost use Rattle.mir_machine.specs.Code.{code_of};
ghost use Rattle.mir_machine.specs.Step.{variant_of, variant_of_ctor, switched, at_label, leave, end_step};
ghost use Rattle.mir_machine.specs.Taken.{branched, called_from, waiting, given, IsEven, GoesBack};
ghost use Rattle.mir_machine.specs.Try.{Yields};

use crate::entry::gone;
use crate::frame::{Frame, State};
use crate::halt::Halt;
use crate::memory::{nth, put_at, spot_of};
use crate::running::block_of;
use crate::spot::Spot;
use crate::statements::{first_of, truth_on};
use crate::taken::{Taken, is_there, read, take, take_all};
use crate::tree::{Tree, TreeNode};
use logic_term::{Ctor, Label};
use mir_ir::{Bodies, Callee, Operand, Place, Terminator, TerminatorKind};
use std::alloc::Global;
use std::mem;
use text_core::NoMemory;

/// Where a frame waits for the answer of a call: the spot of the answer, and the block that comes after the call.
#[derive(Drop)]
pub struct Waiting {
    pub at: Spot,
    pub next: Label,
}

/// The running frame goes on at the start of the block.
fn go_to(state: &mut State, label: Label)
    ensures { at_label label state.old ≡ Yields state.new }
{
    state.running.label = label;
    state.running.statement = 0;
}

fn chosen(holds: bool, yes: Label, no: Label) -> Label
    ensures { result ≡ cond holds yes no }
{
    if holds { yes } else { no }
}

/// Goes on at one of two blocks.
#[tactic(auto, using(crate::proofs::RightSides::branch_stops, crate::proofs::RightSides::branch_gone, crate::proofs::RightSides::branch_untrue, crate::proofs::RightSides::branch_goes))]
fn branch(
    alloc: Global,
    state: &mut State,
    taken: &mut Taken,
    condition: &Operand,
    yes: Label,
    no: Label,
) -> Result<(), Halt>
    requires even { IsEven taken.old }
    requires empty { taken.old.trees.items ≡ [] }
    ensures goes { Comes result (branched state.old condition.now yes no) (λ _. state.new) }
    ensures err { result ≡ Err Halt.NoMemory → GoesBack taken.old state.old taken.new state.new }
{
    take(alloc, state, taken, condition)?;
    let holds = truth_on(nth(&taken.trees, 0)?)?;
    go_to(state, chosen(holds, yes, no));
    Ok(())
}

/// The variant that a tree is of its type.
fn variant_of(tree: &Tree) -> Result<u32, Halt>
    ensures variant { Comes result (variant_of tree.now) (λ v. v) }
    ensures memory { result ≢ Err Halt.NoMemory }
{
    match &tree.node {
        TreeNode::Made(ctor, _) => variant_of_ctor(*ctor),
        _ => Err(Halt::Stuck),
    }
}

fn variant_of_ctor(ctor: Ctor) -> Result<u32, Halt>
    ensures variant { Comes result (variant_of_ctor ctor) (λ v. v) }
    ensures memory { result ≢ Err Halt.NoMemory }
{
    match ctor {
        Ctor::Variant(_, v) => Ok(v),
        _ => Err(Halt::Stuck),
    }
}

/// The label of the variant that the place has.
fn switched(alloc: Global, state: &State, place: &Place, labels: &[Label]) -> Result<Label, Halt>
    ensures { Comes result (switched state.now place.now labels.now) (λ l. l) }
{
    let variant = variant_of(read(alloc, state, place)?)?;
    let label = labels.get(variant as usize).ok_or(Halt::Stuck)?;
    Ok(*label)
}

/// Where the running frame waits for an answer.
fn find_waiting(alloc: Global, bodies: &Bodies, state: &State) -> Result<Waiting, Halt>
    ensures { Comes result (waiting bodies.now state.now) (λ w. w) }
{
    let block = block_of(bodies, &state.running).ok_or(Halt::Stuck)?;
    let TerminatorKind::Call(place, _, _, _, next) = &block.end.kind else {
        return Err(Halt::Stuck);
    };
    let at = spot_of(alloc, state, place)?;
    Ok(Waiting { at, next: *next })
}

/// Gives the answer to the frame that waits for it.
#[tactic(auto, using(crate::proofs::Returns::give_stops, crate::proofs::Returns::give_goes))]
fn give(state: &mut State, waiting: &Waiting, answer: Tree) -> Result<(), Halt>
    ensures gives { Comes result (given state.old waiting.now answer) (λ _. state.new) }
    ensures memory { result ≢ Err Halt.NoMemory }
{
    put_at(state, &waiting.at, answer)?;
    go_to(state, waiting.next);
    Ok(())
}

/// The running frame has ended, with its local 0 as the answer; `Some` with it where the run returns. For want of memory
/// nothing changes.
pub fn leave(alloc: Global, bodies: &Bodies, state: &mut State) -> Result<Option<Tree>, Halt>
    ensures leaves { Comes result (leave bodies.now state.old) (outcome_of_step state.new) }
    ensures err { result ≡ Err Halt.NoMemory → state.new ≡ state.old }
{
    is_there(nth(&state.running.locals, 0)?)?;
    let Some(caller) = state.behind.pop() else {
        return Err(Halt::Stuck);
    };
    let ended = mem::replace(&mut state.running, caller);
    if state.behind.is_empty() {
        return Ok(Some(first_of(ended.locals)?));
    }
    match find_waiting(alloc, bodies, state) {
        Ok(waiting) => {
            give(state, &waiting, first_of(ended.locals)?)?;
            Ok(None)
        }
        Err(refused) => {
            let caller = mem::replace(&mut state.running, ended);
            let Ok(()) = state.behind.push(caller) else {
                unreachable!()
            };
            Err(refused)
        }
    }
}

/// The new frame runs before the one that ran. For want of memory nothing changes.
fn enter(state: &mut State, frame: Frame) -> Result<(), NoMemory>
    ensures ok { OnOk result (state.new ≡ frame ∷ state.old) }
    ensures err { OnErr result (state.new ≡ state.old) }
{
    state.behind.push(frame)?;
    let last = state.behind.len() - 1;
    mem::swap(&mut state.running, &mut state.behind[last]);
    Ok(())
}

/// Adds so many trees that are gone.
#[tactic(auto, using(crate::proofs::Undoing::same_taken, crate::proofs::Undoing::back_along))]
fn add_gone(taken: &mut Taken, count: usize) -> Result<(), NoMemory>
    requires { IsEven taken.old }
    ensures trees { OnOk result (taken.new.trees.items ≡ taken.old.trees.items ++ replicate count Gone) }
    ensures back { (s : Frames (Unit {0})) → GoesBack taken.old s taken.new s }
{
    for _ in 0..count {
        taken.add(gone())?;
    }
    Ok(())
}

/// A call: its frame runs before the others, with the operands as its parameters and nothing in all other locals.
fn call(
    alloc: Global,
    bodies: &Bodies,
    state: &mut State,
    taken: &mut Taken,
    callee: Callee,
    operands: &[Operand],
) -> Result<(), Halt>
    requires even { IsEven taken.old }
    requires empty { taken.old.trees.items ≡ [] }
    ensures calls { Comes result (called_from bodies.now state.old callee operands.now) (λ _. state.new) }
    ensures err { result ≡ Err Halt.NoMemory → GoesBack taken.old state.old taken.new state.new }
{
    taken.add(gone())?;
    take_all(alloc, state, taken, operands)?;
    let number = bodies.callee_of(callee).ok_or(Halt::Stuck)?;
    let body = bodies.bodies.get(number as usize).ok_or(Halt::Stuck)?;
    let others = body.locals.len().saturating_sub(taken.trees.len());
    add_gone(taken, others)?;
    let frame = Frame {
        function: number,
        types: Vec::new(alloc),
        label: body.entry,
        statement: 0,
        locals: Vec::new(alloc),
    };
    enter(state, frame)?;
    state.running.locals = mem::replace(&mut taken.trees, Vec::new(alloc));
    Ok(())
}

/// The end of a block; `Some` with the answer where the run returns.
#[tactic(auto, using(crate::proofs::BlockEnds::block_ends, crate::proofs::Undoing::none_taken))]
pub fn end_block(
    alloc: Global,
    bodies: &Bodies,
    state: &mut State,
    taken: &mut Taken,
    end: &Terminator,
) -> Result<Option<Tree>, Halt>
    requires even { IsEven taken.old }
    requires empty { taken.old.trees.items ≡ [] }
    ensures ends { Comes result (end_step (code_of bodies.now) state.old end.now.span end.now.kind) (outcome_of_step state.new) }
    ensures err { result ≡ Err Halt.NoMemory → GoesBack taken.old state.old taken.new state.new }
{
    match &end.kind {
        TerminatorKind::Goto(label) => {
            go_to(state, *label);
            Ok(None)
        }
        TerminatorKind::If(condition, yes, no) => {
            branch(alloc, state, taken, condition, *yes, *no)?;
            Ok(None)
        }
        TerminatorKind::Switch(place, labels) => {
            let label = switched(alloc, state, place, labels.as_slice())?;
            go_to(state, label);
            Ok(None)
        }
        TerminatorKind::Call(_, callee, _, operands, _) => {
            call(alloc, bodies, state, taken, *callee, operands.as_slice())?;
            Ok(None)
        }
        TerminatorKind::Return => leave(alloc, bodies, state),
        TerminatorKind::Panic(cause) => Err(Halt::Panics(*cause, end.span)),
    }
}
