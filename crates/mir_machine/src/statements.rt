ghost use Rattle.std.specs.Prelude.{◌≡◌, ◌≢◌, ◌<◌, ◌^◌, [], Err, OnOk, slice_get};
ghost use Rattle.logic_term.specs.TyView.{tys_of};
ghost use Rattle.mir_ir.specs.Body.{kind_in, place_ty};
ghost use Rattle.mir_machine.specs.Halt.{Comes};
ghost use Rattle.mir_machine.specs.Memory.{write};
ghost use Rattle.mir_machine.specs.Step.{binary, negated, truth_of, past, statement_step};
ghost use Rattle.mir_machine.specs.Try.{Yields, need};
ghost use Rattle.mir_machine.specs.Taken.{take_more, operands_of, boxed_first, value_of, assigned, changed, types_of, IsEven, GoesBack, statement_of};

use crate::arithmetic::{negate, operate, truth, truth_of};
use crate::entry::gone;
use crate::frame::State;
use crate::halt::Halt;
use crate::memory::{nth, put_at, spot_of};
use crate::running::kind_of;
use crate::scalar::scalar_of;
use crate::taken::{Taken, take, take_all};
use crate::tree::{PointerTree, Tree, TreeNode};
use logic_term::Ty;
use mir_ir::{Body, Place, Rvalue, Statement, StatementKind};
use source_kinds::{BinaryOp, IntKind};
use std::alloc::Global;
use std::mem;
use text_core::{Items, Span};

/// The kind of the integers of a place; of a whole local alone it is known.
#[tactic(auto, using(crate::proofs::RightSides::no_whole))]
fn kind_of_place(body: &Body, types: &[Ty], place: &Place) -> Option<IntKind>
    ensures { result ≡ kind_in (place_ty body.now (tys_of types.now) place.now) }
{
    if !place.path.is_empty() {
        return None;
    }
    kind_of(body.locals.get(place.local as usize)?, types)
}

/// Takes the operands of a right side.
#[tactic(auto, using(crate::proofs::RightSides::single_comes, crate::proofs::RightSides::pair_comes, crate::proofs::RightSides::pair_stops, crate::proofs::Undoing::back_along))]
fn take_rvalue(
    alloc: Global,
    state: &mut State,
    taken: &mut Taken,
    rvalue: &Rvalue,
) -> Result<(), Halt>
    requires { IsEven taken.old }
    ensures takes { Comes result (take_more state.old taken.old.trees.items (operands_of rvalue.now)) (λ _. (state.new, taken.new.trees.items)) }
    ensures err { result ≡ Err Halt.NoMemory → GoesBack taken.old state.old taken.new state.new }
    ensures ok { OnOk result (GoesBack taken.old state.old taken.new state.new) }
    ensures stays { statement_of state.new ≡ statement_of state.old }
{
    match rvalue {
        Rvalue::Use(operand) => take(alloc, state, taken, operand),
        Rvalue::Binary(_, first, second) => {
            take(alloc, state, taken, first)?;
            take(alloc, state, taken, second)
        }
        Rvalue::Neg(operand) => take(alloc, state, taken, operand),
        Rvalue::Not(operand) => take(alloc, state, taken, operand),
        Rvalue::Widen(operand, _) => take(alloc, state, taken, operand),
        Rvalue::Make(_, parts) => take_all(alloc, state, taken, parts.as_slice()),
        Rvalue::BoxNew(operand) => take(alloc, state, taken, operand),
    }
}

/// The value of an operation on two trees, where a place of this kind is written.
#[tactic(auto, using(crate::proofs::RightSides::left_stops, crate::proofs::RightSides::right_stops, crate::proofs::RightSides::on_scalars))]
fn operate_on(
    kind: Option<IntKind>,
    span: Span,
    op: BinaryOp,
    first: &Tree,
    second: &Tree,
) -> Result<Tree, Halt>
    ensures exact { Comes result (binary kind span op first.now second.now) (λ t. t) }
    ensures memory { result ≢ Err Halt.NoMemory }
{
    let x = scalar_of(first)?;
    let y = scalar_of(second)?;
    operate(kind, span, op, x, y)
}

/// The first tree, by itself.
pub fn first_of(trees: Vec<Tree>) -> Result<Tree, Halt>
    ensures first { Comes result (need (slice_get trees.items 0)) (λ t. t) }
    ensures memory { result ≢ Err Halt.NoMemory }
{
    let mut trees = trees;
    take_first(&mut trees)
}

/// The value of `-x`, where a place of this kind is written.
#[tactic(auto, using(crate::proofs::RightSides::negated_stops, crate::proofs::RightSides::on_negated))]
fn negate_on(kind: Option<IntKind>, span: Span, tree: &Tree) -> Result<Tree, Halt>
    ensures exact { Comes result (negated kind span tree.now) (λ t. t) }
    ensures memory { result ≢ Err Halt.NoMemory }
{
    negate(kind, span, scalar_of(tree)?)
}

/// The truth value of a tree.
#[tactic(auto, using(crate::proofs::RightSides::truth_stops, crate::proofs::RightSides::on_truth))]
pub fn truth_on(tree: &Tree) -> Result<bool, Halt>
    ensures exact { Comes result (truth_of tree.now) (λ b. b) }
    ensures memory { result ≢ Err Halt.NoMemory }
{
    truth_of(scalar_of(tree)?)
}

/// Takes the first tree out.
fn take_first(trees: &mut Vec<Tree>) -> Result<Tree, Halt>
    ensures first { Comes result (need (slice_get trees.old.items 0)) (λ t. t) }
    ensures memory { result ≢ Err Halt.NoMemory }
{
    if trees.is_empty() {
        return Err(Halt::Stuck);
    }
    Ok(mem::replace(&mut trees[0], gone()))
}

/// A box of the first tree, which is taken out. For want of memory it stays.
fn boxed_first(alloc: Global, trees: &mut Vec<Tree>) -> Result<Tree, Halt>
    ensures boxed { Comes result (boxed_first trees.old.items) (λ t. t) }
    ensures memory { result ≡ Err Halt.NoMemory → trees.new ≡ trees.old }
{
    let Ok(mut pointer) = Box::new(alloc, PointerTree::Boxed(gone())) else {
        return Err(Halt::NoMemory);
    };
    *pointer = PointerTree::Boxed(take_first(trees)?);
    Ok(Tree {
        node: TreeNode::Pointer(pointer),
    })
}

/// The value of a right side, from the trees of its operands, which are taken. For want of memory they stay.
fn value_of(
    alloc: Global,
    kind: Option<IntKind>,
    span: Span,
    rvalue: &Rvalue,
    trees: &mut Vec<Tree>,
) -> Result<Tree, Halt>
    ensures value { Comes result (value_of kind span rvalue.now trees.old.items) (λ t. t) }
    ensures memory { result ≡ Err Halt.NoMemory → trees.new ≡ trees.old }
{
    match rvalue {
        Rvalue::Use(_) | Rvalue::Widen(_, _) => take_first(trees),
        Rvalue::Binary(op, _, _) => operate_on(kind, span, *op, nth(trees, 0)?, nth(trees, 1)?),
        Rvalue::Neg(_) => negate_on(kind, span, nth(trees, 0)?),
        Rvalue::Not(_) => Ok(truth(!truth_on(nth(trees, 0)?)?)),
        Rvalue::Make(ctor, _) => Ok(Tree {
            node: TreeNode::Made(*ctor, mem::replace(trees, Vec::new(alloc))),
        }),
        Rvalue::BoxNew(_) => boxed_first(alloc, trees),
    }
}

/// Puts the tree at a place. For want of memory nothing changes.
fn write(alloc: Global, state: &mut State, place: &Place, tree: Tree) -> Result<(), Halt>
    ensures writes { Comes result (write state.old place.now tree) (λ _. state.new) }
    ensures err { result ≡ Err Halt.NoMemory → state.new ≡ state.old }
    ensures stays { statement_of state.new ≡ statement_of state.old }
{
    let at = spot_of(alloc, state, place)?;
    put_at(state, &at, tree)?;
    Ok(())
}

/// Gives a place the value of a right side.
#[tactic(auto, using(crate::proofs::RightSides::operands_stop, crate::proofs::RightSides::value_stops))]
fn assign(
    alloc: Global,
    state: &mut State,
    taken: &mut Taken,
    kind: Option<IntKind>,
    span: Span,
    place: &Place,
    rvalue: &Rvalue,
) -> Result<(), Halt>
    requires even { IsEven taken.old }
    requires empty { taken.old.trees.items ≡ [] }
    ensures assigns { Comes result (assigned state.old kind span rvalue.now place.now) (λ _. state.new) }
    ensures err { result ≡ Err Halt.NoMemory → GoesBack taken.old state.old taken.new state.new }
    ensures stays { statement_of state.new ≡ statement_of state.old }
{
    take_rvalue(alloc, state, taken, rvalue)?;
    let at = spot_of(alloc, state, place);
    if let Err(Halt::NoMemory) = &at {
        return Err(Halt::NoMemory);
    }
    let tree = value_of(alloc, kind, span, rvalue, &mut taken.trees)?;
    put_at(state, &at?, tree)?;
    Ok(())
}

/// Does what a statement says; the running frame stands still.
fn change(
    alloc: Global,
    body: &Body,
    state: &mut State,
    taken: &mut Taken,
    statement: &Statement,
) -> Result<(), Halt>
    requires even { IsEven taken.old }
    requires empty { taken.old.trees.items ≡ [] }
    ensures changes { Comes result (changed body.now (types_of state.old) state.old statement.now.span statement.now.kind) (λ _. state.new) }
    ensures err { result ≡ Err Halt.NoMemory → GoesBack taken.old state.old taken.new state.new }
    ensures stays { statement_of state.new ≡ statement_of state.old }
{
    match &statement.kind {
        StatementKind::Assign(place, rvalue) => {
            let kind = kind_of_place(body, &state.running.types, place);
            assign(alloc, state, taken, kind, statement.span, place, rvalue)
        }
        StatementKind::Dead(x) => {
            let place = Place {
                local: *x,
                path: Items::new(alloc),
            };
            write(alloc, state, &place, gone())
        }
    }
}

/// The running frame goes on to its next statement.
fn pass(state: &mut State)
    requires { statement_of state.old < 2 ^ 63 }
    ensures { past state.old ≡ Yields state.new }
{
    state.running.statement += 1;
}

/// Runs a statement.
#[tactic(auto, using(crate::proofs::RightSides::statement_stops, crate::proofs::RightSides::statement_goes))]
pub fn run_statement(
    alloc: Global,
    body: &Body,
    state: &mut State,
    taken: &mut Taken,
    statement: &Statement,
) -> Result<(), Halt>
    requires even { IsEven taken.old }
    requires empty { taken.old.trees.items ≡ [] }
    requires within { statement_of state.old < 2 ^ 63 }
    ensures runs { Comes result (statement_step body.now (types_of state.old) state.old statement.now.span statement.now.kind) (λ _. state.new) }
    ensures err { result ≡ Err Halt.NoMemory → GoesBack taken.old state.old taken.new state.new }
{
    change(alloc, body, state, taken, statement)?;
    pass(state);
    Ok(())
}
