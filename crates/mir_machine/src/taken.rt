ghost use Rattle.std.specs.Prelude.{◌≡◌, ◌≢◌, ◌∷◌, [], ◌++◌, Err, Some, None, OnOk};
ghost use Rattle.mir_machine.specs.Frame.{State as Frames};
ghost use Rattle.mir_machine.specs.Halt.{Comes};
ghost use Rattle.mir_ir.specs.declared.place.Operand.TheVariants.{Move};
ghost use Rattle.mir_machine.specs.Memory.{is_there, read};
ghost use Rattle.mir_machine.specs.Step.{literal};
ghost use Rattle.mir_machine.specs.Try.{Yields};
ghost use Rattle.mir_machine.specs.Tree.{Tree as Shape, Gone};
ghost use Rattle.mir_machine.specs.Taken.{take_one, take_more, IsEven, Undoes, GoesBack, put_back, statement_of};

use crate::entry::gone;
use crate::frame::State;
use crate::halt::Halt;
use crate::memory::{put_at, spot_of, tree_at};
use crate::spot::Spot;
use crate::tree::{Tree, TreeNode};
use mir_ir::{Lit, Operand, Place};
use std::alloc::Global;
use text_core::NoMemory;

/// The operands that a step has taken so far, from which they can be put back.
#[derive(Drop)]
pub struct Taken {
    pub trees: Vec<Tree>,
    /// For each tree the spot that a move left; `None` for what was copied, and for a literal.
    pub left: Vec<Option<Spot>>,
}

impl Taken {
    pub fn new(alloc: Global) -> Taken
        ensures trees { result.trees.items ≡ [] }
        ensures left { result.left.items ≡ [] }
    {
        Taken {
            trees: Vec::new(alloc),
            left: Vec::new(alloc),
        }
    }

    /// Adds a tree that left no spot. What goes back stays the same.
    #[tactic(auto, using(crate::proofs::Undoing::same_taken, crate::proofs::Undoing::more_trees, crate::proofs::Undoing::one_more))]
    pub fn add(&mut self, tree: Tree) -> Result<(), NoMemory>
        requires { IsEven self.old }
        ensures trees { OnOk result (self.new.trees.items ≡ self.old.trees.items ++ tree ∷ []) }
        ensures left { OnOk result (self.new.left.items ≡ self.old.left.items ++ None ∷ []) }
        ensures even { OnOk result (IsEven self.new) }
        ensures back { (s : Frames (Unit {0})) → GoesBack self.old s self.new s }
    {
        self.trees.push(tree)?;
        self.left.push(None)?;
        Ok(())
    }
}

fn literal(lit: Lit) -> Tree
    ensures { result ≡ literal lit }
{
    let node = match lit {
        Lit::Int(z, _) => TreeNode::Int(z),
        Lit::Bool(b) => TreeNode::Bool(b),
    };
    Tree { node }
}

/// The tree itself, where there is one.
pub fn is_there(tree: &Tree) -> Result<&Tree, Halt>
    ensures tree { Comes result (is_there tree.now) (λ t. t.now) }
    ensures memory { result ≢ Err Halt.NoMemory }
{
    match &tree.node {
        TreeNode::Gone => Err(Halt::Stuck),
        _ => Ok(tree),
    }
}

/// The tree of a place.
pub fn read<'a>(alloc: Global, state: &'a State, place: &Place) -> Result<&'a Tree, Halt>
    ensures { Comes result (read state.now place.now) (λ t. t.now) }
{
    let at = spot_of(alloc, state, place)?;
    is_there(tree_at(state, &at)?)
}

/// Moves the tree out of a place.
fn take_out(alloc: Global, state: &mut State, taken: &mut Taken, place: &Place) -> Result<(), Halt>
    requires { IsEven taken.old }
    ensures takes { Comes result (take_one state.old taken.old.trees.items (Move place.now)) (λ _. (state.new, taken.new.trees.items)) }
    ensures even { OnOk result (IsEven taken.new) }
    ensures ok { OnOk result (GoesBack taken.old state.old taken.new state.new) }
    ensures err { result ≡ Err Halt.NoMemory → GoesBack taken.old state.old taken.new state.new }
    ensures stays { statement_of state.new ≡ statement_of state.old }
{
    let at = spot_of(alloc, state, place)?;
    is_there(tree_at(state, &at)?)?;
    taken.add(gone())?;
    let tree = put_at(state, &at, gone())?;
    let last = taken.trees.len() - 1;
    taken.trees[last] = tree;
    taken.left[last] = Some(at);
    Ok(())
}

/// Takes the tree of an operand, which a copy leaves and a move does not.
pub fn take(
    alloc: Global,
    state: &mut State,
    taken: &mut Taken,
    operand: &Operand,
) -> Result<(), Halt>
    requires { IsEven taken.old }
    ensures takes { Comes result (take_one state.old taken.old.trees.items operand.now) (λ _. (state.new, taken.new.trees.items)) }
    ensures even { OnOk result (IsEven taken.new) }
    ensures ok { OnOk result (GoesBack taken.old state.old taken.new state.new) }
    ensures err { result ≡ Err Halt.NoMemory → GoesBack taken.old state.old taken.new state.new }
    ensures stays { statement_of state.new ≡ statement_of state.old }
{
    match operand {
        Operand::Copy(place) => {
            let tree = read(alloc, state, place)?.copy(alloc)?;
            Ok(taken.add(tree)?)
        }
        Operand::Move(place) => take_out(alloc, state, taken, place),
        Operand::Const(lit) => Ok(taken.add(literal(*lit))?),
    }
}

/// Takes the trees of operands, from the left.
pub fn take_all(
    alloc: Global,
    state: &mut State,
    taken: &mut Taken,
    operands: &[Operand],
) -> Result<(), Halt>
    requires { IsEven taken.old }
    ensures takes { Comes result (take_more state.old taken.old.trees.items operands.now) (λ _. (state.new, taken.new.trees.items)) }
    ensures even { OnOk result (IsEven taken.new) }
    ensures ok { OnOk result (GoesBack taken.old state.old taken.new state.new) }
    ensures err { result ≡ Err Halt.NoMemory → GoesBack taken.old state.old taken.new state.new }
    ensures stays { statement_of state.new ≡ statement_of state.old }
{
    for operand in operands {
        take(alloc, state, taken, operand)?;
    }
    Ok(())
}

/// Puts the operands back, the last one first.
pub fn put_back(state: &mut State, taken: Taken)
    ensures { (s : Frames (Unit {0})) → Undoes taken state.old s → state.new ≡ s }
{
    let Taken {
        mut trees,
        mut left,
    } = taken;
    trees.truncate(left.len());
    while let Some(spot) = left.pop() {
        put_back_one(state, spot, trees.pop());
    }
}

fn put_back_one(state: &mut State, spot: Option<Spot>, tree: Option<Tree>)
    ensures { (t : Shape (Unit {0})) (s : Frames (Unit {0})) → tree ≡ Some t → put_back state.old spot t ≡ Yields s → state.new ≡ s }
{
    if let (Some(at), Some(tree)) = (spot, tree) {
        let _ = put_at(state, &at, tree);
    }
}
