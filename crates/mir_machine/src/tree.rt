ghost use Rattle.std.specs.Prelude.{◌≡◌, IfOk};
ghost use Rattle.mir_machine.specs.TreeView.{pointer_of};

use crate::spot::Spot;
use logic_term::Ctor;
use std::alloc::Global;
use std::marker::Model;
use text_core::NoMemory;

/// A value of the machine. Contracts see the tree of specs/Tree.antt.
#[cycle(tree)]
#[derive(Drop)]
pub struct Tree {
    pub node: TreeNode,
}

/// What a value is at its top. All that is large is behind one pointer, so that a value is small wherever it is held.
#[cycle(tree)]
#[derive(Drop)]
pub enum TreeNode {
    Int(i128),
    Bool(bool),
    /// A tuple, a struct, a variant, or a closure with its captures.
    Made(Ctor, Vec<Tree>),
    Pointer(Box<PointerTree>),
    /// What a move leaves.
    Gone,
}

/// A value that points to another one.
#[cycle(tree)]
#[derive(Drop)]
pub enum PointerTree {
    Boxed(Tree),
    /// A shared reference to the spot.
    Shared(Spot),
    /// A mutable reference to the spot.
    Unique(Spot),
}

impl Model for Tree {
    ghost use Rattle.mir_machine.specs.Tree.{Tree as Shape};
    ghost use Rattle.mir_machine.specs.TreeCode.{coded_tree};

    ghost Value = { Shape (Unit {0}) };

    ghost coded = { coded_tree };

    ghost use Rattle.mir_machine.specs.TreeView.{tree_of, tree_size};

    ghost view = { λ t. tree_of t.node };

    ghost size = { tree_size };

    ghost use Rattle.mir_machine.specs.TreeFalls.{falls};

    ghost size_decreases = { λ a h. falls a.node };
}

impl Tree {
    #[cycle(copy_tree)]
    #[tactic(auto, using(crate::specs::TreeFalls::each_smaller))]
    pub fn copy(&self, alloc: Global) -> Result<Tree, NoMemory>
        ensures { IfOk result (λ t. t ≡ self.now) }
    {
        let node = match &self.node {
            TreeNode::Int(z) => TreeNode::Int(*z),
            TreeNode::Bool(b) => TreeNode::Bool(*b),
            TreeNode::Made(ctor, parts) => TreeNode::Made(*ctor, copy_trees(alloc, parts)?),
            TreeNode::Pointer(pointer) => return pointer.copied(alloc),
            TreeNode::Gone => TreeNode::Gone,
        };
        Ok(Tree { node })
    }
}

impl PointerTree {
    /// A copy of the value.
    #[cycle(copy_tree)]
    fn copied(&self, alloc: Global) -> Result<Tree, NoMemory>
        ensures { IfOk result (λ t. t ≡ pointer_of self.now) }
    {
        let pointer = match self {
            PointerTree::Boxed(t) => PointerTree::Boxed(t.copy(alloc)?),
            PointerTree::Shared(spot) => PointerTree::Shared(spot.copy(alloc)?),
            PointerTree::Unique(spot) => PointerTree::Unique(spot.copy(alloc)?),
        };
        let node = TreeNode::Pointer(Box::new(alloc, pointer)?);
        Ok(Tree { node })
    }
}

#[cycle(copy_tree)]
#[tactic(auto, using(crate::specs::TreeFalls::each_smaller))]
pub fn copy_trees(alloc: Global, trees: &[Tree]) -> Result<Vec<Tree>, NoMemory>
    ensures { IfOk result (λ v. v.items ≡ trees.now) }
{
    let mut copies = Vec::with_capacity(alloc, trees.len())?;
    for i in 0..trees.len() {
        copies.push(trees[i].copy(alloc)?)?;
    }
    Ok(copies)
}
