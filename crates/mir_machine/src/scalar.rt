ghost use Rattle.std.specs.Prelude.{◌≡◌, ◌≢◌};
ghost use Rattle.mir_machine.specs.Halt.{Comes};
ghost use Rattle.mir_machine.specs.ScalarView.{scalar, scalar_tree};

use crate::halt::Halt;
use crate::tree::{Tree, TreeNode};

/// An operand of an operator.
#[derive(Clone, Copy)]
pub enum Scalar {
    Int(i128),
    Truth(bool),
}

/// The integer or the truth value of the tree.
pub fn scalar_of(tree: &Tree) -> Result<Scalar, Halt>
    ensures scalar { Comes result (scalar tree.now) scalar_tree }
    ensures memory { result ≢ Err Halt.NoMemory }
{
    match &tree.node {
        TreeNode::Int(z) => Ok(Scalar::Int(*z)),
        TreeNode::Bool(b) => Ok(Scalar::Truth(*b)),
        _ => Err(Halt::Stuck),
    }
}
