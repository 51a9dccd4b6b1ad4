ghost use Rattle.std.specs.Prelude.{◌≡◌};
ghost use Rattle.type_check.specs.Leaves.{all_arms_leave, leaves};
ghost use Rattle.type_check.specs.TypedExprView.{arms_of};

use crate::typed::{TypedArm, TypedExpr, TypedNode};

/// Whether the expression never has a value, since the run leaves it.
#[cycle(leaves)]
#[tactic(auto, using(crate::proofs::BlockEnds::leaving_parts))]
pub fn leaves(e: &TypedExpr) -> bool
    ensures { result ≡ leaves e.now }
{
    let mut end = e;
    loop {
        match &*end.node {
            TypedNode::Panic(_)
            | TypedNode::Return(_)
            | TypedNode::Loop(_, _)
            | TypedNode::Break
            | TypedNode::Continue
            | TypedNode::BlockLeaving(_, _) => return true,
            TypedNode::BlockWith(_, last) => end = last,
            TypedNode::IfElse(_, yes, no) => {
                if !leaves(yes) {
                    return false;
                }
                end = no;
            }
            TypedNode::Match(_, arms) => return all_arms_leave(arms),
            _ => return false,
        }
    }
}

/// Whether the body of each arm leaves.
#[cycle(leaves)]
#[tactic(auto, using(crate::proofs::ArmParts::leaving_arms))]
pub fn all_arms_leave(arms: &[TypedArm]) -> bool
    ensures { result ≡ all_arms_leave (arms_of arms.now) }
{
    for i in 0..arms.len() {
        if !leaves(&arms[i].body) {
            return false;
        }
    }
    true
}
