ghost use Rattle.std.specs.Prelude.{◌≡◌, IfOk};
ghost use Rattle.pat_check.specs.DecisionView.{decision_of};

use logic_term::{Binding, PatPath};
use std::alloc::Global;
use std::marker::Model;
use text_core::{Items, NoMemory};

/// A tree of tests. Contracts see the tree of specs/Decision.antt.
#[cycle(decision)]
#[derive(Drop)]
pub struct Decision {
    pub node: Box<DecisionNode>,
}

/// What a tree of tests is at its top.
#[cycle(decision)]
#[derive(Drop)]
pub enum DecisionNode {
    /// The arm, and what it binds.
    Leaf(u32, Items<Binding>),
    /// A branch for each variant of what stands there.
    Switch(PatPath, Vec<Decision>),
    /// Where it is true, and where it is false.
    Truth(PatPath, Decision, Decision),
    /// Where it is the integer, and where it is another.
    Literal(PatPath, i128, Decision, Decision),
}

impl Model for Decision {
    ghost use Rattle.pat_check.specs.Decision.{Decision as Tree};
    ghost use Rattle.pat_check.specs.DecisionCode.{coded_decision};

    ghost Value = { Tree };

    ghost coded = { coded_decision };

    ghost use Rattle.pat_check.specs.DecisionView.{decision_of, decision_size};

    ghost view = { λ d. decision_of d.node.value };

    ghost size = { decision_size };

    ghost use Rattle.pat_check.specs.DecisionFalls.{falls};

    ghost size_decreases = { λ a h. falls a.node.value };
}

impl Decision {
    /// The tree with this at its top.
    pub fn of(alloc: Global, node: DecisionNode) -> Result<Decision, NoMemory>
        ensures { IfOk result (λ d. d ≡ decision_of node) }
    {
        let node = Box::new(alloc, node)?;
        Ok(Decision { node })
    }
}
