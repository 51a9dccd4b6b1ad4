ghost use Rattle.std.specs.Prelude.{◌≡◌, IfOk};
ghost use Rattle.pat_check.specs.PatValueView.{pat_value_of};

use logic_term::Ctor;
use std::alloc::Global;
use std::marker::Model;
use text_core::NoMemory;

/// A value of which some parts are left open. Contracts see the tree of specs/PatValue.antt.
#[cycle(pat_value)]
#[derive(Drop)]
pub struct PatValue {
    pub node: Box<PatValueNode>,
}

/// What a pattern value is at its top.
#[cycle(pat_value)]
#[derive(Drop)]
pub enum PatValueNode {
    /// Any value of the type.
    Any,
    Int(i128),
    Bool(bool),
    Made(Ctor, Vec<PatValue>),
}

impl Model for PatValue {
    ghost use Rattle.pat_check.specs.PatValue.{PatValue as Tree};
    ghost use Rattle.pat_check.specs.PatValueCode.{coded_pat_value};

    ghost Value = { Tree };

    ghost coded = { coded_pat_value };

    ghost use Rattle.pat_check.specs.PatValueView.{pat_value_of, pat_value_size};

    ghost view = { λ w. pat_value_of w.node.value };

    ghost size = { pat_value_size };

    ghost use Rattle.pat_check.specs.PatValueFalls.{falls};

    ghost size_decreases = { λ a h. falls a.node.value };
}

impl PatValue {
    /// The pattern value with this at its top.
    pub fn of(alloc: Global, node: PatValueNode) -> Result<PatValue, NoMemory>
        ensures { IfOk result (λ w. w ≡ pat_value_of node) }
    {
        let node = Box::new(alloc, node)?;
        Ok(PatValue { node })
    }
}
