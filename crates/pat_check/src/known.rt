ghost use Rattle.std.specs.Prelude.{◌≡◌, IfOk};
ghost use Rattle.pat_check.specs.Known.{anything};
ghost use Rattle.pat_check.specs.KnownView.{known_of};

use logic_term::Ctor;
use source_kinds::IntKind;
use std::alloc::Global;
use std::marker::Model;
use std::rc::Rc;
use text_core::NoMemory;

/// What is known of a value while it is tested. Its parts are shared with what it was made of. Contracts see the tree of
/// specs/Known.antt.
#[cycle(known)]
#[derive(Drop)]
pub struct Known {
    pub node: Rc<KnownNode>,
}

/// What is known at the top of a value.
#[cycle(known)]
#[derive(Drop)]
pub enum KnownNode {
    Anything,
    /// An integer of the kind other than these.
    Other(Option<IntKind>, Vec<i128>),
    Number(i128),
    Flag(bool),
    Built(Ctor, Vec<Known>),
}

impl Model for Known {
    ghost use Rattle.pat_check.specs.Known.{Known as Tree};
    ghost use Rattle.pat_check.specs.KnownCode.{coded_known};

    ghost Value = { Tree };

    ghost coded = { coded_known };

    ghost use Rattle.pat_check.specs.KnownView.{known_of, known_size};

    ghost view = { λ k. known_of k.node.value };

    ghost size = { known_size };

    ghost use Rattle.pat_check.specs.KnownFalls.{falls};

    ghost size_decreases = { λ a h. falls a.node.value };
}

impl Known {
    /// What has this at its top.
    pub fn of(alloc: Global, node: KnownNode) -> Result<Known, NoMemory>
        ensures { IfOk result (λ k. k ≡ known_of node) }
    {
        let node = Rc::new(alloc, node)?;
        Ok(Known { node })
    }

    /// Nothing is known.
    pub fn anything(alloc: Global) -> Result<Known, NoMemory>
        ensures { IfOk result (λ k. k ≡ anything) }
    {
        Known::of(alloc, KnownNode::Anything)
    }

    /// The same, shared.
    pub fn share(&self) -> Result<Known, NoMemory>
        ensures { IfOk result (λ k. k ≡ self.now) }
    {
        let node = self.node.clone()?;
        Ok(Known { node })
    }
}

pub fn share_all(alloc: Global, parts: &[Known]) -> Result<Vec<Known>, NoMemory>
    ensures { IfOk result (λ v. v.items ≡ parts.now) }
{
    let mut shared = Vec::with_capacity(alloc, parts.len())?;
    for i in 0..parts.len() {
        shared.push(parts[i].share()?)?;
    }
    Ok(shared)
}
