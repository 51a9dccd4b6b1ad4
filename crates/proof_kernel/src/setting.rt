ghost use Rattle.std.specs.Prelude.{◌≡◌};
ghost use Rattle.proof_kernel.specs.Setting.{no_tables};

use logic_term::{AdtDecl, Obligation};
use std::alloc::Global;
use text_core::Items;

/// What a program declares, which the steps of proofs may look up.
#[derive(Drop)]
pub struct Tables {
    /// The declared types, by their numbers.
    pub adts: Items<AdtDecl>,
}

impl Tables {
    /// Those of a program that declares nothing; takes no memory.
    pub fn new(alloc: Global) -> Tables
        ensures { result ≡ no_tables }
    {
        Tables {
            adts: Items::new(alloc),
        }
    }
}

/// What a proof is about: the tables of the program, and the obligation that is proved.
#[derive(Clone, Copy)]
pub(crate) struct Scope<'a> {
    pub(crate) tables: &'a Tables,
    pub(crate) obligation: &'a Obligation,
}
