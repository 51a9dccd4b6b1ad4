//! Proofs that are found by number and owner.
ghost use Rattle.std.specs.Prelude.{◌≡◌, ◌==◌, ◌&&◌, [], ◌∷◌, ◌++◌, IfOk};
ghost use Rattle.std.specs.List.{list_any};
ghost use Rattle.std.specs.Str.{bytes_eq};

use crate::proof::Proof;
use std::alloc::Global;
use std::collections::HashSet;
use std::marker::Model;
use text_core::{Items, NoMemory};

/// Proofs in order, with a set of their numbers and owners.
#[derive(Drop)]
pub(crate) struct ProofTable<'a> {
    proofs: Vec<Proof>,
    keys: HashSet<(u32, &'a [u8])>,
}

impl<'a> Model for ProofTable<'a> {
    ghost use Rattle.std.specs.Prelude.{List};
    ghost use Rattle.proof_text.specs.declared.proof.Proof.{Proof as OneProof};
    ghost use Rattle.proof_text.specs.ProofKeys.{HasKeysOf};

    // The proofs, in order.
    ghost Value = { List OneProof };

    ghost use Rattle.std.specs.Coded.{coded_list};
    ghost use Rattle.proof_text.specs.contracts.proof.Proof as proof;

    ghost coded = { coded_list proof.the_row.coded };

    ghost view = { λ table. table.proofs.items };

    ghost invariant = { λ table. HasKeysOf table.proofs.items table.keys };
}

impl<'a> ProofTable<'a> {
    /// Takes no memory.
    pub(crate) fn new(alloc: Global) -> ProofTable<'a>
        ensures { result ≡ [] }
    {
        ProofTable {
            proofs: Vec::new(alloc),
            keys: HashSet::new(alloc),
        }
    }

    /// Whether there is a proof of this number and owner.
    pub(crate) fn has(&self, number: u32, owner: &'a str) -> bool
        ensures { result ≡ list_any (λ p. p.number == number && bytes_eq p.owner owner.now) self.now }
    {
        self.keys.contains(&(number, owner.as_bytes()))
    }

    /// The table with one more proof, which is of this owner.
    pub(crate) fn with(self, proof: Proof, owner: &'a str) -> Result<ProofTable<'a>, NoMemory>
        requires { proof.owner ≡ owner.now }
        ensures { IfOk result (λ more. more ≡ self.entry ++ proof ∷ []) }
    {
        let ProofTable { proofs, keys } = self;
        let mut proofs = proofs;
        let mut keys = keys;
        keys.insert((proof.number, owner.as_bytes()))?;
        proofs.push(proof)?;
        Ok(ProofTable { proofs, keys })
    }

    /// The proofs, in order.
    pub(crate) fn into_items(self) -> Items<Proof>
        ensures { result ≡ self.entry }
    {
        let ProofTable {
            proofs,
            keys: _keys,
        } = self;
        Items::from_vec(proofs)
    }
}
