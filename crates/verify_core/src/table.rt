//! The proofs of a file, found by obligation.
ghost use Rattle.std.specs.Prelude.{◌≡◌, IfOk};
ghost use Rattle.std.specs.List.{find};
ghost use Rattle.std.specs.Option.{option_copied};
ghost use Rattle.verify_core.specs.Verdict.{is_for};

use logic_term::Obligation;
use proof_text::Proof;
use std::alloc::Global;
use std::collections::HashMap;
use std::marker::Model;
use text_core::NoMemory;

/// The proofs of a file, with a table of the first one of each number and owner.
#[derive(Drop)]
pub(crate) struct ProofTable<'a> {
    proofs: &'a [Proof],
    firsts: HashMap<(u32, &'a [u8]), &'a Proof>,
}

impl<'a> Model for ProofTable<'a> {
    ghost use Rattle.std.specs.Prelude.{List};
    ghost use Rattle.proof_text.specs.declared.proof.Proof.{Proof as OneProof};
    ghost use Rattle.verify_core.specs.Firsts.{HasFirsts};

    // The proofs, in order.
    ghost Value = { List OneProof };

    ghost use Rattle.std.specs.Coded.{coded_list};
    ghost use Rattle.proof_text.specs.contracts.proof.Proof as proof;

    ghost coded = { coded_list proof.the_row.coded };

    ghost view = { λ table. table.proofs.now };

    ghost invariant = { λ table. HasFirsts table.proofs.now table.firsts };
}

impl<'a> ProofTable<'a> {
    pub(crate) fn new(alloc: Global, proofs: &'a [Proof]) -> Result<ProofTable<'a>, NoMemory>
        ensures { IfOk result (λ table. table ≡ proofs.now) }
    {
        let mut firsts = HashMap::new(alloc);
        // From the last to the first, which takes the place of the later ones.
        for proof in proofs.iter().rev() {
            firsts.insert((proof.number, proof.owner.bytes()), proof)?;
        }
        Ok(ProofTable { proofs, firsts })
    }

    /// The first proof of the obligation, if there is one.
    pub(crate) fn proof_for(&self, obligation: &Obligation) -> Option<&'a Proof>
        ensures { option_copied result ≡ find (is_for obligation.now) self.now }
    {
        let key = (obligation.number, obligation.owner.bytes());
        self.firsts.get(&key).copied()
    }
}
