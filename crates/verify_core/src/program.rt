use crate::owed::Owed;
use mir_ir::{Bodies, Contracts};
use proof_kernel::Tables;
use text_core::{Items, Names};

/// A source that is accepted: its functions as bodies, each with its contract, in source order; what it declares, as steps of proofs
/// look it up; and all obligations, those of one function behind those of another.
#[derive(Drop)]
pub struct Program {
    pub names: Names,
    pub bodies: Bodies,
    pub contracts: Contracts,
    pub tables: Tables,
    pub obligations: Items<Owed>,
}
