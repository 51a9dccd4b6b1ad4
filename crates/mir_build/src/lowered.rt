use mir_ir::{Bodies, Contracts, Initialised};
use text_core::Items;

/// The bodies of a program with a contract for each, and what may be gone at the heads of the loops of each.
#[derive(Drop)]
pub struct Lowered {
    pub bodies: Bodies,
    pub contracts: Contracts,
    pub gone: Items<Initialised>,
}
