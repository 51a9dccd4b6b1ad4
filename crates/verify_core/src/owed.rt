use logic_term::Obligation;
use prophecy_sim::Node;

/// An obligation, with the node that owes it.
#[derive(Drop)]
pub struct Owed {
    pub by: Node,
    pub obligation: Obligation,
}
