use crate::tree::Tree;
use text_core::Items;

/// The arguments of a call, and the trees that frame 0 holds, to which references among them refer.
#[derive(Drop)]
pub struct Args {
    pub values: Items<Tree>,
    pub outside: Items<Tree>,
}
