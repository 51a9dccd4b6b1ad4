use crate::pattern::Pat;
use crate::types::TypeTree;

/// What is done with a statement's value.
#[derive(Drop)]
pub enum StmtKind {
    /// `let p: T = e;`, with the type if one is written.
    Let(Pat, Option<TypeTree>),
    /// `e;`
    Run,
    /// A statement that begins with a block, `if`, `match`, `while` or `loop`, and ends with it; a `;` may stand behind it.
    Blocklike,
}
