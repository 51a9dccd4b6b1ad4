//! The code of functions as the machine runs it: places, statements, blocks and bodies.
#![tactic(auto)]

mod body;
mod closure;
mod place;
mod statement;
mod terminator;

pub use body::{
    Block, Bodies, Body, Contracts, Head, ImplBody, Initialised, Point, Resolves, Signature,
};
pub use closure::{Capture, CaptureMode, ClosureDecl};
pub use place::{Lit, Operand, Place, Proj};
pub use statement::{Rvalue, Statement, StatementKind};
pub use terminator::{Callee, FnId, Terminator, TerminatorKind};
