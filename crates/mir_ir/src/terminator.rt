use crate::place::{Operand, Place};
use logic_term::{Label, Ty};
use text_core::{Cause, Items, Span};

/// A function that can be called.
#[derive(Clone, Copy)]
pub enum FnId {
    /// A place in the list of bodies, from 0.
    Body(u32),
}

/// What a call names.
#[derive(Clone, Copy)]
pub enum Callee {
    Function(FnId),
}

pub enum TerminatorKind {
    Goto(Label),
    /// To the first label where the operand is true, else to the second.
    If(Operand, Label, Label),
    /// To the label of the variant that the place has, of these one for each variant of its type, in declared order.
    Switch(Place, Items<Label>),
    /// A call with a type for each type parameter of the callee, and with these arguments. Its answer goes to the place, and the
    /// body goes on at the label.
    Call(Place, Callee, Items<Ty>, Items<Operand>, Label),
    Return,
    /// The run ends with a panic for this cause.
    Panic(Cause),
}

// By hand, so that whoever holds one drops it by a call (docs/architecture.md).
impl Drop for TerminatorKind {
    fn drop(self) {
        match self {
            TerminatorKind::Goto(_)
            | TerminatorKind::If(_, _, _)
            | TerminatorKind::Switch(_, _)
            | TerminatorKind::Call(_, _, _, _, _)
            | TerminatorKind::Return
            | TerminatorKind::Panic(_) => {}
        }
    }
}

/// How a block ends.
#[derive(Drop)]
pub struct Terminator {
    pub span: Span,
    pub kind: TerminatorKind,
}
