use logic_term::{Contract, FnKind, Ty};
use text_core::{Items, Name, Span};

/// How a closure holds what it captures: the value itself, or a reference to it, which is shared or mutable.
#[derive(Clone, Copy)]
pub enum CaptureMode {
    Value,
    Shared,
    Unique,
}

/// A variable that a closure captures.
#[derive(Drop)]
pub struct Capture {
    pub name: Name,
    /// The type of what the closure holds for it.
    pub held: Ty,
    pub mode: CaptureMode,
    /// Whether a call may leave another value in it.
    pub changed: bool,
}

/// A closure, by its number. Its contract speaks of its captures and of its parameters.
#[derive(Drop)]
pub struct ClosureDecl {
    pub number: u32,
    pub kind: FnKind,
    pub captures: Items<Capture>,
    pub params: Items<(Name, Ty)>,
    pub result: Ty,
    pub contract: Contract,
    pub span: Span,
}
