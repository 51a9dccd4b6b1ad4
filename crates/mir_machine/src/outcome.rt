use text_core::{Cause, Span};

/// What a run has come to.
#[derive(Clone, Copy)]
pub enum Outcome {
    Running,
    Returned,
    Panicked { cause: Cause, span: Span },
}
