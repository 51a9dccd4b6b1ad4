use text_core::{Cause, NoMemory, Span};

/// Why a part of a step gives no value.
#[derive(Clone, Copy)]
pub enum Halt {
    /// No row of the machine applies. No body that is typed and initialised comes to it.
    Stuck,
    Panics(Cause, Span),
    NoMemory,
}

impl From<NoMemory> for Halt {
    ghost use Rattle.std.specs.Prelude.{◌≡◌};
    ghost use Rattle.mir_machine.specs.declared.halt.Halt.TheVariants as halt;

    ghost from_gives = { λ _ h. h ≡ halt.NoMemory };

    fn from(_refused: NoMemory) -> Halt {
        Halt::NoMemory
    }
}
