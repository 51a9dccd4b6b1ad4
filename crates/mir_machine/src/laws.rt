//! What holds of every run. Nothing here computes.
ghost use Rattle.mir_machine.specs.Laws.{ProperCallsAreNeverStuck, ProperCallsStayTyped};

/// After a proper call of a function of bodies that are typed and initialised no state is stuck, after any number of steps, whether
/// or not its obligations are true.
pub fn proper_calls_are_never_stuck()
    ensures { ProperCallsAreNeverStuck }
{}

/// Each state that a proper call of typed, initialised bodies comes to is typed: the first frame and those that wait behind it hold what is
/// initialised where they stand, and an answer is of its type.
pub fn proper_calls_stay_typed()
    ensures { ProperCallsStayTyped }
{}
