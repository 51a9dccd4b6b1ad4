//! What holds of every program.
ghost use Rattle.runnable.specs.Laws.{CopyTypesAreTold, FieldsAreOwned, OwnedTypesHaveValues, PlainProgramsRun, ProgramsThatRunArePlain};

/// Where nothing of a program is found that does not run yet, it is plain, and only there.
pub fn programs_that_run_are_plain()
    ensures plain { ProgramsThatRunArePlain }
    ensures runs { PlainProgramsRun }
{}

/// What a declared type of a source without lifetimes has in its fields holds no references; and each type that holds none has a value, where what the
/// source declares is in order.
pub fn owned_types_are_valued()
    ensures fields { FieldsAreOwned }
    ensures values { OwnedTypesHaveValues }
{}

/// Which types are Copy (Rust Reference, "Special types and traits", `Copy`) is told by the rows from which it is computed.
pub fn copy_types_are_told()
    ensures { CopyTypesAreTold }
{}
