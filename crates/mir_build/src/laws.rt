//! What is true of each program that lowers, and of each one that fits and is plain too.
ghost use Rattle.mir_build.specs.Laws.{BlocksAreCounted, BodiesAreLaidOut, BodiesAreSound, ContractsSpeakOfParameters, HeadsSpeakOfWhatIsThere, LocalsHaveBuiltTypes, LocalsHaveNames, ProgramsLowerInOneWay};

/// Two lowerings of a program have the same bodies, contracts and gone places.
pub fn programs_lower_in_one_way()
    ensures { ProgramsLowerInOneWay }
{}

/// Where no body has more blocks than the bound, the text of no function has.
pub fn blocks_are_counted()
    ensures { BlocksAreCounted }
{}

/// The bodies are typed, and each local that is read is initialised.
pub fn lowered_bodies_are_sound()
    ensures { BodiesAreSound }
{}

/// Each end of a block leads on, out of loops or into one at its head, or back to the head of a loop around it. No two locals
/// have one name, and all are of types that run.
pub fn lowered_bodies_are_laid_out()
    ensures laid_out { BodiesAreLaidOut }
    ensures named { LocalsHaveNames }
    ensures built { LocalsHaveBuiltTypes }
{}

/// There are sets of locals that are surely initialised, by which the bodies are sound, each invariant speaks of locals that are
/// initialised at its head, and none of them may be gone there.
pub fn lowered_heads_speak_of_what_is_there()
    ensures { HeadsSpeakOfWhatIsThere }
{}

/// Each body has a contract over names of its own for its parameters: a `requires` speaks of them alone, and an `ensures` of the
/// answer as well.
pub fn lowered_contracts_speak_of_parameters()
    ensures { ContractsSpeakOfParameters }
{}
