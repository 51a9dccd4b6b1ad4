//! Which declared types hold themselves other than in a box.
ghost use Rattle.rs_types.specs.Laws.{CyclesAreEndless, FirstRefusalsAreOne, RankedTypesAreBounded, WhatHoldsIsNotRefused};

/// Where the declared types have ranks, each above those that stand in its fields other than in boxes, no endless chain of fields
/// without a box begins at one of them.
pub fn ranked_types_are_bounded()
    ensures { RankedTypesAreBounded }
{}

/// Where in a field of each of some declared types one of them stands other than in a box, an endless chain begins at each of them,
/// whatever its type arguments are.
pub fn a_cycle_is_endless()
    ensures { CyclesAreEndless }
{}

/// Of a list of checks on declared types either all hold, or the first that does not is refused for one thing.
pub fn first_refusals_are_one()
    ensures apart { WhatHoldsIsNotRefused }
    ensures one { FirstRefusalsAreOne }
{}
