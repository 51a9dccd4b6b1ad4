//! What holds of every tree of tests and of every pattern value. Nothing here computes.

ghost use Rattle.pat_check.specs.Laws.{TreesDecide, ATreeIsOne, FlatTreesAreOfRows, PatternValuesStandForValues};

/// The tree of the arms answers, for each value of their type, the first arm that matches, with its bindings.
pub fn trees_decide()
    ensures { TreesDecide }
{}

/// Arms have one tree at most.
pub fn a_tree_is_one()
    ensures { ATreeIsOne }
{}

/// The tree of flat patterns is the one that their rows give.
pub fn flat_trees_are_of_rows()
    ensures { FlatTreesAreOfRows }
{}

/// A pattern value of a type stands for a value of the type.
pub fn pattern_values_stand_for_values()
    ensures { PatternValuesStandForValues }
{}
