//! What holds of all that is found. Nothing here computes: the clause is a law of the definitions in specs/.

ghost use Rattle.type_parts.specs.Laws.{FoundPartsHaveTheirSorts};

/// What is found is a part of that number and of that type.
pub fn found_parts_have_their_sorts()
    ensures { FoundPartsHaveTheirSorts }
{}
