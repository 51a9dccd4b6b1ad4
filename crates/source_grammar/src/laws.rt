//! What holds of every source: laws, and no code.
ghost use Rattle.source_grammar.specs.Statements.{HasOneSourceDerivation, HasOneFault, IsDerivedOrFaulty, HasOneFront, IsFaultOfAll, HasFrontOrFault, IsOfATree, IsOfOneTree};

/// Tokens have one answer: one derivation within the limits, or one fault.
pub fn tokens_have_one_answer()
    ensures derivation { HasOneSourceDerivation }
    ensures fault { HasOneFault }
    ensures either { IsDerivedOrFaulty }
{}

/// So it is with fronts: there is one, or a fault.
pub fn fronts_have_one_answer()
    ensures front { HasOneFront }
    ensures fault { IsFaultOfAll }
    ensures either { HasFrontOrFault }
{}

/// A derivation is that of one tree.
pub fn a_source_has_one_tree()
    ensures tree { IsOfATree }
    ensures alone { IsOfOneTree }
{}
