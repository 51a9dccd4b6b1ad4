//! What holds of every grammar: laws, and no code.
ghost use Rattle.grammar_tables.specs.Statements.{AcceptsOnlyDerived, AcceptsAllDerived, HasOneOutcome, HasOneDerivation, RefusesTheFirstOffender, AcceptsTheLongestFront};
ghost use Rattle.grammar_tables.specs.Statements.{PassesAsLL1, PassesAsPlanned, PassesAsStated, HasTree, HasOneTree, TextHasOneTree, DerivesASum, SumsAreLL1, SumsArePlanned};

/// Of an LL(1) grammar, what the parser accepts is derived, and what is derived is accepted.
pub fn what_is_accepted_is_derived()
    ensures sound { AcceptsOnlyDerived }
    ensures complete { AcceptsAllDerived }
{}

/// A text comes to one outcome. Of an LL(1) grammar it has one leftmost derivation.
pub fn a_text_has_one_derivation()
    ensures outcome { HasOneOutcome }
    ensures derivation { HasOneDerivation }
{}

/// A text is refused at the first token that cannot continue, and a front ends there.
pub fn a_refusal_is_at_the_first_offender()
    ensures refused { RefusesTheFirstOffender }
    ensures ended { AcceptsTheLongestFront }
{}

/// What passes a test, which computes, meets the condition.
pub fn the_tests_show_the_conditions()
    ensures ll1 { PassesAsLL1 }
    ensures planned { PassesAsPlanned }
    ensures stated { PassesAsStated }
{}

/// A derivation is that of one tree. Of an LL(1) grammar, so is a text.
pub fn a_derivation_has_one_tree()
    ensures tree { HasTree }
    ensures alone { HasOneTree }
    ensures of_text { TextHasOneTree }
{}

/// There are grammars that meet the conditions, and they derive texts.
pub fn sums_meet_the_conditions()
    ensures ll1 { SumsAreLL1 }
    ensures planned { SumsArePlanned }
    ensures derived { DerivesASum }
{}
