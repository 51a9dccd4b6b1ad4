ghost use Rattle.logic_elab.specs.Laws.{ElaboratedTermsSpeakOfTheirScope, ElaboratedTermsAreSorted};

/// What a term becomes speaks of what its scope gives alone.
#[tactic(auto, using(crate::proofs::SortLaw::terms_speak_of_their_scope))]
pub fn elaborated_terms_speak_of_their_scope()
    ensures { ElaboratedTermsSpeakOfTheirScope }
{}

/// What a term becomes has its sort.
#[tactic(auto, using(crate::proofs::SortLaw::terms_are_sorted))]
pub fn elaborated_terms_are_sorted()
    ensures { ElaboratedTermsAreSorted }
{}
