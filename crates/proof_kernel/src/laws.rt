//! Laws of the definitions, which no code runs.
ghost use Rattle.proof_kernel.specs.Laws.{AcceptsExactlyProofs, DerivedIsTrue, RefusesOnce, RulesAreSound, StepsGiveOneResult, StepsNameTheirOwn, WideIsNotDone};

/// The goal of an obligation that has a proof is true.
pub fn what_is_derived_is_true()
    ensures { DerivedIsTrue }
{}

/// Where all premises of a step are true, the sequent is.
pub fn rules_are_sound()
    ensures { RulesAreSound }
{}

/// The labels that a step cites are those of hypotheses. Each premise has the hypotheses and variables of the sequent, or some of them, and beside
/// them hypotheses labelled with the number of the step, and variables with its new names.
pub fn steps_name_their_own()
    ensures { StepsNameTheirOwn }
{}

/// A step at a sequent has one list of premises at most.
pub fn steps_give_one_result()
    ensures { StepsGiveOneResult }
{}

/// A step whose certificate passes 128 bits cannot be done.
pub fn wide_is_not_done()
    ensures { WideIsNotDone }
{}

/// The kernel accepts the steps of an obligation exactly where they are a proof of it. So every step that a rule gives a
/// result on the way from an obligation cites only steps above it.
pub fn proofs_are_accepted()
    ensures { AcceptsExactlyProofs }
{}

/// The steps of an obligation are refused at one place at most, and nowhere where they are accepted.
pub fn steps_are_refused_once()
    ensures { RefusesOnce }
{}
