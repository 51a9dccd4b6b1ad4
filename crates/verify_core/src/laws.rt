//! Laws of what there is one of. Nothing here computes.
ghost use Rattle.verify_core.specs.Laws.{
  AcceptedIsNeverStuck,
  AcceptedIsNotRefused,
  AcceptedIsWithinLimits,
  FewerAreFront,
  FewerOweFewer,
  FewObligationsAreNotMany,
  FewPathsAreNotMany,
  LeftHasNoDerivation,
  LimitIsOne,
  ObligationsAreOne,
  OwedIsOfBodies,
  OwedIsOne,
  ProgramIsOne,
  RefusalIsOne,
  RefusedAtOneLine,
  RefusedIsNotAccepted,
  RefusedIsWithinLimits,
  SettledHasDerivation,
  VerdictIsOne,
};

/// A body with its contract has one walk, and so one list of obligations.
pub fn obligations_are_of_one_walk()
    ensures { ObligationsAreOne }
{}

/// So many of the first functions of a program owe one list of obligations, which stands at the front of that of more functions.
pub fn functions_owe_one_list()
    ensures one { OwedIsOne }
    ensures front { FewerAreFront }
    ensures fewer { FewerOweFewer }
    ensures of_bodies { OwedIsOfBodies }
{}

/// A program whose functions all have few enough obligations is never past the limit on obligations.
pub fn obligations_are_counted()
    ensures { FewObligationsAreNotMany }
{}

/// A program whose bodies all have few enough paths is never past the limit on paths.
pub fn paths_are_counted()
    ensures { FewPathsAreNotMany }
{}

/// The steps of a proof are refused at one line at most, and at none where they are accepted.
pub fn refusals_are_at_one_line()
    ensures one_line { RefusedAtOneLine }
    ensures not_accepted { RefusedIsNotAccepted }
{}

/// The functions of a program have one verdict by the proofs of a file.
pub fn a_verdict_is_one()
    ensures { VerdictIsOne }
{}

/// The verdict is complete obligation by obligation: one that is settled as proved has a derivation among the proofs, and one
/// that is left has none.
pub fn each_obligation_is_settled_rightly()
    ensures proved { SettledHasDerivation }
    ensures left { LeftHasNoDerivation }
{}

/// A source is accepted with one program, or refused with one code and place, or past one limit, and only one of these. Limits
/// behind that on its length are asked of a source that is no longer.
pub fn a_source_has_one_answer()
    ensures program { ProgramIsOne }
    ensures refusal { RefusalIsOne }
    ensures limit { LimitIsOne }
    ensures not_refused { AcceptedIsNotRefused }
    ensures within_limits { AcceptedIsWithinLimits }
    ensures refused_within_limits { RefusedIsWithinLimits }
{}

/// No run of a proper call of a function of an accepted source gets stuck, after any number of steps, whether or not the function is
/// verified.
pub fn accepted_sources_never_get_stuck()
    ensures { AcceptedIsNeverStuck }
{}
