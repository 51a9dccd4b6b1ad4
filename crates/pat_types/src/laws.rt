//! What holds of all written patterns. Nothing here computes: each clause is a law of the definitions in specs/.

ghost use Rattle.pat_types.specs.Laws.{NamesAreDistinct, NamesAreListed, NamesStandAlone, TypedPatternsFit};

/// What a written pattern comes to at a type is a pattern of the type.
pub fn typed_patterns_fit()
    ensures { TypedPatternsFit }
{}

/// No name is bound twice, each that the pattern binds is listed, with the type of its variable, and of a pattern without parts
/// no other.
pub fn bound_names_are_listed()
    ensures distinct { NamesAreDistinct }
    ensures listed { NamesAreListed }
    ensures alone { NamesStandAlone }
{}
