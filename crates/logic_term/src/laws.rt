//! What holds of the meaning of every term. Nothing here computes: each clause is a law of the definitions in specs/,
//! by which the contracts of this crate speak.

ghost use Rattle.logic_term.specs.Laws.{PutTermsCountAsValues, APutTermCountsAsValue, PlacedTermsCountAsValues, BoundNamesDoNotCount, CanonicalFormsKeepValues, FreeNamesAloneCount, OtherNamesDoNotCount, SortsKeepValues};
ghost use Rattle.logic_term.specs.Sorted.{SortsAreKept};
ghost use Rattle.logic_term.specs.Laws.{ValuesAreSingle, ValuesAreSure, ValuesOfMade, ValueOfUnit, ValuesOfParts, ValuesOfChoices, NormalFormsKeepValues};
ghost use Rattle.logic_term.specs.Laws.{TruthOfConstants, TruthOfNot, TruthOfAnd, TruthOfOr, TruthOfImplies, TruthOfForall, TruthOfExists, TruthOfLess, TruthOfAtMost, TruthOfEqual};

/// Substitution: a term with terms for its names, all at once, has the values that it has where the names stand for the values of
/// these terms. The same holds of one name, and of what is reduced on the way.
pub fn put_terms_count_as_values()
    ensures together { PutTermsCountAsValues }
    ensures one { APutTermCountsAsValue }
    ensures reduced { PlacedTermsCountAsValues }
{}

/// Renaming: terms that are equal up to the names that they bind have the same values.
pub fn bound_names_do_not_count()
    ensures { BoundNamesDoNotCount }
{}

/// The canonical form of a term has its values.
pub fn canonical_forms_keep_values()
    ensures { CanonicalFormsKeepValues }
{}

/// A term's values depend on the values of its free names alone.
pub fn free_names_alone_count()
    ensures { FreeNamesAloneCount }
{}

/// Another value at a name that is not free changes no value.
pub fn other_names_do_not_count()
    ensures { OtherNamesDoNotCount }
{}

/// No term has two values.
pub fn values_are_single()
    ensures { ValuesAreSingle }
{}

/// No term can fail to have a value.
pub fn values_are_sure()
    ensures { ValuesAreSure }
{}

/// What is made of parts is the value made of the parts' values; `()` is the tuple of none.
pub fn values_of_made()
    ensures parts { ValuesOfMade }
    ensures unit { ValueOfUnit }
{}

/// A part of a value is the value of that number in it.
pub fn values_of_parts()
    ensures { ValuesOfParts }
{}

/// An `if` has the values of its first side where its condition is true, and of its second where it is not.
pub fn values_of_choices()
    ensures { ValuesOfChoices }
{}

/// A type and its sort have the same values, whatever is declared.
pub fn sorts_keep_values()
    ensures { SortsKeepValues }
{}

/// A term that has a sort has values of this sort, where variables have values of theirs.
pub fn sorts_are_kept()
    ensures { SortsAreKept }
{}

/// The normal form of a term has the values of the term.
pub fn normal_forms_keep_values()
    ensures { NormalFormsKeepValues }
{}

/// When the constants, negations, conjunctions, disjunctions and implications are true.
pub fn truth_of_connectives()
    ensures constants { TruthOfConstants }
    ensures negation { TruthOfNot }
    ensures conjunction { TruthOfAnd }
    ensures disjunction { TruthOfOr }
    ensures implication { TruthOfImplies }
{}

/// A universal formula is true if its body is true at every value of the sort, and an existential one if its body cannot fail to be
/// true at some value of the sort.
pub fn truth_of_quantifiers()
    ensures every { TruthOfForall }
    ensures some { TruthOfExists }
{}

/// When comparisons are true of the values of their two sides.
pub fn truth_of_comparisons()
    ensures less { TruthOfLess }
    ensures at_most { TruthOfAtMost }
    ensures equality { TruthOfEqual }
{}
