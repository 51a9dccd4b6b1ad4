//! What holds of every source. Nothing here computes: each clause is a law of the definitions in specs/, by which the
//! contract of `check` speaks.

ghost use Rattle.type_check.specs.Causes.{RefusalsHaveCauses};
ghost use Rattle.type_check.specs.Laws.{CheckedProgramsFit, CheckedProgramsAreGood, ExpressionsFit};
ghost use Rattle.type_check.specs.Rules.{TypedByRules, TypingIsOne};

/// The program that a source comes to fits, and no clause, no invariant and no match of it is refused.
pub fn checked_programs_fit()
    ensures fits { CheckedProgramsFit }
    ensures good { CheckedProgramsAreGood }
{}

/// What an expression of any form comes to fits, where the types around it are built, and the one that is expected if there is one: each part has the type
/// that its place asks for.
pub fn typed_expressions_fit()
    ensures { ExpressionsFit }
{}

/// A refusal of program code has a cause at the expression or at a part of it: E05 at a name that means no variable or no
/// function there, E22 at the name of a variable that is written and is not mutable, or E07.
pub fn refusals_have_causes()
    ensures { RefusalsHaveCauses }
{}

/// What an expression comes to in a scope is what it comes to by the rules of typing, one for each form, and by these it comes to one thing.
pub fn expressions_are_typed_by_rules()
    ensures typed { TypedByRules }
    ensures one { TypingIsOne }
{}
