//! What holds of all declared types. Nothing here computes: the clause is a law of the definitions in specs/.

ghost use Rattle.constructors.specs.Laws.{ConstructorsAreDeclared};

/// What a path makes a value by is a struct or a variant of the declared types, with the fields that it is declared with.
pub fn constructors_are_declared()
    ensures { ConstructorsAreDeclared }
{}
