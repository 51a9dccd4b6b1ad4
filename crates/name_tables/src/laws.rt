//! What holds of every table that grows by names for texts.
ghost use Rattle.name_tables.specs.Statements.{KeepsOnePlace, KeepsNames, StartsWithOnePlace, NamesThem};

/// A table in which no text stands twice stays so, and the table that was given nothing is such a table. So each text has
/// one name.
pub fn each_text_has_one_name()
    ensures start { StartsWithOnePlace }
    ensures keeps { KeepsOnePlace }
{}

/// Each name that stood for a text still stands for it, and each of the texts has a name.
pub fn a_table_keeps_its_names()
    ensures keeps { KeepsNames }
    ensures names { NamesThem }
{}
