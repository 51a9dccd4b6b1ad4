//! What the definition of what words ask for comes to. Nothing here computes: each clause is a law of
//! the definitions in specs/, by which the contract of this crate speaks.
ghost use Rattle.call_words.specs.Laws.{ReadsPlainWords, ReadsTheTable};

/// The command lines of the table, each with what it asks for.
pub fn words_read_as_the_table()
    ensures { ReadsTheTable }
{}

/// Two words that begin with no hyphen are a verb and a source, and one after `--proofs` is the file
/// of the proofs.
pub fn plain_words_ask()
    ensures { ReadsPlainWords }
{}
