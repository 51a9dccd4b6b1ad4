//! Laws of the format, which no code runs.
ghost use Rattle.proof_text.specs.ProofTextLaws.{HasOneReading, IsSpelledOnce};

/// A text is a file or has a first bad line, never both, and either is one.
pub fn texts_have_one_reading()
    ensures { HasOneReading }
{}

/// A text spells one file, with its names, from a table in which no text stands twice.
pub fn a_file_is_spelled_once()
    ensures { IsSpelledOnce }
{}
