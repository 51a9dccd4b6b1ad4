//! A law about answers, which a call with this clause says.
ghost use Rattle.creusot_cli.specs.Answer.{AnswersAreOne};

/// A call has one answer: for a verb, a source and proofs there is one status and one printed text.
pub fn a_call_has_one_answer()
    ensures { AnswersAreOne }
{}
