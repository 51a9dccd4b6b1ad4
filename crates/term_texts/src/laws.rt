//! What holds of every text.
ghost use Rattle.std.specs.Prelude.{◌⊎◌, ℕ, List};
ghost use Rattle.term_texts.specs.TermTexts.{IsTermText};

/// A text spells a term, or none.
#[tactic(auto, using(crate::proofs::TermChoice::term_there))]
pub fn a_text_is_a_term_or_none()
    ensures { (text : List ℕ) → IsTermText text ⊎ (IsTermText text → ⊥) }
{}
