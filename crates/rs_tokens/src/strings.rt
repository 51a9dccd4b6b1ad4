//! Strings.
ghost use Rattle.std.specs.Prelude.{◌≡◌, ◌≤◌, List, ℕ, length, drop, MatchOption};
ghost use Rattle.rs_tokens.specs.Tokens.{StringEnds};

/// The length of what stands behind the opening `"` of a string, with its closing `"`; `None` where there is none.
pub fn string_len(text: &[u8]) -> Option<usize>
    ensures within { MatchOption result (Unit {0}) (λ len. len ≤ length text.now) }
    ensures ends { MatchOption result ((rest : List ℕ) → StringEnds text.now rest → ⊥) (λ len. StringEnds text.now (drop len text.now)) }
{
    let mut at = 0;
    while at < text.len() {
        match text[at] {
            b'"' => return Some(at + 1),
            b'\\' => at += 2,
            _ => at += 1,
        }
    }
    None
}
