ghost use Rattle.std.specs.Prelude.{◌≡◌, ◌<◌};
ghost use Rattle.std.specs.Char.{is_ascii_digit};
ghost use Rattle.std.specs.List.{list_all};
ghost use Rattle.std.specs.Option.{option_map, option_copied};
ghost use Rattle.proof_text.specs.ProofTextRules.{labels_in};
ghost use Rattle.proof_text.specs.ProofTextWords.{is_numeral, number_of, multiplier_of, cut, after_minus, label_of, reference_of, multiple_of, cut_last, before_space, behind_space, two_texts, at_semicolon, label_and_text};

use logic_term::Label2;
use proof_kernel::{Multiple, Reference};

fn are_digits(bytes: &[u8]) -> bool
    ensures { result ≡ list_all is_ascii_digit bytes.now }
{
    bytes.iter().all(|b| b.is_ascii_digit())
}

/// `0`, or decimal digits of which the first is not `0`.
#[tactic(auto, unfolding(crate::specs::ProofTextWords::is_numeral))]
fn is_numeral(word: &str) -> bool
    ensures { result ≡ is_numeral word.now }
{
    let bytes = word.as_bytes();
    if bytes.is_empty() {
        false
    } else if bytes[0] == b'0' {
        bytes.len() == 1
    } else {
        are_digits(bytes)
    }
}

/// A number below 2^32.
pub(crate) fn number(word: &str) -> Option<u32>
    ensures { result ≡ number_of word.now }
{
    if !is_numeral(word) {
        return None;
    }
    word.parse::<u32>().ok()
}

/// What follows a `-`.
fn after_minus(word: &str) -> Option<&str>
    ensures { option_copied result ≡ after_minus word.now }
{
    word.strip_prefix('-')
}

/// A number of 128 bits with a sign.
fn multiplier(word: &str) -> Option<i128>
    ensures { result ≡ multiplier_of word.now }
{
    let digits = after_minus(word).unwrap_or(word);
    if !is_numeral(digits) {
        return None;
    }
    word.parse::<i128>().ok()
}

/// What stands before and after the first such character.
pub(crate) fn cut(word: &str, at: char) -> Option<(&str, &str)>
    requires { at < 128 }
    ensures { option_map (λ parts. (parts.0.now, parts.1.now)) result ≡ cut at word.now }
{
    word.split_once(at)
}

/// What stands before and after the last such character.
pub(crate) fn cut_last(word: &str, at: char) -> Option<(&str, &str)>
    requires { at < 128 }
    ensures { option_map (λ parts. (parts.0.now, parts.1.now)) result ≡ cut_last at word.now }
{
    word.rsplit_once(at)
}

/// What stands before a space at the end.
pub(crate) fn before_space(text: &str) -> Option<&str>
    ensures { option_copied result ≡ before_space text.now }
{
    text.strip_suffix(' ')
}

/// What stands behind a space at the start.
pub(crate) fn behind_space(text: &str) -> Option<&str>
    ensures { option_copied result ≡ behind_space text.now }
{
    text.strip_prefix(' ')
}

/// The texts before and behind ` ; `.
#[tactic(auto, unfolding(crate::specs::ProofTextWords::two_texts))]
pub(crate) fn two_texts(rest: &str) -> Option<(&str, &str)>
    ensures { option_map (λ parts. (parts.0.now, parts.1.now)) result ≡ two_texts rest.now }
{
    let (first, second) = cut(rest, ';')?;
    let first = before_space(first)?;
    let second = behind_space(second)?;
    Some((first, second))
}

/// What stands before and behind a semicolon, without the space on each side of it.
pub(crate) fn at_semicolon<'a>(front: &'a str, back: &'a str) -> Option<(&'a str, &'a str)>
    ensures { option_map (λ parts. (parts.0.now, parts.1.now)) result ≡ at_semicolon front.now back.now }
{
    let first = before_space(front)?;
    let second = behind_space(back)?;
    Some((first, second))
}

/// `S.P`
#[tactic(auto, unfolding(crate::specs::ProofTextWords::label_of))]
pub(crate) fn label(word: &str) -> Option<Label2>
    ensures { result ≡ label_of word.now }
{
    let (step, part) = cut(word, '.')?;
    let step = number(step)?;
    let part = number(part)?;
    Some(Label2 { step, part })
}

/// A label, and what stands behind one space.
#[tactic(auto, unfolding(crate::specs::ProofTextWords::label_and_text))]
pub(crate) fn label_and_text(rest: &str) -> Option<(Label2, &str)>
    ensures { option_map (λ parts. (parts.0, parts.1.now)) result ≡ label_and_text rest.now }
{
    let (first, text) = cut(rest, ' ')?;
    let label = label(first)?;
    Some((label, text))
}

/// A label, or two with a space between.
pub(crate) fn labels(rest: &str) -> Option<(Label2, Option<Label2>)>
    ensures { result ≡ labels_in rest.now }
{
    match cut(rest, ' ') {
        None => Some((label(rest)?, None)),
        Some((first, second)) => Some((label(first)?, Some(label(second)?))),
    }
}

/// `goal`, a label, or `-` and a label.
#[tactic(auto, unfolding(crate::specs::ProofTextWords::reference_of))]
fn reference(word: &str) -> Option<Reference>
    ensures { result ≡ reference_of word.now }
{
    if word == "goal" {
        return Some(Reference::Goal);
    }
    match after_minus(word) {
        Some(rest) => Some(Reference::Back(label(rest)?)),
        None => Some(Reference::Hyp(label(word)?)),
    }
}

/// `M:REF`
#[tactic(auto, unfolding(crate::specs::ProofTextWords::multiple_of))]
pub(crate) fn multiple(word: &str) -> Option<Multiple>
    ensures { result ≡ multiple_of word.now }
{
    let (by, of) = cut(word, ':')?;
    let by = multiplier(by)?;
    let of = reference(of)?;
    Some(Multiple { by, of })
}
