//! Marks of punctuation.
ghost use Rattle.std.specs.Prelude.{◌≡◌, ◌∷◌, [], length, take, IsSome, MatchOption};
ghost use Rattle.rs_tokens.specs.Tables.{marks, kind_in};
ghost use Rattle.rs_tokens.specs.Tokens.{HasLongest, HasNone};

use crate::token::{Front, TokenKind};

/// The kind of the mark of this byte alone.
#[tactic(auto, unfolding(crate::specs::Tables::marks))]
fn kind_of_one(byte: u8) -> Option<TokenKind>
    ensures { result ≡ kind_in marks (byte ∷ []) }
{
    match byte {
        b'(' => Some(TokenKind::OpenParen),
        b')' => Some(TokenKind::CloseParen),
        b'[' => Some(TokenKind::OpenBracket),
        b']' => Some(TokenKind::CloseBracket),
        b'{' => Some(TokenKind::OpenBrace),
        b'}' => Some(TokenKind::CloseBrace),
        b'<' => Some(TokenKind::Less),
        b'>' => Some(TokenKind::Greater),
        b'=' => Some(TokenKind::Equal),
        b'+' => Some(TokenKind::Plus),
        b'-' => Some(TokenKind::Minus),
        b'*' => Some(TokenKind::Star),
        b'/' => Some(TokenKind::Slash),
        b'%' => Some(TokenKind::Percent),
        b'!' => Some(TokenKind::Not),
        b'&' => Some(TokenKind::And),
        b'|' => Some(TokenKind::Or),
        b'^' => Some(TokenKind::Caret),
        b'@' => Some(TokenKind::At),
        b'#' => Some(TokenKind::Pound),
        b',' => Some(TokenKind::Comma),
        b';' => Some(TokenKind::Semicolon),
        b':' => Some(TokenKind::Colon),
        b'.' => Some(TokenKind::Dot),
        b'?' => Some(TokenKind::Question),
        _ => None,
    }
}

/// The kind of the mark of this byte twice.
#[tactic(auto, unfolding(crate::specs::Tables::marks))]
fn kind_of_twice(byte: u8) -> Option<TokenKind>
    ensures { result ≡ kind_in marks (byte ∷ byte ∷ []) }
{
    match byte {
        b'=' => Some(TokenKind::EqualEqual),
        b'&' => Some(TokenKind::AndAnd),
        b'|' => Some(TokenKind::OrOr),
        b':' => Some(TokenKind::PathSep),
        b'.' => Some(TokenKind::DotDot),
        _ => None,
    }
}

/// The kind of the mark of this byte and `=`.
#[tactic(auto, unfolding(crate::specs::Tables::marks))]
fn kind_before_equal(byte: u8) -> Option<TokenKind>
    ensures { result ≡ kind_in marks (byte ∷ 61 ∷ []) }
{
    match byte {
        b'=' => Some(TokenKind::EqualEqual),
        b'!' => Some(TokenKind::NotEqual),
        b'<' => Some(TokenKind::AtMost),
        b'>' => Some(TokenKind::AtLeast),
        b'+' => Some(TokenKind::PlusEqual),
        b'-' => Some(TokenKind::MinusEqual),
        b'*' => Some(TokenKind::StarEqual),
        b'/' => Some(TokenKind::SlashEqual),
        b'%' => Some(TokenKind::PercentEqual),
        _ => None,
    }
}

/// The kind of the mark of this byte and `>`.
#[tactic(auto, unfolding(crate::specs::Tables::marks))]
fn kind_before_greater(byte: u8) -> Option<TokenKind>
    ensures { result ≡ kind_in marks (byte ∷ 62 ∷ []) }
{
    match byte {
        b'=' => Some(TokenKind::FatArrow),
        b'-' => Some(TokenKind::Arrow),
        _ => None,
    }
}

/// The kind of the mark of these two bytes: a byte twice, or one before `=` or `>`.
fn kind_of_two(first: u8, second: u8) -> Option<TokenKind>
    ensures { result ≡ kind_in marks (first ∷ second ∷ []) }
{
    if first == second {
        return kind_of_twice(first);
    }
    match second {
        b'=' => kind_before_equal(first),
        b'>' => kind_before_greater(first),
        _ => None,
    }
}

/// The kind of the mark that the text is. The bytes tell it, one by one.
#[tactic(auto, unfolding(crate::specs::Tables::marks))]
fn kind_of(text: &[u8]) -> Option<TokenKind>
    ensures { result ≡ kind_in marks text.now }
{
    match text {
        [byte] => kind_of_one(*byte),
        [first, second] => kind_of_two(*first, *second),
        [b'=', b'=', b'>'] => Some(TokenKind::Implies),
        _ => None,
    }
}

/// The longest mark at the front; `None` where none stands there.
pub fn longest_mark(text: &[u8]) -> Option<Front>
    ensures kind { MatchOption result (Unit {0}) (λ front. kind_in marks (take front.len text.now) ≡ Some front.kind) }
    ensures longest { MatchOption result (HasNone (λ mark. IsSome (kind_in marks mark)) text.now)
        (λ front. HasLongest (λ mark. IsSome (kind_in marks mark)) text.now front.len) }
{
    let three = text.len().min(3);
    if let Some(kind) = kind_of(&text[..three]) {
        return Some(Front { kind, len: three });
    }
    let two = text.len().min(2);
    if let Some(kind) = kind_of(&text[..two]) {
        return Some(Front { kind, len: two });
    }
    let one = text.len().min(1);
    let kind = kind_of(&text[..one])?;
    Some(Front { kind, len: one })
}
