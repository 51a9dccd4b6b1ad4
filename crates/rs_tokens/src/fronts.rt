//! What stands at the front of a text, where no blank does.
ghost use Rattle.std.specs.Prelude.{◌≡◌, ◌≢◌, ◌<◌, false, length, take, IsTrue, MatchOption, MatchResult, None};
ghost use Rattle.std.specs.Str.{IsCharBoundary};
ghost use Rattle.rs_tokens.specs.Tokens.{IsLongestToken, HasNoToken, refused_of, names_lifetime};
ghost use Rattle.rs_tokens.specs.Blanks.{opens_comment, BlankEnds};
ghost use Rattle.rs_tokens.specs.Reading.{IsRefused};

use crate::blanks::begins;
use crate::integers::{integer_len, is_digit, is_too_large};
use crate::marks::longest_mark;
use crate::strings::string_len;
use crate::token::{Front, TokenKind};
use crate::words::{LONGEST_IDENTIFIER, word_kind, word_len};

/// The longest token at the front, whatever its length or value; `None` where none stands there.
fn longest_token(text: &str) -> Option<Front>
    ensures stands { MatchOption result (HasNoToken text.now) (λ front. IsLongestToken front.kind text.now front.len) }
    ensures boundary { MatchOption result (Unit {0}) (λ front. IsCharBoundary text.now front.len) }
{
    let bytes = text.as_bytes();
    let first = *bytes.first()?;
    if is_digit(10, first) {
        let len = integer_len(bytes);
        return Some(Front {
            kind: TokenKind::Int,
            len,
        });
    }
    if first == b'"' {
        let len = 1 + string_len(&bytes[1..])?;
        return Some(Front {
            kind: TokenKind::Str,
            len,
        });
    }
    if first == b'\'' {
        let len = 1 + word_len(&text[1..])?;
        return Some(Front {
            kind: TokenKind::Lifetime,
            len,
        });
    }
    if let Some(len) = word_len(text) {
        return Some(Front {
            kind: word_kind(&bytes[..len]),
            len,
        });
    }
    longest_mark(bytes)
}

fn names_lifetime(kind: TokenKind) -> bool
    ensures { result ≡ names_lifetime kind }
{
    matches!(kind, TokenKind::Ident | TokenKind::KwStatic)
}

/// How many bytes of this token are refused, if any.
fn refused_of(kind: TokenKind, text: &[u8]) -> Option<usize>
    requires { 0 < length text.now }
    ensures { result ≡ refused_of kind text.now }
{
    match kind {
        TokenKind::Ident => {
            if text.len() > LONGEST_IDENTIFIER {
                return Some(text.len());
            }
            None
        }
        TokenKind::Lifetime => {
            if !names_lifetime(word_kind(&text[1..])) {
                return Some(1);
            }
            if text.len() > 1 + LONGEST_IDENTIFIER {
                return Some(text.len());
            }
            None
        }
        TokenKind::Int => {
            if is_too_large(text) {
                return Some(text.len());
            }
            None
        }
        _ => None,
    }
}

/// How many bytes are shown where no token stands.
fn no_token_len(text: &str) -> usize
    requires none { HasNoToken text.now }
    requires no_comment { opens_comment text.now ≡ false }
    requires some { 0 < length text.now }
    ensures { IsRefused text.now result }
{
    match text.chars().next() {
        Some(character) => {
            if character == '"' {
                text.len()
            } else {
                character.len_utf8()
            }
        }
        None => text.len(),
    }
}

/// The token at the front, or how many bytes are refused there.
pub fn front(text: &str) -> Result<Front, usize>
    requires { 0 < length text.now }
    ensures token { MatchResult result (λ front. IsLongestToken front.kind text.now front.len) (λ len. IsRefused text.now len) }
    ensures admitted { MatchResult result (λ front. refused_of front.kind (take front.len text.now) ≡ None) (λ _. Unit {0}) }
    ensures no_comment { MatchResult result (λ _. opens_comment text.now ≡ false) (λ _. Unit {0}) }
    ensures boundary { MatchResult result (λ front. IsCharBoundary text.now front.len) (λ _. Unit {0}) }
{
    let bytes = text.as_bytes();
    if begins(bytes, b'/', b'*') {
        return Err(text.len());
    }
    let Some(front) = longest_token(text) else {
        return Err(no_token_len(text));
    };
    match refused_of(front.kind, &bytes[..front.len]) {
        Some(len) => Err(len),
        None => Ok(front),
    }
}
