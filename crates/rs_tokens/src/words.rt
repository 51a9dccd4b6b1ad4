//! Words: identifiers, keywords and `_`.
ghost use Rattle.std.specs.Prelude.{◌≡◌, ◌+◌, ◌≤◌, ◌||◌, ◌==◌, ◌++◌, List, ℕ, length, slice_get, take, take_while, encode_utf8_all, Some, MatchOption};
ghost use Rattle.std.specs.Str.{chars, IsCharBoundary};
ghost use Rattle.unicode_ident.specs.Ident.{is_xid_start, is_xid_continue};
ghost use Rattle.rs_tokens.specs.Tables.{reserved, kind_in};
ghost use Rattle.rs_tokens.specs.Tokens.{begins_word, IsWord, HasLongest, HasNone, word_kind, is_word, is_ident, is_identifier};

use crate::tables::{
    FROM_A, FROM_B, FROM_C, FROM_D, FROM_E, FROM_F, FROM_I, FROM_L, FROM_M, FROM_P, FROM_R, FROM_S,
    FROM_T, FROM_U, FROM_UNDERSCORE, FROM_UPPER_S, FROM_W, kind_in,
};
use crate::token::TokenKind;
use unicode_ident::{is_xid_continue, is_xid_start};

/// The most bytes of an identifier.
pub const LONGEST_IDENTIFIER: usize = 255;

/// ASCII characters are not sought in the tables of Unicode.
#[tactic(auto, using(crate::proofs::WordLaws::ascii_begins))]
fn begins_word(character: char) -> bool
    ensures { result ≡ begins_word character }
{
    if character.is_ascii() {
        character.is_ascii_alphabetic() | (character == '_')
    } else {
        is_xid_start(character)
    }
}

/// ASCII characters are not sought in the tables of Unicode.
#[tactic(auto, using(crate::proofs::WordLaws::ascii_continues))]
fn continues_word(character: char) -> bool
    ensures { result ≡ is_xid_continue character }
{
    if character.is_ascii() {
        character.is_ascii_alphanumeric() | (character == '_')
    } else {
        is_xid_continue(character)
    }
}

/// How many bytes the characters at the front have that may continue a word.
fn continuing_len(text: &str) -> usize
    ensures { result ≡ length (encode_utf8_all (take_while is_xid_continue (chars text.now))) }
{
    let mut len = 0;
    for character in text.chars() {
        if !continues_word(character) {
            return len;
        }
        len += character.len_utf8();
    }
    len
}

/// The length of the longest word at the front; `None` where none stands there.
pub fn word_len(text: &str) -> Option<usize>
    ensures longest { MatchOption result (HasNone IsWord text.now) (λ len. HasLongest IsWord text.now len) }
    ensures boundary { MatchOption result (Unit {0}) (λ len. IsCharBoundary text.now len) }
{
    let first = text.chars().next()?;
    if !begins_word(first) {
        return None;
    }
    Some(continuing_len(text))
}

/// The kind of the reserved word that this word is. Only those that begin with its first byte are compared with it.
fn reserved_kind(first: u8, word: &[u8]) -> Option<TokenKind>
    requires { slice_get word.now 0 ≡ Some first }
    ensures { result ≡ kind_in reserved word.now }
{
    match first {
        b'_' => kind_in(&FROM_UNDERSCORE, word),
        b'a' => kind_in(&FROM_A, word),
        b'b' => kind_in(&FROM_B, word),
        b'c' => kind_in(&FROM_C, word),
        b'e' => kind_in(&FROM_E, word),
        b'f' => kind_in(&FROM_F, word),
        b'i' => kind_in(&FROM_I, word),
        b'l' => kind_in(&FROM_L, word),
        b'm' => kind_in(&FROM_M, word),
        b'p' => kind_in(&FROM_P, word),
        b'r' => kind_in(&FROM_R, word),
        b's' => kind_in(&FROM_S, word),
        b'S' => kind_in(&FROM_UPPER_S, word),
        b't' => kind_in(&FROM_T, word),
        b'u' => kind_in(&FROM_U, word),
        b'w' => kind_in(&FROM_W, word),
        b'd' => kind_in(&FROM_D, word),
        _ => None,
    }
}

/// The kind of this word.
#[tactic(auto, unfolding(crate::specs::Tables::reserved))]
pub fn word_kind(word: &[u8]) -> TokenKind
    ensures { result ≡ word_kind word.now }
{
    match word.first() {
        Some(first) => reserved_kind(*first, word).unwrap_or(TokenKind::Ident),
        None => TokenKind::Ident,
    }
}

/// Whether the whole text is a word.
fn is_word(text: &str) -> bool
    ensures { result ≡ is_word text.now }
{
    match word_len(text) {
        Some(len) => len == text.len(),
        None => false,
    }
}

fn is_ident(kind: TokenKind) -> bool
    ensures { result ≡ is_ident kind }
{
    matches!(kind, TokenKind::Ident)
}

/// Whether the whole text is an identifier: a word of at most 255 bytes that is not `_` and no strict keyword.
#[tactic(auto, unfolding(crate::specs::Tokens::is_identifier))]
pub fn is_identifier(text: &str) -> bool
    ensures { result ≡ is_identifier text.now }
{
    is_word(text) && text.len() <= LONGEST_IDENTIFIER && is_ident(word_kind(text.as_bytes()))
}
