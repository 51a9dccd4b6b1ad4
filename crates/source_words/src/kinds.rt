//! The kinds of words.
ghost use Rattle.std.specs.Prelude.{◌≡◌, slice_get, Some};
ghost use Rattle.source_words.specs.QuotedWords.{quoted};
ghost use Rattle.source_words.specs.Texts.{found_in};
ghost use Rattle.source_words.specs.Words.{identifier_kind, lifetime_kind, kind_by};

use crate::quoted_words::{
    FROM_A, FROM_B, FROM_C, FROM_D, FROM_E, FROM_F, FROM_I, FROM_L, FROM_M, FROM_P, FROM_R, FROM_S,
    FROM_U, FROM_UPPER_F, FROM_UPPER_M, FROM_UPPER_V, FROM_V, FROM_Y,
};
use crate::tables::found_in;
use rs_tokens::TokenKind;
use source_grammar::kinds;

/// The kind of the quoted word that the text is. Only those that begin with its first byte are compared with it.
fn quoted_from(first: u8, text: &[u8]) -> Option<u8>
    requires { slice_get text.now 0 ≡ Some first }
    ensures { result ≡ found_in quoted text.now }
{
    match first {
        b'F' => found_in(&FROM_UPPER_F, text),
        b'M' => found_in(&FROM_UPPER_M, text),
        b'V' => found_in(&FROM_UPPER_V, text),
        b'a' => found_in(&FROM_A, text),
        b'b' => found_in(&FROM_B, text),
        b'c' => found_in(&FROM_C, text),
        b'd' => found_in(&FROM_D, text),
        b'e' => found_in(&FROM_E, text),
        b'f' => found_in(&FROM_F, text),
        b'i' => found_in(&FROM_I, text),
        b'l' => found_in(&FROM_L, text),
        b'm' => found_in(&FROM_M, text),
        b'p' => found_in(&FROM_P, text),
        b'r' => found_in(&FROM_R, text),
        b's' => found_in(&FROM_S, text),
        b'u' => found_in(&FROM_U, text),
        b'v' => found_in(&FROM_V, text),
        b'y' => found_in(&FROM_Y, text),
        _ => None,
    }
}

/// The kind of the quoted word that the text is.
#[tactic(auto, unfolding(crate::specs::QuotedWords::quoted))]
fn quoted_kind(text: &[u8]) -> Option<u8>
    ensures { result ≡ found_in quoted text.now }
{
    match text.first() {
        Some(first) => quoted_from(*first, text),
        None => None,
    }
}

/// The kind of an identifier.
fn identifier_kind(text: &[u8]) -> u8
    ensures { result ≡ identifier_kind text.now }
{
    quoted_kind(text).unwrap_or(kinds::IDENTIFIER)
}

#[tactic(auto, unfolding(crate::specs::Words::static_text))]
fn lifetime_kind(text: &[u8]) -> u8
    ensures { result ≡ lifetime_kind text.now }
{
    if text == b"'static".as_slice() {
        kinds::STATIC_LIFETIME
    } else {
        kinds::LIFETIME
    }
}

/// The kind in the grammar of a token of this kind and text.
pub fn kind_by(kind: TokenKind, text: &[u8]) -> u8
    ensures { result ≡ kind_by kind text.now }
{
    match kind {
        TokenKind::Ident => identifier_kind(text),
        TokenKind::Lifetime => lifetime_kind(text),
        _ => kind as u8,
    }
}
