//! The reading of a text that is to be a term.
ghost use Rattle.std.specs.Prelude.{◌≡◌, ℕ, ◌+◌, ◌≤◌, ◌<◌, ◌^◌, List, length, true, IfOk, OnOk, IsTrue, IsErrOf};
ghost use Rattle.rs_tokens.specs.Reading.{AreTokens};
ghost use Rattle.source_words.specs.Words.{GivesNames, Keeps};
ghost use Rattle.term_texts.specs.TermTexts.{SpellsWholeTerm, IsTermText, fills};

use pearlite::{Cursor, parse_term};
use rs_tokens::Token;
use source_trees::Pterm;
use source_words::tokens_of;
use std::alloc::Global;
use text_core::{Items, Name, Names, PassError};

/// Why a text gives no term.
#[derive(Clone, Copy, Debug, Drop)]
pub enum TermFault {
    /// It is no term.
    NoTerm,
    /// Memory was refused, or the table has no room.
    NoMemory,
}

/// The most bytes of a term.
const MOST_BYTES: usize = 1 << 20;

fn fault_of(error: PassError) -> TermFault
    ensures { result ≡ TermFault.NoTerm → error ≡ PassError.NoMemory → ⊥ }
{
    match error {
        PassError::NoMemory => TermFault::NoMemory,
        PassError::Source(_) | PassError::Limit(_) => TermFault::NoTerm,
    }
}

/// The tokens of the text.
fn tokens_in(alloc: Global, text: &[u8]) -> Result<Items<Token>, TermFault>
    requires { length text.now ≤ 2 ^ 20 }
    ensures ok { IfOk result (λ tokens. AreTokens text.now tokens) }
    ensures refused { IsErrOf result TermFault.NoTerm → IsTermText text.now → ⊥ }
{
    match tokens_of(alloc, text) {
        Ok(tokens) => Ok(tokens),
        Err(error) => Err(fault_of(error)),
    }
}

/// Whether a text's names have room in the table: there is none with the number that would be the last but those.
fn has_room(names: &Names) -> bool
    ensures { IsTrue result → length names.now + 2 ^ 20 < 2 ^ 32 }
{
    names.text(Name(0xffef_ffff)).is_none()
}

/// Whether the first token begins where the text does, and the last ends where it ends.
fn fills(text: &[u8], tokens: &[Token]) -> bool
    ensures { result ≡ fills text.now tokens.now }
{
    if tokens.is_empty() {
        return false;
    }
    let first = tokens[0];
    let last = tokens[tokens.len() - 1];
    first.span.start == 0 && last.span.end as usize == text.len()
}

/// The term that all tokens spell.
fn term_in(
    alloc: Global,
    text: &[u8],
    tokens: &[Token],
    names: &mut Names,
) -> Result<Pterm, TermFault>
    requires whole { AreTokens text.now tokens.now }
    requires filled { fills text.now tokens.now ≡ true }
    requires short { length text.now ≤ 2 ^ 20 }
    requires room { length names.old + 2 ^ 20 < 2 ^ 32 }
    ensures ok { IfOk result (λ term. SpellsWholeTerm names.new text.now term) }
    ensures refused { IsErrOf result TermFault.NoTerm → IsTermText text.now → ⊥ }
    ensures names { OnOk result (GivesNames names.old text.now names.new) }
    ensures kept { Keeps names.old names.new }
    ensures grown { length names.new ≤ length names.old + length text.now }
{
    let mut cursor = Cursor::new(text, tokens);
    match parse_term(alloc, &mut cursor, names) {
        Ok(term) => {
            if cursor.place() as usize != tokens.len() {
                return Err(TermFault::NoTerm);
            }
            Ok(term)
        }
        Err(error) => Err(fault_of(error)),
    }
}

/// The term that the whole text spells. Identifiers and lifetimes of the text that have no name yet are given one, in
/// order of first use.
pub fn read_whole_term(alloc: Global, text: &str, names: &mut Names) -> Result<Pterm, TermFault>
    ensures ok { IfOk result (λ term. SpellsWholeTerm names.new text.now term) }
    ensures refused { IsErrOf result TermFault.NoTerm → IsTermText text.now → ⊥ }
    ensures names { OnOk result (GivesNames names.old text.now names.new) }
    ensures kept { Keeps names.old names.new }
    ensures grown { length names.new ≤ length names.old + length text.now }
{
    let bytes = text.as_bytes();
    if bytes.len() > MOST_BYTES {
        return Err(TermFault::NoTerm);
    }
    if !has_room(names) {
        return Err(TermFault::NoMemory);
    }
    let tokens = tokens_in(alloc, bytes)?;
    if !fills(bytes, tokens.as_slice()) {
        return Err(TermFault::NoTerm);
    }
    term_in(alloc, bytes, tokens.as_slice(), names)
}
