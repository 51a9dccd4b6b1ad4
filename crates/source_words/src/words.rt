//! The words of a source.
ghost use Rattle.std.specs.Prelude.{◌≡◌, ℕ, ◌+◌, ◌≤◌, ◌<◌, ◌^◌, ◌++◌, ◌∷◌, [], ◌⊎◌, List, Some, true, length, IfOk, IfErr, OnOk};
ghost use Rattle.std.specs.Str.{IsUtf8};
ghost use Rattle.text_core.specs.Names.{text_of};
ghost use Rattle.name_tables.specs.NameTables.{with_name, with_names};
ghost use Rattle.text_core.specs.declared.name.Name.{Name};
ghost use Rattle.rs_tokens.specs.declared.token.TokenKind.TheVariants as T;
ghost use Rattle.rs_tokens.specs.Reading.{AreTokens};
ghost use Rattle.rs_tokens.specs.Tokens.{integer_value, largest_integer};
ghost use Rattle.source_words.specs.declared.word.Word.{Word};
ghost use Rattle.source_words.specs.Faults.{kinds_in};
ghost use Rattle.source_words.specs.Texts.{text_in};
ghost use Rattle.source_words.specs.Words.{bears_name, value_by, suffix_by, HasName, IsLexeme, IsWordOf, AreWords, IsWordError, Keeps, NamesOnlyNew, with_identifier, GivesNames};

use crate::integers::integer;
use crate::kinds::kind_by;
use crate::word::Word;
use rs_tokens::{Lexer, Token, TokenKind};
use source_kinds::IntKind;
use std::alloc::Global;
use text_core::{Items, Name, Names, NoMemory, PassError};

/// The name of this text.
fn name_of(alloc: Global, text: &[u8], names: &mut Names) -> Result<Name, NoMemory>
    requires text { IsUtf8 text.now }
    requires room { length names.old < 2 ^ 32 }
    ensures named { IfOk result (λ name. text_of names.new name ≡ Some text.now) }
    ensures one { IfOk result (λ name. (other : Name) → text_of names.new other ≡ Some text.now → other ≡ name) }
    ensures kept { Keeps names.old names.new }
    ensures grown { (names.new ≡ names.old) ⊎ (names.new ≡ names.old ++ text.now ∷ []) }
    ensures new { NamesOnlyNew names.old names.new }
    ensures table { OnOk result (names.new ≡ with_name names.old text.now) }
{
    match std::str::from_utf8(text) {
        Ok(text) => names.intern(alloc, text),
        Err(_) => unreachable!(),
    }
}

/// Whether a token of this kind has a name.
#[tactic(auto, unfolding(crate::specs::Words::bears_name))]
fn bears_name(kind: TokenKind) -> bool
    ensures { result ≡ bears_name kind }
{
    match kind {
        TokenKind::Ident | TokenKind::Lifetime => true,
        _ => false,
    }
}

/// The name of an identifier or a lifetime; the name 0 of other tokens.
fn name_by(alloc: Global, kind: TokenKind, text: &[u8], names: &mut Names) -> Result<Name, NoMemory>
    requires text { bears_name kind ≡ true → IsUtf8 text.now }
    requires room { length names.old < 2 ^ 32 }
    ensures named { IfOk result (λ name. HasName names.new kind text.now name) }
    ensures one { IfOk result (λ name. (other : Name) → HasName names.new kind text.now other → other ≡ name) }
    ensures kept { Keeps names.old names.new }
    ensures few { length names.new ≤ length names.old + 1 }
    ensures new { NamesOnlyNew names.old names.new }
    ensures table { OnOk result (names.new ≡ with_names names.old (with_identifier kind text.now [])) }
{
    if bears_name(kind) {
        name_of(alloc, text, names)
    } else {
        Ok(Name(0))
    }
}

/// The number and the type of an integer; 0 and `None` of other tokens.
fn number_by(kind: TokenKind, text: &[u8]) -> (i128, Option<IntKind>)
    requires { kind ≡ T.Int → integer_value text.now ≤ largest_integer }
    ensures value { result.0 ≡ value_by kind text.now }
    ensures suffix { result.1 ≡ suffix_by kind text.now }
{
    match kind {
        TokenKind::Int => integer(text),
        _ => (0, None),
    }
}

/// The word that the token is.
fn word_of(alloc: Global, bytes: &[u8], token: Token, names: &mut Names) -> Result<Word, NoMemory>
    requires lexeme { IsLexeme bytes.now token }
    requires room { length names.old < 2 ^ 32 }
    ensures ok { IfOk result (λ word. IsWordOf names.new bytes.now token word) }
    ensures only { IfOk result (λ word. (other : Word) → IsWordOf names.new bytes.now token other → other ≡ word) }
    ensures kept { Keeps names.old names.new }
    ensures few { length names.new ≤ length names.old + 1 }
    ensures new { NamesOnlyNew names.old names.new }
    ensures table { OnOk result (names.new ≡ with_names names.old (with_identifier token.kind (text_in bytes.now token.span) [])) }
{
    let text = &bytes[token.span.start as usize..token.span.end as usize];
    let name = name_by(alloc, token.kind, text, names)?;
    let (value, suffix) = number_by(token.kind, text);
    Ok(Word {
        kind: kind_by(token.kind, text),
        span: token.span,
        name,
        value,
        suffix,
    })
}

/// All tokens as words, in order. Identifiers and lifetimes that have no name yet are given one, in order of first use.
///
/// Errors: `Source` where the bytes are no text (E01) or a part of them is no token (E02); `NoMemory`.
pub fn words_of(alloc: Global, bytes: &[u8], names: &mut Names) -> Result<Items<Word>, PassError>
    requires few { length bytes.now ≤ 2 ^ 20 }
    requires room { length names.old + 2 ^ 20 < 2 ^ 32 }
    ensures ok { IfOk result (λ words. AreWords names.new bytes.now words) }
    ensures only { IfOk result (λ words. (other : List Word) → AreWords names.new bytes.now other → other ≡ words) }
    ensures names { OnOk result (GivesNames names.old bytes.now names.new) }
    ensures refused { IfErr result (λ error. IsWordError bytes.now error) }
    ensures kept { Keeps names.old names.new }
    ensures grown { length names.new ≤ length names.old + length bytes.now }
{
    let mut lexer = Lexer::new(bytes);
    let mut words = Items::new(alloc);
    loop {
        match lexer.next() {
            Err(error) => return Err(PassError::Source(error)),
            Ok(None) => return Ok(words),
            Ok(Some(token)) => {
                let word = word_of(alloc, bytes, token, names)?;
                words.push(word)?;
            }
        }
    }
}

/// The same by the tokens of the bytes. Err only for want of memory.
pub fn words_of_tokens(
    alloc: Global,
    bytes: &[u8],
    tokens: &[Token],
    names: &mut Names,
) -> Result<Items<Word>, NoMemory>
    requires whole { AreTokens bytes.now tokens.now }
    requires few { length bytes.now ≤ 2 ^ 20 }
    requires room { length names.old + 2 ^ 20 < 2 ^ 32 }
    ensures ok { IfOk result (λ words. AreWords names.new bytes.now words) }
    ensures only { IfOk result (λ words. (other : List Word) → AreWords names.new bytes.now other → other ≡ words) }
    ensures names { OnOk result (GivesNames names.old bytes.now names.new) }
    ensures kept { Keeps names.old names.new }
    ensures grown { length names.new ≤ length names.old + length bytes.now }
{
    let mut words = Items::new(alloc);
    for token in tokens {
        let word = word_of(alloc, bytes, *token, names)?;
        words.push(word)?;
    }
    Ok(words)
}

/// The kinds of the words, in order.
pub fn kinds_of_words(alloc: Global, words: &[Word]) -> Result<Vec<u8>, NoMemory>
    ensures { IfOk result (λ kinds. kinds.items ≡ kinds_in words.now) }
{
    let mut kinds = Vec::new(alloc);
    for word in words {
        kinds.push(word.kind)?;
    }
    Ok(kinds)
}
