//! The parser of terms.
ghost use Rattle.std.specs.Prelude.{◌≡◌, ℕ, ◌+◌, ◌≤◌, ◌<◌, ◌^◌, drop, length, IfOk, IfErr, OnOk};
ghost use Rattle.rs_tokens.specs.Reading.{AreTokens};
ghost use Rattle.source_grammar.specs.Faults.{IsFrontFault};
ghost use Rattle.source_grammar.specs.SourceGrammar.{term_goal};
ghost use Rattle.source_words.specs.Faults.{kinds_in};
ghost use Rattle.source_words.specs.Words.{GivesNames, Keeps};
ghost use Rattle.pearlite.specs.Parsed.{IsMade, IsTermError, ReadsTerm, SpellsNoTerm, SpellsTerm, position_of};
ghost use Rattle.source_trees.specs.Pterm.{Pterm};

use crate::cursor::Cursor;
use crate::families::next_term;
use crate::part::Part;
use grammar_tables::{Front, evaluate};
use source_grammar::{SyntaxFault, WHOLE_TERM, tables};
use source_trees::Pterm;
use source_words::{Word, error_of, kinds_of_words, words_of_tokens};
use std::alloc::Global;
use text_core::{Items, Names, NoMemory, PassError};

/// The words from that place on.
fn words_behind(alloc: Global, words: &[Word], place: usize) -> Result<Items<Word>, NoMemory>
    requires { place ≤ length words.now }
    ensures { IfOk result (λ behind. behind ≡ drop place words.now) }
{
    Items::from_slice(alloc, &words[place..])
}

/// What the actions make of the tree of a term, by its derivation.
fn term_of(
    alloc: Global,
    words: &Items<Word>,
    derivation: &[u8],
    count: usize,
) -> Result<Pterm, NoMemory>
    ensures { IfOk result (λ term. IsMade words.now derivation.now count term) }
{
    let mut parts = evaluate::<Part>(words, alloc, &tables(), WHOLE_TERM, derivation, count)?;
    parts.reverse();
    let term = next_term(alloc, &mut parts)?;
    Ok(term)
}

/// The longest front of the words that is a term, and the number of its words; or why there is none.
fn read_term(alloc: Global, words: &Items<Word>, levels: u32) -> Result<(Pterm, usize), SyntaxFault>
    requires { levels ≤ 64 }
    ensures ok { IfOk result (λ read. ReadsTerm levels words.now read.0 read.1) }
    ensures refused { IfErr result (λ fault. IsFrontFault term_goal levels (kinds_in words.now) fault) }
{
    let Ok(kinds) = kinds_of_words(alloc, words.as_slice()) else {
        return Err(SyntaxFault::NoMemory);
    };
    let front = source_grammar::parse_term(alloc, kinds.as_slice(), levels as u8)?;
    match term_of(alloc, words, front.derivation.as_slice(), front.length) {
        Ok(term) => Ok((term, front.length)),
        Err(NoMemory) => Err(SyntaxFault::NoMemory),
    }
}

/// How many words stand before the one that is told.
fn position_of(fault: SyntaxFault) -> usize
    ensures { result ≡ position_of fault }
{
    match fault {
        SyntaxFault::Stray(position)
        | SyntaxFault::LeftOut(position)
        | SyntaxFault::TooDeep(position) => position,
        SyntaxFault::NoMemory => 0,
    }
}

/// The term that the words from the cursor's place on spell, as long as the next word can go on; the cursor then stands at
/// that word. The cursor's tokens are those of its source. Identifiers and lifetimes of the source that have no name yet are
/// given one, in order of first use.
///
/// Errors: `Source` by E03, E04 or E20 at the first word that cannot continue, or at the end of a source that ends too
/// early, and the cursor then stands there; the levels that are open around it count. `NoMemory`, and the cursor stays.
pub fn parse_term(alloc: Global, cursor: &mut Cursor, names: &mut Names) -> Result<Pterm, PassError>
    requires whole { AreTokens cursor.old.bytes cursor.old.tokens }
    requires room { length names.old + 2 ^ 20 < 2 ^ 32 }
    ensures ok { IfOk result (λ is. SpellsTerm names.old cursor.old is cursor.new.place) }
    ensures alone { IfOk result (λ is. (other : Pterm) (after : ℕ) → SpellsTerm names.old cursor.old other after → (other ≡ is) × (after ≡ cursor.new.place)) }
    ensures names { OnOk result (GivesNames names.old cursor.old.bytes names.new) }

    // A refusal, and that nothing is refused that is spelled.
    ensures refused { IfErr result (λ e. IsTermError cursor.old e cursor.new.place) }
    ensures rightly { IfErr result (λ e. SpellsNoTerm names.old cursor.old e) }

    ensures source { cursor.new ≡ record cursor.old { place = cursor.new.place } }
    ensures kept { Keeps names.old names.new }
    ensures grown { length names.new ≤ length names.old + length cursor.old.bytes }
{
    let words = words_of_tokens(alloc, cursor.bytes(), cursor.tokens(), names)?;
    let behind = words_behind(alloc, words.as_slice(), cursor.place() as usize)?;
    match read_term(alloc, &behind, cursor.levels()) {
        Ok((term, taken)) => {
            cursor.go_on(taken);
            Ok(term)
        }
        Err(fault) => {
            let end = cursor.bytes().len() as u32;
            cursor.go_on(position_of(fault));
            Err(error_of(behind.as_slice(), end, fault))
        }
    }
}
