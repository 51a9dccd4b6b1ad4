//! The parser of sources.
ghost use Rattle.std.specs.Prelude.{◌≡◌, ℕ, ◌+◌, ◌<◌, ◌≤◌, ◌^◌, List, length, IsTrue, ◌↔◌, IfOk, IfErr, OnOk};
ghost use Rattle.text_core.specs.declared.refusal.LimitKind.TheVariants.{Functions};
ghost use Rattle.text_core.specs.declared.fault.PassError.TheVariants as P;
ghost use Rattle.source_grammar.specs.Faults.{IsSourceDerivation};
ghost use Rattle.source_grammar.specs.SourceGrammar.{source_goal};
ghost use Rattle.source_words.specs.Faults.{kinds_in};
ghost use Rattle.source_words.specs.Words.{Keeps, GivesNames};
ghost use Rattle.source_trees.specs.declared.item.Item.{Item};
ghost use Rattle.rs_syntax.specs.Parsed.{AreItemsOf, SpellsItems, methods_among, functions_of, functions_among, most_functions, IsItemsError, IsParseError, SpellsNone};

use crate::gathering::all_of;
use crate::part::Part;
use grammar_tables::evaluate;
use source_grammar::{parse_source, tables};
use source_trees::{ImplItem, Item, ItemNode};
use source_words::{Word, error_of, kinds_of_words, words_of};
use std::alloc::Global;
use text_core::{Items, Limit, LimitKind, Names, PassError};

/// The most functions of a source.
const MOST_FUNCTIONS: usize = 4096;

/// The first line of the grammar.
const SOURCE: u16 = 0;

/// How many functions stand in an impl.
fn methods_among(items: &[ImplItem]) -> usize
    ensures count { result ≡ methods_among items.now }
    ensures few { result ≤ length items.now }
{
    let mut count = 0;
    for item in items {
        match item {
            ImplItem::Method(_) => count += 1,
            ImplItem::ViewType(_, _, _) => {}
        }
    }
    count
}

/// How many functions the item has.
fn functions_of(node: &ItemNode) -> usize
    ensures { result ≡ functions_of node.now }
{
    match node {
        ItemNode::Function(_) => 1,
        ItemNode::Trait(of) => of.methods.len(),
        ItemNode::Impl(of) => methods_among(of.items.as_slice()),
        _ => 0,
    }
}

/// Whether there are more functions than a source may have.
fn are_too_many(items: &[Item]) -> bool
    ensures { IsTrue result ↔ (most_functions < functions_among items.now) }
{
    let mut room = MOST_FUNCTIONS;
    for item in items {
        let count = functions_of(&item.node);
        if room < count {
            return true;
        }
        room -= count;
    }
    false
}

/// The items, where there are not too many functions.
fn within_bound(items: Items<Item>) -> Result<Items<Item>, PassError>
    ensures ok { IfOk result (λ them. (them ≡ items) × (functions_among items ≤ most_functions)) }
    ensures err { IfErr result (λ e. (most_functions < functions_among items) × (e ≡ P.Limit (record { kind = Functions; counted = 4097; bound = most_functions }))) }
{
    if are_too_many(items.as_slice()) {
        return Err(PassError::Limit(Limit {
            kind: LimitKind::Functions,
            counted: 4097,
            bound: 4096,
        }));
    }
    Ok(items)
}

/// The items that the words are made into by this derivation.
fn items_by(alloc: Global, words: &Items<Word>, derivation: &[u8]) -> Result<Items<Item>, PassError>
    requires { IsSourceDerivation source_goal 0 (kinds_in words.now) derivation.now }
    ensures ok { IfOk result (λ items. AreItemsOf words.now items) }
    ensures err { IfErr result (λ e. e ≡ P.NoMemory) }
{
    let mut parts: Vec<Part> = evaluate(words, alloc, &tables(), SOURCE, derivation, words.len())?;
    parts.reverse();
    Ok(all_of(alloc, &mut parts)?)
}

/// The items that the words spell, which end at this offset.
fn items_of(alloc: Global, words: &Items<Word>, end: u32) -> Result<Items<Item>, PassError>
    ensures ok { IfOk result (λ items. AreItemsOf words.now items) }
    ensures refused { IfErr result (λ e. IsItemsError words.now end e) }
{
    let kinds = kinds_of_words(alloc, words.as_slice())?;
    match parse_source(alloc, kinds.as_slice()) {
        Ok(derivation) => items_by(alloc, words, derivation.as_slice()),
        Err(fault) => Err(error_of(words.as_slice(), end, fault)),
    }
}

/// The items of a source (Rust Reference, "Items", "Statements", "Expressions", "Patterns", "Types", "Paths"; terms as in
/// Creusot's Pearlite), each node with its span. Identifiers and lifetimes that have no name yet are given one, in order of
/// first use.
///
/// Errors: `Source` by E01 where the bytes are no UTF-8, by E02 where a part of them is no token, and at the first token
/// that cannot continue, or empty at the end of a source that ends too early: by E04 where that token opens the 65th level
/// or is the 257th operator of a chain, by E20 where it begins a construct of Rust that the language leaves out, by E03
/// else. `Limit` where there are more than 4,096 functions, those of traits and impls among them. `NoMemory`.
pub fn parse(alloc: Global, bytes: &[u8], names: &mut Names) -> Result<Items<Item>, PassError>
    requires few { length bytes.now ≤ 2 ^ 20 }
    requires room { length names.old + 2 ^ 20 < 2 ^ 32 }
    ensures ok { IfOk result (λ items. SpellsItems names.old bytes.now items) }
    ensures few { IfOk result (λ items. functions_among items ≤ most_functions) }
    ensures alone { IfOk result (λ items. (other : List Item) → SpellsItems names.old bytes.now other → other ≡ items) }
    ensures names { OnOk result (GivesNames names.old bytes.now names.new) }

    // A refusal, and that nothing is refused that is a source.
    ensures refused { IfErr result (λ e. IsParseError names.old bytes.now e) }
    ensures rightly { IfErr result (λ e. SpellsNone names.old bytes.now e) }

    ensures kept { Keeps names.old names.new }
{
    let words = words_of(alloc, bytes, names)?;
    let items = items_of(alloc, &words, bytes.len() as u32)?;
    within_bound(items)
}
