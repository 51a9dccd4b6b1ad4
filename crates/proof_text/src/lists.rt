//! Lists of names behind a term.
ghost use Rattle.std.specs.Prelude.{◌≡◌, ℕ, ◌+◌, ◌^◌, ◌<◌, ◌≤◌, List, length, map, IfOk, OnOk, Some};
ghost use Rattle.std.specs.List.{list_all};
ghost use Rattle.text_core.specs.Names.{text_of};
ghost use Rattle.name_tables.specs.NameTables.{with_names};
ghost use Rattle.proof_text.specs.ProofTextWords.{spaced_words, is_bar, is_listed, text_and_names, name_and_names, lists_of, joined};
ghost use Rattle.proof_text.specs.ProofTextReads.{Reads, KeepsNames};

use crate::fault::Fault;
use crate::texts::{named, split_text};
use crate::word::{before_space, behind_space, cut_last};
use rs_tokens::is_identifier;
use std::alloc::Global;
use text_core::{Items, Name, Names, NoMemory};

fn is_bar(word: &str) -> bool
    ensures { result ≡ is_bar word.now }
{
    word == "|"
}

fn is_listed(word: &str) -> bool
    ensures { result ≡ is_listed word.now }
{
    is_bar(word) || is_identifier(word)
}

/// Whether the words are names and bars.
fn are_listed(words: &[&str]) -> bool
    ensures { result ≡ list_all is_listed (map (λ word. word.now) words.now) }
{
    words.iter().all(|word| is_listed(*word))
}

/// The words, with one space before each.
fn spaced_words(alloc: Global, text: &str) -> Result<Vec<&str>, Fault>
    ensures { Reads (λ said words. said ≡ map (λ word. word.now) words.items) result (spaced_words text.now) }
{
    if text.is_empty() {
        return Ok(Vec::new(alloc));
    }
    let others = behind_space(text).ok_or(Fault::Bad)?;
    Ok(split_text(alloc, others, ' ')?)
}

/// A text, and the names and bars behind ` :`.
#[tactic(auto, unfolding(crate::specs::ProofTextWords::text_and_names))]
pub(crate) fn text_and_names(alloc: Global, rest: &str) -> Result<(&str, Vec<&str>), Fault>
    ensures { Reads (λ said found. (said.0 ≡ found.0.now) × (said.1 ≡ map (λ word. word.now) found.1.items)) result (text_and_names rest.now) }
{
    let (front, back) = cut_last(rest, ':').ok_or(Fault::Bad)?;
    let text = before_space(front).ok_or(Fault::Bad)?;
    let words = spaced_words(alloc, back)?;
    if !are_listed(&words) {
        return Err(Fault::Bad);
    }
    Ok((text, words))
}

/// A name, and the names and bars behind ` :`.
#[tactic(auto, unfolding(crate::specs::ProofTextWords::name_and_names))]
pub(crate) fn name_and_names(alloc: Global, rest: &str) -> Result<(&str, Vec<&str>), Fault>
    ensures { Reads (λ said found. (said.0 ≡ found.0.now) × (said.1 ≡ map (λ word. word.now) found.1.items)) result (name_and_names rest.now) }
{
    let (name, words) = text_and_names(alloc, rest)?;
    if !is_identifier(name) {
        return Err(Fault::Bad);
    }
    Ok((name, words))
}

/// The lists that stand between bars.
fn lists_of<'a, 'b>(alloc: Global, words: &'b [&'a str]) -> Result<Vec<&'b [&'a str]>, NoMemory>
    ensures { IfOk result (λ lists. map (λ texts. map (λ text. text.now) texts.now) lists.items ≡ lists_of (map (λ word. word.now) words.now)) }
{
    Ok(words.split(|word| is_bar(*word)).collect(alloc)?)
}

/// Names of the texts of each list, in order.
fn all_named(
    alloc: Global,
    lists: &[&[&str]],
    names: &mut Names,
) -> Result<Items<Items<Name>>, NoMemory>
    requires { length names.old + length (joined (map (λ texts. map (λ text. text.now) texts.now) lists.now)) < 2 ^ 32 }
    ensures named { IfOk result (λ given. map (map (text_of names.new)) given ≡ map (map Some) (map (λ texts. map (λ text. text.now) texts.now) lists.now)) }
    ensures table { OnOk result (names.new ≡ with_names names.old (joined (map (λ texts. map (λ text. text.now) texts.now) lists.now))) }
    ensures kept { KeepsNames names.old names.new }
    ensures grown { length names.new ≤ length names.old + length (joined (map (λ texts. map (λ text. text.now) texts.now) lists.now)) }
{
    let mut given = Vec::new(alloc);
    for texts in lists {
        given.push(named(alloc, *texts, names)?)?;
    }
    Ok(Items::from_vec(given))
}

/// Names of the texts between bars.
pub(crate) fn name_lists(
    alloc: Global,
    words: &[&str],
    names: &mut Names,
) -> Result<Items<Items<Name>>, NoMemory>
    requires { length names.old + length words.now < 2 ^ 32 }
    ensures named { IfOk result (λ given. map (map (text_of names.new)) given ≡ map (map Some) (lists_of (map (λ word. word.now) words.now))) }
    ensures table { OnOk result (names.new ≡ with_names names.old (joined (lists_of (map (λ word. word.now) words.now)))) }
    ensures kept { KeepsNames names.old names.new }
    ensures grown { length names.new ≤ length names.old + length words.now }
{
    let lists = lists_of(alloc, words)?;
    all_named(alloc, &lists, names)
}
