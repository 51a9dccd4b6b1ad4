//! What the words of a call ask for.
ghost use Rattle.std.specs.Prelude.{◌≡◌, IfOk, map, string_bytes};
ghost use Rattle.std.specs.List.{list_all, list_any};
ghost use Rattle.std.specs.Option.{option_copied, option_map};
ghost use Rattle.clap.specs.Words.{found_of, rows_of};
ghost use Rattle.call_words.specs.Asked.{asked, asked_by, asked_in, asked_of};
ghost use Rattle.call_words.specs.Asked.{is_from_words, is_given, is_word, takes_proofs, verb_of};

use crate::grammar::command;
use clap::ArgMatches;
use clap::error::ErrorKind;
use clap::parser::ValueSource;
use std::alloc::Global;
use text_core::NoMemory;

/// What is to be done with the source.
#[derive(Clone, Copy, PartialEq, Eq)]
pub enum Verb {
    /// The functions are to be verified.
    Verify,
    /// What is to be proved is to be listed.
    List,
}

impl Verb {
    fn takes_proofs(self) -> bool
        ensures { result ≡ takes_proofs self }
    {
        match self {
            Verb::Verify => true,
            Verb::List => false,
        }
    }
}

/// What the words of a call ask for.
#[derive(Clone, Copy)]
pub struct Request<'a> {
    /// What is to be done.
    pub verb: Verb,
    /// The name of the source.
    pub source: &'a str,
    /// The name of the file of its proofs.
    pub proofs: Option<&'a str>,
}

/// The most bytes of a word.
const MAX_WORD: usize = 1_048_576;

/// The options that no verb takes yet.
const OPTIONS_TO_COME: [&str; 6] = ["script", "out", "fn", "args", "steps", "json"];

fn is_word(word: &str) -> bool
    ensures { result ≡ is_word word.now }
{
    word.len() <= MAX_WORD
}

fn are_words(words: &[String]) -> bool
    ensures { result ≡ list_all (λ word. is_word (string_bytes word)) words.now }
{
    words.iter().all(|word| is_word(word.as_str()))
}

fn verb_of(word: &str) -> Option<Verb>
    ensures { result ≡ verb_of word.now }
{
    match word {
        "verify" => Some(Verb::Verify),
        "list" => Some(Verb::List),
        _ => None,
    }
}

/// The value is from the words, and no default.
fn is_from_words(source: Option<ValueSource>) -> bool
    ensures { result ≡ is_from_words source }
{
    match source {
        Some(ValueSource::CommandLine) => true,
        Some(ValueSource::DefaultValue) => false,
        None => false,
    }
}

/// The words give the argument of this id.
fn is_given(matches: &ArgMatches<'_>, id: &str) -> bool
    ensures { result ≡ is_given (rows_of (found_of matches.now)) id.now }
{
    is_from_words(matches.value_source(id))
}

/// The words give one of these arguments.
fn gives_any(matches: &ArgMatches<'_>, ids: &[&str]) -> bool
    ensures { result ≡ list_any (λ id. is_given (rows_of (found_of matches.now)) id.now) ids.now }
{
    ids.iter().any(|id| is_given(matches, id))
}

/// What is asked for by a verb, a source and proofs, as far as they are given.
fn request_by<'a>(
    verb: Option<&str>,
    source: Option<&'a str>,
    proofs: Option<&'a str>,
) -> Option<Request<'a>>
    ensures { option_map asked result
        ≡ asked_by (option_copied verb.entry) (option_copied source.entry)
        (option_copied proofs.entry) }
{
    let verb = verb_of(verb?)?;
    let source = source?;
    if proofs.is_some() && !verb.takes_proofs() {
        return None;
    }
    Some(Request {
        verb,
        source,
        proofs,
    })
}

/// What is asked for by what was found.
fn request_in<'a>(matches: &ArgMatches<'a>) -> Option<Request<'a>>
    ensures { option_map asked result ≡ asked_in (rows_of (found_of matches.now)) }
{
    if gives_any(matches, &OPTIONS_TO_COME) {
        return None;
    }
    let verb = matches.get_str("verb");
    let source = matches.get_str("source");
    let proofs = matches.get_str("proofs");
    request_by(verb, source, proofs)
}

/// What the words ask for; `None` exactly where they ask for nothing that the program does. The
/// words hold no name of the program.
pub fn request_of<'a>(alloc: Global, words: &'a [String]) -> Result<Option<Request<'a>>, NoMemory>
    ensures { IfOk result (λ r. option_map asked r ≡ asked_of (map string_bytes words.entry.now)) }
{
    if !are_words(words) {
        return Ok(None);
    }
    match command(alloc)?.try_get_matches_from(words) {
        Ok(matches) => Ok(request_in(&matches)),
        Err(error) => match error.kind() {
            ErrorKind::OutOfMemory => Err(NoMemory),
            _ => Ok(None),
        },
    }
}
