//! The words of the call.
use clap::error::ErrorKind;
use clap::{Arg, ArgMatches, Command};
use creusot_pages::Verb;
use std::alloc::Global;
use text_core::NoMemory;

/// What is asked for: a verb, the name of the source, and that of the proof file.
#[derive(Clone, Copy)]
pub(crate) struct Request<'a> {
    pub(crate) verb: Verb,
    pub(crate) source: &'a str,
    pub(crate) proofs: Option<&'a str>,
}

fn verb_of(word: &str) -> Option<Verb> {
    match word {
        "errors" => Some(Verb::Errors),
        "goals" => Some(Verb::Goals),
        "skeleton" => Some(Verb::Skeleton),
        _ => None,
    }
}

/// `VERB SOURCE [--proofs FILE]`
fn command<'a>(alloc: Global) -> Result<Command<'a>, NoMemory> {
    let command = Command::new(alloc, "creusot_show")
        .no_binary_name(true)
        .arg(Arg::new(alloc, "verb").required(true))?
        .arg(Arg::new(alloc, "source").required(true))?
        .arg(Arg::new(alloc, "proofs").long("proofs"))?;
    Ok(command)
}

/// Proofs are of use to `goals` alone.
fn request_in<'a>(matches: &ArgMatches<'a>) -> Option<Request<'a>> {
    let verb = verb_of(matches.get_str("verb")?)?;
    let source = matches.get_str("source")?;
    let proofs = matches.get_str("proofs");
    if proofs.is_some() && !matches!(verb, Verb::Goals) {
        return None;
    }
    Some(Request {
        verb,
        source,
        proofs,
    })
}

/// What the words ask for; `None` where they ask for nothing that the program does.
pub(crate) fn request_of<'a>(
    alloc: Global,
    words: &'a [String],
) -> Result<Option<Request<'a>>, NoMemory> {
    match command(alloc)?.try_get_matches_from(words) {
        Ok(matches) => Ok(request_in(&matches)),
        Err(error) => match error.kind() {
            ErrorKind::OutOfMemory => Err(NoMemory),
            _ => Ok(None),
        },
    }
}
