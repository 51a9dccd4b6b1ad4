//! The command that the words are read by.
ghost use Rattle.std.specs.Prelude.{◌≡◌, false, IfOk};
ghost use Rattle.clap.specs.Words.{app_of, rule_of};
ghost use Rattle.call_words.specs.Grammar.{bare, command, flag_rule, option_rule, positional_rule};

use clap::{Arg, ArgAction, Command};
use std::alloc::Global;
use text_core::NoMemory;

fn positional<'a>(alloc: Global, id: &'a str) -> Arg<'a>
    ensures rule { rule_of result ≡ positional_rule id.entry.now }
    ensures local { result.global ≡ false }
{
    Arg::new(alloc, id).required(true)
}

fn option<'a>(alloc: Global, id: &'a str) -> Arg<'a>
    ensures rule { rule_of result ≡ option_rule id.entry.now }
    ensures local { result.global ≡ false }
{
    Arg::new(alloc, id).long(id)
}

fn flag<'a>(alloc: Global, id: &'a str) -> Arg<'a>
    ensures rule { rule_of result ≡ flag_rule id.entry.now }
    ensures local { result.global ≡ false }
{
    option(alloc, id).action(ArgAction::SetTrue)
}

fn without_arguments<'a>(alloc: Global) -> Command<'a>
    ensures { app_of result ≡ bare }
{
    Command::new(alloc, "olivestay").no_binary_name(true)
}

/// VERB SOURCE, with the options of all verbs.
pub fn command<'a>(alloc: Global) -> Result<Command<'a>, NoMemory>
    ensures { IfOk result (λ c. app_of c ≡ command) }
{
    let command = without_arguments(alloc)
        .arg(positional(alloc, "verb"))?
        .arg(positional(alloc, "source"))?
        .arg(option(alloc, "proofs"))?
        .arg(option(alloc, "script"))?
        .arg(option(alloc, "out"))?
        .arg(option(alloc, "fn"))?
        .arg(option(alloc, "args"))?
        .arg(option(alloc, "steps"))?
        .arg(flag(alloc, "json"))?;
    Ok(command)
}
