//! The program: `verify SOURCE --proofs FILE` prints which functions of a source are verified, and `list SOURCE` what is to be proved.
#![tactic(auto)]

ghost use Rattle.std.specs.Prelude.{◌≡◌};
ghost use Rattle.std.specs.Process.{exit_status};

mod verify;

use io_edge::{FileShelf, StdSink};
use std::process::ExitCode;
use std::{env, io};
use verify::creusot;

/// The words of the call, without the program's name.
fn call_words(rt: &HostRuntime) -> io::Result<Vec<String>> {
    let alloc = rt.alloc();
    let mut words = Vec::new(alloc);
    for word in env::args(rt)?.skip(1) {
        words.push(word)?;
    }
    Ok(words)
}

/// No words where they are not all texts.
fn words_or_none(rt: &HostRuntime) -> Vec<String> {
    match call_words(rt) {
        Ok(words) => words,
        Err(_) => Vec::new(rt.alloc()),
    }
}

/// The process ends with the status that is answered.
fn exit_code(status: u8) -> ExitCode
    ensures { exit_status result ≡ status }
{
    ExitCode::from(status)
}

fn main(rt: HostRuntime) -> io::Result<ExitCode> {
    let alloc = rt.alloc();
    let words = words_or_none(&rt);
    let mut shelf = FileShelf::new(rt.clone()?);
    let mut out = StdSink::new(rt);
    let status = creusot(alloc, words.as_slice(), &mut shelf, &mut out);
    Ok(exit_code(status))
}
