//! Shows what stands in the way of a verdict: `errors SOURCE` why a source is refused, `goals SOURCE --proofs FILE` which
//! obligations are open and where their proofs stop, `skeleton SOURCE` a proof file to begin with.
#![tactic(auto)]

mod words;

use crate::words::{Request, request_of};
use creusot_pages::{Page, Source, make_page};
use io_edge::{FileShelf, Shelf, ShelfError};
use std::alloc::{AllocError, Global};
use std::process::ExitCode;
use std::{env, io};
use text_core::NoMemory;
use verify_core::{PROOF_BYTES, SOURCE_BYTES};

/// Why nothing is shown.
#[derive(Clone, Copy)]
enum Stop {
    Words,
    Unread,
    NoMemory,
}

impl From<NoMemory> for Stop {
    fn from(_refused: NoMemory) -> Stop {
        Stop::NoMemory
    }
}

impl From<AllocError> for Stop {
    fn from(_refused: AllocError) -> Stop {
        Stop::NoMemory
    }
}

impl From<ShelfError> for Stop {
    fn from(error: ShelfError) -> Stop {
        match error {
            ShelfError::Failed | ShelfError::TooLong(_) => Stop::Unread,
            ShelfError::NoMemory => Stop::NoMemory,
        }
    }
}

impl Stop {
    fn text(self) -> &'static str {
        match self {
            Stop::Words => {
                "usage: creusot_show errors|skeleton SOURCE\n       creusot_show goals SOURCE [--proofs FILE]\n"
            }
            Stop::Unread => "a file could not be read, or is too long\n",
            Stop::NoMemory => "out of memory\n",
        }
    }

    /// The status of the process, as `creusot` has them.
    fn status(self) -> u8 {
        match self {
            Stop::Words => 2,
            Stop::Unread => 5,
            Stop::NoMemory => 8,
        }
    }
}

/// The words of the call, without the program's name.
fn call_words(rt: &HostRuntime) -> io::Result<Vec<String>> {
    let mut words = Vec::new(rt.alloc());
    for word in env::args(rt)?.skip(1) {
        words.push(word)?;
    }
    Ok(words)
}

/// What the file of proofs holds; no proofs where none is named.
fn proofs_in<S: Shelf>(alloc: Global, shelf: &mut S, name: Option<&str>) -> Result<Vec<u8>, Stop> {
    match name {
        Some(name) => Ok(shelf.read(alloc, name, PROOF_BYTES as u64)?),
        None => Ok(b"creusot-proofs 1\n".to_vec(alloc)?),
    }
}

/// What is shown for the request.
fn shown_for<S: Shelf>(alloc: Global, shelf: &mut S, request: Request<'_>) -> Result<Page, Stop> {
    let bytes = shelf.read(alloc, request.source, SOURCE_BYTES as u64)?;
    let proofs = proofs_in(alloc, shelf, request.proofs)?;
    let source = Source {
        name: request.source,
        bytes: &bytes,
    };
    let proofs = Source {
        name: request.proofs.unwrap_or(""),
        bytes: &proofs,
    };
    Ok(make_page(alloc, request.verb, source, proofs)?)
}

fn shown<S: Shelf>(alloc: Global, shelf: &mut S, words: &[String]) -> Result<Page, Stop> {
    match request_of(alloc, words)? {
        Some(request) => shown_for(alloc, shelf, request),
        None => Err(Stop::Words),
    }
}

fn main(rt: HostRuntime) -> io::Result<ExitCode> {
    let words = call_words(&rt)?;
    let mut shelf = FileShelf::new(rt.clone()?);
    match shown(rt.alloc(), &mut shelf, words.as_slice()) {
        Ok(page) => {
            print!(rt; "{}", page.text)?;
            Ok(ExitCode::from(u8::from(page.finds)))
        }
        Err(stop) => {
            eprint!(rt; "{}", stop.text())?;
            Ok(ExitCode::from(stop.status()))
        }
    }
}
