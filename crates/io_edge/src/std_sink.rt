ghost use Rattle.std.specs.Prelude.{◌≡◌, None};

use crate::sink::{Sink, SinkError};
use std::io;
use std::io::Write;

/// The standard output. What arrives there is not told.
#[derive(Drop)]
pub struct StdSink<R: Print + Drop> {
    runtime: R,
    faults: u64,
}

impl<R: Print + Drop> StdSink<R> {
    /// The standard output of this runtime, with no fault so far.
    pub fn new(runtime: R) -> StdSink<R>
        ensures { ⟦<StdSink<R> as Sink>⟧.faults result ≡ 0 }
    {
        StdSink { runtime, faults: 0 }
    }
}

impl<R: Print + Drop> Sink for StdSink<R> {
    ghost written = { λ _. None };

    ghost faults = { λ sink. sink.faults };

    fn write(&mut self, bytes: &[u8]) -> Result<u64, SinkError> {
        if bytes.is_empty() {
            return Ok(0);
        }
        match io::writer(&self.runtime).write(bytes) {
            Ok(taken) if taken > 0 => Ok(taken as u64),
            _ => {
                self.faults = self.faults.saturating_add(1);
                Err(SinkError::Failed)
            }
        }
    }
}
