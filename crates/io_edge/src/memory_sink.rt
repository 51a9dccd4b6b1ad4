ghost use Rattle.std.specs.Prelude.{◌≡◌, ◌≢◌, ◌≤◌, ◌↔◌, [], Some, None, Ok, Err, IfOk};
ghost use Rattle.std.specs.Io.KnownBytes.{WriteAppends};
ghost use Rattle.text_core.specs.Counts.{HasCause};
ghost use Rattle.io_edge.specs.Faults.{one_more};
ghost use Rattle.io_edge.specs.Sink.{TakesSome};
ghost use Rattle.io_edge.specs.MemorySink.{bytes_of, call_number, failing_calls, fault_count, most_each_of, taken_count, FailsAt, HasSameSettings};

use crate::sink::{Sink, SinkError};
use std::alloc::Global;

/// An output that keeps its bytes in memory. It fails at the calls whose numbers it was given.
#[derive(Drop)]
pub struct MemorySink {
    bytes: Vec<u8>,
    most_each: u64,
    failing: Vec<u64>,
    calls: u64,
    faults: u64,
}

impl MemorySink {
    /// An output that has taken nothing. A call takes at most `most_each` bytes, 0 counting as 1. Calls are counted
    /// from 1, without those whose piece is empty; those whose numbers are in `failing` answer `Failed`.
    pub fn new(alloc: Global, most_each: u64, failing: Vec<u64>) -> MemorySink
        ensures bytes { bytes_of result ≡ [] }
        ensures most_each { most_each_of result ≡ most_each }
        ensures failing { failing_calls result ≡ failing.items }
        ensures calls { call_number result ≡ 0 }
        ensures faults { fault_count result ≡ 0 }
    {
        MemorySink {
            bytes: Vec::new(alloc),
            most_each,
            failing,
            calls: 0,
            faults: 0,
        }
    }

    /// All bytes taken so far.
    pub fn written(&self) -> &[u8]
        ensures { result.now ≡ bytes_of self.now }
    {
        self.bytes.as_slice()
    }
}

impl Sink for MemorySink {
    ghost written = { λ sink. Some (bytes_of sink) };

    ghost faults = { fault_count };

    fn write(&mut self, bytes: &[u8]) -> Result<u64, SinkError>
        ensures count { TakesSome result bytes.now }
        ensures taken { WriteAppends (Some (bytes_of self.old)) (Some (bytes_of self.new)) result bytes.now }
        ensures untold { Some (bytes_of self.old) ≡ None → Some (bytes_of self.new) ≡ None }
        ensures empty { bytes.now ≡ [] → (result ≡ Ok 0) × (self.new ≡ self.old) }
        ensures failed { HasCause SinkError.Failed (fault_count self.old) (fault_count self.new) result }
        ensures never_falls { fault_count self.old ≤ fault_count self.new }

        // Which calls fail, and how many bytes the others take.
        ensures number { bytes.now ≢ [] → call_number self.new ≡ one_more (call_number self.old) }
        ensures fails { result ≡ Err SinkError.Failed ↔ FailsAt self.old (call_number self.new) bytes.now }
        ensures takes { IfOk result (λ n. n ≡ taken_count self.old bytes.now) }
        ensures raised { result ≡ Err SinkError.Failed
            → fault_count self.new ≡ one_more (fault_count self.old) }
        ensures not_raised { result ≢ Err SinkError.Failed
            → fault_count self.new ≡ fault_count self.old }
        ensures settings { HasSameSettings self.old self.new }
    {
        if bytes.is_empty() {
            return Ok(0);
        }
        self.calls = self.calls.saturating_add(1);
        if self.failing.contains(&self.calls) {
            self.faults = self.faults.saturating_add(1);
            return Err(SinkError::Failed);
        }
        let room = self.most_each.max(1) as usize;
        let piece = &bytes[..room.min(bytes.len())];
        self.bytes.extend_from_slice(piece)?;
        Ok(piece.len() as u64)
    }
}
