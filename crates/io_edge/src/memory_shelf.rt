ghost use Rattle.std.specs.Prelude.{◌≡◌, ◌≢◌, ◌⊎◌, ◌≤◌, ◌<◌, ℕ, List, length, Option, Some, Err, IfOk, IfErr, OnOk, OnErr};
ghost use Rattle.std.specs.Option.{option_copied};
ghost use Rattle.text_core.specs.Counts.{HasCause};
ghost use Rattle.io_edge.specs.Faults.{NoneFalls, RaisesOnly, one_more};
ghost use Rattle.io_edge.specs.Shelf.{Holds, HoldsLength, IfTooLong, KeepsOthers, WhereTold, WhileTold};
ghost use Rattle.io_edge.specs.MemoryShelf.{call_number, failing_calls, file_in, held, read_fault_count, write_fault_count, times_named, FailsAt, ReadFailsAt, UnlessNoMemory};

use crate::shelf::{Shelf, ShelfError};
use std::alloc::{AllocError, Global};
use std::collections::BTreeMap;

/// Files that are kept in memory. Reads and writes fail at the calls whose numbers were given.
#[derive(Drop)]
pub struct MemoryShelf {
    files: BTreeMap<String, Vec<u8>>,
    failing: Vec<u64>,
    calls: u64,
    // The names of the reads, and of the writes, that failed: one entry for each fault.
    failed_reads: Vec<String>,
    failed_writes: Vec<String>,
}

impl MemoryShelf {
    /// These files. Reads and writes are counted together, from 1; those whose numbers are in `failing` answer
    /// `Failed`.
    pub fn new(files: BTreeMap<String, Vec<u8>>, failing: Vec<u64>) -> MemoryShelf
        ensures files { held result ≡ file_in files }
        ensures failing { failing_calls result ≡ failing.items }
        ensures calls { call_number result ≡ 0 }
        ensures read_faults { read_fault_count result ≡ (λ _. 0) }
        ensures write_faults { write_fault_count result ≡ (λ _. 0) }
    {
        let alloc = *failing.allocator();
        MemoryShelf {
            files,
            failing,
            calls: 0,
            failed_reads: Vec::new(alloc),
            failed_writes: Vec::new(alloc),
        }
    }

    /// What the name holds; `None` exactly where no file has it. This is no read, and has no number.
    pub fn get(&self, name: &str) -> Option<&[u8]>
        ensures { option_copied result ≡ held self.now name.now }
    {
        self.files.get(name).map(|file| file.as_slice())
    }
}

/// Notes one more fault of the name. For want of memory nothing changes.
fn note_fault(alloc: Global, names: &mut Vec<String>, name: &str) -> Result<(), AllocError>
    ensures ok { OnOk result (RaisesOnly name.now (times_named names.old.items) (times_named names.new.items)) }
    ensures none_falls { NoneFalls (times_named names.old.items) (times_named names.new.items) }
    ensures err { OnErr result (names.new.items ≡ names.old.items) }
{
    names.push(String::from_str(alloc, name)?)?;
    Ok(())
}

impl Shelf for MemoryShelf {
    ghost holds = { λ shelf. Some (held shelf) };

    ghost read_faults = { read_fault_count };

    ghost write_faults = { write_fault_count };

    fn read(&mut self, alloc: Global, name: &str, most: u64) -> Result<Vec<u8>, ShelfError>
        ensures whole { IfOk result (λ v. Holds name.now v.items (held self.old)) }
        ensures within { IfOk result (λ v. length v.items ≤ most) }
        ensures length { IfErr result (IfTooLong (λ n. HoldsLength name.now n (held self.old))) }
        ensures too_long { IfErr result (IfTooLong (λ n. most < n)) }
        ensures keeps { held self.new ≡ held self.old }

        ensures failed { HasCause ShelfError.Failed (read_fault_count self.old name.now)
            (read_fault_count self.new name.now) result }
        ensures none_falls { NoneFalls (read_fault_count self.old) (read_fault_count self.new) }
        ensures no_write { write_fault_count self.new ≡ write_fault_count self.old }

        // Which calls fail, and which files are too long.
        ensures number { call_number self.new ≡ one_more (call_number self.old) }
        ensures same_failing { failing_calls self.new ≡ failing_calls self.old }
        ensures fails { ReadFailsAt self.old (call_number self.new) name.now
            → UnlessNoMemory result (Err ShelfError.Failed) }
        ensures only_then { result ≡ Err ShelfError.Failed
            → ReadFailsAt self.old (call_number self.new) name.now }
        ensures long { (n : ℕ) → ¬ ReadFailsAt self.old (call_number self.new) name.now
            → HoldsLength name.now n (held self.old) → most < n → result ≡ Err (ShelfError.TooLong n) }
        ensures raised { result ≡ Err ShelfError.Failed
            → RaisesOnly name.now (read_fault_count self.old) (read_fault_count self.new) }
        ensures not_raised { result ≢ Err ShelfError.Failed
            → read_fault_count self.new ≡ read_fault_count self.old }
    {
        self.calls = self.calls.saturating_add(1);
        if self.failing.contains(&self.calls) {
            note_fault(alloc, &mut self.failed_reads, name)?;
            return Err(ShelfError::Failed);
        }
        let Some(file) = self.files.get(name) else {
            note_fault(alloc, &mut self.failed_reads, name)?;
            return Err(ShelfError::Failed);
        };
        let length = file.len() as u64;
        if length > most {
            return Err(ShelfError::TooLong(length));
        }
        Ok(Vec::from_slice(alloc, file.as_slice())?)
    }

    fn write(&mut self, alloc: Global, name: &str, bytes: &[u8]) -> Result<(), ShelfError>
        ensures put { OnOk result (Holds name.now bytes.now (held self.new)) }
        ensures others { KeepsOthers name.now (held self.old) (held self.new) }
        ensures never_too_long { IfErr result (IfTooLong (λ _. ⊥)) }

        ensures failed { HasCause ShelfError.Failed (write_fault_count self.old name.now)
            (write_fault_count self.new name.now) result }
        ensures none_falls { NoneFalls (write_fault_count self.old) (write_fault_count self.new) }
        ensures no_read { read_fault_count self.new ≡ read_fault_count self.old }

        // Which calls fail, and that a call that fails changes no file.
        ensures number { call_number self.new ≡ one_more (call_number self.old) }
        ensures same_failing { failing_calls self.new ≡ failing_calls self.old }
        ensures fails { FailsAt self.old (call_number self.new)
            → UnlessNoMemory result (Err ShelfError.Failed) }
        ensures only_then { result ≡ Err ShelfError.Failed → FailsAt self.old (call_number self.new) }
        ensures raised { result ≡ Err ShelfError.Failed
            → RaisesOnly name.now (write_fault_count self.old) (write_fault_count self.new) }
        ensures not_raised { result ≢ Err ShelfError.Failed
            → write_fault_count self.new ≡ write_fault_count self.old }
        ensures err { OnErr result (held self.new ≡ held self.old) }
    {
        self.calls = self.calls.saturating_add(1);
        if self.failing.contains(&self.calls) {
            note_fault(alloc, &mut self.failed_writes, name)?;
            return Err(ShelfError::Failed);
        }
        let file = Vec::from_slice(alloc, bytes)?;
        self.files.insert(String::from_str(alloc, name)?, file)?;
        Ok(())
    }
}
