ghost use Rattle.std.specs.Prelude.{◌≡◌, None};

use crate::shelf::{Shelf, ShelfError};
use std::alloc::Global;
use std::io::Read;
use std::rt::Files;
use std::{fs, io};

/// The files of the system. What they hold is not told. One count of faults stands for the reads of every name, and
/// one for the writes.
#[derive(Drop)]
pub struct FileShelf<R: Files + Drop> {
    runtime: R,
    read_faults: u64,
    write_faults: u64,
}

impl<R: Files + Drop> FileShelf<R> {
    /// The files of this runtime, with no fault so far.
    pub fn new(runtime: R) -> FileShelf<R>
        ensures read_faults { ⟦<FileShelf<R> as Shelf>⟧.read_faults result ≡ (λ _. 0) }
        ensures write_faults { ⟦<FileShelf<R> as Shelf>⟧.write_faults result ≡ (λ _. 0) }
    {
        FileShelf {
            runtime,
            read_faults: 0,
            write_faults: 0,
        }
    }
}

/// The first bytes of the file, at most one more than `most`: enough to see that it is too long.
fn read_start<R: Files>(files: &R, alloc: Global, name: &str, most: u64) -> io::Result<Vec<u8>> {
    let mut bytes = Vec::new(alloc);
    fs::open(files, name)?
        .take(most.saturating_add(1))
        .read_to_end(&mut bytes)?;
    Ok(bytes)
}

/// The length that the system says the file has.
fn file_length<R: Files>(files: &R, name: &str) -> io::Result<u64> {
    Ok(fs::metadata(files, name)?.len())
}

impl<R: Files + Drop> Shelf for FileShelf<R> {
    ghost holds = { λ _. None };

    ghost read_faults = { λ shelf _. shelf.read_faults };

    ghost write_faults = { λ shelf _. shelf.write_faults };

    /// A file that has more bytes than the system said is read no further than one byte past `most`.
    fn read(&mut self, alloc: Global, name: &str, most: u64) -> Result<Vec<u8>, ShelfError> {
        if let Ok(length) = file_length(&self.runtime, name) {
            if length > most {
                return Err(ShelfError::TooLong(length));
            }
        }
        match read_start(&self.runtime, alloc, name, most) {
            Ok(bytes) => {
                let length = bytes.len() as u64;
                if length > most {
                    return Err(ShelfError::TooLong(length));
                }
                Ok(bytes)
            }
            Err(error) if error.kind() == io::ErrorKind::OutOfMemory => Err(ShelfError::NoMemory),
            Err(_) => {
                self.read_faults = self.read_faults.saturating_add(1);
                Err(ShelfError::Failed)
            }
        }
    }

    fn write(&mut self, _alloc: Global, name: &str, bytes: &[u8]) -> Result<(), ShelfError> {
        if fs::write(&self.runtime, name, bytes).is_err() {
            self.write_faults = self.write_faults.saturating_add(1);
            return Err(ShelfError::Failed);
        }
        Ok(())
    }
}
