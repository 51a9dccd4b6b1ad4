ghost use Rattle.std.specs.Prelude.{◌≡◌, Err, IfOk};
ghost use Rattle.text_core.specs.Counts.{Rose};
ghost use Rattle.io_edge.specs.Faults.{NoneFalls};
ghost use Rattle.creusot_cli.specs.Call.{IsRead};

use io_edge::{Shelf, ShelfError};
use std::alloc::Global;
use text_core::NoMemory;

/// A file as it was read.
#[derive(Drop)]
pub(crate) enum ReadFile {
    Whole(Vec<u8>),
    /// The file has so many bytes, which are more than were asked for.
    TooLong(u64),
}

/// Why nothing is to be printed.
#[derive(Clone, Copy, Drop)]
pub(crate) enum Stop {
    ShelfFailed,
    NoMemory,
}

impl From<NoMemory> for Stop {
    ghost use Rattle.creusot_cli.specs.declared.verify.files.Stop.TheVariants as stops;

    ghost from_gives = { λ _ e. e ≡ stops.NoMemory };

    fn from(_refused: NoMemory) -> Stop {
        Stop::NoMemory
    }
}

/// The file of this name, of at most so many bytes.
pub(crate) fn read_file<S: Shelf>(
    alloc: Global,
    shelf: &mut S,
    name: &str,
    most: u64,
) -> Result<ReadFile, Stop>
    ensures read { IfOk result (IsRead (S.holds shelf.old) name.now most) }
    ensures holds { S.holds shelf.new ≡ S.holds shelf.old }
    ensures failed { result ≡ Err Stop.ShelfFailed → Rose (S.read_faults shelf.old name.now) (S.read_faults shelf.new name.now) }
    ensures none_falls { NoneFalls (S.read_faults shelf.old) (S.read_faults shelf.new) }
    ensures no_write { S.write_faults shelf.new ≡ S.write_faults shelf.old }
{
    match shelf.read(alloc, name, most) {
        Ok(bytes) => Ok(ReadFile::Whole(bytes)),
        Err(ShelfError::TooLong(length)) => Ok(ReadFile::TooLong(length)),
        Err(ShelfError::Failed) => Err(Stop::ShelfFailed),
        Err(ShelfError::NoMemory) => Err(Stop::NoMemory),
    }
}
