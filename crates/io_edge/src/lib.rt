//! The devices of the program: files by name, and an output that takes bytes.
#![tactic(auto)]

mod file_shelf;
mod memory_shelf;
mod memory_sink;
mod shelf;
mod sink;
mod std_sink;
mod writing;

pub use file_shelf::FileShelf;
pub use memory_shelf::MemoryShelf;
pub use memory_sink::MemorySink;
pub use shelf::{Shelf, ShelfError};
pub use sink::{Sink, SinkError};
pub use std_sink::StdSink;
pub use writing::write_all;
