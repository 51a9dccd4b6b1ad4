use io_edge::{
    FileShelf, MemoryShelf, MemorySink, Shelf, ShelfError, Sink, SinkError, StdSink, write_all,
};
use std::alloc::Global;
use std::collections::BTreeMap;
use std::test::Fail;
use std::{env, fs, process};

/// A shelf with the file `a.rs`, which holds `abc`.
fn small_shelf(alloc: Global, failing: &[u64]) -> Result<MemoryShelf, ShelfError> {
    let mut files = BTreeMap::new(alloc);
    let name = String::from_str(alloc, "a.rs")?;
    files.insert(name, Vec::from_slice(alloc, b"abc")?)?;
    Ok(MemoryShelf::new(files, Vec::from_slice(alloc, failing)?))
}

fn holds(shelf: &MemoryShelf, name: &str, wanted: &[u8]) -> bool {
    match shelf.get(name) {
        Some(bytes) => bytes == wanted,
        None => false,
    }
}

fn copy<S: Shelf>(alloc: Global, shelf: &mut S, from: &str, to: &str) -> Result<(), ShelfError> {
    let bytes = shelf.read(alloc, from, 9)?;
    shelf.write(alloc, to, bytes.as_slice())
}

#[test]
fn memory_shelf_copies(rt: HostRuntime) -> Result<(), Fail> {
    let alloc = rt.alloc();
    let mut shelf = small_shelf(alloc, &[])?;
    copy(alloc, &mut shelf, "a.rs", "b.rs")?;
    shelf.write(alloc, "a.rs", b"z")?;
    assert!(rt; holds(&shelf, "b.rs", b"abc"));
    assert!(rt; holds(&shelf, "a.rs", b"z"));
    assert!(rt; shelf.get("c.rs").is_none());
    Ok(())
}

fn read_fails(alloc: Global, shelf: &mut impl Shelf, name: &str, most: u64) -> bool {
    matches!(shelf.read(alloc, name, most), Err(ShelfError::Failed))
}

/// Whether the file is refused as one of three bytes.
fn is_too_long(alloc: Global, shelf: &mut impl Shelf, name: &str, most: u64) -> bool {
    matches!(shelf.read(alloc, name, most), Err(ShelfError::TooLong(3)))
}

#[test]
fn memory_shelf_refuses(rt: HostRuntime) -> Result<(), Fail> {
    let alloc = rt.alloc();
    let mut shelf = small_shelf(alloc, &[3, 5])?;
    assert!(rt; read_fails(alloc, &mut shelf, "b.rs", 9), "missing");
    assert!(rt; is_too_long(alloc, &mut shelf, "a.rs", 2));
    assert!(rt; read_fails(alloc, &mut shelf, "a.rs", 3), "the third call");
    assert!(rt; shelf.read(alloc, "a.rs", 3).is_ok());
    let fifth = shelf.write(alloc, "a.rs", b"z");
    assert!(rt; matches!(fifth, Err(ShelfError::Failed)));
    assert!(rt; holds(&shelf, "a.rs", b"abc"));
    Ok(())
}

/// Whether a sink that takes so many bytes a call has what it is given in pieces.
fn takes_all(alloc: Global, most_each: u64) -> Result<bool, SinkError> {
    let mut sink = MemorySink::new(alloc, most_each, Vec::new(alloc));
    write_all(&mut sink, b"abc")?;
    write_all(&mut sink, b"")?;
    write_all(&mut sink, b"de")?;
    Ok(sink.written() == b"abcde".as_slice())
}

#[test]
fn memory_sink_takes_all(rt: HostRuntime) -> Result<(), Fail> {
    for most_each in [0, 1, 2, 9] {
        assert!(rt;
            takes_all(rt.alloc(), most_each)?,
            "at most {most_each} each"
        );
    }
    Ok(())
}

#[test]
fn memory_sink_fails_in_mid_stream(rt: HostRuntime) -> Result<(), Fail> {
    let alloc = rt.alloc();
    let mut sink = MemorySink::new(alloc, 2, Vec::from_slice(alloc, &[2])?);
    assert!(rt;
        matches!(sink.write(b""), Ok(0)),
        "an empty piece has no number"
    );
    let failed = write_all(&mut sink, b"abc");
    assert!(rt; matches!(failed, Err(SinkError::Failed)));
    assert!(rt; sink.written() == b"ab".as_slice());
    write_all(&mut sink, b"c")?;
    assert!(rt; sink.written() == b"abc".as_slice());
    Ok(())
}

/// Whether the file, which is missing at first, holds what was written last, and is refused where it is too long.
fn file_is_kept(
    alloc: Global,
    shelf: &mut impl Shelf,
    path: &str,
) -> Result<[bool; 3], ShelfError> {
    let missing = read_fails(alloc, shelf, path, 9);
    shelf.write(alloc, path, b"abcdef")?;
    shelf.write(alloc, path, b"xyz")?;
    let whole = shelf.read(alloc, path, 3)?;
    let kept = whole.as_slice() == b"xyz".as_slice();
    Ok([missing, kept, is_too_long(alloc, shelf, path, 2)])
}

#[test]
fn file_shelf_copies(rt: HostRuntime) -> Result<(), Fail> {
    let alloc = rt.alloc();
    let process = process::id(rt.process());
    let file = format!(in alloc; "olivestay_edge_tests_{process}")?;
    let path = env::temp_dir(&rt)?.join(alloc, file.as_str())?;
    let mut shelf = FileShelf::new(rt.clone()?);
    let seen = file_is_kept(alloc, &mut shelf, path.as_str());
    fs::remove_file(&rt, path.as_str())?;
    assert!(rt; seen? == [true; 3]);
    Ok(())
}

#[test]
fn std_sink_writes(rt: HostRuntime) -> Result<(), Fail> {
    let mut sink = StdSink::new(rt);
    write_all(&mut sink, b"to the standard output\n")?;
    Ok(())
}
