//! The longest walks: as many blocks along one path, and as many paths, as a body may have, nearly.
use crate::depth::push_all;
use std::alloc::Global;
use std::test::Fail;
use text_core::NoMemory;
use verify_core::prepare;

/// How many calls are in a row: each is the end of a block, of which there may be 4,096.
const CALLS: usize = 4090;

/// How many loops are in a row: each has a path that ends with its turn, and there may be 1,024 paths.
const LOOPS: usize = 1000;

/// What stands first, what is repeated behind it, so many times, and what stands last.
fn source_of(
    alloc: Global,
    first: &[u8],
    repeated: &[u8],
    times: usize,
    last: &[u8],
) -> Result<Vec<u8>, NoMemory> {
    let mut text = Vec::new(alloc);
    push_all(&mut text, first)?;
    for _ in 0..times {
        push_all(&mut text, repeated)?;
    }
    push_all(&mut text, last)?;
    Ok(text)
}

/// How many obligations the source has; none where it is refused.
fn obligations_of(alloc: Global, source: &[u8]) -> Option<usize> {
    match prepare(alloc, source) {
        Ok(program) => Some(program.obligations.len()),
        Err(_) => None,
    }
}

/// Each call owes the one `requires` of what it calls.
#[test]
fn calls_in_a_row(rt: HostRuntime) -> Result<(), Fail> {
    let alloc = rt.alloc();
    let first = b"#[requires(true)] fn g() {} fn f() { ";
    let text = source_of(alloc, first, b"g(); ", CALLS, b"}")?;
    assert!(rt; obligations_of(alloc, text.as_slice()) == Some(CALLS));
    Ok(())
}

/// Each loop owes its invariant where it is entered, and after a turn.
#[test]
fn loops_in_a_row(rt: HostRuntime) -> Result<(), Fail> {
    let alloc = rt.alloc();
    let first = b"fn f(x: bool) { ";
    let text = source_of(alloc, first, b"#[invariant(true)] while x {} ", LOOPS, b"}")?;
    assert!(rt; obligations_of(alloc, text.as_slice()) == Some(2 * LOOPS));
    Ok(())
}
