//! Files and programs that are past a bound.
use super::tests::{Call, PROOFS, SOURCE};
use io_edge::ShelfError;
use std::alloc::Global;
use std::test::Fail;

#[test]
fn a_long_source_is_past_its_limit(rt: HostRuntime) -> Result<(), Fail> {
    let spaces = vec![in rt.alloc(); b' '; 1_048_577]?;
    let call = Call::of(spaces.as_slice(), PROOFS);
    assert!(rt; call.gives(rt.alloc(), 7, b"limit source-bytes 1048577 1048576\n")?);
    Ok(())
}

#[test]
fn a_long_file_of_proofs_is_past_its_limit(rt: HostRuntime) -> Result<(), Fail> {
    let spaces = vec![in rt.alloc(); b' '; 67_108_865]?;
    let call = Call::of(SOURCE, spaces.as_slice());
    assert!(rt; call.gives(rt.alloc(), 7, b"limit proof-bytes 67108865 67108864\n")?);
    Ok(())
}

/// A text so many times, between two others.
fn repeated(
    alloc: Global,
    before: &[u8],
    text: &[u8],
    count: usize,
    after: &[u8],
) -> Result<Vec<u8>, ShelfError> {
    let mut bytes = Vec::from_slice(alloc, before)?;
    for _turn in 0..count {
        bytes.extend_from_slice(text)?;
    }
    bytes.extend_from_slice(after)?;
    Ok(bytes)
}

/// One block, and three for each branch.
fn many_blocks(alloc: Global) -> Result<Vec<u8>, ShelfError> {
    repeated(alloc, b"fn f(a: bool) {", b" if a {}", 1_366, b" }")
}

/// Eleven branches one after another make 2,048 paths.
fn many_paths(alloc: Global) -> Result<Vec<u8>, ShelfError> {
    repeated(alloc, b"fn f(a: bool) {", b" if a {}", 11, b" }")
}

/// 1,024 paths with 977 quotients each.
fn many_obligations(alloc: Global) -> Result<Vec<u8>, ShelfError> {
    let branches = repeated(alloc, b"fn f(a: bool, x: u8) {", b" if a {}", 10, b"")?;
    repeated(alloc, branches.as_slice(), b" 1 / x;", 977, b" }")
}

/// Whether the source is past a limit, and this is printed.
fn is_past_limit(
    alloc: Global,
    source: Result<Vec<u8>, ShelfError>,
    printed: &[u8],
) -> Result<bool, ShelfError> {
    let source = source?;
    Call::of(source.as_slice(), b"").gives(alloc, 7, printed)
}

#[test]
fn quantities_are_past_their_limits(rt: HostRuntime) -> Result<(), Fail> {
    let alloc = rt.alloc();
    let functions = repeated(alloc, b"", b"fn f() {} ", 4_097, b"");
    assert!(rt; is_past_limit(alloc, functions, b"limit functions 4097 4096\n")?);
    assert!(rt; is_past_limit(alloc, many_blocks(alloc), b"limit blocks 4097 4096\n")?);
    assert!(rt; is_past_limit(alloc, many_paths(alloc), b"limit paths 1025 1024\n")?);
    let obligations = many_obligations(alloc);
    assert!(rt; is_past_limit(alloc, obligations, b"limit obligations 1000001 1000000\n")?);
    Ok(())
}
