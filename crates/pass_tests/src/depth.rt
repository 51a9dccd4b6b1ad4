//! The deepest sources: chains of operators on all levels, and all that opens a level in itself. Each goes through all passes and is dropped.
use std::alloc::Global;
use std::process::Abort;
use std::test::Fail;
use text_core::{Code, NoMemory};
use verify_core::{Refusal, prepare};

/// How many levels are in one another, a few less than the most, since what stands around them opens some.
const LEVELS: usize = 60;

/// How many operators a chain has at most.
const LINKS: usize = 256;

/// How many it has where each makes obligations or a variable, of which all those before it are known.
const FEW_LINKS: usize = 64;

/// What the passes answer.
#[derive(Clone, Copy)]
enum Answer {
    Prepared,
    Refused(Code),
    Limited,
}

/// What stands before the levels, what opens one, what stands innermost, the links of each level's chain, what closes one, and what stands
/// behind the levels; how many links there are; and the answer.
type Row = ([&'static [u8]; 6], usize, Answer);

const CODE: [Row; 11] = [
    (
        [b"fn f(x: u64) -> u64 { ", b"(", b"x", b" + 1", b")", b" }"],
        FEW_LINKS,
        Answer::Prepared,
    ),
    (
        [
            b"fn f(x: bool) -> bool { ",
            b"(",
            b"x",
            b" && x",
            b")",
            b" }",
        ],
        LINKS,
        Answer::Limited,
    ),
    (
        [b"fn f(x: u64) { ", b"(", b"x + 1", b" += 1", b")", b"; }"],
        LINKS,
        Answer::Refused(Code::E07),
    ),
    (
        [b"fn f(x: bool) -> bool { ", b"!", b"x", b"", b"", b" }"],
        LINKS,
        Answer::Prepared,
    ),
    (
        [b"fn f(x: i64) -> i64 { ", b"-", b"x", b"", b"", b" }"],
        LINKS,
        Answer::Prepared,
    ),
    (
        [
            b"fn f(x: u64) -> u64 { ",
            b"(",
            b"x",
            b" as u64",
            b")",
            b" }",
        ],
        FEW_LINKS,
        Answer::Prepared,
    ),
    (
        [b"fn f() { ", b"{ ", b"", b"", b" }", b" }"],
        LINKS,
        Answer::Prepared,
    ),
    (
        [b"fn f(x: bool) { ", b"if x { ", b"", b"", b" }", b" }"],
        LINKS,
        Answer::Prepared,
    ),
    (
        [b"fn f(x: bool) { ", b"while x { ", b"", b"", b" }", b" }"],
        LINKS,
        Answer::Prepared,
    ),
    (
        [
            b"fn f(x: bool) { if x { }",
            b" else if x { }",
            b"",
            b"",
            b"",
            b" }",
        ],
        LINKS,
        Answer::Prepared,
    ),
    (
        [b"fn f(x: u64) -> u64 { ", b"f(", b"x", b"", b")", b" }"],
        LINKS,
        Answer::Prepared,
    ),
];

const TERMS: [Row; 7] = [
    (
        [
            b"#[requires(",
            b"(",
            b"x@",
            b" + 1",
            b")",
            b" == 0)] fn f(x: u64) { }",
        ],
        LINKS,
        Answer::Prepared,
    ),
    (
        [
            b"#[requires(",
            b"(",
            b"x",
            b" && x",
            b")",
            b")] fn f(x: bool) { }",
        ],
        LINKS,
        Answer::Prepared,
    ),
    (
        [
            b"#[requires(",
            b"(",
            b"x",
            b"@",
            b")",
            b" == 0)] fn f(x: u64) { }",
        ],
        LINKS,
        Answer::Refused(Code::E07),
    ),
    (
        [
            b"#[requires(",
            b"!",
            b"x",
            b"",
            b"",
            b")] fn f(x: bool) { }",
        ],
        LINKS,
        Answer::Prepared,
    ),
    (
        [
            b"#[requires(",
            b"-",
            b"x@",
            b"",
            b"",
            b" == 0)] fn f(x: u64) { }",
        ],
        LINKS,
        Answer::Prepared,
    ),
    (
        [
            b"#[requires(",
            b"x ==> ",
            b"x",
            b"",
            b"",
            b")] fn f(x: bool) { }",
        ],
        LINKS,
        Answer::Prepared,
    ),
    (
        [
            b"#[requires(",
            b"(",
            b"x",
            b" || x",
            b")",
            b")] fn f(x: bool) { }",
        ],
        LINKS,
        Answer::Prepared,
    ),
];

pub(crate) fn push_all(text: &mut Vec<u8>, more: &[u8]) -> Result<(), NoMemory> {
    for byte in more {
        text.push(*byte)?;
    }
    Ok(())
}

/// The level's chain, and what closes it.
fn push_level(text: &mut Vec<u8>, link: &[u8], links: usize, close: &[u8]) -> Result<(), NoMemory> {
    if link.len() > 0 {
        for _ in 0..links {
            push_all(text, link)?;
        }
    }
    push_all(text, close)
}

/// So many levels that are opened.
fn push_levels(text: &mut Vec<u8>, open: &[u8]) -> Result<(), NoMemory> {
    for _ in 0..LEVELS {
        push_all(text, open)?;
    }
    Ok(())
}

fn source_of(alloc: Global, parts: &[&[u8]; 6], links: usize) -> Result<Vec<u8>, NoMemory> {
    let mut text = Vec::new(alloc);
    push_all(&mut text, parts[0])?;
    push_levels(&mut text, parts[1])?;
    push_all(&mut text, parts[2])?;
    for _ in 0..LEVELS {
        push_level(&mut text, parts[3], links, parts[4])?;
    }
    push_all(&mut text, parts[5])?;
    Ok(text)
}

fn answers(alloc: Global, row: &Row) -> Result<bool, NoMemory> {
    let text = source_of(alloc, &row.0, row.1)?;
    Ok(match (prepare(alloc, text.as_slice()), row.2) {
        (Ok(_), Answer::Prepared) => true,
        (Err(Refusal::Source(error)), Answer::Refused(code)) => error.code == code,
        (Err(Refusal::Limit(_)), Answer::Limited) => true,
        _ => false,
    })
}

fn expect(rt: &impl Abort, alloc: Global, rows: &[Row]) -> Result<(), Fail> {
    for (at, row) in rows.iter().enumerate() {
        assert!(rt; answers(alloc, row)?, "row {at}");
    }
    Ok(())
}

#[test]
fn deep_code(rt: HostRuntime) -> Result<(), Fail> {
    expect(&rt, rt.alloc(), &CODE)
}

#[test]
fn deep_terms(rt: HostRuntime) -> Result<(), Fail> {
    expect(&rt, rt.alloc(), &TERMS)
}
