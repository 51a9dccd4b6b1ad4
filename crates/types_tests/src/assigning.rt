//! Assignments from the texts of sources: what is accepted, and which refusal stands where.
use declared_types::declare;
use rs_syntax::parse;
use source_trees::Item;
use std::alloc::Global;
use std::process::Abort;
use std::test::Fail;
use text_core::{Code, Names, PassError};
use type_check::{TypedProgram, check};

/// A source, and the code and the place of its refusal if it is refused.
pub(crate) type Row = (&'static [u8], Option<(Code, u32, u32)>);

fn passes(alloc: Global, items: &[Item]) -> Result<TypedProgram, PassError> {
    let declared = declare(alloc, items)?;
    check(alloc, items, &declared)
}

/// Whether the code of the source is answered so.
fn is_right(alloc: Global, row: &Row) -> bool {
    let source = row.0;
    if source.len() > 1000 {
        return false;
    }
    let mut names = Names::new(alloc);
    let Ok(items) = parse(alloc, source, &mut names) else {
        return false;
    };
    match (passes(alloc, items.as_slice()), row.1) {
        (Ok(_), None) => true,
        (Err(PassError::Source(error)), Some((code, start, end))) => {
            error.code == code && error.span.start == start && error.span.end == end
        }
        _ => false,
    }
}

pub(crate) fn expect(rt: &impl Abort, alloc: Global, rows: &[Row]) {
    let mut at = 0u32;
    for row in rows {
        let right = is_right(alloc, row);
        assert!(rt; right, "row {at}");
        at = at.wrapping_add(1);
    }
}

const UNKNOWN_NAMES: [Row; 5] = [
    (b"fn f() { x = 1; }", Some((Code::E05, 9, 10))),
    (b"fn f() { x = y; }", Some((Code::E05, 9, 10))),
    (b"fn f() { x += true; }", Some((Code::E05, 9, 10))),
    (
        b"fn f() { { let mut x = 1; } x = 1; }",
        Some((Code::E05, 28, 29)),
    ),
    (b"fn g() {} fn f() { g = 1; }", Some((Code::E05, 19, 20))),
];

/// A name that means no variable there is refused at itself, before the value is looked at.
#[test]
fn unknown_names_are_refused(rt: HostRuntime) {
    expect(&rt, rt.alloc(), &UNKNOWN_NAMES);
}

const CONSTANTS: [Row; 7] = [
    (b"fn f(x: i32) { x = 1; }", Some((Code::E22, 15, 16))),
    (b"fn f(x: i32) { x += 1; }", Some((Code::E22, 15, 16))),
    (
        b"fn f(mut x: i32) { let x = 1; x = 2; }",
        Some((Code::E22, 30, 31)),
    ),
    (b"fn f(x: i32) { let mut x = 1; x = 2; }", None),
    (b"fn f(x: i32, mut y: i32) { y = x; y += x; }", None),
    (
        b"fn f(x: i32, mut y: i32) { y = x; x = y; }",
        Some((Code::E22, 34, 35)),
    ),
    (
        b"fn f(x: i32) { (x += 1) += 1; }",
        Some((Code::E22, 16, 17)),
    ),
];

/// A variable that is not `mut` is refused at its name. The last variable of the name counts.
#[test]
fn constants_are_refused(rt: HostRuntime) {
    expect(&rt, rt.alloc(), &CONSTANTS);
}

const VALUES: [Row; 6] = [
    (b"fn f(x: i32) { x = true; }", Some((Code::E07, 19, 23))),
    (b"fn f(x: i32) { x += true; }", Some((Code::E07, 20, 24))),
    (b"fn f(mut x: u8) { x = 1i32; }", Some((Code::E07, 22, 26))),
    (b"fn f(x: i32) -> i32 { x = 1 }", Some((Code::E07, 22, 27))),
    (b"fn f(b: bool) { b += true; }", Some((Code::E07, 16, 17))),
    (b"fn f(x: i32) { x = y; }", Some((Code::E05, 19, 20))),
];

/// The value has the type of the variable, and is refused before a variable that is not `mut`.
#[test]
fn values_are_refused_first(rt: HostRuntime) {
    expect(&rt, rt.alloc(), &VALUES);
}

const TEMPORARIES: [Row; 6] = [
    (b"fn f() { 5 = 6; }", None),
    (b"fn f(x: i32) { (x + 1) += 2; }", None),
    (b"fn f(x: i32) { ({ x }) = 1; }", None),
    (b"fn f() { 5 = true; }", Some((Code::E07, 13, 17))),
    (
        b"fn f(x: i32) { (x + 1) += true; }",
        Some((Code::E07, 26, 30)),
    ),
    (b"fn f() { 5u8 = 6i32; }", Some((Code::E07, 15, 19))),
];

/// What is no variable may be assigned to, by a value of its type.
#[test]
fn temporaries_are_written(rt: HostRuntime) {
    expect(&rt, rt.alloc(), &TEMPORARIES);
}
