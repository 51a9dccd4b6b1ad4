//! What of a program does not run yet, from the texts of sources.
use declared_types::declare;
use rs_syntax::parse;
use runnable::first_unrun;
use source_trees::Item;
use std::alloc::Global;
use std::test::Fail;
use text_core::{Names, PassError, Span};
use type_check::check;

/// A source, and the place of the first function or expression that does not run.
type Row = (&'static [u8], Option<(u32, u32)>);

fn first_of(alloc: Global, items: &[Item]) -> Result<Option<Span>, PassError> {
    let declared = declare(alloc, items)?;
    let program = check(alloc, items, &declared)?;
    Ok(first_unrun(alloc, declared.table.decls(), &program)?)
}

/// Whether the code of the source is answered so.
fn is_right(alloc: Global, row: &Row) -> bool {
    let source = row.0;
    if source.len() > 1000 {
        return false;
    }
    let mut names = Names::new(alloc);
    let Ok(items) = parse(alloc, source, &mut names) else {
        return false;
    };
    match (first_of(alloc, items.as_slice()), row.1) {
        (Ok(None), None) => true,
        (Ok(Some(span)), Some((start, end))) => span.start == start && span.end == end,
        _ => false,
    }
}

const FIRST_UNRUN: [Row; 27] = [
    (b"fn f() {}", None),
    (b"fn f(x: i32) -> bool { let y = x + 1; y < 2 }", None),
    (b"struct P { x: i32 } fn f() -> i32 { 1 }", None),
    (b"struct P { x: i32 } fn g(p: P) {}", Some((23, 24))),
    (
        b"#[derive(Clone, Copy)] struct P { x: i32 } fn g(p: P) {}",
        None,
    ),
    (b"fn g() -> (i32, u8) { (1, 2) }", None),
    (
        b"struct S; fn f() {} fn g(t: (i32, S)) { t.0; } fn h(t: (S, u8)) {}",
        Some((23, 24)),
    ),
    (b"struct S; fn f() { let t = (1, S); }", Some((31, 32))),
    (b"fn f() { let t = (); }", None),
    (
        b"fn f(x: Option<u8>) -> Option<(u8, bool)> { let y = x; None }",
        None,
    ),
    (b"fn f(x: Box<u8>) {}", Some((3, 4))),
    (b"struct S; fn f() -> i32 { (1, S).0 }", Some((30, 31))),
    (
        b"struct S; fn f(x: i32) -> i32 { x + (1, S).0 }",
        Some((40, 41)),
    ),
    (
        b"struct S; fn f() -> i32 { ((1, S).0 + 3) + (4, S).0 }",
        Some((31, 32)),
    ),
    (
        b"struct S; fn f() -> i32 { (3 + (1, S).0) + (4, S).0 }",
        Some((35, 36)),
    ),
    (
        b"struct S; fn f(x: i32) { if x < 1 { } else { while (true, S).0 { } } }",
        Some((58, 59)),
    ),
    (
        b"struct S; fn f() { return; } fn g() { f(); ((1, S), 3); }",
        Some((48, 49)),
    ),
    (
        b"struct P { x: i32 } fn f() -> i32 { P { x: 1 }.x }",
        Some((36, 46)),
    ),
    (
        b"#[derive(Copy)] struct P { x: i32 } fn f() -> i32 { P { x: 1 }.x }",
        None,
    ),
    (b"fn f(x: u8) -> u32 { x as u16 as u32 + 1 }", None),
    (
        b"struct S; fn f() -> u16 { (1u8, S).0 as u16 as u16 }",
        Some((32, 33)),
    ),
    (
        b"struct S; fn f(x: u8) -> u16 { x as u16 + (1u8, S).0 as u16 }",
        Some((48, 49)),
    ),
    (
        b"fn f(b: bool) -> u8 { match b { true => 1, false => 2 } }",
        None,
    ),
    (
        b"struct S; fn f(n: u8) -> u8 { if let 3 = n { n } else { (n, S).0 } }",
        Some((60, 61)),
    ),
    (
        b"fn f() -> u8 { match (1u8, true).1 { true => 1, _ => 2 } }",
        Some((15, 56)),
    ),
    (
        b"fn f(t: (u8, bool)) -> u8 { match { t.1 } { true => t.0, _ => 2 } }",
        None,
    ),
    (
        b"struct S; fn f(b: bool) { let t = match b { _ => (1u8, S) }; }",
        Some((55, 56)),
    ),
];

/// The first in source order, an expression behind its parts, and a function at its name, before its body.
#[test]
fn the_first_that_does_not_run(rt: HostRuntime) {
    let mut at = 0u32;
    for row in &FIRST_UNRUN {
        let right = is_right(rt.alloc(), row);
        assert!(rt; right, "row {at}");
        at = at.wrapping_add(1);
    }
}
