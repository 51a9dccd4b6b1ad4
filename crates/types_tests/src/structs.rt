//! Structs in functions, from the texts of sources: fields, literals and types.
use crate::assigning::{Row, expect};
use std::test::Fail;
use text_core::Code;

const SELECTED: [Row; 20] = [
    (
        b"struct P { x: i32, y: bool } fn f(p: P) -> i32 { p.x }",
        None,
    ),
    (
        b"struct P { x: i32, y: bool } fn f(p: P) -> bool { p.y }",
        None,
    ),
    (
        b"struct P { x: i32, y: bool } fn f(p: P) -> bool { p.x }",
        Some((Code::E07, 50, 53)),
    ),
    (
        b"struct P { x: i32, y: bool } fn f(p: P) { p.z; }",
        Some((Code::E05, 44, 45)),
    ),
    (
        b"struct P { x: i32, y: bool } fn f(p: P) { p.0; }",
        Some((Code::E05, 44, 45)),
    ),
    (b"struct T(i32, bool); fn f(t: T) -> bool { t.1 }", None),
    (
        b"struct T(i32, bool); fn f(t: T) { t.2; }",
        Some((Code::E05, 36, 37)),
    ),
    (
        b"struct T(i32, bool); fn f(t: T) { t.x; }",
        Some((Code::E05, 36, 37)),
    ),
    (
        b"struct P { x: i32, y: bool } struct Q { p: P, n: u8 } fn f(q: Q) -> bool { q.p.y }",
        None,
    ),
    (
        b"struct P { x: i32, y: bool } struct Q { p: P, n: u8 } fn f(q: Q) -> P { q.p }",
        None,
    ),
    (
        b"struct P { x: i32, y: bool } struct Q { p: P, n: u8 } fn f(q: Q) { q.n.x; }",
        Some((Code::E05, 71, 72)),
    ),
    (b"fn f(b: bool) { b.x; }", Some((Code::E05, 18, 19))),
    (b"fn f(t: (i32, u8)) { t.x; }", Some((Code::E05, 23, 24))),
    (
        b"enum E { A, B } fn f(e: E) { e.x; }",
        Some((Code::E05, 31, 32)),
    ),
    (b"struct W<A> { a: A } fn f(w: W<u8>) -> u8 { w.a }", None),
    (
        b"struct W<A> { a: A } fn f(w: W<(u8, bool)>) -> bool { w.a.1 }",
        None,
    ),
    (
        b"struct W<A> { a: A } fn f(w: W<u8>) -> bool { w.a }",
        Some((Code::E07, 46, 49)),
    ),
    (
        b"struct P { x: i32, y: bool } fn f(b: Box<P>) { b.x; }",
        Some((Code::E20, 47, 50)),
    ),
    (
        b"struct L { v: u8, n: Option<Box<L>> } fn f(l: L) -> u8 { l.v }",
        None,
    ),
    (
        b"struct L { v: u8, n: Option<Box<L>> } fn f(l: L) -> Option<Box<L>> { l.n }",
        None,
    ),
];

/// A field is told by its name, and a part of a tuple struct by its number, at which one that is not there is refused.
#[test]
fn fields_have_names(rt: HostRuntime) {
    expect(&rt, rt.alloc(), &SELECTED);
}

const LITERALS: [Row; 22] = [
    (
        b"struct P { x: i32, y: bool } fn f() -> P { P { x: 1, y: true } }",
        None,
    ),
    (
        b"struct P { x: i32, y: bool } fn f() -> P { P { x: 1, y: 2 } }",
        Some((Code::E07, 56, 57)),
    ),
    (
        b"struct P { x: i32, y: bool } fn f() -> P { P { x: true, y: true } }",
        Some((Code::E07, 50, 54)),
    ),
    (
        b"struct P { x: i32, y: bool } fn f() -> P { P { x: 1 } }",
        Some((Code::E07, 43, 53)),
    ),
    (
        b"struct P { x: i32, y: bool } fn f() -> P { P { } }",
        Some((Code::E07, 43, 48)),
    ),
    (
        b"struct P { x: i32, y: bool } fn f() -> P { P { x: 1, z: 2 } }",
        Some((Code::E05, 53, 54)),
    ),
    (
        b"struct P { x: i32, y: bool } fn f() -> P { P { x: 1, x: 2 } }",
        Some((Code::E06, 53, 54)),
    ),
    (
        b"struct P { x: i32, y: bool } fn f() -> P { P { x: 1, y: true, x: 2 } }",
        Some((Code::E06, 62, 63)),
    ),
    (
        b"struct P { x: i32, y: bool } fn f() -> P { P { x: 1, y: true, z: 2 } }",
        Some((Code::E05, 62, 63)),
    ),
    (
        b"struct P { x: i32, y: bool } fn f() -> P { P { y: true, x: 1 } }",
        Some((Code::E20, 47, 48)),
    ),
    (
        b"struct P { x: i32, y: bool } fn f() -> i32 { P { x: 1, y: true } }",
        Some((Code::E07, 45, 64)),
    ),
    (
        b"struct P { x: i32, y: bool } fn f() { let p = P { x: z, y: true }; }",
        Some((Code::E05, 53, 54)),
    ),
    (
        b"struct P { x: i32, y: bool } fn f() -> i32 { P { x: 1, y: true }.x }",
        None,
    ),
    (
        b"struct P { x: i32, y: bool } struct Q { p: P, n: u8 } fn f() -> Q { Q { p: P { x: 1, y: false }, n: 2 } }",
        None,
    ),
    (
        b"struct P { x: i32, y: bool } struct Q { p: P, n: u8 } fn f() -> Q { Q { p: 1, n: 2 } }",
        Some((Code::E07, 75, 76)),
    ),
    (b"fn f() { R { x: 1 }; }", Some((Code::E05, 9, 10))),
    (b"enum E { A } fn f() { E { }; }", Some((Code::E05, 22, 23))),
    (b"struct N { } fn f() -> N { N { } }", None),
    (b"struct W<A> { a: A } fn f() -> W<u8> { W { a: 1 } }", None),
    (
        b"struct W<A> { a: A } fn f() { let w: W<u8> = W { a: 300 }; }",
        Some((Code::E07, 52, 55)),
    ),
    (
        b"struct W<A> { a: A } fn f() { let w = W { a: 1 }; }",
        Some((Code::E20, 38, 48)),
    ),
    (
        b"struct W<A> { a: A } fn f() -> W<W<bool>> { W { a: W { a: true } } }",
        None,
    ),
];

/// A struct literal gives each field, in their order, its type.
#[test]
fn literals_give_all_fields(rt: HostRuntime) {
    expect(&rt, rt.alloc(), &LITERALS);
}

const WRITTEN: [Row; 7] = [
    (
        b"struct P { x: i32, y: bool } fn f(mut p: P) { p.x = 1; p.x += 2; p = P { x: 3, y: true }; }",
        None,
    ),
    (
        b"struct P { x: i32, y: bool } fn f(p: P) { p.x = 1; }",
        Some((Code::E22, 42, 45)),
    ),
    (
        b"struct P { x: i32, y: bool } fn f(p: P) { p.x += 1; }",
        Some((Code::E22, 42, 45)),
    ),
    (
        b"struct P { x: i32, y: bool } struct Q { p: P, n: u8 } fn f(q: Q) { q.p.x = 1; }",
        Some((Code::E22, 67, 72)),
    ),
    (
        b"struct P { x: i32, y: bool } struct Q { p: P, n: u8 } fn f(mut q: Q) { q.p.x = 1; q.p = P { x: 1, y: true }; }",
        None,
    ),
    (
        b"struct P { x: i32, y: bool } fn f(mut p: P) { p.y += 1; }",
        Some((Code::E07, 53, 54)),
    ),
    (
        b"struct P { x: i32, y: bool } fn f(mut p: P) { p.x = true; }",
        Some((Code::E07, 52, 56)),
    ),
];

/// A field of a variable is written where the variable is mutable.
#[test]
fn fields_are_written(rt: HostRuntime) {
    expect(&rt, rt.alloc(), &WRITTEN);
}

const TYPES: [Row; 11] = [
    (b"enum E { A, B(i32) } fn f(e: E) -> E { e }", None),
    (b"fn f(o: Option<i32>) -> Option<i32> { o }", None),
    (
        b"fn f(o: Option<i32>) -> Option<u8> { o }",
        Some((Code::E07, 37, 38)),
    ),
    (
        b"struct P { x: i32, y: bool } fn f(p: &P) {}",
        Some((Code::E20, 37, 39)),
    ),
    (
        b"struct R<'a> { r: &'a i32 } fn f(r: R) {}",
        Some((Code::E20, 36, 37)),
    ),
    (b"fn f() { let x: S = 1; }", Some((Code::E05, 16, 17))),
    (b"fn f() { let x: Int = 1; }", Some((Code::E05, 16, 19))),
    (b"fn f() { let x: Option = 1; }", Some((Code::E07, 16, 22))),
    (
        b"fn f() { let x: Option<i32, u8> = 1; }",
        Some((Code::E07, 16, 31)),
    ),
    (
        b"fn f() { let x: (i32, S) = 1; }",
        Some((Code::E05, 22, 23)),
    ),
    (b"struct i32 { } fn f(x: i32) {}", Some((Code::E20, 23, 26))),
];

/// Types in functions mean what they mean where types are declared.
#[test]
fn types_are_read(rt: HostRuntime) {
    expect(&rt, rt.alloc(), &TYPES);
}
