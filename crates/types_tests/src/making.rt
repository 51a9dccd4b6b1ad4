//! What makes values, from the texts of sources: structs and variants by a name alone, by a call and by a literal.
use crate::assigning::{Row, expect};
use std::test::Fail;
use text_core::Code;

const NAMES: [Row; 24] = [
    (b"struct A; fn f() -> A { A }", None),
    (b"struct A; fn f() { let a = A; }", None),
    (b"struct A; fn f() -> i32 { A }", Some((Code::E07, 26, 27))),
    (b"struct A; fn f(A: i32) -> i32 { A }", None),
    (
        b"struct A; fn f(A: i32) -> A { A }",
        Some((Code::E07, 30, 31)),
    ),
    (
        b"struct T(i32, bool); fn f() { T; }",
        Some((Code::E07, 30, 31)),
    ),
    (
        b"struct P { x: i32 } fn f() { P; }",
        Some((Code::E07, 29, 30)),
    ),
    (b"fn f() { N; }", Some((Code::E05, 9, 10))),
    (b"fn g() {} fn f() { g; }", Some((Code::E05, 19, 20))),
    (
        b"enum E { A, B(i32), C { x: u8 } } fn f() { E; }",
        Some((Code::E05, 43, 44)),
    ),
    (b"fn f() -> Option<i32> { None }", None),
    (b"fn f() -> Option<i32> { Option::None }", None),
    (b"fn f() -> i32 { None }", Some((Code::E20, 16, 20))),
    (b"fn f() { Some; }", Some((Code::E07, 9, 13))),
    (
        b"enum Option { A } fn f() { None; }",
        Some((Code::E05, 27, 31)),
    ),
    (b"struct None; fn f() -> None { None }", None),
    (
        b"enum E { A, B(i32), C { x: u8 } } fn f() -> E { E::A }",
        None,
    ),
    (
        b"enum E { A, B(i32), C { x: u8 } } fn f() -> i32 { E::A }",
        Some((Code::E07, 50, 54)),
    ),
    (
        b"enum E { A, B(i32), C { x: u8 } } fn f() { E::B; }",
        Some((Code::E07, 43, 47)),
    ),
    (
        b"enum E { A, B(i32), C { x: u8 } } fn f() { E::C; }",
        Some((Code::E07, 43, 47)),
    ),
    (
        b"enum E { A, B(i32), C { x: u8 } } fn f() { E::D; }",
        Some((Code::E05, 46, 47)),
    ),
    (b"fn f() { E::A; }", Some((Code::E05, 9, 10))),
    (b"struct A; fn f() { A::A; }", Some((Code::E05, 22, 23))),
    (b"enum W<A> { N, S(A) } fn f() -> W<u8> { W::N }", None),
];

/// A name or a path makes a value without fields, where no variable has the name.
#[test]
fn names_make_values(rt: HostRuntime) {
    expect(&rt, rt.alloc(), &NAMES);
}

const CALLS: [Row; 23] = [
    (b"struct T(i32, bool); fn f() -> T { T(1, true) }", None),
    (
        b"struct T(i32, bool); fn f() -> T { T(1, 4) }",
        Some((Code::E07, 40, 41)),
    ),
    (
        b"struct T(i32, bool); fn f() -> T { T(1) }",
        Some((Code::E07, 35, 39)),
    ),
    (
        b"struct T(i32, bool); fn f() -> T { T(1, true, 4) }",
        Some((Code::E07, 35, 48)),
    ),
    (
        b"struct T(i32, bool); fn f() -> i32 { T(1, true) }",
        Some((Code::E07, 37, 47)),
    ),
    (b"struct T(i32, bool); fn f() -> i32 { T(1, true).0 }", None),
    (
        b"struct T(i32, bool); fn f(T: i32) { T(1, true); }",
        Some((Code::E05, 36, 37)),
    ),
    (b"struct A; fn f() { A(); }", Some((Code::E07, 19, 22))),
    (b"struct Z(); fn f() -> Z { Z() }", None),
    (
        b"struct P { x: i32 } fn f() { P(1); }",
        Some((Code::E07, 29, 33)),
    ),
    (b"fn f() { g(1); }", Some((Code::E05, 9, 10))),
    (b"fn f() -> Option<i32> { Some(1) }", None),
    (
        b"fn f() -> Option<u8> { Some(300) }",
        Some((Code::E07, 28, 31)),
    ),
    (b"fn f() -> Option<u8> { Option::Some(3) }", None),
    (b"fn f() -> Option<Option<bool>> { Some(Some(true)) }", None),
    (
        b"fn Some(x: i32) -> i32 { x } fn f() -> i32 { Some(1) }",
        None,
    ),
    (b"fn f() { None(); }", Some((Code::E07, 9, 15))),
    (
        b"enum E { A, B(i32), C { x: u8 } } fn f() -> E { E::B(1) }",
        None,
    ),
    (
        b"enum E { A, B(i32), C { x: u8 } } fn f() -> E { E::B(true) }",
        Some((Code::E07, 53, 57)),
    ),
    (
        b"enum E { A, B(i32), C { x: u8 } } fn f() { E::A(1); }",
        Some((Code::E07, 43, 50)),
    ),
    (
        b"enum E { A, B(i32), C { x: u8 } } fn f() { E::D(1); }",
        Some((Code::E05, 46, 47)),
    ),
    (b"fn f() { E::B(1); }", Some((Code::E05, 9, 10))),
    (
        b"enum E { A, B(i32), C { x: u8 } } fn f() { E::B(z); }",
        Some((Code::E05, 48, 49)),
    ),
];

/// A call of a name or a path makes a value of its arguments, where no variable and no function has the name.
#[test]
fn calls_make_values(rt: HostRuntime) {
    expect(&rt, rt.alloc(), &CALLS);
}

const VARIANTS: [Row; 9] = [
    (
        b"enum E { A, B(i32), C { x: u8 } } fn f() -> E { E::C { x: 1 } }",
        None,
    ),
    (
        b"enum E { A, B(i32), C { x: u8 } } fn f() -> E { E::C { x: true } }",
        Some((Code::E07, 58, 62)),
    ),
    (
        b"enum E { A, B(i32), C { x: u8 } } fn f() -> E { E::C { } }",
        Some((Code::E07, 48, 56)),
    ),
    (
        b"enum E { A, B(i32), C { x: u8 } } fn f() -> E { E::C { y: 1 } }",
        Some((Code::E05, 55, 56)),
    ),
    (
        b"enum E { A, B(i32), C { x: u8 } } fn f() { E::A { }; }",
        Some((Code::E07, 43, 51)),
    ),
    (
        b"enum E { A, B(i32), C { x: u8 } } fn f() { E::B { x: 1 }; }",
        Some((Code::E07, 43, 56)),
    ),
    (
        b"enum E { A, B(i32), C { x: u8 } } fn f() { E::D { x: 1 }; }",
        Some((Code::E05, 46, 47)),
    ),
    (
        b"struct T(i32, bool); fn f() { T { x: 1 }; }",
        Some((Code::E07, 30, 40)),
    ),
    (
        b"struct R<'a> { r: &'a i32 } fn f() { R { r: 1 }; }",
        Some((Code::E20, 37, 47)),
    ),
];

/// A literal makes a value of a variant with named fields.
#[test]
fn literals_make_variants(rt: HostRuntime) {
    expect(&rt, rt.alloc(), &VARIANTS);
}
