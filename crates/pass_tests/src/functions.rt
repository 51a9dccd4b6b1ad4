//! Forms that are not built, at their places, and sources in which all forms are.
use std::alloc::Global;
use std::process::Abort;
use text_core::Code;
use verify_core::{Refusal, prepare};

/// A text, and its refusal with the offsets of its span.
type Row = (&'static [u8], Code, u32, u32);

/// The text is refused with this code and these offsets.
fn is_refused(alloc: Global, row: &Row) -> bool {
    let (text, code, start, end) = *row;
    match prepare(alloc, text) {
        Err(Refusal::Source(error)) => {
            error.code == code && error.span.start == start && error.span.end == end
        }
        _ => false,
    }
}

fn expect_refused(rt: &impl Abort, alloc: Global, rows: &[Row]) {
    let mut at = 0u32;
    for row in rows {
        let right = is_refused(alloc, row);
        assert!(rt; right, "row {at}");
        at = at.wrapping_add(1);
    }
}

const OUTSIDE_THE_GRAMMAR: [Row; 5] = [
    (b"fn f(x: i64) -> i64 { x", Code::E03, 23, 23),
    (b"fn f() { a < b < c }", Code::E03, 15, 16),
    (b"fn f() { if a {} + 1 }", Code::E03, 17, 18),
    (b"fn f() {} /* ..", Code::E02, 10, 15),
    (b"fn \xff", Code::E01, 3, 3),
];

const NOT_BUILT: [Row; 56] = [
    (b"fn f() { (*a, 2) }", Code::E20, 10, 11),
    (b"fn f() { (a.b()) }", Code::E20, 10, 11),
    (b"fn f() { g((1, 2), *y) }", Code::E20, 19, 20),
    (b"fn f() { f(x)(y) }", Code::E20, 9, 16),
    (b"fn f() { 1 + a.b(2) }", Code::E20, 13, 14),
    (b"fn f() { x as &u8 }", Code::E20, 14, 15),
    (b"fn f() { S { a: 1 } }", Code::E05, 9, 10),
    (b"fn f() { a::b }", Code::E05, 9, 10),
    (b"fn f() { let _ = 1; }", Code::E20, 13, 14),
    (b"fn f() { let (a, b) = c; }", Code::E20, 13, 14),
    (b"fn f() { #[variant(x)] while x {} }", Code::E20, 9, 10),
    (b"fn f() { #[requires(x)] while x {} }", Code::E20, 9, 10),
    (b"fn f() { loop { x.y(); } }", Code::E20, 16, 17),
    (b"fn f() { if let (a, b) = y {} }", Code::E20, 16, 17),
    (b"fn f() { match x { (a, b) => 1 } }", Code::E20, 19, 20),
    (b"fn f() { |x: i32| 1 }", Code::E20, 9, 10),
    (b"fn f() { return x.y() }", Code::E20, 16, 17),
    (b"fn f(mut self) {}", Code::E20, 5, 8),
    (b"fn f(x: &i32) {}", Code::E20, 8, 9),
    (b"fn f(x: u7) {}", Code::E05, 8, 10),
    (b"fn f(x: Vec<i32>) {}", Code::E05, 8, 11),
    (b"fn f<T>(x: i8) {}", Code::E20, 4, 5),
    (b"fn f() {} #[allow(a)] pub trait T {}", Code::E20, 26, 31),
    (
        b"#[requires(match x { _ => true })] fn f(x: i8) {}",
        Code::E20,
        11,
        16,
    ),
    (
        b"#[requires(forall<x: Int, y: S<Int>> true)] fn f() {}",
        Code::E05,
        29,
        30,
    ),
    (b"fn f() { let x: Int = 5; }", Code::E05, 16, 19),
    (b"#[requires(true)] struct S;", Code::E20, 0, 1),
    (
        b"#[requires(forall<x: Int> x == x)] struct S;",
        Code::E20,
        0,
        1,
    ),
    (b"#[derive(Clone)] fn f() {}", Code::E20, 0, 1),
    (b"#[invariant(^x)] fn f() {}", Code::E20, 0, 1),
    (
        b"#[ensures(^x == 1)] #[logic] fn f() { 1 }",
        Code::E20,
        10,
        11,
    ),
    (b"#[ensures((1, *a) == 1)] fn f() {}", Code::E20, 14, 15),
    (
        b"#[ensures(result.0)] use std::x; fn f() {}",
        Code::E20,
        0,
        1,
    ),
    (b"fn f() { while let (a, b) = y {} }", Code::E20, 19, 20),
    (
        b"fn f() { 1 + if let (a, b) = y { 1 } else { 2 } }",
        Code::E20,
        20,
        21,
    ),
    (b"fn f() { g(*x) }", Code::E20, 11, 12),
    (b"fn f() { g(&mut x) }", Code::E20, 11, 12),
    (b"fn f() { snapshot!(x) }", Code::E20, 9, 17),
    (b"fn f() { proof_assert!(x.0 == 1); }", Code::E20, 9, 21),
    (b"fn f() { let x: (&u8, u8) = y.0; }", Code::E20, 17, 18),
    (b"fn f() { let x: u8 = y.z(); }", Code::E20, 21, 22),
    (b"fn f() { x = { y; z.u() }; }", Code::E20, 18, 19),
    (
        b"fn f() { g(#[invariant(x)] |y: u8| y) }",
        Code::E20,
        27,
        28,
    ),
    (b"fn f() { g(#[ensures(x)] |y: u8| y) }", Code::E20, 11, 12),
    (
        b"fn f() { #[invariant(*x)] while y.z() {} }",
        Code::E20,
        21,
        22,
    ),
    (b"fn f() { #[requires(x)] loop {} }", Code::E20, 9, 10),
    (b"fn f() -> Self {}", Code::E20, 10, 14),
    (b"fn f(x: i8) -> (u8, u8) where T: A {}", Code::E20, 24, 29),
    (b"fn f(x: i8) where T: A { x.0 }", Code::E20, 12, 17),
    (b"fn f(&self) {}", Code::E20, 5, 6),
    (b"#[law] fn f();", Code::E20, 0, 1),
    (b"#[requires(x)] #[logic] fn f() { x }", Code::E20, 15, 16),
    (b"fn f() {} impl S { fn g() {} }", Code::E20, 10, 14),
    (b"trait A { fn g(); }", Code::E20, 0, 5),
    (
        b"#[requires(match x { _ => y })] fn f() {}",
        Code::E20,
        11,
        16,
    ),
    (b"#[requires(x == *y)] fn f() {}", Code::E20, 16, 17),
];

/// All forms are built, and have types; what only these tell from what runs is refused behind them.
const NOT_RUN: [Row; 10] = [
    (
        b"fn f(x: (u8, bool)) -> u8 { let mut t = x; t.0 = 1; t.0 }",
        Code::E20,
        43,
        50,
    ),
    (b"fn f(mut t: (u8, bool)) { t.0 += 1; }", Code::E20, 30, 32),
    (
        b"fn f(t: (u8, bool)) -> u8 { match t.1 { true => 1, _ => 2 } }",
        Code::E20,
        28,
        59,
    ),
    (
        b"struct A; fn f(x: i32) {} fn g(a: A) {}",
        Code::E20,
        29,
        30,
    ),
    (
        b"#[derive(Copy)] struct B { a: A } struct A; fn f(b: B) {}",
        Code::E20,
        47,
        48,
    ),
    (b"struct A; fn f() { A; }", Code::E20, 19, 20),
    (b"struct A; fn f() { let a = A; }", Code::E20, 27, 28),
    (
        b"struct T(i32); fn f(x: i32) { x; T(x + 1); }",
        Code::E20,
        33,
        41,
    ),
    (
        b"fn f() { g(1) } fn g(x: i32) { while x < 1 { T(2); } } struct T(i32);",
        Code::E20,
        45,
        49,
    ),
    (b"struct A; fn f() { A; z; }", Code::E05, 22, 23),
];

/// All forms are built.
const BUILT: [(&'static [u8], usize); 15] = [
    (b"fn f() { () }", 1),
    (
        b"#[requires(forall<p: (Int, bool)> p.1 ==> p.0 == p.0)] fn f() {}",
        1,
    ),
    (
        b"#[derive(Clone, Copy)] struct P { x: i32, y: (u8, bool) } fn f(p: P) -> (u8, bool) { let q = P { x: p.x, y: (1, true) }; q.y } fn g() -> bool { f(P { x: 1, y: (2, false) }).1 }",
        2,
    ),
    (
        b"fn f(x: Option<i32>) -> Option<i32> { let y: Option<i32> = Some(3); if true { y } else { x } } fn g() -> Option<u8> { None }",
        2,
    ),
    (
        b"#[derive(Copy)] enum E { A, B(u8) } fn f(e: E) -> E { E::A } fn g() -> E { f(E::B(3)) }",
        2,
    ),
    (
        b"#[requires(p.x@ < 3 && t.0)] #[ensures(result == (t.0, p))] fn f(p: P, t: (bool, u8)) -> (bool, P) { (t.0, p) } #[derive(Copy)] struct P { x: i32 }",
        1,
    ),
    (
        b"#[derive(Copy)] struct P { x: u8 } fn f() -> P { let mut p = P { x: 0 }; #[invariant(p.x@ <= 9)] while p.x < 9 { p = P { x: p.x + 1 }; } p }",
        1,
    ),
    (
        b"#![allow(x)] use std::vec::Vec; #[doc(\"x\")] #[requires(true)] pub(crate) fn f() { #[inline] #[invariant(true)] while true {} }",
        1,
    ),
    (
        b"fn f(x: i64) -> i64 { let mut a: i64 = 1; a += if x < 2 && !false { -x } else { g(a, (2)) }; a } fn g(a: i64, b: i64) -> i64 { a * b }",
        2,
    ),
    (
        b"#[requires(forall<k: Int, b: bool> b ==> k < x@)] fn f(x: i8) { #[invariant(forall<k: u8> k == k)] while true {} }",
        1,
    ),
    (
        b"#[requires(x@ > 0 ==> x@ < 3)] #[ensures(result@ == 4 || !(x@ == 1))] fn f(x: i8) -> i8 { #[invariant(x@ >= 0)] while x > 0 { x; } 4 }",
        1,
    ),
    (
        b"fn f(n: u8) -> u8 { let mut k: u8 = 0; #[invariant(k@ <= n@)] loop { if k == n { break; } if k < 3 { k = k + 1; continue; } return k; } k }",
        1,
    ),
    (
        b"fn f(b: bool) -> i8 { if b { unreachable!(\"never\") } else { return 1; } } fn g() -> i8 { panic!() }",
        2,
    ),
    (
        b"fn f() { return } fn g() { loop { while true { break; } } }",
        2,
    ),
    (
        b"fn f(x: u8) -> u8 { match x { 0 => 1, mut y => { y = 2; y } } } fn g(b: bool) { while let true = b { if let false = b { return; } } }",
        2,
    ),
];

/// The text is accepted, with so many functions.
fn is_accepted(alloc: Global, text: &[u8], functions: usize) -> bool {
    match prepare(alloc, text) {
        Ok(program) => program.bodies.bodies.len() == functions,
        Err(_) => false,
    }
}

#[test]
fn texts_outside_the_grammar_are_refused(rt: HostRuntime) {
    expect_refused(&rt, rt.alloc(), &OUTSIDE_THE_GRAMMAR);
}

#[test]
fn forms_that_are_not_built_are_refused_at_their_first_token(rt: HostRuntime) {
    expect_refused(&rt, rt.alloc(), &NOT_BUILT);
}

#[test]
fn what_does_not_run_is_refused_behind_types(rt: HostRuntime) {
    expect_refused(&rt, rt.alloc(), &NOT_RUN);
}

#[test]
fn functions_of_built_forms_are_accepted(rt: HostRuntime) {
    for (text, functions) in &BUILT {
        assert!(rt; is_accepted(rt.alloc(), text, *functions));
    }
}
