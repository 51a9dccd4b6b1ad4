//! Tuples and their parts, from the texts of sources.
use crate::assigning::{Row, expect};
use std::test::Fail;
use text_core::Code;

const MADE: [Row; 15] = [
    (b"fn f() { (1, true); }", None),
    (b"fn f() { let t: (i32, bool) = (1, true); }", None),
    (b"fn f() { let t: (u8, i64) = (1, 2); }", None),
    (
        b"fn f() { let t: (u8, i64) = (1, 2u8); }",
        Some((Code::E07, 32, 35)),
    ),
    (
        b"fn f() { let t: (u8,) = (300,); }",
        Some((Code::E07, 25, 28)),
    ),
    (b"fn f() -> (i32, bool) { (1, true) }", None),
    (
        b"fn f() -> (i32, bool) { (true, 1) }",
        Some((Code::E07, 25, 29)),
    ),
    (b"fn f() -> ((u8, bool), i16) { ((1, false), 2) }", None),
    (
        b"fn f() -> ((u8, bool), i16) { ((1, 2), 2) }",
        Some((Code::E07, 35, 36)),
    ),
    (b"fn f() -> (i32,) { (1,) }", None),
    (b"fn f() -> (i32,) { (1) }", Some((Code::E07, 20, 21))),
    (b"fn f() -> i32 { (1) }", None),
    (b"fn f() -> () { () }", None),
    (b"fn f() { let t: (i32, ()) = (1, ()); }", None),
    (b"fn f() { let t: (i32, ()) = (1, { }); }", None),
];

/// A tuple gives the types of its parts, and gives down what is expected of them.
#[test]
fn parts_have_types(rt: HostRuntime) {
    expect(&rt, rt.alloc(), &MADE);
}

const COUNTED: [Row; 13] = [
    (
        b"fn f() { let t: (i32, bool) = (1, true, 2); }",
        Some((Code::E07, 30, 42)),
    ),
    (
        b"fn f() { let t: (i32, bool) = (1,); }",
        Some((Code::E07, 30, 34)),
    ),
    (
        b"fn f() { let t: (i32, bool) = (); }",
        Some((Code::E07, 30, 32)),
    ),
    (
        b"fn f() { let t: i32 = (1, 2); }",
        Some((Code::E07, 22, 28)),
    ),
    (b"fn f() { let t: () = (1, 2); }", Some((Code::E07, 21, 27))),
    (
        b"fn f() { let t: (u8,) = (1, x); }",
        Some((Code::E05, 28, 29)),
    ),
    (
        b"fn f() { let t: (u8, bool) = (1u16, x); }",
        Some((Code::E07, 30, 34)),
    ),
    (
        b"fn f() { let t: i32 = (x, y); }",
        Some((Code::E05, 23, 24)),
    ),
    (b"fn f() { if (1, 2) { } }", Some((Code::E07, 12, 18))),
    (
        b"fn f() { let t = (1, 2) + (3, 4); }",
        Some((Code::E07, 17, 23)),
    ),
    (
        b"fn f() { let t = (1, 2) == (1, 2); }",
        Some((Code::E07, 17, 23)),
    ),
    (b"fn f() { let t = -(1, 2); }", Some((Code::E07, 18, 24))),
    (
        b"fn f() { let t = !(true, true); }",
        Some((Code::E07, 18, 30)),
    ),
];

/// Another number of parts, or another type, is refused at the tuple once its parts are typed.
#[test]
fn parts_are_as_many(rt: HostRuntime) {
    expect(&rt, rt.alloc(), &COUNTED);
}

const PARTS: [Row; 16] = [
    (b"fn f(t: (i32, bool)) -> i32 { t.0 }", None),
    (b"fn f(t: (i32, bool)) -> bool { t.1 }", None),
    (
        b"fn f(t: (i32, bool)) -> bool { t.0 }",
        Some((Code::E07, 31, 34)),
    ),
    (b"fn f(t: (i32, bool)) { t.2; }", Some((Code::E05, 25, 26))),
    (
        b"fn f(t: (i32, bool)) { t.99999999999; }",
        Some((Code::E05, 25, 36)),
    ),
    (b"fn f(t: ()) { t.0; }", Some((Code::E05, 16, 17))),
    (b"fn f(t: i32) { t.0; }", Some((Code::E05, 17, 18))),
    (b"fn f() { x.0; }", Some((Code::E05, 9, 10))),
    (b"fn f(t: ((u8, i8), bool)) -> i8 { (t.0).1 }", None),
    (b"fn f(t: ((u8, i8), bool)) -> i8 { t.0.1 }", None),
    (
        b"fn f(t: ((u8, i8), bool)) { t.1.0; }",
        Some((Code::E05, 32, 33)),
    ),
    (b"fn f() -> bool { (1, true).1 }", None),
    (b"fn f() -> u8 { (1, true).0 }", Some((Code::E07, 15, 26))),
    (
        b"fn g() -> (i32, bool) { (1, true) } fn f() -> i32 { g().0 }",
        None,
    ),
    (b"fn f(t: (i32, bool)) -> i32 { t.0 + 1 }", None),
    (b"fn f(t: (i64, bool)) -> i64 { 1 + t.0 }", None),
];

/// A part is told by its number, at which one that is not there is refused.
#[test]
fn parts_have_numbers(rt: HostRuntime) {
    expect(&rt, rt.alloc(), &PARTS);
}

const WRITTEN: [Row; 14] = [
    (b"fn f() { let mut t = (1, true); t.0 = 2; }", None),
    (
        b"fn f() { let t = (1, true); t.0 = 2; }",
        Some((Code::E22, 28, 31)),
    ),
    (
        b"fn f(t: (i32, bool)) { t.1 = false; }",
        Some((Code::E22, 23, 26)),
    ),
    (b"fn f(mut t: (i32, bool)) { t.1 = false; }", None),
    (
        b"fn f(mut t: (i32, bool)) { t.1 = 2; }",
        Some((Code::E07, 33, 34)),
    ),
    (
        b"fn f(mut t: ((i32, u8), bool)) { t.0.1 = 2; t.0.0 += 1; t = ((1, 2), true); }",
        None,
    ),
    (
        b"fn f(t: ((i32, u8), bool)) { t.0.1 += 2; }",
        Some((Code::E22, 29, 34)),
    ),
    (
        b"fn f(mut t: (i32, bool)) { t.1 += 2; }",
        Some((Code::E07, 34, 35)),
    ),
    (
        b"fn f(mut t: (i32, bool)) { t.1 += true; }",
        Some((Code::E07, 27, 30)),
    ),
    (
        b"fn f(mut t: (i32, bool)) { t += t; }",
        Some((Code::E07, 27, 28)),
    ),
    (
        b"fn g() -> (i32, bool) { (1, true) } fn f() { g().0 = 2; }",
        None,
    ),
    (b"fn f() { (1, true).0 = 2; }", None),
    (
        b"fn f(mut t: (i32, bool)) { t.2 = 1; }",
        Some((Code::E05, 29, 30)),
    ),
    (
        b"fn f(mut t: (i32, bool)) { t.0 = x; }",
        Some((Code::E05, 33, 34)),
    ),
];

/// A part of a variable is written where the variable is mutable; a part of what is no variable is lost.
#[test]
fn parts_are_written(rt: HostRuntime) {
    expect(&rt, rt.alloc(), &WRITTEN);
}

const AROUND: [Row; 15] = [
    (
        b"fn g(t: (i32, bool)) -> (bool, i32) { (t.1, t.0) } fn f() -> (bool, i32) { g((1, true)) }",
        None,
    ),
    (b"fn g(t: (u8, bool)) {} fn f() { g((1, true)); }", None),
    (
        b"fn g(t: (u8, bool)) {} fn f() { g((1, 2)); }",
        Some((Code::E07, 38, 39)),
    ),
    (
        b"fn g(t: (u8, bool)) {} fn f(t: (i32, bool)) { g(t); }",
        Some((Code::E07, 48, 49)),
    ),
    (
        b"fn f(b: bool) -> (u8, u8) { if b { (1, 2) } else { (3, 4) } }",
        None,
    ),
    (
        b"fn f(b: bool) { let t = if b { (1, 2u8) } else { (3, 4) }; }",
        None,
    ),
    (
        b"fn f(b: bool) { let t = if b { (1, 2u8) } else { (3, 4i8) }; }",
        Some((Code::E07, 53, 56)),
    ),
    (b"fn f() -> (i32, bool) { panic!() }", None),
    (b"fn f() -> (i32, bool) { return (1, true); }", None),
    (
        b"fn f() -> (i32, bool) { return (1, 2); }",
        Some((Code::E07, 35, 36)),
    ),
    (b"fn f() -> (i32, bool) { (1, return (1, true)) }", None),
    (b"fn f() { loop { (1, break); } }", None),
    (
        b"fn f() -> i32 { loop { (1, break).0; } }",
        Some((Code::E07, 16, 38)),
    ),
    (
        b"fn f(b: bool) { let mut t = (1, b); while t.1 { t.1 = false; } }",
        None,
    ),
    (
        b"fn f(t: (u8, i8, i64, bool, (usize, u16))) -> u16 { t.4.1 }",
        None,
    ),
];

/// Tuples stand in calls, blocks, branches and loops as other values do.
#[test]
fn tuples_stand_everywhere(rt: HostRuntime) {
    expect(&rt, rt.alloc(), &AROUND);
}

const TYPES: [Row; 6] = [
    (b"fn f(t: (i32, &bool)) {}", Some((Code::E20, 8, 20))),
    (b"struct S; fn f(t: (i32, S)) -> S { t.1 }", None),
    (
        b"struct i32; fn f(t: (bool, i32)) {}",
        Some((Code::E20, 20, 31)),
    ),
    (b"fn f() -> (i32, Box<i32>) { panic!() }", None),
    (
        b"fn f() { let t: (i32, (bool, &i32)) = x; }",
        Some((Code::E20, 16, 35)),
    ),
    (b"fn f(t: (i32, (bool, u8))) -> (bool, u8) { t.1 }", None),
];

/// A tuple is built where all that stands in its type is, else it is refused as a whole; no declared type is whose name is a word of types.
#[test]
fn types_of_tuples_are_read(rt: HostRuntime) {
    expect(&rt, rt.alloc(), &TYPES);
}
