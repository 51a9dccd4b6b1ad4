//! What leaves, from the texts of sources: `panic!`, `unreachable!`, `return` and `loop`, and the blocks and choices that end with them.
use crate::assigning::{Row, expect};
use std::test::Fail;
use text_core::Code;

const ANSWERS: [Row; 13] = [
    (b"fn f() -> i32 { panic!() }", None),
    (b"fn f() -> bool { unreachable!() }", None),
    (b"fn f() { panic!(\"never\") }", None),
    (b"fn f() -> i32 { panic!(); }", None),
    (b"fn f() -> bool { let x = 1; unreachable!(); }", None),
    (b"fn f() -> i32 { let x = panic!(); }", None),
    (b"fn f() -> i32 { { panic!(); } }", None),
    (b"fn f() -> i32 { { panic!() } }", None),
    (b"fn f() -> i32 { let x = { { panic!(); } }; }", None),
    (b"fn f() -> i32 { { panic!(); } true; 1 }", None),
    (
        b"fn f() -> i32 { panic!(); let x = 1; }",
        Some((Code::E07, 14, 38)),
    ),
    (
        b"fn f() -> i32 { { panic!(); 1; } }",
        Some((Code::E07, 16, 32)),
    ),
    (
        b"fn f() -> i32 { panic!(); true }",
        Some((Code::E07, 26, 30)),
    ),
];

/// What panics fits every answer, and so does a block whose last statement or last expression leaves.
#[test]
fn answers_that_leave(rt: HostRuntime) {
    expect(&rt, rt.alloc(), &ANSWERS);
}

const VALUES: [Row; 10] = [
    (b"fn f() { let x: i32 = panic!(); }", None),
    (b"fn f() -> i32 { let x: bool = unreachable!(); 1 }", None),
    (
        b"fn f() { let x: i32 = { panic!(); }; let y: i32 = x; }",
        None,
    ),
    (
        b"fn f() { let x: i32 = { let y = true; panic!(); }; 1; }",
        None,
    ),
    (b"fn f(mut x: i32) { x = panic!(); }", None),
    (
        b"fn g(x: i32, y: bool) -> i32 { x } fn f() -> i32 { g(panic!(), unreachable!()) }",
        None,
    ),
    (
        b"fn f() { let x = panic!(); let y: i32 = x; }",
        Some((Code::E07, 40, 41)),
    ),
    (
        b"fn f() { let x = { panic!(); }; let y: i32 = x; }",
        Some((Code::E07, 45, 46)),
    ),
    (
        b"fn f() { let x = { panic!() }; let y: bool = x; }",
        Some((Code::E07, 45, 46)),
    ),
    (
        b"fn g(x: i32) {} fn f() { g(panic!()); g({ panic!(); 1; }) }",
        Some((Code::E07, 40, 56)),
    ),
];

/// A value fits the type that is written; without one it is unit.
#[test]
fn values_that_leave(rt: HostRuntime) {
    expect(&rt, rt.alloc(), &VALUES);
}

const SIDES: [Row; 12] = [
    (
        b"fn f(c: bool) -> i32 { if c { panic!() } else { 1 } }",
        None,
    ),
    (
        b"fn f(c: bool) -> i32 { if c { 1 } else { panic!() } }",
        None,
    ),
    (
        b"fn f(c: bool) -> i32 { if c { panic!(); } else { 1 } }",
        None,
    ),
    (
        b"fn f(c: bool) -> i32 { if c { 1 } else { panic!(); } }",
        None,
    ),
    (
        b"fn f(c: bool) -> i32 { if c { panic!() } else { true } }",
        Some((Code::E07, 48, 52)),
    ),
    (
        b"fn f(c: bool) { let x = if c { panic!() } else { 5u8 }; let y: u8 = x; }",
        None,
    ),
    (
        b"fn f(c: bool) { let x = if c { panic!(); } else { true }; let y: bool = x; }",
        None,
    ),
    (
        b"fn f(c: bool) { let x = if c { 5u8 } else { panic!() }; let y: u8 = x; }",
        None,
    ),
    (
        b"fn f(c: bool) { let x = if c { panic!() } else { 1 }; let y: i32 = x; }",
        None,
    ),
    (
        b"fn f(c: bool) { let x = if c { panic!() } else { 5u8 }; let y: i32 = x; }",
        Some((Code::E07, 69, 70)),
    ),
    (
        b"fn f(c: bool) { let x = if c { 1u8 } else { 2i32 }; }",
        Some((Code::E07, 44, 48)),
    ),
    (
        b"fn f(c: bool) { let x = if c { panic!(); 1u8 } else { 2i32 }; }",
        Some((Code::E07, 54, 58)),
    ),
];

/// A side that leaves fits, whichever it is, and gives the other no type.
#[test]
fn sides_that_leave(rt: HostRuntime) {
    expect(&rt, rt.alloc(), &SIDES);
}

const BOTH: [Row; 7] = [
    (
        b"fn f(c: bool) -> i32 { if c { panic!() } else { unreachable!() } }",
        None,
    ),
    (
        b"fn f(c: bool) -> i32 { if c { panic!(); } else { unreachable!(); } }",
        None,
    ),
    (
        b"fn f(c: bool) -> i32 { let x = if c { panic!() } else { panic!() }; }",
        None,
    ),
    (
        b"fn f(c: bool) { let x = if c { panic!() } else { panic!() }; let y: i32 = x; }",
        Some((Code::E07, 74, 75)),
    ),
    (b"fn f(c: bool) -> i32 { if c { panic!(); } 1 }", None),
    (
        b"fn f(c: bool) -> i32 { if c { panic!(); } }",
        Some((Code::E07, 23, 41)),
    ),
    (
        b"fn f(c: bool) -> i32 { let x = if c { panic!() } else { unreachable!() }; true }",
        Some((Code::E07, 74, 78)),
    ),
];

/// Where both sides leave the whole does; an `if` without `else` does not.
#[test]
fn whole_choices_that_leave(rt: HostRuntime) {
    expect(&rt, rt.alloc(), &BOTH);
}

const CHAINS: [Row; 8] = [
    (
        b"fn f(c: bool, d: bool) { let x = if c { panic!() } else if d { panic!() } else { 5u8 }; let y: u8 = x; }",
        None,
    ),
    (
        b"fn f(c: bool, d: bool) { let x = if c { panic!() } else if d { 5u8 } else { panic!() }; let y: u8 = x; }",
        None,
    ),
    (
        b"fn f(c: bool, d: bool) { let x = if c { 5u8 } else if d { panic!() } else { 5i32 }; }",
        Some((Code::E07, 76, 80)),
    ),
    (
        b"fn f(c: bool, d: bool) { let x = if c { panic!() } else if d { 5u8 } else { 5i32 }; }",
        Some((Code::E07, 76, 80)),
    ),
    (
        b"fn f(c: bool, d: bool) -> i32 { if c { panic!() } else if d { panic!() } else { panic!() } }",
        None,
    ),
    (
        b"fn f(c: bool, d: bool) -> i32 { let x = if c { panic!() } else if d { panic!() } else { panic!() }; }",
        None,
    ),
    (
        b"fn f(c: bool, d: bool) -> i32 { let x = if c { panic!() } else if d { 1 } else { panic!() }; }",
        Some((Code::E07, 30, 94)),
    ),
    (
        b"fn f(c: bool, d: bool) -> i32 { if c { panic!() } else if d { panic!() } }",
        Some((Code::E07, 55, 72)),
    ),
];

/// In a chain of `else if` the first side that has a value gives the others its type.
#[test]
fn chains_that_leave(rt: HostRuntime) {
    expect(&rt, rt.alloc(), &CHAINS);
}

const OPERANDS: [Row; 10] = [
    (b"fn f() { let x = -panic!(); }", Some((Code::E07, 18, 26))),
    (
        b"fn f() { let x = -{ panic!(); }; }",
        Some((Code::E07, 18, 31)),
    ),
    (
        b"fn f() { let x = panic!() + panic!(); }",
        Some((Code::E07, 17, 25)),
    ),
    (
        b"fn f() { let x = panic!() + 1; }",
        Some((Code::E07, 28, 29)),
    ),
    (b"fn f() -> i32 { 1 + panic!() }", None),
    (b"fn f(c: bool) -> bool { c && panic!() }", None),
    (b"fn f(c: bool) { let x: bool = c == panic!(); }", None),
    (b"fn f() { let x: bool = !panic!(); }", None),
    (b"fn f() { if panic!() {} }", None),
    (b"fn f() { while unreachable!() {} }", None),
];

/// An operand fits the type that is asked of it. Without one it is unit, which no operator takes.
#[test]
fn operands_that_leave(rt: HostRuntime) {
    expect(&rt, rt.alloc(), &OPERANDS);
}

const INVARIANTS: [Row; 8] = [
    (
        b"fn f(b: bool) -> i32 { #[invariant(b)] while b {} panic!(); }",
        None,
    ),
    (
        b"fn f(b: bool) -> i32 { let x = { #[invariant(b)] while b {} panic!() }; }",
        None,
    ),
    (
        b"fn f() -> i32 { #[invariant(z)] while false {} panic!(); }",
        Some((Code::E05, 28, 29)),
    ),
    (
        b"fn f() -> i32 { let x = { #[invariant(z)] while false {} panic!() }; }",
        Some((Code::E05, 38, 39)),
    ),
    (
        b"fn f() -> i32 { let x = { #[invariant(z)] while false {} panic!(); }; }",
        Some((Code::E05, 38, 39)),
    ),
    (
        b"fn f() -> i32 { #[invariant(y)] while false {} let x = { #[invariant(z)] while false {} panic!() }; }",
        Some((Code::E05, 28, 29)),
    ),
    (
        b"fn f(c: bool) -> i32 { let x = if c { panic!() } else { #[invariant(z)] while false {} panic!() }; }",
        Some((Code::E05, 68, 69)),
    ),
    (
        b"fn f() -> i32 { 1; let x = { panic!(); { #[invariant(z)] while false {} panic!(); } }; }",
        Some((Code::E05, 53, 54)),
    ),
];

/// Invariants are looked at before the last statement and in it, in source order.
#[test]
fn invariants_around_what_leaves(rt: HostRuntime) {
    expect(&rt, rt.alloc(), &INVARIANTS);
}

const RETURNS: [Row; 16] = [
    (b"fn f() -> i32 { return 5; }", None),
    (b"fn f() -> i32 { return 5 }", None),
    (b"fn f() { return; }", None),
    (b"fn f() { return }", None),
    (b"fn f() -> u8 { return 5; }", None),
    (b"fn f() -> u8 { return 256; }", Some((Code::E07, 22, 25))),
    (b"fn f() -> bool { return 5; }", Some((Code::E07, 24, 25))),
    (b"fn f() -> i32 { return; }", Some((Code::E07, 16, 22))),
    (b"fn f() { return 5; }", Some((Code::E07, 16, 17))),
    (b"fn f(b: bool) -> i32 { if b { return 1; } 2 }", None),
    (
        b"fn f(b: bool) -> i32 { if b { return; } 2 }",
        Some((Code::E07, 30, 36)),
    ),
    (b"fn f(b: bool) -> i32 { while b { return 1; } 2 }", None),
    (
        b"fn f(b: bool) -> i32 { if b { return true; } 2 }",
        Some((Code::E07, 37, 41)),
    ),
    (b"fn f() -> i32 { return z; }", Some((Code::E05, 23, 24))),
    (b"fn f() -> i32 { return return 5; }", None),
    (b"fn f() -> i32 { return panic!(); }", None),
];

/// A `return` asks of its value the answer's type, and without one that this is unit.
#[test]
fn answers_that_are_returned(rt: HostRuntime) {
    expect(&rt, rt.alloc(), &RETURNS);
}

const RETURNING: [Row; 10] = [
    (b"fn f() -> i32 { let x: bool = return 5; }", None),
    (b"fn f() -> i32 { let x: bool = return 5; 1 }", None),
    (
        b"fn f() -> i32 { let x = return 5; let y: i32 = x; y }",
        Some((Code::E07, 47, 48)),
    ),
    (b"fn f() -> i32 { let x = return 5; return 6; }", None),
    (b"fn f() { let x: i32 = return; }", None),
    (
        b"fn f(b: bool) -> i32 { let x = if b { return 1 } else { 5u8 }; let y: u8 = x; 0 }",
        None,
    ),
    (
        b"fn f(b: bool) -> i32 { let x = if b { 5u8 } else { return 1 }; let y: u8 = x; 0 }",
        None,
    ),
    (
        b"fn f(b: bool) -> i32 { if b { return 1; } else { return 2; } }",
        None,
    ),
    (
        b"fn f(b: bool) -> i32 { if b { return 1; } else { return true; } }",
        Some((Code::E07, 56, 60)),
    ),
    (
        b"fn f() -> i32 { return 5; true }",
        Some((Code::E07, 26, 30)),
    ),
];

/// It fits every type itself, and without an expected one it is unit.
#[test]
fn values_that_return(rt: HostRuntime) {
    expect(&rt, rt.alloc(), &RETURNING);
}

const LOOPS: [Row; 15] = [
    (b"fn f() { loop {} }", None),
    (b"fn f() -> i32 { loop {} }", None),
    (b"fn f() -> i32 { loop {} 1 }", None),
    (b"fn f() -> i32 { loop { return 5; } }", None),
    (b"fn f() -> i32 { loop { return 5 } }", None),
    (b"fn f() -> i32 { loop { 5 } }", Some((Code::E07, 23, 24))),
    (b"fn f() -> bool { let x: i32 = loop {}; }", None),
    (
        b"fn f() -> bool { let x = loop {}; let y: i32 = x; y }",
        Some((Code::E07, 47, 48)),
    ),
    (
        b"fn f(b: bool) -> i32 { if b { loop {} } else { 1 } }",
        None,
    ),
    (
        b"fn f(b: bool) -> i32 { if b { loop {} } else { return 1; } }",
        None,
    ),
    (b"fn f(b: bool) -> i32 { #[invariant(b)] loop {} }", None),
    (
        b"fn f(b: bool) -> i32 { #[invariant(b)] #[invariant(true)] loop { return 1; } }",
        None,
    ),
    (
        b"fn f() -> i32 { #[invariant(z)] loop {} }",
        Some((Code::E05, 28, 29)),
    ),
    (
        b"fn f() -> i32 { loop { #[invariant(z)] while false {} } }",
        Some((Code::E05, 35, 36)),
    ),
    (b"fn f() -> i32 { loop { z; } }", Some((Code::E05, 23, 24))),
];

/// A `loop` leaves, and its body is unit.
#[test]
fn loops_that_are_not_left(rt: HostRuntime) {
    expect(&rt, rt.alloc(), &LOOPS);
}
