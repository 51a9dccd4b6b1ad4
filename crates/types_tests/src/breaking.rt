//! `break` and `continue`, and the loops around them, from the texts of sources.
use crate::assigning::{Row, expect};
use std::test::Fail;
use text_core::Code;

const STRAY: [Row; 13] = [
    (b"fn f() { break; }", Some((Code::E07, 9, 14))),
    (b"fn f() { continue; }", Some((Code::E07, 9, 17))),
    (b"fn f() { break }", Some((Code::E07, 9, 14))),
    (b"fn f() -> i32 { continue }", Some((Code::E07, 16, 24))),
    (b"fn f() { { 1; break } }", Some((Code::E07, 14, 19))),
    (
        b"fn f(b: bool) { if b { break; } }",
        Some((Code::E07, 23, 28)),
    ),
    (
        b"fn f(b: bool) { if b { 1; } else { continue; } }",
        Some((Code::E07, 35, 43)),
    ),
    (
        b"fn f() -> i32 { return break; }",
        Some((Code::E07, 23, 28)),
    ),
    (
        b"fn f() { let x: i32 = continue; }",
        Some((Code::E07, 22, 30)),
    ),
    (
        b"fn f() { loop { break; } break; }",
        Some((Code::E07, 25, 30)),
    ),
    (
        b"fn f(b: bool) { while b { continue; } continue; }",
        Some((Code::E07, 38, 46)),
    ),
    (b"fn f() { break; z; }", Some((Code::E07, 9, 14))),
    (b"fn f() { z; break; }", Some((Code::E05, 9, 10))),
];

/// Outside of a loop each is refused at itself.
#[test]
fn a_loop_is_around(rt: HostRuntime) {
    expect(&rt, rt.alloc(), &STRAY);
}

const IN_LOOPS: [Row; 12] = [
    (b"fn f(b: bool) { while b { break; } }", None),
    (b"fn f(b: bool) { while b { continue; } }", None),
    (b"fn f() { loop { break; } }", None),
    (b"fn f() { loop { continue; } }", None),
    (b"fn f() { loop { break } }", None),
    (b"fn f(b: bool) { while b { continue } }", None),
    (
        b"fn f(b: bool) { while b { if b { break; } else { continue; } } }",
        None,
    ),
    (
        b"fn f(b: bool) { #[invariant(b)] while b { { 1; break; } } }",
        None,
    ),
    (
        b"fn f(b: bool) { #[invariant(b)] loop { if b { break; } } }",
        None,
    ),
    (
        b"fn f(b: bool) { while b { loop { break; } continue; } }",
        None,
    ),
    (b"fn f() { loop { if { break } {} } }", None),
    (
        b"fn f(b: bool) { loop { break; 5 } }",
        Some((Code::E07, 30, 31)),
    ),
];

/// They stand in the body of a `while` and of a `loop`, at any depth.
#[test]
fn bodies_of_loops_are_in_them(rt: HostRuntime) {
    expect(&rt, rt.alloc(), &IN_LOOPS);
}

const CONDITIONS: [Row; 8] = [
    (b"fn f() { while break {} }", Some((Code::E07, 15, 20))),
    (
        b"fn f() { while { continue } {} }",
        Some((Code::E07, 17, 25)),
    ),
    (
        b"fn f() { loop { while break {} } }",
        Some((Code::E07, 22, 27)),
    ),
    (
        b"fn f(b: bool) { while b { while { continue; } {} } }",
        Some((Code::E07, 34, 42)),
    ),
    (
        b"fn f() { #[invariant(true)] while break {} }",
        Some((Code::E07, 34, 39)),
    ),
    (b"fn f() { while { loop { break; } true } {} }", None),
    (
        b"fn f(b: bool) { while { while b { continue; } b } { break; } }",
        None,
    ),
    (b"fn f() { loop { while { return; } { break; } } }", None),
];

/// The condition of a `while` is in no loop, neither its own nor one around it.
#[test]
fn conditions_are_in_no_loop(rt: HostRuntime) {
    expect(&rt, rt.alloc(), &CONDITIONS);
}

const LEFT: [Row; 14] = [
    (
        b"fn f(c: bool) -> i32 { loop { if c { break; } } }",
        Some((Code::E07, 23, 47)),
    ),
    (
        b"fn f(c: bool) -> i32 { loop { if c { continue; } } }",
        None,
    ),
    (
        b"fn f(c: bool) -> i32 { loop { if c { return 1; } } }",
        None,
    ),
    (b"fn f(c: bool) { loop { if c { break; } } }", None),
    (b"fn f(c: bool) -> i32 { loop { if c { break; } } 1 }", None),
    (
        b"fn f(c: bool) -> i32 { loop { if c { break; } } true }",
        Some((Code::E07, 48, 52)),
    ),
    (
        b"fn f() -> i32 { #[invariant(true)] loop { continue; } }",
        None,
    ),
    (
        b"fn f() -> i32 { #[invariant(true)] loop { break; } }",
        Some((Code::E07, 16, 50)),
    ),
    (
        b"fn f() { let x: i32 = loop { break; }; }",
        Some((Code::E07, 22, 37)),
    ),
    (
        b"fn f() { let x = loop { break; }; let y: i32 = x; }",
        Some((Code::E07, 47, 48)),
    ),
    (
        b"fn f(c: bool) { let x = if c { loop { break; } } else { 5 }; }",
        Some((Code::E07, 56, 57)),
    ),
    (
        b"fn f(c: bool) -> i32 { if c { loop { continue; } } else { 5 } }",
        None,
    ),
    (b"fn f() -> i32 { loop { break; } loop {} }", None),
    (
        b"fn f() -> i32 { { loop { break; } 1; } }",
        Some((Code::E07, 16, 38)),
    ),
];

/// A `loop` that a `break` of its own leaves is unit; without one it fits every type.
#[test]
fn loops_that_are_left_are_unit(rt: HostRuntime) {
    expect(&rt, rt.alloc(), &LEFT);
}

const NESTED: [Row; 7] = [
    (b"fn f() -> i32 { loop { loop { break; } } }", None),
    (
        b"fn f() -> i32 { loop { loop { break; } break; } }",
        Some((Code::E07, 16, 47)),
    ),
    (
        b"fn f(c: bool) -> i32 { loop { while c { break; } } }",
        None,
    ),
    (
        b"fn f(c: bool) -> i32 { loop { while c { break; } if c { break; } } }",
        Some((Code::E07, 23, 66)),
    ),
    (
        b"fn f() -> i32 { loop { break; loop {} } }",
        Some((Code::E07, 16, 39)),
    ),
    (
        b"fn f() -> i32 { loop { let x = loop { break; }; let y: i32 = x; } }",
        Some((Code::E07, 61, 62)),
    ),
    (
        b"fn f() -> i32 { loop { loop { loop { break; } break; } } }",
        None,
    ),
];

/// A `break` leaves the innermost loop around it alone.
#[test]
fn an_inner_loop_has_its_own(rt: HostRuntime) {
    expect(&rt, rt.alloc(), &NESTED);
}

const PARTS: [Row; 17] = [
    (
        b"fn f() -> i32 { loop { let x: i32 = -break; } }",
        Some((Code::E07, 16, 45)),
    ),
    (
        b"fn f() -> i32 { loop { let x: bool = !break; } }",
        Some((Code::E07, 16, 46)),
    ),
    (
        b"fn f() -> i32 { loop { let x: i32 = 1 + break; } }",
        Some((Code::E07, 16, 48)),
    ),
    (
        b"fn f() -> i32 { loop { let x: i32 = break + 1 + 2; } }",
        Some((Code::E07, 16, 52)),
    ),
    (
        b"fn f(c: bool) -> i32 { loop { c && break; } }",
        Some((Code::E07, 23, 43)),
    ),
    (
        b"fn f(c: bool) -> i32 { loop { c && break || c; } }",
        Some((Code::E07, 23, 48)),
    ),
    (
        b"fn f(mut x: i32) -> i32 { loop { x = break; } }",
        Some((Code::E07, 26, 45)),
    ),
    (
        b"fn f(mut x: i32) -> i32 { loop { x += break; } }",
        Some((Code::E07, 26, 46)),
    ),
    (
        b"fn g(x: i32, y: i32) {} fn f() -> i32 { loop { g(1, break); } }",
        Some((Code::E07, 40, 61)),
    ),
    (
        b"fn f() -> i32 { loop { { 1; break } } }",
        Some((Code::E07, 16, 37)),
    ),
    (
        b"fn f() -> i32 { loop { { let x: i32 = break; 1; } } }",
        Some((Code::E07, 16, 51)),
    ),
    (
        b"fn f() -> i32 { loop { { break; } 1; } }",
        Some((Code::E07, 16, 38)),
    ),
    (
        b"fn f() -> i32 { loop { if break {} } }",
        Some((Code::E07, 16, 36)),
    ),
    (
        b"fn f(c: bool) -> i32 { loop { if c { 1; } else { break; } } }",
        Some((Code::E07, 23, 59)),
    ),
    (
        b"fn f(c: bool) -> i32 { loop { if c { break } else { 1; } } }",
        Some((Code::E07, 23, 58)),
    ),
    (
        b"fn f() -> i32 { loop { return break; } }",
        Some((Code::E07, 16, 38)),
    ),
    (
        b"fn g(x: i32, y: i32) {} fn f() -> i32 { loop { g(1, continue); } }",
        None,
    ),
];

/// It leaves the loop from any part of an expression.
#[test]
fn a_break_in_any_part(rt: HostRuntime) {
    expect(&rt, rt.alloc(), &PARTS);
}

const VALUES: [Row; 10] = [
    (b"fn f() { loop { let x: i32 = break; } }", None),
    (
        b"fn f(b: bool) { while b { let x: i32 = continue; } }",
        None,
    ),
    (
        b"fn f(c: bool) { loop { let x = if c { break } else { 5u8 }; let y: u8 = x; } }",
        None,
    ),
    (
        b"fn f(c: bool) { loop { let x = if c { 5u8 } else { continue }; let y: u8 = x; } }",
        None,
    ),
    (
        b"fn f(c: bool) { loop { let x: bool = if c { break; } else { continue; }; } }",
        None,
    ),
    (b"fn f() { loop { let x: i32 = { break; }; } }", None),
    (
        b"fn f() { loop { let x = break; let y: i32 = x; } }",
        Some((Code::E07, 44, 45)),
    ),
    (
        b"fn f() { loop { let x = continue; let y: i32 = x; } }",
        Some((Code::E07, 47, 48)),
    ),
    (
        b"fn f() { loop { let x: i32 = { break; 1; }; } }",
        Some((Code::E07, 29, 42)),
    ),
    (b"fn f() { loop { -break; } }", Some((Code::E07, 17, 22))),
];

/// They fit every type that is asked of them, and are unit without one.
#[test]
fn they_fit_every_type(rt: HostRuntime) {
    expect(&rt, rt.alloc(), &VALUES);
}

const INVARIANTS: [Row; 5] = [
    (
        b"fn f() { #[invariant(z)] loop { break; } }",
        Some((Code::E05, 21, 22)),
    ),
    (
        b"fn f() { loop { #[invariant(z)] loop { break; } break; } }",
        Some((Code::E05, 28, 29)),
    ),
    (
        b"fn f() { #[invariant(y)] loop { #[invariant(z)] while true { break; } break; } }",
        Some((Code::E05, 21, 22)),
    ),
    (
        b"fn f() { loop { break; #[invariant(z)] while false {} } }",
        Some((Code::E05, 35, 36)),
    ),
    (b"fn f() { loop { z; break; } }", Some((Code::E05, 16, 17))),
];

/// Invariants are looked at in a loop that is left as in each other.
#[test]
fn invariants_of_loops_that_are_left(rt: HostRuntime) {
    expect(&rt, rt.alloc(), &INVARIANTS);
}
