//! Casts, from the texts of sources.
use crate::assigning::{Row, expect};
use std::test::Fail;
use text_core::Code;

const LOSSLESS: [Row; 13] = [
    (b"fn f(x: u8) -> u16 { x as u16 }", None),
    (b"fn f(x: u8) -> u8 { x as u8 }", None),
    (b"fn f(x: i8) -> i64 { x as i64 }", None),
    (b"fn f(x: u32) -> i64 { x as i64 }", None),
    (b"fn f(x: u64) -> usize { x as usize }", None),
    (b"fn f(x: usize) -> u64 { x as u64 }", None),
    (b"fn f(x: isize) -> i64 { x as i64 }", None),
    (b"fn f(x: u16) -> u8 { x as u8 }", Some((Code::E07, 21, 28))),
    (b"fn f(x: i8) -> u8 { x as u8 }", Some((Code::E07, 20, 27))),
    (b"fn f(x: u8) -> i8 { x as i8 }", Some((Code::E07, 20, 27))),
    (
        b"fn f(x: i8) -> u64 { x as u64 }",
        Some((Code::E07, 21, 29)),
    ),
    (
        b"fn f(x: u64) -> i64 { x as i64 }",
        Some((Code::E07, 22, 30)),
    ),
    (
        b"fn f(x: i64) -> usize { x as usize }",
        Some((Code::E07, 24, 34)),
    ),
];

/// Each integer of the first type has to be one of the second; else the whole is refused.
#[test]
fn casts_lose_nothing(rt: HostRuntime) {
    expect(&rt, rt.alloc(), &LOSSLESS);
}

const KINDS: [Row; 13] = [
    (
        b"fn f(b: bool) -> u8 { b as u8 }",
        Some((Code::E07, 22, 23)),
    ),
    (
        b"fn f(x: u8) -> bool { x as bool }",
        Some((Code::E07, 27, 31)),
    ),
    (
        b"fn f(b: bool) -> bool { b as bool }",
        Some((Code::E07, 24, 25)),
    ),
    (b"fn f(x: u8) { x as (u8, u8); }", Some((Code::E07, 19, 27))),
    (
        b"struct S; fn f(x: u8) { x as S; }",
        Some((Code::E07, 29, 30)),
    ),
    (
        b"struct S; fn f(s: S) { s as u8; }",
        Some((Code::E07, 23, 24)),
    ),
    (b"fn f(x: u8) { x as T; }", Some((Code::E05, 19, 20))),
    (b"fn f(x: u8) { x as Int; }", Some((Code::E05, 19, 22))),
    (b"fn f(x: u8) { x as &u8; }", Some((Code::E20, 19, 22))),
    (b"fn f() { y as T; }", Some((Code::E05, 9, 10))),
    (
        b"fn f() -> u8 { panic!() as u8 }",
        Some((Code::E07, 15, 23)),
    ),
    (
        b"fn f() -> u8 { (if true { }) as u8 }",
        Some((Code::E07, 16, 27)),
    ),
    (b"fn f(t: (u8, i8)) -> u16 { t.0 as u16 }", None),
];

/// The operand is looked at before the written type, and each is refused at itself.
#[test]
fn casts_are_of_integers(rt: HostRuntime) {
    expect(&rt, rt.alloc(), &KINDS);
}

const LITERALS: [Row; 15] = [
    (b"fn f() -> u8 { 200 as u8 }", None),
    (b"fn f() -> u64 { 18446744073709551615 as u64 }", None),
    (b"fn f() -> u8 { 300 as u8 }", Some((Code::E07, 15, 18))),
    (b"fn f() { 1 as bool; }", Some((Code::E07, 9, 10))),
    (b"fn f() { 1 as T; }", Some((Code::E05, 14, 15))),
    (b"fn f() -> u64 { 5u8 as u64 }", None),
    (b"fn f() -> u8 { 5i32 as u8 }", Some((Code::E07, 15, 25))),
    (b"fn f() { 5u8 as bool; }", Some((Code::E07, 16, 20))),
    (b"fn f() -> i8 { -1 as i8 }", None),
    (b"fn f() -> u8 { -1 as u8 }", Some((Code::E07, 15, 17))),
    (b"fn f(x: i8) -> i16 { -x as i16 }", None),
    (b"fn f() -> i64 { (1 + 2) as i64 }", None),
    (b"fn f() -> u8 { (1 + 2) as u8 }", Some((Code::E07, 15, 28))),
    (b"fn f() -> u8 { (7) as u8 }", None),
    (b"fn f() { let x = 3 as u8; let y: u8 = x; }", None),
];

/// An integer without a type at its end takes the written one where it is itself the operand.
#[test]
fn an_integer_without_a_type_takes_it(rt: HostRuntime) {
    expect(&rt, rt.alloc(), &LITERALS);
}

const AROUND: [Row; 15] = [
    (
        b"fn f(x: u8) -> u32 { x as u16 }",
        Some((Code::E07, 21, 29)),
    ),
    (
        b"fn f(x: u8) { let y: bool = x as u16; }",
        Some((Code::E07, 28, 36)),
    ),
    (b"fn f(x: u8, y: u8) -> u16 { x as u16 + y as u16 }", None),
    (
        b"fn f(x: u8, y: u16) -> u16 { y + x }",
        Some((Code::E07, 33, 34)),
    ),
    (b"fn f(x: u8, y: u16) -> u16 { y + x as u16 }", None),
    (b"fn f(x: u8) -> bool { (x as u16) < 300 }", None),
    (b"fn f(x: u8) -> bool { 300 < x as u16 }", None),
    (
        b"fn f(x: u8) -> bool { 300 < x }",
        Some((Code::E07, 22, 25)),
    ),
    (b"fn f(x: u8) -> i32 { -(x as i32) }", None),
    (b"fn g(x: i64) {} fn f(x: i32) { g(x as i64); }", None),
    (
        b"fn g(x: i64) {} fn f(x: i32) { g(x); }",
        Some((Code::E07, 33, 34)),
    ),
    (b"fn f(x: u8) { x as u16 = 3; }", None),
    (
        b"fn f(x: u8) { x as u16 = 300000; }",
        Some((Code::E07, 25, 31)),
    ),
    (
        b"fn f(b: bool, x: u8, y: u16) -> u16 { if b { x as u16 } else { y } }",
        None,
    ),
    (
        b"fn f(mut x: u16, y: u8) { while x < y as u16 { x += y as u16; } }",
        None,
    ),
];

/// A cast has the written type wherever it stands, and names no place.
#[test]
fn casts_stand_everywhere(rt: HostRuntime) {
    expect(&rt, rt.alloc(), &AROUND);
}

const CHAINS: [Row; 10] = [
    (b"fn f(x: u8) -> u32 { x as u16 as u32 }", None),
    (
        b"fn f(x: u32) -> u64 { x as u16 as u64 }",
        Some((Code::E07, 22, 30)),
    ),
    (
        b"fn f(x: u8) -> u16 { x as u32 as u16 }",
        Some((Code::E07, 21, 36)),
    ),
    (
        b"fn f(x: u8) -> u16 { x as bool as u16 }",
        Some((Code::E07, 26, 30)),
    ),
    (
        b"fn f(x: u8) -> bool { x as u16 as bool }",
        Some((Code::E07, 34, 38)),
    ),
    (b"fn f() -> u32 { 200 as u8 as u32 }", None),
    (
        b"fn f() -> u32 { 300 as u8 as u32 }",
        Some((Code::E07, 16, 19)),
    ),
    (
        b"fn f(x: u8) -> i64 { x as u8 as u16 as i32 as i32 as i64 as isize as i64 }",
        None,
    ),
    (
        b"fn f(x: u8, y: u16) -> u32 { (x as u16 + y) as u32 + x as u32 * 2 }",
        None,
    ),
    (
        b"fn f(x: u8, y: u16) -> u32 { (x as u16 + y) as u32 + y as T }",
        Some((Code::E05, 58, 59)),
    ),
];

/// Casts group to the left, and the innermost is looked at first.
#[test]
fn casts_of_casts(rt: HostRuntime) {
    expect(&rt, rt.alloc(), &CHAINS);
}
