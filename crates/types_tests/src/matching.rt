//! `match`, `if let` and `while let`, from the texts of sources. A match that is not flat is not lowered so far, so one that has a type is E20 at its place, where nothing else is refused.
use crate::assigning::{Row, expect};
use std::test::Fail;
use text_core::Code;

const TYPED: [Row; 9] = [
    (
        b"fn f(b: bool) -> i32 { match b { true => 1, false => 2 } }",
        None,
    ),
    (b"fn f(n: u8) -> u8 { match n { 0 => 1, m => m } }", None),
    (
        b"enum E { A(i32), B } fn f(e: E) -> i32 { match e { E::A(x) => x, E::B => 0 } }",
        Some((Code::E20, 41, 76)),
    ),
    (
        b"fn f(o: Option<u8>) -> u8 { match o { Some(x) => x, None => 0 } }",
        Some((Code::E20, 28, 63)),
    ),
    (
        b"struct P { x: i32, y: bool } fn f(p: P) -> i32 { match p { P { y, x: 0 } => 1, P { x, .. } => x } }",
        Some((Code::E20, 49, 97)),
    ),
    (
        b"fn f(t: (i32, bool)) -> i32 { match t { (x, true) => x, (_, false) => 0 } }",
        Some((Code::E20, 30, 73)),
    ),
    (b"fn f() -> i32 { match 1 { 1 => 2, _ => 3 } }", None),
    (
        b"fn f(n: u8) -> u8 { match n { mut m => { m = 1; m } } }",
        None,
    ),
    (
        b"fn f(b: bool) { loop { match b { true => break, false => {} } } }",
        None,
    ),
];

/// Patterns of all forms have the type of the value, and bodies that of the whole.
#[test]
fn arms_have_types(rt: HostRuntime) {
    expect(&rt, rt.alloc(), &TYPED);
}

const GIVEN: [Row; 12] = [
    (
        b"fn f(b: bool) -> u8 { let x = match b { true => 1u8, false => 2 }; x }",
        None,
    ),
    (
        b"fn f(b: bool) -> u8 { let x = match b { true => return 1, false => 2u8 }; x }",
        None,
    ),
    (
        b"fn f(n: u8) -> u8 { let x = match n { 0 => panic!(), 1 => 2u8, 3 => return 4, _ => 5 }; x }",
        None,
    ),
    (
        b"fn f(b: bool) -> u8 { match b { true => return 1, false => return 2 } }",
        None,
    ),
    (
        b"fn f(b: bool) -> u8 { let x: bool = match b { true => panic!(), false => panic!() }; 1 }",
        None,
    ),
    (
        b"fn f(o: Option<u8>) -> u8 { let y = if let Some(x) = o { x } else { 0 }; y }",
        Some((Code::E20, 36, 71)),
    ),
    (
        b"fn f(o: Option<u8>) -> u8 { let y = if let Some(_) = o { return 1 } else { 2u8 }; y }",
        Some((Code::E20, 36, 80)),
    ),
    (
        b"fn f(b: bool) { let x = match b { true => 1u8, false => true }; }",
        Some((Code::E07, 56, 60)),
    ),
    (
        b"fn f(b: bool) -> u8 { match b { true => 1, false => true } }",
        Some((Code::E07, 52, 56)),
    ),
    (
        b"fn f(b: bool) { let x = match b { true => return, false => true }; let y: u8 = x; }",
        Some((Code::E07, 79, 80)),
    ),
    (
        b"fn f(o: Option<u8>) { let y = if let Some(x) = o { x } else { true }; }",
        Some((Code::E07, 62, 66)),
    ),
    (
        b"fn f(o: Option<u8>) { if let Some(x) = o { x } }",
        Some((Code::E07, 43, 44)),
    ),
];

/// Without an expected type the first arm that has a value gives its type to those behind it, and where all leave, the whole leaves.
#[test]
fn the_first_arm_gives_the_type(rt: HostRuntime) {
    expect(&rt, rt.alloc(), &GIVEN);
}

const SCOPES: [Row; 9] = [
    (
        b"fn f(x: bool, o: Option<u8>) -> bool { if let Some(x) = o { x; } x }",
        Some((Code::E20, 39, 64)),
    ),
    (
        b"fn f(o: Option<Option<u8>>) -> u8 { match o { Some(p) => match p { Some(x) => x, None => 1 }, None => 0 } }",
        Some((Code::E20, 57, 92)),
    ),
    (
        b"fn f(o: Option<u8>, p: Option<bool>) -> u8 { match (match p { Some(x) => x, None => true }, o) { (true, Some(x)) => x, _ => 0 } }",
        Some((Code::E20, 52, 90)),
    ),
    (
        b"fn f(o: Option<u8>) -> u8 { match o { Some(x) => 0, None => x } }",
        Some((Code::E05, 60, 61)),
    ),
    (
        b"fn f(o: Option<u8>) { if let Some(x) = o {} else { x; } }",
        Some((Code::E05, 51, 52)),
    ),
    (
        b"fn f(n: u8) { match n { m => { m = 1; } } }",
        Some((Code::E22, 31, 32)),
    ),
    (
        b"fn f(t: (u8, bool)) { match t { (x, mut y) => { y = true; x = 1; } } }",
        Some((Code::E22, 58, 59)),
    ),
    (b"fn f() { match y { _ => {} } }", Some((Code::E05, 15, 16))),
    (
        b"fn f(b: bool) { match b { true => break, false => {} } }",
        Some((Code::E07, 34, 39)),
    ),
];

/// The names of a pattern are in scope in the body of its arm alone, and are written where `mut` stands before them. Of matches in one another the inner one comes first.
#[test]
fn names_are_in_scope_in_their_arm(rt: HostRuntime) {
    expect(&rt, rt.alloc(), &SCOPES);
}

const LOOPS: [Row; 9] = [
    (
        b"fn f(o: Option<u8>) { while let Some(x) = o { x; } }",
        Some((Code::E20, 22, 50)),
    ),
    (
        b"fn f(o: Option<u8>) { #[invariant(true)] while let Some(x) = o { break; } }",
        Some((Code::E20, 22, 73)),
    ),
    (
        b"fn f(o: Option<u8>) { loop { while let Some(x) = o { if x > 1 { continue; } } } }",
        Some((Code::E20, 29, 77)),
    ),
    (
        b"fn f(o: Option<u8>) { while let Some(x) = o { x } }",
        Some((Code::E07, 46, 47)),
    ),
    (
        b"fn f(o: Option<u8>) { while let Some(x) = o {} x; }",
        Some((Code::E05, 47, 48)),
    ),
    (
        b"fn f(o: Option<u8>) { while let true = o {} }",
        Some((Code::E07, 32, 36)),
    ),
    (
        b"fn f() { loop { while let true = break {} } }",
        Some((Code::E07, 33, 38)),
    ),
    (
        b"fn f(o: Option<u8>) { #[variant(1)] while let Some(x) = o {} }",
        Some((Code::E20, 22, 35)),
    ),
    (
        b"fn f(o: Option<u8>) -> u8 { while let Some(x) = o {} }",
        Some((Code::E07, 28, 52)),
    ),
];

/// `while let` binds its names in its body alone, which is unit and stands in the loop, and its value stands in none.
#[test]
fn loops_have_patterns(rt: HostRuntime) {
    expect(&rt, rt.alloc(), &LOOPS);
}

const REFUSED: [Row; 10] = [
    (
        b"fn f(b: bool) -> i32 { match b { 1 => 1, _ => 2 } }",
        Some((Code::E07, 33, 34)),
    ),
    (
        b"fn f(t: (u8, u8)) { match t { (x, x) => {} } }",
        Some((Code::E06, 34, 35)),
    ),
    (
        b"enum E { A } fn f(e: E) { match e { E::C => {}, _ => {} } }",
        Some((Code::E05, 39, 40)),
    ),
    (
        b"fn f(t: (u8, u8)) { match t { (x,) => {} } }",
        Some((Code::E07, 30, 34)),
    ),
    (
        b"struct P { x: i32, y: bool } fn f(p: P) { match p { P { x } => { x; } } }",
        Some((Code::E07, 52, 59)),
    ),
    (
        b"struct P { x: i32, y: bool } fn f(p: P) { if let P { z, .. } = p {} }",
        Some((Code::E05, 53, 54)),
    ),
    (
        b"fn f(o: Option<u8>) -> u8 { if let Some(true) = o { 1 } else { 2 } }",
        Some((Code::E07, 40, 44)),
    ),
    (
        b"fn f(b: bool) { match b { true => y, 1 => {} } }",
        Some((Code::E05, 34, 35)),
    ),
    (
        b"fn f(b: bool) { match b { 1 => y, true => {} } }",
        Some((Code::E07, 26, 27)),
    ),
    (
        b"fn f(b: bool) { match b { _ => {} } } fn g() -> u8 { true }",
        Some((Code::E07, 53, 57)),
    ),
];

/// A pattern is refused where it stands, behind the value and the arms before it.
#[test]
fn patterns_are_refused_in_their_order(rt: HostRuntime) {
    expect(&rt, rt.alloc(), &REFUSED);
}

const COVERED: [Row; 12] = [
    (
        b"fn f(b: bool) -> i32 { match b { true => 1 } }",
        Some((Code::E11, 23, 44)),
    ),
    (
        b"fn f(n: u8) -> u8 { match n { 0 => 1, 255 => 2 } }",
        Some((Code::E11, 20, 48)),
    ),
    (
        b"fn f(b: bool) -> u8 { match b { true => 1, true => 2, false => 3, _ => 4 } }",
        None,
    ),
    (
        b"fn f(n: i64) -> i64 { match n { 3i64 => 1, m => m, 5 => 2 } }",
        None,
    ),
    (b"fn f(x: ()) -> u8 { match x { y => 1 } }", None),
    (
        b"fn f(b: bool) -> u8 { if let true = b { 1 } else { 2 } }",
        None,
    ),
    (b"fn f(n: u8) { while let 0 = n {} }", None),
    (
        b"fn f(b: bool) -> u8 { match match b { false => true } { true => 1 } }",
        Some((Code::E11, 28, 53)),
    ),
    (
        b"fn f(b: bool) -> u8 { match b { true => match b { true => 1 } } }",
        Some((Code::E11, 40, 61)),
    ),
    (
        b"fn f(t: (u8, u8), b: bool) { match t { x => {} } match b { true => {} } }",
        Some((Code::E20, 29, 48)),
    ),
    (
        b"fn f(b: bool) { match b { true => {} } } fn g(t: (u8, u8)) { match t { x => {} } }",
        Some((Code::E11, 16, 38)),
    ),
    (
        b"fn f(b: bool) { match b { false => {} } } fn g() -> u8 { true }",
        Some((Code::E07, 57, 61)),
    ),
];

/// A flat match is E11 at its place where its patterns do not cover the type, behind its parts, and behind all that has no type.
#[test]
fn flat_patterns_cover_their_type(rt: HostRuntime) {
    expect(&rt, rt.alloc(), &COVERED);
}

const NOT_FLAT: [Row; 3] = [
    (
        b"fn f(x: ()) { match x { () => {} } }",
        Some((Code::E20, 14, 34)),
    ),
    (
        b"fn f(t: (u8, bool)) { match t { _ => {} } }",
        Some((Code::E20, 22, 41)),
    ),
    (
        b"struct P { x: i32 } fn f(p: P) { match p { P { x } => { x; } } }",
        Some((Code::E20, 33, 62)),
    ),
];

/// A match at a tuple or a struct, or by a pattern of parts, is E20 also where it covers its type.
#[test]
fn other_matches_are_not_built(rt: HostRuntime) {
    expect(&rt, rt.alloc(), &NOT_FLAT);
}
