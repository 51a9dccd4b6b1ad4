//! Tuples, names that stand twice, and which of several parts is refused.
use crate::source::{DECLARED, Question, Row, expect};

const TUPLES: [Row; 14] = [
    ("()", "()", "(): ()"),
    ("(a,)", "(u8,)", "(a: u8): (u8); a: u8"),
    // parentheses make no tuple
    (
        "((a), (3))",
        "(u8, u8)",
        "(a: u8, 3u8: u8): (u8, u8); a: u8",
    ),
    (
        "(a, b)",
        "(u8, bool)",
        "(a: u8, b: bool): (u8, bool); a: u8, b: bool",
    ),
    (
        "((a, 1), (_, true))",
        "((bool, u8), (P, bool))",
        "((a: bool, 1u8: u8): (bool, u8), (_: P, true: bool): (P, bool)): ((bool, u8), (P, bool)); a: bool",
    ),
    ("(a, b)", "(u8, u8, u8)", "E07 0..6"),
    ("(a, b, c)", "(u8, u8)", "E07 0..9"),
    ("(a,)", "()", "E07 0..4"),
    ("()", "(u8,)", "E07 0..2"),
    ("((a, b), c)", "((u8, u8, u8), u8)", "E07 1..7"),
    ("()", "u8", "E07 0..2"),
    ("(a, b)", "P", "E07 0..6"),
    ("(a, b)", "T", "E07 0..6"),
    ("(a, (b, c))", "(u8, u8)", "E07 4..10"),
];

/// A tuple has as many parts as its type.
#[test]
fn tuples_have_parts(rt: HostRuntime) {
    expect(&rt, rt.alloc(), DECLARED, Question::Pattern, &TUPLES);
}

const TWICE: [Row; 8] = [
    ("(x, x)", "(u8, u8)", "E06 4..5"),
    ("(mut x, x)", "(u8, bool)", "E06 8..9"),
    ("(x, mut x)", "(u8, u8)", "E06 8..9"),
    ("((x, y), (z, y))", "((u8, u8), (u8, u8))", "E06 13..14"),
    ("(x, Some(x))", "(u8, Option<u8>)", "E06 9..10"),
    ("T(x, x)", "T", "E06 5..6"),
    ("P { x: a, y: a }", "P", "E06 13..14"),
    ("(x, P { y: _, x })", "(u8, P)", "E06 14..15"),
];

/// No name is bound twice, in parts of parts neither.
#[test]
fn names_are_bound_once(rt: HostRuntime) {
    expect(&rt, rt.alloc(), DECLARED, Question::Pattern, &TWICE);
}

const FIRST: [Row; 8] = [
    ("(true, 3)", "(u8, bool)", "E07 1..5"),
    ("(x, (x, true))", "(u8, (u8, u8))", "E06 5..6"),
    ("(x, (true, x))", "(u8, (u8, u8))", "E07 5..9"),
    ("(E::D, X::A)", "(E, E)", "E05 4..5"),
    // a part comes before the number of parts
    ("(a, true, c)", "(u8, u8)", "E07 4..8"),
    // what a constructor makes comes before its parts
    ("Some(true)", "u8", "E07 0..10"),
    ("E::D(true, x, x)", "u8", "E05 3..4"),
    ("P { x: true, z: 1 }", "P", "E07 7..11"),
];

/// Of several parts that are refused the first counts.
#[test]
fn the_first_part_counts(rt: HostRuntime) {
    expect(&rt, rt.alloc(), DECLARED, Question::Pattern, &FIRST);
}

const PLACES: [Row; 5] = [
    ("x", "u8", "x 0..1"),
    ("mut name", "u8", "name 4..8"),
    (
        "(x, mut yy, (_, z))",
        "(u8, u8, (u8, u8))",
        "x 1..2, yy 8..10, z 16..17",
    ),
    ("P { y: b, x }", "P", "b 7..8, x 10..11"),
    ("Some((name))", "&Option<u8>", "name 6..10"),
];

/// Names stand where they are written, from left to right.
#[test]
fn names_have_places(rt: HostRuntime) {
    expect(&rt, rt.alloc(), DECLARED, Question::Spans, &PLACES);
}
