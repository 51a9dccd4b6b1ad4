//! Patterns behind references.
use crate::source::{DECLARED, Question, Row, expect};

const SHARED: [Row; 10] = [
    ("x", "&u8", "x: &u8; x: &u8"),
    ("mut x", "&P", "x: &P; mut x: &P"),
    ("_", "&P", "_: &P"),
    ("3", "&u8", "3u8: &u8"),
    ("300", "&u8", "E07 0..3"),
    (
        "P { x, y }",
        "&P",
        "P(ref x: u8, ref y: bool): &P; x: &u8, y: &bool",
    ),
    (
        "Some(x)",
        "&Option<u8>",
        "Option::Some(ref x: u8): &Option<u8>; x: &u8",
    ),
    (
        "(a, _)",
        "&(u8, u8)",
        "(ref a: u8, _: u8): &(u8, u8); a: &u8",
    ),
    (
        "(a, b)",
        "&(u8, &bool)",
        "(ref a: u8, ref b: &bool): &(u8, &bool); a: &u8, b: &&bool",
    ),
    (
        "Q { p: P { x, .. }, n: 3 }",
        "&Q",
        "Q(P(ref x: u8, _: bool): P, 3u8: u8): &Q; x: &u8",
    ),
];

/// A pattern that is no name and no wildcard looks through a `&`, and names behind it are references.
#[test]
fn patterns_look_through_references(rt: HostRuntime) {
    expect(&rt, rt.alloc(), DECLARED, Question::Pattern, &SHARED);
}

const UNIQUE: [Row; 9] = [
    ("x", "&mut u8", "x: &mut u8; x: &mut u8"),
    (
        "P { x, .. }",
        "&mut P",
        "P(ref mut x: u8, _: bool): &mut P; x: &mut u8",
    ),
    ("None", "&mut Option<u8>", "Option::None(): &mut Option<u8>"),
    ("A", "&mut A", "A(): &mut A"),
    ("true", "& &mut bool", "true: &&mut bool"),
    (
        "P { x, .. }",
        "&mut &mut P",
        "P(ref mut x: u8, _: bool): &mut &mut P; x: &mut u8",
    ),
    (
        "P { x, .. }",
        "& &mut P",
        "P(ref x: u8, _: bool): &&mut P; x: &u8",
    ),
    (
        "P { x, .. }",
        "&mut &P",
        "P(ref x: u8, _: bool): &mut &P; x: &u8",
    ),
    (
        "E::B(x, true)",
        "&mut E",
        "E::B(ref mut x: u8, true: bool): &mut E; x: &mut u8",
    ),
];

/// Names behind `&mut` are unique references, but for those behind a `&` too.
#[test]
fn unique_references(rt: HostRuntime) {
    expect(&rt, rt.alloc(), DECLARED, Question::Pattern, &UNIQUE);
}

const MIXED: [Row; 8] = [
    // the parts beside are bound as before
    (
        "(P { x, .. }, a)",
        "(&P, u8)",
        "(P(ref x: u8, _: bool): &P, a: u8): (&P, u8); x: &u8, a: u8",
    ),
    (
        "(a, P { x, .. }, b)",
        "&mut (u8, &P, bool)",
        "(ref mut a: u8, P(ref x: u8, _: bool): &P, ref mut b: bool): &mut (u8, &P, bool); a: &mut u8, x: &u8, b: &mut bool",
    ),
    (
        "(a, P { x, .. })",
        "&(u8, &mut P)",
        "(ref a: u8, P(ref x: u8, _: bool): &mut P): &(u8, &mut P); a: &u8, x: &u8",
    ),
    (
        "R { r: P { x, .. } }",
        "R",
        "R(P(ref mut x: u8, _: bool): &mut P): R; x: &mut u8",
    ),
    (
        "R { r: P { x, .. } }",
        "&R",
        "R(P(ref x: u8, _: bool): &mut P): &R; x: &u8",
    ),
    ("R { r }", "&R", "R(ref r: &mut P): &R; r: &&mut P"),
    (
        "R { r }",
        "&mut R",
        "R(ref mut r: &mut P): &mut R; r: &mut &mut P",
    ),
    (
        "(a, mut b)",
        "(u8, &u8)",
        "(a: u8, b: &u8): (u8, &u8); a: u8, mut b: &u8",
    ),
];

/// Parts are bound by the references that they stand behind.
#[test]
fn references_in_parts(rt: HostRuntime) {
    expect(&rt, rt.alloc(), DECLARED, Question::Pattern, &MIXED);
}

const REFUSED: [Row; 8] = [
    // `mut` behind a reference is not built
    ("P { x: mut a, .. }", "&P", "E20 7..12"),
    ("(a, mut b)", "&mut (u8, u8)", "E20 4..9"),
    ("(mut x, x)", "&(u8, u8)", "E20 1..6"),
    ("P { x, y }", "&Q", "E07 0..10"),
    ("Some", "&Option<u8>", "E07 0..4"),
    ("(a, b)", "&(u8, u8, u8)", "E07 0..6"),
    ("(a, a)", "&(u8, u8)", "E06 4..5"),
    ("E::D", "&mut E", "E05 3..4"),
];

#[test]
fn patterns_behind_references_are_refused(rt: HostRuntime) {
    expect(&rt, rt.alloc(), DECLARED, Question::Pattern, &REFUSED);
}
