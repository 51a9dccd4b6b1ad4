//! Structs with named fields.
use crate::source::{DECLARED, Question, Row, expect};

const FIELDS: [Row; 15] = [
    ("P { x, y }", "P", "P(x: u8, y: bool): P; x: u8, y: bool"),
    (
        "P { y: b, x: a }",
        "P",
        "P(a: u8, b: bool): P; b: bool, a: u8",
    ),
    (
        "P { x: y, y: x }",
        "P",
        "P(y: u8, x: bool): P; y: u8, x: bool",
    ),
    ("P { y, .. }", "P", "P(_: u8, y: bool): P; y: bool"),
    ("P { .. }", "P", "P(_: u8, _: bool): P"),
    (
        "P { x, y, .. }",
        "P",
        "P(x: u8, y: bool): P; x: u8, y: bool",
    ),
    ("P { x: 3, y: true }", "P", "P(3u8: u8, true: bool): P"),
    (
        "P { x: mut a, y: _ }",
        "P",
        "P(a: u8, _: bool): P; mut a: u8",
    ),
    ("N {}", "N", "N(): N"),
    // a name of a unit struct is none that is bound
    ("G { A }", "G", "G(A(): A): G"),
    (
        "Q { n, p: P { y: true, x } }",
        "Q",
        "Q(P(x: u8, true: bool): P, n: u8): Q; n: u8, x: u8",
    ),
    ("W { v }", "W<u8>", "W(v: u8): W<u8>; v: u8"),
    (
        "W { v: W { v: true } }",
        "W<W<bool>>",
        "W(W(true: bool): W<bool>): W<W<bool>>",
    ),
    (
        "Some(W { v: (a, b) })",
        "Option<W<(u8, bool)>>",
        "Option::Some(W((a: u8, b: bool): (u8, bool)): W<(u8, bool)>): Option<W<(u8, bool)>>; a: u8, b: bool",
    ),
    (
        "W { v: Or::R(x) }",
        "W<Or<u8, W<bool>>>",
        "W(Or::R(x: W<bool>): Or<u8, W<bool>>): W<Or<u8, W<bool>>>; x: W<bool>",
    ),
];

/// Fields are written in any order, and stand in that of the declared type.
#[test]
fn fields_have_patterns(rt: HostRuntime) {
    expect(&rt, rt.alloc(), DECLARED, Question::Pattern, &FIELDS);
}

const REFUSED: [Row; 15] = [
    ("P { x }", "P", "E07 0..7"),
    ("P {}", "P", "E07 0..4"),
    ("P { x: _, y: _, x: _ }", "P", "E06 16..17"),
    ("P { x: _, x: 300, .. }", "P", "E06 10..11"),
    ("P { x: y, y }", "P", "E06 10..11"),
    ("Q { n, p: P { x: n, .. } }", "Q", "E06 17..18"),
    ("P { z, .. }", "P", "E05 4..5"),
    ("P { x, y, z }", "P", "E05 10..11"),
    ("P { z: 1, x: true }", "P", "E05 4..5"),
    // a field comes before those that are missing
    ("P { x: 1, z }", "P", "E05 10..11"),
    ("P { x: 1, y: 2 }", "P", "E07 13..14"),
    ("W { v: true }", "W<u8>", "E07 7..11"),
    ("P { x, y }", "Q", "E07 0..10"),
    ("P { x, y }", "(u8, bool)", "E07 0..10"),
    ("Q { p: P { x }, n }", "Q", "E07 7..14"),
];

/// Each field is written once, or left out before `..`.
#[test]
fn fields_are_refused(rt: HostRuntime) {
    expect(&rt, rt.alloc(), DECLARED, Question::Pattern, &REFUSED);
}
