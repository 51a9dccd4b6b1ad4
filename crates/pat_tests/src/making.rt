//! Structs without named fields, and variants of enums.
use crate::source::{DECLARED, Question, Row, expect};

const OPTIONS: [Row; 17] = [
    ("None", "Option<u8>", "Option::None(): Option<u8>"),
    (
        "Some(x)",
        "Option<u8>",
        "Option::Some(x: u8): Option<u8>; x: u8",
    ),
    ("Option::None", "Option<P>", "Option::None(): Option<P>"),
    (
        "Option::Some(3)",
        "Option<u8>",
        "Option::Some(3u8: u8): Option<u8>",
    ),
    (
        "Some(Some(x))",
        "Option<Option<bool>>",
        "Option::Some(Option::Some(x: bool): Option<bool>): Option<Option<bool>>; x: bool",
    ),
    ("Some", "Option<u8>", "E07 0..4"),
    ("Option::Some", "Option<u8>", "E07 0..12"),
    ("Some()", "Option<u8>", "E07 0..6"),
    ("Some(x, y)", "Option<u8>", "E07 0..10"),
    ("None()", "Option<u8>", "E07 0..6"),
    ("Some(x)", "u8", "E07 0..7"),
    ("None", "u8", "E07 0..4"),
    ("None", "Or<u8, u8>", "E07 0..4"),
    ("Some(true)", "Option<u8>", "E07 5..9"),
    ("Some(300)", "Option<u8>", "E07 5..8"),
    ("Option::All", "Option<u8>", "E05 8..11"),
    ("mut None", "Option<u8>", "E07 0..8"),
];

/// `None` and `Some` are known without their type.
#[test]
fn options_are_made(rt: HostRuntime) {
    expect(&rt, rt.alloc(), DECLARED, Question::Pattern, &OPTIONS);
}

const VARIANTS: [Row; 22] = [
    ("E::A", "E", "E::A(): E"),
    ("E::B(x, _)", "E", "E::B(x: u8, _: bool): E; x: u8"),
    ("E::C { n }", "E", "E::C(n: u8): E; n: u8"),
    ("E::C { n: 3 }", "E", "E::C(3u8: u8): E"),
    ("E::C { .. }", "E", "E::C(_: u8): E"),
    (
        "Or::R(x)",
        "Or<u8, (bool, P)>",
        "Or::R(x: (bool, P)): Or<u8, (bool, P)>; x: (bool, P)",
    ),
    ("Or::L(7)", "Or<u8, bool>", "Or::L(7u8: u8): Or<u8, bool>"),
    ("Or::N", "Or<u8, bool>", "Or::N(): Or<u8, bool>"),
    ("Or::R(7)", "Or<u8, bool>", "E07 6..7"),
    ("E::B", "E", "E07 0..4"),
    ("E::C", "E", "E07 0..4"),
    ("E::A()", "E", "E07 0..6"),
    ("E::C(n)", "E", "E07 0..7"),
    ("E::B(x)", "E", "E07 0..7"),
    ("E::A", "P", "E07 0..4"),
    ("Or::N", "Option<u8>", "E07 0..5"),
    ("E::D", "E", "E05 3..4"),
    ("E::D { n }", "E", "E05 3..4"),
    ("X::A", "E", "E05 0..1"),
    ("P::A", "P", "E05 3..4"),
    ("B(x, y)", "E", "E05 0..1"),
    ("X { n }", "E", "E05 0..1"),
];

/// A variant is made by its enum and its name, in the form in which its fields are written.
#[test]
fn variants_are_made(rt: HostRuntime) {
    expect(&rt, rt.alloc(), DECLARED, Question::Pattern, &VARIANTS);
}

const STRUCTS: [Row; 14] = [
    ("A", "A", "A(): A"),
    ("A", "u8", "E07 0..1"),
    ("A()", "A", "E07 0..3"),
    ("T(a, b)", "T", "T(a: u8, b: bool): T; a: u8, b: bool"),
    ("T(3, _)", "T", "T(3u8: u8, _: bool): T"),
    ("T", "T", "E07 0..1"),
    ("T(a)", "T", "E07 0..4"),
    ("T(a, b, c)", "T", "E07 0..10"),
    ("T(a, b)", "P", "E07 0..7"),
    ("P(a, b)", "P", "E07 0..7"),
    ("Z()", "Z", "Z(): Z"),
    ("Z", "Z", "E07 0..1"),
    ("mut A", "A", "E07 0..5"),
    ("mut N", "N", "N: N; mut N: N"),
];

/// A unit struct is made by its name, and a tuple struct by its parts: neither name is bound.
#[test]
fn structs_are_made(rt: HostRuntime) {
    expect(&rt, rt.alloc(), DECLARED, Question::Pattern, &STRUCTS);
}

const HIDDEN: [Row; 4] = [
    ("None", "None", "None(): None"),
    ("None", "Option<u8>", "E07 0..4"),
    ("Option::None", "Option<u8>", "Option::None(): Option<u8>"),
    ("Some(x, _)", "Some", "Some(x: bool, _: u8): Some; x: bool"),
];

/// Declared structs hide `None` and `Some`.
#[test]
fn structs_hide_options(rt: HostRuntime) {
    let declared = "struct None; struct Some(bool, u8);";
    expect(&rt, rt.alloc(), declared, Question::Pattern, &HIDDEN);
}
