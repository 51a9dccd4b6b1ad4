//! What makes a value by a name or by a path. The type of a row says nothing here.
use crate::source::{DECLARED, Question, Row, expect};

const FOUND: [Row; 11] = [
    ("A", "()", "A: unit ()"),
    ("T", "()", "T: numbered (u8, bool)"),
    ("P", "()", "P: named (x: u8, y: bool)"),
    ("P { .. }", "()", "P: named (x: u8, y: bool)"),
    ("W", "()", "W of 1 type: named (v: parameter 0)"),
    ("R", "()", "R of 1 lifetime: named (r: &mut P)"),
    ("None", "()", "Option::None of 1 type: unit ()"),
    (
        "Some(x)",
        "()",
        "Option::Some of 1 type: numbered (parameter 0)",
    ),
    (
        "Option::Some",
        "()",
        "Option::Some of 1 type: numbered (parameter 0)",
    ),
    ("E::C", "()", "E::C: named (n: u8)"),
    ("Or::R", "()", "Or::R of 2 types: numbered (parameter 1)"),
];

#[test]
fn constructors_are_found(rt: HostRuntime) {
    expect(&rt, rt.alloc(), DECLARED, Question::Constructor, &FOUND);
}

const REFUSED: [Row; 11] = [
    ("E", "()", "E05 0..1"),
    ("B", "()", "E05 0..1"),
    ("u8", "()", "E05 0..2"),
    ("f", "()", "E05 0..1"),
    ("E::D", "()", "E05 3..4"),
    ("X::A", "()", "E05 0..1"),
    ("P::P", "()", "E05 3..4"),
    ("Option::A", "()", "E05 8..9"),
    // paths that are not built
    ("a::b::c", "()", "E20 0..7"),
    ("None::<u8>", "()", "E20 0..10"),
    ("Or::<u8, bool>::R(x)", "()", "E20 0..20"),
];

/// E05 is at the name that is not known.
#[test]
fn unknown_names_are_refused(rt: HostRuntime) {
    expect(&rt, rt.alloc(), DECLARED, Question::Constructor, &REFUSED);
}

const OTHER: [Row; 4] = [
    ("Option::N", "()", "Option::N: unit ()"),
    ("Option::Some", "()", "E05 8..12"),
    ("Some", "()", "E05 0..4"),
    ("S", "()", "S: numbered (Option)"),
];

/// Where the source declares an `Option`, it is that one.
#[test]
fn another_option(rt: HostRuntime) {
    let declared = "struct S(Option); enum Option { N }";
    expect(&rt, rt.alloc(), declared, Question::Constructor, &OTHER);
}
