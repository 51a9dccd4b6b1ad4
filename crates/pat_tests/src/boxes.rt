//! Patterns at boxes.
use crate::source::{DECLARED, Question, Row, expect};

const BOXES: [Row; 13] = [
    ("b", "Box<P>", "b: Box<P>; b: Box<P>"),
    ("mut b", "Box<u8>", "b: Box<u8>; mut b: Box<u8>"),
    ("_", "Box<P>", "_: Box<P>"),
    (
        "Some(b)",
        "Option<Box<P>>",
        "Option::Some(b: Box<P>): Option<Box<P>>; b: Box<P>",
    ),
    (
        "Some(b)",
        "&Option<Box<u8>>",
        "Option::Some(ref b: Box<u8>): &Option<Box<u8>>; b: &Box<u8>",
    ),
    (
        "L { v, n: Some(rest) }",
        "L",
        "L(v: u8, Option::Some(rest: Box<L>): Option<Box<L>>): L; v: u8, rest: Box<L>",
    ),
    ("P { x, y }", "Box<P>", "E07 0..10"),
    ("P { x, .. }", "&Box<P>", "E07 0..11"),
    ("Some(P { .. })", "Option<Box<P>>", "E07 5..13"),
    ("L { n: Some(L { v, .. }), .. }", "L", "E07 12..23"),
    ("A", "Box<A>", "E07 0..1"),
    ("3", "Box<u8>", "E07 0..1"),
    ("(a, b)", "Box<(u8, u8)>", "E07 0..6"),
];

/// No pattern looks through a box.
#[test]
fn boxes_stay_whole(rt: HostRuntime) {
    expect(&rt, rt.alloc(), DECLARED, Question::Pattern, &BOXES);
}
