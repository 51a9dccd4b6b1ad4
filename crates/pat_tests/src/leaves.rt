//! Patterns without parts: wildcards, names, integers and truth values.
use crate::source::{DECLARED, Question, Row, expect};

const NAMES: [Row; 9] = [
    ("_", "u8", "_: u8"),
    ("_", "P", "_: P"),
    ("x", "u8", "x: u8; x: u8"),
    ("x", "(u8, P)", "x: (u8, P); x: (u8, P)"),
    ("mut x", "u8", "x: u8; mut x: u8"),
    ("mut x", "Option<Q>", "x: Option<Q>; mut x: Option<Q>"),
    // what is no struct without named fields is a name
    ("P", "u8", "P: u8; P: u8"),
    ("E", "E", "E: E; E: E"),
    ("B", "u8", "B: u8; B: u8"),
];

/// A wildcard and a name stand at every type.
#[test]
fn names_are_bound(rt: HostRuntime) {
    expect(&rt, rt.alloc(), DECLARED, Question::Pattern, &NAMES);
}

const LITERALS: [Row; 25] = [
    ("0", "u8", "0u8: u8"),
    ("255", "u8", "255u8: u8"),
    ("3u8", "u8", "3u8: u8"),
    ("-128", "i8", "-128i8: i8"),
    ("-1i64", "i64", "-1i64: i64"),
    (
        "-9223372036854775808",
        "isize",
        "-9223372036854775808isize: isize",
    ),
    (
        "18446744073709551615",
        "usize",
        "18446744073709551615usize: usize",
    ),
    ("true", "bool", "true: bool"),
    ("false", "bool", "false: bool"),
    // the unbounded integers of terms
    ("300", "Int", "300: Int"),
    ("3u8", "Int", "E07 0..3"),
    // out of range
    ("256", "u8", "E07 0..3"),
    ("-1", "u8", "E07 0..2"),
    ("128", "i8", "E07 0..3"),
    ("-129", "i8", "E07 0..4"),
    ("18446744073709551616", "u64", "E07 0..20"),
    // of another type
    ("3u16", "u8", "E07 0..4"),
    ("3i8", "u8", "E07 0..3"),
    ("3u64", "usize", "E07 0..4"),
    ("3", "bool", "E07 0..1"),
    ("3", "P", "E07 0..1"),
    ("3", "(u8,)", "E07 0..1"),
    ("true", "u8", "E07 0..4"),
    ("true", "Int", "E07 0..4"),
    ("false", "Option<bool>", "E07 0..5"),
];

/// An integer is one of the type, by its value and by the type at its end.
#[test]
fn literals_have_types(rt: HostRuntime) {
    expect(&rt, rt.alloc(), DECLARED, Question::Pattern, &LITERALS);
}
