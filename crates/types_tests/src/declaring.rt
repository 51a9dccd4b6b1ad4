//! Declared types from the texts of sources: what is accepted, and which refusal stands where.
use declared_types::declare;
use rs_syntax::parse;
use std::alloc::Global;
use std::process::Abort;
use std::test::Fail;
use text_core::name::OPTION;
use text_core::{Code, Names, PassError};

/// A source, and the code and the place of its refusal if it is refused.
type Row = (&'static [u8], Option<(Code, u32, u32)>);

/// Whether what the source declares is answered so.
fn is_right(alloc: Global, row: &Row) -> bool {
    let source = row.0;
    if source.len() > 1000 {
        return false;
    }
    let mut names = Names::new(alloc);
    let Ok(items) = parse(alloc, source, &mut names) else {
        return false;
    };
    match (declare(alloc, items.as_slice()), row.1) {
        (Ok(_), None) => true,
        (Err(PassError::Source(error)), Some((code, start, end))) => {
            error.code == code && error.span.start == start && error.span.end == end
        }
        _ => false,
    }
}

fn expect(rt: &impl Abort, alloc: Global, rows: &[Row]) {
    let mut at = 0u32;
    for row in rows {
        let right = is_right(alloc, row);
        assert!(rt; right, "row {at}");
        at = at.wrapping_add(1);
    }
}

const NAMES: [Row; 15] = [
    (b"struct A; struct A;", Some((Code::E06, 17, 18))),
    (b"struct A; struct B;", None),
    (
        b"struct A { n: i32 } enum A { X }",
        Some((Code::E06, 25, 26)),
    ),
    (b"fn g() {} fn g() {}", Some((Code::E06, 13, 14))),
    (b"struct S(i32); fn S() {}", Some((Code::E06, 18, 19))),
    (b"struct S; fn S() {}", Some((Code::E06, 13, 14))),
    (b"struct S { n: i32 } fn S() {}", None),
    (b"enum S { X } fn S() {}", None),
    (b"struct S { a: i32, a: u8 }", Some((Code::E06, 19, 20))),
    (b"struct S<T, T> { a: T }", Some((Code::E06, 12, 13))),
    (
        b"struct S<'a, 'a> { r: &'a i32 }",
        Some((Code::E06, 13, 15)),
    ),
    (b"enum E { X, Y, X }", Some((Code::E06, 15, 16))),
    (
        b"enum E { X { a: i32, a: i32 } }",
        Some((Code::E06, 21, 22)),
    ),
    (b"enum E { X { a: i32 }, Y { a: i32 } }", None),
    (b"fn g(x: i32, x: u8) {}", Some((Code::E06, 13, 14))),
];

/// Names that are declared twice in their name space.
#[test]
fn names_are_refused(rt: HostRuntime) {
    expect(&rt, rt.alloc(), &NAMES);
}

const TYPES: [Row; 14] = [
    (b"struct S { a: T }", Some((Code::E05, 14, 15))),
    (b"struct S<T> { a: U, b: T }", Some((Code::E05, 17, 18))),
    (b"struct S<T> { a: T } enum E { X(S<E2>) } struct E2;", None),
    (
        b"struct S { a: S2<i32> } struct S2;",
        Some((Code::E07, 14, 21)),
    ),
    (b"struct S { a: &i32 }", Some((Code::E08, 14, 18))),
    (
        b"struct S<'a: 'b> { r: &'a i32 }",
        Some((Code::E05, 13, 15)),
    ),
    (b"struct S<'a: 'b, 'b> { r: &'a i32, s: &'b i32 }", None),
    (b"struct S<T: A> { a: T }", Some((Code::E20, 12, 13))),
    (b"struct S { a: Option<i32> }", None),
    (
        b"enum Option<T> { N(T) } struct S { a: Option }",
        Some((Code::E07, 38, 44)),
    ),
    (b"enum Option { N } struct S { a: Option }", None),
    (b"struct S { a: Int }", Some((Code::E05, 14, 17))),
    (b"#[logic] struct S;", Some((Code::E20, 0, 8))),
    (b"#[derive(Clone, Copy)] struct S;", None),
];

/// Types that are written in fields, and what stands before and behind a name.
#[test]
fn types_are_refused(rt: HostRuntime) {
    expect(&rt, rt.alloc(), &TYPES);
}

const FIELDS: [Row; 12] = [
    (b"struct L { n: L }", Some((Code::E10, 7, 8))),
    (
        b"struct S<'a> { r: &'a &'a i32 }",
        Some((Code::E09, 18, 29)),
    ),
    (
        b"struct A { b: B } struct B { a: A }",
        Some((Code::E10, 7, 8)),
    ),
    (b"struct L { n: Option<Box<L>> }", None),
    (b"struct L { n: Option<L> }", Some((Code::E10, 7, 8))),
    (b"struct S { s: Box<S> }", Some((Code::E10, 7, 8))),
    (
        b"struct L { n: L } struct S { a: T }",
        Some((Code::E10, 7, 8)),
    ),
    (
        b"struct S { a: T } struct L { n: L }",
        Some((Code::E05, 14, 15)),
    ),
    (
        b"struct S<'a> { a: T, r: &'a &'a i32 }",
        Some((Code::E05, 18, 19)),
    ),
    (
        b"struct S<'a> { r: &'a &'a i32, a: T }",
        Some((Code::E09, 18, 29)),
    ),
    (
        b"struct L { n: L } struct A; struct A;",
        Some((Code::E10, 7, 8)),
    ),
    (
        b"struct W<'a> { r: &'a i32 } struct S<'a> { w: &'a W<'a> }",
        Some((Code::E09, 46, 55)),
    ),
];

/// References in references, types that hold themselves, and what comes first.
#[test]
fn fields_are_refused(rt: HostRuntime) {
    expect(&rt, rt.alloc(), &FIELDS);
}

const SIGNATURES: [Row; 11] = [
    (b"fn g(x: &i32) -> &i32 { x }", None),
    (
        b"fn g(x: &i32, y: &i32) -> &i32 { x }",
        Some((Code::E08, 26, 30)),
    ),
    (b"fn g(x: i32) -> &i32 { x }", Some((Code::E08, 16, 20))),
    (b"fn g(x: & &i32) {}", Some((Code::E09, 8, 14))),
    (b"fn g() -> T {}", Some((Code::E05, 10, 11))),
    (b"fn g(x: T) {}", Some((Code::E05, 8, 9))),
    (b"fn g<T>(x: T) {}", Some((Code::E20, 4, 7))),
    (b"struct W<'a> { r: &'a i32 } fn g(w: W) -> W { w }", None),
    (
        b"struct W<'a> { r: &'a i32 } fn g(w: &W) -> i32 { 0 }",
        Some((Code::E09, 36, 38)),
    ),
    (b"fn g(x: T) {} struct L { n: L }", Some((Code::E05, 8, 9))),
    (b"struct L { n: L } fn g(x: T) {}", Some((Code::E10, 7, 8))),
];

/// Types that are written in the signatures of functions.
#[test]
fn signatures_are_refused(rt: HostRuntime) {
    expect(&rt, rt.alloc(), &SIGNATURES);
}

/// `Option` stands before the items, which have the numbers behind it.
fn table_is_right(alloc: Global) -> bool {
    let mut names = Names::new(alloc);
    let source = b"struct A(i32); #[derive(Copy)] enum B<'a, T> { X { r: &'a T } }";
    let Ok(items) = parse(alloc, source, &mut names) else {
        return false;
    };
    let Ok(declared) = declare(alloc, items.as_slice()) else {
        return false;
    };
    let decls = declared.table.decls();
    let option = decls
        .get(0)
        .is_some_and(|it| it.name.0 == OPTION.0 && it.params == 1);
    let first = decls
        .get(1)
        .is_some_and(|it| it.is_struct && !it.copy && it.params == 0);
    let second = decls
        .get(2)
        .is_some_and(|it| !it.is_struct && it.copy && it.regions == 1);
    decls.len() == 3 && option && first && second
}

#[test]
fn declared_types_have_numbers(rt: HostRuntime) {
    let right = table_is_right(rt.alloc());
    assert!(rt; right);
}
