//! Names and types, from the texts of sources: what is accepted, and which refusal stands where.
use declared_types::declare;
use rs_syntax::parse;
use source_trees::Item;
use std::alloc::Global;
use std::process::Abort;
use text_core::{Code, Names, PassError};
use type_check::check;

/// A source, and the code and the place of its refusal if it is refused.
type Row = (&'static [u8], Option<(Code, u32, u32)>);

/// The names pass, and then the types pass.
fn passes(alloc: Global, items: &[Item]) -> Result<(), PassError> {
    let declared = declare(alloc, items)?;
    check(alloc, items, &declared)?;
    Ok(())
}

/// Whether these passes answer so.
fn is_right(alloc: Global, row: &Row) -> bool {
    let source = row.0;
    if source.len() > 1000 {
        return false;
    }
    let mut names = Names::new(alloc);
    let Ok(items) = parse(alloc, source, &mut names) else {
        return false;
    };
    match (passes(alloc, items.as_slice()), row.1) {
        (Ok(()), None) => true,
        (Err(PassError::Source(error)), Some((code, start, end))) => {
            error.code == code && error.span.start == start && error.span.end == end
        }
        _ => false,
    }
}

fn expect(rt: &impl Abort, alloc: Global, rows: &[Row]) {
    for row in rows {
        let right = is_right(alloc, row);
        assert!(rt; right);
    }
}

const A_SECOND_OPERAND_IS_CHECKED_AGAINST_THE_FIRST: [Row; 9] = [
    (
        b"fn f(x: i32) { let y = x + true; }",
        Some((Code::E07, 27, 31)),
    ),
    (
        b"fn f(x: i32) { let y = x + 1u8; }",
        Some((Code::E07, 27, 30)),
    ),
    (b"fn f(x: u8) -> bool { 1 < x }", None),
    (b"fn f(x: u8) -> bool { x < 1 + 1 }", None),
    (
        b"fn f(x: u8) -> bool { 1 + 1 < x }",
        Some((Code::E07, 30, 31)),
    ),
    (
        b"fn f(x: u8) -> bool { x < 256 }",
        Some((Code::E07, 26, 29)),
    ),
    (b"fn f() { let y: i32 = { let x = 1 + 2; x }; }", None),
    (b"fn f() -> bool { 1u8 == -1 }", Some((Code::E07, 24, 26))),
    (
        b"fn f(x: bool, y: i32) -> bool { x == y }",
        Some((Code::E07, 37, 38)),
    ),
];

/// An operand whose type the other one gives. An integer without a type at its end takes the other operand's type, and only where it
/// is itself the operand.
#[test]
fn a_second_operand_is_checked_against_the_first(rt: HostRuntime) {
    expect(
        &rt,
        rt.alloc(),
        &A_SECOND_OPERAND_IS_CHECKED_AGAINST_THE_FIRST,
    );
}

const AN_EXPECTED_TYPE_GOES_DOWN_INTO_OPERANDS: [Row; 6] = [
    (b"fn f(x: i32) -> u8 { x + 1 }", Some((Code::E07, 21, 22))),
    (b"fn f(x: u8) -> i32 { 1 + x }", Some((Code::E07, 25, 26))),
    (b"fn f(x: u8) -> u8 { x + 1 * 2 }", None),
    (
        b"fn f(x: u8) -> u8 { x + 1 * 300 }",
        Some((Code::E07, 28, 31)),
    ),
    (b"fn f() -> bool { 1 + 2 }", Some((Code::E07, 17, 18))),
    (b"fn f() -> i32 { (1) < (2) }", Some((Code::E07, 16, 25))),
];

/// The refusal is at the part that does not fit.
#[test]
fn an_expected_type_goes_down_into_operands(rt: HostRuntime) {
    expect(&rt, rt.alloc(), &AN_EXPECTED_TYPE_GOES_DOWN_INTO_OPERANDS);
}

const OPERATORS_LOOK_AT_KINDS_ONCE_THEIR_OPERANDS_ARE_TYPED: [Row; 13] = [
    (
        b"fn f(b: bool) { let y = b + b; }",
        Some((Code::E07, 24, 25)),
    ),
    (
        b"fn f(b: bool) { let y = b + 1; }",
        Some((Code::E07, 28, 29)),
    ),
    (
        b"fn f(b: bool) { let y = b + z; }",
        Some((Code::E05, 28, 29)),
    ),
    (
        b"fn f(b: bool) -> bool { b < b }",
        Some((Code::E07, 24, 25)),
    ),
    (b"fn f(b: bool) -> bool { b == b }", None),
    (b"fn f(b: bool) { let y = -b; }", Some((Code::E07, 25, 26))),
    (b"fn f(x: u8) -> u8 { -x }", Some((Code::E07, 21, 22))),
    (b"fn f(x: i8) -> i8 { -x }", None),
    (b"fn f(x: i8) -> bool { !x }", Some((Code::E07, 23, 24))),
    (
        b"fn f(x: i32, b: bool) -> bool { b && x }",
        Some((Code::E07, 37, 38)),
    ),
    (
        b"fn f(x: i32) -> bool { x || z }",
        Some((Code::E07, 23, 24)),
    ),
    (
        b"fn f(mut b: bool) { b += true; }",
        Some((Code::E07, 20, 21)),
    ),
    (
        b"fn f(mut x: i32) { x += true; }",
        Some((Code::E07, 24, 28)),
    ),
];

/// The refusal is at the first operand of a kind that the operator refuses.
#[test]
fn operators_look_at_kinds_once_their_operands_are_typed(rt: HostRuntime) {
    expect(
        &rt,
        rt.alloc(),
        &OPERATORS_LOOK_AT_KINDS_ONCE_THEIR_OPERANDS_ARE_TYPED,
    );
}

const INTEGERS_HAVE_THE_TYPE_THAT_IS_EXPECTED: [Row; 11] = [
    (b"fn f() -> i8 { -128 }", None),
    (b"fn f() -> i8 { -(128) }", None),
    (b"fn f() -> i8 { 128 }", Some((Code::E07, 15, 18))),
    (b"fn f() -> u8 { -1 }", Some((Code::E07, 15, 17))),
    (b"fn f() -> u8 { 255 }", None),
    (b"fn f() -> u8 { (256) }", Some((Code::E07, 16, 19))),
    (b"fn f() -> u8 { 1i8 }", Some((Code::E07, 15, 18))),
    (b"fn f() -> u8 { 300u8 }", Some((Code::E07, 15, 20))),
    (b"fn f() -> bool { 1 }", Some((Code::E07, 17, 18))),
    (b"fn f() { let x = 2147483648; }", Some((Code::E07, 17, 27))),
    (b"fn f() { let x: i64 = 2147483648; }", None),
];

/// `-` before an integer belongs to it, parentheses or not; the span of `(X)` is that of X.
#[test]
fn integers_have_the_type_that_is_expected(rt: HostRuntime) {
    expect(&rt, rt.alloc(), &INTEGERS_HAVE_THE_TYPE_THAT_IS_EXPECTED);
}

const BLOCKS_AND_BRANCHES: [Row; 15] = [
    (b"fn f() -> i32 {}", Some((Code::E07, 14, 16))),
    (b"fn f() -> i32 { 1; }", Some((Code::E07, 14, 20))),
    (b"fn f() -> i32 { {} 3 }", None),
    (b"fn f() -> i32 { { 1 } 3 }", Some((Code::E07, 18, 19))),
    (
        b"fn f(b: bool) -> i32 { if b {} }",
        Some((Code::E07, 23, 30)),
    ),
    (
        b"fn f(b: bool) -> i32 { if b { 1 } }",
        Some((Code::E07, 30, 31)),
    ),
    (b"fn f() -> i32 { if z {} }", Some((Code::E05, 19, 20))),
    (
        b"fn f(b: bool) -> i32 { if b { 1 } else { 2 } 3 }",
        Some((Code::E07, 30, 31)),
    ),
    (b"fn f(b: bool) -> i32 { if b { 1 } else { 2 } }", None),
    (
        b"fn f(b: bool) { let x = if b { 1u8 } else { true }; }",
        Some((Code::E07, 44, 48)),
    ),
    (
        b"fn f(b: bool) -> u8 { let x = if b { 1u8 } else { 2 }; x }",
        None,
    ),
    (b"fn f() { if 1 {} }", Some((Code::E07, 12, 13))),
    (b"fn f() { while 1 {} }", Some((Code::E07, 15, 16))),
    (
        b"fn f(b: bool) { while b { 1 } }",
        Some((Code::E07, 26, 27)),
    ),
    (
        b"fn f(b: bool) -> i32 { while b {} }",
        Some((Code::E07, 23, 33)),
    ),
];

/// A statement that begins with a block, and the body of an `if` without `else`, are expected to be unit.
#[test]
fn blocks_and_branches(rt: HostRuntime) {
    expect(&rt, rt.alloc(), &BLOCKS_AND_BRANCHES);
}

const CALLS: [Row; 10] = [
    (b"fn f() { g() } fn g() {}", None),
    (
        b"fn g(x: i32) {} fn f() { g(); }",
        Some((Code::E07, 25, 28)),
    ),
    (
        b"fn g(x: i32) {} fn f() { g(1, true); }",
        Some((Code::E07, 25, 35)),
    ),
    (
        b"fn g(x: i32) {} fn f() { g(true); }",
        Some((Code::E07, 27, 31)),
    ),
    (
        b"fn g(x: u8, y: bool) {} fn f() { g(1, 2); }",
        Some((Code::E07, 38, 39)),
    ),
    (
        b"fn g() {} fn f() -> i32 { g() }",
        Some((Code::E07, 26, 29)),
    ),
    (b"fn f() { g(); }", Some((Code::E05, 9, 10))),
    (
        b"fn g() {} fn f(g: i32) { g(); }",
        Some((Code::E05, 25, 26)),
    ),
    (
        b"fn g() {} fn f() { let g = 1; g(); }",
        Some((Code::E05, 30, 31)),
    ),
    (b"fn g() {} fn f() { { let g = 1; } g() }", None),
];

/// A call's span is from its first token to its `)`.
#[test]
fn calls(rt: HostRuntime) {
    expect(&rt, rt.alloc(), &CALLS);
}

const NAMES: [Row; 7] = [
    (b"fn f() { x; }", Some((Code::E05, 9, 10))),
    (
        b"fn f() { let y = 1; { let z = 1; } z; }",
        Some((Code::E05, 35, 36)),
    ),
    (
        b"fn f() { let y = { let z = 1; z + 1 }; z; }",
        Some((Code::E05, 39, 40)),
    ),
    (b"fn f(x: i32) { let x = true; let y: bool = x; }", None),
    (b"fn f(x: i32) { { let x = true; } let y: i32 = x; }", None),
    (
        b"fn f(x: i32) { let x: bool = x; }",
        Some((Code::E07, 29, 30)),
    ),
    (b"fn f() { let x = x; }", Some((Code::E05, 17, 18))),
];

/// A name means the last variable of it that is in scope.
#[test]
fn names(rt: HostRuntime) {
    expect(&rt, rt.alloc(), &NAMES);
}

const ASSIGNMENTS: [Row; 9] = [
    (b"fn f(mut x: i32) { x = 1; }", None),
    (b"fn f(x: i32) { x = 1; }", Some((Code::E22, 15, 16))),
    (b"fn f() { let x = 1; x += 1; }", Some((Code::E22, 20, 21))),
    (b"fn f() { let mut x = 1; x += 1; }", None),
    (b"fn f(x: i32) { x = true; }", Some((Code::E07, 19, 23))),
    (b"fn f() { x = y; }", Some((Code::E05, 9, 10))),
    (
        b"fn f(mut x: i32) -> i32 { x = 1 }",
        Some((Code::E07, 26, 31)),
    ),
    (b"fn g() -> i32 { 1 } fn f() { g() = 2; }", None),
    (
        b"fn g() -> i32 { 1 } fn f() { g() = true; }",
        Some((Code::E07, 35, 39)),
    ),
];

/// An assignment to what is no place of a variable writes a temporary.
#[test]
fn assignments(rt: HostRuntime) {
    expect(&rt, rt.alloc(), &ASSIGNMENTS);
}

const NAMES_THAT_ARE_DECLARED_TWICE: [Row; 6] = [
    (b"fn f() {} fn f() {}", Some((Code::E06, 13, 14))),
    (b"fn f(x: i32, x: i32) {}", Some((Code::E06, 13, 14))),
    (
        b"fn f() -> i32 { true } fn f() {}",
        Some((Code::E06, 26, 27)),
    ),
    (
        b"fn f(x: i32, x: i32) {} fn f() {}",
        Some((Code::E06, 13, 14)),
    ),
    (
        b"use std::vec::Vec; fn f() {} fn g() {} fn f() {}",
        Some((Code::E06, 42, 43)),
    ),
    (b"fn f(x: i32) { let x = x; let x = x; }", None),
];

/// Before all types, in source order.
#[test]
fn names_that_are_declared_twice(rt: HostRuntime) {
    expect(&rt, rt.alloc(), &NAMES_THAT_ARE_DECLARED_TWICE);
}

const RESULT_IS_A_NAME_OUTSIDE_OF_ENSURES: [Row; 7] = [
    (
        b"#[requires(result@ < 10)] fn f(result: i32) -> i32 { result }",
        None,
    ),
    (
        b"fn f() -> i32 { let mut result: i32 = 0; #[invariant(result@ >= 0)] while result < 10 { result += 1; } result }",
        None,
    ),
    (
        b"fn f(result: bool) -> i32 { #[invariant(result)] while false {} 0 }",
        None,
    ),
    (
        b"fn f(result: i32) -> bool { #[invariant(result)] while false {} true }",
        Some((Code::E07, 40, 46)),
    ),
    (
        b"#[requires(result@ == 0)] fn f() -> i32 { 0 }",
        Some((Code::E05, 11, 17)),
    ),
    (
        b"fn f() -> i32 { #[invariant(result@ == 0)] while false {} 0 }",
        Some((Code::E05, 28, 34)),
    ),
    (b"fn f() -> i32 { result }", Some((Code::E05, 16, 22))),
];

/// A parameter or a local may have it, and each term but those of `ensures` speaks of that.
#[test]
fn result_is_a_name_outside_of_ensures(rt: HostRuntime) {
    expect(&rt, rt.alloc(), &RESULT_IS_A_NAME_OUTSIDE_OF_ENSURES);
}

const RESULT_IS_THE_ANSWER_IN_ENSURES: [Row; 5] = [
    (b"#[ensures(result@ == 0)] fn f() -> i32 { 0 }", None),
    (
        b"#[ensures(result)] fn f(result: i32) -> bool { true }",
        None,
    ),
    (
        b"#[ensures(result)] fn f(result: bool) -> i32 { 0 }",
        Some((Code::E07, 10, 16)),
    ),
    (b"#[ensures(result)] fn f() {}", Some((Code::E07, 10, 16))),
    (b"#[ensures(result@ == x@)] fn f(x: i32) -> i32 { x }", None),
];

/// It hides a variable of the name.
#[test]
fn result_is_the_answer_in_ensures(rt: HostRuntime) {
    expect(&rt, rt.alloc(), &RESULT_IS_THE_ANSWER_IN_ENSURES);
}

const CONNECTIVES_EXPECT_FORMULAS_OF_EACH_OPERAND_IN_TURN: [Row; 8] = [
    (
        b"#[requires(x && z)] fn f(x: i32) {}",
        Some((Code::E07, 11, 12)),
    ),
    (
        b"#[requires(z && x)] fn f(x: i32) {}",
        Some((Code::E05, 11, 12)),
    ),
    (
        b"#[requires(true || x)] fn f(x: i32) {}",
        Some((Code::E07, 19, 20)),
    ),
    (
        b"#[requires(x ==> z)] fn f(x: i32) {}",
        Some((Code::E07, 11, 12)),
    ),
    (
        b"#[requires(!x)] fn f(x: i32) {}",
        Some((Code::E07, 12, 13)),
    ),
    (b"#[requires(b && !b || b ==> b)] fn f(b: bool) {}", None),
    (b"#[requires(x)] fn f(x: i32) {}", Some((Code::E07, 11, 12))),
    (
        b"#[requires(x@)] fn f(x: i32) {}",
        Some((Code::E07, 11, 13)),
    ),
];

#[test]
fn connectives_expect_formulas_of_each_operand_in_turn(rt: HostRuntime) {
    expect(
        &rt,
        rt.alloc(),
        &CONNECTIVES_EXPECT_FORMULAS_OF_EACH_OPERAND_IN_TURN,
    );
}

const TERMS_LOOK_AT_KINDS_ONCE_THEIR_OPERANDS_ARE_TYPED: [Row; 15] = [
    (
        b"#[requires(b + z == 0)] fn f(b: bool) {}",
        Some((Code::E05, 15, 16)),
    ),
    (
        b"#[requires(b + 1 == 0)] fn f(b: bool) {}",
        Some((Code::E07, 11, 12)),
    ),
    (
        b"#[requires(1 + b == 0)] fn f(b: bool) {}",
        Some((Code::E07, 15, 16)),
    ),
    (
        b"#[requires(b@ == 1)] fn f(b: bool) {}",
        Some((Code::E07, 11, 12)),
    ),
    (
        b"#[requires(-b == 1)] fn f(b: bool) {}",
        Some((Code::E07, 12, 13)),
    ),
    (
        b"#[requires(b < b)] fn f(b: bool) {}",
        Some((Code::E07, 11, 12)),
    ),
    (b"#[requires(b == b)] fn f(b: bool) {}", None),
    (b"#[requires(x < y)] fn f(x: i32, y: i32) {}", None),
    (b"#[requires(x@ < y@ + 1)] fn f(x: i32, y: u8) {}", None),
    (
        b"#[requires(x < y)] fn f(x: i32, y: u8) {}",
        Some((Code::E07, 15, 16)),
    ),
    (
        b"#[requires(x == 1)] fn f(x: i32) {}",
        Some((Code::E07, 16, 17)),
    ),
    (b"#[requires(x == 1i32)] fn f(x: i32) {}", None),
    (
        b"#[requires(x == 200i8)] fn f(x: i8) {}",
        Some((Code::E07, 16, 21)),
    ),
    (b"#[requires(x@ == -1)] fn f(x: i32) {}", None),
    (
        b"#[requires(x@ < b)] fn f(x: i32, b: bool) {}",
        Some((Code::E07, 16, 17)),
    ),
];

/// Literals without a type at their ends, and all arithmetic, are of the unbounded integers.
#[test]
fn terms_look_at_kinds_once_their_operands_are_typed(rt: HostRuntime) {
    expect(
        &rt,
        rt.alloc(),
        &TERMS_LOOK_AT_KINDS_ONCE_THEIR_OPERANDS_ARE_TYPED,
    );
}

const FORMULAS_COME_BEHIND_ALL_BODIES: [Row; 6] = [
    (
        b"#[requires(z)] fn f() {} fn g() { y; }",
        Some((Code::E05, 34, 35)),
    ),
    (
        b"#[requires(z)] fn f() { #[invariant(y)] while false {} }",
        Some((Code::E05, 11, 12)),
    ),
    (
        b"fn f() { #[invariant(y)] while false {} } #[requires(z)] fn g() {}",
        Some((Code::E05, 21, 22)),
    ),
    (
        b"#[requires(true)] #[ensures(y)] fn f() {}",
        Some((Code::E05, 28, 29)),
    ),
    (
        b"fn f(x: i32) { let y = true; #[invariant(y)] while false { let z = 1; } }",
        None,
    ),
    (
        b"fn f() { #[invariant(z)] while false { let z = true; } }",
        Some((Code::E05, 21, 22)),
    ),
];

/// Clauses before bodies, and all of a function before the next.
#[test]
fn formulas_come_behind_all_bodies(rt: HostRuntime) {
    expect(&rt, rt.alloc(), &FORMULAS_COME_BEHIND_ALL_BODIES);
}

const FORMS_THAT_HAVE_NO_TYPE_YET: [Row; 12] = [
    (b"fn f(x: i32) { &x; }", Some((Code::E20, 15, 17))),
    (b"fn f() { let _ = 1; }", Some((Code::E20, 13, 14))),
    (
        b"fn f() { let x: (i32, &bool) = y; }",
        Some((Code::E20, 16, 28)),
    ),
    (b"fn f(x: &i32) {}", Some((Code::E20, 8, 12))),
    (b"fn f<T>() {}", Some((Code::E20, 4, 7))),
    (b"trait T {}", Some((Code::E20, 0, 10))),
    (
        b"fn f(x: (i32, u8)) { if let y = x {} }",
        Some((Code::E20, 21, 36)),
    ),
    (b"fn f() { a::b::c(); }", Some((Code::E20, 9, 18))),
    (b"#[variant(true)] fn f() {}", Some((Code::E20, 0, 16))),
    (
        b"fn f() { #[requires(true)] while true {} }",
        Some((Code::E20, 9, 26)),
    ),
    (b"#[requires(f())] fn f() {}", Some((Code::E20, 11, 14))),
    (b"use std::vec::Vec; #[allow(x)] fn f() {}", None),
];

/// Each at the whole of it.
#[test]
fn forms_that_have_no_type_yet(rt: HostRuntime) {
    expect(&rt, rt.alloc(), &FORMS_THAT_HAVE_NO_TYPE_YET);
}

const QUANTIFIED_TERMS: [Row; 27] = [
    (
        b"#[ensures(forall<k: Int> k <= result@ ==> k <= x@)] fn f(x: i32) -> i32 { x }",
        None,
    ),
    (
        b"fn f(n: u8) { #[invariant(forall<k: u8, b: bool> b ==> k == n)] while true {} }",
        None,
    ),
    (
        b"#[requires(forall<x: bool, y: u8> (forall<x: Int> x < y@) || x)] fn f(x: i32) {}",
        None,
    ),
    (
        b"#[requires((forall<x: bool> x) ==> x)] fn f(x: i32) {}",
        Some((Code::E07, 35, 36)),
    ),
    (
        b"#[requires(forall<k: Int> forall<k: bool> k)] fn f() {}",
        None,
    ),
    (
        b"#[requires(forall<k: Int, k: bool> k)] fn f() {}",
        Some((Code::E06, 26, 27)),
    ),
    (
        b"#[requires((forall<k: Int> k == 0) && k == 0)] fn f() {}",
        Some((Code::E05, 38, 39)),
    ),
    (
        b"#[requires(forall<k: Int> k + 1)] fn f() {}",
        Some((Code::E07, 26, 31)),
    ),
    (
        b"#[requires(forall<k: Int> k < x)] fn f(x: i32) {}",
        Some((Code::E07, 30, 31)),
    ),
    (
        b"#[requires(1 + (forall<k: Int> true) == 2)] fn f() {}",
        Some((Code::E07, 16, 35)),
    ),
    (
        b"struct S; #[requires(forall<k: Int, s: S> k)] fn f() {}",
        Some((Code::E07, 42, 43)),
    ),
    (b"#[requires(forall<p: (Int, bool)> true)] fn f() {}", None),
    (
        b"#[requires(forall<p: Box<Int>> true)] fn f() {}",
        Some((Code::E20, 21, 29)),
    ),
    (b"#[requires(exists<k: Int> k == 0)] fn f() {}", None),
    (
        b"#[ensures(exists<k: u8, k: u8> k == k)] fn f() {}",
        Some((Code::E06, 24, 25)),
    ),
    (
        b"#[ensures(exists<k: u8> k@ + 1)] fn f() {}",
        Some((Code::E07, 24, 30)),
    ),
    (b"#[requires(forall<> true)] fn f() {}", None),
    (
        b"#[ensures((forall<result: bool> result) || result@ == 0)] fn f() -> i32 { 0 }",
        None,
    ),
    (
        b"#[requires((forall<result: bool> result) || result@ == 0)] fn f(result: i32) {}",
        None,
    ),
    (b"fn f(x: Int) {}", Some((Code::E05, 8, 11))),
    (
        b"struct P { x: i32, y: bool } #[requires(forall<p: P> p.y ==> p == p)] fn f() {}",
        None,
    ),
    (
        b"struct W<T> { x: T } #[requires(forall<w: W<bool>> w.x)] fn f() {}",
        None,
    ),
    (
        b"#[requires(exists<o: Option<i32>> o == o)] fn f() {}",
        None,
    ),
    (
        b"struct W<T> { x: T } #[requires(forall<w: W> true)] fn f() {}",
        Some((Code::E07, 42, 43)),
    ),
    (
        b"#[requires(forall<p: bool<u8>> true)] fn f() {}",
        Some((Code::E07, 21, 29)),
    ),
    (
        b"#[requires(forall<p: T> true)] fn f() {}",
        Some((Code::E05, 21, 22)),
    ),
    (
        b"struct R<'a> { r: &'a u8 } #[requires(forall<r: R> true)] fn f() {}",
        Some((Code::E20, 48, 49)),
    ),
];

/// What a quantifier binds hides other variables, and the answer, in its body alone.
#[test]
fn quantified_terms(rt: HostRuntime) {
    expect(&rt, rt.alloc(), &QUANTIFIED_TERMS);
}

const TUPLE_TERMS: [Row; 12] = [
    (b"#[requires((x@, true).0 == 1)] fn f(x: i32) {}", None),
    (b"#[requires((1, 2) == (x@, 2))] fn f(x: i32) {}", None),
    (
        b"#[requires((1, 2) == (1, true))] fn f() {}",
        Some((Code::E07, 21, 30)),
    ),
    (
        b"#[requires((1, 2).2 == 1)] fn f() {}",
        Some((Code::E05, 18, 19)),
    ),
    (
        b"#[requires((1, 2).0u8 == 1)] fn f() {}",
        Some((Code::E05, 18, 21)),
    ),
    (
        b"#[requires(x.0 == 1)] fn f(x: i32) {}",
        Some((Code::E05, 13, 14)),
    ),
    (
        b"#[requires((x, y).0 == 1)] fn f() {}",
        Some((Code::E05, 12, 13)),
    ),
    (b"#[requires(((1, true), 2).0.1)] fn f() {}", None),
    (
        b"#[requires(forall<p: (Int, bool)> p.1 ==> p.0 == 0)] fn f() {}",
        None,
    ),
    (b"#[requires(() == ())] fn f() {}", None),
    (
        b"#[requires((1, 2).0)] fn f() {}",
        Some((Code::E07, 11, 19)),
    ),
    (
        b"struct S; #[requires(forall<p: (Int, S)> true)] fn f() {}",
        None,
    ),
];

/// Tuples and their parts.
#[test]
fn tuple_terms(rt: HostRuntime) {
    expect(&rt, rt.alloc(), &TUPLE_TERMS);
}

const CHOICE_TERMS: [Row; 6] = [
    (
        b"#[requires(if c { x@ == 1 } else { false })] fn f(c: bool, x: i32) {}",
        None,
    ),
    (
        b"#[requires(if true { 1 } else { 2 } == 1)] fn f() {}",
        None,
    ),
    (
        b"#[requires(if x { true } else { false })] fn f(x: i32) {}",
        Some((Code::E07, 14, 15)),
    ),
    (
        b"#[requires(if true { 1 } else { false } == 1)] fn f() {}",
        Some((Code::E07, 32, 37)),
    ),
    (
        b"#[requires(if true { y } else { z })] fn f() {}",
        Some((Code::E05, 21, 22)),
    ),
    (
        b"#[requires(if true { 1 } else { 2 })] fn f() {}",
        Some((Code::E07, 11, 35)),
    ),
];

/// `if` of a term has a formula for its condition, and sides of one sort, which is that of the whole.
#[test]
fn choice_terms(rt: HostRuntime) {
    expect(&rt, rt.alloc(), &CHOICE_TERMS);
}

const MISSING_ARMS: [Row; 2] = [
    (
        b"fn f(b: bool) -> i32 { match b { true => 1 } }",
        Some((Code::E11, 23, 44)),
    ),
    (
        b"fn f(b: bool) -> i32 { match b { true => 1, false => 2 } }",
        None,
    ),
];

/// A match that leaves a value out is refused at its whole.
#[test]
fn missing_arms(rt: HostRuntime) {
    expect(&rt, rt.alloc(), &MISSING_ARMS);
}
