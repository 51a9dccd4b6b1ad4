//! Fields and parts of declared types in the terms of contracts and of invariants, from the texts of sources.
use crate::assigning::{Row, expect};
use text_core::Code;

const NAMED: [Row; 17] = [
    (
        b"struct P { x: i32, y: bool } #[requires(p.y)] fn f(p: P) {}",
        None,
    ),
    (
        b"struct P { x: i32, y: bool } #[requires(p.x@ == 1)] fn f(p: P) {}",
        None,
    ),
    (
        b"struct P { x: i32, y: bool } #[requires(p.x)] fn f(p: P) {}",
        Some((Code::E07, 40, 43)),
    ),
    (
        b"struct P { x: i32, y: bool } #[requires(p.z)] fn f(p: P) {}",
        Some((Code::E05, 42, 43)),
    ),
    (
        b"struct P { x: i32, y: bool } #[requires(p.0)] fn f(p: P) {}",
        Some((Code::E05, 42, 43)),
    ),
    (
        b"struct P { x: i32, y: bool } #[requires(q.x == 1)] fn f(p: P) {}",
        Some((Code::E05, 40, 41)),
    ),
    (
        b"struct P { x: i32, y: bool } #[requires(p.x < q.x && p.x == q.x)] fn f(p: P, q: P) {}",
        None,
    ),
    (
        b"struct P { x: i32, y: bool } #[requires(p.x == p.y)] fn f(p: P) {}",
        Some((Code::E07, 47, 50)),
    ),
    (
        b"struct P { x: i32, y: bool } #[requires(p == (if p.y { p } else { q }))] fn f(p: P, q: P) {}",
        None,
    ),
    (
        b"struct P { x: i32, y: bool } struct Q { p: P, n: u8 } #[requires(q.p.y && q.p.x@ == q.n@ + 1)] fn f(q: Q) {}",
        None,
    ),
    (
        b"struct P { x: i32, y: bool } struct Q { p: P, n: u8 } #[requires(q.p == p)] fn f(q: Q, p: P) {}",
        None,
    ),
    (
        b"struct P { x: i32, y: bool } struct Q { p: P, n: u8 } #[requires(q.n.x)] fn f(q: Q) {}",
        Some((Code::E05, 69, 70)),
    ),
    (
        b"#[requires(b.x)] fn f(b: bool) {}",
        Some((Code::E05, 13, 14)),
    ),
    (
        b"#[requires(t.x)] fn f(t: (bool, u8)) {}",
        Some((Code::E05, 13, 14)),
    ),
    (
        b"enum E { A, B(i32) } #[requires(e.x)] fn f(e: E) {}",
        Some((Code::E05, 34, 35)),
    ),
    (
        b"struct P { x: i32, y: bool } #[requires(p.y())] fn f(p: P) {}",
        Some((Code::E20, 40, 45)),
    ),
    (
        b"struct P { x: i32, y: bool } #[requires(g().y)] fn f(p: P) {} fn g() -> P { P { x: 1, y: true } }",
        Some((Code::E20, 40, 43)),
    ),
];

/// A field is told by its name, which is refused where the struct has none, as in what is no struct.
#[test]
fn fields_have_names(rt: HostRuntime) {
    expect(&rt, rt.alloc(), &NAMED);
}

const NUMBERED: [Row; 10] = [
    (b"struct T(i32, bool); #[requires(t.1)] fn f(t: T) {}", None),
    (
        b"struct T(i32, bool); #[requires(t.0@ == 1)] fn f(t: T) {}",
        None,
    ),
    (
        b"struct T(i32, bool); #[requires(t.0)] fn f(t: T) {}",
        Some((Code::E07, 32, 35)),
    ),
    (
        b"struct T(i32, bool); #[requires(t.2)] fn f(t: T) {}",
        Some((Code::E05, 34, 35)),
    ),
    (
        b"struct T(i32, bool); #[requires(t.1u8)] fn f(t: T) {}",
        Some((Code::E05, 34, 37)),
    ),
    (
        b"struct T(i32, bool); #[requires(t.x)] fn f(t: T) {}",
        Some((Code::E05, 34, 35)),
    ),
    (
        b"struct S; #[requires(s.0)] fn f(s: S) {}",
        Some((Code::E05, 23, 24)),
    ),
    (
        b"enum E { A, B(i32) } #[requires(e.0 == 1)] fn f(e: E) {}",
        Some((Code::E05, 34, 35)),
    ),
    (
        b"#[requires(o.0 == 1)] fn f(o: Option<i32>) {}",
        Some((Code::E05, 13, 14)),
    ),
    (
        b"struct T(i32, bool); #[requires((t, 1).0.1 && (t.0, t.1).1)] fn f(t: T) {}",
        None,
    ),
];

/// A part of a tuple struct is told by its number, at which one that is not there is refused.
#[test]
fn parts_have_numbers(rt: HostRuntime) {
    expect(&rt, rt.alloc(), &NUMBERED);
}

const TYPES: [Row; 9] = [
    (
        b"struct W<A> { a: A } #[requires(w.a@ == 1)] fn f(w: W<u8>) {}",
        None,
    ),
    (
        b"struct W<A> { a: A } #[requires(w.a)] fn f(w: W<bool>) {}",
        None,
    ),
    (
        b"struct W<A> { a: A } #[requires(w.a)] fn f(w: W<u8>) {}",
        Some((Code::E07, 32, 35)),
    ),
    (
        b"struct W<A> { a: A } #[requires(w.a.1 && w.a.0@ == 2)] fn f(w: W<(u8, bool)>) {}",
        None,
    ),
    (
        b"struct W<A> { a: A } #[requires(w.a.a)] fn f(w: W<W<bool>>) {}",
        None,
    ),
    (
        b"struct L { v: u8, n: Option<Box<L>> } #[requires(l.v@ == 0 && l.n == m.n)] fn f(l: L, m: L) {}",
        None,
    ),
    (
        b"struct P { x: i32, y: bool } #[requires(b.y)] fn f(b: Box<P>) {}",
        Some((Code::E20, 40, 43)),
    ),
    (
        b"struct P { x: i32, y: bool } #[requires(b.z)] fn f(b: Box<P>) {}",
        Some((Code::E20, 40, 43)),
    ),
    (
        b"#[requires(b.1)] fn f(b: Box<(u8, bool)>) {}",
        Some((Code::E20, 11, 14)),
    ),
];

/// A field has the type that it has at the type's arguments; behind a box nothing is looked for.
#[test]
fn fields_have_types(rt: HostRuntime) {
    expect(&rt, rt.alloc(), &TYPES);
}

const AROUND: [Row; 9] = [
    (
        b"struct P { x: i32, y: bool } #[ensures(result.y && result.x == p.x)] fn f(p: P) -> P { p }",
        None,
    ),
    (
        b"struct P { x: i32, y: bool } #[ensures(result.z)] fn f(p: P) -> P { p }",
        Some((Code::E05, 46, 47)),
    ),
    (
        b"struct P { x: i32, y: bool } #[requires(result.y)] fn f(p: P) -> P { p }",
        Some((Code::E05, 40, 46)),
    ),
    (
        b"struct P { x: i32, y: bool } fn f(p: P) { #[invariant(p.y)] while false {} }",
        None,
    ),
    (
        b"struct P { x: i32, y: bool } fn f(p: P) { #[invariant(p.z)] while false {} }",
        Some((Code::E05, 56, 57)),
    ),
    (
        b"struct P { x: i32, y: bool } fn f() { let p = P { x: 1, y: true }; #[invariant(p.x@ == 1)] loop {} }",
        None,
    ),
    (
        b"struct P { x: i32, y: bool } #[requires(forall<p: (Int, bool)> p.y)] fn f(p: P) {}",
        Some((Code::E05, 65, 66)),
    ),
    (
        b"struct P { x: i32, y: bool } #[requires(forall<k: Int> k == p.x@ ==> p.y)] fn f(p: P) {}",
        None,
    ),
    (
        b"struct P { x: i32, y: bool } #[requires(if p.y { p.x == q.x } else { q.y })] fn f(p: P, q: P) {}",
        None,
    ),
];

/// The answer has fields, and so has what is in scope where an invariant stands; what a quantifier binds hides it.
#[test]
fn fields_stand_everywhere(rt: HostRuntime) {
    expect(&rt, rt.alloc(), &AROUND);
}
