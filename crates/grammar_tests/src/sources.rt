//! Texts that are sources of the whole grammar or are refused where they cannot continue.
use source_grammar::{SyntaxFault, parse_source};
use source_words::{Word, kinds_of_words, words_of};
use std::alloc::Global;
use std::process::Abort;
use text_core::{Code, Names, Span};

/// A text, and its refusal with the offsets of its span, if it is refused.
type Row = (&'static [u8], Option<(Code, u32, u32)>);

/// The span of the word at that position, or the end of the text.
fn span_at(words: &[Word], position: usize, end: u32) -> Span {
    match words.get(position) {
        Some(word) => word.span,
        None => Span { start: end, end },
    }
}

/// The code and the position of a fault; `None` where memory was short.
fn told(fault: SyntaxFault) -> Option<(Code, usize)> {
    match fault {
        SyntaxFault::Stray(position) => Some((Code::E03, position)),
        SyntaxFault::LeftOut(position) => Some((Code::E20, position)),
        SyntaxFault::TooDeep(position) => Some((Code::E04, position)),
        SyntaxFault::NoMemory => None,
    }
}

/// The text is spelled, or refused with this code and these offsets.
pub fn is_answered(alloc: Global, text: &[u8], refusal: Option<(Code, u32, u32)>) -> bool {
    if text.len() > 1 << 20 {
        return false;
    }
    let mut names = Names::new(alloc);
    let Ok(words) = words_of(alloc, text, &mut names) else {
        return false;
    };
    let Ok(kinds) = kinds_of_words(alloc, words.as_slice()) else {
        return false;
    };
    match parse_source(alloc, kinds.as_slice()) {
        Ok(_) => refusal.is_none(),
        Err(fault) => match (told(fault), refusal) {
            (Some((code, position)), Some((wanted, start, end))) => {
                let span = span_at(words.as_slice(), position, text.len() as u32);
                code == wanted && span.start == start && span.end == end
            }
            _ => false,
        },
    }
}

/// All forms, and the first token that cannot continue.
const FORMS: [Row; 86] = [
    (b"", None),
    (b"fn f() {}", None),
    (
        b"#![allow(x)]\n#![feature(a)]\nuse creusot_contracts::*;\nuse std::mem;\npub fn f() {}",
        None,
    ),
    (
        b"fn f(a: i32, b: i32, c: i32) -> bool { a < b < c }",
        Some((Code::E03, 45, 46)),
    ),
    (
        b"fn f() -> i32 { ((((((((((((((((((((((((((((((((((((((((((((((((((((((((((((((((",
        Some((Code::E04, 79, 80)),
    ),
    (
        b"pub(crate) struct S { pub a: u32, b: Box<T> } struct T(pub u32, (u8,)); struct U;",
        None,
    ),
    (
        b"enum List<'a, T: Copy + View> { Nil, Cons(&'a mut T, Box<List<'a, T>>), R { x: u32 } }",
        None,
    ),
    (
        b"trait Rank { #[logic] fn rank(self) -> Int; #[law] #[ensures(a@ >= 0)] fn l(a: u32); fn g(&self) -> u32; }",
        None,
    ),
    (
        b"impl Rank for S { type ViewTy = Int; #[logic] fn rank(self) -> Int { pearlite! { self.a@ + 1 } } pub fn g(&self) -> u32 { self.a } }",
        None,
    ),
    (
        b"#[logic] #[ensures(result >= 0)] fn len(l: List) -> Int { match l { List::Nil => 0, List::Cons(v, t) => 1 + len(*t) } }",
        None,
    ),
    (
        b"#[requires((*x)@ + n@ <= 4294967295)] fn add(x: &mut u32, n: u32) { let old = snapshot!(*x); let mut i: u32 = 0; #[invariant(i@ <= n@ && (*x)@ == (*old)@ + i@)] while i < n { *x += 1; i += 1; } }",
        None,
    ),
    (
        b"fn f() { let g = #[requires(x@ < 3)] |x: u32| -> u32 { x + 1 }; g(2); let h = move || 3; match x { A => 1, B(y) => { 2 } C { z, .. } => if a { 1 } else { 2 }, _ => return, } }",
        None,
    ),
    (
        b"fn f() { if S { a: 1 } == s {} }",
        Some((Code::E03, 17, 18)),
    ),
    (b"fn f() { if (S { a: 1 }) == s {} }", None),
    (b"fn f() { S { a: 1 }; }", None),
    (b"fn f() { let x = 1 as u8 < 2; }", None),
    (
        b"fn f() { x::<u32>::new(); Vec::<T>::new(3); a::b::c::<T>(x); <T as Tr>::f(x); x.m::<T>(1).0.y(2)(3); }",
        None,
    ),
    (b"fn f() { let x; }", Some((Code::E20, 14, 15))),
    (b"fn f() { unsafe {} }", Some((Code::E20, 9, 15))),
    (b"fn f() { vec!(1) }", Some((Code::E20, 9, 12))),
    (b"fn f(x: f64) {}", Some((Code::E20, 8, 11))),
    (b"fn f() { x[0] }", Some((Code::E20, 10, 11))),
    (b"#[foo] fn f() {}", Some((Code::E20, 2, 5))),
    (b"type X = u8;", Some((Code::E20, 0, 4))),
    (b"const X: u8 = 1;", Some((Code::E20, 0, 5))),
    (b"mod m {}", Some((Code::E20, 0, 3))),
    (b"use foo::bar;", Some((Code::E20, 0, 3))),
    (b"use;", Some((Code::E03, 3, 4))),
    (b"fn f() { for i in 0..3 {} }", Some((Code::E20, 9, 12))),
    (b"fn f() { x? }", Some((Code::E20, 10, 11))),
    (b"fn f() { |x| x }", Some((Code::E20, 11, 12))),
    (b"fn f() { &&x }", Some((Code::E03, 9, 11))),
    (b"fn f() { a + }", Some((Code::E03, 13, 14))),
    (b"fn f() {", Some((Code::E03, 8, 8))),
    (b"fn f() { ; }", Some((Code::E03, 9, 10))),
    (b"fn f() { {}; }", None),
    (b"fn f() { {};; }", Some((Code::E03, 12, 13))),
    (
        b"#[requires(forall<i: Int> 0 <= i ==> i < n@ ==> exists<j: u32> j@ == i)] fn f(n: u32) {}",
        None,
    ),
    (
        b"#[ensures(result == x && MutRef(a, b) == c)] fn f() {}",
        None,
    ),
    (
        b"#[ensures(result(3))] fn f() {}",
        Some((Code::E03, 16, 17)),
    ),
    (b"#[ensures(x as u8)] fn f() {}", Some((Code::E20, 12, 14))),
    (
        b"fn f() { match x { a if b => 1 } }",
        Some((Code::E20, 21, 23)),
    ),
    (
        b"fn f<F: Fn(u32) -> bool + Copy>(g: F) where F: FnOnce(u8), 'a: 'b {}",
        None,
    ),
    (
        b"fn f() { if let Some(p) = a && b {} while let x = y {} }",
        None,
    ),
    (
        b"fn f() { if a && let x = y {} }",
        Some((Code::E03, 17, 20)),
    ),
    (b"fn f() { x = y = z; x += 1; a.b += c; *p = 3; }", None),
    (b"fn f() -> u32 { return 3; }", None),
    (b"fn f() { let f = |x: u32| x + 1; }", None),
    (b"fn f() { #[invariant(a)] while x {} 1 }", None),
    (
        b"fn f() { #[requires(a)] |x: u32| -> u32 { x } (3); }",
        None,
    ),
    (
        b"fn f() { panic!(\"a\"); unreachable!(); proof_assert!(x == y); }",
        None,
    ),
    (b"fn f() { break; continue }", None),
    (b"impl f32 {}", Some((Code::E20, 5, 8))),
    (b"impl<T> S<T> where T: A { }", None),
    (b"impl Tr for &S {}", None),
    (b"fn f(x: Self::ViewTy, y: Self) {}", None),
    (b"fn f(x: Self::Foo) {}", Some((Code::E20, 12, 14))),
    (b"fn f();", Some((Code::E03, 6, 7))),
    (b"#[law] fn f();", None),
    (
        b"fn pearlite(result: u32) -> u32 { let forall = result; panic }",
        Some((Code::E03, 61, 62)),
    ),
    (
        b"#[logic] fn f() -> Int { pearlite }",
        Some((Code::E03, 34, 35)),
    ),
    (b"#[logic] fn f() -> Int { x + pearlite }", None),
    (
        b"fn f() { let S { a .. } = s; let (a, (b,)) = t; let -1 = x; }",
        None,
    ),
    (b"fn f() { a..b }", Some((Code::E20, 10, 12))),
    (b"fn f(x: &'static u8) {}", Some((Code::E20, 9, 16))),
    (b"fn f() { 'a: loop {} }", Some((Code::E20, 9, 11))),
    (b"#[ensures(1 + as)] fn f() {}", Some((Code::E20, 14, 16))),
    (
        b"fn f() { proof_assert!(x as u8 == y); }",
        Some((Code::E20, 25, 27)),
    ),
    (b"fn f() { 1 + as }", Some((Code::E03, 13, 15))),
    (
        b"fn f() { match x { S { a } | b => 1 } }",
        Some((Code::E20, 27, 28)),
    ),
    (
        b"fn f() { match x { A => 1 if b } }",
        Some((Code::E03, 26, 28)),
    ),
    (b"fn f() { x 'a: loop {} }", Some((Code::E20, 11, 13))),
    (b"fn f() { let x: u8; }", Some((Code::E20, 18, 19))),
    (b"fn f() { x = ; }", Some((Code::E03, 13, 14))),
    (b"fn f() { (x; }", Some((Code::E03, 11, 12))),
    (b"impl S { type ViewTy; }", Some((Code::E03, 20, 21))),
    (
        b"fn f() { let x = a.b else { return }; }",
        Some((Code::E20, 21, 25)),
    ),
    (
        b"fn f() { let x = if a { b } else { c } else { d }; }",
        Some((Code::E20, 39, 43)),
    ),
    (b"fn f() { a else {} }", Some((Code::E03, 11, 15))),
    (b"fn f<T>() where <T as A>: B {}", Some((Code::E20, 16, 17))),
    (b"fn f() where T: A, (u8): B {}", Some((Code::E20, 19, 20))),
    (b"fn f() where &T: B {}", Some((Code::E20, 13, 14))),
    (b"fn f<(>() {}", Some((Code::E03, 5, 6))),
    (b"union U { a: u8 }", Some((Code::E20, 0, 5))),
    (b"fn f() { x box }", Some((Code::E20, 11, 14))),
    (b"fn union(box: u8) { let yield = box; S { union } }", None),
];

/// What is left out of Rust, and what is told apart by the tokens behind.
const REFUSALS: [Row; 78] = [
    (b"fn f() {} #![allow(x)]", Some((Code::E03, 11, 12))),
    (b"fn f() { #![allow(x)] }", Some((Code::E03, 10, 11))),
    (b"use std!;", None),
    (b"use creusot_contracts ! { } ;", None),
    (
        b"extern crate creusot_contracts!;",
        Some((Code::E03, 30, 31)),
    ),
    (
        b"impl i32 { type ViewTy ! = u8; }",
        Some((Code::E03, 23, 24)),
    ),
    (b"fn f() -> Self::ViewTy ! {}", Some((Code::E03, 23, 24))),
    (b"fn f() { let x: f32! = 1; }", Some((Code::E20, 16, 19))),
    (b"fn f() { x foo!() }", Some((Code::E03, 11, 14))),
    (b"fn f() { let mut a: i32 = 0; a += 1 = {}; }", None),
    (
        b"impl i32 { pub(crate) fn f() {} }",
        Some((Code::E03, 14, 15)),
    ),
    (b"fn f() { if return == x {} }", None),
    (b"fn f() { while return && x {} }", None),
    (b"#[requires(type)] fn f() {}", Some((Code::E03, 11, 15))),
    (b"use std impl; type X = u8;", Some((Code::E20, 14, 18))),
    (
        b"#[requires(x. as u8)] fn f() {}",
        Some((Code::E20, 14, 16)),
    ),
    (
        b"#[requires(forall<x as u8> x)] fn f() {}",
        Some((Code::E20, 20, 22)),
    ),
    (b"fn f() { let x: 'a: u8; }", Some((Code::E20, 16, 18))),
    (b"fn f() { if let x ; }", Some((Code::E03, 18, 19))),
    (b"fn f() { while let x ; }", Some((Code::E03, 21, 22))),
    (b"fn f() { let x if true = 1; }", Some((Code::E20, 15, 17))),
    (b"fn f() { return < a; }", Some((Code::E03, 19, 20))),
    (b"fn f() { if return {} x {} }", Some((Code::E03, 22, 23))),
    (b"fn f() { a::b::<T>::c }", Some((Code::E03, 18, 20))),
    (b"fn f() { x::y!() }", Some((Code::E03, 13, 14))),
    (b"fn f() { pearlite!() }", Some((Code::E03, 17, 18))),
    (b"fn f() { use foo::bar; }", Some((Code::E20, 9, 12))),
    (b"fn f() { use std::mem; }", Some((Code::E03, 9, 12))),
    (b"fn f() { |x: u32| x }", None),
    (b"fn f() { match x {} }", None),
    (b"fn f<>() {}", None),
    (b"fn f() { if let p = a && b {} }", None),
    (b"fn f() { return; }", None),
    (b"#[logic] fn f() -> Int { pearlite! { x } }", None),
    (
        b"#[logic] fn f() -> Int { pearlite + 1 }",
        Some((Code::E03, 34, 35)),
    ),
    (b"struct S; #[law] struct T;", None),
    (b"trait T { fn f() {} }", Some((Code::E03, 17, 18))),
    (b"fn f() { let y = x.0.1; }", None),
    (b"fn f() { a < b == c }", Some((Code::E03, 15, 17))),
    (b"fn f() { x as u8 < y }", None),
    (b"fn f() { #[a] x }", Some((Code::E20, 11, 12))),
    (
        b"fn f() { let x = async { 1 }; }",
        Some((Code::E20, 17, 22)),
    ),
    (b"fn f(x: [u8]) {}", Some((Code::E20, 8, 9))),
    (b"fn f(x: dyn T) {}", Some((Code::E20, 8, 11))),
    (b"static X: u8 = 1;", Some((Code::E20, 0, 6))),
    (b"fn f() { let ref x = y; }", Some((Code::E20, 13, 16))),
    (
        b"fn f() { match x { a @ b => 1 } }",
        Some((Code::E20, 21, 22)),
    ),
    (b"fn f() { a ^ b }", Some((Code::E20, 11, 12))),
    (b"fn f() { a & b }", Some((Code::E20, 11, 12))),
    (b"fn f() { \"a\" }", Some((Code::E20, 9, 12))),
    (b"fn f(x: char) {}", Some((Code::E20, 8, 12))),
    (b"fn f() { yield x }", Some((Code::E03, 15, 16))),
    (b"fn f() { x.await }", Some((Code::E20, 11, 16))),
    (b"enum f32 {}", None),
    (b"fn f<T: f32>() {}", None),
    (
        b"impl S { fn f() { type X = u8; } }",
        Some((Code::E03, 18, 22)),
    ),
    (b"impl S { const X: u8 = 1; }", Some((Code::E20, 9, 14))),
    (b"#[derive(Clone, Copy)] struct S;", None),
    (b"#[doc = \"x\"] fn f() {}", None),
    (b"#[allow(a[b{c}])] fn f() {}", None),
    (b"#[allow(] fn f() {}", Some((Code::E03, 8, 9))),
    (b"#![a] fn f() {}", None),
    (b"fn f() { S { a: 1, ..s } }", Some((Code::E20, 19, 21))),
    (b"fn f() { dyn }", Some((Code::E20, 9, 12))),
    (b"fn f() { await }", Some((Code::E20, 9, 14))),
    (b"fn f(ref x: u8) {}", Some((Code::E20, 5, 8))),
    (b"fn f() { yield }", None),
    (b"fn f() { x yield }", Some((Code::E20, 11, 16))),
    (b"fn f() { x @ y }", Some((Code::E20, 11, 12))),
    (b"fn f() { x ^ y }", Some((Code::E20, 11, 12))),
    (b"fn f() { x & y }", Some((Code::E20, 11, 12))),
    (b"fn f(x: str) {}", Some((Code::E20, 8, 11))),
    (b"fn f(x: i128) {}", Some((Code::E20, 8, 12))),
    (b"fn f(x: u128) {}", Some((Code::E20, 8, 12))),
    (b"fn f(x: f32) {}", Some((Code::E20, 8, 11))),
    (b"fn f() { x | y }", Some((Code::E20, 11, 12))),
    (b"fn f() { mod m {} }", Some((Code::E20, 9, 12))),
    (b"fn f() { const X: u8 = 1; }", Some((Code::E20, 9, 14))),
];

#[test]
fn texts_are_spelled_or_refused_where_they_cannot_continue(rt: HostRuntime) {
    for (text, refusal) in FORMS {
        assert!(rt; is_answered(rt.alloc(), text, refusal));
    }
}

#[test]
fn what_is_left_out_is_told_at_its_first_token(rt: HostRuntime) {
    for (text, refusal) in REFUSALS {
        assert!(rt; is_answered(rt.alloc(), text, refusal));
    }
}
