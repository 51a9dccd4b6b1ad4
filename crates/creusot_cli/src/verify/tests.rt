use super::creusot;
use io_edge::{MemoryShelf, MemorySink, ShelfError};
use std::alloc::Global;
use std::collections::BTreeMap;
use std::test::Fail;

pub(crate) const SOURCE: &[u8] =
    b"#[requires(x@ < 100)]\n#[ensures(result@ == x@ + 1)]\nfn inc(x: i32) -> i32 { x + 1 }\n";

pub(crate) const PROOFS: &[u8] =
    b"creusot-proofs 1\nproof 1 inc\nintro x\nrange x\nsplit\nlin 1:goal 1:2.1\nlin 1:goal 1:1.1\nend\nproof 2 inc\nintro x t\nhyp 1.2\nend\n";

pub(crate) const REPORT: &[u8] =
    b"verified inc\nsummary functions 1 verified 1 obligations 2 proved 2\n";

/// The same function without its first line.
const WITHOUT_BOUND: &[u8] = b"#[ensures(result@ == x@ + 1)]\nfn inc(x: i32) -> i32 { x + 1 }\n";

/// A call: the files `s` and `p`, the words, and the calls of the shelf and of the sink that fail.
#[derive(Clone, Copy, Drop)]
pub(crate) struct Call<'a> {
    pub source: &'a [u8],
    pub proofs: &'a [u8],
    pub words: &'a [&'a str],
    pub failing_reads: &'a [u64],
    pub most_each: u64,
    pub failing_writes: &'a [u64],
}

impl Call<'_> {
    /// `verify s --proofs p` with nothing failing.
    pub fn of<'a>(source: &'a [u8], proofs: &'a [u8]) -> Call<'a> {
        Call {
            source,
            proofs,
            ..INC
        }
    }

    fn shelf(&self, alloc: Global) -> Result<MemoryShelf, ShelfError> {
        let mut files = BTreeMap::new(alloc);
        let source = String::from_str(alloc, "s")?;
        files.insert(source, Vec::from_slice(alloc, self.source)?)?;
        let proofs = String::from_str(alloc, "p")?;
        files.insert(proofs, Vec::from_slice(alloc, self.proofs)?)?;
        let failing = Vec::from_slice(alloc, self.failing_reads)?;
        Ok(MemoryShelf::new(files, failing))
    }

    fn words(&self, alloc: Global) -> Result<Vec<String>, ShelfError> {
        let mut words = Vec::new(alloc);
        for text in self.words {
            words.push(String::from_str(alloc, text)?)?;
        }
        Ok(words)
    }

    /// The status, and the sink with what was printed.
    fn run(&self, alloc: Global) -> Result<(u8, MemorySink), ShelfError> {
        let mut shelf = self.shelf(alloc)?;
        let words = self.words(alloc)?;
        let failing = Vec::from_slice(alloc, self.failing_writes)?;
        let mut out = MemorySink::new(alloc, self.most_each, failing);
        let status = creusot(alloc, words.as_slice(), &mut shelf, &mut out);
        Ok((status, out))
    }

    /// Whether the call answers this status and prints this.
    pub fn gives(&self, alloc: Global, wanted: u8, printed: &[u8]) -> Result<bool, ShelfError> {
        let (status, out) = self.run(alloc)?;
        Ok(status == wanted && out.written() == printed)
    }
}

/// Sources and proofs, with the status and what is printed.
const REPORTS: [(&[u8], &[u8], u8, &[u8]); 12] = [
    (SOURCE, PROOFS, 0, REPORT),
    (
        WITHOUT_BOUND,
        b"creusot-proofs 1\nproof 2 inc\nintro x t\nhyp 1.1\nend\n",
        1,
        b"open 1 overflow 56..57 line 2 missing inc\nsummary functions 1 verified 0 obligations 2 proved 1\n",
    ),
    (
        SOURCE,
        b"creusot-proofs 1\nproof 1 inc\nintro x\nrange x\nsplit\nlin 1:goal -1:2.2\nlin 1:goal 1:1.1\nend\nproof 2 inc\nintro x t\nhyp 1.2\nend\n",
        1,
        b"open 1 overflow 78..79 line 3 proof:6 inc\nsummary functions 1 verified 0 obligations 2 proved 1\n",
    ),
    (
        SOURCE,
        b"creusot-proofs 1\nproof 1 inc\nintro x\nrange x\nsplit\nlin 1 goal\nlin 1:goal 1:1.1\nend\nproof 2 inc\nintro x t\nhyp 1.2\nend\n",
        4,
        b"error proof 6\n",
    ),
    (
        b"",
        b"creusot-proofs 1\n",
        0,
        b"summary functions 0 verified 0 obligations 0 proved 0\n",
    ),
    (
        b"#[requires(y@ != 0)]\nfn quo(x: i32, y: i32) -> i32 { x / y }\n",
        b"creusot-proofs 1\nproof 1 quo\nintro x y\nhyp 1.1\nend\n",
        1,
        b"open 2 overflow 55..56 line 2 missing quo\nsummary functions 1 verified 0 obligations 2 proved 1\n",
    ),
    (
        b"#[requires(n@ >= 0)]\n#[ensures(result@ >= n@)]\nfn up(n: i32) -> i32 { let mut i: i32 = 0; #[invariant(i@ <= n@)] while i < n { i += 1; } i }\n",
        b"creusot-proofs 1\nproof 1 up\nintro n\nhyp 1.1\nend\nproof 2 up\nintro n i\nrange i\nrange n\nsplit\nlin 1:goal 1:2.1\nlin 1:goal 1:1.3 1:3.2\nend\nproof 3 up\nintro n i v\nlin 1:goal 1:1.3 1:1.4\nend\nproof 4 up\nintro n i\nlin 1:goal 1:1.3\nend\n",
        0,
        b"verified up\nsummary functions 1 verified 1 obligations 4 proved 4\n",
    ),
    (
        b"#[ensures(forall<k: Int> k <= result@ ==> k <= x@)]\nfn id(x: i32) -> i32 { x }\n",
        b"creusot-proofs 1\nproof 1 id\nintro x k\nhyp 1.1\nend\n",
        0,
        b"verified id\nsummary functions 1 verified 1 obligations 1 proved 1\n",
    ),
    (
        b"fn up(n: i32) { let mut i: i32 = 0; #[invariant(forall<k: Int> k <= i@ ==> k < i@ + 1)] while i < n { i += 1; } }\n",
        b"creusot-proofs 1\nproof 1 up\nintro n k\nlin 1:goal 1:1.1\nend\nproof 2 up\nintro n i\nrange i\nrange n\nsplit\nlin 1:goal 1:2.1\nlin 1:goal 1:1.2 1:3.2\nend\nproof 3 up\nintro n i v k\nlin 1:goal 1:1.4\nend\n",
        0,
        b"verified up\nsummary functions 1 verified 1 obligations 3 proved 3\n",
    ),
    // What leaves: nothing is owed for a loop, and no run may come to a panic.
    (
        b"fn f(b: bool) -> bool { loop { if b { return b; } else { continue; } } }",
        b"creusot-proofs 1\n",
        0,
        b"verified f\nsummary functions 1 verified 1 obligations 0 proved 0\n",
    ),
    (
        b"fn f() { panic!(\"no\"); }",
        b"creusot-proofs 1\n",
        1,
        b"open 1 unreachable 9..21 line 1 missing f\nsummary functions 1 verified 0 obligations 1 proved 0\n",
    ),
    (
        b"#[requires(x@ > 0)]\nfn f(x: i32) -> i32 { if x < 1 { panic!() } x }\n",
        b"creusot-proofs 1\nproof 1 f\nintro x\nlin 1:1.1 1:1.2\nend\n",
        0,
        b"verified f\nsummary functions 1 verified 1 obligations 1 proved 1\n",
    ),
];

#[test]
fn reports_are_byte_for_byte(rt: HostRuntime) -> Result<(), Fail> {
    for (at, (source, proofs, status, printed)) in REPORTS.iter().enumerate() {
        let call = Call::of(source, proofs);
        assert!(rt; call.gives(rt.alloc(), *status, printed)?, "row {at}");
    }
    Ok(())
}

/// Sources, and what is printed of their refusal.
const REFUSED: [(&[u8], &[u8]); 19] = [
    // The words in their order, and tokens.
    (b"fn f(x: f64) -> i64 { x }", b"error E20 8..11 line 1\n"),
    (
        b"fn f(a: i32, b: i32, c: i32) -> bool { a < b < c }",
        b"error E03 45..46 line 1\n",
    ),
    (
        b"fn f() -> i32 { ((((((((((((((((((((((((((((((((((((((((((((((((((((((((((((((((",
        b"error E04 79..80 line 1\n",
    ),
    (b"fn f() {", b"error E03 8..8 line 1\n"),
    (b"\n#[foo] fn f() {}", b"error E20 3..6 line 2\n"),
    (b"fn f() {} /* a /* b */", b"error E02 10..22 line 1\n"),
    // Names.
    (
        b"fn f() {} fn g() {} fn f() {}",
        b"error E06 23..24 line 1\n",
    ),
    (b"fn f(x: i32, x: i32) {}", b"error E06 13..14 line 1\n"),
    (b"fn f() -> i32 { x }", b"error E05 16..17 line 1\n"),
    (b"fn f() { g() }", b"error E05 9..10 line 1\n"),
    // Types.
    (b"fn f(x: i32) -> bool { x }", b"error E07 23..24 line 1\n"),
    (b"fn f() -> u8 { 256 }", b"error E07 15..18 line 1\n"),
    (b"fn f(x: u8) -> u8 { -x }", b"error E07 21..22 line 1\n"),
    (b"fn f(x: i32) { x = 1; }", b"error E22 15..16 line 1\n"),
    // Formulas, behind the types of all functions.
    (
        b"#[requires(y@ > 0)] fn f(x: i32) {} fn g() -> i32 { true }",
        b"error E07 52..56 line 1\n",
    ),
    (
        b"#[requires(y@ > 0)] fn f(x: i32) {}",
        b"error E05 11..12 line 1\n",
    ),
    (
        b"#[ensures(x > 0)] fn f(x: i32) {}",
        b"error E07 14..15 line 1\n",
    ),
    (
        b"fn f(x: i32) -> u8 { x as u8 }",
        b"error E07 21..28 line 1\n",
    ),
    // What a match leaves out.
    (
        b"fn f(b: bool) -> i32 { match b { true => 1 } }",
        b"error E11 23..44 line 1\n",
    ),
];

#[test]
fn sources_are_refused_where_they_fail(rt: HostRuntime) -> Result<(), Fail> {
    for (at, (source, printed)) in REFUSED.iter().enumerate() {
        let call = Call::of(source, b"");
        assert!(rt; call.gives(rt.alloc(), 3, printed)?, "row {at}");
    }
    Ok(())
}

/// Sources with forms that are not built, and what is printed of them.
const NOT_BUILT: [(&[u8], &[u8]); 23] = [
    (b"trait T {}", b"error E20 0..5 line 1\n"),
    (b"fn f<T>() {}", b"error E20 4..5 line 1\n"),
    (b"fn f(x: &u32) {}", b"error E20 8..9 line 1\n"),
    (
        b"fn f(x: u32) { match x { (y, z) => {} } }",
        b"error E20 25..26 line 1\n",
    ),
    (b"fn f() { loop { a.b(); } }", b"error E20 16..17 line 1\n"),
    (b"fn f(x: u32) { x.y(); }", b"error E20 15..16 line 1\n"),
    (b"fn f() { let (a, b) = 1; }", b"error E20 13..14 line 1\n"),
    (
        b"fn f(x: i32) -> u8 { x as &u8 }",
        b"error E20 26..27 line 1\n",
    ),
    (b"fn f() { return a.b() }", b"error E20 16..17 line 1\n"),
    // Behind what is passed over, and attributes at their `#`.
    (
        b"use std::mem; pub trait T {}",
        b"error E20 18..23 line 1\n",
    ),
    (b"#[invariant(true)] fn f() {}", b"error E20 0..1 line 1\n"),
    (b"#[requires(true)] struct S;", b"error E20 0..1 line 1\n"),
    (
        b"fn f() {}\n#[inline] #[ensures(true)] pub enum E { A }",
        b"error E20 20..21 line 2\n",
    ),
    (b"#[logic] fn f() -> Int { 1 }", b"error E20 0..1 line 1\n"),
    (
        b"fn f() { #[requires(true)] while true {} }",
        b"error E20 9..10 line 1\n",
    ),
    // Forms whose first words a built form could begin with.
    (
        b"fn f(x: u32) { snapshot!(x); }",
        b"error E20 15..23 line 1\n",
    ),
    (
        b"fn f(x: u32) { proof_assert!(x == 1); }",
        b"error E20 15..27 line 1\n",
    ),
    (
        b"#[requires(exists<i: &S> true)] fn f(x: u32) {}",
        b"error E20 21..22 line 1\n",
    ),
    (
        b"#[requires(x == 1 && MutRef(x, x) == x)] fn f(x: u32) {}",
        b"error E20 21..27 line 1\n",
    ),
    (b"fn f() { let x = a.b(); }", b"error E20 17..18 line 1\n"),
    (b"fn f() { *x; }", b"error E20 9..10 line 1\n"),
    // A promise before a `use` line is none of the function behind it.
    (
        b"#[requires(false)] use std::mem; fn f() {}",
        b"error E20 0..1 line 1\n",
    ),
    // The whole grammar first.
    (b"struct S; fn f() { 1 + }", b"error E03 23..24 line 1\n"),
];

/// Sources whose declarations are refused, and what is printed of them.
const BADLY_DECLARED: [(&[u8], &[u8]); 10] = [
    (b"struct L { n: L }", b"error E10 7..8 line 1\n"),
    (
        b"struct S<'a> { r: &'a &'a i32 }",
        b"error E09 18..29 line 1\n",
    ),
    (b"struct A; struct A;", b"error E06 17..18 line 1\n"),
    (b"fn f() {} fn f() {}", b"error E06 13..14 line 1\n"),
    (b"struct S { x: T }", b"error E05 14..15 line 1\n"),
    (b"struct S { r: &i32 }", b"error E08 14..18 line 1\n"),
    (b"struct S { b: Box }", b"error E07 14..17 line 1\n"),
    (b"enum E {}", b"error E10 5..6 line 1\n"),
    // Before all code, in the order of the items.
    (
        b"fn f() -> i32 { true }\nstruct A { b: B }\nstruct B { a: A, x: C }",
        b"error E10 30..31 line 2\n",
    ),
    (
        b"struct S { x: i32 }\nfn f(x: i32) -> i32 { x + true }",
        b"error E07 46..50 line 2\n",
    ),
];

#[test]
fn declarations_are_refused_where_they_fail(rt: HostRuntime) -> Result<(), Fail> {
    for (at, (source, printed)) in BADLY_DECLARED.iter().enumerate() {
        let call = Call::of(source, b"");
        assert!(rt; call.gives(rt.alloc(), 3, printed)?, "row {at}");
    }
    Ok(())
}

/// Declared types in all forms, before and behind functions over integers.
const DECLARED: &[u8] = b"#[derive(Clone, Copy)]
pub struct Point { pub x: i32, pub y: i32 }
struct Unit;
fn same(x: i32) -> i32 { x }
enum List<T> { Nil, Cons(T, Box<List<T>>), Both { one: (T, u8), rest: Box<Self> } }
struct Shelf<'a, T> { all: &'a mut List<T>, first: Option<&'a Point> }
fn other(x: bool) -> bool { !x }
";

#[test]
fn declared_types_are_taken(rt: HostRuntime) -> Result<(), Fail> {
    let call = Call::of(DECLARED, b"creusot-proofs 1\n");
    let printed =
        b"verified same\nverified other\nsummary functions 2 verified 2 obligations 0 proved 0\n";
    assert!(rt; call.gives(rt.alloc(), 0, printed)?);
    Ok(())
}

#[test]
fn forms_that_are_not_built_are_refused(rt: HostRuntime) -> Result<(), Fail> {
    for (at, (source, printed)) in NOT_BUILT.iter().enumerate() {
        let call = Call::of(source, b"");
        assert!(rt; call.gives(rt.alloc(), 3, printed)?, "row {at}");
    }
    Ok(())
}

/// The source in other spellings.
const SPELLINGS: [&[u8]; 3] = [
    b"#![allow(unused)]\nuse creusot_contracts::*;\nuse std::mem;\n\n#[requires(x@ < 100)]\n#[inline]\n#[ensures(result@ == x@ + 1)]\npub fn inc(x: i32) -> i32 {\n    x + 1\n}\n",
    b"/* a /* b */ */ extern crate creusot_contracts; #[doc = \"c\"]\n#[requires(x@<0x64)]#[ensures(result@==x@+1)]pub(crate)fn/**/inc(x:i32,)->i32{(x+1_i32)}// d",
    b"#[must_use]#[ensures((result@) == (x@ + 1))]\n#[requires(x@ < 100)]\nfn inc(x: i32) -> i32 { ((x) + 1) }",
];

#[test]
fn sources_are_read_in_any_spelling(rt: HostRuntime) -> Result<(), Fail> {
    for (at, source) in SPELLINGS.iter().enumerate() {
        let call = Call::of(source, PROOFS);
        assert!(rt; call.gives(rt.alloc(), 0, REPORT)?, "row {at}");
    }
    Ok(())
}

#[test]
fn callers_of_open_functions_are_not_verified(rt: HostRuntime) -> Result<(), Fail> {
    // g and h call one another, h calls the open k; l calls none of them.
    let source = b"fn g() { h() }\nfn h() { g(); k() }\n#[ensures(false)]\nfn k() {}\nfn l() {}\n";
    let printed =
        b"verified l\nopen 1 ensures 45..50 line 3 missing k\nsummary functions 4 verified 1 obligations 1 proved 0\n";
    let call = Call::of(source, b"creusot-proofs 1\n");
    assert!(rt; call.gives(rt.alloc(), 1, printed)?);
    Ok(())
}

pub(crate) const INC: Call<'static> = Call {
    source: SOURCE,
    proofs: PROOFS,
    words: &["verify", "s", "--proofs", "p"],
    failing_reads: &[],
    most_each: 1000,
    failing_writes: &[],
};

/// What a call prints where the file of proofs ends before this byte.
fn printed_at_cut(alloc: Global, at: usize) -> Result<String, ShelfError> {
    // Behind the first line, and behind the `end` of the first proof.
    if at == 17 {
        return Ok(String::from_str(
            alloc,
            "open 1 overflow 78..79 line 3 missing inc\nopen 2 ensures 32..49 line 2 missing inc\nsummary functions 1 verified 0 obligations 2 proved 0\n",
        )?);
    }
    if at == 89 {
        return Ok(String::from_str(
            alloc,
            "open 2 ensures 32..49 line 2 missing inc\nsummary functions 1 verified 0 obligations 2 proved 1\n",
        )?);
    }
    let feeds = PROOFS.iter().take(at).filter(|b| **b == b'\n').count();
    Ok(format!(in alloc; "error proof {}\n", feeds.saturating_add(1))?)
}

/// Whether a call prints that where the file of proofs has these bytes.
fn is_printed_at_cut(alloc: Global, proofs: &[u8]) -> Result<bool, ShelfError> {
    let (_status, out) = Call::of(SOURCE, proofs).run(alloc)?;
    let printed = printed_at_cut(alloc, proofs.len())?;
    Ok(out.written() == printed.as_bytes())
}

#[test]
fn cut_proof_files_are_refused(rt: HostRuntime) -> Result<(), Fail> {
    for at in 0..PROOFS.len() {
        assert!(rt;
            is_printed_at_cut(rt.alloc(), &PROOFS[..at])?,
            "cut at {at}"
        );
    }
    Ok(())
}

/// Sources, with the status and what is printed of their obligations.
const LISTS: [(&[u8], u8, &[u8]); 5] = [
    (
        WITHOUT_BOUND,
        0,
        b"obligation 1 overflow 56..57 line 2 inc\n(forall<v1: i32> (((-2147483648) <= (v1@ + 1)) && ((v1@ + 1) <= 2147483647)))\nobligation 2 ensures 10..27 line 1 inc\n(forall<v1: i32> (forall<v2: i32> ((v2@ == (v1@ + 1)) ==> (v2@ == (v1@ + 1)))))\n",
    ),
    (
        b"#[requires(y@ != 0)]\nfn quo(x: i32, y: i32) -> i32 { x / y }\n",
        0,
        b"obligation 1 division 55..56 line 2 quo\n(forall<v1: i32> (forall<v2: i32> ((!(v2@ == 0)) ==> (!(v2@ == 0)))))\nobligation 2 overflow 55..56 line 2 quo\n(forall<v1: i32> (forall<v2: i32> ((!(v2@ == 0)) ==> (!((v1@ == (-2147483648)) && (v2@ == (-1)))))))\n",
    ),
    (
        SOURCE,
        0,
        b"obligation 1 overflow 78..79 line 3 inc\n(forall<v1: i32> ((v1@ < 100) ==> (((-2147483648) <= (v1@ + 1)) && ((v1@ + 1) <= 2147483647))))\nobligation 2 ensures 32..49 line 2 inc\n(forall<v1: i32> ((v1@ < 100) ==> (forall<v2: i32> ((v2@ == (v1@ + 1)) ==> (v2@ == (v1@ + 1))))))\n",
    ),
    (b"", 0, b""),
    (b"fn f() {", 3, b"error E03 8..8 line 1\n"),
];

#[test]
fn obligations_are_listed(rt: HostRuntime) -> Result<(), Fail> {
    for (at, (source, status, printed)) in LISTS.iter().enumerate() {
        let call = Call {
            words: &["list", "s"],
            ..Call::of(source, b"")
        };
        assert!(rt; call.gives(rt.alloc(), *status, printed)?, "row {at}");
    }
    Ok(())
}
