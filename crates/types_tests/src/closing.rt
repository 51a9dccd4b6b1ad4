use crate::build::table;
use std::alloc::Global;
use std::test::Fail;
use text_core::{Code, PassError, SourceError};

/// Declared types, each by its variants, and what they are refused for: the code, and the start of its span. Names start at 100 and so on, the
/// types of a variant's fields at 1000 and so on.
type Row = (&'static [&'static [&'static [u8]]], Option<(Code, u32)>);

/// `Option<T>` stands first in many rows, and `List<T> { Nil, Cons(T, Box<List<T>>) }` second where it is needed.
const RECURSIVE: [Row; 20] = [
    (&[], None),
    // struct S { n: u8 }
    (&[&[b"u"]], None),
    // enum E { }
    (&[&[]], Some((Code::E10, 100))),
    // struct S { s: S }
    (&[&[b"a"]], Some((Code::E10, 100))),
    // struct S { s: Box<S> }
    (&[&[b"*a"]], Some((Code::E10, 100))),
    // enum E { None, Some(E) }
    (&[&[b"", b"a"]], Some((Code::E10, 100))),
    // enum E { None, Some(Box<E>) }
    (&[&[b"", b"*a"]], None),
    // struct M { l: L } struct L { n: L }
    (&[&[b"b"], &[b"b"]], Some((Code::E10, 100))),
    // struct U { n: u8 } struct M { l: L } struct L { n: L }
    (&[&[b"u"], &[b"c"], &[b"c"]], Some((Code::E10, 101))),
    // struct A { b: Box<B> } struct B { a: A }
    (&[&[b"*b"], &[b"a"]], Some((Code::E10, 100))),
    // struct A { o: Option<A> }
    (&[&[b"", b"0"], &[b"Ab"]], Some((Code::E10, 101))),
    // struct A { o: Option<Box<A>> }
    (&[&[b"", b"0"], &[b"A*b"]], None),
    // struct Tree { kids: List<Box<Tree>> }
    (&[&[b"", b"0"], &[b"", b"0*B0"], &[b"B*c"]], None),
    // struct Tree { kids: List<Tree> }
    (
        &[&[b"", b"0"], &[b"", b"0*B0"], &[b"Bc"]],
        Some((Code::E10, 102)),
    ),
    // struct Far<T> { far: Box<T> } struct A { far: Far<A> }
    (&[&[b"*0"], &[b"Ab"]], Some((Code::E10, 101))),
    // enum Far<T> { Nil, Far(Box<T>) } struct A { far: Far<A> }
    (&[&[b"", b"*0"], &[b"Ab"]], None),
    // struct Deep<T> { deep: Option<Deep<(T, T)>> }
    (&[&[b"", b"0"], &[b"ABt00"]], Some((Code::E10, 101))),
    // struct Deep<T> { deep: Option<Box<Deep<(T, T)>>> }
    (&[&[b"", b"0"], &[b"A*Bt00"]], None),
    // struct In<T> { o: Out<T> } struct Out<T> { t: T } struct A { i: In<A> }
    (&[&[b"B0"], &[b"0"], &[b"Ac"]], Some((Code::E10, 102))),
    // struct Pair<T> { one: T, other: Box<Pair<T>> }
    (&[&[b"0*A0"]], Some((Code::E10, 100))),
];

const NESTED: [Row; 14] = [
    // struct S { r: &u8 }
    (&[&[b"&u"]], None),
    // struct S { r: &&u8 }
    (&[&[b"&&u"]], Some((Code::E09, 1000))),
    // struct S { n: u8, r: &&u8 }
    (&[&[b"u&&u"]], Some((Code::E09, 1001))),
    // struct S { r: (&u8, &u8) }
    (&[&[b"t&u&u"]], None),
    // struct S { r: &Box<&u8> }
    (&[&[b"&*&u"]], Some((Code::E09, 1000))),
    // struct S { r: &Option<u8> }
    (&[&[b"", b"0"], &[b"&Au"]], None),
    // struct S { r: &Option<&u8> }
    (&[&[b"", b"0"], &[b"&A&u"]], Some((Code::E09, 1000))),
    // struct W<T> { r: &T } struct V { n: u8, w: W<u8> }
    (&[&[b"&0"], &[b"uAu"]], None),
    // struct W<T> { r: &T } struct V { n: u8, w: W<&u8> }
    (&[&[b"&0"], &[b"uA&u"]], Some((Code::E09, 1001))),
    // struct P<T> { q: Q<&T> } struct Q<T> { t: T } struct V { p: P<u8> }
    (&[&[b"B&0"], &[b"0"], &[b"Au"]], None),
    // struct P<T> { q: Q<&T> } struct Q<T> { t: T } struct V { p: P<&u8> }
    (&[&[b"B&0"], &[b"0"], &[b"A&u"]], Some((Code::E09, 1000))),
    // struct A { b: (u8, B) } struct B { a: &A }: within A a reference to an A stands
    (&[&[b"tub"], &[b"&a"]], Some((Code::E09, 1000))),
    // struct S { r: &&u8, s: S }: its fields come before itself
    (&[&[b"&&ua"]], Some((Code::E09, 1000))),
    // struct S { s: S } struct T { r: &&u8 }: what stands before comes first
    (&[&[b"a"], &[b"&&u"]], Some((Code::E10, 100))),
];

fn is_refused(e: SourceError, wanted: (Code, u32)) -> bool {
    e.code == wanted.0 && e.span.start == wanted.1
}

fn is_closed(alloc: Global, row: Row) -> Result<bool, PassError> {
    let table = table(alloc, row.0)?;
    Ok(match (table.close(alloc), row.1) {
        (Ok(()), None) => true,
        (Err(PassError::Source(e)), Some(wanted)) => is_refused(e, wanted),
        _ => false,
    })
}

#[test]
fn recursive_types(rt: HostRuntime) {
    let mut at = 0u32;
    for row in RECURSIVE {
        let holds = is_closed(rt.alloc(), row).unwrap_or(false);
        assert!(rt; holds, "row {at}");
        at = at.wrapping_add(1);
    }
}

#[test]
fn references_in_references(rt: HostRuntime) {
    let mut at = 0u32;
    for row in NESTED {
        let holds = is_closed(rt.alloc(), row).unwrap_or(false);
        assert!(rt; holds, "row {at}");
        at = at.wrapping_add(1);
    }
}
