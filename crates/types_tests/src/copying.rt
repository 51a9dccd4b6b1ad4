//! Which types are `Copy`, for tables of declared types that need not be accepted, and for the texts of sources.
use crate::build::{decl, types};
use declared_types::declare;
use logic_term::{AdtDecl, AdtId, CompoundTy, Ty};
use rs_syntax::parse;
use rs_types::CopyTypes;
use std::alloc::Global;
use std::test::Fail;
use text_core::{Names, NoMemory};

/// A declared type by its variants, and whether it derives `Copy`.
type Decl = (&'static [&'static [u8]], bool);

/// Declared types, a type, and whether it is `Copy`.
type Row = (&'static [Decl], &'static [u8], bool);

const PLAIN: [Row; 17] = [
    (&[], b"u", true),
    (&[], b"o", true),
    (&[], b"z", false),
    (&[], b"*u", false),
    (&[], b"&u", true),
    (&[], b"&*u", true),
    (&[], b"~u", false),
    (&[], b"&~u", true),
    (&[], b"s*u", true),
    (&[], b"tuo", true),
    (&[], b"tu*u", false),
    (&[], b"t&*utou", true),
    (&[], b"0", false),
    (&[], b"&0", true),
    (&[], b"tu0", false),
    // no such type is declared
    (&[], b"a", false),
    (&[(&[b"u"], true)], b"b", false),
];

const DECLARED: [Row; 24] = [
    (&[(&[b"uo"], true)], b"a", true),
    (&[(&[b"uo"], false)], b"a", false),
    (&[(&[b"u*u"], true)], b"a", false),
    (&[(&[], true)], b"a", true),
    (&[(&[b"", b"uo"], true)], b"a", true),
    (&[(&[b"", b"uo", b"*u"], true)], b"a", false),
    (&[(&[b"0"], true)], b"Au", true),
    (&[(&[b"0"], true)], b"A*u", false),
    (&[(&[b"0"], true)], b"A&*u", true),
    (&[(&[b"0"], true)], b"A0", false),
    (&[(&[b"0"], true)], b"AAAu", true),
    (&[(&[b"0"], true)], b"AAA*u", false),
    (&[(&[b"tu0"], true)], b"Au", true),
    (&[(&[b"tu0"], true)], b"A*u", false),
    (&[(&[b"u&0"], true)], b"A*u", true),
    (&[(&[b"u"], true)], b"A*u", true),
    (&[(&[b"*0"], true)], b"Au", false),
    // a type argument that is needed is missing
    (&[(&[b"0"], true)], b"a", false),
    (&[(&[b"1"], true)], b"Au", false),
    (&[(&[b"&1"], true)], b"Au", true),
    // struct In<T> { o: Out<T> } struct Out<T> { p: (u8, T) }
    (&[(&[b"B0"], true), (&[b"tu0"], true)], b"Au", true),
    (&[(&[b"B0"], true), (&[b"tu0"], true)], b"A*u", false),
    // struct In<T> { o: Out<Box<T>> } struct Out<T> { r: &T }
    (&[(&[b"B*0"], true), (&[b"&0"], true)], b"A*u", true),
    (&[(&[b"b"], true), (&[b"u"], false)], b"a", false),
];

const RECURSIVE: [Row; 10] = [
    // struct S { s: S }
    (&[(&[b"a"], true)], b"a", false),
    // struct M { l: L } struct L { n: L }
    (&[(&[b"b"], true), (&[b"b"], true)], b"a", false),
    // struct A { b: B } struct B { a: A }
    (&[(&[b"ub"], true), (&[b"ua"], true)], b"b", false),
    // struct A { b: (u8, B) } struct B { a: &A }
    (&[(&[b"tub"], true), (&[b"&a"], true)], b"a", true),
    // enum E { None, Some(Box<E>) }
    (&[(&[b"", b"*a"], true)], b"a", false),
    // struct A { o: Option<Box<A>> }
    (&[(&[b"", b"0"], true), (&[b"A*b"], true)], b"b", false),
    // struct Deep<T> { deep: Option<Deep<(T, T)>> }
    (&[(&[b"", b"0"], true), (&[b"ABt00"], true)], b"Bu", false),
    // struct Far<T> { r: &T } struct Deep<T> { far: Far<Deep<(T, T)>> }
    (&[(&[b"&0"], true), (&[b"ABt00"], true)], b"B*u", true),
    // struct Far<T> { r: &T } struct A { n: u8, far: Far<A> }
    (&[(&[b"&0"], true), (&[b"uAb"], true)], b"b", true),
    // struct A { c: C } struct B { n: u8 } struct C { b: B }
    (
        &[(&[b"c"], true), (&[b"u"], true), (&[b"b"], true)],
        b"a",
        true,
    ),
];

fn decls(alloc: Global, all: &[Decl]) -> Result<Vec<AdtDecl>, NoMemory> {
    let mut made = Vec::with_capacity(alloc, all.len())?;
    for row in all {
        let mut one = decl(alloc, 100, row.0)?;
        one.copy = row.1;
        made.push(one)?;
    }
    Ok(made)
}

fn is_answered(alloc: Global, row: &Row) -> Result<bool, NoMemory> {
    let decls = decls(alloc, row.0)?;
    let copied = CopyTypes::of(alloc, decls.as_slice())?;
    let t = types(alloc, row.1)?.pop().ok_or(NoMemory)?;
    Ok(copied.is_copy(&t) == row.2)
}

/// The place of the first row that is answered otherwise; so many as there are where none is.
fn first_wrong(alloc: Global, rows: &[Row]) -> usize {
    for i in 0..rows.len() {
        if !is_answered(alloc, &rows[i]).unwrap_or(false) {
            return i;
        }
    }
    rows.len()
}

#[test]
fn types_without_declarations(rt: HostRuntime) {
    let at = first_wrong(rt.alloc(), &PLAIN);
    assert!(rt; at == 17, "row {at}");
}

#[test]
fn declared_types(rt: HostRuntime) {
    let at = first_wrong(rt.alloc(), &DECLARED);
    assert!(rt; at == 24, "row {at}");
}

#[test]
fn types_that_hold_themselves(rt: HostRuntime) {
    let at = first_wrong(rt.alloc(), &RECURSIVE);
    assert!(rt; at == 10, "row {at}");
}

/// A source, and whether the last type that it declares is `Copy`; that has no type parameters.
const SOURCES: [(&[u8], bool); 15] = [
    (b"#[derive(Clone, Copy)] struct P(i32, bool);", true),
    (b"struct P(i32, bool);", false),
    (b"#[derive(Clone)] struct P(i32, bool);", false),
    (
        b"#[derive(Copy)] struct Q(bool); #[derive(Copy)] struct P(i32, Q);",
        true,
    ),
    (b"struct Q(bool); #[derive(Copy)] struct P(i32, Q);", false),
    (b"#[derive(Copy)] struct P(i32, Box<i32>);", false),
    (b"#[derive(Copy)] struct P(Option<i32>);", true),
    (b"#[derive(Copy)] struct P(Option<Box<i32>>);", false),
    (b"#[derive(Copy)] struct P<'a>(&'a Box<i32>);", true),
    (b"#[derive(Copy)] struct P<'a>(&'a mut i32);", false),
    (
        b"#[derive(Copy)] struct W<'a, T>(&'a T); #[derive(Copy)] struct P<'a>(W<'a, Box<i32>>);",
        true,
    ),
    (
        b"#[derive(Copy)] struct W<T>((i32, T)); #[derive(Copy)] struct P(W<Box<i32>>);",
        false,
    ),
    (
        b"#[derive(Copy)] struct W<S, T>(Option<T>, i32); #[derive(Copy)] struct P(W<Box<i32>, i32>);",
        true,
    ),
    (
        b"#[derive(Copy)] enum P { None, One(i32), Two { a: bool, b: () } }",
        true,
    ),
    (b"#[derive(Copy)] struct P { next: Option<Box<P>> }", false),
];

fn last_is_copy(alloc: Global, source: &[u8]) -> Option<bool> {
    if source.len() > 1000 {
        return None;
    }
    let mut names = Names::new(alloc);
    let items = parse(alloc, source, &mut names).ok()?;
    let declared = declare(alloc, items.as_slice()).ok()?;
    let decls = declared.table.decls();
    let last = AdtId(u32::try_from(decls.len()).ok()?.checked_sub(1)?);
    let written = CompoundTy::Adt(last, Vec::new(alloc), Vec::new(alloc));
    let t = Ty::compound(alloc, written).ok()?;
    Some(CopyTypes::of(alloc, decls).ok()?.is_copy(&t))
}

#[test]
fn declared_types_of_sources(rt: HostRuntime) {
    let mut at = 0u32;
    for row in SOURCES {
        let answer = last_is_copy(rt.alloc(), row.0);
        assert!(rt; answer == Some(row.1), "row {at}");
        at = at.wrapping_add(1);
    }
}
