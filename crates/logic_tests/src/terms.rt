use crate::written::{X, Y, term};
use logic_term::{
    AdtId, CompoundTy, Ctor, Region, Renaming, Replacement, Term, Ty, TyNode, reduce,
};
use source_kinds::{ArithOp, IntKind};
use std::alloc::Global;
use std::test::Fail;
use text_core::{Name, NoMemory};

/// `Tree<'1, (u8, last)>`
fn tree_of(alloc: Global, last: TyNode) -> Result<Ty, NoMemory> {
    let mut parts = Vec::with_capacity(alloc, 2)?;
    parts.push(Ty::int(IntKind::U8))?;
    parts.push(Ty { node: last })?;
    let mut types = Vec::with_capacity(alloc, 1)?;
    types.push(Ty {
        node: TyNode::Tuple(parts),
    })?;
    let regions = Vec::from_slice(alloc, &[Region(1)])?;
    Ty::compound(alloc, CompoundTy::Adt(AdtId(3), regions, types))
}

const RANGES: [(IntKind, i128, i128); 5] = [
    (IntKind::I8, -128, 127),
    (IntKind::U8, 0, 255),
    (IntKind::I32, -2147483648, 2147483647),
    (IntKind::U64, 0, 18446744073709551615),
    (IntKind::Isize, -9223372036854775808, 9223372036854775807),
];

#[test]
fn ranges(rt: HostRuntime) {
    for (kind, lowest, highest) in &RANGES {
        assert!(rt; kind.lowest() == *lowest, "the least is not {lowest}");
        assert!(rt; kind.highest() == *highest, "the greatest is not {highest}");
    }
}

/// Whether the trees of both types are the same.
fn same_trees(alloc: Global, a: TyNode, b: TyNode) -> Result<bool, NoMemory> {
    Ok(tree_of(alloc, a)?.same(&tree_of(alloc, b)?))
}

fn tree_is_copied(alloc: Global) -> Result<bool, NoMemory> {
    let tree = tree_of(alloc, TyNode::Bool)?;
    Ok(tree.copy(alloc)?.same(&tree))
}

#[test]
fn types(rt: HostRuntime) -> Result<(), Fail> {
    let alloc = rt.alloc();
    assert!(rt; tree_is_copied(alloc)?);
    assert!(rt; same_trees(alloc, TyNode::Bool, TyNode::Bool)?);
    assert!(rt; !same_trees(alloc, TyNode::Bool, TyNode::MathInt)?);
    Ok(())
}

#[test]
fn sorts_of_literals(rt: HostRuntime) -> Result<(), Fail> {
    let alloc = rt.alloc();
    let one = Term::lit(alloc, 1, Ty::int(IntKind::I32))?;
    assert!(rt; one.same(alloc, &Term::lit(alloc, 1, Ty::int(IntKind::I32))?)?);
    assert!(rt; !one.same(alloc, &Term::integer(alloc, 1)?)?);
    Ok(())
}

fn is_shared(alloc: Global, t: &Term) -> Result<bool, NoMemory> {
    t.share()?.same(alloc, t)
}

#[test]
fn names_in_terms(rt: HostRuntime) -> Result<(), Fail> {
    let alloc = rt.alloc();
    let t = term(alloc, b"Y=xy")?;
    assert!(rt; is_shared(alloc, &t)?);
    assert!(rt; t.above(alloc)? == 8);
    for (name, free) in &[(X, true), (Y, false), (Name(8), false)] {
        assert!(rt; t.free_in(alloc, *name)? == *free, "name {}", name.0);
    }
    Ok(())
}

/// Whether `by` for the name makes `wanted` of the term.
fn becomes(
    alloc: Global,
    t: &Term,
    name: Name,
    by: &Term,
    wanted: &Term,
) -> Result<bool, NoMemory> {
    t.replaced(alloc, name, by)?.same(alloc, wanted)
}

#[test]
fn no_name_is_captured(rt: HostRuntime) -> Result<(), Fail> {
    let alloc = rt.alloc();
    let t = term(alloc, b"Y=xy")?;
    let bound = Term::equal(alloc, Term::var(alloc, Y)?, Term::var(alloc, Name(8))?)?;
    let wanted = Term::forall(alloc, Name(8), Ty::int(IntKind::I32), bound)?;
    assert!(rt; becomes(alloc, &t, X, &Term::var(alloc, Y)?, &wanted)?);
    Ok(())
}

#[test]
fn bound_names(rt: HostRuntime) -> Result<(), Fail> {
    let alloc = rt.alloc();
    let t = term(alloc, b"Xl@x1")?;
    assert!(rt; t.same_up_to_names(alloc, &term(alloc, b"Yl@y1")?)?);
    assert!(rt; !t.same_up_to_names(alloc, &term(alloc, b"Yl@y2")?)?);
    Ok(())
}

fn reduces(alloc: Global, t: &Term, wanted: &Term) -> Result<bool, NoMemory> {
    reduce(alloc, t)?.same(alloc, wanted)
}

/// `1i32@ + x@` becomes `1 + x@`.
#[test]
fn normal_form(rt: HostRuntime) -> Result<(), Fail> {
    let alloc = rt.alloc();
    let one = Term::model(alloc, Term::lit(alloc, 1, Ty::int(IntKind::I32))?)?;
    let sum = Term::calculate(alloc, ArithOp::Add, one, term(alloc, b"@x")?)?;
    assert!(rt; reduces(alloc, &sum, &term(alloc, b"+1@x")?)?);
    Ok(())
}

/// `(x, last)`
fn pair_of(alloc: Global, last: Term) -> Result<Term, NoMemory> {
    let mut parts = Vec::with_capacity(alloc, 2)?;
    parts.push(Term::var(alloc, X)?)?;
    parts.push(last)?;
    Term::made(alloc, Ctor::Tuple, parts)
}

#[test]
fn made_of_parts(rt: HostRuntime) -> Result<(), Fail> {
    let alloc = rt.alloc();
    let t = pair_of(alloc, Term::var(alloc, Y)?)?;
    assert!(rt; is_shared(alloc, &t)?);
    assert!(rt; t.free_in(alloc, Y)?);
    assert!(rt; t.above(alloc)? == 8);
    let wanted = pair_of(alloc, Term::unit(alloc)?)?;
    assert!(rt; becomes(alloc, &t, Y, &Term::unit(alloc)?, &wanted)?);
    assert!(rt; !t.same(alloc, &wanted)?);
    assert!(rt; reduces(alloc, &wanted, &wanted)?);
    Ok(())
}

/// `(x, y)` with `y` for `x` and `x` for `y`, as names.
fn turned(alloc: Global, t: &Term) -> Result<Term, NoMemory> {
    let mut names = Vec::with_capacity(alloc, 2)?;
    names.push(Renaming { from: X, to: Y })?;
    names.push(Renaming { from: Y, to: X })?;
    t.renamed(alloc, &mut names)
}

/// The same, as terms.
fn turned_as_terms(alloc: Global, t: &Term) -> Result<Term, NoMemory> {
    let mut terms = Vec::with_capacity(alloc, 2)?;
    terms.push(Replacement {
        name: X,
        by: Term::var(alloc, Y)?,
    })?;
    terms.push(Replacement {
        name: Y,
        by: Term::var(alloc, X)?,
    })?;
    t.with(alloc, terms.as_slice())
}

#[test]
fn names_change_places(rt: HostRuntime) -> Result<(), Fail> {
    let alloc = rt.alloc();
    let t = pair_of(alloc, Term::var(alloc, Y)?)?;
    let other = turned(alloc, &t)?;
    assert!(rt; !other.same(alloc, &t)?);
    assert!(rt; turned(alloc, &other)?.same(alloc, &t)?);
    assert!(rt; turned_as_terms(alloc, &t)?.same(alloc, &other)?);
    Ok(())
}

#[test]
fn what_leads(rt: HostRuntime) -> Result<(), Fail> {
    let alloc = rt.alloc();
    let all = term(alloc, b"Xl@x1")?;
    assert!(rt; all.as_forall().is_some() && all.as_implication().is_none());
    let known = Term::implies(alloc, all.share()?, all)?;
    assert!(rt; known.as_implication().is_some() && known.as_forall().is_none());
    assert!(rt; known.above_free(alloc)? == 0);
    Ok(())
}
