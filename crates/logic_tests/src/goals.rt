use crate::written::{X, term};
use goal_text::{Spelling, goal_text};
use logic_term::{
    AdtDecl, AdtId, CompoundTy, Ctor, FieldDecl, Region, Term, Ty, TyNode, TyUnary, VariantDecl,
    VariantKind,
};
use source_kinds::IntKind;
use std::alloc::Global;
use std::test::Fail;
use text_core::name::{BOX, MEM, NONE, OPTION, SOME, SWAP};
use text_core::{Items, Name, Names, NoMemory, Span};

const NOWHERE: Span = Span { start: 0, end: 0 };

/// The text of the goal of a program that declares nothing.
fn plain_text(alloc: Global, goal: &Term) -> Result<Vec<u8>, NoMemory> {
    let names = Names::new(alloc);
    let spelling = Spelling {
        adts: &[],
        names: &names,
    };
    goal_text(alloc, &spelling, goal)
}

/// Texts of terms (`written`), and what is printed of them.
const FORMULAS: [(&[u8], &[u8]); 16] = [
    (
        b"X&lL+@x1l+@x1H",
        b"(forall<v1: i32> (((-2147483648) <= (v1@ + 1)) && ((v1@ + 1) <= 2147483647)))",
    ),
    (
        b"XY>=@y+@x1=@y+@x1",
        b"(forall<v1: i32> (forall<v2: i32> ((v2@ == (v1@ + 1)) ==> (v2@ == (v1@ + 1)))))",
    ),
    (b"+1m", b"(1 + (-2))"),
    (b"-1m", b"(1 - (-2))"),
    (b"*1m", b"(1 * (-2))"),
    (b"/1m", b"(1 / (-2))"),
    (b"%1m", b"(1 % (-2))"),
    (b"_1", b"(-1)"),
    (b"<1m", b"(1 < (-2))"),
    (b"l1m", b"(1 <= (-2))"),
    (b"=1m", b"(1 == (-2))"),
    (b"!T", b"(!true)"),
    (b"&TF", b"(true && false)"),
    (b"|TF", b"(true || false)"),
    (b">TF", b"(true ==> false)"),
    // Two binders of one name, with a name that is not bound within.
    (b"XB=xy", b"(forall<v1: i32> (forall<v2: bool> (v2 == v0)))"),
];

fn is_printed(alloc: Global, goal: &Term, wanted: &[u8]) -> Result<bool, NoMemory> {
    Ok(plain_text(alloc, goal)?.as_slice() == wanted)
}

#[test]
fn formulas(rt: HostRuntime) -> Result<(), Fail> {
    let alloc = rt.alloc();
    for (at, (text, wanted)) in FORMULAS.iter().enumerate() {
        assert!(rt;
            is_printed(alloc, &term(alloc, *text)?, *wanted)?,
            "row {at}"
        );
    }
    Ok(())
}

const LITERALS: [(i128, IntKind, &[u8]); 10] = [
    (5, IntKind::I8, b"5i8"),
    (5, IntKind::I16, b"5i16"),
    (-5, IntKind::I32, b"(-5i32)"),
    (-5, IntKind::I64, b"(-5i64)"),
    (0, IntKind::Isize, b"0isize"),
    (5, IntKind::U8, b"5u8"),
    (5, IntKind::U16, b"5u16"),
    (5, IntKind::U32, b"5u32"),
    (
        18446744073709551615,
        IntKind::U64,
        b"18446744073709551615u64",
    ),
    (0, IntKind::Usize, b"0usize"),
];

#[test]
fn literals(rt: HostRuntime) -> Result<(), Fail> {
    let alloc = rt.alloc();
    for (at, (number, kind, wanted)) in LITERALS.iter().enumerate() {
        let literal = Term::lit(alloc, *number, Ty::int(*kind))?;
        assert!(rt; is_printed(alloc, &literal, *wanted)?, "row {at}");
    }
    Ok(())
}

/// A value of so many parts.
fn made(alloc: Global, ctor: Ctor, parts: usize) -> Result<Term, NoMemory> {
    let mut terms = Vec::new(alloc);
    for i in 0..parts {
        terms.push(Term::truth(alloc, i == 0)?)?;
    }
    Term::made(alloc, ctor, terms)
}

const VALUES: [(Ctor, usize, &[u8]); 5] = [
    (Ctor::Tuple, 0, b"()"),
    (Ctor::Tuple, 1, b"(true,)"),
    (Ctor::Tuple, 3, b"(true, false, false)"),
    (Ctor::Closure(7), 0, b"closure()"),
    (Ctor::Closure(7), 2, b"closure(true, false)"),
];

#[test]
fn values(rt: HostRuntime) -> Result<(), Fail> {
    let alloc = rt.alloc();
    for (at, (ctor, parts, wanted)) in VALUES.iter().enumerate() {
        let value = made(alloc, *ctor, *parts)?;
        assert!(rt; is_printed(alloc, &value, *wanted)?, "row {at}");
    }
    Ok(())
}

/// Whether `true` for each value of the sort is printed so.
fn is_sort(alloc: Global, sort: Ty, wanted: &[u8]) -> Result<bool, NoMemory> {
    let body = Term::truth(alloc, true)?;
    is_printed(alloc, &Term::forall(alloc, X, sort, body)?, wanted)
}

/// So many sorts.
fn sorts(alloc: Global, count: usize) -> Result<Vec<Ty>, NoMemory> {
    let mut sorts = Vec::new(alloc);
    for i in 0..count {
        sorts.push(if i == 0 { Ty::math_int() } else { Ty::bool() })?;
    }
    Ok(sorts)
}

const TUPLES: [(usize, &[u8]); 3] = [
    (0, b"(forall<v1: ()> true)"),
    (1, b"(forall<v1: (Int,)> true)"),
    (2, b"(forall<v1: (Int, bool)> true)"),
];

/// `bool` within another type.
const AROUND: [(TyUnary, &[u8]); 5] = [
    (TyUnary::Boxed, b"(forall<v1: Box<bool>> true)"),
    (TyUnary::Shared(Region(1)), b"(forall<v1: &bool> true)"),
    (TyUnary::Unique(Region(1)), b"(forall<v1: &mut bool> true)"),
    (TyUnary::View, b"(forall<v1: View<bool>> true)"),
    (TyUnary::Snapshot, b"(forall<v1: Snapshot<bool>> true)"),
];

#[test]
fn tuples(rt: HostRuntime) -> Result<(), Fail> {
    let alloc = rt.alloc();
    for (parts, wanted) in &TUPLES {
        let node = TyNode::Tuple(sorts(alloc, *parts)?);
        assert!(rt; is_sort(alloc, Ty { node }, *wanted)?, "{parts}");
    }
    Ok(())
}

#[test]
fn sorts_around_sorts(rt: HostRuntime) -> Result<(), Fail> {
    let alloc = rt.alloc();
    for (at, (op, wanted)) in AROUND.iter().enumerate() {
        let sort = Ty::compound(alloc, CompoundTy::Unary(*op, Ty::bool()))?;
        assert!(rt; is_sort(alloc, sort, *wanted)?, "row {at}");
    }
    Ok(())
}

/// A field of truth values.
fn field(name: Name) -> FieldDecl {
    FieldDecl {
        name,
        ty: Ty::bool(),
        span: NOWHERE,
    }
}

/// A variant with these fields.
fn variant(alloc: Global, name: Name, fields: &[Name]) -> Result<VariantDecl, NoMemory> {
    let mut of_truths = Vec::new(alloc);
    for name in fields {
        of_truths.push(field(*name))?;
    }
    let fields = Items::from_vec(of_truths);
    Ok(VariantDecl {
        name,
        kind: VariantKind::Numbered,
        fields,
    })
}

/// A declared type with these variants.
fn declared(name: Name, variants: Vec<VariantDecl>, is_struct: bool) -> AdtDecl {
    AdtDecl {
        name,
        regions: 0,
        params: 0,
        variants: Items::from_vec(variants),
        is_struct,
        copy: false,
        span: NOWHERE,
    }
}

/// A struct with two named fields.
fn a_struct(alloc: Global) -> Result<AdtDecl, NoMemory> {
    let mut variants = Vec::new(alloc);
    variants.push(variant(alloc, BOX, &[MEM, SWAP])?)?;
    Ok(declared(BOX, variants, true))
}

/// An enum with a variant of a field of this name.
fn an_enum(alloc: Global, zero: Name) -> Result<AdtDecl, NoMemory> {
    let mut variants = Vec::new(alloc);
    variants.push(variant(alloc, NONE, &[])?)?;
    variants.push(variant(alloc, SOME, &[zero])?)?;
    Ok(declared(OPTION, variants, false))
}

/// Declared types, and the names of their parts.
#[derive(Drop)]
struct Program {
    adts: Vec<AdtDecl>,
    names: Names,
}

/// A struct with two named fields, and an enum with a variant of a numbered field.
fn two_types(alloc: Global) -> Result<Program, NoMemory> {
    let mut names = Names::new(alloc);
    let zero = names.intern(alloc, "0")?;
    let mut adts = Vec::new(alloc);
    adts.push(a_struct(alloc)?)?;
    adts.push(an_enum(alloc, zero)?)?;
    Ok(Program { adts, names })
}

/// Whether the goal of the program is printed so.
fn is_printed_in(
    alloc: Global,
    program: &Program,
    goal: &Term,
    wanted: &[u8],
) -> Result<bool, NoMemory> {
    let spelling = Spelling {
        adts: &program.adts,
        names: &program.names,
    };
    Ok(goal_text(alloc, &spelling, goal)?.as_slice() == wanted)
}

const DECLARED: [(Ctor, usize, &[u8]); 3] = [
    (
        Ctor::Variant(AdtId(0), 0),
        2,
        b"Box { mem: true, swap: false }",
    ),
    (Ctor::Variant(AdtId(1), 0), 0, b"Option::None"),
    (Ctor::Variant(AdtId(1), 1), 1, b"Option::Some(true)"),
];

#[test]
fn values_of_declared_types(rt: HostRuntime) -> Result<(), Fail> {
    let alloc = rt.alloc();
    let program = two_types(alloc)?;
    for (at, (ctor, parts, wanted)) in DECLARED.iter().enumerate() {
        let goal = made(alloc, *ctor, *parts)?;
        assert!(rt; is_printed_in(alloc, &program, &goal, *wanted)?, "row {at}");
    }
    Ok(())
}

/// `true` for each option of two types.
fn for_options(alloc: Global) -> Result<Term, NoMemory> {
    let regions = Vec::from_slice(alloc, &[Region(1)])?;
    let parts = CompoundTy::Adt(AdtId(1), regions, sorts(alloc, 2)?);
    let sort = Ty::compound(alloc, parts)?;
    Term::forall(alloc, X, sort, Term::truth(alloc, true)?)
}

#[test]
fn declared_sorts(rt: HostRuntime) -> Result<(), Fail> {
    let alloc = rt.alloc();
    let program = two_types(alloc)?;
    let goal = for_options(alloc)?;
    let wanted = b"(forall<v1: Option<Int, bool>> true)";
    assert!(rt; is_printed_in(alloc, &program, &goal, wanted)?);
    Ok(())
}
