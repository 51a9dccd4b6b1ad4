//! Proofs by the variants of enums as text, through the kernel. The declared types are `enum Choice<T> { A(T), B(T), N }`,
//! `enum List<T> { Nil, Cons(T, Box<List<T>>) }` and `enum One<T> { Only }`.

use crate::rule_rows::outcome_in;
use crate::written::X;
use logic_term::{
    AdtDecl, AdtId, CompoundTy, FieldDecl, Ty, TyNode, TyUnary, VariantDecl, VariantKind,
};
use proof_kernel::{StepError, Tables};
use std::alloc::Global;
use std::process::Abort;
use std::test::Fail;
use text_core::{Items, NoMemory, Span};

const NOWHERE: Span = Span { start: 0, end: 0 };

/// The type parameter.
fn parameter() -> Ty {
    Ty {
        node: TyNode::Param(0),
    }
}

/// The lists of the type parameter, behind a box.
fn boxed_lists(alloc: Global) -> Result<Ty, NoMemory> {
    let mut types = Vec::with_capacity(alloc, 1)?;
    types.push(parameter())?;
    let lists = Ty::compound(alloc, CompoundTy::Adt(AdtId(1), Vec::new(alloc), types))?;
    Ty::compound(alloc, CompoundTy::Unary(TyUnary::Boxed, lists))
}

fn field(ty: Ty) -> FieldDecl {
    FieldDecl {
        name: X,
        ty,
        span: NOWHERE,
    }
}

fn variant(fields: Items<FieldDecl>) -> VariantDecl {
    VariantDecl {
        name: X,
        kind: VariantKind::Numbered,
        fields,
    }
}

/// A variant of one field, of the type parameter.
fn of_one(alloc: Global) -> Result<VariantDecl, NoMemory> {
    let mut fields = Items::new(alloc);
    fields.push(field(parameter()))?;
    Ok(variant(fields))
}

/// A variant of a field of the type parameter and one of the lists behind a box.
fn of_two(alloc: Global) -> Result<VariantDecl, NoMemory> {
    let mut fields = Items::new(alloc);
    fields.push(field(parameter()))?;
    fields.push(field(boxed_lists(alloc)?))?;
    Ok(variant(fields))
}

fn declared(variants: Items<VariantDecl>) -> AdtDecl {
    AdtDecl {
        name: X,
        regions: 0,
        params: 1,
        variants,
        is_struct: false,
        copy: false,
        span: NOWHERE,
    }
}

fn choice(alloc: Global) -> Result<AdtDecl, NoMemory> {
    let mut variants = Items::new(alloc);
    variants.push(of_one(alloc)?)?;
    variants.push(of_one(alloc)?)?;
    variants.push(variant(Items::new(alloc)))?;
    Ok(declared(variants))
}

fn list(alloc: Global) -> Result<AdtDecl, NoMemory> {
    let mut variants = Items::new(alloc);
    variants.push(variant(Items::new(alloc)))?;
    variants.push(of_two(alloc)?)?;
    Ok(declared(variants))
}

fn one(alloc: Global) -> Result<AdtDecl, NoMemory> {
    let mut variants = Items::new(alloc);
    variants.push(variant(Items::new(alloc)))?;
    Ok(declared(variants))
}

fn tables(alloc: Global) -> Result<Tables, NoMemory> {
    let mut adts = Items::new(alloc);
    adts.push(choice(alloc)?)?;
    adts.push(list(alloc)?)?;
    adts.push(one(alloc)?)?;
    Ok(Tables { adts })
}

/// Each value is that of one variant.
const BY_VARIANTS: [(&str, &str); 6] = [
    (
        "O||G=yaxG=ybx=yn",
        "intro y\non y : v | v |\nleft\nleft\nexists v\nhyp 2.1\nleft\nright\nexists v\nhyp 2.1\nright\nhyp 2.1\n",
    ),
    (
        "O>!=yn|G=yaxG=ybx",
        "intro y\non y : v | w |\nleft\nexists v\nhyp 2.1\nright\nexists w\nhyp 2.1\nabsurd 2.1 1.1\n",
    ),
    (
        "S|=yN!=yN",
        "intro y\non y : | h t\nleft\nhyp 2.1\nright\ncontra\nrewrite 6.1 in 2.1\ndiffer 7.1\n",
    ),
    ("U=yo", "intro y\non y :\nhyp 2.1\n"),
    // No variable; and a formula with a colon.
    (
        "ZO=zz",
        "intro z y\non (y, z).0 : v | v |\nrefl\nrefl\nrefl\n",
    ),
    ("ZO=zz", "intro z y\non forall<k : Int> k < z\nrefl\nrefl\n"),
];

const NOT_BY_VARIANTS: [(&str, &str, u32); 14] = [
    // Another number of lists, or in a list of names.
    ("O=yy", "intro y\non y : v | v\n", 2),
    ("O=yy", "intro y\non y : v | v | |\n", 2),
    ("O=yy", "intro y\non y : | v | v\n", 2),
    ("S=yy", "intro y\non y : | h\n", 2),
    ("U=yo", "intro y\non y : |\n", 2),
    // Names that are not new.
    ("O=yy", "intro y\non y : y | v |\n", 2),
    ("S=yy", "intro y\non y : | h h\n", 2),
    // No enum, and a name of no variable.
    ("X=xx", "intro x\non x : v\n", 2),
    ("X=xx", "intro x\non x :\n", 2),
    ("O=yy", "intro y\non q : v | v |\n", 2),
    // No formula.
    ("O=yy", "intro y\non y\n", 2),
    ("U=yo", "intro y\non y\n", 2),
    // The value of another variant, and of another sort.
    (
        "O||G=yaxG=ybx=yn",
        "intro y\non y : v | v |\nleft\nright\nexists v\nhyp 2.1\n",
        6,
    ),
    (
        "SG=xx",
        "intro y\non y : | h t\nexists 5i32\nrefl\nexists t\n",
        5,
    ),
];

/// What is true of each variant, where it is so of the fields of the type, is true of each value.
const BY_INDUCTION: [(&str, &str); 3] = [
    // No list is the rest of itself.
    (
        "SX!=yCxy",
        "intro y\ninduct y : | h t\nintro x\ncontra\ndiffer 4.1\nintro x\ncontra\ninj 7.1\ninst 2.1 h\nabsurd 8.2 9.1\n",
    ),
    (
        "O||G=yaxG=ybx=yn",
        "intro y\ninduct y : v | v |\nleft\nleft\nexists v\nrefl\nleft\nright\nexists v\nrefl\nright\nrefl\n",
    ),
    ("U=yo", "intro y\ninduct y :\nrefl\n"),
];

const NOT_BY_INDUCTION: [(&str, &str, u32); 11] = [
    // No variable, no enum, and a variable of which a hypothesis speaks.
    ("O=yy", "intro y\ninduct q : v | v |\n", 2),
    ("X=xx", "intro x\ninduct x :\n", 2),
    ("S>=yy=yy", "intro y\ninduct y : | h t\n", 2),
    // Other lists, and names that are not new.
    ("S=yy", "intro y\ninduct y : h t |\n", 2),
    ("S=yy", "intro y\ninduct y : | h t |\n", 2),
    ("S=yy", "intro y\ninduct y : | h y\n", 2),
    ("S=yy", "intro y\ninduct y : | t t\n", 2),
    // A variant without fields has no hypothesis more, and one of two fields has it of the field of the type alone.
    ("S=yy", "intro y\ninduct y : | h t\ndrop 2.1\n", 3),
    ("S=yy", "intro y\ninduct y : | h t\nrefl\ndrop 2.2\n", 4),
    // The variable is gone.
    ("S=yy", "intro y\ninduct y : | h t\non y : | a b\n", 3),
    // It is assumed for the same x alone.
    (
        "SX!=yCxy",
        "intro y x\ninduct y : | h t\ncontra\ndiffer 3.1\ncontra\ninj 5.1\nabsurd 6.2 2.1\n",
        7,
    ),
];

fn expect_closed(rt: &impl Abort, alloc: Global, rows: &[(&str, &str)]) -> Result<(), Fail> {
    let tables = tables(alloc)?;
    for (goal, steps) in rows {
        let closed = matches!(outcome_in(alloc, &tables, *goal, *steps)?, Ok(true));
        assert!(rt; closed, "{goal} by {steps}");
    }
    Ok(())
}

/// The number of the step that no rule fits; 0 where there is none.
fn refused_step(came: Result<bool, StepError>) -> u32 {
    match came {
        Err(StepError::RuleFails { step }) => step,
        _ => 0,
    }
}

fn expect_refused(rt: &impl Abort, alloc: Global, rows: &[(&str, &str, u32)]) -> Result<(), Fail> {
    let tables = tables(alloc)?;
    for (goal, steps, step) in rows {
        let refused = refused_step(outcome_in(alloc, &tables, *goal, *steps)?);
        assert!(rt; refused == *step, "{goal} by {steps}");
    }
    Ok(())
}

#[test]
fn by_the_variants_of_an_enum(rt: HostRuntime) -> Result<(), Fail> {
    expect_closed(&rt, rt.alloc(), &BY_VARIANTS)?;
    expect_refused(&rt, rt.alloc(), &NOT_BY_VARIANTS)
}

#[test]
fn by_induction(rt: HostRuntime) -> Result<(), Fail> {
    expect_closed(&rt, rt.alloc(), &BY_INDUCTION)?;
    expect_refused(&rt, rt.alloc(), &NOT_BY_INDUCTION)
}
