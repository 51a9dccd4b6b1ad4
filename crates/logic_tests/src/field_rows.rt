//! Proofs of one obligation as text, in whose terms stand fields of declared types. The goal is about each `x` of a type.
use crate::rule_rows::{closes, file_of};
use crate::steps::obligation;
use crate::written::{X, term};
use logic_term::{
    AdtDecl, AdtId, CompoundTy, FieldDecl, Region, Term, Ty, TyNode, TyUnary, VariantDecl,
    VariantKind,
};
use proof_kernel::{StepError, Tables};
use source_kinds::IntKind;
use std::alloc::Global;
use std::process::Abort;
use std::test::Fail;
use text_core::name::{MEM, NONE, OPTION, SOME, SWAP};
use text_core::{Items, Name, NoMemory, Span};

const NOWHERE: Span = Span { start: 0, end: 0 };

// ---- declared types

/// A variant of two fields of these names: of an integer, and of the first type parameter.
fn of_two(alloc: Global, name: Name, first: Name, second: Name) -> Result<VariantDecl, NoMemory> {
    let mut fields = Vec::with_capacity(alloc, 2)?;
    fields.push(FieldDecl {
        name: first,
        ty: Ty::math_int(),
        span: NOWHERE,
    })?;
    fields.push(FieldDecl {
        name: second,
        ty: Ty {
            node: TyNode::Param(0),
        },
        span: NOWHERE,
    })?;
    Ok(VariantDecl {
        name,
        kind: VariantKind::Named,
        fields: Items::from_vec(fields),
    })
}

/// A declared type of one type parameter and of one variant, or of two alike.
fn declared(
    alloc: Global,
    is_struct: bool,
    is_double: bool,
    first: Name,
    second: Name,
) -> Result<AdtDecl, NoMemory> {
    let mut variants = Vec::with_capacity(alloc, 2)?;
    variants.push(of_two(alloc, SOME, first, second)?)?;
    if is_double {
        variants.push(of_two(alloc, NONE, first, second)?)?;
    }
    Ok(AdtDecl {
        name: OPTION,
        regions: 0,
        params: 1,
        variants: Items::from_vec(variants),
        is_struct,
        copy: false,
        span: NOWHERE,
    })
}

/// 0: a struct of the fields `mem` and `swap`. 1: a struct of numbered fields. 2: an enum of one variant as the first. 3: what calls itself a struct, of two
/// variants as the first.
fn four_types(alloc: Global) -> Result<Tables, NoMemory> {
    let zero = Name::fresh(0);
    let one = Name::fresh(1);
    let mut adts = Vec::with_capacity(alloc, 4)?;
    adts.push(declared(alloc, true, false, MEM, SWAP)?)?;
    adts.push(declared(alloc, true, false, zero, one)?)?;
    adts.push(declared(alloc, false, false, MEM, SWAP)?)?;
    adts.push(declared(alloc, true, true, MEM, SWAP)?)?;
    Ok(Tables {
        adts: Items::from_vec(adts),
    })
}

/// The declared type of this number at the type, and at a lifetime or none.
fn at(alloc: Global, number: u32, lifetimes: &[Region], ty: Ty) -> Result<Ty, NoMemory> {
    let regions = Vec::from_slice(alloc, lifetimes)?;
    let mut types = Vec::with_capacity(alloc, 1)?;
    types.push(ty)?;
    Ty::compound(alloc, CompoundTy::Adt(AdtId(number), regions, types))
}

/// `B`, `I` and `K`: type 0 at `bool`, `Int` and `i32`; `T`: type 1 at type 0 at `bool`; `E`, `D` and `U`: types 2, 3 and 4 at `bool`, of which the last is
/// not declared; `L`: type 0 at a lifetime and `bool`; `P`: a box of type 0 at `bool`.
fn type_of(alloc: Global, letter: u8) -> Result<Ty, NoMemory> {
    match letter {
        b'B' => at(alloc, 0, &[], Ty::bool()),
        b'I' => at(alloc, 0, &[], Ty::math_int()),
        b'K' => at(alloc, 0, &[], Ty::int(IntKind::I32)),
        b'T' => at(alloc, 1, &[], at(alloc, 0, &[], Ty::bool())?),
        b'E' => at(alloc, 2, &[], Ty::bool()),
        b'D' => at(alloc, 3, &[], Ty::bool()),
        b'U' => at(alloc, 4, &[], Ty::bool()),
        b'L' => at(alloc, 0, &[Region(0)], Ty::bool()),
        b'P' => {
            let of = at(alloc, 0, &[], Ty::bool())?;
            Ty::compound(alloc, CompoundTy::Unary(TyUnary::Boxed, of))
        }
        _ => Err(NoMemory),
    }
}

// ---- proofs

/// A letter of a type, what is shown of each `x` of the type, the steps behind `intro x`, and at which step no rule fits; 0 where the proof is closed.
type Row = (u8, &'static str, &'static str, u32);

/// At which step no rule fits; 0 where the proof is closed, and else none.
fn end_of(came: Result<bool, StepError>) -> Option<u32> {
    match came {
        Ok(true) => Some(0),
        Err(StepError::RuleFails { step }) => Some(step),
        _ => None,
    }
}

/// What the proof of the row comes to.
fn outcome(alloc: Global, row: &Row) -> Result<Option<u32>, Fail> {
    let steps = format!(in alloc; "intro x\n{}", row.2)?;
    let file = file_of(alloc, &steps)?;
    let proof = file.proofs.get(0).ok_or("no proof")?;
    let steps = proof.steps.as_slice();
    if steps.len() >= 90 {
        return Err("many steps".into());
    }
    let body = term(alloc, row.1.as_bytes())?;
    let goal = Term::forall(alloc, X, type_of(alloc, row.0)?, body)?;
    let obligation = obligation(alloc, goal)?;
    let tables = four_types(alloc)?;
    Ok(end_of(closes(alloc, &obligation, &tables, steps)))
}

fn expect(rt: &impl Abort, alloc: Global, rows: &[Row]) -> Result<(), Fail> {
    for row in rows {
        let right = outcome(alloc, row)? == Some(row.3);
        assert!(rt; right, "{} by {}", row.1, row.2);
    }
    Ok(())
}

const NAMED: [Row; 14] = [
    (b'B', "><fx0<fx0", "cut x.mem < 0\nhyp 1.1\nhyp 2.1\n", 0),
    (b'B', ">gxgx", "cut x.swap\nhyp 1.1\nhyp 2.1\n", 0),
    (b'I', "><gx0<gx0", "cut x.swap < 0\nhyp 1.1\nhyp 2.1\n", 0),
    (
        b'B',
        "|gx!gx",
        "on x.swap\nleft\nhyp 2.1\nright\nhyp 2.1\n",
        0,
    ),
    (b'K', "lL@gx", "range x.swap\nhyp 2.1\n", 0),
    (b'B', ">Z<z1<fx1", "inst 1.1 x.mem\nhyp 2.1\n", 0),
    (b'B', "E=zfx", "exists x.mem\nrefl\n", 0),
    (
        b'B',
        ">!=20=fx+*2/fx2%fx2",
        "div x.mem ; 2\nmp 2.1 1.1\nhyp 3.1\n",
        0,
    ),
    // What is bound is another.
    (
        b'B',
        "><fx0<fx0",
        "cut forall<x: (Int, bool)> x.1 ==> x.1\nintro k\nhyp 3.1\nhyp 1.1\n",
        0,
    ),
    (b'B', "><fx0<fx0", "cut forall<x: (Int, bool)> x.swap\n", 2),
    // Another field, and another sort.
    (b'B', "><fx0<fx0", "cut x.swap < 0\n", 2),
    (b'K', ">=gxgx<fx0", "cut x.swap\n", 2),
    (b'B', "><fx0<fx0", "cut x.some < 0\n", 2),
    (b'B', "><fx0<fx0", "cut x.0 < 0\n", 2),
];

const NUMBERED: [Row; 8] = [
    (b'T', "><fx0<fx0", "cut x.0 < 0\nhyp 1.1\nhyp 2.1\n", 0),
    (
        b'T',
        "><fgx0<fgx0",
        "cut x.1.mem < 0\nhyp 1.1\nhyp 2.1\n",
        0,
    ),
    (
        b'T',
        ">ggxggx",
        "cut (x.1, x.0).0.swap\nhyp 1.1\nhyp 2.1\n",
        0,
    ),
    (b'T', "><fx0<fx0", "cut x.2 < 0\n", 2),
    (b'T', "><fx0<fx0", "cut x.0i32 < 0\n", 2),
    (b'T', "><fx0<fx0", "cut x.mem < 0\n", 2),
    (b'T', "><fx0<fx0", "cut x.1 < 0\n", 2),
    (b'T', "><fx0<fx0", "cut x.1.0 < 0\n", 2),
];

/// No struct with one variant and without lifetimes, and no field.
const OTHER_TYPES: [Row; 7] = [
    (b'E', "><fx0<fx0", "cut x.mem < 0\n", 2),
    (b'E', "><fx0<fx0", "cut x.0 < 0\n", 2),
    (b'D', "><fx0<fx0", "cut x.mem < 0\n", 2),
    (b'U', "><fx0<fx0", "cut x.mem < 0\n", 2),
    (b'L', "><fx0<fx0", "cut x.mem < 0\n", 2),
    (b'P', "><fx0<fx0", "cut x.mem < 0\n", 2),
    (b'B', "><fx0<fx0", "cut x.mem() < 0\n", 2),
];

#[test]
fn fields_by_names(rt: HostRuntime) -> Result<(), Fail> {
    expect(&rt, rt.alloc(), &NAMED)
}

#[test]
fn fields_by_numbers(rt: HostRuntime) -> Result<(), Fail> {
    expect(&rt, rt.alloc(), &NUMBERED)
}

#[test]
fn fields_of_no_other_types(rt: HostRuntime) -> Result<(), Fail> {
    expect(&rt, rt.alloc(), &OTHER_TYPES)
}
