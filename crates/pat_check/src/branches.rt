ghost use Rattle.std.specs.Prelude.{◌≡◌, ◌∷◌, [], true, false, IfOk, slice_get};
ghost use Rattle.logic_term.specs.declared.kinds.Ctor.TheVariants as ctor;
ghost use Rattle.pat_check.specs.Branches.{AreBranches, AreIntegerBranches, variants_in, variant_branches, field_lists};
ghost use Rattle.pat_check.specs.Known.{built, flag, all_anything, known_at, put, excluded};

use crate::finding::counted;
use crate::known::Known;
use crate::put::{excluded_with, put_built, put_flag, put_number, put_other};
use crate::test::Test;
use crate::unnamed::unnamed;
use logic_term::{AdtDecl, AdtId, Ctor, PatStep, VariantDecl};
use source_kinds::IntKind;
use std::alloc::Global;
use text_core::NoMemory;

/// The declared variants of a type; none where the type is not declared.
fn variants_in(decls: &[AdtDecl], adt: AdtId) -> &[VariantDecl]
    ensures { result.now ≡ variants_in (slice_get decls.now adt.0) }
{
    match decls.get(adt.0 as usize) {
        None => &[],
        Some(decl) => decl.variants.as_slice(),
    }
}

fn put_variant(
    alloc: Global,
    known: &Known,
    path: &[PatStep],
    adt: AdtId,
    number: usize,
    fields: usize,
) -> Result<Known, NoMemory>
    ensures { IfOk result (λ k. k ≡ put known.now path.now (built (ctor.Variant adt number) (all_anything fields))) }
{
    let number = counted(number)?;
    put_built(alloc, known, path, Ctor::Variant(adt, number), fields)
}

/// One branch for each variant.
fn variant_branches(
    alloc: Global,
    decls: &[AdtDecl],
    known: &Known,
    path: &[PatStep],
    adt: AdtId,
) -> Result<Vec<Known>, NoMemory>
    ensures { IfOk result (λ v. v.items ≡ variant_branches known.now path.now adt 0 (field_lists decls.now adt)) }
{
    let variants = variants_in(decls, adt);
    let mut branches = Vec::with_capacity(alloc, variants.len())?;
    for j in 0..variants.len() {
        let branch = put_variant(alloc, known, path, adt, j, variants[j].fields.len())?;
        branches.push(branch)?;
    }
    Ok(branches)
}

/// It is the integer, or another one, where there is another.
fn integer_branches(
    alloc: Global,
    known: &Known,
    path: &[PatStep],
    kind: Option<IntKind>,
    z: i128,
) -> Result<Vec<Known>, NoMemory>
    ensures { IfOk result (λ v. AreIntegerBranches known.now path.now kind z (z ∷ excluded (known_at known.now path.now)) v.items) }
{
    let mut branches = Vec::with_capacity(alloc, 2)?;
    branches.push(put_number(alloc, known, path, z)?)?;
    let others = excluded_with(alloc, known, path, z)?;
    match unnamed(kind, others.as_slice())? {
        None => {}
        Some(_) => branches.push(put_other(alloc, known, path, kind, others)?)?,
    }
    Ok(branches)
}

fn truth_branches(alloc: Global, known: &Known, path: &[PatStep]) -> Result<Vec<Known>, NoMemory>
    ensures { IfOk result (λ v. v.items ≡ put known.now path.now (flag true) ∷ put known.now path.now (flag false) ∷ []) }
{
    let mut branches = Vec::with_capacity(alloc, 2)?;
    branches.push(put_flag(alloc, known, path, true)?)?;
    branches.push(put_flag(alloc, known, path, false)?)?;
    Ok(branches)
}

fn tuple_branches(
    alloc: Global,
    known: &Known,
    path: &[PatStep],
    parts: u32,
) -> Result<Vec<Known>, NoMemory>
    ensures { IfOk result (λ v. v.items ≡ put known.now path.now (built ctor.Tuple (all_anything parts)) ∷ []) }
{
    let mut branches = Vec::with_capacity(alloc, 1)?;
    branches.push(put_built(alloc, known, path, Ctor::Tuple, parts as usize)?)?;
    Ok(branches)
}

/// What is known after each answer of the test at that place.
pub fn branches(
    alloc: Global,
    decls: &[AdtDecl],
    known: &Known,
    path: &[PatStep],
    test: Test,
) -> Result<Vec<Known>, NoMemory>
    ensures { IfOk result (λ v. AreBranches decls.now known.now path.now test v.items) }
{
    match test {
        Test::Made(ctor, parts) => match ctor {
            Ctor::Tuple => tuple_branches(alloc, known, path, parts),
            Ctor::Variant(adt, _) => variant_branches(alloc, decls, known, path, adt),
            Ctor::Closure(_) => Ok(Vec::new(alloc)),
        },
        Test::Number(kind, z) => integer_branches(alloc, known, path, kind, z),
        Test::Truth => truth_branches(alloc, known, path),
    }
}
