//! Which of its type parameters each declared type holds other than in a box.
ghost use Rattle.std.specs.Prelude.{◌≡◌, ◌↔◌, IfOk, IsTrue, map, replicate, false};
ghost use Rattle.logic_term.specs.TyView.{compound_of, tys_of};
ghost use Rattle.rs_types.specs.Growing.{declared_by, empty_row, field_width, row_grown, rows_grown, variant_width, AreAll, AreHeld, HaveWidths};
ghost use Rattle.rs_types.specs.Holding.{all_width, width};

use crate::standing::{Wanted, stands_in_variants};
use logic_term::{AdtDecl, CompoundTy, FieldDecl, Ty, TyNode, TyUnary, VariantDecl};
use std::alloc::Global;
use text_core::{Items, NoMemory};

// ---- how many parameters there are

/// One past the largest number of a type parameter that stands in the type other than in a box.
#[cycle(width)]
#[tactic(auto, using(crate::proofs::Lists::each_smaller))]
fn width(t: &Ty) -> usize
    ensures { result ≡ width t.now }
{
    match &t.node {
        TyNode::Int(_) | TyNode::Bool | TyNode::MathInt => 0,
        TyNode::Tuple(parts) => widest(parts),
        TyNode::Param(number) => *number as usize + 1,
        TyNode::Compound(parts) => width_in_parts(parts),
    }
}

#[cycle(width)]
#[tactic(auto, using(crate::proofs::Lists::each_smaller))]
fn width_in_parts(parts: &CompoundTy) -> usize
    ensures { result ≡ width (compound_of parts.now) }
{
    match parts {
        CompoundTy::Adt(_, _, types) => widest(types),
        CompoundTy::Unary(TyUnary::Boxed | TyUnary::View, _) => 0,
        CompoundTy::Unary(TyUnary::Shared(_) | TyUnary::Unique(_) | TyUnary::Snapshot, t) => {
            width(t)
        }
        CompoundTy::Closure(_, _, _, _) => 0,
    }
}

#[cycle(width)]
#[tactic(auto, using(crate::proofs::Lists::each_smaller))]
fn widest(types: &[Ty]) -> usize
    ensures { result ≡ all_width (tys_of types.now) }
{
    let mut most: usize = 0;
    for i in 0..types.len() {
        most = most.max(width(&types[i]));
    }
    most
}

fn width_of_fields(fields: &[FieldDecl]) -> usize
    ensures { result ≡ field_width fields.now }
{
    let mut most: usize = 0;
    for i in 0..fields.len() {
        most = most.max(width(&fields[i].ty));
    }
    most
}

pub(crate) fn width_of_variants(variants: &[VariantDecl]) -> usize
    ensures { result ≡ variant_width variants.now }
{
    let mut most: usize = 0;
    for i in 0..variants.len() {
        most = most.max(width_of_fields(variants[i].fields.as_slice()));
    }
    most
}

// ---- rounds

/// So many times `false`.
pub(crate) fn falses(alloc: Global, count: usize) -> Result<Vec<bool>, NoMemory>
    ensures { IfOk result (λ v. v.items ≡ replicate count false) }
{
    let all = vec![in alloc; false; count]?;
    Ok(all)
}

fn no_rows(alloc: Global, decls: &[AdtDecl]) -> Result<Vec<Items<bool>>, NoMemory>
    ensures { IfOk result (λ v. v.items ≡ map empty_row decls.now) }
{
    let mut rows = Vec::with_capacity(alloc, decls.len())?;
    for i in 0..decls.len() {
        let columns = width_of_variants(decls[i].variants.as_slice());
        rows.push(Items::from_vec(falses(alloc, columns)?))?;
    }
    Ok(rows)
}

/// The row with the parameters that stand in a field by what the rows say.
#[tactic(auto, using(crate::proofs::Arguments::next_argument))]
fn grown_row(
    alloc: Global,
    rows: &[Items<bool>],
    variants: &[VariantDecl],
    old: &[bool],
) -> Result<Items<bool>, NoMemory>
    ensures { IfOk result (λ v. v ≡ row_grown rows.now variants.now 0 old.now) }
{
    let mut new = Vec::with_capacity(alloc, old.len())?;
    for n in 0..old.len() {
        new.push(old[n] || stands_in_variants(rows, Wanted::Param(n), variants))?;
    }
    Ok(Items::from_vec(new))
}

/// One more round.
#[tactic(auto, using(crate::proofs::Grow::same_length, crate::proofs::Grow::next_row, crate::proofs::Grow::no_more))]
fn grown(
    alloc: Global,
    decls: &[AdtDecl],
    rows: &[Items<bool>],
) -> Result<Vec<Items<bool>>, NoMemory>
    requires { HaveWidths decls.now rows.now }
    ensures { IfOk result (λ v. v.items ≡ rows_grown rows.now decls.now rows.now) }
{
    let mut new = Vec::with_capacity(alloc, decls.len())?;
    for i in 0..decls.len() {
        let old = rows[i].as_slice();
        new.push(grown_row(alloc, rows, decls[i].variants.as_slice(), old)?)?;
    }
    Ok(new)
}

/// Whether both are the same.
pub(crate) fn same_row(a: &[bool], b: &[bool]) -> bool
    ensures { IsTrue result ↔ (a.now ≡ b.now) }
{
    if a.len() != b.len() {
        return false;
    }
    for i in 0..a.len() {
        if a[i] != b[i] {
            return false;
        }
    }
    true
}

fn same_rows(a: &[Items<bool>], b: &[Items<bool>]) -> bool
    ensures { IsTrue result ↔ (a.now ≡ b.now) }
{
    if a.len() != b.len() {
        return false;
    }
    for i in 0..a.len() {
        if !same_row(a[i].as_slice(), b[i].as_slice()) {
            return false;
        }
    }
    true
}

/// For each declared type which of its type parameters it holds other than in a box: exactly those, for all that stand in its fields so.
#[tactic(auto, using(crate::proofs::Rounds::none_held, crate::proofs::Rounds::empty_widths, crate::proofs::Rounds::still_held, crate::proofs::Grow::widths_stay, crate::proofs::Rounds::less_left))]
pub(crate) fn held_params(alloc: Global, decls: &[AdtDecl]) -> Result<Vec<Items<bool>>, NoMemory>
    ensures held { IfOk result (λ v. AreHeld (declared_by decls.now) v.items) }
    ensures widths { IfOk result (λ v. HaveWidths decls.now v.items) }
    ensures all { IfOk result (λ v. AreAll decls.now v.items) }
{
    let mut rows = no_rows(alloc, decls)?;
    loop {
        let next = grown(alloc, decls, rows.as_slice())?;
        if same_rows(next.as_slice(), rows.as_slice()) {
            return Ok(rows);
        }
        rows = next;
    }
}
