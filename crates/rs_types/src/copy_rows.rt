//! Which declared types are `Copy`, and at which type arguments.
ghost use Rattle.std.specs.Prelude.{◌≡◌, ◌<◌, ◌&&◌, ◌||◌, not, ℕ, IfOk, IfSome, None, length, get_or, drop, true, false, map, replicate};
ghost use Rattle.logic_term.specs.Theory.{field_ty};
ghost use Rattle.logic_term.specs.TyView.{compound_of, tys_of};
ghost use Rattle.rs_types.specs.CopyRows.{all, all_copy, copies, counted, needed_copy, new_at, no_row, none_needed, row_at, variants_copy, AreNeeded, Decide};

use crate::holding::width_of_variants;
use logic_term::{AdtDecl, CompoundTy, FieldDecl, Ty, TyNode, TyUnary, VariantDecl};
use std::alloc::Global;
use text_core::{Items, NoMemory};

/// Which type parameters count as `Copy`.
#[derive(Clone, Copy)]
pub(crate) enum Assumed {
    Nothing,
    Everything,
    /// All but the one of this number.
    AllBut(usize),
}

/// What is known of a declared type.
#[derive(Drop)]
pub(crate) struct CopyRow {
    /// Whether it is `Copy` where its type arguments are that it needs.
    pub(crate) copy: bool,
    /// For which of its type parameters it needs a `Copy` type.
    pub(crate) needed: Items<bool>,
}

impl Assumed {
    fn counts(self, number: u32) -> bool
        ensures { result ≡ counted self number }
    {
        match self {
            Assumed::Nothing => false,
            Assumed::Everything => true,
            Assumed::AllBut(other) => number as usize != other,
        }
    }
}

// ---- types

/// Whether the type is `Copy` by the rows.
#[cycle(copies)]
#[tactic(auto, using(crate::proofs::Lists::each_smaller))]
pub(crate) fn copies(rows: &[CopyRow], assumed: Assumed, t: &Ty) -> bool
    ensures { result ≡ copies rows.now (counted assumed) t.now }
{
    match &t.node {
        TyNode::Int(_) | TyNode::Bool => true,
        TyNode::MathInt => false,
        TyNode::Tuple(parts) => all_copy(rows, assumed, parts),
        TyNode::Param(number) => assumed.counts(*number),
        TyNode::Compound(parts) => parts_copy(rows, assumed, parts),
    }
}

#[cycle(copies)]
#[tactic(auto, using(crate::proofs::Lists::each_smaller))]
fn parts_copy(rows: &[CopyRow], assumed: Assumed, parts: &CompoundTy) -> bool
    ensures { result ≡ copies rows.now (counted assumed) (compound_of parts.now) }
{
    match parts {
        CompoundTy::Adt(adt, _, types) => declared_copies(rows, assumed, adt.0, types),
        CompoundTy::Unary(TyUnary::Shared(_) | TyUnary::Snapshot, _) => true,
        CompoundTy::Unary(TyUnary::Boxed | TyUnary::Unique(_) | TyUnary::View, _) => false,
        CompoundTy::Closure(_, _, _, _) => false,
    }
}

/// Whether the declared type of this number is at these types.
#[cycle(copies)]
fn declared_copies(rows: &[CopyRow], assumed: Assumed, adt: u32, types: &[Ty]) -> bool
    ensures { result ≡ ((row_at rows.now adt).copy && needed_copy rows.now (counted assumed) (row_at rows.now adt).needed (tys_of types.now)) }
{
    match rows.get(adt as usize) {
        None => false,
        Some(row) => row.copy && needed_copy(rows, assumed, row.needed.as_slice(), types),
    }
}

#[cycle(copies)]
#[tactic(auto, using(crate::proofs::Lists::each_smaller))]
fn all_copy(rows: &[CopyRow], assumed: Assumed, types: &[Ty]) -> bool
    ensures { result ≡ all_copy rows.now (counted assumed) (tys_of types.now) }
{
    for i in 0..types.len() {
        if !copies(rows, assumed, &types[i]) {
            return false;
        }
    }
    true
}

/// Whether these arguments are, of those that are needed; one that is missing is not.
#[cycle(copies)]
#[tactic(auto, using(crate::proofs::Lists::each_smaller, crate::proofs::CopyRows::next_needed, crate::proofs::CopyRows::needed_missing, crate::proofs::CopyRows::past_needed))]
fn needed_copy(rows: &[CopyRow], assumed: Assumed, needed: &[bool], types: &[Ty]) -> bool
    ensures { result ≡ needed_copy rows.now (counted assumed) needed.now (tys_of types.now) }
{
    for i in 0..types.len() {
        if !argument_copies(rows, assumed, needed, i, &types[i]) {
            return false;
        }
    }
    none_needed(needed, types.len())
}

/// Whether the argument at this place is, or is not needed.
#[cycle(copies)]
fn argument_copies(rows: &[CopyRow], assumed: Assumed, needed: &[bool], at: usize, t: &Ty) -> bool
    ensures { result ≡ (not (get_or needed.now at false) || copies rows.now (counted assumed) t.now) }
{
    at >= needed.len() || !needed[at] || copies(rows, assumed, t)
}

/// Whether none is needed from this place on.
fn none_needed(needed: &[bool], from: usize) -> bool
    ensures { result ≡ none_needed (drop from needed.now) }
{
    for i in from..needed.len() {
        if needed[i] {
            return false;
        }
    }
    true
}

fn fields_copy(rows: &[CopyRow], assumed: Assumed, fields: &[FieldDecl]) -> bool
    ensures { result ≡ all_copy rows.now (counted assumed) (tys_of (map field_ty fields.now)) }
{
    for i in 0..fields.len() {
        if !copies(rows, assumed, &fields[i].ty) {
            return false;
        }
    }
    true
}

/// Whether the fields of all these variants are.
fn variants_copy(rows: &[CopyRow], assumed: Assumed, variants: &[VariantDecl]) -> bool
    ensures { result ≡ variants_copy rows.now (counted assumed) variants.now }
{
    for i in 0..variants.len() {
        if !fields_copy(rows, assumed, variants[i].fields.as_slice()) {
            return false;
        }
    }
    true
}

// ---- rows

/// Nothing is known yet.
fn no_rows(alloc: Global, count: usize) -> Result<Vec<CopyRow>, NoMemory>
    ensures { IfOk result (λ v. v.items ≡ replicate count no_row) }
{
    let mut rows = Vec::with_capacity(alloc, count)?;
    for _ in 0..count {
        rows.push(CopyRow {
            copy: false,
            needed: Items::new(alloc),
        })?;
    }
    Ok(rows)
}

/// Without which type parameters the fields are not `Copy`.
fn needed_params(
    alloc: Global,
    rows: &[CopyRow],
    variants: &[VariantDecl],
) -> Result<Items<bool>, NoMemory>
    ensures { IfOk result (λ v. AreNeeded rows.now variants.now v) }
{
    let width = width_of_variants(variants);
    let mut needed = Vec::with_capacity(alloc, width)?;
    for n in 0..width {
        needed.push(!variants_copy(rows, Assumed::AllBut(n), variants))?;
    }
    Ok(Items::from_vec(needed))
}

/// Whether the type derives `Copy` and its fields are by the rows, which is not known yet.
fn is_new(rows: &[CopyRow], row: &CopyRow, decl: &AdtDecl) -> bool
    ensures { result ≡ (not row.now.copy && (decl.now.copy && variants_copy rows.now all decl.now.variants)) }
{
    !row.copy && decl.copy && variants_copy(rows, Assumed::Everything, decl.variants.as_slice())
}

/// The first of them; `None` where there is none.

fn first_new(decls: &[AdtDecl], rows: &[CopyRow]) -> Option<usize>
    requires { length rows.now ≡ length decls.now }
    ensures some { IfSome result (λ i. (i < length decls.now) × (new_at decls.now rows.now i ≡ true)) }
    ensures none { result ≡ None → (d : ℕ) → new_at decls.now rows.now d ≡ false }
{
    for i in 0..decls.len() {
        if is_new(rows, &rows[i], &decls[i]) {
            return Some(i);
        }
    }
    None
}

/// What is known of each declared type when there is nothing new.
pub(crate) fn copy_rows(alloc: Global, decls: &[AdtDecl]) -> Result<Vec<CopyRow>, NoMemory>
    ensures { IfOk result (λ v. Decide decls.now v.items) }
{
    let mut rows = no_rows(alloc, decls.len())?;
    loop {
        match first_new(decls, rows.as_slice()) {
            None => return Ok(rows),
            Some(i) => {
                let needed = needed_params(alloc, rows.as_slice(), decls[i].variants.as_slice())?;
                rows[i] = CopyRow { copy: true, needed };
            }
        }
    }
}
