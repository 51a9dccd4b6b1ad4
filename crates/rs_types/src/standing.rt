//! What stands in a type other than in a box.
ghost use Rattle.std.specs.Prelude.{◌≡◌, ◌&&◌, false, get_or, []};
ghost use Rattle.logic_term.specs.TyView.{compound_of, tys_of};
ghost use Rattle.rs_types.specs.Holding.{argument_stands, in_some_field, in_some_variant, one_stands, stands};
ghost use Rattle.rs_types.specs.Wanting.{wants_adt, wants_param};

use logic_term::{CompoundTy, FieldDecl, Ty, TyNode, TyUnary, VariantDecl};
use text_core::Items;

/// What is looked for in a type.
#[derive(Clone, Copy)]
pub(crate) enum Wanted<'a> {
    /// The type parameter of this number.
    Param(usize),
    /// A declared type at whose number the list has `false`.
    Outside(&'a [bool]),
}

impl<'a> Wanted<'a> {
    fn wants_param(self, number: u32) -> bool
        ensures { result ≡ wants_param self.entry number }
    {
        match self {
            Wanted::Param(wanted) => number as usize == wanted,
            Wanted::Outside(_) => false,
        }
    }

    fn wants_adt(self, number: u32) -> bool
        ensures { result ≡ wants_adt self.entry number }
    {
        match self {
            Wanted::Param(_) => false,
            Wanted::Outside(inside) => {
                let number = number as usize;
                number < inside.len() && !inside[number]
            }
        }
    }
}

/// The row of a declared type; it is empty past the end.
fn row(rows: &[Items<bool>], number: u32) -> &[bool]
    ensures { result.now ≡ get_or rows.now number [] }
{
    match rows.get(number as usize) {
        Some(row) => row.as_slice(),
        None => &[],
    }
}

/// Whether something that is wanted stands in the type other than in a box. `rows` has, for each declared type, which of its type
/// parameters it holds so.
#[cycle(stands)]
#[tactic(auto, using(crate::proofs::Lists::each_smaller))]
pub(crate) fn stands(rows: &[Items<bool>], wanted: Wanted<'_>, t: &Ty) -> bool
    ensures { result ≡ stands rows.now (wants_param wanted.entry) (wants_adt wanted.entry) t.now }
{
    match &t.node {
        TyNode::Int(_) | TyNode::Bool | TyNode::MathInt => false,
        TyNode::Tuple(parts) => one_stands(rows, wanted, parts),
        TyNode::Param(number) => wanted.wants_param(*number),
        TyNode::Compound(parts) => stands_in_parts(rows, wanted, parts),
    }
}

#[cycle(stands)]
#[tactic(auto, using(crate::proofs::Lists::each_smaller))]
fn stands_in_parts(rows: &[Items<bool>], wanted: Wanted<'_>, parts: &CompoundTy) -> bool
    ensures { result ≡ stands rows.now (wants_param wanted.entry) (wants_adt wanted.entry) (compound_of parts.now) }
{
    match parts {
        CompoundTy::Adt(adt, _, types) => {
            wanted.wants_adt(adt.0) || argument_stands(rows, wanted, row(rows, adt.0), types)
        }
        CompoundTy::Unary(TyUnary::Boxed | TyUnary::View, _) => false,
        CompoundTy::Unary(TyUnary::Shared(_) | TyUnary::Unique(_) | TyUnary::Snapshot, t) => {
            stands(rows, wanted, t)
        }
        CompoundTy::Closure(_, _, _, _) => false,
    }
}

#[cycle(stands)]
#[tactic(auto, using(crate::proofs::Lists::each_smaller))]
fn one_stands(rows: &[Items<bool>], wanted: Wanted<'_>, types: &[Ty]) -> bool
    ensures { result ≡ one_stands rows.now (wants_param wanted.entry) (wants_adt wanted.entry) (tys_of types.now) }
{
    for i in 0..types.len() {
        if stands(rows, wanted, &types[i]) {
            return true;
        }
    }
    false
}

/// The same of the arguments of a declared type that holds these of its type parameters.
#[cycle(stands)]
#[tactic(auto, using(crate::proofs::Lists::each_smaller, crate::proofs::Arguments::next_argument, crate::proofs::Arguments::found_argument))]
fn argument_stands(rows: &[Items<bool>], wanted: Wanted<'_>, held: &[bool], types: &[Ty]) -> bool
    ensures { result ≡ argument_stands rows.now (wants_param wanted.entry) (wants_adt wanted.entry) held.now (tys_of types.now) }
{
    for i in 0..types.len() {
        if counts_at(rows, wanted, held, i, &types[i]) {
            return true;
        }
    }
    false
}

/// Whether the argument at this place counts and something that is wanted stands in it.
#[cycle(stands)]
fn counts_at(rows: &[Items<bool>], wanted: Wanted<'_>, held: &[bool], at: usize, t: &Ty) -> bool
    ensures { result ≡ (get_or held.now at false && stands rows.now (wants_param wanted.entry) (wants_adt wanted.entry) t.now) }
{
    at < held.len() && held[at] && stands(rows, wanted, t)
}

fn stands_in_fields(rows: &[Items<bool>], wanted: Wanted<'_>, fields: &[FieldDecl]) -> bool
    ensures { result ≡ in_some_field rows.now (wants_param wanted.entry) (wants_adt wanted.entry) fields.now }
{
    for i in 0..fields.len() {
        if stands(rows, wanted, &fields[i].ty) {
            return true;
        }
    }
    false
}

/// Whether something that is wanted stands so in a field of one of the variants.
pub(crate) fn stands_in_variants(
    rows: &[Items<bool>],
    wanted: Wanted<'_>,
    variants: &[VariantDecl],
) -> bool
    ensures { result ≡ in_some_variant rows.now (wants_param wanted.entry) (wants_adt wanted.entry) variants.now }
{
    for i in 0..variants.len() {
        if stands_in_fields(rows, wanted, variants[i].fields.as_slice()) {
            return true;
        }
    }
    false
}
