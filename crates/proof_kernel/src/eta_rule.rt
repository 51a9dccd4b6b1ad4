//! That a tuple or a struct is made of its parts.
ghost use Rattle.std.specs.Prelude.{◌≡◌, ◌∷◌, [], IfOk, None, Some, MatchOption, length};
ghost use Rattle.std.specs.Option.{option_map};
ghost use Rattle.logic_term.specs.Term.{part};
ghost use Rattle.logic_term.specs.TyView.{compound_of, tys_of};
ghost use Rattle.proof_kernel.specs.EtaRule.{Shape, count_tys, eta_at, made_of_parts, only_variant, parts_from, shape_of, struct_shape};

use logic_elab::SortedTerm;
use logic_term::{AdtDecl, AdtId, CompoundTy, Ctor, Sort, Term, TyNode, VariantDecl};
use std::alloc::Global;
use text_core::NoMemory;

// ---- what makes all values of a sort

fn only_variant(adt: AdtId, variants: &[VariantDecl]) -> Option<(Ctor, usize)>
    ensures { MatchOption result (only_variant adt variants.now ≡ None) (λ p. only_variant adt variants.now ≡ Some (record { ctor = p.0; parts = p.1 })) }
{
    if variants.len() != 1 {
        return None;
    }
    Some((Ctor::Variant(adt, 0), variants[0].fields.len()))
}

fn struct_shape(adts: &[AdtDecl], parts: &CompoundTy) -> Option<(Ctor, usize)>
    ensures { MatchOption result (shape_of adts.now (compound_of parts.now) ≡ None) (λ p. shape_of adts.now (compound_of parts.now) ≡ Some (record { ctor = p.0; parts = p.1 })) }
{
    match parts {
        CompoundTy::Adt(adt, _, _) => match adts.get(adt.0 as usize) {
            Some(decl) => {
                if !decl.is_struct {
                    return None;
                }
                only_variant(*adt, decl.variants.as_slice())
            }
            None => None,
        },
        CompoundTy::Unary(_, _) | CompoundTy::Closure(_, _, _, _) => None,
    }
}

/// The constructor of all values of the sort, and how many parts it takes; `None` exactly where the sort is no tuple and no struct.
fn shape_of(adts: &[AdtDecl], sort: &Sort) -> Option<(Ctor, usize)>
    ensures { MatchOption result (shape_of adts.now sort.now ≡ None) (λ p. shape_of adts.now sort.now ≡ Some (record { ctor = p.0; parts = p.1 })) }
{
    match &sort.node {
        TyNode::Tuple(parts) => Some((Ctor::Tuple, parts.as_slice().len())),
        TyNode::Compound(parts) => struct_shape(adts, parts),
        _ => None,
    }
}

// ---- the equation

/// The part of this number.
fn part(alloc: Global, t: &Term, number: usize) -> Result<Term, NoMemory>
    ensures { IfOk result (λ p. p ≡ part number t.now) }
{
    let number = u32::try_from(number).map_err(|_| NoMemory)?;
    Term::field(alloc, t.share()?, number)
}

/// The first parts of the term, so many.
fn first_parts(alloc: Global, t: &Term, count: usize) -> Result<Vec<Term>, NoMemory>
    ensures { IfOk result (λ v. v.items ≡ parts_from 0 count t.now) }
{
    let mut parts = Vec::new(alloc);
    for i in 0..count {
        parts.push(part(alloc, t, i)?)?;
    }
    Ok(parts)
}

/// The term is made of its parts.
fn made_of_parts(alloc: Global, t: Term, ctor: Ctor, count: usize) -> Result<Term, NoMemory>
    ensures { IfOk result (λ e. e ∷ [] ≡ made_of_parts t (record { ctor = ctor; parts = count })) }
{
    let parts = first_parts(alloc, &t, count)?;
    let made = Term::made(alloc, ctor, parts)?;
    Term::equal(alloc, t, made)
}

/// The equation of the term and what is made of its parts; `None` exactly where the term is of no tuple and no struct.
pub(crate) fn eta_at(
    alloc: Global,
    adts: &[AdtDecl],
    t: SortedTerm,
) -> Result<Option<Term>, NoMemory>
    ensures { IfOk result (λ o. option_map (λ e. e ∷ []) o ≡ eta_at adts.now t) }
{
    let SortedTerm { sort, term } = t;
    match shape_of(adts, &sort) {
        None => Ok(None),
        Some((ctor, count)) => {
            let equation = made_of_parts(alloc, term.into_inner(), ctor, count)?;
            Ok(Some(equation))
        }
    }
}
