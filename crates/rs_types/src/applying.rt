//! Types at types for their parameters.
ghost use Rattle.std.specs.Prelude.{◌≡◌, IfOk};
ghost use Rattle.logic_term.specs.Sort.{instance, instances, nth_ty};
ghost use Rattle.logic_term.specs.TyView.{closure_of, compound_of, tys_of};
ghost use Rattle.rs_types.specs.Applied.{IsBoundAt};

use logic_term::{CompoundTy, FnBound, Instance, Ty, TyNode};
use std::alloc::Global;
use text_core::NoMemory;

/// The type with the instance's types for its type parameters, by their numbers; the unbounded integers stand where the instance has no
/// type for a number.
pub fn apply(alloc: Global, at: &Instance, t: &Ty) -> Result<Ty, NoMemory>
    ensures { IfOk result (λ u. u ≡ instance (tys_of at.now.types) t.now) }
{
    applied(alloc, at.types.as_slice(), t)
}

/// The type for the parameter of this number.
#[tactic(auto, using(crate::proofs::Lists::nth_there, crate::proofs::Lists::nth_past))]
fn argument(alloc: Global, types: &[Ty], number: u32) -> Result<Ty, NoMemory>
    ensures { IfOk result (λ u. u ≡ nth_ty (tys_of types.now) number) }
{
    let number = number as usize;
    if number < types.len() {
        return types[number].copy(alloc);
    }
    Ok(Ty::math_int())
}

/// The same at these types.
#[cycle(applied)]
#[tactic(auto, using(crate::proofs::Lists::each_smaller))]
pub fn applied(alloc: Global, types: &[Ty], t: &Ty) -> Result<Ty, NoMemory>
    ensures { IfOk result (λ u. u ≡ instance (tys_of types.now) t.now) }
{
    let node = match &t.node {
        TyNode::Int(kind) => TyNode::Int(*kind),
        TyNode::Bool => TyNode::Bool,
        TyNode::MathInt => TyNode::MathInt,
        TyNode::Tuple(parts) => TyNode::Tuple(all_applied(alloc, types, parts)?),
        TyNode::Param(number) => return argument(alloc, types, *number),
        TyNode::Compound(parts) => return applied_parts(alloc, types, parts),
    };
    Ok(Ty { node })
}

#[cycle(applied)]
#[tactic(auto, using(crate::proofs::Lists::each_smaller))]
fn applied_parts(alloc: Global, types: &[Ty], parts: &CompoundTy) -> Result<Ty, NoMemory>
    ensures { IfOk result (λ u. u ≡ instance (tys_of types.now) (compound_of parts.now)) }
{
    match parts {
        CompoundTy::Adt(adt, regions, arguments) => {
            let regions = Vec::from_slice(alloc, regions)?;
            let arguments = all_applied(alloc, types, arguments)?;
            Ty::compound(alloc, CompoundTy::Adt(*adt, regions, arguments))
        }
        CompoundTy::Unary(op, t) => {
            let t = applied(alloc, types, t)?;
            Ty::compound(alloc, CompoundTy::Unary(*op, t))
        }
        CompoundTy::Closure(number, around, captures, bound) => {
            applied_closure(alloc, types, *number, around, captures, bound)
        }
    }
}

#[cycle(applied)]
fn applied_closure(
    alloc: Global,
    types: &[Ty],
    number: u32,
    around: &[Ty],
    captures: &[Ty],
    bound: &FnBound,
) -> Result<Ty, NoMemory>
    ensures { IfOk result (λ u. u ≡ instance (tys_of types.now) (closure_of number around.now captures.now bound.now)) }
{
    let around = all_applied(alloc, types, around)?;
    let captures = all_applied(alloc, types, captures)?;
    let bound = applied_bound(alloc, types, bound)?;
    Ty::compound(alloc, CompoundTy::Closure(number, around, captures, bound))
}

#[cycle(applied)]
fn applied_bound(alloc: Global, types: &[Ty], bound: &FnBound) -> Result<FnBound, NoMemory>
    ensures { IfOk result (λ b. IsBoundAt (tys_of types.now) bound.now b) }
{
    let params = all_applied(alloc, types, &bound.params)?;
    let result = applied(alloc, types, &bound.result)?;
    let kind = bound.kind;
    Ok(FnBound {
        kind,
        params,
        result,
    })
}

#[cycle(applied)]
#[tactic(auto, using(crate::proofs::Lists::each_smaller, crate::proofs::Lists::instances_front))]
fn all_applied(alloc: Global, types: &[Ty], all: &[Ty]) -> Result<Vec<Ty>, NoMemory>
    ensures { IfOk result (λ v. tys_of v.items ≡ instances (tys_of types.now) (tys_of all.now)) }
{
    let mut made = Vec::with_capacity(alloc, all.len())?;
    for i in 0..all.len() {
        made.push(applied(alloc, types, &all[i])?)?;
    }
    Ok(made)
}
