//! The sorts of types: without boxes, shared references and regions.
ghost use Rattle.std.specs.Prelude.{◌≡◌, IfOk};
ghost use Rattle.logic_term.specs.Erased.{erased, all_erased};
ghost use Rattle.logic_term.specs.TyView.{closure_of, compound_of, made_by, tys_of};
ghost use Rattle.proof_kernel.specs.ErasedBound.{IsErasedBound};

use logic_term::{CompoundTy, FnBound, Region, Sort, Ty, TyNode, TyUnary};
use std::alloc::Global;
use text_core::NoMemory;

/// The sort of the type.
#[cycle(erased)]
#[tactic(auto, using(crate::proofs::Types::each_smaller))]
pub(crate) fn erased(alloc: Global, t: &Ty) -> Result<Sort, NoMemory>
    ensures { IfOk result (λ s. s ≡ erased t.now) }
{
    let node = match &t.node {
        TyNode::Int(kind) => TyNode::Int(*kind),
        TyNode::Bool => TyNode::Bool,
        TyNode::MathInt => TyNode::MathInt,
        TyNode::Tuple(parts) => TyNode::Tuple(all_erased(alloc, parts)?),
        TyNode::Param(number) => TyNode::Param(*number),
        TyNode::Compound(parts) => return erased_parts(alloc, parts),
    };
    Ok(Ty { node })
}

#[cycle(erased)]
#[tactic(auto, using(crate::proofs::Types::each_smaller))]
fn erased_parts(alloc: Global, parts: &CompoundTy) -> Result<Sort, NoMemory>
    ensures { IfOk result (λ s. s ≡ erased (compound_of parts.now)) }
{
    match parts {
        CompoundTy::Adt(adt, _, arguments) => {
            let arguments = all_erased(alloc, arguments)?;
            Ty::compound(alloc, CompoundTy::Adt(*adt, Vec::new(alloc), arguments))
        }
        CompoundTy::Unary(op, t) => erased_unary(alloc, *op, t),
        CompoundTy::Closure(number, around, captures, bound) => {
            erased_closure(alloc, *number, around, captures, bound)
        }
    }
}

#[cycle(erased)]
fn erased_unary(alloc: Global, op: TyUnary, t: &Ty) -> Result<Sort, NoMemory>
    ensures { IfOk result (λ s. s ≡ erased (made_by op t.now)) }
{
    let inner = erased(alloc, t)?;
    match op {
        TyUnary::Boxed | TyUnary::Shared(_) => Ok(inner),
        TyUnary::Unique(_) => {
            let op = TyUnary::Unique(Region(0));
            Ty::compound(alloc, CompoundTy::Unary(op, inner))
        }
        TyUnary::View => Ty::compound(alloc, CompoundTy::Unary(TyUnary::View, inner)),
        TyUnary::Snapshot => Ty::compound(alloc, CompoundTy::Unary(TyUnary::Snapshot, inner)),
    }
}

#[cycle(erased)]
fn erased_closure(
    alloc: Global,
    number: u32,
    around: &[Ty],
    captures: &[Ty],
    bound: &FnBound,
) -> Result<Sort, NoMemory>
    ensures { IfOk result (λ s. s ≡ erased (closure_of number around.now captures.now bound.now)) }
{
    let around = all_erased(alloc, around)?;
    let captures = all_erased(alloc, captures)?;
    let bound = erased_bound(alloc, bound)?;
    Ty::compound(alloc, CompoundTy::Closure(number, around, captures, bound))
}

#[cycle(erased)]
fn erased_bound(alloc: Global, bound: &FnBound) -> Result<FnBound, NoMemory>
    ensures { IfOk result (λ b. IsErasedBound bound.now b) }
{
    let params = all_erased(alloc, &bound.params)?;
    let result = erased(alloc, &bound.result)?;
    let kind = bound.kind;
    Ok(FnBound {
        kind,
        params,
        result,
    })
}

#[cycle(erased)]
#[tactic(auto, using(crate::proofs::Types::each_smaller, crate::proofs::Types::erased_front))]
fn all_erased(alloc: Global, all: &[Ty]) -> Result<Vec<Ty>, NoMemory>
    ensures { IfOk result (λ v. tys_of v.items ≡ all_erased (tys_of all.now)) }
{
    let mut made = Vec::with_capacity(alloc, all.len())?;
    for i in 0..all.len() {
        made.push(erased(alloc, &all[i])?)?;
    }
    Ok(made)
}
