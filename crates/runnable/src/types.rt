//! Which types run.
ghost use Rattle.std.specs.Prelude.{◌≡◌, ◌==◌, ◌&&◌, IfOk, slice_get};
ghost use Rattle.std.specs.Option.{option_copied};
ghost use Rattle.logic_term.specs.TyView.{compound_of, tys_of};
ghost use Rattle.runnable.specs.CopyDecided.{is_copied};
ghost use Rattle.runnable.specs.Runs.{all_run, are_owned, has_no_lifetimes, is_owned, runs};

use logic_term::{AdtDecl, CompoundTy, Ty, TyNode, TyUnary};
use rs_types::CopyTypes;
use std::alloc::Global;
use std::marker::Model;
use text_core::NoMemory;

/// What tells which types run, for the declared types of a program. Contracts see their list.
#[derive(Drop)]
pub(crate) struct RunningTypes<'a> {
    copied: CopyTypes,
    decls: &'a [AdtDecl],
}

impl<'a> Model for RunningTypes<'a> {
    ghost use Rattle.std.specs.Prelude.{List, ◌≡◌};
    ghost use Rattle.logic_term.specs.declared.declaration.AdtDecl.{AdtDecl as Decl};

    ghost Value = { List Decl };

    ghost use Rattle.std.specs.Coded.{coded_list};
    ghost use Rattle.logic_term.specs.contracts.declaration.AdtDecl as decl;

    ghost coded = { coded_list decl.the_row.coded };

    ghost view = { λ types. types.copied };

    ghost invariant = { λ types. types.decls.now ≡ types.copied };
}

/// Whether the declared type of this number is there and has no lifetimes.
fn has_no_lifetimes(decls: &[AdtDecl], number: u32) -> bool
    ensures { result ≡ has_no_lifetimes (slice_get decls.now number) }
{
    match decls.get(number as usize) {
        Some(decl) => decl.regions == 0,
        None => false,
    }
}

/// Whether the type holds no references.
#[cycle(owned)]
#[tactic(auto, using(crate::proofs::Owned::each_smaller))]
fn is_owned(decls: &[AdtDecl], ty: &Ty) -> bool
    ensures { result ≡ is_owned decls.now ty.now }
{
    match &ty.node {
        TyNode::Int(_) | TyNode::Bool | TyNode::MathInt | TyNode::Param(_) => true,
        TyNode::Tuple(parts) => are_owned(decls, parts),
        TyNode::Compound(parts) => parts_owned(decls, parts),
    }
}

#[cycle(owned)]
#[tactic(auto, using(crate::proofs::Owned::each_smaller))]
fn parts_owned(decls: &[AdtDecl], parts: &CompoundTy) -> bool
    ensures { result ≡ is_owned decls.now (compound_of parts.now) }
{
    match parts {
        CompoundTy::Adt(adt, _, types) => {
            has_no_lifetimes(decls, adt.0) && are_owned(decls, types)
        }
        CompoundTy::Unary(TyUnary::Boxed, inner) => is_owned(decls, inner),
        CompoundTy::Unary(_, _) | CompoundTy::Closure(_, _, _, _) => false,
    }
}

#[cycle(owned)]
#[tactic(auto, using(crate::proofs::Owned::each_smaller))]
fn are_owned(decls: &[AdtDecl], types: &[Ty]) -> bool
    ensures { result ≡ are_owned decls.now (tys_of types.now) }
{
    for i in 0..types.len() {
        if !is_owned(decls, &types[i]) {
            return false;
        }
    }
    true
}

impl RunningTypes<'_> {
    /// Those of these declared types.
    pub(crate) fn of(alloc: Global, decls: &[AdtDecl]) -> Result<RunningTypes<'_>, NoMemory>
        ensures { IfOk result (λ types. types ≡ decls.now) }
    {
        let copied = CopyTypes::of(alloc, decls)?;
        Ok(RunningTypes { copied, decls })
    }

    /// Whether values of the type may be used.
    pub(crate) fn runs(&self, ty: &Ty) -> bool
        ensures { result ≡ runs self.now ty.now }
    {
        self.is_copied(ty) && is_owned(self.decls, ty)
    }

    /// Whether the type is `Copy`.
    fn is_copied(&self, ty: &Ty) -> bool
        ensures { result ≡ is_copied self.now ty.now }
    {
        self.copied.is_copy(ty)
    }

    /// Whether values of all these types may be.
    pub(crate) fn all_run(&self, types: &[Ty]) -> bool
        ensures { result ≡ all_run self.now types.now }
    {
        for ty in types {
            if !self.runs(ty) {
                return false;
            }
        }
        true
    }
}
