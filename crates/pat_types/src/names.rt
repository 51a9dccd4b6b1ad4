//! Names that patterns bind.
ghost use Rattle.std.specs.Prelude.{◌≡◌, IfOk};
ghost use Rattle.pat_types.specs.Answers.{Gives};
ghost use Rattle.pat_types.specs.PatternTyping.{binds, binds_mutable, bound_ty, is_bound};

use crate::leaves::pattern_of;
use crate::refusal::{double_name, unbuilt};
use logic_term::{BindingKind, CompoundTy, PatNode, Region, Ty, TyUnary, TypedPat};
use source_trees::Segment;
use std::alloc::Global;
use text_core::{Name, NoMemory, PassError, Span};

/// A name that a pattern binds.
#[derive(Drop)]
pub struct BoundName {
    pub name: Name,
    pub span: Span,
    /// That of the variable: a reference where the pattern looks through one.
    pub ty: Ty,
    /// Whether `mut` stands before it.
    pub mutable: bool,
}

/// The type of a name that is bound so to a value of the type.
fn bound_ty(alloc: Global, mode: BindingKind, ty: &Ty) -> Result<Ty, NoMemory>
    ensures { IfOk result (λ t. t ≡ bound_ty mode ty.now) }
{
    let ty = ty.copy(alloc)?;
    match mode {
        BindingKind::Value => Ok(ty),
        BindingKind::Shared => {
            Ty::compound(alloc, CompoundTy::Unary(TyUnary::Shared(Region(0)), ty))
        }
        BindingKind::Unique => {
            Ty::compound(alloc, CompoundTy::Unary(TyUnary::Unique(Region(0)), ty))
        }
    }
}

fn is_bound(name: Name, names: &[BoundName]) -> bool
    ensures { result ≡ is_bound name names.now }
{
    for bound in names {
        if bound.name.0 == name.0 {
            return true;
        }
    }
    false
}

/// The name is bound behind these. E06 where it is among them.
pub(crate) fn bind(
    alloc: Global,
    mode: BindingKind,
    mutable: bool,
    ty: &Ty,
    names: &mut Vec<BoundName>,
    name: Segment,
) -> Result<TypedPat, PassError>
    ensures { Gives result (binds mode mutable ty.now names.old.items name) names.new.items }
{
    if is_bound(name.name, names.as_slice()) {
        return Err(double_name(name.span));
    }
    let bound = BoundName {
        name: name.name,
        span: name.span,
        ty: bound_ty(alloc, mode, ty)?,
        mutable,
    };
    let pattern = pattern_of(alloc, ty, PatNode::Bound(name.name, mode))?;
    names.push(bound)?;
    Ok(pattern)
}

/// The name behind `mut`. E20 at the pattern where it would be behind a reference.
pub(crate) fn bind_mutable(
    alloc: Global,
    mode: BindingKind,
    span: Span,
    ty: &Ty,
    names: &mut Vec<BoundName>,
    name: Segment,
) -> Result<TypedPat, PassError>
    ensures { Gives result (binds_mutable mode span ty.now names.old.items name) names.new.items }
{
    match mode {
        BindingKind::Value => bind(alloc, mode, true, ty, names, name),
        BindingKind::Shared | BindingKind::Unique => Err(unbuilt(span)),
    }
}
