ghost use Rattle.std.specs.Prelude.{◌≡◌, ◌↔◌, IfOk, IsTrue};
ghost use Rattle.logic_term.specs.Ty.{int, bool, math_int, unit_ty};
ghost use Rattle.logic_term.specs.TyView.{IsSameBound, closure_of, compound_of};

use crate::kinds::{AdtId, FnKind, Region, TyUnary};
use source_kinds::IntKind;
use std::alloc::Global;
use std::marker::Model;
use text_core::NoMemory;

/// A type of program code or of terms. Contracts see the tree of specs/Ty.antt.
#[cycle(ty)]
#[derive(Drop)]
pub struct Ty {
    pub node: TyNode,
}

/// What a type is at its top. All that is large is behind one pointer, so that a type is small wherever it is held.
#[cycle(ty)]
#[derive(Drop)]
pub enum TyNode {
    Int(IntKind),
    Bool,
    /// The unbounded integers of terms.
    MathInt,
    Tuple(Vec<Ty>),
    /// A type parameter, by its number within the item.
    Param(u32),
    Compound(Box<CompoundTy>),
}

/// What a type of other types is at its top, but for tuples.
#[cycle(ty)]
#[derive(Drop)]
pub enum CompoundTy {
    /// A declared type at regions and types for its parameters.
    Adt(AdtId, Vec<Region>, Vec<Ty>),
    Unary(TyUnary, Ty),
    /// A closure: its number, the types for the parameters of the item around it, the types of its captures, and its
    /// signature.
    Closure(u32, Vec<Ty>, Vec<Ty>, FnBound),
}

/// How a value may be called, and at which types.
#[cycle(ty)]
#[derive(Drop)]
pub struct FnBound {
    pub kind: FnKind,
    pub params: Vec<Ty>,
    pub result: Ty,
}

impl Model for Ty {
    ghost use Rattle.logic_term.specs.Ty.{Ty as Tree};
    ghost use Rattle.logic_term.specs.TyCode.{coded_ty};

    ghost Value = { Tree };

    ghost coded = { coded_ty };

    ghost use Rattle.logic_term.specs.TyView.{ty_of, ty_size};

    ghost view = { λ t. ty_of t.node };

    ghost size = { ty_size };

    ghost use Rattle.logic_term.specs.TyFalls.{falls};

    ghost size_decreases = { λ a h. falls a.node };
}

impl Ty {
    /// A machine integer type.
    pub fn int(kind: IntKind) -> Ty
        ensures { result ≡ int kind }
    {
        Ty {
            node: TyNode::Int(kind),
        }
    }

    pub fn bool() -> Ty
        ensures { result ≡ bool }
    {
        Ty { node: TyNode::Bool }
    }

    /// The unbounded integers of terms.
    pub fn math_int() -> Ty
        ensures { result ≡ math_int }
    {
        Ty {
            node: TyNode::MathInt,
        }
    }

    /// The type of `()`, the tuple of no parts.
    pub fn unit(alloc: Global) -> Ty
        ensures { result ≡ unit_ty }
    {
        Ty {
            node: TyNode::Tuple(Vec::new(alloc)),
        }
    }

    /// The type with this at its top.
    pub fn compound(alloc: Global, parts: CompoundTy) -> Result<Ty, NoMemory>
        ensures { IfOk result (λ t. t ≡ compound_of parts) }
    {
        let node = TyNode::Compound(Box::new(alloc, parts)?);
        Ok(Ty { node })
    }

    #[cycle(copy_ty)]
    #[tactic(auto, using(crate::specs::TyFalls::each_smaller))]
    pub fn copy(&self, alloc: Global) -> Result<Ty, NoMemory>
        ensures { IfOk result (λ t. t ≡ self.now) }
    {
        let node = match &self.node {
            TyNode::Int(kind) => TyNode::Int(*kind),
            TyNode::Bool => TyNode::Bool,
            TyNode::MathInt => TyNode::MathInt,
            TyNode::Tuple(parts) => TyNode::Tuple(copy_types(alloc, parts)?),
            TyNode::Param(number) => TyNode::Param(*number),
            TyNode::Compound(parts) => return parts.copied(alloc),
        };
        Ok(Ty { node })
    }

    /// Whether both are the same type, regions included.
    #[cycle(same_ty)]
    #[tactic(auto, using(crate::specs::TyFalls::each_smaller, crate::specs::TyFalls::tys_of_injective))]
    pub fn same(&self, other: &Ty) -> bool
        ensures { IsTrue result ↔ (self.now ≡ other.now) }
    {
        match (&self.node, &other.node) {
            (TyNode::Int(a), TyNode::Int(b)) => a == b,
            (TyNode::Bool, TyNode::Bool) => true,
            (TyNode::MathInt, TyNode::MathInt) => true,
            (TyNode::Tuple(a), TyNode::Tuple(b)) => same_types(a, b),
            (TyNode::Param(a), TyNode::Param(b)) => a == b,
            (TyNode::Compound(a), TyNode::Compound(b)) => a.same(b),
            _ => false,
        }
    }
}

impl CompoundTy {
    /// A copy of the type.
    #[cycle(copy_ty)]
    #[tactic(auto, using(crate::specs::TyFalls::each_smaller))]
    fn copied(&self, alloc: Global) -> Result<Ty, NoMemory>
        ensures { IfOk result (λ t. t ≡ compound_of self.now) }
    {
        match self {
            CompoundTy::Adt(adt, regions, types) => {
                let regions = Vec::from_slice(alloc, regions)?;
                let types = copy_types(alloc, types)?;
                Ty::compound(alloc, CompoundTy::Adt(*adt, regions, types))
            }
            CompoundTy::Unary(op, t) => {
                let t = t.copy(alloc)?;
                Ty::compound(alloc, CompoundTy::Unary(*op, t))
            }
            CompoundTy::Closure(number, types, captures, bound) => {
                copied_closure(alloc, *number, types, captures, bound)
            }
        }
    }

    /// Whether both are the same type, regions included.
    #[cycle(same_ty)]
    #[tactic(auto, using(crate::specs::TyFalls::each_smaller, crate::specs::TyFalls::tys_of_injective))]
    fn same(&self, other: &CompoundTy) -> bool
        ensures { IsTrue result ↔ (compound_of self.now ≡ compound_of other.now) }
    {
        match (self, other) {
            (CompoundTy::Adt(a, rs, ts), CompoundTy::Adt(b, qs, us)) => {
                a == b && same_regions(rs, qs) && same_types(ts, us)
            }
            (CompoundTy::Unary(o, a), CompoundTy::Unary(p, b)) => o == p && a.same(b),
            (CompoundTy::Closure(n, ts, cs, a), CompoundTy::Closure(m, us, ds, b)) => {
                n == m && same_types(ts, us) && same_types(cs, ds) && a.same(b)
            }
            _ => false,
        }
    }
}

impl FnBound {
    #[cycle(copy_ty)]
    #[tactic(auto, using(crate::specs::TyFalls::each_smaller))]
    fn copy(&self, alloc: Global) -> Result<FnBound, NoMemory>
        ensures { IfOk result (λ b. IsSameBound b self.now) }
    {
        let params = copy_types(alloc, &self.params)?;
        let result = self.result.copy(alloc)?;
        let kind = self.kind;
        Ok(FnBound {
            kind,
            params,
            result,
        })
    }

    /// Whether both are the same, regions included.
    #[cycle(same_ty)]
    fn same(&self, other: &FnBound) -> bool
        ensures { IsTrue result ↔ IsSameBound self.now other.now }
    {
        self.kind == other.kind
            && same_types(&self.params, &other.params)
            && self.result.same(&other.result)
    }
}

#[cycle(copy_ty)]
fn copied_closure(
    alloc: Global,
    number: u32,
    types: &[Ty],
    captures: &[Ty],
    bound: &FnBound,
) -> Result<Ty, NoMemory>
    ensures { IfOk result (λ t. t ≡ closure_of number types.now captures.now bound.now) }
{
    let types = copy_types(alloc, types)?;
    let captures = copy_types(alloc, captures)?;
    let bound = bound.copy(alloc)?;
    Ty::compound(alloc, CompoundTy::Closure(number, types, captures, bound))
}

#[cycle(copy_ty)]
#[tactic(auto, using(crate::specs::TyFalls::each_smaller))]
pub fn copy_types(alloc: Global, types: &[Ty]) -> Result<Vec<Ty>, NoMemory>
    ensures { IfOk result (λ v. v.items ≡ types.now) }
{
    let mut copies = Vec::with_capacity(alloc, types.len())?;
    for i in 0..types.len() {
        copies.push(types[i].copy(alloc)?)?;
    }
    Ok(copies)
}

fn same_regions(a: &[Region], b: &[Region]) -> bool
    ensures { IsTrue result ↔ (a.now ≡ b.now) }
{
    if a.len() != b.len() {
        return false;
    }
    for i in 0..a.len() {
        if a[i].0 != b[i].0 {
            return false;
        }
    }
    true
}

#[cycle(same_ty)]
#[tactic(auto, using(crate::specs::TyFalls::each_smaller))]
pub fn same_types(a: &[Ty], b: &[Ty]) -> bool
    ensures { IsTrue result ↔ (a.now ≡ b.now) }
{
    if a.len() != b.len() {
        return false;
    }
    for i in 0..a.len() {
        if !a[i].same(&b[i]) {
            return false;
        }
    }
    true
}
