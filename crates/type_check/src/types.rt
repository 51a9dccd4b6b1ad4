ghost use Rattle.std.specs.Prelude.{◌≡◌};
ghost use Rattle.source_kinds.specs.Range.{fits};
ghost use Rattle.std.specs.Prelude.{slice_get};
ghost use Rattle.logic_term.specs.TyView.{compound_of, tys_of};
ghost use Rattle.type_check.specs.Types.{same_ty, is_bool, is_signed_ty, is_built, are_built, may_name};
ghost use Rattle.type_check.specs.Typing.{is_updated};
ghost use Rattle.type_check.specs.WellTyped.{is_arithmetic, is_equality, operation_ty};

use logic_term::{AdtDecl, AdtId, CompoundTy, Ty, TyNode, TyUnary};
use source_kinds::{BinaryOp, IntKind};

/// Whether both are one type.
pub(crate) fn same_ty(t: &Ty, u: &Ty) -> bool
    ensures { result ≡ same_ty t.now u.now }
{
    t.same(u)
}

pub(crate) fn is_bool(t: &Ty) -> bool
    ensures { result ≡ is_bool t.now }
{
    matches!(&t.node, TyNode::Bool)
}

/// Whether the integer is one of the type.
pub(crate) fn fits(kind: IntKind, number: i128) -> bool
    ensures { result ≡ fits kind number }
{
    kind.lowest() <= number && number <= kind.highest()
}

pub(crate) fn is_signed_ty(t: &Ty) -> bool
    ensures { result ≡ is_signed_ty t.now }
{
    matches!(
        &t.node,
        TyNode::Int(IntKind::I8 | IntKind::I16 | IntKind::I32 | IntKind::I64 | IntKind::Isize)
    )
}

pub(crate) fn is_arithmetic(op: BinaryOp) -> bool
    ensures { result ≡ is_arithmetic op }
{
    matches!(
        op,
        BinaryOp::Add | BinaryOp::Sub | BinaryOp::Mul | BinaryOp::Div | BinaryOp::Rem
    )
}

fn is_equality(op: BinaryOp) -> bool
    ensures { result ≡ is_equality op }
{
    matches!(op, BinaryOp::Eq | BinaryOp::Ne)
}

/// The type of an operation on two operands of the type, where the operator takes them.
pub(crate) fn operation_ty(op: BinaryOp, t: &Ty) -> Option<Ty>
    ensures { result ≡ operation_ty op t.now }
{
    match &t.node {
        TyNode::Int(kind) if is_arithmetic(op) => Some(Ty::int(*kind)),
        TyNode::Int(_) => Some(Ty::bool()),
        TyNode::Bool if is_equality(op) => Some(Ty::bool()),
        _ => None,
    }
}

/// Whether a compound assignment of the operator takes a variable of the type.
pub(crate) fn is_updated(op: BinaryOp, t: &Ty) -> bool
    ensures { result ≡ is_updated op t.now }
{
    matches!(&t.node, TyNode::Int(_)) && is_arithmetic(op)
}

// ---- the types that are built in functions

/// How many words of types there are; they have the first names.
const WORDS: u64 = 13;

/// Whether a function may name the declared type.
fn may_name(decls: &[AdtDecl], adt: AdtId) -> bool
    ensures { result ≡ may_name (slice_get decls.now adt.0) }
{
    match decls.get(adt.0 as usize) {
        Some(decl) => WORDS <= decl.name.0,
        None => false,
    }
}

#[cycle(is_built)]
#[tactic(auto, using(crate::proofs::BuiltTypes::each_smaller))]
pub(crate) fn is_built(decls: &[AdtDecl], ty: &Ty) -> bool
    ensures { result ≡ is_built decls.now ty.now }
{
    match &ty.node {
        TyNode::Int(_) => true,
        TyNode::Bool => true,
        TyNode::MathInt => false,
        TyNode::Tuple(parts) => are_built(decls, parts),
        TyNode::Param(_) => false,
        TyNode::Compound(parts) => is_compound_built(decls, parts),
    }
}

#[cycle(is_built)]
#[tactic(auto, using(crate::proofs::BuiltTypes::each_smaller, crate::proofs::BuiltTypes::with_lifetimes))]
fn is_compound_built(decls: &[AdtDecl], parts: &CompoundTy) -> bool
    ensures { result ≡ is_built decls.now (compound_of parts.now) }
{
    match parts {
        CompoundTy::Adt(adt, regions, types) => {
            regions.is_empty() && may_name(decls, *adt) && are_built(decls, types)
        }
        CompoundTy::Unary(TyUnary::Boxed, ty) => is_built(decls, ty),
        CompoundTy::Unary(_, _) => false,
        CompoundTy::Closure(_, _, _, _) => false,
    }
}

#[cycle(is_built)]
#[tactic(auto, using(crate::proofs::BuiltTypes::each_smaller, crate::proofs::BuiltTypes::built_at, crate::proofs::BuiltTypes::unbuilt_at))]
pub(crate) fn are_built(decls: &[AdtDecl], types: &[Ty]) -> bool
    ensures { result ≡ are_built decls.now (tys_of types.now) }
{
    for i in 0..types.len() {
        if !is_built(decls, &types[i]) {
            return false;
        }
    }
    true
}
