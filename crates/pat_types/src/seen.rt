//! What patterns see through references.
ghost use Rattle.std.specs.Prelude.{◌≡◌};
ghost use Rattle.pat_types.specs.PatternTyping.{behind_unique, seen};

use logic_term::{BindingKind, CompoundTy, Ty, TyNode, TyUnary};

fn behind_unique(mode: BindingKind) -> BindingKind
    ensures { result ≡ behind_unique mode }
{
    match mode {
        BindingKind::Value | BindingKind::Unique => BindingKind::Unique,
        BindingKind::Shared => BindingKind::Shared,
    }
}

/// How names bind behind the references of the type, and what is there (Rust Reference, "Binding modes").
#[cycle(seen)]
pub(crate) fn seen(mode: BindingKind, ty: &Ty) -> (BindingKind, &Ty)
    ensures { (result.0, result.1.now) ≡ seen mode ty.now }
{
    let TyNode::Compound(parts) = &ty.node else {
        return (mode, ty);
    };
    match &**parts {
        CompoundTy::Unary(TyUnary::Shared(_), inside) => seen(BindingKind::Shared, inside),
        CompoundTy::Unary(TyUnary::Unique(_), inside) => seen(behind_unique(mode), inside),
        _ => (mode, ty),
    }
}
