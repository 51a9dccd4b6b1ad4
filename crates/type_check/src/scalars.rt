ghost use Rattle.std.specs.Prelude.{◌≡◌};
ghost use Rattle.type_check.specs.Scalars.{is_scalar};

use logic_term::{Ty, TyNode};

/// Whether the type is that of integers, of truth values or unit.
#[tactic(auto, using(crate::proofs::ScalarTypes::empty_parts))]
pub(crate) fn is_scalar(ty: &Ty) -> bool
    ensures { result ≡ is_scalar ty.now }
{
    match &ty.node {
        TyNode::Int(_) | TyNode::Bool => true,
        TyNode::Tuple(parts) => parts.is_empty(),
        _ => false,
    }
}
