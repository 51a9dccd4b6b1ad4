ghost use Rattle.std.specs.Prelude.{◌≡◌};
ghost use Rattle.source_kinds.specs.Range.{fits};
ghost use Rattle.logic_elab.specs.Sorts.{same_ty, is_bool, is_math_int};

use logic_term::{Ty, TyNode};
use source_kinds::IntKind;

/// Whether both are one sort.
pub(crate) fn same_ty(t: &Ty, u: &Ty) -> bool
    ensures { result ≡ same_ty t.now u.now }
{
    t.same(u)
}

pub(crate) fn is_bool(t: &Ty) -> bool
    ensures { result ≡ is_bool t.now }
{
    matches!(&t.node, TyNode::Bool)
}

pub(crate) fn is_math_int(t: &Ty) -> bool
    ensures { result ≡ is_math_int t.now }
{
    matches!(&t.node, TyNode::MathInt)
}

/// Whether the integer is one of the type.
pub(crate) fn fits(kind: IntKind, number: i128) -> bool
    ensures { result ≡ fits kind number }
{
    kind.lowest() <= number && number <= kind.highest()
}
