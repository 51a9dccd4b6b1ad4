//! Types of integers, compared.
ghost use Rattle.std.specs.Prelude.{◌≡◌};
ghost use Rattle.pat_check.specs.Kinds.{is_kind, same_int};

use source_kinds::IntKind;

/// Whether both are the same type.
pub fn same_int(one: IntKind, other: IntKind) -> bool
    ensures { result ≡ same_int one other }
{
    matches!(
        (one, other),
        (IntKind::I8, IntKind::I8)
            | (IntKind::I16, IntKind::I16)
            | (IntKind::I32, IntKind::I32)
            | (IntKind::I64, IntKind::I64)
            | (IntKind::Isize, IntKind::Isize)
            | (IntKind::U8, IntKind::U8)
            | (IntKind::U16, IntKind::U16)
            | (IntKind::U32, IntKind::U32)
            | (IntKind::U64, IntKind::U64)
            | (IntKind::Usize, IntKind::Usize)
    )
}

/// Whether the second is that type; the unbounded integers are none.
pub(crate) fn is_kind(kind: IntKind, other: Option<IntKind>) -> bool
    ensures { result ≡ is_kind kind other }
{
    match other {
        None => false,
        Some(other) => same_int(kind, other),
    }
}
