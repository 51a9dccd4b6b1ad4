//! Flat patterns: literals, names and wildcards at integers, truth values and unit.
ghost use Rattle.std.specs.Prelude.{◌≡◌};
ghost use Rattle.source_kinds.specs.Range.{fits};
ghost use Rattle.pat_check.specs.Flat.{has_literal, is_bool, is_by_value, is_flat};

use crate::kinds::is_kind;
use logic_term::{BindingKind, PatNode, Ty, TyNode, TypedPat};
use source_kinds::IntKind;

fn is_by_value(kind: BindingKind) -> bool
    ensures { result ≡ is_by_value kind }
{
    match kind {
        BindingKind::Value => true,
        BindingKind::Shared => false,
        BindingKind::Unique => false,
    }
}

fn fits(kind: IntKind, number: i128) -> bool
    ensures { result ≡ fits kind number }
{
    kind.lowest() <= number && number <= kind.highest()
}

/// Whether the integer is a literal of the type.
fn has_literal(ty: &Ty, kind: Option<IntKind>, number: i128) -> bool
    ensures { result ≡ has_literal ty.now kind number }
{
    match &ty.node {
        TyNode::Int(own) => is_kind(*own, kind) && fits(*own, number),
        _ => false,
    }
}

fn is_bool(ty: &Ty) -> bool
    ensures { result ≡ is_bool ty.now }
{
    match &ty.node {
        TyNode::Bool => true,
        _ => false,
    }
}

/// Whether the pattern has no parts and binds by value, and if it is a literal, it is one of the type.
pub fn is_flat(ty: &Ty, pattern: &TypedPat) -> bool
    ensures { result ≡ is_flat ty.now pattern.now }
{
    match &*pattern.node {
        PatNode::Wild => true,
        PatNode::Bound(_, kind) => is_by_value(*kind),
        PatNode::Literal(kind, number) => has_literal(ty, *kind, *number),
        PatNode::Truth(_) => is_bool(ty),
        PatNode::Made(_, _) => false,
    }
}
