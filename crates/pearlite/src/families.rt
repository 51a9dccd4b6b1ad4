//! The parts of a line by their families.
ghost use Rattle.std.specs.Prelude.{◌≡◌, Option, IfOk, reverse};
ghost use Rattle.pearlite.specs.declared.part.Value.{Value};
ghost use Rattle.source_trees.specs.PatView.{pat_of};
ghost use Rattle.source_trees.specs.PtermView.{pterm_of};
ghost use Rattle.source_trees.specs.TypeTreeView.{type_tree_of};
ghost use Rattle.pearlite.specs.Parts.{all_of, as_arm, as_binder, as_field_pattern, as_field_term, as_path, as_pattern, as_term, as_type, behind, first_of, first_path, first_pattern, first_term, first_type};

use crate::part::{Part, Value};
use crate::parts::next;
use crate::tokens::NOWHERE;
use source_trees::{
    Binder, FieldPat, FieldTerm, Pat, PatNode, Path, PathNode, Pterm, PtermNode, Segment, TermArm,
    TypeNode, TypeTree,
};
use std::alloc::Global;
use text_core::{Items, Name, NoMemory, Span};

/// A family of values.
pub trait Family: Sized + Drop {
    ghost seen: { Value → Option Self };

    /// The value, where it is one of the family.
    fn seen(value: Value) -> Option<Self>
        ensures { result ≡ seen value };
}

/// Pops the parts up to the first one of the family.
#[tactic(auto, unfolding(crate::specs::Parts::first_of, crate::specs::Parts::behind))]
pub fn next_of<F: Family>(parts: &mut Vec<Part>) -> Option<F>
    ensures value { result ≡ first_of F.seen (reverse parts.old.items) }
    ensures rest { reverse parts.new.items ≡ behind F.seen (reverse parts.old.items) }
{
    while let Some(part) = next(parts) {
        if let Some(found) = F::seen(part.value) {
            return Some(found);
        }
    }
    None
}

/// All of the family, in order.
#[tactic(auto, unfolding(crate::specs::Parts::all_of))]
pub fn take_all<F: Family>(alloc: Global, parts: &mut Vec<Part>) -> Result<Items<F>, NoMemory>
    ensures { IfOk result (λ items. items ≡ all_of F.seen (reverse parts.old.items)) }
{
    let mut items = Items::new(alloc);
    while let Some(part) = next(parts) {
        if let Some(item) = F::seen(part.value) {
            items.push(item)?;
        }
    }
    Ok(items)
}

impl Family for TypeTree {
    ghost seen = { as_type };

    fn seen(value: Value) -> Option<TypeTree> {
        value.into_type()
    }
}

impl Family for Pat {
    ghost seen = { as_pattern };

    fn seen(value: Value) -> Option<Pat> {
        value.into_pattern()
    }
}

impl Family for FieldPat {
    ghost seen = { as_field_pattern };

    fn seen(value: Value) -> Option<FieldPat> {
        value.into_field_pattern()
    }
}

impl Family for Path {
    ghost seen = { as_path };

    fn seen(value: Value) -> Option<Path> {
        value.into_path()
    }
}

impl Family for Pterm {
    ghost seen = { as_term };

    fn seen(value: Value) -> Option<Pterm> {
        value.into_term()
    }
}

impl Family for FieldTerm {
    ghost seen = { as_field_term };

    fn seen(value: Value) -> Option<FieldTerm> {
        value.into_field_term()
    }
}

impl Family for TermArm {
    ghost seen = { as_arm };

    fn seen(value: Value) -> Option<TermArm> {
        value.into_arm()
    }
}

impl Family for Binder {
    ghost seen = { as_binder };

    fn seen(value: Value) -> Option<Binder> {
        value.into_binder()
    }
}

/// The type with this span.
pub fn type_with(alloc: Global, span: Span, node: TypeNode) -> Result<TypeTree, NoMemory>
    ensures { IfOk result (λ ty. ty ≡ type_tree_of span node) }
{
    let node = Box::new(alloc, node)?;
    Ok(TypeTree { span, node })
}

/// The pattern with this span.
pub fn pattern_with(alloc: Global, span: Span, node: PatNode) -> Result<Pat, NoMemory>
    ensures { IfOk result (λ pattern. pattern ≡ pat_of span node) }
{
    let node = Box::new(alloc, node)?;
    Ok(Pat { span, node })
}

/// The term with this span.
pub fn term_with(alloc: Global, span: Span, node: PtermNode) -> Result<Pterm, NoMemory>
    ensures { IfOk result (λ term. term ≡ pterm_of span node) }
{
    let node = Box::new(alloc, node)?;
    Ok(Pterm { span, node })
}

/// Pops the parts up to the first type.
pub fn next_type(alloc: Global, parts: &mut Vec<Part>) -> Result<TypeTree, NoMemory>
    ensures value { IfOk result (λ ty. ty ≡ first_type (reverse parts.old.items)) }
    ensures rest { reverse parts.new.items ≡ behind as_type (reverse parts.old.items) }
{
    match next_of::<TypeTree>(parts) {
        Some(ty) => Ok(ty),
        None => type_with(alloc, NOWHERE, TypeNode::SelfType),
    }
}

/// Pops the parts up to the first pattern.
pub fn next_pattern(alloc: Global, parts: &mut Vec<Part>) -> Result<Pat, NoMemory>
    ensures value { IfOk result (λ pattern. pattern ≡ first_pattern (reverse parts.old.items)) }
    ensures rest { reverse parts.new.items ≡ behind as_pattern (reverse parts.old.items) }
{
    match next_of::<Pat>(parts) {
        Some(pattern) => Ok(pattern),
        None => pattern_with(alloc, NOWHERE, PatNode::Any),
    }
}

/// Pops the parts up to the first path.
pub fn next_path(alloc: Global, parts: &mut Vec<Part>) -> Path
    ensures value { result ≡ first_path (reverse parts.old.items) }
    ensures rest { reverse parts.new.items ≡ behind as_path (reverse parts.old.items) }
{
    match next_of::<Path>(parts) {
        Some(path) => path,
        None => {
            let name = Segment {
                name: Name(0),
                span: NOWHERE,
            };
            Path {
                span: NOWHERE,
                node: PathNode::Names(name, Items::new(alloc), Items::new(alloc)),
            }
        }
    }
}

/// Pops the parts up to the first term.
pub fn next_term(alloc: Global, parts: &mut Vec<Part>) -> Result<Pterm, NoMemory>
    ensures value { IfOk result (λ term. term ≡ first_term (reverse parts.old.items)) }
    ensures rest { reverse parts.new.items ≡ behind as_term (reverse parts.old.items) }
{
    match next_of::<Pterm>(parts) {
        Some(term) => Ok(term),
        None => term_with(alloc, NOWHERE, PtermNode::Truth(false)),
    }
}
