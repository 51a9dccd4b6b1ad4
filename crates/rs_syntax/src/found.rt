//! What stands among the parts of a line, by families.
ghost use Rattle.std.specs.Prelude.{◌≡◌, [], ◌++◌, drop, reverse, slice_get, IfOk, OnOk};
ghost use Rattle.grammar_tables.specs.Trees.{option_list};
ghost use Rattle.rs_syntax.specs.declared.part.Value.TheVariants as V;
ghost use Rattle.rs_syntax.specs.Parts.{expr_at, found_in, found_of, joined, none_found, pattern_at};

use crate::nodes::nothing;
use crate::part::{Part, next};
use pearlite::{NOWHERE, Value as Shape};
use source_trees::{Expr, FieldExpr, Param, Pat, PatNode, Path, Pterm, TypeTree};
use std::alloc::Global;
use std::mem;
use text_core::{Items, NoMemory};

/// What stands among the parts of a line, each family in order. A condition that is a `let` is a pattern and an
/// expression.
pub struct Found {
    pub exprs: Items<Expr>,
    pub types: Items<TypeTree>,
    pub params: Items<Param>,
    pub fields: Items<FieldExpr>,
    /// What stands between parentheses behind a function or the name of a method.
    pub arguments: Items<Items<Expr>>,
    pub patterns: Items<Pat>,
    pub paths: Items<Path>,
    pub terms: Items<Pterm>,
}

// By hand, so that whoever holds one drops it by a call (docs/architecture.md).
impl Drop for Found {
    fn drop(self) {
        let Found {
            exprs: _,
            types: _,
            params: _,
            fields: _,
            arguments: _,
            patterns: _,
            paths: _,
            terms: _,
        } = self;
    }
}

impl Found {
    fn nothing(alloc: Global) -> Found
        ensures { result ≡ none_found }
    {
        Found {
            exprs: Items::new(alloc),
            types: Items::new(alloc),
            params: Items::new(alloc),
            fields: Items::new(alloc),
            arguments: Items::new(alloc),
            patterns: Items::new(alloc),
            paths: Items::new(alloc),
            terms: Items::new(alloc),
        }
    }

    /// Adds a type, a pattern, a path or a term.
    #[tactic(auto, unfolding(crate::specs::Parts::found_of, pearlite::specs::Parts::as_type, pearlite::specs::Parts::as_pattern, pearlite::specs::Parts::as_path, pearlite::specs::Parts::as_term))]
    pub(crate) fn add_shape(&mut self, shape: Shape) -> Result<(), NoMemory>
        ensures { OnOk result (self.new ≡ joined self.old (found_of (V.Shape shape))) }
    {
        match &shape {
            Shape::Type(_) => push_some(&mut self.types, shape.into_type()),
            Shape::Pattern(_) => push_some(&mut self.patterns, shape.into_pattern()),
            Shape::Path(_) => push_some(&mut self.paths, shape.into_path()),
            Shape::Term(_) => push_some(&mut self.terms, shape.into_term()),
            _ => Ok(()),
        }
    }
}

/// Puts the item at the end, if there is one.
fn push_some<T: Drop>(items: &mut Items<T>, item: Option<T>) -> Result<(), NoMemory>
    ensures { OnOk result (items.new ≡ items.old ++ option_list item) }
{
    match item {
        Some(item) => items.push(item),
        None => Ok(()),
    }
}

/// All that stands among the parts. Err only for want of memory.
#[tactic(auto, using(crate::proofs::Families::one_more), unfolding(crate::specs::Parts::found_in))]
pub(crate) fn found_in(alloc: Global, parts: &mut Vec<Part>) -> Result<Found, NoMemory>
    ensures { IfOk result (λ found. found ≡ found_in (reverse parts.old.items)) }
{
    let mut found = Found::nothing(alloc);
    while let Some(part) = next(parts) {
        part.value.add_to(&mut found)?;
    }
    Ok(found)
}

/// The expressions among the parts. Err only for want of memory.
pub(crate) fn exprs_in(alloc: Global, parts: &mut Vec<Part>) -> Result<Items<Expr>, NoMemory>
    ensures { IfOk result (λ exprs. exprs ≡ (found_in (reverse parts.old.items)).exprs) }
{
    let mut found = found_in(alloc, parts)?;
    Ok(take_all(alloc, &mut found.exprs))
}

/// The first expression among the parts. Err only for want of memory.
pub(crate) fn first_expr(alloc: Global, parts: &mut Vec<Part>) -> Result<Expr, NoMemory>
    ensures { IfOk result (λ e. e ≡ expr_at (found_in (reverse parts.old.items)).exprs 0) }
{
    let mut found = found_in(alloc, parts)?;
    found.next_expr(alloc)
}

/// Takes all items off.
pub(crate) fn take_all<T: Drop>(alloc: Global, items: &mut Items<T>) -> Items<T>
    ensures all { result ≡ items.old }
    ensures rest { items.new ≡ [] }
{
    mem::replace(items, Items::new(alloc))
}

/// Takes the first item off.
pub(crate) fn take_first<T: Drop>(alloc: Global, items: &mut Items<T>) -> Option<T>
    ensures first { result ≡ slice_get items.old 0 }
    ensures rest { items.new ≡ drop 1 items.old }
{
    let mut list = take_all(alloc, items).into_vec();
    if list.is_empty() {
        return None;
    }
    let first = list.remove(0);
    *items = Items::from_vec(list);
    Some(first)
}

impl Found {
    /// The next expression; where none is left, the literal `false` at the start of the source.
    pub(crate) fn next_expr(&mut self, alloc: Global) -> Result<Expr, NoMemory>
        ensures value { IfOk result (λ e. e ≡ expr_at self.old.exprs 0) }
        ensures rest { IfOk result (λ _. self.new ≡ record self.old { exprs = drop 1 self.old.exprs }) }
    {
        match take_first(alloc, &mut self.exprs) {
            Some(expr) => Ok(expr),
            None => nothing(alloc),
        }
    }

    /// The next pattern; where none is left, `_` at the start of the source.
    pub(crate) fn next_pattern(&mut self, alloc: Global) -> Result<Pat, NoMemory>
        ensures value { IfOk result (λ p. p ≡ pattern_at self.old.patterns 0) }
        ensures rest { IfOk result (λ _. self.new ≡ record self.old { patterns = drop 1 self.old.patterns }) }
    {
        match self.pattern(alloc) {
            Some(pattern) => Ok(pattern),
            None => {
                let node = Box::new(alloc, PatNode::Any)?;
                Ok(Pat {
                    span: NOWHERE,
                    node,
                })
            }
        }
    }

    /// The next pattern, if one is left.
    pub(crate) fn pattern(&mut self, alloc: Global) -> Option<Pat>
        ensures value { result ≡ slice_get self.old.patterns 0 }
        ensures rest { self.new ≡ record self.old { patterns = drop 1 self.old.patterns } }
    {
        take_first(alloc, &mut self.patterns)
    }
}
