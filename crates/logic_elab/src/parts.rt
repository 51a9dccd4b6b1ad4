//! Tuples in terms, and parts and fields.
ghost use Rattle.std.specs.Prelude.{◌≡◌, ◌++◌, ◌∷◌, [], IfOk};
ghost use Rattle.logic_elab.specs.Answers.{Answers};
ghost use Rattle.logic_elab.specs.Elaborated.{has_lifetimes, part_by, parted, selected, tuple_term};
ghost use Rattle.logic_elab.specs.Parts.{parts_as};

use crate::refusal::{unbuilt, unknown_name};
use crate::sorted::{SortedTerm, of_sort};
use logic_term::{AdtDecl, CompoundTy, Ctor, Term, Ty, TyNode};
use source_trees::{Number, Segment};
use std::alloc::Global;
use text_core::{NoMemory, PassError, Span};
use type_parts::{field_of, is_boxed, part_of};

/// The sorts and the terms of parts, one of each for a part.
#[derive(Drop)]
pub(crate) struct SortedParts {
    pub(crate) sorts: Vec<Ty>,
    pub(crate) terms: Vec<Term>,
}

impl SortedParts {
    /// None so far.
    pub(crate) fn new(alloc: Global) -> SortedParts
        ensures sorts { result.sorts.items ≡ [] }
        ensures terms { result.terms.items ≡ [] }
    {
        SortedParts {
            sorts: Vec::new(alloc),
            terms: Vec::new(alloc),
        }
    }

    /// One more, behind the others.
    pub(crate) fn push(&mut self, part: SortedTerm) -> Result<(), NoMemory>
        ensures sorts { IfOk result (λ _. self.new.sorts.items ≡ self.old.sorts.items ++ part.sort ∷ []) }
        ensures terms { IfOk result (λ _. self.new.terms.items ≡ self.old.terms.items ++ part.term ∷ []) }
    {
        let SortedTerm { sort, term } = part;
        self.sorts.push(sort)?;
        self.terms.push(term.into_inner())?;
        Ok(())
    }
}

/// The tuple of these parts.
pub(crate) fn tuple_term(alloc: Global, parts: SortedParts) -> Result<SortedTerm, NoMemory>
    ensures { IfOk result (λ t. t ≡ tuple_term (parts_as parts)) }
{
    let SortedParts { sorts, terms } = parts;
    let term = Term::made(alloc, Ctor::Tuple, terms)?;
    let node = TyNode::Tuple(sorts);
    of_sort(alloc, Ty { node }, term)
}

/// Whether it is a declared type at lifetimes.
fn has_lifetimes(sort: &Ty) -> bool
    ensures { result ≡ has_lifetimes sort.now }
{
    match &sort.node {
        TyNode::Compound(parts) => match &**parts {
            CompoundTy::Adt(_, regions, _) => !regions.is_empty(),
            CompoundTy::Unary(_, _) | CompoundTy::Closure(_, _, _, _) => false,
        },
        TyNode::Tuple(_) | TyNode::Int(_) | TyNode::Bool | TyNode::MathInt | TyNode::Param(_) =>
            false,
    }
}

/// The part that was found; the spans are those of the whole, and of the name or number. E05 there where there is none, and E20 at the whole where it is not
/// built.
fn part_by(
    alloc: Global,
    span: Span,
    at: Span,
    t: SortedTerm,
    found: Option<(u32, Ty)>,
) -> Result<SortedTerm, PassError>
    ensures { Answers result (part_by span at t found) }
{
    let SortedTerm { sort, term } = t;
    let Some((number, ty)) = found else {
        return Err(if is_boxed(&sort) {
            unbuilt(span)
        } else {
            unknown_name(at)
        });
    };
    if has_lifetimes(&sort) {
        return Err(unbuilt(span));
    }
    let part = Term::field(alloc, term.into_inner(), number)?;
    Ok(of_sort(alloc, ty, part)?)
}

/// `t.0`; the span is that of the whole.
#[tactic(auto, unfolding(crate::specs::Elaborated::parted))]
pub(crate) fn parted(
    alloc: Global,
    types: &[AdtDecl],
    span: Span,
    number: &Number,
    t: SortedTerm,
) -> Result<SortedTerm, PassError>
    ensures { Answers result (parted types.now span number.now t) }
{
    let found = part_of(alloc, types, &t.sort, number)?;
    part_by(alloc, span, number.span, t, found)
}

/// `t.x`; the span is that of the whole.
#[tactic(auto, unfolding(crate::specs::Elaborated::selected))]
pub(crate) fn selected(
    alloc: Global,
    types: &[AdtDecl],
    span: Span,
    name: Segment,
    t: SortedTerm,
) -> Result<SortedTerm, PassError>
    ensures { Answers result (selected types.now span name t) }
{
    let found = field_of(alloc, types, &t.sort, name.name)?;
    part_by(alloc, span, name.span, t, found)
}
