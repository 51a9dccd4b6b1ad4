//! What types weigh: whether they have a value, or how many references stand in one another in them.
ghost use Rattle.std.specs.Prelude.{◌≡◌, ◌∷◌, IfOk, get_or, map};
ghost use Rattle.logic_term.specs.Theory.{field_ty};
ghost use Rattle.logic_term.specs.TyView.{compound_of, tys_of};
ghost use Rattle.rs_types.specs.Weighing.{all_weights, is_among, is_case, joined, known, referred, same_weights, start, variants_weight, weight, weights};

use logic_term::{CompoundTy, FieldDecl, Ty, TyNode, TyUnary, VariantDecl};
use std::alloc::Global;
use text_core::{Items, NoMemory};

/// What is asked of types.
#[derive(Clone, Copy)]
pub(crate) enum Question {
    /// Whether a type has a value: its weight is then 1, and else 0.
    Value,
    /// How many references stand in one another, 2 at most.
    References,
}

/// A declared type at arguments of these weights, and what it weighs there as far as is known.
#[derive(Drop)]
pub(crate) struct Case {
    pub(crate) adt: u32,
    pub(crate) given: Items<u8>,
    pub(crate) weight: u8,
}

impl Question {
    /// The weight of a type that holds nothing.
    pub(crate) fn start(self) -> u8
        ensures { result ≡ start self }
    {
        match self {
            Question::Value => 1,
            Question::References => 0,
        }
    }

    fn joined(self, one: u8, other: u8) -> u8
        ensures { result ≡ joined self one other }
    {
        match self {
            Question::Value => one.min(other),
            Question::References => one.max(other),
        }
    }

    fn referred(self, inside: u8) -> u8
        ensures { result ≡ referred self inside }
    {
        match self {
            Question::Value => inside,
            Question::References => inside.min(1) + 1,
        }
    }
}

// ---- cases

#[tactic(auto, using(crate::proofs::Cases::unlike, crate::proofs::Cases::other_length))]
pub(crate) fn same_weights(one: &[u8], other: &[u8]) -> bool
    ensures { result ≡ same_weights one.now other.now }
{
    if one.len() != other.len() {
        return false;
    }
    for i in 0..one.len() {
        if one[i] != other[i] {
            return false;
        }
    }
    true
}

fn is_case(adt: u32, given: &[u8], case: &Case) -> bool
    ensures { result ≡ is_case adt given.now case.now }
{
    case.adt == adt && same_weights(case.given.as_slice(), given)
}

/// What the declared type weighs at arguments of these weights; 0 where there is no such case.
pub(crate) fn known(adt: u32, given: &[u8], cases: &[Case]) -> u8
    ensures { result ≡ known adt given.now cases.now }
{
    for i in 0..cases.len() {
        if is_case(adt, given, &cases[i]) {
            return cases[i].weight;
        }
    }
    0
}

pub(crate) fn is_among(adt: u32, given: &[u8], cases: &[Case]) -> bool
    ensures { result ≡ is_among adt given.now cases.now }
{
    for i in 0..cases.len() {
        if is_case(adt, given, &cases[i]) {
            return true;
        }
    }
    false
}

// ---- types

fn weight_at(given: &[u8], number: u32, past: u8) -> u8
    ensures { result ≡ get_or given.now number past }
{
    let number = number as usize;
    if number < given.len() {
        given[number]
    } else {
        past
    }
}

/// What the type weighs by the cases, where type parameters have the given weights.
#[cycle(weight)]
#[tactic(auto, using(crate::proofs::Lists::each_smaller))]
pub(crate) fn weight(
    alloc: Global,
    question: Question,
    cases: &[Case],
    given: &[u8],
    t: &Ty,
) -> Result<u8, NoMemory>
    ensures { IfOk result (λ w. w ≡ weight question cases.now given.now t.now) }
{
    match &t.node {
        TyNode::Int(_) | TyNode::Bool | TyNode::MathInt => Ok(question.start()),
        TyNode::Tuple(parts) => all_weights(alloc, question, cases, given, parts),
        TyNode::Param(number) => Ok(weight_at(given, *number, question.start())),
        TyNode::Compound(parts) => weight_of_parts(alloc, question, cases, given, parts),
    }
}

#[cycle(weight)]
#[tactic(auto, using(crate::proofs::Lists::each_smaller))]
fn weight_of_parts(
    alloc: Global,
    question: Question,
    cases: &[Case],
    given: &[u8],
    parts: &CompoundTy,
) -> Result<u8, NoMemory>
    ensures { IfOk result (λ w. w ≡ weight question cases.now given.now (compound_of parts.now)) }
{
    match parts {
        CompoundTy::Adt(adt, _, types) => {
            let arguments = weights(alloc, question, cases, given, types)?;
            Ok(known(adt.0, arguments.as_slice(), cases))
        }
        CompoundTy::Unary(TyUnary::Boxed | TyUnary::Snapshot, t) => {
            weight(alloc, question, cases, given, t)
        }
        CompoundTy::Unary(TyUnary::Shared(_) | TyUnary::Unique(_), t) => {
            let inside = weight(alloc, question, cases, given, t)?;
            Ok(question.referred(inside))
        }
        CompoundTy::Unary(TyUnary::View, _) => Ok(0),
        CompoundTy::Closure(_, _, captures, _) => {
            all_weights(alloc, question, cases, given, captures)
        }
    }
}

/// What all of these types weigh together.
#[cycle(weight)]
#[tactic(auto, using(crate::proofs::Lists::each_smaller))]
fn all_weights(
    alloc: Global,
    question: Question,
    cases: &[Case],
    given: &[u8],
    types: &[Ty],
) -> Result<u8, NoMemory>
    ensures { IfOk result (λ w. w ≡ all_weights question cases.now given.now (tys_of types.now)) }
{
    let mut all = question.start();
    for i in (0..types.len()).rev() {
        let one = weight(alloc, question, cases, given, &types[i])?;
        all = question.joined(one, all);
    }
    Ok(all)
}

/// What each of these types weighs.
#[cycle(weight)]
#[tactic(auto, using(crate::proofs::Lists::each_smaller))]
pub(crate) fn weights(
    alloc: Global,
    question: Question,
    cases: &[Case],
    given: &[u8],
    types: &[Ty],
) -> Result<Vec<u8>, NoMemory>
    ensures { IfOk result (λ v. v.items ≡ weights question cases.now given.now (tys_of types.now)) }
{
    let mut each = Vec::with_capacity(alloc, types.len())?;
    for i in 0..types.len() {
        each.push(weight(alloc, question, cases, given, &types[i])?)?;
    }
    Ok(each)
}

fn fields_weight(
    alloc: Global,
    question: Question,
    cases: &[Case],
    given: &[u8],
    fields: &[FieldDecl],
) -> Result<u8, NoMemory>
    ensures { IfOk result (λ w. w ≡ all_weights question cases.now given.now (tys_of (map field_ty fields.now))) }
{
    let mut all = question.start();
    for i in (0..fields.len()).rev() {
        let one = weight(alloc, question, cases, given, &fields[i].ty)?;
        all = question.joined(one, all);
    }
    Ok(all)
}

/// The most that one of the variants weighs.
pub(crate) fn variants_weight(
    alloc: Global,
    question: Question,
    cases: &[Case],
    given: &[u8],
    variants: &[VariantDecl],
) -> Result<u8, NoMemory>
    ensures { IfOk result (λ w. w ≡ variants_weight question cases.now given.now variants.now) }
{
    let mut most = 0;
    for i in (0..variants.len()).rev() {
        let fields = variants[i].fields.as_slice();
        let one = fields_weight(alloc, question, cases, given, fields)?;
        most = one.max(most);
    }
    Ok(most)
}
