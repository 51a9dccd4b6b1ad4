//! Fields in patterns, which are written by name and in any order.
ghost use Rattle.std.specs.Prelude.{◌≡◌, List, IfOk};
ghost use Rattle.logic_term.specs.TyView.{tys_of};
ghost use Rattle.pat_types.specs.Answers.{AnswersAs};
ghost use Rattle.pat_types.specs.declared.names.BoundName.{BoundName};
ghost use Rattle.pat_types.specs.Makers.{fields_by};
ghost use Rattle.pat_types.specs.PatternTyping.{all_given, complete, field_of, no_fields, number_from, wildcards, with_field};

use crate::leaves::pattern_of;
use crate::refusal::{double_name, mismatch, unknown_name};
use logic_term::{FieldDecl, PatNode, Ty, TypedPat};
use source_trees::Segment;
use std::alloc::Global;
use text_core::{Name, NoMemory, PassError, Span};

/// What is written for the fields of a constructor, in declared order, and which are written: a wildcard stands for one that is not.
#[derive(Drop)]
pub(crate) struct FieldPatterns {
    pub(crate) made: Vec<TypedPat>,
    pub(crate) given: Vec<bool>,
}

/// A wildcard of each of the types.
fn wildcards(alloc: Global, types: &[Ty]) -> Result<Vec<TypedPat>, NoMemory>
    ensures { IfOk result (λ v. v.items ≡ wildcards (tys_of types.now)) }
{
    let mut made = Vec::with_capacity(alloc, types.len())?;
    for i in 0..types.len() {
        made.push(pattern_of(alloc, &types[i], PatNode::Wild)?)?;
    }
    Ok(made)
}

/// Nothing is written so far.
pub(crate) fn no_fields(
    alloc: Global,
    fields: &[FieldDecl],
    types: &[Ty],
) -> Result<FieldPatterns, NoMemory>
    ensures { IfOk result (λ f. fields_by f ≡ no_fields fields.now (tys_of types.now)) }
{
    let made = wildcards(alloc, types)?;
    let mut given = Vec::with_capacity(alloc, fields.len())?;
    for _ in 0..fields.len() {
        given.push(false)?;
    }
    Ok(FieldPatterns { made, given })
}

/// The number of the field of the name.
fn number_among(name: Name, fields: &[FieldDecl]) -> Option<usize>
    ensures { result ≡ number_from 0 name fields.now }
{
    for i in 0..fields.len() {
        if fields[i].name.0 == name.0 {
            return Some(i);
        }
    }
    None
}

impl FieldPatterns {
    /// The number of the field of the name, which is not written yet. E05 at a name of no field, and E06 at one that is written already.
    pub(crate) fn place_of(&self, fields: &[FieldDecl], name: Segment) -> Result<usize, PassError>
        ensures { AnswersAs result (field_of fields.now (fields_by self.now) name) (λ k. k) }
    {
        let Some(number) = number_among(name.name, fields) else {
            return Err(unknown_name(name.span));
        };
        match self.given.as_slice().get(number) {
            Some(given) if !*given => Ok(number),
            _ => Err(double_name(name.span)),
        }
    }

    /// The pattern is written for the field of this number.
    #[tactic(auto, using(crate::proofs::Places::past_the_end))]
    pub(crate) fn put(&mut self, number: usize, pattern: TypedPat)
        ensures { fields_by self.new ≡ with_field (fields_by self.old) number pattern }
    {
        if number < self.made.len() {
            self.made[number] = pattern;
        }
        if number < self.given.len() {
            self.given[number] = true;
        }
    }

    fn is_complete(&self) -> bool
        ensures { result ≡ all_given self.now.given.items }
    {
        for given in self.given.as_slice() {
            if !*given {
                return false;
            }
        }
        true
    }

    /// The patterns of all fields, where each is written or `..` stands behind those that are. E07 at the span where one is missing.
    pub(crate) fn complete(self, span: Span, rest: bool) -> Result<Vec<TypedPat>, PassError>
        ensures { (xs : List BoundName) → AnswersAs result (complete span rest (fields_by self, xs)) (λ v. (v.items, xs)) }
    {
        if rest || self.is_complete() {
            Ok(self.made)
        } else {
            Err(mismatch(span))
        }
    }
}
