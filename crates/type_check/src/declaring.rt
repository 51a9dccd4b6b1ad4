//! What items declare.
ghost use Rattle.std.specs.Prelude.{◌≡◌, IfOk, map};
ghost use Rattle.type_check.specs.Answers.{Answers, AnswersAs, absent, each, gather};
ghost use Rattle.type_check.specs.Checked.{declares, heading_of, signature_by, skipped, type_of};
ghost use Rattle.type_check.specs.Written.{param_of};

use crate::heading::Heading;
use crate::lists::push_some;
use crate::program::Signature;
use crate::refusal::unbuilt;
use crate::scope::Variable;
use crate::written::{answer_ty, param_of};
use logic_term::Ty;
use rs_types::AdtTable;
use source_trees::{Attribute, AttributeNode, Function, Item, ItemNode, Param};
use std::alloc::Global;
use text_core::{Items, NoMemory, PassError, Span};

/// The variables that the parameters declare.
pub(crate) fn variables_of(
    alloc: Global,
    types: &AdtTable,
    params: &[Param],
) -> Result<Vec<Variable>, PassError>
    ensures { AnswersAs result (each (param_of types.now) params.now) (λ v. v.items) }
{
    let mut variables = Vec::with_capacity(alloc, params.len())?;
    for param in params {
        variables.push(param_of(alloc, types, param)?)?;
    }
    Ok(variables)
}

fn types_of(alloc: Global, variables: &[Variable]) -> Result<Vec<Ty>, NoMemory>
    ensures { IfOk result (λ v. v.items ≡ map type_of variables.now) }
{
    let mut types = Vec::with_capacity(alloc, variables.len())?;
    for variable in variables {
        types.push(variable.ty.copy(alloc)?)?;
    }
    Ok(types)
}

/// The signature whose parameters are these variables.
pub(crate) fn signature_of(
    alloc: Global,
    variables: &[Variable],
    answer: Ty,
) -> Result<Signature, NoMemory>
    ensures { IfOk result (λ s. s ≡ signature_by variables.now answer) }
{
    let params = Items::from_vec(types_of(alloc, variables)?);
    Ok(Signature { params, answer })
}

/// A part that may not stand.
fn absent(place: Option<Span>) -> Result<(), PassError>
    ensures { Answers result (absent place) }
{
    match place {
        None => Ok(()),
        Some(span) => Err(unbuilt(span)),
    }
}

#[tactic(auto, unfolding(crate::specs::Checked::heading_of))]
fn heading_of(alloc: Global, types: &AdtTable, function: &Function) -> Result<Heading, PassError>
    ensures { Answers result (heading_of types.now function.now) }
{
    absent(function.generics_span)?;
    let variables = variables_of(alloc, types, function.params.as_slice())?;
    let answer = answer_ty(alloc, types, &function.answer)?;
    absent(function.conditions_span)?;
    let name = function.name.name;
    let signature = signature_of(alloc, variables.as_slice(), answer)?;
    Ok(Heading { name, signature })
}

/// Attributes that say nothing of what a program does.
fn skipped(attributes: &[Attribute]) -> Result<(), PassError>
    ensures { Answers result (skipped attributes.now) }
{
    for attribute in attributes {
        if !matches!(attribute.node, AttributeNode::Skipped) {
            return Err(unbuilt(attribute.span));
        }
    }
    Ok(())
}

/// The function that the item declares; none where it declares nothing.
#[tactic(auto, unfolding(crate::specs::Checked::declares))]
fn declares(alloc: Global, types: &AdtTable, item: &Item) -> Result<Option<Heading>, PassError>
    ensures { Answers result (declares types.now item.now) }
{
    let attributes = item.attributes.as_slice();
    match &item.node {
        ItemNode::Function(function) => Ok(Some(heading_of(alloc, types, function)?)),
        ItemNode::Use | ItemNode::ExternCrate => {
            skipped(attributes)?;
            Ok(None)
        }
        ItemNode::Struct(_) | ItemNode::Enum(_) => Ok(None),
        ItemNode::Trait(_) | ItemNode::Impl(_) => {
            skipped(attributes)?;
            Err(unbuilt(item.own))
        }
    }
}

/// The functions that the items declare.
pub(crate) fn headings_of(
    alloc: Global,
    types: &AdtTable,
    items: &[Item],
) -> Result<Vec<Heading>, PassError>
    ensures { AnswersAs result (gather (declares types.now) items.now) (λ v. v.items) }
{
    let mut headings = Vec::with_capacity(alloc, items.len())?;
    for item in items {
        push_some(&mut headings, declares(alloc, types, item)?)?;
    }
    Ok(headings)
}
