ghost use Rattle.std.specs.Prelude.{◌≡◌, IfOk};
ghost use Rattle.type_check.specs.Answers.{Answers, AnswersAs, gather};
ghost use Rattle.type_check.specs.Terms.{assertion};
ghost use Rattle.type_check.specs.Typing.{invariant_of};
ghost use Rattle.type_check.specs.VariableNames.{variable_name, answer_name};

use crate::assertion::Assertion;
use crate::lists::push_some;
use crate::refusal::unbuilt;
use crate::scope::{Variable, find_variable};
use logic_elab::{Symbol, TermScope, elaborate_formula};
use logic_term::{AdtDecl, Ty};
use source_trees::{Attribute, AttributeNode, ClauseKind, Pterm};
use std::alloc::Global;
use text_core::{Name, NoMemory, PassError};

/// The name by which formulas speak of the variable of this place.
#[tactic(auto, unfolding(crate::specs::VariableNames::variable_name))]
pub fn variable_name(place: u32) -> Name
    ensures { result ≡ variable_name place }
{
    Name::fresh((1 << 61) + place as u64)
}

/// The name by which formulas speak of the answer.
#[tactic(auto, unfolding(crate::specs::VariableNames::answer_name))]
pub fn answer_name() -> Name
    ensures { result ≡ answer_name }
{
    Name::fresh((1 << 61) + (1 << 60))
}

/// What the names of a contract's term mean: the variables in scope, the answer of the type where it may be spoken of, and the declared types.
#[derive(Clone, Copy)]
struct Spoken<'a> {
    types: &'a [AdtDecl],
    answer: &'a Option<Ty>,
    variables: &'a [Variable],
}

impl<'a> TermScope for Spoken<'a> {
    ghost use Rattle.type_check.specs.Terms.{spoken};

    ghost scope = { λ s. spoken s.types.now s.answer.now s.variables.now };

    fn variable(&self, alloc: Global, name: Name) -> Result<Option<Symbol>, NoMemory> {
        match find_variable(alloc, name, self.variables)? {
            None => Ok(None),
            Some(found) => Ok(Some(Symbol {
                name: variable_name(found.place),
                sort: found.ty,
            })),
        }
    }

    fn answer(&self, alloc: Global) -> Result<Option<Symbol>, NoMemory> {
        match self.answer {
            None => Ok(None),
            Some(ty) => {
                let sort = ty.copy(alloc)?;
                Ok(Some(Symbol {
                    name: answer_name(),
                    sort,
                }))
            }
        }
    }

    fn types(&self) -> &[AdtDecl] {
        self.types
    }
}

/// The formula of a clause or of an invariant.
pub(crate) fn assertion(
    alloc: Global,
    types: &[AdtDecl],
    answer: &Option<Ty>,
    scope: &[Variable],
    t: &Pterm,
) -> Result<Assertion, NoMemory>
    ensures { IfOk result (λ a. a ≡ assertion types.now answer.now scope.now t.now) }
{
    let spoken = Spoken {
        types,
        answer,
        variables: scope,
    };
    match elaborate_formula(alloc, &spoken, t) {
        Ok(formula) => Ok(Assertion::Good(t.span, formula.into_inner())),
        Err(PassError::Source(error)) => Ok(Assertion::Bad(error)),
        Err(_) => Err(NoMemory),
    }
}

/// The invariant of an attribute before a loop; none where the attribute says nothing.
#[tactic(auto, unfolding(crate::specs::Typing::invariant_of))]
fn invariant_of(
    alloc: Global,
    types: &[AdtDecl],
    scope: &[Variable],
    attribute: &Attribute,
) -> Result<Option<Assertion>, PassError>
    ensures { Answers result (invariant_of types.now scope.now attribute.now) }
{
    match &attribute.node {
        AttributeNode::Clause(ClauseKind::Invariant, term) => {
            Ok(Some(assertion(alloc, types, &None, scope, term)?))
        }
        AttributeNode::Skipped => Ok(None),
        AttributeNode::Clause(ClauseKind::Requires | ClauseKind::Ensures | ClauseKind::Variant, _)
        | AttributeNode::Logic
        | AttributeNode::Law
        | AttributeNode::Derive(_) => Err(unbuilt(attribute.span)),
    }
}

/// The invariants of the attributes before a loop.
pub(crate) fn invariants_of(
    alloc: Global,
    types: &[AdtDecl],
    scope: &[Variable],
    attributes: &[Attribute],
) -> Result<Vec<Assertion>, PassError>
    ensures { AnswersAs result (gather (invariant_of types.now scope.now) attributes.now) (λ v. v.items) }
{
    let mut invariants = Vec::new(alloc);
    for attribute in attributes {
        push_some(
            &mut invariants,
            invariant_of(alloc, types, scope, attribute)?,
        )?;
    }
    Ok(invariants)
}
