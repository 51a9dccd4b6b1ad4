ghost use Rattle.std.specs.Prelude.{◌≡◌, IfOk, OnOk};
ghost use Rattle.type_check.specs.Answers.{Answers, AnswersAs, gather};
ghost use Rattle.type_check.specs.Checked.{AllGood, answer_at, checked, clause_of, clause_of_kind, param_at, typed_body, typed_function, typed_item, types_at};
ghost use Rattle.type_check.specs.Setting.{setting_of};
ghost use Rattle.type_check.specs.WellTyped.{ProgramFits};

use crate::declaring::{headings_of, signature_of, variables_of};
use crate::elaborate::assertion;
use crate::expressions::type_expr;
use crate::heading::Heading;
use crate::lists::push_some;
use crate::logic::first_bad;
use crate::program::{ClauseKind, TypedClause, TypedFunction, TypedProgram};
use crate::refusal::unbuilt;
use crate::scope::Variable;
use crate::setting::Setting;
use crate::typed::TypedExpr;
use crate::written::answer_ty;
use constructors::Declared;
use logic_term::{AdtDecl, Ty};
use rs_types::AdtTable;
use source_trees::{
    Attribute, AttributeNode, Body, ClauseKind as WrittenKind, Function, Item, ItemNode, Param,
    ParamNode, Pterm,
};
use std::alloc::Global;
use text_core::{Items, NoMemory, PassError, Span};

// ---- contracts

/// The clause of this kind, where the function answers a value of this type.
fn clause_of_kind(
    alloc: Global,
    types: &[AdtDecl],
    kind: ClauseKind,
    answer: &Option<Ty>,
    scope: &[Variable],
    term: &Pterm,
) -> Result<TypedClause, NoMemory>
    ensures { IfOk result (λ c. c ≡ clause_of_kind types.now kind answer.now scope.now term.now) }
{
    let formula = match kind {
        ClauseKind::Requires => assertion(alloc, types, &None, scope, term)?,
        ClauseKind::Ensures => assertion(alloc, types, answer, scope, term)?,
    };
    Ok(TypedClause { kind, formula })
}

/// The clause of an attribute before a function; none where the attribute says nothing.
#[tactic(auto, unfolding(crate::specs::Checked::clause_of))]
fn clause_of(
    alloc: Global,
    types: &[AdtDecl],
    answer: &Option<Ty>,
    scope: &[Variable],
    attribute: &Attribute,
) -> Result<Option<TypedClause>, PassError>
    ensures { Answers result (clause_of types.now answer.now scope.now attribute.now) }
{
    let (kind, term) = match &attribute.node {
        AttributeNode::Clause(WrittenKind::Requires, term) => (ClauseKind::Requires, term),
        AttributeNode::Clause(WrittenKind::Ensures, term) => (ClauseKind::Ensures, term),
        AttributeNode::Skipped => return Ok(None),
        AttributeNode::Clause(WrittenKind::Invariant | WrittenKind::Variant, _)
        | AttributeNode::Logic
        | AttributeNode::Law
        | AttributeNode::Derive(_) => return Err(unbuilt(attribute.span)),
    };
    Ok(Some(clause_of_kind(alloc, types, kind, answer, scope, term)?))
}

fn clauses_of(
    alloc: Global,
    types: &[AdtDecl],
    answer: &Option<Ty>,
    scope: &[Variable],
    attributes: &[Attribute],
) -> Result<Vec<TypedClause>, PassError>
    ensures { AnswersAs result (gather (clause_of types.now answer.now scope.now) attributes.now) (λ v. v.items) }
{
    let mut clauses = Vec::new(alloc);
    for attribute in attributes {
        push_some(
            &mut clauses,
            clause_of(alloc, types, answer, scope, attribute)?,
        )?;
    }
    Ok(clauses)
}

// ---- functions

/// Where the type of the parameter is written.
fn param_at(param: &Param) -> Span
    ensures { result ≡ param_at param.now }
{
    match &param.node {
        ParamNode::Named(_, _, written) => written.span,
        ParamNode::Receiver(_) | ParamNode::Borrowed(_, _) => param.span,
    }
}

/// Where the type of the answer is written: at the name where none is.
fn answer_at(f: &Function) -> Span
    ensures { result ≡ answer_at f.now.name.span f.now.answer }
{
    match &f.answer {
        None => f.name.span,
        Some(written) => written.span,
    }
}

/// Where the types of the answer and the parameters are written.
fn types_at(alloc: Global, f: &Function) -> Result<Items<Span>, NoMemory>
    ensures { IfOk result (λ v. v ≡ types_at f.now) }
{
    let mut all = Items::new(alloc);
    all.push(answer_at(f))?;
    for param in f.params.as_slice() {
        all.push(param_at(param))?;
    }
    Ok(all)
}

/// A block is built as the body of a function, which stands there.
fn type_body(
    alloc: Global,
    setting: &Setting<'_>,
    scope: &mut Vec<Variable>,
    answer: &Option<Ty>,
    own: Span,
    body: &Body,
) -> Result<TypedExpr, PassError>
    ensures answers { Answers result (typed_body (setting_of setting.now) scope.old.items answer.now own body.now) }
    ensures kept { OnOk result (scope.new.items ≡ scope.old.items) }
{
    match body {
        Body::Block(e) => type_expr(alloc, setting, scope, e, answer),
        Body::Term(_) | Body::Missing => Err(unbuilt(own)),
    }
}

/// The function that stands there, with the attributes before it and the types of its expressions.
#[tactic(auto, unfolding(crate::specs::Checked::typed_function))]
fn type_function(
    alloc: Global,
    types: &AdtTable,
    headings: &[Heading],
    own: Span,
    attributes: &[Attribute],
    f: &Function,
) -> Result<TypedFunction, PassError>
    ensures { Answers result (typed_function types.now headings.now own attributes.now f.now) }
{
    let mut scope = variables_of(alloc, types, f.params.as_slice())?;
    let answer = answer_ty(alloc, types, &f.answer)?;
    let expected = Some(answer.copy(alloc)?);
    let signature = signature_of(alloc, scope.as_slice(), answer)?;
    let decls = types.decls();
    let clauses = clauses_of(alloc, decls, &expected, scope.as_slice(), attributes)?;
    let setting = Setting {
        types,
        headings,
        answer: &signature.answer,
        in_loop: false,
    };
    let body = type_body(alloc, &setting, &mut scope, &expected, own, &f.body)?;
    Ok(TypedFunction {
        name: f.name.name,
        span: f.name.span,
        signature,
        types_at: types_at(alloc, f)?,
        clauses: Items::from_vec(clauses),
        body,
    })
}

/// The function that the item is; none where it is none.
fn type_item(
    alloc: Global,
    types: &AdtTable,
    headings: &[Heading],
    item: &Item,
) -> Result<Option<TypedFunction>, PassError>
    ensures { Answers result (typed_item types.now headings.now item.now) }
{
    let attributes = item.attributes.as_slice();
    match &item.node {
        ItemNode::Function(f) => {
            let typed = type_function(alloc, types, headings, item.own, attributes, f)?;
            Ok(Some(typed))
        }
        _ => Ok(None),
    }
}

fn type_items(
    alloc: Global,
    types: &AdtTable,
    headings: &[Heading],
    items: &[Item],
) -> Result<Vec<TypedFunction>, PassError>
    ensures { AnswersAs result (gather (typed_item types.now headings.now) items.now) (λ v. v.items) }
{
    let mut functions = Vec::with_capacity(alloc, items.len())?;
    for item in items {
        push_some(&mut functions, type_item(alloc, types, headings, item)?)?;
    }
    Ok(functions)
}

/// The passes, one after another.
#[tactic(auto, unfolding(crate::specs::Checked::checked))]
fn passes(alloc: Global, types: &AdtTable, items: &[Item]) -> Result<TypedProgram, PassError>
    ensures { Answers result (checked types.now items.now) }
{
    let headings = headings_of(alloc, types, items)?;
    let typed = type_items(alloc, types, headings.as_slice(), items)?;
    if let Some(error) = first_bad(alloc, typed.as_slice())? {
        return Err(PassError::Source(error));
    }
    Ok(TypedProgram {
        functions: Items::from_vec(typed),
    })
}

/// The functions of the items, with their names resolved and the types of their expressions. The types are those that the items declare.
///
/// Errors: passes that each go over all items before the next begins; each refuses the first failing part of the first
/// failing item. E20 at what an item declares that is not built: what is refused by `declare` is not looked for. Then, of bodies and contracts, E20 at a form that is not built, and of bodies E05 at a name that is
/// not declared, E07 where a type is not the one wanted, and E22 at a variable that is written and not `mut`. Then E05,
/// E07 and E20 of the terms of clauses and invariants, and of matches, at the whole, E11 where the patterns of one do not
/// cover the type of its value, and E20 at one that is not flat. Never a limit. `NoMemory` also where a number of variables or
/// functions passes 32 bits.
pub fn check(alloc: Global, items: &[Item], declared: &Declared) -> Result<TypedProgram, PassError>
    ensures answers { Answers result (checked declared.now.table items.now) }
    ensures fits { IfOk result (ProgramFits declared.now.table) }
    ensures good { IfOk result AllGood }
{
    passes(alloc, &declared.table, items)
}
