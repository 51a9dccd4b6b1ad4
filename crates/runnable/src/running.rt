//! The first of a program that does not run yet.
ghost use Rattle.std.specs.Prelude.{◌≡◌, ◌<◌, MatchOption, IfOk, not};
ghost use Rattle.type_check.specs.TypedExpr.{done};
ghost use Rattle.type_check.specs.TypedExprView.{arms_of, exprs_of, stmts_of, ty_of, typed_size};
ghost use Rattle.runnable.specs.Runs.{is_part};
ghost use Rattle.runnable.specs.Unrun.{earlier, first_unrun, own_place, runs_here, unrun_among, unrun_function, unrun_in, unrun_in_arms, unrun_in_statements};

use crate::types::RunningTypes;
use logic_term::{AdtDecl, Ty};
use std::alloc::Global;
use text_core::{NoMemory, Span};
use type_check::{TypedArm, TypedExpr, TypedFunction, TypedNode, TypedProgram, TypedStmt};

fn earlier(first: Option<Span>, second: Option<Span>) -> Option<Span>
    ensures { result ≡ earlier first second }
{
    if first.is_some() { first } else { second }
}

fn ty_of(e: &TypedExpr) -> &Ty
    ensures { result.now ≡ ty_of e.now }
{
    &e.ty
}

/// Whether the expression names a part of a value.
fn is_part(e: &TypedExpr) -> bool
    ensures { result ≡ is_part e.now }
{
    match &*e.node {
        TypedNode::Part(_, _) => true,
        _ => false,
    }
}

/// Whether the expression runs where its parts do.
fn runs_here(types: &RunningTypes<'_>, e: &TypedExpr) -> bool
    ensures { result ≡ runs_here types.now e.now }
{
    match &*e.node {
        TypedNode::Assign(place, _) | TypedNode::Update(_, place, _) | TypedNode::Match(place, _) =>
            !is_part(place) && types.runs(ty_of(e)),
        _ => types.runs(ty_of(e)),
    }
}

/// Where the expression stands, unless it runs where its parts do.
fn own_place(types: &RunningTypes<'_>, e: &TypedExpr) -> Option<Span>
    ensures { result ≡ own_place types.now e.now }
{
    if runs_here(types, e) {
        None
    } else {
        Some(e.span)
    }
}

/// The operands of an operation, or that of a cast, and where it stands itself, unless it runs where they do.
fn operands_of<'a>(
    types: &RunningTypes<'_>,
    e: &'a TypedExpr,
) -> Option<(&'a TypedExpr, Option<&'a TypedExpr>, Option<Span>)>
    ensures parts { MatchOption result (Unit {0}) (λ p. MatchOption p.1 (unrun_in types.now e.now ≡ earlier (unrun_in types.now p.0.now) p.2) (λ b. unrun_in types.now e.now ≡ earlier (unrun_in types.now p.0.now) (earlier (unrun_in types.now b.now) p.2))) }
    ensures left { MatchOption result (Unit {0}) (λ p. typed_size p.0.now < typed_size e.now) }
    ensures right { MatchOption result (Unit {0}) (λ p. MatchOption p.1 (Unit {0}) (λ b. typed_size b.now < typed_size e.now)) }
{
    match &*e.node {
        TypedNode::Cast(a) => Some((a, None, own_place(types, e))),
        TypedNode::Binary(_, a, b)
        | TypedNode::Lazy(_, a, b)
        | TypedNode::Assign(a, b)
        | TypedNode::Update(_, a, b) => Some((a, Some(b), own_place(types, e))),
        _ => None,
    }
}

/// The first place in the expression of what does not run. Left operands are gone down by a loop; what is found further left stands earlier.
#[cycle(unrun)]
#[tactic(auto, using(crate::proofs::UnrunParts::joined))]
fn unrun_in(types: &RunningTypes<'_>, e: &TypedExpr) -> Option<Span>
    ensures { result ≡ unrun_in types.now e.now }
{
    let mut bottom = e;
    let mut found = None;
    while let Some((left, right, own)) = operands_of(types, bottom) {
        found = earlier(own, found);
        if let Some(right) = right {
            found = earlier(unrun_in(types, right), found);
        }
        bottom = left;
    }
    let parts = earlier(unrun_in_parts(types, bottom), own_place(types, bottom));
    earlier(parts, found)
}

/// The same of its parts alone, each by a call.
#[cycle(unrun)]
#[tactic(auto, using(crate::proofs::UnrunParts::unrun_parts))]
fn unrun_in_parts(types: &RunningTypes<'_>, e: &TypedExpr) -> Option<Span>
    ensures { earlier result (own_place types.now e.now) ≡ unrun_in types.now e.now }
{
    match &*e.node {
        TypedNode::Int(_, _) => None,
        TypedNode::Truth(_) => None,
        TypedNode::Variable(_) => None,
        TypedNode::Neg(a) => unrun_in(types, a),
        TypedNode::Not(a) => unrun_in(types, a),
        TypedNode::Cast(a) => unrun_in(types, a),
        TypedNode::Binary(_, a, b) => earlier(unrun_in(types, a), unrun_in(types, b)),
        TypedNode::Lazy(_, a, b) => earlier(unrun_in(types, a), unrun_in(types, b)),
        TypedNode::Assign(a, b) => earlier(unrun_in(types, a), unrun_in(types, b)),
        TypedNode::Update(_, a, b) => earlier(unrun_in(types, a), unrun_in(types, b)),
        TypedNode::Call(_, args) => unrun_among(types, args),
        TypedNode::Make(_, parts) => unrun_among(types, parts),
        TypedNode::Part(a, _) => unrun_in(types, a),
        TypedNode::Block(stmts) => unrun_in_statements(types, stmts),
        TypedNode::BlockWith(stmts, last) => earlier(
            unrun_in_statements(types, stmts),
            unrun_in(types, last),
        ),
        TypedNode::BlockLeaving(stmts, last) => {
            earlier(unrun_in_statements(types, stmts), unrun_in(types, last))
        }
        TypedNode::If(c, a) => earlier(unrun_in(types, c), unrun_in(types, a)),
        TypedNode::IfElse(c, a, b) => earlier(
            unrun_in(types, c),
            earlier(unrun_in(types, a), unrun_in(types, b)),
        ),
        TypedNode::Match(value, arms) => earlier(
            unrun_in(types, value),
            unrun_in_arms(types, arms),
        ),
        TypedNode::While(_, c, b) => earlier(unrun_in(types, c), unrun_in(types, b)),
        TypedNode::Panic(_) => None,
        TypedNode::Return(a) => unrun_in(types, a),
        TypedNode::Loop(_, b) => unrun_in(types, b),
        TypedNode::LoopUntilBreak(_, b) => unrun_in(types, b),
        TypedNode::Break => None,
        TypedNode::Continue => None,
    }
}

#[cycle(unrun)]
#[tactic(auto, using(crate::proofs::UnrunParts::unrun_parts))]
fn unrun_among(types: &RunningTypes<'_>, es: &[TypedExpr]) -> Option<Span>
    ensures { result ≡ unrun_among types.now (exprs_of es.now) }
{
    for i in 0..es.len() {
        let place = unrun_in(types, &es[i]);
        if place.is_some() {
            return place;
        }
    }
    None
}

#[cycle(unrun)]
#[tactic(auto, using(crate::proofs::UnrunParts::unrun_parts))]
fn unrun_in_statements(types: &RunningTypes<'_>, stmts: &[TypedStmt]) -> Option<Span>
    ensures { result ≡ unrun_in_statements types.now (stmts_of stmts.now done) }
{
    for i in 0..stmts.len() {
        let place = unrun_in(types, &stmts[i].value);
        if place.is_some() {
            return place;
        }
    }
    None
}

#[cycle(unrun)]
#[tactic(auto, using(crate::proofs::UnrunParts::unrun_parts))]
fn unrun_in_arms(types: &RunningTypes<'_>, arms: &[TypedArm]) -> Option<Span>
    ensures { result ≡ unrun_in_arms types.now (arms_of arms.now) }
{
    for i in 0..arms.len() {
        let place = unrun_in(types, &arms[i].body);
        if place.is_some() {
            return place;
        }
    }
    None
}

fn unrun_function(types: &RunningTypes<'_>, f: &TypedFunction) -> Option<Span>
    ensures { result ≡ unrun_function types.now f.now }
{
    if types.all_run(f.signature.params.as_slice()) && types.runs(&f.signature.answer) {
        unrun_in(types, &f.body)
    } else {
        Some(f.span)
    }
}

/// The first place in the program of what does not run yet: of a function that has a parameter or an answer of a type that is not `Copy`, or that may hold
/// references, its name; of an expression of such a type, of one that assigns to a part of a value, and of a match of one its own place, behind those of
/// its parts. `None` where the program is plain.
///
/// # Errors
///
/// `NoMemory` where memory is refused.
pub fn first_unrun(
    alloc: Global,
    decls: &[AdtDecl],
    program: &TypedProgram,
) -> Result<Option<Span>, NoMemory>
    ensures { IfOk result (λ place. place ≡ first_unrun decls.now program.now) }
{
    let types = RunningTypes::of(alloc, decls)?;
    for function in program.functions.as_slice() {
        let place = unrun_function(&types, function);
        if place.is_some() {
            return Ok(place);
        }
    }
    Ok(None)
}
