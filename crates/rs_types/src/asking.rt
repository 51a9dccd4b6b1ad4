//! Cases for the declared types that stand in types.
ghost use Rattle.std.specs.Prelude.{◌≡◌, OnOk, length, map, true};
ghost use Rattle.logic_term.specs.Theory.{field_ty};
ghost use Rattle.logic_term.specs.TyView.{compound_of, tys_of};
ghost use Rattle.rs_types.specs.Refused.{CheckIsAsked, ChecksAreAsked};
ghost use Rattle.rs_types.specs.Weighing.{is_among, variants_at, AllAsked, AreAsked, EachAsked, Grows, IsAsked};

use crate::checks::Check;
use crate::weighing::{Case, Question, is_among, weights};
use logic_term::{AdtDecl, CompoundTy, FieldDecl, Ty, TyNode, TyUnary, VariantDecl};
use std::alloc::Global;
use text_core::{Items, NoMemory};

/// Adds the case of the declared type at arguments of these weights, unless it is there.
#[tactic(auto, using(crate::proofs::Growth::nothing_added, crate::proofs::Growth::one_added, crate::proofs::Growth::one_longer))]
fn ask_case(adt: u32, given: Vec<u8>, cases: &mut Vec<Case>) -> Result<(), NoMemory>
    ensures grows { OnOk result (Grows cases.old.items cases.new.items) }
    ensures asked { OnOk result (length cases.new.items ≡ length cases.old.items → is_among adt given.items cases.old.items ≡ true) }
{
    if is_among(adt, given.as_slice(), cases.as_slice()) {
        return Ok(());
    }
    cases.push(Case {
        adt,
        given: Items::from_vec(given),
        weight: 0,
    })?;
    Ok(())
}

/// Adds a case for each declared type in the type that has none yet, where type parameters have the given weights.
#[cycle(ask)]
#[tactic(auto, using(crate::proofs::Lists::each_smaller, crate::proofs::Growth::nothing_added, crate::proofs::Growth::more_added, crate::proofs::Growth::on_the_way))]
fn ask(
    alloc: Global,
    question: Question,
    given: &[u8],
    t: &Ty,
    cases: &mut Vec<Case>,
) -> Result<(), NoMemory>
    ensures grows { OnOk result (Grows cases.old.items cases.new.items) }
    ensures asked { OnOk result (length cases.new.items ≡ length cases.old.items → IsAsked question cases.old.items given.now t.now) }
{
    match &t.node {
        TyNode::Int(_) | TyNode::Bool | TyNode::MathInt | TyNode::Param(_) => Ok(()),
        TyNode::Tuple(parts) => ask_each(alloc, question, given, parts, cases),
        TyNode::Compound(parts) => ask_parts(alloc, question, given, parts, cases),
    }
}

#[cycle(ask)]
#[tactic(auto, using(crate::proofs::Lists::each_smaller, crate::proofs::Growth::nothing_added, crate::proofs::Growth::more_added, crate::proofs::Growth::on_the_way))]
fn ask_parts(
    alloc: Global,
    question: Question,
    given: &[u8],
    parts: &CompoundTy,
    cases: &mut Vec<Case>,
) -> Result<(), NoMemory>
    ensures grows { OnOk result (Grows cases.old.items cases.new.items) }
    ensures asked { OnOk result (length cases.new.items ≡ length cases.old.items → IsAsked question cases.old.items given.now (compound_of parts.now)) }
{
    match parts {
        CompoundTy::Adt(adt, _, types) => {
            ask_each(alloc, question, given, types, cases)?;
            let arguments = weights(alloc, question, cases.as_slice(), given, types)?;
            ask_case(adt.0, arguments, cases)
        }
        CompoundTy::Unary(TyUnary::View, _) => Ok(()),
        CompoundTy::Unary(
            TyUnary::Boxed | TyUnary::Shared(_) | TyUnary::Unique(_) | TyUnary::Snapshot,
            t,
        ) => ask(alloc, question, given, t, cases),
        CompoundTy::Closure(_, _, captures, _) => {
            ask_each(alloc, question, given, captures, cases)
        }
    }
}

#[cycle(ask)]
#[tactic(auto, using(crate::proofs::Lists::each_smaller, crate::proofs::Growth::nothing_added, crate::proofs::Growth::more_added, crate::proofs::Growth::on_the_way))]
fn ask_each(
    alloc: Global,
    question: Question,
    given: &[u8],
    types: &[Ty],
    cases: &mut Vec<Case>,
) -> Result<(), NoMemory>
    ensures grows { OnOk result (Grows cases.old.items cases.new.items) }
    ensures asked { OnOk result (length cases.new.items ≡ length cases.old.items → AreAsked question cases.old.items given.now (tys_of types.now)) }
{
    for i in (0..types.len()).rev() {
        ask(alloc, question, given, &types[i], cases)?;
    }
    Ok(())
}

#[tactic(auto, using(crate::proofs::Growth::nothing_added, crate::proofs::Growth::more_added, crate::proofs::Growth::on_the_way))]
fn ask_fields(
    alloc: Global,
    question: Question,
    given: &[u8],
    fields: &[FieldDecl],
    cases: &mut Vec<Case>,
) -> Result<(), NoMemory>
    ensures grows { OnOk result (Grows cases.old.items cases.new.items) }
    ensures asked { OnOk result (length cases.new.items ≡ length cases.old.items → AreAsked question cases.old.items given.now (tys_of (map field_ty fields.now))) }
{
    for i in (0..fields.len()).rev() {
        ask(alloc, question, given, &fields[i].ty, cases)?;
    }
    Ok(())
}

#[tactic(auto, using(crate::proofs::Growth::nothing_added, crate::proofs::Growth::more_added, crate::proofs::Growth::on_the_way))]
fn ask_variants(
    alloc: Global,
    question: Question,
    given: &[u8],
    variants: &[VariantDecl],
    cases: &mut Vec<Case>,
) -> Result<(), NoMemory>
    ensures grows { OnOk result (Grows cases.old.items cases.new.items) }
    ensures asked { OnOk result (length cases.new.items ≡ length cases.old.items → AllAsked question cases.old.items given.now variants.now) }
{
    for i in (0..variants.len()).rev() {
        let fields = variants[i].fields.as_slice();
        ask_fields(alloc, question, given, fields, cases)?;
    }
    Ok(())
}

/// The variants of the declared type of this number; none past the end.
pub(crate) fn variants_at(decls: &[AdtDecl], adt: u32) -> &[VariantDecl]
    ensures { result.now ≡ variants_at decls.now adt }
{
    match decls.get(adt as usize) {
        Some(decl) => decl.variants.as_slice(),
        None => &[],
    }
}

/// Adds a case for each declared type that stands in a field of the declared type of one of these cases and has none yet.
#[tactic(auto, using(crate::proofs::Growth::nothing_added, crate::proofs::Growth::more_added, crate::proofs::Growth::on_the_way))]
pub(crate) fn ask_all(
    alloc: Global,
    question: Question,
    decls: &[AdtDecl],
    of: &[Case],
    cases: &mut Vec<Case>,
) -> Result<(), NoMemory>
    ensures grows { OnOk result (Grows cases.old.items cases.new.items) }
    ensures asked { OnOk result (length cases.new.items ≡ length cases.old.items → EachAsked question decls.now cases.old.items of.now) }
{
    for i in (0..of.len()).rev() {
        let case = &of[i];
        let given = case.given.as_slice();
        let variants = variants_at(decls, case.adt);
        ask_variants(alloc, question, given, variants, cases)?;
    }
    Ok(())
}

/// Adds a case for each declared type that stands in the type of the check and has none yet, whatever type arguments are.
#[tactic(auto, using(crate::proofs::Growth::nothing_added))]
fn ask_check(
    alloc: Global,
    question: Question,
    check: &Check,
    cases: &mut Vec<Case>,
) -> Result<(), NoMemory>
    ensures grows { OnOk result (Grows cases.old.items cases.new.items) }
    ensures asked { OnOk result (length cases.new.items ≡ length cases.old.items → CheckIsAsked question cases.old.items check.now) }
{
    match check {
        Check::Flat(_, ty) => ask(alloc, question, &[], ty, cases),
        Check::Plain(_) | Check::Finite(_, _) => Ok(()),
    }
}

#[tactic(auto, using(crate::proofs::Growth::nothing_added, crate::proofs::Growth::more_added, crate::proofs::Growth::on_the_way))]
fn ask_checks(
    alloc: Global,
    question: Question,
    checks: &[Check],
    cases: &mut Vec<Case>,
) -> Result<(), NoMemory>
    ensures grows { OnOk result (Grows cases.old.items cases.new.items) }
    ensures asked { OnOk result (length cases.new.items ≡ length cases.old.items → ChecksAreAsked question cases.old.items checks.now) }
{
    for i in (0..checks.len()).rev() {
        ask_check(alloc, question, &checks[i], cases)?;
    }
    Ok(())
}

/// The same for the fields of the cases and for the types of the checks.
#[tactic(auto, using(crate::proofs::Growth::nothing_added, crate::proofs::Growth::more_added, crate::proofs::Growth::on_the_way))]
pub(crate) fn ask_for(
    alloc: Global,
    question: Question,
    decls: &[AdtDecl],
    of: &[Case],
    checks: &[Check],
    cases: &mut Vec<Case>,
) -> Result<(), NoMemory>
    ensures grows { OnOk result (Grows cases.old.items cases.new.items) }
    ensures asked { OnOk result (length cases.new.items ≡ length cases.old.items → EachAsked question decls.now cases.old.items of.now) }
    ensures checks_asked { OnOk result (length cases.new.items ≡ length cases.old.items → ChecksAreAsked question cases.old.items checks.now) }
{
    ask_all(alloc, question, decls, of, cases)?;
    ask_checks(alloc, question, checks, cases)
}
