//! The rules by the variants of an enum: case analysis and induction.
ghost use Rattle.std.specs.Prelude.{◌≡◌, ◌≢◌, ◌↔◌, ◌∷◌, ◌++◌, [], None, Some, IfOk, OnOk, IsTrue, MatchOption, length, map, zip};
ghost use Rattle.std.specs.Option.{option_map};
ghost use Rattle.logic_term.specs.Erased.{erased};
ghost use Rattle.logic_term.specs.Normal.{reduced};
ghost use Rattle.logic_term.specs.Term.{is_equal};
ghost use Rattle.logic_term.specs.TyView.{compound_of, tys_of};
ghost use Rattle.proof_kernel.specs.Rules.{Finds, removing, with_goal, with_hyps};
ghost use Rattle.proof_kernel.specs.VariantCode.{by_of, enum_with};
ghost use Rattle.proof_kernel.specs.TermRules.{at_term};
ghost use Rattle.proof_kernel.specs.VariantRules.{AllNew, at_each, case_of, variant_term, cases_in, enum_of, field_sort, in_variants, induction_rule, premise_of, variants_rule, with_variables};

use crate::erasing::erased;
use crate::instances::is_sort;
use crate::intro::are_new;
use crate::rules::{with_hypotheses, with_hypothesis};
use crate::sequent::Sequent;
use crate::term_rules::{at_term, term_at};
use logic_elab::SortedTerm;
use logic_term::{
    AdtDecl, AdtId, CompoundTy, Ctor, FieldDecl, Sort, Term, Ty, TyNode, VariantDecl, reduce,
};
use rs_types::applied;
use source_trees::Pterm;
use std::alloc::Global;
use text_core::{Items, Name, NoMemory};

// ---- enums

/// The enum that the type is: its number, the types for its parameters, and its variants.
#[tactic(auto, using(crate::proofs::VariantSteps::made_is_no_enum))]
fn enum_at<'a>(
    adts: &'a [AdtDecl],
    parts: &'a CompoundTy,
) -> Option<(AdtId, &'a [Ty], &'a [VariantDecl])>
    ensures { MatchOption result (enum_of adts.now (compound_of parts.now) ≡ None) (λ e. enum_of adts.now (compound_of parts.now) ≡ Some (enum_with e.0 e.1.now e.2.now)) }
{
    match parts {
        CompoundTy::Adt(adt, _, arguments) => match adts.get(adt.0 as usize) {
            Some(decl) => {
                if decl.is_struct {
                    return None;
                }
                Some((*adt, arguments.as_slice(), decl.variants.as_slice()))
            }
            None => None,
        },
        CompoundTy::Unary(_, _) | CompoundTy::Closure(_, _, _, _) => None,
    }
}

fn enum_of<'a>(adts: &'a [AdtDecl], sort: &'a Sort) -> Option<(AdtId, &'a [Ty], &'a [VariantDecl])>
    ensures { MatchOption result (enum_of adts.now sort.now ≡ None) (λ e. enum_of adts.now sort.now ≡ Some (enum_with e.0 e.1.now e.2.now)) }
{
    match &sort.node {
        TyNode::Compound(parts) => enum_at(adts, parts),
        _ => None,
    }
}

/// The sorts of the fields, at types for the parameters of their declared type.
fn field_sorts(alloc: Global, arguments: &[Ty], fields: &[FieldDecl]) -> Result<Vec<Sort>, NoMemory>
    ensures { IfOk result (λ v. v.items ≡ map (field_sort (tys_of arguments.now)) fields.now) }
{
    let mut sorts = Vec::with_capacity(alloc, fields.len())?;
    for i in 0..fields.len() {
        let ty = applied(alloc, arguments, &fields[i].ty)?;
        sorts.push(erased(alloc, &ty)?)?;
    }
    Ok(sorts)
}

// ---- the premise of a case

/// How the variants are gone through.
#[derive(Clone, Copy)]
enum Through<'a> {
    /// The term is the value of the variant.
    Analysis(&'a Term),
    /// By induction over the variable, which is of the sort.
    Induction(Name, &'a Sort),
}

/// The value of the variant of this number, with the names for its fields.
fn variant_term(alloc: Global, adt: AdtId, number: u32, names: &[Name]) -> Result<Term, NoMemory>
    ensures { IfOk result (λ t. t ≡ variant_term adt number names.now) }
{
    let mut parts = Vec::with_capacity(alloc, names.len())?;
    for i in 0..names.len() {
        parts.push(Term::var(alloc, names[i])?)?;
    }
    Term::made(alloc, Ctor::Variant(adt, number), parts)
}

/// The sequent with the names as variables of the sorts at their places.
fn with_fields(
    alloc: Global,
    q: Sequent,
    names: &[Name],
    sorts: &[Sort],
) -> Result<Sequent, NoMemory>
    requires { length names.now ≡ length sorts.now }
    ensures { IfOk result (λ r. r ≡ with_variables q (zip names.now sorts.now)) }
{
    let mut all = q;
    for i in 0..names.len() {
        let sort = sorts[i].copy(alloc)?;
        all = all.declaring(alloc, names[i], sort)?;
    }
    Ok(all)
}

/// Adds the formula at the name, if its sort is this.
fn add_at(
    alloc: Global,
    sort: &Sort,
    name: Name,
    t: &Term,
    field: Name,
    field_sort: &Sort,
    all: &mut Vec<Term>,
) -> Result<(), NoMemory>
    ensures { OnOk result (all.new.items ≡ all.old.items ++ at_each sort.now name t.now ((field, field_sort.now) ∷ [])) }
{
    if is_sort(field_sort, sort) {
        let field = Term::var(alloc, field)?;
        all.push(at_term(alloc, name, field, t)?)?;
    }
    Ok(())
}

/// The formula at each of the names whose sort is this.
fn at_each(
    alloc: Global,
    sort: &Sort,
    name: Name,
    t: &Term,
    names: &[Name],
    sorts: &[Sort],
) -> Result<Vec<Term>, NoMemory>
    requires { length names.now ≡ length sorts.now }
    ensures { IfOk result (λ v. v.items ≡ at_each sort.now name t.now (zip names.now sorts.now)) }
{
    let mut all = Vec::new(alloc);
    for i in 0..names.len() {
        add_at(alloc, sort, name, t, names[i], &sorts[i], &mut all)?;
    }
    Ok(all)
}

/// The sequent where the term is the value of the variant.
fn analysed(
    alloc: Global,
    step: u32,
    q: &Sequent,
    t: &Term,
    value: Term,
    names: &[Name],
    sorts: &[Sort],
) -> Result<Sequent, NoMemory>
    requires { length names.now ≡ length sorts.now }
    ensures { IfOk result (λ p. p ≡ with_hyps step (with_variables q.now (zip names.now sorts.now)) (reduced (is_equal t.now value) ∷ [])) }
{
    let equation = Term::equal(alloc, t.share()?, value)?;
    let equation = reduce(alloc, &equation)?;
    let q = with_fields(alloc, q.share()?, names, sorts)?;
    with_hypothesis(alloc, step, &q, equation)
}

/// The sequent with the names for the variable, and the goal at those of its sort as hypotheses.
fn with_induction(
    alloc: Global,
    step: u32,
    q: &Sequent,
    name: Name,
    sort: &Sort,
    names: &[Name],
    sorts: &[Sort],
) -> Result<Sequent, NoMemory>
    requires { length names.now ≡ length sorts.now }
    ensures { IfOk result (λ p. p ≡ with_hyps step (with_variables (removing name q.now) (zip names.now sorts.now)) (at_each (erased sort.now) name q.now.goal (zip names.now sorts.now))) }
{
    let goal = q.goal(alloc)?;
    let sort = erased(alloc, sort)?;
    let hyps = at_each(alloc, &sort, name, &goal, names, sorts)?;
    let q = q.removing(alloc, name)?;
    let q = with_fields(alloc, q, names, sorts)?;
    with_hypotheses(alloc, step, &q, hyps.as_slice())
}

/// The same with the goal at the value of the variant.
fn inducted(
    alloc: Global,
    step: u32,
    q: &Sequent,
    name: Name,
    sort: &Sort,
    value: Term,
    names: &[Name],
    sorts: &[Sort],
) -> Result<Sequent, NoMemory>
    requires { length names.now ≡ length sorts.now }
    ensures { IfOk result (λ p. p ≡ with_goal (with_hyps step (with_variables (removing name q.now) (zip names.now sorts.now)) (at_each (erased sort.now) name q.now.goal (zip names.now sorts.now))) (at_term name value q.now.goal)) }
{
    let goal = q.goal(alloc)?;
    let goal = at_term(alloc, name, value, &goal)?;
    let q = with_induction(alloc, step, q, name, sort, names, sorts)?;
    q.with_goal(goal)
}

/// The premise of the variant of this number, with names of these sorts for its fields.
fn premise(
    alloc: Global,
    through: Through<'_>,
    step: u32,
    q: &Sequent,
    adt: AdtId,
    number: u32,
    names: &[Name],
    sorts: &[Sort],
) -> Result<Sequent, NoMemory>
    requires { length names.now ≡ length sorts.now }
    ensures { IfOk result (λ p. p ≡ premise_of (by_of through.entry) step q.now adt (record { number = number; names = names.now; sorts = sorts.now })) }
{
    let value = variant_term(alloc, adt, number, names)?;
    match through {
        Through::Analysis(t) => analysed(alloc, step, q, t, value, names, sorts),
        Through::Induction(name, sort) => {
            inducted(alloc, step, q, name, sort, value, names, sorts)
        }
    }
}

// ---- all cases

/// The premise of the variant, if there are as many names as fields.
fn case(
    alloc: Global,
    through: Through<'_>,
    step: u32,
    q: &Sequent,
    adt: AdtId,
    arguments: &[Ty],
    number: usize,
    fields: &[FieldDecl],
    names: &[Name],
) -> Result<Option<Sequent>, NoMemory>
    ensures { IfOk result (λ o. MatchOption o (length names.now ≢ length fields.now) (λ p. (length names.now ≡ length fields.now) × (p ≡ premise_of (by_of through.entry) step q.now adt (case_of (tys_of arguments.now) number names.now fields.now)))) }
{
    if names.len() != fields.len() {
        return Ok(None);
    }
    let number = u32::try_from(number).map_err(|_| NoMemory)?;
    let sorts = field_sorts(alloc, arguments, fields)?;
    let premise = premise(
        alloc,
        through,
        step,
        q,
        adt,
        number,
        names,
        sorts.as_slice(),
    )?;
    Ok(Some(premise))
}

/// A premise for each variant; `None` exactly where there are not as many lists of names, or in a list not as many names as fields.
fn all_cases(
    alloc: Global,
    through: Through<'_>,
    step: u32,
    q: &Sequent,
    adt: AdtId,
    arguments: &[Ty],
    variants: &[VariantDecl],
    names: &[Items<Name>],
) -> Result<Option<Vec<Sequent>>, NoMemory>
    ensures { IfOk result (λ o. Finds (option_map (map (premise_of (by_of through.entry) step q.now adt)) (cases_in (tys_of arguments.now) 0 variants.now names.now)) o) }
{
    if names.len() != variants.len() {
        return Ok(None);
    }
    let mut premises = Vec::with_capacity(alloc, variants.len())?;
    for i in 0..variants.len() {
        let fields = variants[i].fields.as_slice();
        let given = names[i].as_slice();
        match case(alloc, through, step, q, adt, arguments, i, fields, given)? {
            None => return Ok(None),
            Some(premise) => premises.push(premise)?,
        }
    }
    Ok(Some(premises))
}

fn in_variants(
    alloc: Global,
    adts: &[AdtDecl],
    through: Through<'_>,
    step: u32,
    q: &Sequent,
    sort: &Sort,
    names: &[Items<Name>],
) -> Result<Option<Vec<Sequent>>, NoMemory>
    ensures { IfOk result (λ o. Finds (in_variants (by_of through.entry) step q.now names.now (enum_of adts.now sort.now)) o) }
{
    match enum_of(adts, sort) {
        None => Ok(None),
        Some((adt, arguments, variants)) => {
            all_cases(alloc, through, step, q, adt, arguments, variants, names)
        }
    }
}

// ---- the rules

/// Whether the names of each list are new in the sequent, and no two of a list are one.
pub(crate) fn are_all_new(
    alloc: Global,
    names: &[Items<Name>],
    q: &Sequent,
) -> Result<bool, NoMemory>
    ensures { IfOk result (λ b. IsTrue b ↔ AllNew names.now q.now) }
{
    let above = q.above_free(alloc)?;
    for i in 0..names.len() {
        if !are_new(alloc, names[i].as_slice(), q, above)? {
            return Ok(false);
        }
    }
    Ok(true)
}

/// A premise for each variant of the term's enum; `None` exactly where the term is of no enum at the sequent, or names are missing or too
/// many.
pub(crate) fn variants_rule(
    alloc: Global,
    adts: &[AdtDecl],
    step: u32,
    t: &Pterm,
    names: &[Items<Name>],
    q: &Sequent,
) -> Result<Option<Vec<Sequent>>, NoMemory>
    ensures { IfOk result (λ o. Finds (variants_rule adts.now step q.now t.now names.now) o) }
{
    let Some(found) = term_at(alloc, adts, q, t)? else {
        return Ok(None);
    };
    let SortedTerm { sort, term } = found;
    let term = term.into_inner();
    in_variants(alloc, adts, Through::Analysis(&term), step, q, &sort, names)
}

/// A premise for each variant of the variable's enum; `None` exactly where it is no variable of an enum, or names are missing or too many.
pub(crate) fn induction_rule(
    alloc: Global,
    adts: &[AdtDecl],
    step: u32,
    name: Name,
    names: &[Items<Name>],
    q: &Sequent,
) -> Result<Option<Vec<Sequent>>, NoMemory>
    ensures { IfOk result (λ o. Finds (induction_rule adts.now step q.now name names.now) o) }
{
    match q.sort_of(name) {
        None => Ok(None),
        Some(sort) => in_variants(
            alloc,
            adts,
            Through::Induction(name, sort),
            step,
            q,
            sort,
            names,
        ),
    }
}
