//! What stands around an expression, and the invariants of a loop there.
ghost use Rattle.std.specs.Prelude.{◌≡◌, ◌<◌, None, length, map, IfOk};
ghost use Rattle.type_check.specs.FirstBad.{bad_of, bad_among};
ghost use Rattle.mir_build.specs.Built.{around, term_with};
ghost use Rattle.mir_build.specs.Numbered.{variable_place, formula_of, loop_at};
ghost use Rattle.mir_build.specs.Lowering.{local_name, term_of, formula_span, held, places_for, heads, head_of};
ghost use Rattle.type_check.specs.VariableNames.{variable_name, answer_name};

use logic_term::{Label, Replacement, Term};
use mir_ir::{Head, Place};
use rs_types::CopyTypes;
use std::alloc::Global;
use text_core::{Items, Name, NoMemory, Span};
use type_check::Assertion;

/// A loop around an expression.
#[derive(Clone, Copy)]
pub(crate) struct Loop {
    pub(crate) head: Label,
    /// The block behind it; the head where it is not left.
    pub(crate) after: Label,
    /// How many variables are in scope around it.
    pub(crate) depth: usize,
}

/// Which types are `Copy`, the place of each variable in scope, and the loops around, both the outermost first.
#[derive(Drop)]
pub(crate) struct Around<'a> {
    pub(crate) types: &'a CopyTypes,
    pub(crate) scope: Vec<Place>,
    pub(crate) loops: Vec<Loop>,
}

pub(crate) fn same_place(alloc: Global, place: &Place) -> Result<Place, NoMemory>
    ensures { IfOk result (λ p. p ≡ place.now) }
{
    let path = Items::from_slice(alloc, place.path.as_slice())?;
    Ok(Place {
        local: place.local,
        path,
    })
}

/// The place of a variable in scope.
pub(crate) fn variable_place(
    alloc: Global,
    scope: &[Place],
    variable: u32,
) -> Result<Place, NoMemory>
    requires { variable < length scope.now }
    ensures { IfOk result (λ p. p ≡ variable_place scope.now variable) }
{
    match scope.get(variable as usize) {
        Some(place) => same_place(alloc, place),
        None => unreachable!(),
    }
}

/// The heads around, as a block has them.
pub(crate) fn nest(alloc: Global, c: &Around<'_>) -> Result<Items<Label>, NoMemory>
    ensures { IfOk result (λ it. it ≡ heads (around c.now).loops) }
{
    let mut all = Items::new(alloc);
    for inner in c.loops.as_slice() {
        all.push(inner.head)?;
    }
    Ok(all)
}

/// The innermost loop around. No typed program asks for one where none is, and an answer that no row speaks of stands for it.
pub(crate) fn innermost(c: &Around<'_>) -> Loop
    ensures { result ≡ loop_at (around c.now).loops }
{
    match c.loops.last() {
        Some(inner) => *inner,
        None => Loop {
            head: Label(0),
            after: Label(0),
            depth: 0,
        },
    }
}

// ---- names

/// The first of the fresh names that stand for variables.
const FIRST_VARIABLE: u64 = 1 << 61;

/// The fresh name that stands for the answer.
const ANSWER: u64 = (1 << 61) + (1 << 60);

#[tactic(auto, unfolding(crate::specs::Lowering::local_name))]
pub(crate) fn local_name(x: u32) -> Name
    ensures { result ≡ local_name x }
{
    Name::fresh(x as u64)
}

#[tactic(auto, unfolding(type_check::specs::VariableNames::variable_name))]
pub(crate) fn variable_name(k: u32) -> Name
    ensures { result ≡ variable_name k }
{
    Name::fresh(FIRST_VARIABLE + k as u64)
}

#[tactic(auto, unfolding(type_check::specs::VariableNames::answer_name))]
pub(crate) fn answer_name() -> Name
    ensures { result ≡ answer_name }
{
    Name::fresh(ANSWER)
}

// ---- formulas

/// The term of a formula that is not refused.
pub(crate) fn term_of(assertion: &Assertion) -> &Term
    requires { bad_of assertion.now ≡ None }
    ensures { result.now ≡ term_of (formula_of assertion.now) }
{
    match assertion {
        Assertion::Good(_, term) => term,
        Assertion::Bad(_) => unreachable!(),
    }
}

/// The span of a formula that is not refused.
pub(crate) fn formula_span(assertion: &Assertion) -> Span
    requires { bad_of assertion.now ≡ None }
    ensures { result ≡ formula_span (formula_of assertion.now) }
{
    match assertion {
        Assertion::Good(span, _) => *span,
        Assertion::Bad(_) => unreachable!(),
    }
}

/// What a place holds.
fn held(alloc: Global, place: &Place) -> Result<Term, NoMemory>
    ensures { IfOk result (λ t. t ≡ held place.now) }
{
    Term::var(alloc, local_name(place.local))
}

/// What the places hold for the names of the variables.
fn places_for(alloc: Global, scope: &[Place]) -> Result<Vec<Replacement>, NoMemory>
    ensures { IfOk result (λ v. v.items ≡ places_for 0 scope.now) }
{
    let mut all = Vec::new(alloc);
    let mut variable: u32 = 0;
    for place in scope {
        let by = held(alloc, place)?;
        all.push(Replacement {
            name: variable_name(variable),
            by,
        })?;
        variable = variable.checked_add(1).ok_or(NoMemory)?;
    }
    Ok(all)
}

/// The formulas, with terms for names.
#[tactic(auto, using(crate::proofs::Clauses::formulas))]
fn formulas_with_terms(
    alloc: Global,
    sub: &[Replacement],
    assertions: &[Assertion],
) -> Result<Items<Term>, NoMemory>
    requires { bad_among assertions.now ≡ None }
    ensures { IfOk result (λ v. v ≡ map (term_with sub.now) (map formula_of assertions.now)) }
{
    let mut all = Items::new(alloc);
    for assertion in assertions {
        all.push(term_of(assertion).with(alloc, sub)?)?;
    }
    Ok(all)
}

#[tactic(auto, using(crate::proofs::Clauses::formulas))]
fn formula_spans(alloc: Global, assertions: &[Assertion]) -> Result<Items<Span>, NoMemory>
    requires { bad_among assertions.now ≡ None }
    ensures { IfOk result (λ v. v ≡ map formula_span (map formula_of assertions.now)) }
{
    let mut all = Items::new(alloc);
    for assertion in assertions {
        all.push(formula_span(assertion))?;
    }
    Ok(all)
}

/// The head of a loop with these invariants, which speak of the variables in scope.
pub(crate) fn head_of(
    alloc: Global,
    c: &Around<'_>,
    assertions: &[Assertion],
) -> Result<Head, NoMemory>
    requires { bad_among assertions.now ≡ None }
    ensures { IfOk result (λ h. h ≡ head_of (around c.now) (map formula_of assertions.now)) }
{
    let sub = places_for(alloc, c.scope.as_slice())?;
    let invariants = formulas_with_terms(alloc, sub.as_slice(), assertions)?;
    let spans = formula_spans(alloc, assertions)?;
    Ok(Head { invariants, spans })
}
