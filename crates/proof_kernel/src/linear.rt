//! The step of linear arithmetic: rows of hypotheses and of the negated goal, and a certificate that no integers meet them.

ghost use Rattle.std.specs.Prelude.{◌≡◌, ◌↔◌, ◌<◌, ◌^◌, List, [], ◌∷◌, ◌++◌, length, map, All, IfOk, OnOk, SomeIff, MatchOption, option_map};
ghost use Rattle.proof_kernel.specs.Linear.{Difference, row_polynomial, is_math_int_var, is_integer, row_of, row_back, row_of_goal, referred, AreRows, Certifies, PassesWidth, at_least, greater, IsNarrowDifference};
ghost use Rattle.proof_kernel.specs.LinearRows.{cited, difference, form_of, IsNarrowGap, is_one, is_in, with_monomial, with_monomials, with_all_monomials, parts_from, row_over, IsOutcomeOf};
ghost use Rattle.proof_kernel.specs.Rules.{sort_of};

use crate::polynomial::{
    Polynomial, Summand, coefficient, copy_monomial, polynomial, same_monomial, subtracted,
};
use crate::sequent::Sequent;
use crate::step::{Multiple, Reference};
use lin_arith::{CertAnswer, Part, Row, check_certificate};
use logic_term::{Term, TermBinary, TermForm, TermUnary, TyNode};
use std::alloc::Global;
use text_core::{Items, Name, NoMemory};

/// What a step of linear arithmetic comes to.
#[derive(Clone, Copy, PartialEq, Eq)]
pub enum LinAnswer {
    /// The multiples close the sequent.
    Closes,
    /// They give rows, and some number passes 128 bits signed.
    TooWide,
    /// A reference gives no row, or the rows do not refute each other with these multipliers.
    Fails,
}

/// The sides of a row: `upper - lower - gap` is at least 0.
#[derive(Clone, Copy)]
struct Sides<'a> {
    upper: &'a Term,
    lower: &'a Term,
    gap: i128,
}

fn at_least<'a>(upper: &'a Term, lower: &'a Term) -> Sides<'a>
    ensures { difference result ≡ at_least upper.now lower.now }
{
    Sides {
        upper,
        lower,
        gap: 0,
    }
}

fn greater<'a>(upper: &'a Term, lower: &'a Term) -> Sides<'a>
    ensures { difference result ≡ greater upper.now lower.now }
{
    Sides {
        upper,
        lower,
        gap: 1,
    }
}

// ---- the rows of formulas

/// Whether the variable has the sort `Int`.
fn is_integer_var(q: &Sequent, name: Name) -> bool
    ensures { result ≡ is_math_int_var (sort_of name q.now.vars) }
{
    match q.sort_of(name) {
        Some(sort) => matches!(sort.node, TyNode::MathInt),
        None => false,
    }
}

/// Whether the term has the sort `Int`.
pub(crate) fn is_integer(q: &Sequent, t: &Term) -> bool
    ensures { result ≡ is_integer q.now.vars t.now }
{
    match t.form() {
        TermForm::Var(name) => is_integer_var(q, name),
        TermForm::Lit(_, sort) => matches!(sort.node, TyNode::MathInt),
        TermForm::Unary(TermUnary::Model | TermUnary::Negative, _)
        | TermForm::Binary(TermBinary::Arith(_), _, _) => true,
        _ => false,
    }
}

/// The row of a hypothesis; an equality gives one of integers alone.
fn row_of<'a>(q: &Sequent, t: &'a Term) -> Option<Sides<'a>>
    ensures { option_map difference result ≡ row_of q.now.vars t.now }
{
    match t.form() {
        TermForm::Binary(TermBinary::AtMost, a, b) => Some(at_least(b, a)),
        TermForm::Binary(TermBinary::Less, a, b) => Some(greater(b, a)),
        TermForm::Binary(TermBinary::Equal, a, b) if is_integer(q, a) => Some(at_least(b, a)),
        TermForm::Unary(TermUnary::Not, denied) => row_of_goal(denied),
        _ => None,
    }
}

/// The row of an equality of integers the other way round.
fn row_back<'a>(q: &Sequent, t: &'a Term) -> Option<Sides<'a>>
    ensures { option_map difference result ≡ row_back q.now.vars t.now }
{
    match t.form() {
        TermForm::Binary(TermBinary::Equal, a, b) if is_integer(q, a) => Some(at_least(a, b)),
        _ => None,
    }
}

/// The row of what denies the formula.
fn row_of_goal(t: &Term) -> Option<Sides<'_>>
    ensures { option_map difference result ≡ row_of_goal t.now }
{
    match t.form() {
        TermForm::Binary(TermBinary::AtMost, a, b) => Some(greater(a, b)),
        TermForm::Binary(TermBinary::Less, a, b) => Some(at_least(a, b)),
        _ => None,
    }
}

/// The formula that is referred to; `None` where there is none.
fn cited(alloc: Global, q: &Sequent, of: Reference) -> Result<Option<Term>, NoMemory>
    ensures { IfOk result (λ o. o ≡ cited q.now of) }
{
    match of {
        Reference::Goal => Ok(Some(q.goal(alloc)?)),
        Reference::Hyp(label) | Reference::Back(label) => q.hypothesis(alloc, label),
    }
}

/// The formulas that are referred to.
fn all_cited(
    alloc: Global,
    q: &Sequent,
    multiples: &[Multiple],
) -> Result<Vec<Option<Term>>, NoMemory>
    ensures { IfOk result (λ v. v.items ≡ map (λ m. cited q.now m.of) multiples.now) }
{
    let mut all = Vec::new(alloc);
    for multiple in multiples {
        all.push(cited(alloc, q, multiple.of)?)?;
    }
    Ok(all)
}

/// The row of a reference, from the formula that it refers to.
fn referred<'a>(q: &Sequent, of: Reference, formula: &'a Option<Term>) -> Option<Sides<'a>>
    requires { formula.now ≡ cited q.now of }
    ensures { option_map difference result ≡ referred q.now of }
{
    match formula {
        None => None,
        Some(t) => match of {
            Reference::Goal => row_of_goal(t),
            Reference::Hyp(_) => row_of(q, t),
            Reference::Back(_) => row_back(q, t),
        },
    }
}

/// The rows' sides, from the formulas that the references refer to; `None` where a reference gives no row.
fn sides_of<'a>(
    alloc: Global,
    q: &Sequent,
    multiples: &[Multiple],
    formulas: &'a [Option<Term>],
) -> Result<Option<Vec<Sides<'a>>>, NoMemory>
    requires { formulas.now ≡ map (λ m. cited q.now m.of) multiples.now }
    ensures { IfOk result (λ found. MatchOption found ((ds : List Difference) → ¬ AreRows q.now multiples.now ds) (λ v. AreRows q.now multiples.now (map difference v.items))) }
{
    let mut all = Vec::new(alloc);
    for i in 0..multiples.len() {
        match referred(q, multiples[i].of, &formulas[i]) {
            Some(sides) => all.push(sides)?,
            None => return Ok(None),
        }
    }
    Ok(Some(all))
}

// ---- forms

/// What is at least 0 in a row: the sides' difference, and its constant less the gap.
#[derive(Drop)]
struct Form {
    polynomial: Polynomial,
    constant: i128,
}

/// The difference of the sides; `None` where a number passes 128 bits.
fn side_difference(alloc: Global, sides: Sides) -> Result<Option<Polynomial>, NoMemory>
    ensures { IfOk result (λ found. SomeIff found (IsNarrowGap (difference sides.entry)) (row_polynomial (difference sides.entry))) }
{
    let Some(upper) = polynomial(alloc, sides.upper)? else {
        return Ok(None);
    };
    match polynomial(alloc, sides.lower)? {
        Some(lower) => subtracted(alloc, upper, lower.as_slice()),
        None => Ok(None),
    }
}

/// The form of a row; `None` where a number passes 128 bits.
fn form_of(alloc: Global, sides: Sides) -> Result<Option<Form>, NoMemory>
    ensures { IfOk result (λ found. SomeIff found (IsNarrowDifference (difference sides.entry)) (form_of (difference sides.entry))) }
{
    let Some(polynomial) = side_difference(alloc, sides)? else {
        return Ok(None);
    };
    let number = coefficient(alloc, &[], polynomial.as_slice())?;
    match number.checked_sub(sides.gap) {
        Some(constant) => Ok(Some(Form {
            polynomial,
            constant,
        })),
        None => Ok(None),
    }
}

/// The rows' forms; `None` where a number of one passes 128 bits.
fn forms(alloc: Global, all: &[Sides]) -> Result<Option<Items<Form>>, NoMemory>
    ensures { IfOk result (λ found. SomeIff found (All IsNarrowDifference (map difference all.now)) (map form_of (map difference all.now))) }
{
    let mut forms = Items::new(alloc);
    for sides in all {
        match form_of(alloc, *sides)? {
            Some(form) => forms.push(form)?,
            None => return Ok(None),
        }
    }
    Ok(Some(forms))
}

// ---- the table of monomials

fn is_in(alloc: Global, table: &[Items<Term>], monomial: &[Term]) -> Result<bool, NoMemory>
    ensures { IfOk result (λ b. b ≡ is_in table.now monomial.now) }
{
    for known in table {
        if same_monomial(alloc, known.as_slice(), monomial)? {
            return Ok(true);
        }
    }
    Ok(false)
}

fn is_one(monomial: &[Term]) -> bool
    ensures { result ≡ is_one monomial.now }
{
    monomial.is_empty()
}

fn add_monomial(
    alloc: Global,
    table: &mut Items<Items<Term>>,
    monomial: &[Term],
) -> Result<(), NoMemory>
    ensures { OnOk result (table.new ≡ with_monomial table.old monomial.now) }
{
    if !is_one(monomial) && !is_in(alloc, table.as_slice(), monomial)? {
        table.push(copy_monomial(alloc, monomial)?)?;
    }
    Ok(())
}

fn add_monomials(
    alloc: Global,
    table: &mut Items<Items<Term>>,
    polynomial: &[Summand],
) -> Result<(), NoMemory>
    ensures { OnOk result (table.new ≡ with_monomials table.old polynomial.now) }
{
    for summand in polynomial {
        add_monomial(alloc, table, summand.monomial.as_slice())?;
    }
    Ok(())
}

/// The monomials of all forms but 1, each once, by first occurrence.
fn monomials_of(alloc: Global, forms: &[Form]) -> Result<Items<Items<Term>>, NoMemory>
    ensures { IfOk result (λ table. table ≡ with_all_monomials [] forms.now) }
{
    let mut table = Items::new(alloc);
    for form in forms {
        add_monomials(alloc, &mut table, form.polynomial.as_slice())?;
    }
    Ok(table)
}

// ---- rows

/// A part for each monomial of the table, by its number.
fn parts(alloc: Global, table: &[Items<Term>], form: &Form) -> Result<Items<Part>, NoMemory>
    ensures { IfOk result (λ parts. parts ≡ parts_from 0 table.now form.now) }
{
    let mut all = Items::new(alloc);
    for (at, monomial) in table.iter().enumerate() {
        let atom = u32::try_from(at).ok().ok_or(NoMemory)?;
        let factor = coefficient(alloc, monomial.as_slice(), form.polynomial.as_slice())?;
        all.push(Part { atom, factor })?;
    }
    Ok(all)
}

/// The forms' rows over the table.
fn rows(alloc: Global, table: &[Items<Term>], forms: &[Form]) -> Result<Items<Row>, NoMemory>
    ensures { IfOk result (λ rows. rows ≡ map (row_over table.now) forms.now) }
{
    let mut rows = Items::new(alloc);
    for form in forms {
        let parts = parts(alloc, table, form)?;
        let constant = form.constant;
        rows.push(Row { parts, constant })?;
    }
    Ok(rows)
}

// ---- the step

fn multipliers(alloc: Global, multiples: &[Multiple]) -> Result<Vec<i128>, NoMemory>
    ensures { IfOk result (λ v. v.items ≡ map (λ m. m.by) multiples.now) }
{
    Ok(multiples.iter().map(|multiple| multiple.by).collect(alloc)?)
}

/// What the multiples make of the rows with these sides.
fn outcome(alloc: Global, all: &[Sides], multiples: &[Multiple]) -> Result<LinAnswer, NoMemory>
    requires same_length { length all.now ≡ length multiples.now }
    requires few { length multiples.now < 2 ^ 32 }
    ensures { IfOk result (λ answer. IsOutcomeOf answer (map difference all.now) multiples.now) }
{
    let Some(forms) = forms(alloc, all)? else {
        return Ok(LinAnswer::TooWide);
    };
    let table = monomials_of(alloc, forms.as_slice())?;
    let rows = rows(alloc, table.as_slice(), forms.as_slice())?;
    let by = multipliers(alloc, multiples)?;
    match check_certificate(rows.as_slice(), by.as_slice()) {
        CertAnswer::Good => Ok(LinAnswer::Closes),
        CertAnswer::TooWide(_) => Ok(LinAnswer::TooWide),
        CertAnswer::Fails(_) => Ok(LinAnswer::Fails),
    }
}

/// Whether the multiples close the sequent. A reference without a row is looked for first, then numbers past 128 bits.
///
/// # Errors
///
/// `NoMemory` where memory is refused, and where the rows have more than 2^32 monomials.
pub fn certifies(alloc: Global, q: &Sequent, multiples: &[Multiple]) -> Result<LinAnswer, NoMemory>
    requires { length multiples.now < 2 ^ 32 }
    ensures closes { IfOk result (λ answer. (answer ≡ LinAnswer.Closes) ↔ Certifies q.now multiples.now) }
    ensures wide { IfOk result (λ answer. (answer ≡ LinAnswer.TooWide) ↔ PassesWidth q.now multiples.now) }
    ensures fails { IfOk result (λ answer. (answer ≡ LinAnswer.Fails) ↔ (¬ Certifies q.now multiples.now × ¬ PassesWidth q.now multiples.now)) }
{
    let formulas = all_cited(alloc, q, multiples)?;
    match sides_of(alloc, q, multiples, formulas.as_slice())? {
        Some(all) => outcome(alloc, all.as_slice(), multiples),
        None => Ok(LinAnswer::Fails),
    }
}
