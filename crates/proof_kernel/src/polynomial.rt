//! Integer terms as polynomials, multiplied out.

ghost use Rattle.std.specs.Prelude.{◌≡◌, ◌++◌, [], ◌∷◌, None, pos, reverse, IfOk, OnOk, SomeIff};
ghost use Rattle.std.specs.Option.{option_copied};
ghost use Rattle.logic_term.specs.Canonical.{canonical};
ghost use Rattle.logic_term.specs.Same.{same_term};
ghost use Rattle.proof_kernel.specs.Polynomial.{times, stands_in, same_monomial, summand, coefficient, with_summand, next_coefficient, plus, added, opposite_of, opposite, times_of, multiplied, products, polynomial, IsNarrowNumber, AddsNarrowly, AreNarrowSummands, IsNarrowTerm};
ghost use Rattle.proof_kernel.specs.PolynomialCode.{place, IsNarrowProduct, left_operand, IsWithin, joined_in, JoinsNarrowly};

use logic_term::{Term, TermBinary, TermForm, TermUnary};
use source_kinds::ArithOp;
use std::alloc::Global;
use text_core::{Items, NoMemory};

/// A monomial with its coefficient.
#[derive(Drop)]
pub struct Summand {
    pub coefficient: i128,
    /// The atoms that are multiplied, in any order; none: 1.
    pub monomial: Items<Term>,
}

/// Different monomials, each with its coefficient.
pub type Polynomial = Items<Summand>;

fn make_summand(coefficient: i128, monomial: Items<Term>) -> Summand
    ensures { result ≡ summand coefficient monomial }
{
    Summand {
        coefficient,
        monomial,
    }
}

// ---- monomials

/// Whether both are the same term, as a truth value.
fn is_same(alloc: Global, t: &Term, other: &Term) -> Result<bool, NoMemory>
    ensures { IfOk result (λ b. b ≡ same_term t.now other.now) }
{
    t.same(alloc, other)
}

/// How often the atom stands in the monomial.
fn times(alloc: Global, atom: &Term, monomial: &[Term]) -> Result<usize, NoMemory>
    ensures { IfOk result (λ n. n ≡ times atom.now monomial.now) }
{
    let mut count = 0usize;
    for factor in monomial {
        if is_same(alloc, factor, atom)? {
            count += 1;
        }
    }
    Ok(count)
}

/// Whether each atom of the first stands as often in the second.
fn stands_in(alloc: Global, monomial: &[Term], other: &[Term]) -> Result<bool, NoMemory>
    ensures { IfOk result (λ b. b ≡ stands_in monomial.now other.now) }
{
    for atom in monomial {
        if times(alloc, atom, monomial)? != times(alloc, atom, other)? {
            return Ok(false);
        }
    }
    Ok(true)
}

/// Whether the monomials have the same atoms, each as often.
pub(crate) fn same_monomial(
    alloc: Global,
    monomial: &[Term],
    other: &[Term],
) -> Result<bool, NoMemory>
    ensures { IfOk result (λ b. b ≡ same_monomial monomial.now other.now) }
{
    if !stands_in(alloc, monomial, other)? {
        return Ok(false);
    }
    stands_in(alloc, other, monomial)
}

pub(crate) fn copy_monomial(alloc: Global, monomial: &[Term]) -> Result<Items<Term>, NoMemory>
    ensures { IfOk result (λ m. m ≡ monomial.now) }
{
    let mut copies = Vec::with_capacity(alloc, monomial.len())?;
    for atom in monomial {
        copies.push(atom.share()?)?;
    }
    Ok(Items::from_vec(copies))
}

/// The product of two monomials.
fn joined(alloc: Global, left: &[Term], right: &[Term]) -> Result<Items<Term>, NoMemory>
    ensures { IfOk result (λ m. m ≡ left.now ++ right.now) }
{
    let mut monomial = copy_monomial(alloc, left)?;
    for atom in right {
        monomial.push(atom.share()?)?;
    }
    Ok(monomial)
}

// ---- sums

/// Where the monomial stands in the polynomial; its length where it does not.
fn place(alloc: Global, monomial: &[Term], polynomial: &[Summand]) -> Result<usize, NoMemory>
    ensures { IfOk result (λ n. n ≡ place monomial.now polynomial.now) }
{
    for (at, known) in polynomial.iter().enumerate() {
        if same_monomial(alloc, known.monomial.as_slice(), monomial)? {
            return Ok(at);
        }
    }
    Ok(polynomial.len())
}

/// The coefficient of the monomial.
pub(crate) fn coefficient(
    alloc: Global,
    monomial: &[Term],
    polynomial: &[Summand],
) -> Result<i128, NoMemory>
    ensures { IfOk result (λ n. n ≡ coefficient monomial.now polynomial.now) }
{
    for known in polynomial {
        if same_monomial(alloc, known.monomial.as_slice(), monomial)? {
            return Ok(known.coefficient);
        }
    }
    Ok(0)
}

/// Puts the summand in the place of that with the same monomial, or at the end.
fn put_summand(alloc: Global, polynomial: &mut Polynomial, summand: Summand) -> Result<(), NoMemory>
    ensures { OnOk result (polynomial.new ≡ with_summand summand polynomial.old) }
{
    let at = place(alloc, summand.monomial.as_slice(), polynomial.as_slice())?;
    if at < polynomial.len() {
        polynomial.set(at, summand);
        return Ok(());
    }
    polynomial.push(summand)
}

/// The polynomial with this coefficient of the monomial.
fn with_coefficient(
    alloc: Global,
    mut polynomial: Polynomial,
    coefficient: i128,
    monomial: &[Term],
) -> Result<Polynomial, NoMemory>
    ensures { IfOk result (λ p. p ≡ with_summand (summand coefficient monomial.now) polynomial) }
{
    let monomial = copy_monomial(alloc, monomial)?;
    put_summand(alloc, &mut polynomial, make_summand(coefficient, monomial))?;
    Ok(polynomial)
}

/// The polynomial and the summand; `None` where the coefficient passes 128 bits.
fn plus(
    alloc: Global,
    polynomial: Polynomial,
    summand: &Summand,
) -> Result<Option<Polynomial>, NoMemory>
    ensures { IfOk result (λ found. SomeIff found (IsNarrowNumber (next_coefficient polynomial summand.now)) (plus polynomial summand.now)) }
{
    let monomial = summand.monomial.as_slice();
    let known = coefficient(alloc, monomial, polynomial.as_slice())?;
    match known.checked_add(summand.coefficient) {
        Some(next) => Ok(Some(with_coefficient(alloc, polynomial, next, monomial)?)),
        None => Ok(None),
    }
}

/// The polynomial less the summand; `None` where the coefficient passes 128 bits.
fn minus(
    alloc: Global,
    polynomial: Polynomial,
    summand: &Summand,
) -> Result<Option<Polynomial>, NoMemory>
    ensures { IfOk result (λ found. SomeIff found (IsNarrowNumber (next_coefficient polynomial (opposite_of summand.now))) (plus polynomial (opposite_of summand.now))) }
{
    let monomial = summand.monomial.as_slice();
    let known = coefficient(alloc, monomial, polynomial.as_slice())?;
    match known.checked_sub(summand.coefficient) {
        Some(next) => Ok(Some(with_coefficient(alloc, polynomial, next, monomial)?)),
        None => Ok(None),
    }
}

/// The polynomial and the summands; `None` where a coefficient passes 128 bits on the way.
fn added(
    alloc: Global,
    polynomial: Polynomial,
    summands: &[Summand],
) -> Result<Option<Polynomial>, NoMemory>
    ensures { IfOk result (λ found. SomeIff found (AddsNarrowly polynomial summands.now) (added polynomial summands.now)) }
{
    let mut sum = polynomial;
    for summand in summands {
        match plus(alloc, sum, summand)? {
            Some(more) => sum = more,
            None => return Ok(None),
        }
    }
    Ok(Some(sum))
}

/// The polynomial less the summands; `None` where a coefficient passes 128 bits on the way.
pub(crate) fn subtracted(
    alloc: Global,
    polynomial: Polynomial,
    summands: &[Summand],
) -> Result<Option<Polynomial>, NoMemory>
    ensures { IfOk result (λ found. SomeIff found (AddsNarrowly polynomial (opposite summands.now)) (added polynomial (opposite summands.now))) }
{
    let mut rest = polynomial;
    for summand in summands {
        match minus(alloc, rest, summand)? {
            Some(less) => rest = less,
            None => return Ok(None),
        }
    }
    Ok(Some(rest))
}

// ---- products

/// The product of two summands; `None` where its coefficient passes 128 bits.
fn product(alloc: Global, left: &Summand, right: &Summand) -> Result<Option<Summand>, NoMemory>
    ensures { IfOk result (λ found. SomeIff found (IsNarrowNumber (times_of left.now right.now).coefficient) (times_of left.now right.now)) }
{
    match left.coefficient.checked_mul(right.coefficient) {
        None => Ok(None),
        Some(coefficient) => {
            let monomial = joined(alloc, left.monomial.as_slice(), right.monomial.as_slice())?;
            Ok(Some(make_summand(coefficient, monomial)))
        }
    }
}

/// The first ones, and the summand times each of the others; `None` where a coefficient of these passes 128 bits.
fn multiplied(
    alloc: Global,
    first: Items<Summand>,
    summand: &Summand,
    others: &[Summand],
) -> Result<Option<Items<Summand>>, NoMemory>
    ensures { IfOk result (λ found. SomeIff found (AreNarrowSummands (multiplied summand.now others.now)) (first ++ multiplied summand.now others.now)) }
{
    let mut all = first;
    for other in others {
        match product(alloc, summand, other)? {
            Some(next) => all.push(next)?,
            None => return Ok(None),
        }
    }
    Ok(Some(all))
}

/// Each of the first times each of the second; `None` where a coefficient passes 128 bits.
fn products(
    alloc: Global,
    left: &[Summand],
    right: &[Summand],
) -> Result<Option<Items<Summand>>, NoMemory>
    ensures { IfOk result (λ found. SomeIff found (AreNarrowSummands (products left.now right.now)) (products left.now right.now)) }
{
    let mut all = Items::new(alloc);
    for summand in left {
        match multiplied(alloc, all, summand, right)? {
            Some(more) => all = more,
            None => return Ok(None),
        }
    }
    Ok(Some(all))
}

/// The polynomials multiplied; `None` where a number passes 128 bits.
fn multiplied_out(
    alloc: Global,
    left: &[Summand],
    right: &[Summand],
) -> Result<Option<Polynomial>, NoMemory>
    ensures { IfOk result (λ found. SomeIff found (IsNarrowProduct left.now right.now) (added [] (products left.now right.now))) }
{
    match products(alloc, left, right)? {
        Some(all) => added(alloc, Items::new(alloc), all.as_slice()),
        None => Ok(None),
    }
}

// ---- terms

/// A polynomial of one summand.
fn single(alloc: Global, coefficient: i128, monomial: Items<Term>) -> Result<Polynomial, NoMemory>
    ensures { IfOk result (λ p. p ≡ summand coefficient monomial ∷ []) }
{
    let mut polynomial = Items::new(alloc);
    polynomial.push(make_summand(coefficient, monomial))?;
    Ok(polynomial)
}

/// The term as an atom, in its canonical form.
fn atom(alloc: Global, t: &Term) -> Result<Polynomial, NoMemory>
    ensures { IfOk result (λ p. p ≡ summand (pos 1) (canonical t.now ∷ []) ∷ []) }
{
    let mut monomial = Items::new(alloc);
    monomial.push(t.canonical(alloc)?)?;
    single(alloc, 1, monomial)
}

/// A term that is no sum, difference, product or negative.
fn single_of(alloc: Global, t: &Term) -> Result<Polynomial, NoMemory>
    ensures narrow { IfOk result (λ p. left_operand t.now ≡ None → IsNarrowTerm t.now) }
    ensures polynomial { IfOk result (λ p. left_operand t.now ≡ None → p ≡ polynomial t.now) }
{
    match t.form() {
        TermForm::Lit(number, _) => single(alloc, number, Items::new(alloc)),
        _ => atom(alloc, t),
    }
}

/// The first operand of a sum, a difference, a product or a negative.
fn left_operand(t: &Term) -> Option<&Term>
    ensures { option_copied result ≡ left_operand t.now }
{
    match t.form() {
        TermForm::Binary(TermBinary::Arith(ArithOp::Add), a, _) => Some(a),
        TermForm::Binary(TermBinary::Arith(ArithOp::Sub), a, _) => Some(a),
        TermForm::Binary(TermBinary::Arith(ArithOp::Mul), a, _) => Some(a),
        TermForm::Unary(TermUnary::Negative, a) => Some(a),
        _ => None,
    }
}

/// Goes down the first operands to the last one, since they may be in one another by the thousand; pushes the terms that they are in.
fn innermost<'a>(t: &'a Term, around: &mut Vec<&'a Term>) -> Result<&'a Term, NoMemory>
    requires { around.now.items ≡ [] }
    ensures last { IfOk result (λ last. left_operand last.now ≡ None) }
    ensures around { IfOk result (λ last. IsWithin (reverse around.new.items) last.now t.entry.now) }
{
    let mut last = t;
    while let Some(operand) = left_operand(last) {
        around.push(last)?;
        last = operand;
    }
    Ok(last)
}

/// The term multiplied out; `None` where a number passes 128 bits.
#[cycle(polynomial)]
pub(crate) fn polynomial(alloc: Global, t: &Term) -> Result<Option<Polynomial>, NoMemory>
    ensures { IfOk result (λ found. SomeIff found (IsNarrowTerm t.now) (polynomial t.now)) }
{
    let mut around = Vec::new(alloc);
    let last = innermost(t, &mut around)?;
    let mut so_far = single_of(alloc, last)?;
    while let Some(outer) = around.pop() {
        match joined_in(alloc, so_far, outer)? {
            Some(more) => so_far = more,
            None => return Ok(None),
        }
    }
    Ok(Some(so_far))
}

/// The term multiplied out, whose first operand is; `None` where a number of the rest passes 128 bits.
#[cycle(polynomial)]
fn joined_in(alloc: Global, first: Polynomial, t: &Term) -> Result<Option<Polynomial>, NoMemory>
    ensures { IfOk result (λ found. SomeIff found (JoinsNarrowly t.now first) (joined_in t.now first)) }
{
    match t.form() {
        TermForm::Binary(TermBinary::Arith(ArithOp::Add), _, b) => sum(alloc, first, b),
        TermForm::Binary(TermBinary::Arith(ArithOp::Sub), _, b) => difference(alloc, first, b),
        TermForm::Binary(TermBinary::Arith(ArithOp::Mul), _, b) => product_with(alloc, first, b),
        TermForm::Unary(TermUnary::Negative, _) => {
            subtracted(alloc, Items::new(alloc), first.as_slice())
        }
        _ => Ok(Some(first)),
    }
}

#[cycle(polynomial)]
fn sum(alloc: Global, first: Polynomial, b: &Term) -> Result<Option<Polynomial>, NoMemory>
    ensures { IfOk result (λ found. SomeIff found (IsNarrowTerm b.now × AddsNarrowly first (polynomial b.now)) (added first (polynomial b.now))) }
{
    match polynomial(alloc, b)? {
        Some(second) => added(alloc, first, second.as_slice()),
        None => Ok(None),
    }
}

#[cycle(polynomial)]
fn difference(alloc: Global, first: Polynomial, b: &Term) -> Result<Option<Polynomial>, NoMemory>
    ensures { IfOk result (λ found. SomeIff found (IsNarrowTerm b.now × AddsNarrowly first (opposite (polynomial b.now))) (added first (opposite (polynomial b.now)))) }
{
    match polynomial(alloc, b)? {
        Some(second) => subtracted(alloc, first, second.as_slice()),
        None => Ok(None),
    }
}

#[cycle(polynomial)]
fn product_with(alloc: Global, first: Polynomial, b: &Term) -> Result<Option<Polynomial>, NoMemory>
    ensures { IfOk result (λ found. SomeIff found (IsNarrowTerm b.now × IsNarrowProduct first (polynomial b.now)) (added [] (products first (polynomial b.now)))) }
{
    match polynomial(alloc, b)? {
        Some(second) => multiplied_out(alloc, first.as_slice(), second.as_slice()),
        None => Ok(None),
    }
}
