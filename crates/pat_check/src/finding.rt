ghost use Rattle.std.specs.Prelude.{◌≡◌, ◌∷◌, [], IfOk, cond};
ghost use Rattle.logic_term.specs.Matches.{same_ctor, variant_number};
ghost use Rattle.logic_term.specs.PatternView.{pats_of};
ghost use Rattle.pat_check.specs.Findings.{finding_of, at_part};
ghost use Rattle.pat_check.specs.Known.{among};
ghost use Rattle.pat_check.specs.KnownView.{knowns_of};
ghost use Rattle.pat_check.specs.Status.{literal_status, truth_status, status, statuses, also, asks, sure, fails};

use crate::finding_kind::Finding;
use crate::known::{Known, KnownNode};
use crate::test::Test;
use logic_term::{Ctor, PatNode, PatPath, PatStep, TypedPat};
use source_kinds::IntKind;
use std::alloc::Global;
use text_core::{Items, NoMemory};

pub fn among(z: i128, others: &[i128]) -> bool
    ensures { result ≡ among z others.now }
{
    for i in 0..others.len() {
        if z == others[i] {
            return true;
        }
    }
    false
}

fn same_ctor(a: Ctor, b: Ctor) -> bool
    ensures { result ≡ same_ctor a b }
{
    match (a, b) {
        (Ctor::Tuple, Ctor::Tuple) => true,
        (Ctor::Variant(d, k), Ctor::Variant(e, j)) => d.0 == e.0 && k == j,
        (Ctor::Closure(n), Ctor::Closure(m)) => n == m,
        _ => false,
    }
}

/// The variant that a constructor is of, from 0.
pub fn variant_number(ctor: Ctor) -> u32
    ensures { result ≡ variant_number ctor }
{
    match ctor {
        Ctor::Tuple => 0,
        Ctor::Variant(_, k) => k,
        Ctor::Closure(_) => 0,
    }
}

/// The path with one more step before it.
pub fn prefixed(alloc: Global, first: PatStep, rest: &[PatStep]) -> Result<PatPath, NoMemory>
    ensures { IfOk result (λ p. p ≡ first ∷ rest.now) }
{
    let mut all = Vec::with_capacity(alloc, 1)?;
    all.push(first)?;
    all.extend_from_slice(rest)?;
    Ok(Items::from_vec(all))
}

/// A failing part decides, then the first that asks.
fn combined(found: Finding, next: Finding) -> Finding
    ensures { finding_of result ≡ also (finding_of found) (finding_of next) }
{
    match found {
        Finding::Fails => Finding::Fails,
        Finding::Sure => next,
        Finding::Asks(path, test) => match next {
            Finding::Fails => Finding::Fails,
            Finding::Sure => Finding::Asks(path, test),
            Finding::Asks(_, _) => Finding::Asks(path, test),
        },
    }
}

/// What is said of the part of that number.
fn placed(alloc: Global, variant: u32, part: usize, found: Finding) -> Result<Finding, NoMemory>
    ensures { IfOk result (λ f. finding_of f ≡ at_part variant part (finding_of found)) }
{
    match found {
        Finding::Fails => Ok(Finding::Fails),
        Finding::Sure => Ok(Finding::Sure),
        Finding::Asks(path, test) => {
            let field = counted(part)?;
            let step = PatStep { variant, field };
            let path = prefixed(alloc, step, path.as_slice())?;
            Ok(Finding::Asks(path, test))
        }
    }
}

/// The number in 32 bits; what has more parts or arms than that has no room.
pub fn counted(n: usize) -> Result<u32, NoMemory>
    ensures { IfOk result (λ m. m ≡ n) }
{
    u32::try_from(n).map_err(|_| NoMemory)
}

/// A test right here.
fn asked(alloc: Global, test: Test) -> Finding
    ensures { finding_of result ≡ asks [] test }
{
    Finding::Asks(Items::new(alloc), test)
}

fn decided(holds: bool) -> Finding
    ensures { finding_of result ≡ cond holds sure fails }
{
    if holds { Finding::Sure } else { Finding::Fails }
}

fn literal_status(alloc: Global, kind: Option<IntKind>, z: i128, known: &Known) -> Finding
    ensures { finding_of result ≡ literal_status kind z known.now }
{
    match &*known.node {
        KnownNode::Anything => asked(alloc, Test::Number(kind, z)),
        KnownNode::Other(_, others) => {
            if among(z, others) {
                Finding::Fails
            } else {
                asked(alloc, Test::Number(kind, z))
            }
        }
        KnownNode::Number(y) => decided(z == *y),
        KnownNode::Flag(_) => Finding::Fails,
        KnownNode::Built(_, _) => Finding::Fails,
    }
}

fn truth_status(alloc: Global, b: bool, known: &Known) -> Finding
    ensures { finding_of result ≡ truth_status b known.now }
{
    match &*known.node {
        KnownNode::Anything => asked(alloc, Test::Truth),
        KnownNode::Other(_, _) => Finding::Fails,
        KnownNode::Number(_) => Finding::Fails,
        KnownNode::Flag(c) => decided(b == *c),
        KnownNode::Built(_, _) => Finding::Fails,
    }
}

/// What is known of the value says so of the pattern.
#[cycle(status)]
#[tactic(auto, using(crate::proofs::Counts::count_listed))]
pub fn status(alloc: Global, pat: &TypedPat, known: &Known) -> Result<Finding, NoMemory>
    ensures { IfOk result (λ f. finding_of f ≡ status pat.now known.now) }
{
    match &*pat.node {
        PatNode::Wild => Ok(Finding::Sure),
        PatNode::Bound(_, _) => Ok(Finding::Sure),
        PatNode::Literal(kind, z) => Ok(literal_status(alloc, *kind, *z, known)),
        PatNode::Truth(b) => Ok(truth_status(alloc, *b, known)),
        PatNode::Made(ctor, parts) => match &*known.node {
            KnownNode::Anything => {
                let count = counted(parts.len())?;
                Ok(asked(alloc, Test::Made(*ctor, count)))
            }
            KnownNode::Other(_, _) => Ok(Finding::Fails),
            KnownNode::Number(_) => Ok(Finding::Fails),
            KnownNode::Flag(_) => Ok(Finding::Fails),
            KnownNode::Built(other, knowns) => {
                if same_ctor(*ctor, *other) {
                    statuses(alloc, variant_number(*ctor), parts, knowns)
                } else {
                    Ok(Finding::Fails)
                }
            }
        },
    }
}

/// The same of the parts of a value of that variant.
#[cycle(status)]
#[tactic(auto, using(logic_term::specs::PatternFalls::each_smaller))]
fn statuses(
    alloc: Global,
    variant: u32,
    pats: &[TypedPat],
    knowns: &[Known],
) -> Result<Finding, NoMemory>
    ensures { IfOk result (λ f. finding_of f ≡ statuses variant (pats_of pats.now) (knowns_of knowns.now)) }
{
    if pats.len() != knowns.len() {
        return Ok(Finding::Fails);
    }
    let mut found = Finding::Sure;
    for i in 0..pats.len() {
        let next = status(alloc, &pats[i], &knowns[i])?;
        let next = placed(alloc, variant, i, next)?;
        found = combined(found, next);
    }
    Ok(found)
}
