ghost use Rattle.std.specs.Prelude.{◌≡◌, ◌∷◌, [], IfOk};
ghost use Rattle.pat_check.specs.Known.{flag, number, other, built, all_anything, put, known_at, set_known, nth_known, excluded};
ghost use Rattle.pat_check.specs.KnownView.{knowns_of};

use crate::known::{Known, KnownNode, share_all};
use logic_term::{Ctor, PatStep};
use source_kinds::IntKind;
use std::alloc::Global;
use text_core::NoMemory;

/// This many parts of which nothing is known.
#[tactic(auto, using(crate::proofs::Counts::one_more_anything))]
fn all_anything(alloc: Global, n: usize) -> Result<Vec<Known>, NoMemory>
    ensures { IfOk result (λ v. knowns_of v.items ≡ all_anything n) }
{
    let mut all = Vec::with_capacity(alloc, n)?;
    for i in 0..n {
        let _ = i;
        all.push(Known::anything(alloc)?)?;
    }
    Ok(all)
}

/// What is known, with `what` at that place.
#[cycle(put)]
fn put(alloc: Global, known: &Known, path: &[PatStep], what: &Known) -> Result<Known, NoMemory>
    ensures { IfOk result (λ k. k ≡ put known.now path.now what.now) }
{
    match path {
        [] => what.share(),
        [step, rest @ ..] => match &*known.node {
            KnownNode::Built(ctor, parts) => {
                let parts = put_part(alloc, parts, step.field as usize, rest, what)?;
                Known::of(alloc, KnownNode::Built(*ctor, parts))
            }
            KnownNode::Anything => known.share(),
            KnownNode::Other(_, _) => known.share(),
            KnownNode::Number(_) => known.share(),
            KnownNode::Flag(_) => known.share(),
        },
    }
}

#[cycle(put)]
#[tactic(auto, using(crate::specs::KnownFalls::each_smaller, crate::proofs::Counts::set_listed, crate::proofs::Counts::nth_listed, crate::proofs::Counts::set_past))]
fn put_part(
    alloc: Global,
    parts: &[Known],
    n: usize,
    path: &[PatStep],
    what: &Known,
) -> Result<Vec<Known>, NoMemory>
    ensures { IfOk result (λ v. knowns_of v.items ≡ set_known (knowns_of parts.now) n (put (nth_known (knowns_of parts.now) n) path.now what.now)) }
{
    let mut copies = share_all(alloc, parts)?;
    if n < parts.len() {
        let part = put(alloc, &parts[n], path, what)?;
        copies[n] = part;
    }
    Ok(copies)
}

/// The integers that what stands at that place is known not to be.
#[cycle(excluded)]
#[tactic(auto, using(crate::specs::KnownFalls::each_smaller, crate::proofs::Counts::nth_listed, crate::proofs::Counts::nth_past, crate::proofs::Counts::anything_at))]
fn excluded_at(alloc: Global, known: &Known, path: &[PatStep]) -> Result<Vec<i128>, NoMemory>
    ensures { IfOk result (λ v. v.items ≡ excluded (known_at known.now path.now)) }
{
    match path {
        [] => match &*known.node {
            KnownNode::Other(_, others) => Ok(Vec::from_slice(alloc, others)?),
            KnownNode::Anything => Ok(Vec::new(alloc)),
            KnownNode::Number(_) => Ok(Vec::new(alloc)),
            KnownNode::Flag(_) => Ok(Vec::new(alloc)),
            KnownNode::Built(_, _) => Ok(Vec::new(alloc)),
        },
        [step, rest @ ..] => match &*known.node {
            KnownNode::Built(_, parts) => excluded_in(alloc, parts, step.field as usize, rest),
            KnownNode::Anything => Ok(Vec::new(alloc)),
            KnownNode::Other(_, _) => Ok(Vec::new(alloc)),
            KnownNode::Number(_) => Ok(Vec::new(alloc)),
            KnownNode::Flag(_) => Ok(Vec::new(alloc)),
        },
    }
}

#[cycle(excluded)]
#[tactic(auto, using(crate::specs::KnownFalls::each_smaller, crate::proofs::Counts::nth_listed, crate::proofs::Counts::nth_past, crate::proofs::Counts::anything_at))]
fn excluded_in(
    alloc: Global,
    parts: &[Known],
    n: usize,
    path: &[PatStep],
) -> Result<Vec<i128>, NoMemory>
    ensures { IfOk result (λ v. v.items ≡ excluded (known_at (nth_known (knowns_of parts.now) n) path.now)) }
{
    if n < parts.len() {
        excluded_at(alloc, &parts[n], path)
    } else {
        Ok(Vec::new(alloc))
    }
}

/// It is this truth value.
pub fn put_flag(alloc: Global, known: &Known, path: &[PatStep], b: bool) -> Result<Known, NoMemory>
    ensures { IfOk result (λ k. k ≡ put known.now path.now (flag b)) }
{
    let what = Known::of(alloc, KnownNode::Flag(b))?;
    put(alloc, known, path, &what)
}

/// It is this integer.
pub fn put_number(
    alloc: Global,
    known: &Known,
    path: &[PatStep],
    z: i128,
) -> Result<Known, NoMemory>
    ensures { IfOk result (λ k. k ≡ put known.now path.now (number z)) }
{
    let what = Known::of(alloc, KnownNode::Number(z))?;
    put(alloc, known, path, &what)
}

/// It is an integer of the kind other than these.
pub fn put_other(
    alloc: Global,
    known: &Known,
    path: &[PatStep],
    kind: Option<IntKind>,
    others: Vec<i128>,
) -> Result<Known, NoMemory>
    ensures { IfOk result (λ k. k ≡ put known.now path.now (other kind others.items)) }
{
    let what = Known::of(alloc, KnownNode::Other(kind, others))?;
    put(alloc, known, path, &what)
}

/// It is made so, of this many parts.
pub fn put_built(
    alloc: Global,
    known: &Known,
    path: &[PatStep],
    ctor: Ctor,
    parts: usize,
) -> Result<Known, NoMemory>
    ensures { IfOk result (λ k. k ≡ put known.now path.now (built ctor (all_anything parts))) }
{
    let parts = all_anything(alloc, parts)?;
    let what = Known::of(alloc, KnownNode::Built(ctor, parts))?;
    put(alloc, known, path, &what)
}

/// The integers that what stands at that place is not, after one more.
pub fn excluded_with(
    alloc: Global,
    known: &Known,
    path: &[PatStep],
    z: i128,
) -> Result<Vec<i128>, NoMemory>
    ensures { IfOk result (λ v. v.items ≡ z ∷ excluded (known_at known.now path.now)) }
{
    let excluded = excluded_at(alloc, known, path)?;
    let mut others = Vec::with_capacity(alloc, 1)?;
    others.push(z)?;
    others.extend_from_slice(excluded.as_slice())?;
    Ok(others)
}
