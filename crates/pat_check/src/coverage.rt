ghost use Rattle.std.specs.Prelude.{IfOk, take};
ghost use Rattle.pat_check.specs.KnownView.{knowns_of};
ghost use Rattle.pat_check.specs.PatValue.{Missing};
ghost use Rattle.pat_check.specs.PatValueView.{pat_values_of};
ghost use Rattle.pat_check.specs.Rows.{AllFail};
ghost use Rattle.pat_check.specs.Settled.{Settles, SettleAll};
ghost use Rattle.pat_check.specs.States.{IsLookedInto};
ghost use Rattle.pat_check.specs.Typed.{fields_in, AllPats};

use crate::branches::branches;
use crate::finding_kind::NextTest;
use crate::known::{Known, KnownNode};
use crate::next::next;
use crate::pat_value::{PatValue, PatValueNode};
use crate::state::{State, push_states};
use crate::unnamed::unnamed;
use logic_term::{AdtDecl, Ty, TypedPat};
use std::alloc::Global;
use text_core::NoMemory;

/// What is known, as a pattern value: with an integer chosen wherever one of several is left.
#[cycle(settled)]
fn settled(alloc: Global, known: &Known) -> Result<PatValue, NoMemory>
    ensures { IfOk result (λ w. Settles known.now w) }
{
    let node = match &*known.node {
        KnownNode::Anything => PatValueNode::Any,
        KnownNode::Other(kind, others) => {
            let left = unnamed(*kind, others)?;
            PatValueNode::Int(left.ok_or(NoMemory)?)
        }
        KnownNode::Number(z) => PatValueNode::Int(*z),
        KnownNode::Flag(b) => PatValueNode::Bool(*b),
        KnownNode::Built(ctor, parts) => PatValueNode::Made(*ctor, settled_all(alloc, parts)?),
    };
    PatValue::of(alloc, node)
}

#[cycle(settled)]
#[tactic(auto, using(crate::specs::KnownFalls::each_smaller))]
fn settled_all(alloc: Global, parts: &[Known]) -> Result<Vec<PatValue>, NoMemory>
    ensures { IfOk result (λ v. SettleAll (knowns_of parts.now) (pat_values_of v.items)) }
{
    let mut all = Vec::with_capacity(alloc, parts.len())?;
    for i in 0..parts.len() {
        all.push(settled(alloc, &parts[i])?)?;
    }
    Ok(all)
}

/// Looks into a state: whether no arm is left for it. Else what it still leaves to look into, if anything, is put on top.
fn look_into(
    alloc: Global,
    arms: &[TypedPat],
    decls: &[AdtDecl],
    state: &State,
    states: &mut Vec<State>,
) -> Result<bool, NoMemory>
    requires passed { AllFail (take state.now.from arms.now) state.now.known }
    ensures { IfOk result (λ free. IsLookedInto decls.now arms.now state.now.known states.old.items states.new.items free) }
{
    match next(alloc, arms, state.from, &state.known)? {
        NextTest::NoRow => Ok(true),
        NextTest::Row(_, _) => Ok(false),
        NextTest::Test(at, path, test) => {
            let branches = branches(alloc, decls, &state.known, path.as_slice(), test)?;
            push_states(states, at, branches.as_slice())?;
            Ok(false)
        }
    }
}

/// Whether the arms cover the type, of which they are patterns, where these types are declared. With `None` each value of
/// the type is matched; else no arm matches a value that the answer stands for, and it is a pattern value of the type. Err
/// only for want of memory.
pub fn missing(
    alloc: Global,
    arms: &[TypedPat],
    t: &Ty,
    decls: &[AdtDecl],
) -> Result<Option<PatValue>, NoMemory>
    requires typed { AllPats (fields_in decls.now) arms.now t.now }
    ensures { IfOk result (λ o. Missing (fields_in decls.now) arms.now t.now o) }
{
    let mut states = Vec::new(alloc);
    let known = Known::anything(alloc)?;
    states.push(State { from: 0, known })?;
    while let Some(state) = states.pop() {
        if look_into(alloc, arms, decls, &state, &mut states)? {
            let value = settled(alloc, &state.known)?;
            return Ok(Some(value));
        }
    }
    Ok(None)
}
