ghost use Rattle.std.specs.Prelude.{IfOk, take};
ghost use Rattle.pat_check.specs.Rows.{next, AllFail};
ghost use Rattle.pat_check.specs.Tasks.{DecidesBy, IsReady, IsDone};
ghost use Rattle.pat_check.specs.Tree.{IsTreeOf};
ghost use Rattle.pat_check.specs.Typed.{fields_in, AllPats, Covers};

use crate::bindings::bindings;
use crate::branches::branches;
use crate::decision::{Decision, DecisionNode};
use crate::finding_kind::NextTest;
use crate::joining::join;
use crate::known::Known;
use crate::next::next;
use crate::state::State;
use crate::task::{Task, push_decides};
use logic_term::{AdtDecl, Ty, TypedPat};
use std::alloc::Global;
use text_core::NoMemory;

/// Decides which arm is taken: makes the leaf, or leaves to decide by each answer of the next test, and to join their trees.
fn decide(
    alloc: Global,
    arms: &[TypedPat],
    decls: &[AdtDecl],
    state: &State,
    tasks: &mut Vec<Task>,
    made: &mut Vec<Decision>,
) -> Result<(), NoMemory>
    requires passed { AllFail (take state.now.from arms.now) state.now.known }
    ensures { IfOk result (λ done. DecidesBy decls.now arms.now state.now.known (next 0 arms.now state.now.known) tasks.old.items made.old.items tasks.new.items made.new.items) }
{
    match next(alloc, arms, state.from, &state.known)? {
        // A value of which this is known would match no arm.
        NextTest::NoRow => Err(NoMemory),
        NextTest::Row(number, arm) => {
            let names = bindings(alloc, arm)?;
            let leaf = Decision::of(alloc, DecisionNode::Leaf(number, names))?;
            made.push(leaf)?;
            Ok(())
        }
        NextTest::Test(at, path, test) => {
            let branches = branches(alloc, decls, &state.known, path.as_slice(), test)?;
            tasks.push(Task::Join(path, test, branches.len()))?;
            push_decides(tasks, at, branches.as_slice())
        }
    }
}

/// Does what is on top of what is to do.
fn perform(
    alloc: Global,
    arms: &[TypedPat],
    decls: &[AdtDecl],
    task: Task,
    tasks: &mut Vec<Task>,
    made: &mut Vec<Decision>,
) -> Result<(), NoMemory>
    requires ready { IsReady arms.now task }
    ensures { IfOk result (λ done. IsDone decls.now arms.now task tasks.old.items made.old.items tasks.new.items made.new.items) }
{
    match task {
        Task::Decide(state) => decide(alloc, arms, decls, &state, tasks, made),
        Task::Join(path, test, count) => join(alloc, decls, path, test, count, made),
    }
}

/// The tree of tests of the arms, which are patterns of the type and cover it, where these types are declared. Err only
/// for want of memory.
pub fn tree(
    alloc: Global,
    arms: &[TypedPat],
    t: &Ty,
    decls: &[AdtDecl],
) -> Result<Decision, NoMemory>
    requires typed { AllPats (fields_in decls.now) arms.now t.now }
    requires covered { Covers (fields_in decls.now) arms.now t.now }
    ensures { IfOk result (λ d. IsTreeOf decls.now arms.now d) }
{
    let mut tasks = Vec::new(alloc);
    let mut made = Vec::new(alloc);
    let known = Known::anything(alloc)?;
    tasks.push(Task::Decide(State { from: 0, known }))?;
    while let Some(task) = tasks.pop() {
        perform(alloc, arms, decls, task, &mut tasks, &mut made)?;
    }
    made.pop().ok_or(NoMemory)
}
