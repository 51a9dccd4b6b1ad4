ghost use Rattle.std.specs.Prelude.{◌≡◌, ◌++◌, IfOk};
ghost use Rattle.pat_check.specs.Tasks.{decides};

use crate::known::Known;
use crate::state::State;
use crate::test::Test;
use logic_term::PatPath;
use text_core::NoMemory;

/// What is left to do for a tree of tests.
#[derive(Drop)]
pub enum Task {
    /// To decide which arm is taken.
    Decide(State),
    /// To make the tree of the test at that place of the trees of its branches, of which there are so many.
    Join(PatPath, Test, usize),
}

/// Puts on top that it is to be decided by each of these.
pub fn push_decides(tasks: &mut Vec<Task>, from: usize, branches: &[Known]) -> Result<(), NoMemory>
    ensures { IfOk result (λ done. tasks.new.items ≡ tasks.old.items ++ decides from branches.now) }
{
    for i in 0..branches.len() {
        let known = branches[i].share()?;
        tasks.push(Task::Decide(State { from, known }))?;
    }
    Ok(())
}
