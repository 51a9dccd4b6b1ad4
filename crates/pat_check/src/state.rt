ghost use Rattle.std.specs.Prelude.{◌≡◌, ◌++◌, IfOk};
ghost use Rattle.pat_check.specs.States.{states_of};

use crate::known::Known;
use text_core::NoMemory;

/// What is left to look into: the values of which this is known. The arms before `from` match none of them.
#[derive(Drop)]
pub struct State {
    pub from: usize,
    pub known: Known,
}

/// Puts a state for each of these on top.
pub fn push_states(states: &mut Vec<State>, from: usize, branches: &[Known]) -> Result<(), NoMemory>
    ensures { IfOk result (λ done. states.new.items ≡ states.old.items ++ states_of from branches.now) }
{
    for i in 0..branches.len() {
        let known = branches[i].share()?;
        states.push(State { from, known })?;
    }
    Ok(())
}
