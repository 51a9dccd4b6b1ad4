ghost use Rattle.std.specs.Prelude.{◌≡◌, [], Err};
ghost use Rattle.mir_machine.specs.Code.{code_of};
ghost use Rattle.mir_machine.specs.Halt.{Comes};
ghost use Rattle.mir_machine.specs.Run.{outcome_of_step};
ghost use Rattle.mir_machine.specs.Step.{try_step};
ghost use Rattle.mir_machine.specs.Taken.{IsEven, GoesBack};

use crate::ends::end_block;
use crate::frame::State;
use crate::halt::Halt;
use crate::statements::run_statement;
use crate::taken::{Taken, put_back};
use crate::tree::Tree;
use mir_ir::Bodies;
use std::alloc::Global;

/// One step, from which the operands that it has taken can be put back.
#[tactic(auto, using(crate::proofs::Undoing::none_taken))]
fn try_step(
    alloc: Global,
    bodies: &Bodies,
    state: &mut State,
    taken: &mut Taken,
) -> Result<Option<Tree>, Halt>
    requires even { IsEven taken.old }
    requires empty { taken.old.trees.items ≡ [] }
    ensures steps { Comes result (try_step (code_of bodies.now) state.old) (outcome_of_step state.new) }
    ensures err { result ≡ Err Halt.NoMemory → GoesBack taken.old state.old taken.new state.new }
{
    let body = bodies
        .bodies
        .get(state.running.function as usize)
        .ok_or(Halt::Stuck)?;
    let block = body.block(state.running.label).ok_or(Halt::Stuck)?;
    let statements = block.statements.as_slice();
    let at = state.running.statement;
    if at < statements.len() {
        run_statement(alloc, body, state, taken, &statements[at])?;
        return Ok(None);
    }
    end_block(alloc, bodies, state, taken, &block.end)
}

/// One step of a state; `Some` with the answer where the run returns. For want of memory nothing changes.
pub fn step_state(alloc: Global, bodies: &Bodies, state: &mut State) -> Result<Option<Tree>, Halt>
    ensures steps { Comes result (try_step (code_of bodies.now) state.old) (outcome_of_step state.new) }
    ensures unchanged { result ≡ Err Halt.NoMemory → state.new ≡ state.old }
{
    let mut taken = Taken::new(alloc);
    let stepped = try_step(alloc, bodies, state, &mut taken);
    if let Err(Halt::NoMemory) = &stepped {
        put_back(state, taken);
        return Err(Halt::NoMemory);
    }
    stepped
}
