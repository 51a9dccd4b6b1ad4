ghost use Rattle.std.specs.Prelude.{◌≡◌, ℕ, ◌≤◌, IfOk, IfErr, OnOk, OnErr};
ghost use Rattle.std.specs.Option.{option_copied};
ghost use Rattle.mir_ir.specs.WellFormed.{AreSound};
ghost use Rattle.mir_machine.specs.Depth.{CallsTooDeep, StaysInDepth, Halts, IsCause};
ghost use Rattle.mir_machine.specs.Run.{CanCall, Starts, ran, IsRan, IsRunning, ShownAs, answer, StandsAt};

use crate::args::Args;
use crate::entry::call;
use crate::frame::State;
use crate::halt::Halt;
use crate::outcome::Outcome;
use crate::run_error::RunError;
use crate::running::{FRAMES, frame_count, is_full};
use crate::steps::step_state;
use crate::tree::Tree;
use logic_term::{Instance, copy_types};
use mir_ir::{Bodies, FnId};
use std::alloc::Global;
use std::marker::Model;
use text_core::{Cause, Limit, LimitKind, NoMemory, Span};

/// Whether the run has ended.
#[derive(Drop)]
enum Status {
    Running,
    Returned(Tree),
    Panicked(Cause, Span),
}

/// The type of intrinsics until there are some. It is never called.
#[derive(Clone, Copy)]
pub struct NoIntrinsics;

/// A run of a call. Contracts see the bodies and what the run has come to, the record of specs/Run.antt.
#[derive(Drop)]
pub struct Machine<'a, I> {
    alloc: Global,
    bodies: &'a Bodies,
    state: State,
    status: Status,
    intrinsics: I,
}

impl<'a, I> Model for Machine<'a, I> {
    ghost use Rattle.mir_machine.specs.Run.{Run, IsSafe};
    ghost use Rattle.mir_machine.specs.RunCode.{coded_run};

    ghost Value = { Run };

    ghost coded = { coded_run };

    ghost use Rattle.mir_machine.specs.RunView.{outcome_at};

    ghost view = { λ m. record { bodies = m.bodies.now; outcome = outcome_at m.state m.status } };

    ghost invariant = { λ m. IsSafe (record { bodies = m.bodies.now; outcome = outcome_at m.state m.status }) };
}

impl<'a, I: Drop> Machine<'a, I> {
    /// A run of the call of `f` at `instance`, which has taken no step.
    #[tactic(auto, using(crate::proofs::NeverStuck::safe_call))]
    pub fn new(
        alloc: Global,
        bodies: &'a Bodies,
        f: FnId,
        instance: &Instance,
        args: Args,
        intrinsics: I,
    ) -> Result<Machine<'a, I>, NoMemory>
        requires sound { AreSound bodies.now }
        requires proper { CanCall bodies.now f instance.now.types args.values args.outside }
        ensures { IfOk result (Starts bodies.now f instance.now.types args.values args.outside) }
    {
        let FnId::Body(number) = f;
        let types = copy_types(alloc, instance.types.as_slice())?;
        let state = call(alloc, bodies, number, types, args)?;
        Ok(Machine {
            alloc,
            bodies,
            state,
            status: Status::Running,
            intrinsics,
        })
    }

    /// Takes up to `n` steps, fewer only where the run ends, and answers how many. A call that would make more than 10,000
    /// frames is not made, frame 0 not being counted: `Limit` says how many there would be, and the machine stands before
    /// the call. For want of memory too the machine stands after some number of steps.
    pub fn run(&mut self, n: u64) -> Result<u64, RunError>
        ensures ok { IfOk result (λ k. IsRan self.old n k self.new) }
        ensures in_depth { IfOk result (λ k. StaysInDepth self.old k) }
        ensures err { OnErr result (Halts self.old n self.new) }
        ensures cause { IfErr result (IsCause self.new) }
    {
        for taken in 0..n {
            let Outcome::Running = self.outcome() else {
                return Ok(taken);
            };
            self.has_room()?;
            self.step()?;
        }
        Ok(n)
    }

    /// Refuses where the next step is a call that makes more frames than a run may have.
    fn has_room(&self) -> Result<(), RunError>
        requires { IsRunning self.now.outcome }
        ensures ok { OnOk result (CallsTooDeep self.now → ⊥) }
        ensures limit { IfErr result (λ e. IsCause self.now e) }
    {
        if !is_full(self.bodies, &self.state) {
            return Ok(());
        }
        Err(RunError::Limit(Limit {
            kind: LimitKind::Frames,
            counted: frame_count(&self.state) + 1,
            bound: FRAMES,
        }))
    }

    /// Does one step; a run that has ended stays as it is. For want of memory nothing changes.
    pub fn step(&mut self) -> Result<(), NoMemory>
        ensures ok { OnOk result (self.new ≡ ran 1 self.old) }
        ensures err { OnErr result (self.new ≡ self.old) }
    {
        let Status::Running = self.status else {
            return Ok(());
        };
        match step_state(self.alloc, self.bodies, &mut self.state) {
            Ok(None) => Ok(()),
            Ok(Some(answer)) => {
                self.status = Status::Returned(answer);
                Ok(())
            }
            Err(Halt::Panics(cause, span)) => {
                self.status = Status::Panicked(cause, span);
                Ok(())
            }
            Err(Halt::NoMemory) => Err(NoMemory),
            Err(Halt::Stuck) => unreachable!(),
        }
    }

    /// What the run has come to. Takes no memory.
    pub fn outcome(&self) -> Outcome
        ensures { ShownAs self.now.outcome result }
    {
        match &self.status {
            Status::Running => Outcome::Running,
            Status::Returned(_) => Outcome::Returned,
            Status::Panicked(cause, span) => Outcome::Panicked {
                cause: *cause,
                span: *span,
            },
        }
    }

    /// The answer; `Some` exactly where the run has returned. Takes no memory.
    pub fn result(&self) -> Option<&Tree>
        ensures { option_copied result ≡ answer self.now.outcome }
    {
        match &self.status {
            Status::Returned(tree) => Some(tree),
            _ => None,
        }
    }

    /// The state; after a panic, one in which the operands of the step that panicked may be gone. Takes no memory.
    pub fn state(&self) -> &State
        ensures { StandsAt self.now.outcome result.now }
    {
        &self.state
    }
}
