//! How far a proof goes.
ghost use Rattle.std.specs.Prelude.{◌≡◌, ◌<◌, ◌+◌, ◌^◌, length, false, IfOk, Ok};
ghost use Rattle.verify_core.specs.VerdictWords.{TakesStep};
ghost use Rattle.creusot_pages.specs.Attempt.{StopsBehind};

use proof_kernel::{Kernel, Step, StepError};
use proof_text::NumberedStep;
use std::alloc::Global;
use text_core::{Name, NoMemory};

/// Does the step; `false` where it cannot be done, which changes nothing.
pub(crate) fn takes(alloc: Global, kernel: &mut Kernel<'_>, step: &Step) -> Result<bool, NoMemory>
    requires { kernel.old.step + 1 < 2 ^ 32 }
    ensures done { IfOk result (TakesStep kernel.old step.now kernel.new) }
    ensures unchanged { result ≡ Ok false → kernel.new ≡ kernel.old }
{
    match kernel.apply(alloc, step) {
        Ok(()) => Ok(true),
        Err(StepError::NoMemory) => Err(NoMemory),
        Err(StepError::UnknownStep { step: _ }) => Ok(false),
        Err(StepError::TooWide { step: _ }) => Ok(false),
        Err(StepError::RuleFails { step: _ }) => Ok(false),
    }
}

/// Does the steps up to the first that cannot be done. Answers how many were done.
pub(crate) fn steps_done(
    alloc: Global,
    kernel: &mut Kernel<'_>,
    steps: &[NumberedStep],
) -> Result<usize, NoMemory>
    requires begun { kernel.old.step ≡ 1 }
    requires few { length steps.now + 2 < 2 ^ 32 }
    ensures { IfOk result (StopsBehind kernel.old steps.now kernel.new) }
{
    for i in 0..steps.len() {
        if !takes(alloc, kernel, &steps[i].step)? {
            return Ok(i);
        }
    }
    Ok(steps.len())
}

/// The names that `intro` gave in these steps.
pub(crate) fn introduced(alloc: Global, steps: &[NumberedStep]) -> Result<Vec<Name>, NoMemory> {
    let mut names = Vec::new(alloc);
    for numbered in steps {
        if let Step::Intro(given) = &numbered.step {
            names.extend_from_slice(given.as_slice())?;
        }
    }
    Ok(names)
}
