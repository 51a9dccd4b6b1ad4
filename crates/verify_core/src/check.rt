ghost use Rattle.std.specs.Prelude.{◌≡◌, ◌+◌, ◌^◌, ◌<◌, Err, IfOk, OnOk};
ghost use Rattle.verify_core.specs.VerdictWords.{Checks, TakesStep};

use logic_term::Obligation;
use proof_kernel::{Kernel, Step, StepError, Tables};
use proof_text::NumberedStep;
use std::alloc::Global;
use text_core::NoMemory;

/// Does the step. `false`: it cannot be done.
fn take_step(alloc: Global, kernel: &mut Kernel<'_>, step: &Step) -> Result<bool, NoMemory>
    requires { kernel.old.step + 1 < 2 ^ 32 }
    ensures { IfOk result (TakesStep kernel.old step.now kernel.new) }
{
    match kernel.apply(alloc, step) {
        Ok(()) => Ok(true),
        Err(StepError::NoMemory) => Err(NoMemory),
        Err(StepError::UnknownStep { step: _ }) => Ok(false),
        Err(StepError::TooWide { step: _ }) => Ok(false),
        Err(StepError::RuleFails { step: _ }) => Ok(false),
    }
}

/// The line at which the kernel refuses the steps of a proof that ends at this line; `None` where they are a proof of
/// the obligation by these tables. Want of memory is answered too where a step's number would pass 32 bits.
pub(crate) fn refused_line(
    alloc: Global,
    obligation: &Obligation,
    tables: &Tables,
    steps: &[NumberedStep],
    end: u32,
) -> Result<Option<u32>, NoMemory>
    ensures { IfOk result (Checks tables.now obligation.now steps.now end) }
{
    if steps.len() >= u32::MAX as usize - 1 {
        return Err(NoMemory);
    }
    let mut kernel = Kernel::new(alloc, obligation, tables)?;
    for numbered in steps {
        if !take_step(alloc, &mut kernel, &numbered.step)? {
            return Ok(Some(numbered.line));
        }
    }
    if kernel.closed() {
        Ok(None)
    } else {
        Ok(Some(end))
    }
}
