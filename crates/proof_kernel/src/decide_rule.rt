//! The rule that decides conditions by a hypothesis.
ghost use Rattle.std.specs.Prelude.{IfOk};
ghost use Rattle.proof_kernel.specs.DecideRule.{decide_rule};
ghost use Rattle.proof_kernel.specs.Rules.{Finds};

use crate::exchange::Change;
use crate::rewrite_rules::changing;
use crate::sequent::Sequent;
use crate::step::Target;
use logic_term::Label2;
use std::alloc::Global;
use text_core::NoMemory;

/// The premise of step `step`; `None` exactly where a hypothesis is not there.
pub(crate) fn decide_rule(
    alloc: Global,
    step: u32,
    label: Label2,
    target: Target,
    q: &Sequent,
) -> Result<Option<Vec<Sequent>>, NoMemory>
    ensures { IfOk result (λ o. Finds (decide_rule step q.now label target) o) }
{
    match q.hypothesis(alloc, label)? {
        None => Ok(None),
        Some(known) => changing(alloc, target, step, q, Change::Decide(&known)),
    }
}
