//! The list of the obligations of a program.
ghost use Rattle.std.specs.Prelude.{◌≡◌, ◌+◌, ◌^◌, ◌<◌, length, map, IfOk};
ghost use Rattle.verify_core.specs.Listing.{listed, list_text};
ghost use Rattle.verify_core.specs.Owed.{obligations_in};

use crate::program::Program;
use goal_text::{Spelling, goal_text};
use logic_term::Obligation;
use report_out::{ListedItem, listing};
use std::alloc::Global;
use text_core::{NoMemory, Text};

fn listed(alloc: Global, program: &Program, obligation: &Obligation) -> Result<ListedItem, NoMemory>
    ensures { IfOk result (λ item. item ≡ listed program.now obligation.now) }
{
    let spelling = Spelling {
        adts: program.bodies.decls.as_slice(),
        names: &program.names,
    };
    let term = obligation.goal.term(alloc)?;
    let goal = goal_text(alloc, &spelling, &term)?;
    Ok(ListedItem {
        number: obligation.number,
        kind: obligation.kind,
        span: obligation.span,
        owner: obligation.owner.copy(alloc)?,
        goal: Text::from_bytes(alloc, goal.as_slice())?,
    })
}

fn all_listed(alloc: Global, program: &Program) -> Result<Vec<ListedItem>, NoMemory>
    ensures { IfOk result (λ v. v.items ≡ map (listed program.now) (obligations_in program.now.obligations)) }
{
    let mut items = Vec::new(alloc);
    for owed in program.obligations.as_slice() {
        items.push(listed(alloc, program, &owed.obligation)?)?;
    }
    Ok(items)
}

/// What `list` prints: each obligation of the program of the source with its place, and its goal on a line of its own. The source is
/// looked at for line numbers alone. Its one error is want of memory.
pub fn list(alloc: Global, program: &Program, source: &[u8]) -> Result<Vec<u8>, NoMemory>
    requires { length source.now + 1 < 2 ^ 32 }
    ensures { IfOk result (λ bytes. bytes.items ≡ list_text program.now source.now) }
{
    let items = all_listed(alloc, program)?;
    listing(alloc, items.as_slice(), source)
}
