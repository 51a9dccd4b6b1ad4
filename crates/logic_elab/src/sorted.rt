ghost use Rattle.std.specs.Prelude.{◌≡◌, IfOk};
ghost use Rattle.logic_elab.specs.Elaborated.{sorted};

use logic_term::{Sort, Term, Ty};
use std::alloc::Global;
use text_core::{Boxed, NoMemory};

/// A term with its sort.
#[derive(Drop)]
pub struct SortedTerm {
    pub sort: Sort,
    pub term: Boxed<Term>,
}

pub(crate) fn of_sort(alloc: Global, sort: Ty, term: Term) -> Result<SortedTerm, NoMemory>
    ensures { IfOk result (λ t. t ≡ sorted sort term) }
{
    let term = Boxed::new(alloc, term)?;
    Ok(SortedTerm { sort, term })
}
