ghost use Rattle.std.specs.Prelude.{◌≡◌, IfOk};
ghost use Rattle.logic_elab.specs.Scope.{Scope};

use logic_term::{AdtDecl, Sort};
use std::alloc::Global;
use text_core::{Name, NoMemory};

/// A variable of formulas.
#[derive(Drop)]
pub struct Symbol {
    /// The name by which formulas speak of it.
    pub name: Name,
    pub sort: Sort,
}

impl Symbol {
    pub(crate) fn copy(&self, alloc: Global) -> Result<Symbol, NoMemory>
        ensures { IfOk result (λ s. s ≡ self.now) }
    {
        let sort = self.sort.copy(alloc)?;
        Ok(Symbol {
            name: self.name,
            sort,
        })
    }
}

/// What the names of a term mean where it stands, and the types that are declared there.
pub trait TermScope {
    // What each name means, and the word for the answer of a function, and the declared types.
    ghost scope: { Self → Scope };

    /// The variable that the name means; `None` exactly where it means none.
    fn variable(&self, alloc: Global, name: Name) -> Result<Option<Symbol>, NoMemory>
        ensures { IfOk result (λ o. o ≡ (scope self.now).variable name) };

    /// What the word `result` means; `None` exactly where it is a name as each other.
    fn answer(&self, alloc: Global) -> Result<Option<Symbol>, NoMemory>
        ensures { IfOk result (λ o. o ≡ (scope self.now).answer) };

    /// The declared types, by their numbers.
    fn types(&self) -> &[AdtDecl]
        ensures { result.now ≡ (scope self.now).types };
}
