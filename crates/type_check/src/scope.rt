ghost use Rattle.std.specs.Prelude.{◌≡◌, IfOk};
ghost use Rattle.type_check.specs.Scope.{found};

use logic_term::Ty;
use std::alloc::Global;
use text_core::{Name, NoMemory};

/// A variable in scope.
#[derive(Drop)]
pub(crate) struct Variable {
    pub(crate) name: Name,
    pub(crate) ty: Ty,
    pub(crate) mutable: bool,
}

/// What a `let` declares.
#[derive(Clone, Copy)]
pub(crate) struct Declared {
    pub(crate) name: Name,
    pub(crate) mutable: bool,
}

/// A variable that a name means.
#[derive(Drop)]
pub(crate) struct Found {
    /// How many variables are in scope around its declaration.
    pub(crate) place: u32,
    pub(crate) ty: Ty,
}

/// The variable of the name: the last of the scope, whose outermost variable stands first.
#[tactic(auto, using(crate::proofs::Lookups::lookups))]
pub(crate) fn find_variable(
    alloc: Global,
    name: Name,
    scope: &[Variable],
) -> Result<Option<Found>, NoMemory>
    ensures { IfOk result (λ o. o ≡ found name scope.now) }
{
    let mut left = scope.len();
    while left > 0 {
        left -= 1;
        let variable = &scope[left];
        if name.0 == variable.name.0 {
            let place = u32::try_from(left).map_err(|_| NoMemory)?;
            let ty = variable.ty.copy(alloc)?;
            return Ok(Some(Found { place, ty }));
        }
    }
    Ok(None)
}
