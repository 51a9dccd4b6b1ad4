//! The declared types of a source, and what its names are refused for.
ghost use Rattle.std.specs.Prelude.{◌≡◌, ◌⊎◌, IfOk, IfErr};
ghost use Rattle.text_core.specs.declared.fault.PassError.TheVariants as errors;
ghost use Rattle.text_core.specs.declared.refusal.SourceError.{SourceError};
ghost use Rattle.rs_types.specs.Accepted.{AreAccepted};
ghost use Rattle.rs_types.specs.Checked.{AllPass, IsFirst};
ghost use Rattle.declared_types.specs.DeclaredTypes.{declared_types};
ghost use Rattle.declared_types.specs.Declaring.{checks};

use crate::checks::checks;
use crate::fields::declared_types;
use crate::heads::heads;
use constructors::Declared;
use source_trees::Item;
use std::alloc::Global;
use text_core::PassError;

/// The declared types of the items.
///
/// # Errors
///
/// Items go in source order; of each its attributes, its name, its parameters, its fields and the types that are written there in order, and then the
/// declared type itself. The first that is refused counts: E06 at a name that is there already, E05, E07 and E08 as `rs_types::meant` has them, E09 at
/// a type with a reference in a reference, E10 at the name of a declared type that holds itself other than in a box or has no value, and E20 at what
/// is not built. Never a limit. `NoMemory` also where a number would pass 32 bits.
#[tactic(auto, using(crate::proofs::Accepting::accepted))]
pub fn declare(alloc: Global, items: &[Item]) -> Result<Declared, PassError>
    ensures ok { IfOk result (λ d. (d.table ≡ declared_types items.now) × AllPass (declared_types items.now) (checks items.now)) }
    ensures refused { IfErr result (λ e. (e ≡ errors.NoMemory) ⊎ ((refusal : SourceError) × (e ≡ errors.Source refusal) × IsFirst (declared_types items.now) (checks items.now) refusal)) }
    ensures accepted { IfOk result (λ d. AreAccepted d.table) }
{
    let heads = heads(alloc, items)?;
    let table = declared_types(alloc, &heads, items)?;
    let checks = checks(alloc, &heads, items)?;
    table.meets(alloc, checks.as_slice())?;
    Ok(Declared { table })
}
