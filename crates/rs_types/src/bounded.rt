//! Which declared types hold themselves other than in a box.
ghost use Rattle.std.specs.Prelude.{◌≡◌, ◌||◌, not, ℕ, IfOk, get_or, length, true, false};
ghost use Rattle.rs_types.specs.Endless.{IsBounded, IsEndless};
ghost use Rattle.rs_types.specs.Growing.{bounded_grown, outside};
ghost use Rattle.rs_types.specs.Holding.{in_some_variant, none};

use crate::holding::{falses, held_params, same_row};
use crate::standing::{Wanted, stands_in_variants};
use logic_term::{AdtDecl, VariantDecl};
use std::alloc::Global;
use text_core::{Items, NoMemory};

/// Whether it was known already, or none from outside of the set stands in a field other than in a box.
fn is_bounded(known: bool, rows: &[Items<bool>], set: &[bool], variants: &[VariantDecl]) -> bool
    ensures { result ≡ (known || not (in_some_variant rows.now none (outside set.now) variants.now)) }
{
    known || !stands_in_variants(rows, Wanted::Outside(set), variants)
}

/// The set, and the declared types in whose fields none from outside of it stands other than in a box.
#[tactic(auto, using(crate::proofs::Bounds::next_bounded, crate::proofs::Bounds::all_bounded))]
fn bounded_round(
    alloc: Global,
    decls: &[AdtDecl],
    rows: &[Items<bool>],
    set: &[bool],
) -> Result<Vec<bool>, NoMemory>
    requires { length set.now ≡ length decls.now }
    ensures { IfOk result (λ v. v.items ≡ bounded_grown rows.now set.now decls.now set.now) }
{
    let mut new = Vec::with_capacity(alloc, decls.len())?;
    for i in 0..decls.len() {
        let variants = decls[i].variants.as_slice();
        new.push(is_bounded(set[i], rows, set, variants))?;
    }
    Ok(new)
}

/// For each declared type whether it is bounded.
#[tactic(auto, using(crate::proofs::Bounds::falses_long, crate::proofs::Bounds::same_long, crate::proofs::Bounds::none_bounded_yet, crate::proofs::Bounds::still_bounded, crate::proofs::Bounds::less_bounded, crate::proofs::Bounds::first_bounded, crate::proofs::Bounds::rest_endless))]
pub(crate) fn bounded_types(alloc: Global, decls: &[AdtDecl]) -> Result<Vec<bool>, NoMemory>
    ensures len { IfOk result (λ v. length v.items ≡ length decls.now) }
    ensures bounded { IfOk result (λ v. (d : ℕ) → get_or v.items d true ≡ true → IsBounded decls.now d) }
    ensures endless { IfOk result (λ v. (d : ℕ) → get_or v.items d true ≡ false → IsEndless decls.now d) }
{
    let rows = held_params(alloc, decls)?;
    let mut set = falses(alloc, decls.len())?;
    loop {
        let next = bounded_round(alloc, decls, rows.as_slice(), set.as_slice())?;
        if same_row(next.as_slice(), set.as_slice()) {
            return Ok(set);
        }
        set = next;
    }
}
