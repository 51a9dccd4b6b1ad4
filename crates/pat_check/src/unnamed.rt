ghost use Rattle.std.specs.Prelude.{◌≡◌, IfOk, ◌+ℤ◌, pos};
ghost use Rattle.pat_check.specs.Known.{among};
ghost use Rattle.pat_check.specs.Settled.{IsUnnamed, first_integer, is_past};

use crate::finding::among;
use source_kinds::IntKind;
use text_core::NoMemory;

/// The integer of the kind of that number: from the least on, or from 0 on where there is none.
fn nth_integer(kind: Option<IntKind>, i: usize) -> i128
    ensures { result ≡ first_integer kind +ℤ pos i }
{
    let first = match kind {
        None => 0,
        Some(kind) => kind.lowest(),
    };
    first + i as i128
}

fn is_nth_among(kind: Option<IntKind>, i: usize, others: &[i128]) -> bool
    ensures { result ≡ among (first_integer kind +ℤ pos i) others.now }
{
    let z = nth_integer(kind, i);
    among(z, others)
}

fn is_past(kind: Option<IntKind>, z: i128) -> bool
    ensures { result ≡ is_past kind z }
{
    match kind {
        None => false,
        Some(kind) => z > kind.highest(),
    }
}

/// An integer of the kind that is not among these; `None` where all are.
pub fn unnamed(kind: Option<IntKind>, others: &[i128]) -> Result<Option<i128>, NoMemory>
    ensures { IfOk result (λ o. IsUnnamed kind others.now o) }
{
    for i in 0..others.len() {
        let z = nth_integer(kind, i);
        if is_past(kind, z) {
            return Ok(None);
        }
        if !is_nth_among(kind, i, others) {
            return Ok(Some(z));
        }
    }
    let z = nth_integer(kind, others.len());
    if is_past(kind, z) {
        return Ok(None);
    }
    if !is_nth_among(kind, others.len(), others) {
        return Ok(Some(z));
    }
    // No list names more integers than it has entries.
    Err(NoMemory)
}
