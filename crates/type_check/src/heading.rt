ghost use Rattle.std.specs.Prelude.{◌≡◌, IfOk};
ghost use Rattle.type_check.specs.Functions.{function_from};

use crate::program::Signature;
use logic_term::copy_types;
use std::alloc::Global;
use text_core::{Items, Name, NoMemory};

/// A function's name and signature.
#[derive(Drop)]
pub(crate) struct Heading {
    pub(crate) name: Name,
    pub(crate) signature: Signature,
}

/// A function that is called.
#[derive(Drop)]
pub(crate) struct Callee {
    /// Its place among the functions of the source.
    pub(crate) place: u32,
    pub(crate) signature: Signature,
}

impl Signature {
    pub(crate) fn copy(&self, alloc: Global) -> Result<Signature, NoMemory>
        ensures { IfOk result (λ s. s ≡ self.now) }
    {
        let params = copy_types(alloc, self.params.as_slice())?;
        let answer = self.answer.copy(alloc)?;
        Ok(Signature {
            params: Items::from_vec(params),
            answer,
        })
    }
}

/// The function of the name.
pub(crate) fn find_function(
    alloc: Global,
    name: Name,
    headings: &[Heading],
) -> Result<Option<Callee>, NoMemory>
    ensures { IfOk result (λ o. o ≡ function_from 0 name headings.now) }
{
    let mut place = 0;
    for heading in headings {
        if name.0 == heading.name.0 {
            let signature = heading.signature.copy(alloc)?;
            return Ok(Some(Callee { place, signature }));
        }
        place = u32::checked_add(place, 1).ok_or(NoMemory)?;
    }
    Ok(None)
}
