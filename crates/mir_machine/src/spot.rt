ghost use Rattle.std.specs.Prelude.{◌≡◌, IfOk};

use std::alloc::Global;
use text_core::{Items, NoMemory};

/// A place in a state: the number of a frame, a local of it, and the numbers of the children on the way from there.
#[derive(Drop)]
pub struct Spot {
    pub frame: u64,
    pub local: u32,
    pub path: Items<u32>,
}

impl Spot {
    pub fn copy(&self, alloc: Global) -> Result<Spot, NoMemory>
        ensures { IfOk result (λ spot. spot ≡ self.now) }
    {
        let path = Items::from_slice(alloc, self.path.as_slice())?;
        Ok(Spot {
            frame: self.frame,
            local: self.local,
            path,
        })
    }
}
