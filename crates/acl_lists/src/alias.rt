ghost use Rattle.std.specs.Prelude.{◌≡◌, IfOk};

use crate::asked::Asked;
use dots_lists::{Name, NoMemory};
use std::alloc::Global;

/// A name for some targets, which later requests may use in their place (RFC 8783, section 6.1).
#[derive(Drop)]
pub struct Alias {
    pub name: Name,
    /// The targets, which name no further alias.
    pub asked: Asked,
}

impl Alias {
    /// An equal value.
    pub fn copy(&self, alloc: Global) -> Result<Self, NoMemory>
        ensures { IfOk result (λ copy. copy ≡ self.now) }
    {
        Ok(Alias {
            name: self.name.copy()?,
            asked: self.asked.copy(alloc)?,
        })
    }
}
