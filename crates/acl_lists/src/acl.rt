ghost use Rattle.std.specs.Prelude.{◌≡◌, IfOk};

use crate::ace::Ace;
use dots_lists::{List, Name, NoMemory};
use ip_scope::Family;
use std::alloc::Global;

/// The entries of an access list, in order.
pub type AceList = List<Ace>;

/// An access list (RFC 8783, section 7.2).
#[derive(Drop)]
pub struct Acl {
    pub name: Name,
    /// The family of its packets, which its `type` says.
    pub family: Family,
    pub activation: Activation,
    /// The first entry that matches a packet decides.
    pub aces: AceList,
}

/// When an access list is active: its `activation-type` (RFC 8783, section 7.2).
#[derive(Clone, Copy)]
pub enum Activation {
    /// While a mitigation of its client is live.
    WhenMitigating,
    /// Always.
    Immediate,
    /// Never.
    Deactivate,
}

impl Acl {
    /// An equal value.
    pub fn copy(&self, alloc: Global) -> Result<Self, NoMemory>
        ensures { IfOk result (λ copy. copy ≡ self.now) }
    {
        Ok(Acl {
            name: self.name.copy()?,
            family: self.family,
            activation: self.activation,
            aces: copy_of_aces(alloc, self.aces.items())?,
        })
    }
}

/// The same entries in the same order.
fn copy_of_aces(alloc: Global, aces: &[Ace]) -> Result<AceList, NoMemory>
    ensures { IfOk result (λ copy. copy ≡ aces.now) }
{
    let mut copy = List::new(alloc);
    for ace in aces {
        copy.push(ace.copy()?)?;
    }
    Ok(copy)
}
