//! Copies of what a client has.

ghost use Rattle.std.specs.Prelude.{◌≡◌, IfOk};

use acl_lists::{Acl, Alias};
use data_channel::{AclList, AliasList};
use dots_lists::{List, NoMemory};
use std::alloc::Global;

/// The same aliases in the same order.
pub fn copy_of_aliases(alloc: Global, aliases: &[Alias]) -> Result<AliasList, NoMemory>
    ensures { IfOk result (λ copy. copy ≡ aliases.now) }
{
    let mut copy = List::new(alloc);
    for alias in aliases {
        copy.push(alias.copy(alloc)?)?;
    }
    Ok(copy)
}

/// The same access lists in the same order.
pub fn copy_of_acls(alloc: Global, acls: &[Acl]) -> Result<AclList, NoMemory>
    ensures { IfOk result (λ copy. copy ≡ acls.now) }
{
    let mut copy = List::new(alloc);
    for acl in acls {
        copy.push(acl.copy(alloc)?)?;
    }
    Ok(copy)
}
