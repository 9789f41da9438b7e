//! Which resolved prefixes meet others.

ghost use Rattle.std.specs.Prelude.{◌≡◌, IfOk};
ghost use Rattle.conflict_rules.specs.ByOverlap.{resolved};
ghost use Rattle.conflict_rules.specs.Marking.{marked};

use crate::targets::push_all;
use acl_lists::PrefixList;
use dots_history::Target;
use dots_lists::{List, NoMemory};
use ip_scope::Prefix;
use std::alloc::Global;

/// Those of the resolved prefixes, in order, whose bit is set: bit i is that of the prefix i.
pub fn marked(alloc: Global, targets: &[Target], bits: u128) -> Result<PrefixList, NoMemory>
    ensures { IfOk result (λ prefixes. prefixes ≡ marked (resolved targets.now) bits) }
{
    let prefixes = resolved(alloc, targets)?;
    keep_marked(alloc, prefixes.items(), bits)
}

/// The prefixes of the targets, in order.
fn resolved(alloc: Global, targets: &[Target]) -> Result<PrefixList, NoMemory>
    ensures { IfOk result (λ prefixes. prefixes ≡ resolved targets.now) }
{
    let mut prefixes = List::new(alloc);
    for target in targets {
        push_all(&mut prefixes, target.prefixes.items())?;
    }
    Ok(prefixes)
}

fn keep_marked(alloc: Global, prefixes: &[Prefix], bits: u128) -> Result<PrefixList, NoMemory>
    ensures { IfOk result (λ kept. kept ≡ marked prefixes.now bits) }
{
    let mut kept = List::new(alloc);
    let mut left = bits;
    for prefix in prefixes {
        if left % 2 == 1 {
            kept.push(*prefix)?;
        }
        left /= 2;
    }
    Ok(kept)
}
