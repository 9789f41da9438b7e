//! Which prefixes of a request meet mitigations of other clients.

ghost use Rattle.std.specs.Prelude.{◌≡◌, ◌+◌, ◌*◌, ◌^◌, ◌≤◌, ◌<◌, length, map, if◌then◌else◌};
ghost use Rattle.acl_lists.specs.declared.limits.TheConstants.{MAX_RESOLVED};
ghost use Rattle.dots_history.specs.Bounds.{prefix_count};
ghost use Rattle.conflict_rules.specs.ByOverlap.{meets_another, resolved, bits, meeting};

use crate::live::{Mitigates, stands_against};
use dots_history::{Target, meets_some};
use ip_scope::Prefix;

/// The number whose bit i is set exactly where the resolved prefix i meets a standing mitigation of another client.
pub(crate) fn meeting<T: Mitigates>(live: &[T], cuid: &[u8], targets: &[Target]) -> u128
    requires { prefix_count targets.now ≤ MAX_RESOLVED }
    ensures { result ≡ meeting (map T.live live.now) cuid.now targets.now }
{
    let mut meeting = 0;
    let mut place = 0;
    for target in targets {
        let prefixes = target.prefixes.items();
        meeting += marks(live, cuid, prefixes, place);
        place += prefixes.len();
    }
    meeting
}

/// The bits of these prefixes, of which the first has this place.
fn marks<T: Mitigates>(live: &[T], cuid: &[u8], prefixes: &[Prefix], place: usize) -> u128
    requires { place + length prefixes.now ≤ 128 }
    ensures { result ≡ 2 ^ place * bits (map (meets_another (map T.live live.now) cuid.now) prefixes.now) }
{
    let mut marks = 0;
    for (index, prefix) in prefixes.iter().enumerate() {
        marks += bit(place + index, meets_another(live, cuid, prefix));
    }
    marks
}

/// The bit of this place, where it is set.
fn bit(place: usize, is_set: bool) -> u128
    requires { place < 128 }
    ensures { result ≡ 2 ^ place * (if is_set then 1 else 0) }
{
    u128::from(is_set) << place
}

fn meets_another<T: Mitigates>(live: &[T], cuid: &[u8], prefix: &Prefix) -> bool
    ensures { result ≡ meets_another (map T.live live.now) cuid.now prefix.now }
{
    for mitigation in live {
        if stands_against(mitigation, cuid)
            && meets_some(prefix, mitigation.put().targets.items())
        {
            return true;
        }
    }
    false
}
