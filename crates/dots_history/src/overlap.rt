//! When two mitigations overlap.

ghost use Rattle.std.specs.Prelude.{◌≡◌, bytes_eq};
ghost use Rattle.std.specs.List.{list_any};
ghost use Rattle.ip_scope.specs.Prefix.{meets};
ghost use Rattle.dots_history.specs.Entries.{overlaps, targets_meet, share_alias, some_prefix};
ghost use Rattle.dots_history.specs.Reach.{Encloses};

use crate::put::{Put, Target};
use crate::reach::{Reaches, reaches_of, touches};
use dots_lists::Name;
use ip_scope::{Prefix, meets};

/// Whether two mitigations overlap: a prefix of the one's targets meets one of the other's, or both are of one client
/// and share the name of an alias (RFC 9132, section 4.4.1).
#[tactic(auto, unfolding(crate::specs::Entries::overlaps))]
pub fn overlaps(of_one_client: bool, a: &Put, b: &Put) -> bool
    ensures { result ≡ overlaps of_one_client a.now b.now }
{
    targets_meet(a, b) || (of_one_client && share_alias(a, b))
}

#[tactic(auto, unfolding(crate::specs::Entries::targets_meet))]
fn targets_meet(a: &Put, b: &Put) -> bool
    ensures { result ≡ targets_meet a.now b.now }
{
    some_target_meets(a.targets.items(), b.targets.items())
}

/// Whether a prefix of the one's targets meets one of the other's. Where the addresses of the two lie apart, no two prefixes are compared.
pub fn some_target_meets(targets: &[Target], others: &[Target]) -> bool
    ensures { result ≡ some_prefix (λ prefix. some_prefix (meets prefix) others.now) targets.now }
{
    let reaches = reaches_of(others);
    targets.iter().any(|target| some_meets(target.prefixes.items(), others, &reaches))
}

fn some_meets(prefixes: &[Prefix], targets: &[Target], reaches: &Reaches) -> bool
    requires { Encloses reaches.now targets.now }
    ensures { result ≡ list_any (λ prefix. some_prefix (meets prefix) targets.now) prefixes.now }
{
    prefixes
        .iter()
        .any(|prefix| meets_within(prefix, targets, reaches))
}

fn meets_within(prefix: &Prefix, targets: &[Target], reaches: &Reaches) -> bool
    requires { Encloses reaches.now targets.now }
    ensures { result ≡ some_prefix (meets prefix.now) targets.now }
{
    touches(prefix, reaches) && meets_some(prefix, targets)
}

/// Whether the prefix meets one of the targets.
pub fn meets_some(prefix: &Prefix, targets: &[Target]) -> bool
    ensures { result ≡ some_prefix (meets prefix.now) targets.now }
{
    targets
        .iter()
        .any(|target| meets_any(prefix, target.prefixes.items()))
}

fn meets_any(prefix: &Prefix, list: &[Prefix]) -> bool
    ensures { result ≡ list_any (meets prefix.now) list.now }
{
    list.iter().any(|other| is_meeting(prefix, other))
}

/// Whether two prefixes meet. Those of one length do where they are equal.
fn is_meeting(a: &Prefix, b: &Prefix) -> bool
    ensures { result ≡ meets a.now b.now }
{
    if a.length() == b.length() {
        return a.number() == b.number() && a.family().is_same(b.family());
    }
    meets(a, b)
}

#[tactic(auto, unfolding(crate::specs::Entries::share_alias))]
fn share_alias(a: &Put, b: &Put) -> bool
    ensures { result ≡ share_alias a.now b.now }
{
    share_name(a.asked.aliases.items(), b.asked.aliases.items())
}

/// Whether a name is among both.
pub fn share_name(names: &[Name], others: &[Name]) -> bool
    ensures { result ≡ list_any (λ name. list_any (bytes_eq name) others.now) names.now }
{
    names.iter().any(|name| is_among(name, others))
}

fn is_among(name: &Name, names: &[Name]) -> bool
    ensures { result ≡ list_any (bytes_eq name.now) names.now }
{
    names.iter().any(|other| name.bytes() == other.bytes())
}
