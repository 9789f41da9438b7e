//! Between which numbers the addresses of prefixes lie.

ghost use Rattle.std.specs.Prelude.{◌≡◌, ◌-◌, ◌≤◌};
ghost use Rattle.ip_scope.specs.Family.{width};
ghost use Rattle.ip_scope.specs.Prefix.{block_size};
ghost use Rattle.dots_history.specs.Reach.{first_of, last_of, reach_in, widened_by, widened, over_prefixes, over_targets, is_within, touches, Encloses};

use crate::put::Target;
use ip_scope::{Family, Prefix};

/// From the lowest number to the highest; where there is none, the lowest is above the highest.
#[derive(Clone, Copy, Drop)]
pub struct Reach {
    pub lowest: u128,
    pub highest: u128,
}

/// The reach of the addresses of IPv4, and that of IPv6.
#[derive(Clone, Copy, Drop)]
pub struct Reaches {
    pub short: Reach,
    pub long: Reach,
}

/// A reach that has each address of these targets.
pub(crate) fn reaches_of(targets: &[Target]) -> Reaches
    ensures { Encloses result targets.now }
{
    let nowhere = Reach {
        lowest: u128::MAX,
        highest: 0,
    };
    over_targets(
        targets,
        Reaches {
            short: nowhere,
            long: nowhere,
        },
    )
}

/// Whether an address of the prefix may be one of these.
pub(crate) fn touches(prefix: &Prefix, reaches: &Reaches) -> bool
    ensures { result ≡ touches prefix.now reaches.now }
{
    is_within(prefix, reach_in(prefix.family(), reaches))
}

fn over_targets(targets: &[Target], start: Reaches) -> Reaches
    ensures { result ≡ over_targets targets.now start }
{
    let mut reaches = start;
    for target in targets {
        reaches = over_prefixes(target.prefixes.items(), reaches);
    }
    reaches
}

fn over_prefixes(prefixes: &[Prefix], start: Reaches) -> Reaches
    ensures { result ≡ over_prefixes prefixes.now start }
{
    let mut reaches = start;
    for prefix in prefixes {
        reaches = widened(prefix, reaches);
    }
    reaches
}

fn widened(prefix: &Prefix, reaches: Reaches) -> Reaches
    ensures { result ≡ widened prefix.now reaches }
{
    match prefix.family() {
        Family::V4 => Reaches {
            short: widened_by(prefix, reaches.short),
            long: reaches.long,
        },
        Family::V6 => Reaches {
            short: reaches.short,
            long: widened_by(prefix, reaches.long),
        },
    }
}

fn widened_by(prefix: &Prefix, reach: Reach) -> Reach
    ensures { result ≡ widened_by prefix.now reach }
{
    Reach {
        lowest: reach.lowest.min(first_of(prefix)),
        highest: reach.highest.max(last_of(prefix)),
    }
}

fn reach_in(family: Family, reaches: &Reaches) -> Reach
    ensures { result ≡ reach_in family reaches.now }
{
    match family {
        Family::V4 => reaches.short,
        Family::V6 => reaches.long,
    }
}

fn is_within(prefix: &Prefix, reach: Reach) -> bool
    ensures { result ≡ is_within prefix.now reach }
{
    first_of(prefix) <= reach.highest && reach.lowest <= last_of(prefix)
}

/// The number of its lowest address.
fn first_of(prefix: &Prefix) -> u128
    ensures { result ≡ first_of prefix.now }
{
    prefix.number()
}

/// The number of its highest address.
fn last_of(prefix: &Prefix) -> u128
    ensures { result ≡ last_of prefix.now }
{
    prefix.number() + span(prefix.family(), prefix.length())
}

/// How far the highest address is above the lowest one.
fn span(family: Family, length: u8) -> u128
    requires { length ≤ width family }
    ensures { result ≡ block_size family length - 1 }
{
    let host_bits = family.width() - length;
    if host_bits == 128 {
        return u128::MAX;
    }
    (1 << host_bits) - 1
}
