//! Which scopes and which access lists may be asked for.

ghost use Rattle.std.specs.Prelude.{◌≡◌, ◌≤◌, ◌<◌, ◌^◌};
ghost use Rattle.std.specs.List.{list_any};
ghost use Rattle.ip_scope.specs.Family.{width};
ghost use Rattle.ip_scope.specs.Prefix.{prefix_of, meets};
ghost use Rattle.conflict_rules.specs.AskableTargets.{is_target, prefix_fault, first_fault, fault_of_addresses, name_fault, scope_fault, destination_fault, list_fault};

use crate::target::TargetFault;
use acl_lists::{Ace, Acl, Asked};
use dots_lists::Name;
use dots_settings::Settings;
use ip_scope::{Addr, Family, Prefix, inside_any, meets};

/// Why a scope may not be asked for in a domain of these prefixes: the fault of the first asked prefix that has one, else of the
/// first name that has one.
pub fn scope_fault(settings: &Settings, domain: &[Prefix], asked: &Asked) -> Option<TargetFault>
    ensures { result ≡ scope_fault settings.now domain.now asked.now }
{
    match first_prefix_fault(domain, asked.prefixes.items()) {
        Some(fault) => Some(fault),
        None => first_name_fault(settings, domain, asked.names.items()),
    }
}

/// Why an access list may not be written for a domain of these prefixes: the fault of the first destination of its entries that has
/// one. Its sources may be any.
pub fn list_fault(domain: &[Prefix], acl: &Acl) -> Option<TargetFault>
    ensures { result ≡ list_fault domain.now acl.now }
{
    first_destination_fault(domain, acl.aces.items())
}

fn first_destination_fault(domain: &[Prefix], aces: &[Ace]) -> Option<TargetFault>
    ensures { result ≡ first_fault (destination_fault domain.now) aces.now }
{
    for ace in aces {
        if let Some(fault) = destination_fault(domain, ace) {
            return Some(fault);
        }
    }
    None
}

/// An entry may have no destination.
fn destination_fault(domain: &[Prefix], ace: &Ace) -> Option<TargetFault>
    ensures { result ≡ destination_fault domain.now ace.now }
{
    match ace.destination {
        Some(prefix) => prefix_fault(domain, &prefix),
        None => None,
    }
}

fn first_name_fault(settings: &Settings, domain: &[Prefix], names: &[Name]) -> Option<TargetFault>
    ensures { result ≡ first_fault (name_fault settings.now domain.now) names.now }
{
    for name in names {
        if let Some(fault) = fault_of_addresses(domain, settings.addresses(name.bytes())) {
            return Some(fault);
        }
    }
    None
}

fn first_prefix_fault(domain: &[Prefix], prefixes: &[Prefix]) -> Option<TargetFault>
    ensures { result ≡ first_fault (prefix_fault domain.now) prefixes.now }
{
    for prefix in prefixes {
        if let Some(fault) = prefix_fault(domain, prefix) {
            return Some(fault);
        }
    }
    None
}

/// A host name has addresses, and each of them is one that may be asked for.
fn fault_of_addresses(domain: &[Prefix], addresses: &[Prefix]) -> Option<TargetFault>
    ensures { result ≡ fault_of_addresses domain.now addresses.now }
{
    if addresses.is_empty() {
        return Some(TargetFault::UnknownName);
    }
    first_prefix_fault(domain, addresses)
}

/// Why a prefix may not be asked for in a domain of these prefixes.
fn prefix_fault(domain: &[Prefix], prefix: &Prefix) -> Option<TargetFault>
    ensures { result ≡ prefix_fault domain.now prefix.now }
{
    if !is_target(prefix) {
        return Some(TargetFault::NotATarget);
    }
    if inside_any(prefix, domain) {
        return None;
    }
    Some(TargetFault::OutsideDomain)
}

/// Whether a prefix meets neither loopback nor multicast nor limited broadcast.
fn is_target(prefix: &Prefix) -> bool
    ensures { result ≡ is_target prefix.now }
{
    let never = [
        block(Family::V4, 127 << 24, 8),
        block(Family::V4, 224 << 24, 4),
        block(Family::V4, 0xffff_ffff, 32),
        block(Family::V6, 1, 128),
        block(Family::V6, 255 << 120, 8),
    ];
    !meets_any(prefix, &never)
}

/// Whether a prefix meets one of these.
fn meets_any(prefix: &Prefix, list: &[Prefix]) -> bool
    ensures { result ≡ list_any (meets prefix.now) list.now }
{
    list.iter().any(|other| meets(prefix, other))
}

fn block(family: Family, number: u128, length: u8) -> Prefix
    requires fits { number < 2 ^ width family }
    requires length { length ≤ width family }
    ensures { result ≡ prefix_of family number length }
{
    Prefix::new(Addr { family, number }, length).unwrap()
}
