//! Access lists of JSON (RFC 8783, section 7.2; RFC 8519, section 4.2).

ghost use Rattle.std.specs.Prelude.{◌≡◌, codes, bytes_eq};
ghost use Rattle.std.specs.List.{list_any};
ghost use Rattle.acl_lists.specs.declared.acl.Activation.TheVariants as activation;
ghost use Rattle.acl_lists.specs.declared.limits.TheConstants.{MAX_ACES};
ghost use Rattle.serde_json.specs.Find.{get};
ghost use Rattle.serde_json.specs.View.{view};
ghost use Rattle.list_json.specs.declared.fault.Member.TheVariants as the;
ghost use Rattle.list_json.specs.Lists.{word_of, forwarding_in, actions_of, matches_of, every_packet, entry_with, entry_matching, entry_of, distinct, some_entries, aces_of, family_in, activation_in, acl_in};
ghost use Rattle.list_json.specs.Steps.{Gives, needed, otherwise, items_in};

use crate::fault::{ListFault, Member};
use crate::matches::{Matches, matches_of};
use crate::shape::{Shape, check_members};
use crate::values::{few_items, own_name};
use acl_lists::{Ace, AceList, Acl, Activation, MAX_ACES};
use dots_lists::{List, Name};
use ip_scope::Family;
use serde_json::Value;
use std::alloc::Global;

/// Whether `accept` or `drop` stands for accepting.
fn forwarding_in(text: &str) -> Option<bool>
    ensures { result ≡ forwarding_in text.now }
{
    match text {
        "accept" => Some(true),
        "drop" => Some(false),
        _ => None,
    }
}

fn forwarding_of(value: &Value) -> Result<bool, ListFault>
    ensures { result ≡ word_of forwarding_in the.Forwarding (view value.now) }
{
    let Some(text) = value.as_str() else {
        return Err(ListFault::Invalid(Member::Forwarding));
    };
    forwarding_in(text).ok_or(ListFault::Invalid(Member::Forwarding))
}

fn actions_of(value: &Value) -> Result<bool, ListFault>
    ensures { result ≡ actions_of (view value.now) }
{
    check_members(value, Shape::Actions, Member::Actions)?;
    match value.get("forwarding") {
        Some(forwarding) => forwarding_of(forwarding),
        None => Err(ListFault::Missing(Member::Forwarding)),
    }
}

/// The member `actions`, which an entry has to have.
fn own_actions(entry: &Value) -> Result<bool, ListFault>
    ensures { result ≡ needed the.Actions actions_of (get (codes "actions") (view entry.now)) }
{
    match entry.get("actions") {
        Some(value) => actions_of(value),
        None => Err(ListFault::Missing(Member::Actions)),
    }
}

/// The member `matches`; every packet where it is absent.
fn own_matches(entry: &Value, family: Family) -> Result<Matches, ListFault>
    ensures { result ≡ otherwise every_packet (matches_of family) (get (codes "matches") (view entry.now)) }
{
    match entry.get("matches") {
        Some(value) => matches_of(family, value),
        None => Ok(Matches::every_packet()),
    }
}

fn entry_with(name: Name, matches: &Matches, accept: bool) -> Ace
    ensures { result ≡ entry_with name matches.now accept }
{
    Ace {
        name,
        source: matches.source,
        destination: matches.destination,
        protocol: matches.protocol,
        source_port: matches.source_port,
        destination_port: matches.destination_port,
        accept,
    }
}

/// An entry that matches so.
fn entry_matching(alloc: Global, matches: &Matches, entry: &Value) -> Result<Ace, ListFault>
    ensures { Gives result (entry_matching matches.now (view entry.now)) }
{
    let accept = own_actions(entry)?;
    let name = own_name(alloc, entry)?;
    Ok(entry_with(name, matches, accept))
}

/// An entry of a list of this family.
fn entry_of(alloc: Global, family: Family, value: &Value) -> Result<Ace, ListFault>
    ensures { Gives result (entry_of family (view value.now)) }
{
    check_members(value, Shape::Entry, Member::Ace)?;
    match own_matches(value, family) {
        Ok(matches) => entry_matching(alloc, &matches, value),
        Err(fault) => Err(fault),
    }
}

/// The member `ace`: at most 64 entries.
fn own_entries(alloc: Global, family: Family, aces: &Value) -> Result<AceList, ListFault>
    ensures { Gives result (items_in the.Ace MAX_ACES (entry_of family) (get (codes "ace") (view aces.now))) }
{
    let Some(value) = aces.get("ace") else {
        return Ok(List::new(alloc));
    };
    let Some(items) = few_items(value, MAX_ACES) else {
        return Err(ListFault::Invalid(Member::Ace));
    };
    let mut entries = List::new(alloc);
    for item in items {
        match entry_of(alloc, family, item) {
            Ok(entry) => entries.push(entry)?,
            Err(fault) => return Err(fault),
        }
    }
    Ok(entries)
}

/// Whether no two entries have one name.
fn are_distinct(aces: &[Ace]) -> bool
    ensures { result ≡ distinct aces.now }
{
    let mut rest = aces;
    while let Some((first, behind)) = rest.split_first() {
        if has_name(behind, first.name.bytes()) {
            return false;
        }
        rest = behind;
    }
    true
}

fn has_name(aces: &[Ace], name: &[u8]) -> bool
    ensures { result ≡ list_any (λ ace. bytes_eq ace.name name.now) aces.now }
{
    aces.iter().any(|ace| ace.name.bytes() == name)
}

/// Refuses an empty list, and a name that repeats.
fn some_entries(aces: AceList) -> Result<AceList, ListFault>
    ensures { result ≡ some_entries aces }
{
    if aces.items().is_empty() {
        return Err(ListFault::Missing(Member::Ace));
    }
    if !are_distinct(aces.items()) {
        return Err(ListFault::Invalid(Member::Name));
    }
    Ok(aces)
}

fn aces_of(alloc: Global, family: Family, value: &Value) -> Result<AceList, ListFault>
    ensures { Gives result (aces_of family (view value.now)) }
{
    check_members(value, Shape::Aces, Member::Aces)?;
    match own_entries(alloc, family, value) {
        Ok(entries) => some_entries(entries),
        Err(fault) => Err(fault),
    }
}

/// The member `aces`, which a list has to have.
fn own_aces(alloc: Global, family: Family, list: &Value) -> Result<AceList, ListFault>
    ensures { Gives result (needed the.Aces (aces_of family) (get (codes "aces") (view list.now))) }
{
    match list.get("aces") {
        Some(value) => aces_of(alloc, family, value),
        None => Err(ListFault::Missing(Member::Aces)),
    }
}

fn family_in(text: &str) -> Option<Family>
    ensures { result ≡ family_in text.now }
{
    match text {
        "ipv4-acl-type" => Some(Family::V4),
        "ipv6-acl-type" => Some(Family::V6),
        _ => None,
    }
}

/// The member `type`, which a list has to have.
fn own_family(list: &Value) -> Result<Family, ListFault>
    ensures { result ≡ needed the.AclKind (word_of family_in the.AclKind) (get (codes "type") (view list.now)) }
{
    let Some(value) = list.get("type") else {
        return Err(ListFault::Missing(Member::AclKind));
    };
    let Some(text) = value.as_str() else {
        return Err(ListFault::Invalid(Member::AclKind));
    };
    family_in(text).ok_or(ListFault::Invalid(Member::AclKind))
}

fn activation_in(text: &str) -> Option<Activation>
    ensures { result ≡ activation_in text.now }
{
    match text {
        "activate-when-mitigating" => Some(Activation::WhenMitigating),
        "immediate" => Some(Activation::Immediate),
        "deactivate" => Some(Activation::Deactivate),
        _ => None,
    }
}

/// The member `activation-type`; while a mitigation is live where it is absent.
fn own_activation(list: &Value) -> Result<Activation, ListFault>
    ensures { result ≡ otherwise activation.WhenMitigating (word_of activation_in the.ActivationType) (get (codes "activation-type") (view list.now)) }
{
    let Some(value) = list.get("activation-type") else {
        return Ok(Activation::WhenMitigating);
    };
    let Some(text) = value.as_str() else {
        return Err(ListFault::Invalid(Member::ActivationType));
    };
    activation_in(text).ok_or(ListFault::Invalid(Member::ActivationType))
}

/// The access list that a value is, or its first fault in the order of `specs/Lists.antt`.
pub fn acl_of(alloc: Global, value: &Value) -> Result<Acl, ListFault>
    ensures { Gives result (acl_in (view value.now)) }
{
    check_members(value, Shape::List, Member::Acl)?;
    let name = own_name(alloc, value)?;
    let family = own_family(value)?;
    let activation = own_activation(value)?;
    let aces = own_aces(alloc, family, value)?;
    Ok(Acl {
        name,
        family,
        activation,
        aces,
    })
}
