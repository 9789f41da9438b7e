//! Aliases of JSON (RFC 8783, section 6.1).

ghost use Rattle.std.specs.Prelude.{◌≡◌, codes};
ghost use Rattle.serde_json.specs.Find.{get};
ghost use Rattle.serde_json.specs.View.{view};
ghost use Rattle.acl_lists.specs.declared.limits.TheConstants.{MAX_ITEMS, MAX_NAMES};
ghost use Rattle.list_json.specs.declared.fault.Member.TheVariants as the;
ghost use Rattle.list_json.specs.Aliases.{alias_in, range_between, range_of, targets_from, with_target};
ghost use Rattle.list_json.specs.Found.{found};
ghost use Rattle.list_json.specs.Steps.{Gives, needed, otherwise, items_in};
ghost use Rattle.list_json.specs.Values.{name_of, prefix_of, protocol_of, port_of};

use crate::alias_members::{AliasMembers, members_of};
use crate::fault::{ListFault, Member};
use crate::shape::{Shape, check_members};
use crate::values::{few_items, name_of, port_of, prefix_of, protocol_of};
use acl_lists::{Alias, Asked, ByteList, MAX_ITEMS, MAX_NAMES, NameList, PortList, PrefixList};
use dots_lists::{Bytes, List, Name};
use ip_scope::PortRange;
use serde_json::Value;
use std::alloc::Global;

/// The member `lower-port`, which a range has to have.
fn lower_port(range: &Value) -> Result<u16, ListFault>
    ensures { result ≡ needed the.LowerPort (port_of the.LowerPort) (get (codes "lower-port") (view range.now)) }
{
    match range.get("lower-port") {
        Some(value) => port_of(Member::LowerPort, value),
        None => Err(ListFault::Missing(Member::LowerPort)),
    }
}

/// The member `upper-port`, which is the lower port where it is absent.
fn upper_port(range: &Value, lower: u16) -> Result<u16, ListFault>
    ensures { result ≡ otherwise lower (port_of the.UpperPort) (get (codes "upper-port") (view range.now)) }
{
    match range.get("upper-port") {
        Some(value) => port_of(Member::UpperPort, value),
        None => Ok(lower),
    }
}

/// The range between two ports, the upper of which isn't below the lower.
pub fn range_between(lower: u16, upper: u16) -> Result<PortRange, ListFault>
    ensures { result ≡ range_between lower upper }
{
    PortRange::new(lower, upper).ok_or(ListFault::Invalid(Member::UpperPort))
}

/// A range of ports.
fn range_of(value: &Value) -> Result<PortRange, ListFault>
    ensures { result ≡ range_of (view value.now) }
{
    check_members(value, Shape::Range, Member::TargetPortRange)?;
    let lower = lower_port(value)?;
    let upper = upper_port(value, lower)?;
    range_between(lower, upper)
}

/// The member `target-prefix`: at most 32 texts of prefixes.
fn prefixes_of(alloc: Global, member: Option<&Value>) -> Result<PrefixList, ListFault>
    ensures { Gives result (items_in the.TargetPrefix MAX_ITEMS (prefix_of the.TargetPrefix) (found member.entry)) }
{
    let Some(value) = member else {
        return Ok(List::new(alloc));
    };
    let Some(items) = few_items(value, MAX_ITEMS) else {
        return Err(ListFault::Invalid(Member::TargetPrefix));
    };
    let mut prefixes = List::new(alloc);
    for item in items {
        match prefix_of(Member::TargetPrefix, item) {
            Ok(prefix) => prefixes.push(prefix)?,
            Err(fault) => return Err(fault),
        }
    }
    Ok(prefixes)
}

/// The member `target-port-range`: at most 32 ranges of ports.
fn ports_of(alloc: Global, member: Option<&Value>) -> Result<PortList, ListFault>
    ensures { Gives result (items_in the.TargetPortRange MAX_ITEMS range_of (found member.entry)) }
{
    let Some(value) = member else {
        return Ok(List::new(alloc));
    };
    let Some(items) = few_items(value, MAX_ITEMS) else {
        return Err(ListFault::Invalid(Member::TargetPortRange));
    };
    let mut ports = List::new(alloc);
    for item in items {
        match range_of(item) {
            Ok(range) => ports.push(range)?,
            Err(fault) => return Err(fault),
        }
    }
    Ok(ports)
}

/// The member `target-protocol`: at most 32 numbers of protocols.
fn protocols_of(alloc: Global, member: Option<&Value>) -> Result<ByteList, ListFault>
    ensures { Gives result (items_in the.TargetProtocol MAX_ITEMS (protocol_of the.TargetProtocol) (found member.entry)) }
{
    let Some(value) = member else {
        return Ok(Bytes::new(alloc));
    };
    let Some(items) = few_items(value, MAX_ITEMS) else {
        return Err(ListFault::Invalid(Member::TargetProtocol));
    };
    let mut protocols = Bytes::new(alloc);
    for item in items {
        match protocol_of(Member::TargetProtocol, item) {
            Ok(protocol) => protocols.push(protocol)?,
            Err(fault) => return Err(fault),
        }
    }
    Ok(protocols)
}

/// The member `target-fqdn`: at most 8 names.
fn names_of(alloc: Global, member: Option<&Value>) -> Result<NameList, ListFault>
    ensures { Gives result (items_in the.TargetFqdn MAX_NAMES (name_of the.TargetFqdn) (found member.entry)) }
{
    let Some(value) = member else {
        return Ok(List::new(alloc));
    };
    let Some(items) = few_items(value, MAX_NAMES) else {
        return Err(ListFault::Invalid(Member::TargetFqdn));
    };
    let mut names = List::new(alloc);
    for item in items {
        match name_of(alloc, Member::TargetFqdn, item) {
            Ok(name) => names.push(name)?,
            Err(fault) => return Err(fault),
        }
    }
    Ok(names)
}

/// Refuses targets without a prefix and a name.
fn with_target(asked: Asked) -> Result<Asked, ListFault>
    ensures { result ≡ with_target asked }
{
    if asked.prefixes.items().is_empty() && asked.names.items().is_empty() {
        return Err(ListFault::Missing(Member::TargetPrefix));
    }
    Ok(asked)
}

/// The member `name`, which an alias has to have.
fn own_name(alloc: Global, alias: &AliasMembers<'_>) -> Result<Name, ListFault>
    ensures { Gives result (needed the.Name (name_of the.Name) (found alias.now.name)) }
{
    match alias.name {
        Some(value) => name_of(alloc, Member::Name, value),
        None => Err(ListFault::Missing(Member::Name)),
    }
}

/// What an alias stands for.
fn targets_of(alloc: Global, alias: &AliasMembers<'_>) -> Result<Asked, ListFault>
    ensures { Gives result (targets_from (found alias.now.prefixes) (found alias.now.ports)
        (found alias.now.protocols) (found alias.now.names)) }
{
    let prefixes = prefixes_of(alloc, alias.prefixes)?;
    let ports = ports_of(alloc, alias.ports)?;
    let protocols = protocols_of(alloc, alias.protocols)?;
    let names = names_of(alloc, alias.names)?;
    with_target(Asked {
        prefixes,
        ports,
        protocols,
        names,
        aliases: List::new(alloc),
    })
}

/// The alias that a value is, or its first fault in the order of `specs/Aliases.antt`.
pub fn alias_of(alloc: Global, value: &Value) -> Result<Alias, ListFault>
    ensures { Gives result (alias_in (view value.now)) }
{
    let members = members_of(value)?;
    let name = own_name(alloc, &members)?;
    let asked = targets_of(alloc, &members)?;
    Ok(Alias { name, asked })
}
