//! Access lists as JSON (RFC 8783, section 7.2; RFC 8519, section 4.2).

ghost use Rattle.std.specs.Prelude.{◌≡◌, Some, map, option_map, IfOk, OnOk};
ghost use Rattle.serde_json.specs.View.{view, members_view};
ghost use Rattle.list_json.specs.AliasPrinting.{number_data, prefix_data, range_data};
ghost use Rattle.list_json.specs.ListPrinting.{option_data, operator_data, test_data, transport_members, transport_name, untested, header_members, entry_header, entry_transport, matches_members, forwarding_text, actions_data, entry_data, family_text, activation_text, aces_data, acl_data};
ghost use Rattle.list_json.specs.Lists.{header_name};
ghost use Rattle.list_json.specs.Putting.{put_list};

use crate::alias_writing::range_value;
use crate::matches::{destination_name, header_name, source_name};
use crate::writing::{
    number_value, prefix_value, put_member, put_name, put_object, put_text, put_value,
};
use acl_lists::{Ace, Acl, Activation, PortTest};
use dots_lists::NoMemory;
use ip_scope::{Family, PortRange, Prefix};
use serde_json::{Map, Value, put};
use std::alloc::Global;

fn operator_value(alloc: Global, operator: &str, port: u16) -> Result<Option<Value>, NoMemory>
    ensures { IfOk result (λ value. option_map view value ≡ Some (operator_data operator.now port)) }
{
    let mut members = Map::new(alloc);
    put_member(&mut members, alloc, "port", number_value(port))?;
    put_text(&mut members, alloc, "operator", operator)?;
    Ok(Some(Value::Object(members)))
}

fn ports_value(alloc: Global, range: &PortRange) -> Result<Option<Value>, NoMemory>
    ensures { IfOk result (λ value. option_map view value ≡ Some (range_data range.now)) }
{
    match range_value(alloc, range) {
        Ok(value) => Ok(Some(value)),
        Err(fault) => Err(fault),
    }
}

/// What is asked of a port, where something is.
fn test_value(alloc: Global, test: &PortTest) -> Result<Option<Value>, NoMemory>
    ensures { IfOk result (λ value. option_map view value ≡ test_data test.now) }
{
    match test {
        PortTest::Any => Ok(None),
        PortTest::Eq(port) => operator_value(alloc, "eq", *port),
        PortTest::Neq(port) => operator_value(alloc, "neq", *port),
        PortTest::Lte(port) => operator_value(alloc, "lte", *port),
        PortTest::Gte(port) => operator_value(alloc, "gte", *port),
        PortTest::Range(range) => ports_value(alloc, range),
    }
}

/// The members of `tcp` or `udp`.
fn transport_map(alloc: Global, entry: &Ace) -> Result<Map<String, Value>, NoMemory>
    ensures { IfOk result (λ members. members_view members.entries ≡ entry_transport entry.now) }
{
    let mut members = Map::new(alloc);
    let source = test_value(alloc, &entry.source_port)?;
    put_value(&mut members, alloc, "source-port-range-or-operator", source)?;
    let destination = test_value(alloc, &entry.destination_port)?;
    put_value(
        &mut members,
        alloc,
        "destination-port-range-or-operator",
        destination,
    )?;
    Ok(members)
}

/// `udp` for the protocol 17, and else `tcp`.
fn transport_name(protocol: Option<u8>) -> &'static str
    ensures { result.now ≡ transport_name protocol }
{
    match protocol {
        Some(17) => "udp",
        _ => "tcp",
    }
}

fn network_value(alloc: Global, network: &Option<Prefix>) -> Result<Option<Value>, NoMemory>
    ensures { IfOk result (λ value. option_map view value ≡ option_data prefix_data network.now) }
{
    match network {
        Some(prefix) => Ok(Some(prefix_value(alloc, prefix)?)),
        None => Ok(None),
    }
}

fn protocol_value(protocol: Option<u8>) -> Option<Value>
    ensures { option_map view result ≡ option_data number_data protocol }
{
    match protocol {
        Some(protocol) => Some(number_value(u16::from(protocol))),
        None => None,
    }
}

/// The protocol that is named, where no test of a port says it in another way.
fn untested(entry: &Ace) -> Option<u8>
    ensures { result ≡ untested (test_data entry.now.source_port) (test_data entry.now.destination_port) entry.now.protocol }
{
    match (entry.source_port, entry.destination_port) {
        (PortTest::Any, PortTest::Any) => entry.protocol,
        _ => None,
    }
}

/// The members of `ipv4` or `ipv6`.
fn header_map(alloc: Global, family: Family, entry: &Ace) -> Result<Map<String, Value>, NoMemory>
    ensures { IfOk result (λ members. members_view members.entries ≡ entry_header family entry.now) }
{
    let mut members = Map::new(alloc);
    let source = network_value(alloc, &entry.source)?;
    put_value(&mut members, alloc, source_name(family), source)?;
    put_value(
        &mut members,
        alloc,
        "protocol",
        protocol_value(untested(entry)),
    )?;
    let destination = network_value(alloc, &entry.destination)?;
    put_value(&mut members, alloc, destination_name(family), destination)?;
    Ok(members)
}

/// The members of `matches`.
fn matches_map(alloc: Global, family: Family, entry: &Ace) -> Result<Map<String, Value>, NoMemory>
    ensures { IfOk result (λ members. members_view members.entries ≡ matches_members family entry.now) }
{
    let mut members = Map::new(alloc);
    let transport = transport_map(alloc, entry)?;
    put_object(
        &mut members,
        alloc,
        transport_name(entry.protocol),
        transport,
    )?;
    let header = header_map(alloc, family, entry)?;
    put_object(&mut members, alloc, header_name(family), header)?;
    Ok(members)
}

fn forwarding_text(accept: bool) -> &'static str
    ensures { result.now ≡ forwarding_text accept }
{
    if accept { "accept" } else { "drop" }
}

fn actions_value(alloc: Global, accept: bool) -> Result<Value, NoMemory>
    ensures { IfOk result (λ value. view value ≡ actions_data accept) }
{
    let mut members = Map::new(alloc);
    put_text(&mut members, alloc, "forwarding", forwarding_text(accept))?;
    Ok(Value::Object(members))
}

fn entry_value(alloc: Global, family: Family, entry: &Ace) -> Result<Value, NoMemory>
    ensures { IfOk result (λ value. view value ≡ entry_data family entry.now) }
{
    let mut members = Map::new(alloc);
    put_name(&mut members, alloc, &entry.name)?;
    let matches = matches_map(alloc, family, entry)?;
    put_object(&mut members, alloc, "matches", matches)?;
    let actions = actions_value(alloc, entry.accept)?;
    put_member(&mut members, alloc, "actions", actions)?;
    Ok(Value::Object(members))
}

fn entry_values(alloc: Global, family: Family, entries: &[Ace]) -> Result<Vec<Value>, NoMemory>
    ensures { IfOk result (λ values. map view values.items ≡ map (entry_data family) entries.now) }
{
    let mut values = Vec::new(alloc);
    for entry in entries {
        match entry_value(alloc, family, entry) {
            Ok(value) => values.push(value)?,
            Err(fault) => return Err(fault),
        }
    }
    Ok(values)
}

fn aces_value(alloc: Global, family: Family, entries: &[Ace]) -> Result<Value, NoMemory>
    ensures { IfOk result (λ value. view value ≡ aces_data family entries.now) }
{
    let values = entry_values(alloc, family, entries)?;
    let mut members = Map::new(alloc);
    put(&mut members, alloc, "ace", Value::Array(values))?;
    Ok(Value::Object(members))
}

fn family_text(family: Family) -> &'static str
    ensures { result.now ≡ family_text family }
{
    match family {
        Family::V4 => "ipv4-acl-type",
        Family::V6 => "ipv6-acl-type",
    }
}

fn activation_text(activation: Activation) -> &'static str
    ensures { result.now ≡ activation_text activation }
{
    match activation {
        Activation::WhenMitigating => "activate-when-mitigating",
        Activation::Immediate => "immediate",
        Activation::Deactivate => "deactivate",
    }
}

/// Puts the members of an access list.
fn put_list(members: &mut Map<String, Value>, alloc: Global, acl: &Acl) -> Result<(), NoMemory>
    ensures { OnOk result (members_view members.new.entries ≡ put_list acl.now (members_view members.old.entries)) }
{
    put_text(members, alloc, "type", family_text(acl.family))?;
    put_name(members, alloc, &acl.name)?;
    put_text(
        members,
        alloc,
        "activation-type",
        activation_text(acl.activation),
    )?;
    let aces = aces_value(alloc, acl.family, acl.aces.items())?;
    put_member(members, alloc, "aces", aces)
}

/// An access list as JSON: the members that say something, and always its activation.
pub fn acl_value(alloc: Global, acl: &Acl) -> Result<Value, NoMemory>
    ensures { IfOk result (λ value. view value ≡ acl_data acl.now) }
{
    let mut members = Map::new(alloc);
    put_list(&mut members, alloc, acl)?;
    Ok(Value::Object(members))
}
