//! Aliases as JSON (RFC 8783, section 6.1).

ghost use Rattle.std.specs.Prelude.{◌≡◌, codes, map, IfOk, OnOk};
ghost use Rattle.serde_json.specs.Data.{string, put};
ghost use Rattle.serde_json.specs.View.{view, members_view};
ghost use Rattle.list_json.specs.AliasPrinting.{number_data, prefix_data, range_data, alias_data};
ghost use Rattle.list_json.specs.Putting.{put_asked};

use crate::writing::{name_value, number_value, prefix_value, put_items, put_name};
use acl_lists::{Alias, Asked};
use dots_lists::{Name, NoMemory};
use ip_scope::{PortRange, Prefix};
use serde_json::{Map, Value, put};
use std::alloc::Global;

fn name_values(alloc: Global, names: &[Name]) -> Result<Vec<Value>, NoMemory>
    ensures { IfOk result (λ values. map view values.items ≡ map string names.now) }
{
    let mut values = Vec::new(alloc);
    for name in names {
        match name_value(alloc, name) {
            Ok(value) => values.push(value)?,
            Err(fault) => return Err(fault),
        }
    }
    Ok(values)
}

/// A range of ports, with both ports.
pub fn range_value(alloc: Global, range: &PortRange) -> Result<Value, NoMemory>
    ensures { IfOk result (λ value. view value ≡ range_data range.now) }
{
    let mut members = Map::new(alloc);
    put(
        &mut members,
        alloc,
        "upper-port",
        number_value(range.upper()),
    )?;
    put(
        &mut members,
        alloc,
        "lower-port",
        number_value(range.lower()),
    )?;
    Ok(Value::Object(members))
}

fn range_values(alloc: Global, ranges: &[PortRange]) -> Result<Vec<Value>, NoMemory>
    ensures { IfOk result (λ values. map view values.items ≡ map range_data ranges.now) }
{
    let mut values = Vec::new(alloc);
    for range in ranges {
        match range_value(alloc, range) {
            Ok(value) => values.push(value)?,
            Err(fault) => return Err(fault),
        }
    }
    Ok(values)
}

fn prefix_values(alloc: Global, prefixes: &[Prefix]) -> Result<Vec<Value>, NoMemory>
    ensures { IfOk result (λ values. map view values.items ≡ map prefix_data prefixes.now) }
{
    let mut values = Vec::new(alloc);
    for prefix in prefixes {
        match prefix_value(alloc, prefix) {
            Ok(value) => values.push(value)?,
            Err(fault) => return Err(fault),
        }
    }
    Ok(values)
}

fn protocol_values(alloc: Global, protocols: &[u8]) -> Result<Vec<Value>, NoMemory>
    ensures { IfOk result (λ values. map view values.items ≡ map number_data protocols.now) }
{
    let mut values = Vec::new(alloc);
    for protocol in protocols {
        values.push(number_value(u16::from(*protocol)))?;
    }
    Ok(values)
}

/// Puts what is asked, each array where it has an item.
fn put_asked(members: &mut Map<String, Value>, alloc: Global, asked: &Asked) -> Result<(), NoMemory>
    ensures { OnOk result (members_view members.new.entries ≡ put_asked asked.now (members_view members.old.entries)) }
{
    let protocols = protocol_values(alloc, asked.protocols.items())?;
    put_items(members, alloc, "target-protocol", protocols)?;
    let prefixes = prefix_values(alloc, asked.prefixes.items())?;
    put_items(members, alloc, "target-prefix", prefixes)?;
    let ranges = range_values(alloc, asked.ports.items())?;
    put_items(members, alloc, "target-port-range", ranges)?;
    let names = name_values(alloc, asked.names.items())?;
    put_items(members, alloc, "target-fqdn", names)
}

/// Puts the members of an alias.
fn put_alias(members: &mut Map<String, Value>, alloc: Global, alias: &Alias) -> Result<(), NoMemory>
    ensures { OnOk result (members_view members.new.entries
        ≡ put (codes "name") (string alias.now.name) (put_asked alias.now.asked (members_view members.old.entries))) }
{
    put_asked(members, alloc, &alias.asked)?;
    put_name(members, alloc, &alias.name)
}

/// An alias as JSON: the members that say something.
pub fn alias_value(alloc: Global, alias: &Alias) -> Result<Value, NoMemory>
    ensures { IfOk result (λ value. view value ≡ alias_data alias.now) }
{
    let mut members = Map::new(alloc);
    put_alias(&mut members, alloc, alias)?;
    Ok(Value::Object(members))
}
