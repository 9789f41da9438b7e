//! Names, prefixes and numbers in JSON (RFC 7951, section 6; RFC 6991, sections 2 and 4).

ghost use Rattle.std.specs.Prelude.{◌≡◌, codes, option_map};
ghost use Rattle.serde_json.specs.Find.{get};
ghost use Rattle.serde_json.specs.View.{view, items_view};
ghost use Rattle.ip_scope.specs.PrefixReader.{prefix_in};
ghost use Rattle.list_json.specs.declared.fault.Member.TheVariants as the;
ghost use Rattle.list_json.specs.Steps.{Gives, needed, few_items};
ghost use Rattle.list_json.specs.Values.{name_of, prefix_of, protocol_of, port_of};

use crate::fault::{ListFault, Member};
use dots_lists::Name;
use ip_scope::{Prefix, parse_prefix};
use serde_json::Value;
use std::alloc::Global;

/// A text that is a name, as the value of this member.
pub fn name_of(alloc: Global, member: Member, value: &Value) -> Result<Name, ListFault>
    ensures { Gives result (name_of member (view value.now)) }
{
    let Some(text) = value.as_str() else {
        return Err(ListFault::Invalid(member));
    };
    let Some(name) = Name::new(alloc, text.as_bytes())? else {
        return Err(ListFault::Invalid(member));
    };
    Ok(name)
}

/// The member `name`, which an object has to have.
pub fn own_name(alloc: Global, object: &Value) -> Result<Name, ListFault>
    ensures { Gives result (needed the.Name (name_of the.Name) (get (codes "name") (view object.now))) }
{
    let Some(value) = object.get("name") else {
        return Err(ListFault::Missing(Member::Name));
    };
    name_of(alloc, Member::Name, value)
}

/// The prefix that a text writes.
fn prefix_in(text: &[u8]) -> Option<Prefix>
    ensures { result ≡ prefix_in text.now }
{
    parse_prefix(text).ok()
}

/// The prefix that a text writes, as the value of this member.
pub fn prefix_of(member: Member, value: &Value) -> Result<Prefix, ListFault>
    ensures { result ≡ prefix_of member (view value.now) }
{
    let Some(text) = value.as_str() else {
        return Err(ListFault::Invalid(member));
    };
    prefix_in(text.as_bytes()).ok_or(ListFault::Invalid(member))
}

/// A protocol number, as the value of this member.
pub fn protocol_of(member: Member, value: &Value) -> Result<u8, ListFault>
    ensures { result ≡ protocol_of member (view value.now) }
{
    let Some(number) = value.as_u64() else {
        return Err(ListFault::Invalid(member));
    };
    if number > u64::from(u8::MAX) {
        return Err(ListFault::Invalid(member));
    }
    Ok(number as u8)
}

/// A port, as the value of this member.
pub fn port_of(member: Member, value: &Value) -> Result<u16, ListFault>
    ensures { result ≡ port_of member (view value.now) }
{
    let Some(number) = value.as_u64() else {
        return Err(ListFault::Invalid(member));
    };
    if number > u64::from(u16::MAX) {
        return Err(ListFault::Invalid(member));
    }
    Ok(number as u16)
}

/// The items of an array of at most so many.
pub fn few_items(value: &Value, most: usize) -> Option<&[Value]>
    ensures { option_map (λ items. items_view items.now) result ≡ few_items most (view value.now) }
{
    let Some(items) = value.as_array() else {
        return None;
    };
    if items.len() > most {
        return None;
    }
    Some(items.as_slice())
}
