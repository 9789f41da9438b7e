//! Values of JSON, and members that are put into an object.

ghost use Rattle.std.specs.Prelude.{◌≡◌, map, option_map, IfOk, OnOk, IsUtf8, codes};
ghost use Rattle.serde_json.specs.Data.{string, put};
ghost use Rattle.serde_json.specs.View.{view, members_view};
ghost use Rattle.list_json.specs.AliasPrinting.{number_data, prefix_data};
ghost use Rattle.list_json.specs.Putting.{put_items, put_value, put_object};

use dots_lists::{Name, NoMemory};
use ip_scope::{MAX_PREFIX_TEXT, Prefix, write_prefix};
use serde_json::{Map, Value, put};
use std::alloc::Global;
use std::str;

/// A text, whose bytes are UTF-8.
fn text_value(alloc: Global, text: &[u8]) -> Result<Value, NoMemory>
    requires { IsUtf8 text.now }
    ensures { IfOk result (λ value. view value ≡ string text.now) }
{
    let text = unsafe { str::from_utf8_unchecked(text) };
    let value = Value::try_from_str(alloc, text)?;
    Ok(value)
}

/// A name as a text.
pub fn name_value(alloc: Global, name: &Name) -> Result<Value, NoMemory>
    ensures { IfOk result (λ value. view value ≡ string name.now) }
{
    text_value(alloc, name.bytes())
}

/// A prefix as its canonical text.
pub fn prefix_value(alloc: Global, prefix: &Prefix) -> Result<Value, NoMemory>
    ensures { IfOk result (λ value. view value ≡ prefix_data prefix.now) }
{
    let mut text = [0; MAX_PREFIX_TEXT];
    let len = write_prefix(prefix, &mut text);
    text_value(alloc, &text[..len])
}

/// A number. Takes no memory.
pub fn number_value(number: u16) -> Value
    ensures { view result ≡ number_data number }
{
    Value::from(number)
}

/// Puts a value at this name.
pub fn put_member(
    members: &mut Map<String, Value>,
    alloc: Global,
    name: &str,
    value: Value,
) -> Result<(), NoMemory>
    ensures { OnOk result (members_view members.new.entries
        ≡ put name.now (view value) (members_view members.old.entries)) }
{
    match put(members, alloc, name, value) {
        Ok(()) => Ok(()),
        Err(_) => Err(NoMemory),
    }
}

/// Puts a text at this name.
pub fn put_text(
    members: &mut Map<String, Value>,
    alloc: Global,
    name: &str,
    text: &str,
) -> Result<(), NoMemory>
    ensures { OnOk result (members_view members.new.entries
        ≡ put name.now (string text.now) (members_view members.old.entries)) }
{
    let value = Value::try_from_str(alloc, text)?;
    put_member(members, alloc, name, value)
}

/// Puts a name at `name`.
pub fn put_name(
    members: &mut Map<String, Value>,
    alloc: Global,
    name: &Name,
) -> Result<(), NoMemory>
    ensures { OnOk result (members_view members.new.entries
        ≡ put (codes "name") (string name.now) (members_view members.old.entries)) }
{
    let value = name_value(alloc, name)?;
    put_member(members, alloc, "name", value)
}

/// Puts an array at this name, where it has an item.
pub fn put_items(
    members: &mut Map<String, Value>,
    alloc: Global,
    name: &str,
    items: Vec<Value>,
) -> Result<(), NoMemory>
    ensures { OnOk result (members_view members.new.entries
        ≡ put_items name.now (map view items.items) (members_view members.old.entries)) }
{
    if items.is_empty() {
        return Ok(());
    }
    put_member(members, alloc, name, Value::Array(items))
}

/// Puts a value at this name, where there is one.
pub fn put_value(
    members: &mut Map<String, Value>,
    alloc: Global,
    name: &str,
    value: Option<Value>,
) -> Result<(), NoMemory>
    ensures { OnOk result (members_view members.new.entries
        ≡ put_value name.now (option_map view value) (members_view members.old.entries)) }
{
    match value {
        Some(value) => put_member(members, alloc, name, value),
        None => Ok(()),
    }
}

/// Puts an object at this name, where it has a member.
pub fn put_object(
    members: &mut Map<String, Value>,
    alloc: Global,
    name: &str,
    object: Map<String, Value>,
) -> Result<(), NoMemory>
    ensures { OnOk result (members_view members.new.entries
        ≡ put_object name.now (members_view object.entries) (members_view members.old.entries)) }
{
    if object.is_empty() {
        return Ok(());
    }
    put_member(members, alloc, name, Value::Object(object))
}
