//! From bytes to a value, in one pass over the tokens.

ghost use Rattle.std.specs.Prelude.{◌≡◌, ◌≢◌, ◌<◌, ◌≤◌, ◌∷◌, length, None, Some, IfOk, OnOk, Err, IsUtf8, option_map, string_bytes};
ghost use Rattle.json.specs.Json.{value};
ghost use Rattle.json.specs.Token.Token.{begin_array, begin_object};
ghost use Rattle.serde_json.specs.Data.{string, number, put};
ghost use Rattle.serde_json.specs.Read.{of_json, number_of, converted, read as value_of};
ghost use Rattle.serde_json.specs.View.{view, members_view};

use crate::json_fault::JsonFault;
use crate::number::number_in;
use json::{Reader, Scratch, Token};
use serde_json::{Map, Value};
use std::alloc::Global;

/// How deep a value may be.
const MAX_DEPTH: usize = 127;

/// What reading needs beside the value: one is kept and lent to each read, and grows to the longest text.
#[derive(Drop)]
pub struct JsonRoom {
    scratch: Scratch,
}

impl JsonRoom {
    /// A room that has read nothing. Takes no memory.
    pub fn new(alloc: Global) -> Self {
        JsonRoom {
            scratch: Scratch::new(alloc),
        }
    }
}

/// The value that the bytes are as JSON (RFC 8259), which is UTF-8.
pub fn read_json(alloc: Global, room: &mut JsonRoom, bytes: &[u8]) -> Result<Value, JsonFault>
    ensures found { IfOk result (λ value. IsUtf8 bytes.now × (value_of bytes.now ≡ Some (view value))) }
    ensures refused { result ≡ Err JsonFault.NotJson → IsUtf8 bytes.now → value_of bytes.now ≡ None }
{
    match simdutf8::basic::from_utf8(bytes) {
        Ok(text) => read_text(alloc, text, &mut room.scratch),
        Err(_) => Err(JsonFault::NotJson),
    }
}

fn read_text(alloc: Global, text: &str, scratch: &mut Scratch) -> Result<Value, JsonFault>
    ensures found { IfOk result (λ value. value_of text.now ≡ Some (view value)) }
    ensures refused { result ≡ Err JsonFault.NotJson → value_of text.now ≡ None }
{
    let Ok(mut reader) = Reader::new(text, scratch) else {
        return Err(JsonFault::NoMemory);
    };
    let value = read(alloc, &mut reader, MAX_DEPTH)?;
    if reader.next().is_some() {
        return Err(JsonFault::NotJson);
    }
    Ok(value)
}

/// A text as a value.
#[inline(always)]
fn text_value(alloc: Global, text: &str) -> Result<Value, JsonFault>
    ensures ok { IfOk result (λ v. view v ≡ string text.now) }
    ensures err { result ≢ Err JsonFault.NotJson }
{
    Ok(Value::String(String::from_str(alloc, text)?))
}

/// A number as a value, where it is in range.
#[inline(always)]
fn number_value(text: &str) -> Result<Value, JsonFault>
    ensures ok { IfOk result (λ v. option_map number (number_of text.now) ≡ Some (view v)) }
    ensures err { result ≡ Err JsonFault.NotJson → number_of text.now ≡ None }
{
    match number_in(text) {
        Some(number) => Ok(Value::Number(number)),
        None => Err(JsonFault::NotJson),
    }
}

/// The value that comes next.
#[cycle(read)]
#[inline(always)]
fn read(alloc: Global, reader: &mut Reader<'_>, depth: usize) -> Result<Value, JsonFault>
    ensures ok { IfOk result
        (λ v. converted of_json (value depth reader.old) ≡ Some (view v, reader.new)) }
    ensures shorter { OnOk result (length reader.new < length reader.old) }
    ensures err { result ≡ Err JsonFault.NotJson → converted of_json (value depth reader.old) ≡ None }
{
    let Some(token) = reader.next() else {
        return Err(JsonFault::NotJson);
    };
    match token {
        Token::String(text) => text_value(alloc, text),
        Token::Number(text) => number_value(text),
        Token::Bool(b) => Ok(Value::Bool(b)),
        Token::Null => Ok(Value::Null),
        Token::BeginArray => read_array(alloc, reader, depth),
        Token::BeginObject => read_object(alloc, reader, depth),
        Token::EndObject | Token::EndArray | Token::Key(_) | Token::Bad => Err(JsonFault::NotJson),
    }
}

/// The array that has begun, up to its end.
#[cycle(read)]
#[inline(never)]
fn read_array(alloc: Global, reader: &mut Reader<'_>, depth: usize) -> Result<Value, JsonFault>
    ensures ok { IfOk result
        (λ v. converted of_json (value depth (begin_array ∷ reader.old)) ≡ Some (view v, reader.new)) }
    ensures shorter { OnOk result (length reader.new ≤ length reader.old) }
    ensures err { result ≡ Err JsonFault.NotJson
        → converted of_json (value depth (begin_array ∷ reader.old)) ≡ None }
{
    if depth == 0 {
        return Err(JsonFault::NotJson);
    }
    let mut found = Vec::new(alloc);
    'items: while !reader.take_end_array() {
        let item = read(alloc, reader, depth - 1)?;
        found.push(item)?;
    }
    Ok(Value::Array(found))
}

/// The object that has begun, up to its end. Of the members with one name the last counts.
#[cycle(read)]
#[inline(never)]
fn read_object(alloc: Global, reader: &mut Reader<'_>, depth: usize) -> Result<Value, JsonFault>
    ensures ok { IfOk result
        (λ v. converted of_json (value depth (begin_object ∷ reader.old)) ≡ Some (view v, reader.new)) }
    ensures shorter { OnOk result (length reader.new ≤ length reader.old) }
    ensures err { result ≡ Err JsonFault.NotJson
        → converted of_json (value depth (begin_object ∷ reader.old)) ≡ None }
{
    if depth == 0 {
        return Err(JsonFault::NotJson);
    }
    let mut found = Map::new(alloc);
    'members: while let Some(name) = reader.next_key()? {
        let key = String::from_str(alloc, name)?;
        let member = read(alloc, reader, depth - 1)?;
        put(&mut found, key, member)?;
    }
    Ok(Value::Object(found))
}

/// Puts a member at its name, in place of one that has the name.
#[inline(always)]
fn put(found: &mut Map<String, Value>, name: String, member: Value) -> Result<(), JsonFault>
    ensures ok { OnOk result (members_view found.new.entries
        ≡ put (string_bytes name) (view member) (members_view found.old.entries)) }
    ensures err { result ≢ Err JsonFault.NotJson }
{
    drop(found.insert(name, member)?);
    Ok(())
}
