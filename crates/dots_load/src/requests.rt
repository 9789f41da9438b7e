//! The datagrams of requests.

ghost use Rattle.std.specs.Prelude.{◌≡◌, ◌≢◌, ◌≤◌, map, length, IfOk};
ghost use Rattle.coap_message.specs.Message.{spelling};
ghost use Rattle.coap_message.specs.Parts.{IsValid, message_of, parts_of, values_of};
ghost use Rattle.coap_message.specs.CodeValues.{option_value};
ghost use Rattle.dots_load.specs.Requests.{AreShort, request, segment, get_all, delete_one, put_one};

use crate::bodies::scope_body;
use coap_message::codes::{DELETE, GET, PUT};
use coap_message::option_numbers::{CONTENT_FORMAT, URI_PATH};
use coap_message::{DOTS_CBOR, Kind, OptionPart, OptionRow, Parts, encode_into, encoded_len};
use dots_lists::{Bytes, NoMemory};
use std::alloc::Global;

/// GET of all mitigations of a peer's client.
pub fn get_all(alloc: Global, id: u16, peer: u32) -> Result<Bytes, NoMemory>
    ensures spells { IfOk result (λ bytes. bytes ≡ spelling (get_all id peer)) }
    ensures short { IfOk result (λ bytes. length bytes ≤ 4096) }
{
    let cuid = format!(in alloc; "cuid=c{peer}")?;
    let rows = [
        segment(b".well-known"),
        segment(b"dots"),
        segment(b"mitigate"),
        segment(cuid.as_bytes()),
    ];
    spelled(alloc, GET, id, &rows, &[])
}

/// DELETE of one of them.
pub fn delete_one(alloc: Global, id: u16, peer: u32, mid: u32) -> Result<Bytes, NoMemory>
    ensures spells { IfOk result (λ bytes. bytes ≡ spelling (delete_one id peer mid)) }
    ensures short { IfOk result (λ bytes. length bytes ≤ 4096) }
{
    let cuid = format!(in alloc; "cuid=c{peer}")?;
    let mid = format!(in alloc; "mid={mid}")?;
    let rows = [
        segment(b".well-known"),
        segment(b"dots"),
        segment(b"mitigate"),
        segment(cuid.as_bytes()),
        segment(mid.as_bytes()),
    ];
    spelled(alloc, DELETE, id, &rows, &[])
}

/// PUT of one with a body.
pub fn put_one(alloc: Global, id: u16, peer: u32, mid: u32, body: &[u8]) -> Result<Bytes, NoMemory>
    requires { length body.now ≤ 64 }
    ensures spells { IfOk result (λ bytes. bytes ≡ spelling (put_one id peer mid body.now)) }
    ensures short { IfOk result (λ bytes. length bytes ≤ 4096) }
{
    let cuid = format!(in alloc; "cuid=c{peer}")?;
    let mid = format!(in alloc; "mid={mid}")?;
    let rows = [
        segment(b".well-known"),
        segment(b"dots"),
        segment(b"mitigate"),
        segment(cuid.as_bytes()),
        segment(mid.as_bytes()),
        OptionRow {
            number: CONTENT_FORMAT,
            value: &[(DOTS_CBOR / 256) as u8, (DOTS_CBOR % 256) as u8],
        },
    ];
    spelled(alloc, PUT, id, &rows, body)
}

/// A Uri-Path.
fn segment(value: &[u8]) -> OptionRow<'_>
    ensures { option_value result ≡ segment value.now }
{
    OptionRow {
        number: URI_PATH,
        value,
    }
}

/// The bytes of a non-confirmable request without a token.
fn spelled(
    alloc: Global,
    code: u8,
    id: u16,
    rows: &[OptionRow<'_>],
    payload: &[u8],
) -> Result<Bytes, NoMemory>
    requires code { code ≢ 0 }
    requires options { AreShort (map option_value rows.now) }
    requires payload { length payload.now ≤ 64 }
    ensures spells { IfOk result (λ bytes. bytes ≡ spelling (request code id (map option_value rows.now) payload.now)) }
    ensures short { IfOk result (λ bytes. length bytes ≤ 4096) }
{
    let (options, values) = gathered(alloc, rows)?;
    let parts = Parts {
        kind: Kind::Non,
        code,
        id,
        token: &[],
        options: &options,
        values: &values,
        payload,
    };
    written(alloc, &parts)
}

/// What the options are written from, and their values one after the other.
fn gathered(alloc: Global, rows: &[OptionRow<'_>]) -> Result<(Vec<OptionPart>, Vec<u8>), NoMemory>
    ensures { IfOk result (λ made. (made.0.items ≡ parts_of (map option_value rows.now)) × (made.1.items ≡ values_of (map option_value rows.now))) }
{
    let mut options = Vec::new(alloc);
    let mut values = Vec::new(alloc);
    for row in rows {
        options.push(OptionPart {
            number: row.number,
            length: row.value.len(),
        })?;
        values.extend_from_slice(row.value)?;
    }
    Ok((options, values))
}

/// The bytes of a message.
fn written(alloc: Global, parts: &Parts<'_>) -> Result<Bytes, NoMemory>
    requires { IsValid parts.now }
    ensures { IfOk result (λ bytes. bytes ≡ spelling (message_of parts.now)) }
{
    let mut bytes = vec![in alloc; 0; encoded_len(parts)]?;
    encode_into(parts, &mut bytes);
    Ok(Bytes::from_vec(bytes))
}
