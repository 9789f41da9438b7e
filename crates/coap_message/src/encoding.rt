ghost use Rattle.std.specs.Prelude.{◌≡◌, ◌≤◌, ◌+◌, ◌++◌, ◌<◌, ◌^◌, ℕ, length, drop, sum_by};
ghost use Rattle.coap_message.specs.Message.{header, kind_number, options_bytes, payload_bytes, spelling};
ghost use Rattle.coap_message.specs.Parts.{AreParts, IsValid, message_of, options_of};
ghost use Rattle.coap_message.specs.Writing.{put_at, options_size};

use crate::PAYLOAD_MARKER;
use crate::kind::Kind;
use crate::option::OptionRow;
use crate::parts::{OptionPart, Parts};
use crate::writing::{extension_len, put, put_option};

/// How many bytes the options have, and how many more there are.
fn options_len(options: &[OptionPart], more: usize) -> usize
    requires are { AreParts 0 options.now }
    requires fits { more + options_size 0 options.now < 2 ^ 64 }
    ensures { result ≡ more + options_size 0 options.now }
{
    let mut total = more;
    let mut previous = 0;
    let mut rest = options;
    while let Some((part, behind)) = rest.split_first() {
        let delta = (part.number - previous) as usize;
        total += 1 + extension_len(delta) + extension_len(part.length) + part.length;
        previous = part.number;
        rest = behind;
    }
    total
}

/// How many bytes a payload has with its marker.
fn payload_len(payload: &[u8]) -> usize
    ensures { result ≡ length (payload_bytes payload.now) }
{
    if payload.is_empty() {
        return 0;
    }
    1 + payload.len()
}

/// How many bytes the message of these parts has.
pub fn encoded_len(parts: &Parts) -> usize
    requires { IsValid parts.now }
    ensures { result ≡ length (spelling (message_of parts.now)) }
{
    options_len(
        parts.options,
        4 + parts.token.len() + payload_len(parts.payload),
    )
}

/// The two bits of the type.
fn kind_bits(kind: Kind) -> u8
    ensures value { result ≡ kind_number kind }
    ensures bound { result ≤ 3 }
{
    match kind {
        Kind::Con => 0,
        Kind::Non => 1,
        Kind::Ack => 2,
        Kind::Rst => 3,
    }
}

fn put_header(into: &mut [u8], parts: &Parts) -> usize
    requires token { length parts.now.token.now ≤ 8 }
    requires room { 4 + length parts.now.token.now ≤ length into.old }
    ensures behind { result ≡ 4 + length parts.now.token.now }
    ensures written { into.new ≡ put_at 0 (header parts.now.kind parts.now.code parts.now.id parts.now.token.now) into.old }
{
    let first = 64 + 16 * kind_bits(parts.kind) + parts.token.len() as u8;
    let [high, low] = parts.id.to_be_bytes();
    let behind = put(into, 0, &[first, parts.code, high, low]);
    put(into, behind, parts.token)
}

/// Writes the options, each with its value from the front of the values.
fn put_options(into: &mut [u8], at: usize, options: &[OptionPart], values: &[u8]) -> usize
    requires are { AreParts 0 options.now }
    requires values { sum_by (λ part. part.length) options.now ≡ length values.now }
    requires room { at + length (options_bytes 0 (options_of options.now values.now)) ≤ length into.old }
    ensures behind { result ≡ at + length (options_bytes 0 (options_of options.now values.now)) }
    ensures written { into.new ≡ put_at at (options_bytes 0 (options_of options.now values.now)) into.old }
{
    let mut at = at;
    let mut previous = 0;
    let mut values = values;
    let mut rest = options;
    while let Some((part, behind)) = rest.split_first() {
        let (value, others) = values.split_at(part.length);
        let row = OptionRow {
            number: part.number,
            value,
        };
        at = put_option(into, at, previous, &row);
        previous = part.number;
        values = others;
        rest = behind;
    }
    at
}

fn put_payload(into: &mut [u8], at: usize, payload: &[u8]) -> usize
    requires { at + length (payload_bytes payload.now) ≤ length into.old }
    ensures behind { result ≡ at + length (payload_bytes payload.now) }
    ensures written { into.new ≡ put_at at (payload_bytes payload.now) into.old }
{
    if payload.is_empty() {
        return put(into, at, payload);
    }
    let behind = put(into, at, &[PAYLOAD_MARKER]);
    put(into, behind, payload)
}

/// Writes the message of these parts in front of the bytes, and answers how many bytes it has.
pub fn encode_into(parts: &Parts, into: &mut [u8]) -> usize
    requires valid { IsValid parts.now }
    requires room { length (spelling (message_of parts.now)) ≤ length into.old }
    ensures len { result ≡ length (spelling (message_of parts.now)) }
    // The other bytes are unchanged.
    ensures written { into.new ≡ spelling (message_of parts.now) ++ drop result into.old }
{
    let behind = put_header(into, parts);
    let behind = put_options(into, behind, parts.options, parts.values);
    put_payload(into, behind, parts.payload)
}
