//! The lines of a message, and of a fault.

ghost use Rattle.std.specs.Prelude.{◌≡◌, ◌++◌, codes, decimal, flat_map, OnOk, OkIff};
ghost use Rattle.coap_message.specs.FaultText.{fault_place};
ghost use Rattle.coap_message.specs.MessageText.{kind_name, code_text, head_line, option_line, payload_line, message_text, fault_name, fault_line};

use crate::fault::CoapFault;
use crate::kind::Kind;
use crate::message::Message;
use crate::option::OptionRow;
use crate::options::Options;
use crate::pieces::{add, hex_or_dash};
use dots_lists::NoMemory;
use std::alloc::Global;

/// Adds the lines of a message.
pub fn add_message(alloc: Global, text: &mut Vec<u8>, message: &Message<'_>) -> Result<(), NoMemory>
    ensures { OnOk result (text.new.items ≡ text.old.items ++ message_text message.now) }
{
    add_head(alloc, text, message)?;
    add_options(alloc, text, &mut message.options())?;
    add_payload(alloc, text, message.payload())
}

/// `KIND C.DD ID TOKEN`
fn add_head(alloc: Global, text: &mut Vec<u8>, message: &Message<'_>) -> Result<(), NoMemory>
    ensures { OnOk result (text.new.items ≡ text.old.items ++ head_line message.now) }
{
    let token = hex_or_dash(alloc, message.token())?;
    let mut identifier = itoa::Buffer::new();
    let pieces = [
        kind_name(message.kind()),
        b" ".as_slice(),
        &code_text(message.code()),
        b" ".as_slice(),
        identifier.format(message.id()).as_bytes(),
        b" ".as_slice(),
        token.as_bytes(),
        b"\n".as_slice(),
    ];
    add(text, &pieces)
}

fn kind_name(kind: Kind) -> &'static [u8]
    ensures { result.now ≡ kind_name kind }
{
    match kind {
        Kind::Con => b"con",
        Kind::Non => b"non",
        Kind::Ack => b"ack",
        Kind::Rst => b"rst",
    }
}

/// A code as the standard writes it: its class, a dot, and its detail in two digits (RFC 7252, section 3).
pub fn code_text(code: u8) -> [u8; 4]
    ensures { result ≡ code_text code }
{
    let detail = code % 32;
    [
        b'0' + code / 32,
        b'.',
        b'0' + detail / 10,
        b'0' + detail % 10,
    ]
}

/// The lines of the options that are left.
fn add_options(alloc: Global, text: &mut Vec<u8>, options: &mut Options<'_>) -> Result<(), NoMemory>
    ensures { OnOk result (text.new.items ≡ text.old.items ++ flat_map option_line options.old) }
{
    while let Some(row) = options.next() {
        add_option(alloc, text, &row)?;
    }
    Ok(())
}

/// `option N HEX`
fn add_option(alloc: Global, text: &mut Vec<u8>, row: &OptionRow<'_>) -> Result<(), NoMemory>
    ensures { OnOk result (text.new.items ≡ text.old.items
        ++ option_line (record { number = row.now.number; value = row.now.value.now })) }
{
    let value = hex_or_dash(alloc, row.value)?;
    let mut number = itoa::Buffer::new();
    let pieces = [
        b"option ".as_slice(),
        number.format(row.number).as_bytes(),
        b" ".as_slice(),
        value.as_bytes(),
        b"\n".as_slice(),
    ];
    add(text, &pieces)
}

/// `payload HEX`, where there is one.
fn add_payload(alloc: Global, text: &mut Vec<u8>, payload: &[u8]) -> Result<(), NoMemory>
    ensures { OnOk result (text.new.items ≡ text.old.items ++ payload_line payload.now) }
{
    if payload.is_empty() {
        return Ok(());
    }
    let digits = hex_or_dash(alloc, payload)?;
    let pieces = [b"payload ".as_slice(), digits.as_bytes(), b"\n".as_slice()];
    add(text, &pieces)
}

/// Adds `fault NAME AT`.
pub fn add_fault(text: &mut Vec<u8>, fault: CoapFault) -> Result<(), NoMemory>
    ensures { OnOk result (text.new.items ≡ text.old.items ++ fault_line fault) }
{
    let (name, at) = fault_name(fault);
    let mut place = itoa::Buffer::new();
    let pieces = [
        b"fault ".as_slice(),
        name,
        b" ".as_slice(),
        place.format(at).as_bytes(),
        b"\n".as_slice(),
    ];
    add(text, &pieces)
}

/// The name of a fault and its place.
fn fault_name(fault: CoapFault) -> (&'static [u8], usize)
    ensures name { result.0.now ≡ fault_name fault }
    ensures place { result.1 ≡ fault_place fault }
{
    match fault {
        CoapFault::Short { at } => (b"short", at),
        CoapFault::Version { at } => (b"version", at),
        CoapFault::TokenLength { at } => (b"token-length", at),
        CoapFault::EmptyWithMore { at } => (b"empty-with-more", at),
        CoapFault::ReservedNibble { at } => (b"reserved-nibble", at),
        CoapFault::NumberTooLarge { at } => (b"number-too-large", at),
        CoapFault::EmptyPayload { at } => (b"empty-payload", at),
    }
}
