//! Decoding the bytes of a case again and again.

ghost use Rattle.std.specs.Prelude.{◌≡◌, ◌+◌, length, IfOk, IfErr};
ghost use Rattle.coap_message.specs.Breaks.{Breaks};
ghost use Rattle.coap_message.specs.Message.{CoapMessage, IsMessage, spelling};
ghost use Rattle.cbor_profile.specs.Tree.{Tree};
ghost use Rattle.cbor_profile.specs.Spelling.{Spells};
ghost use Rattle.cbor_profile.specs.ItemTrees.{tree_of};
ghost use Rattle.dots_bench.specs.Parts.{parts_in};

use crate::bodies::repeat_json;
use crate::fronts::{repeat_cut, repeat_taking};
use anyhow::{Context, Result};
use cbor_profile::{CborFault, Item};
use coap_message::CoapFault;
use std::alloc::Global;

/// More bytes than a stream holds.
const GREATEST_PIECE: usize = 32_768;

/// What decodes the bytes of a case.
#[derive(Clone, Copy)]
pub enum Codec {
    Coap,
    Cbor,
    Http,
    /// Reads a body of the data channel.
    Json,
    /// Takes the bytes of a stream in one piece, and cuts it.
    Whole,
    /// Takes the bytes of a stream one by one, and cuts it behind each.
    Single,
}

impl Codec {
    /// The codec of the case with this name, which is `KIND.NAME`.
    pub fn of_case(name: &str) -> Option<Codec> {
        let (kind, _) = name.split_once('.')?;
        match kind {
            "coap" => Some(Codec::Coap),
            "cbor" => Some(Codec::Cbor),
            "http" => Some(Codec::Http),
            "json" => Some(Codec::Json),
            "whole" => Some(Codec::Whole),
            "single" => Some(Codec::Single),
            _ => None,
        }
    }

    /// Decodes the bytes so often, and adds up what each decode read. The bytes are there twice, and the decodes
    /// take turns, so that a compiler can't let one serve for the next.
    pub fn decode_times(self, alloc: Global, copies: [&[u8]; 2], times: u64) -> Result<u64> {
        match self {
            Codec::Coap => repeat_coap(copies, times).context("decoding CoAP"),
            Codec::Cbor => repeat_cbor(alloc, copies, times).context("decoding CBOR"),
            Codec::Http => repeat_cut(alloc, copies, times).context("cutting HTTP"),
            Codec::Json => repeat_json(alloc, copies, times).context("reading JSON"),
            Codec::Whole => repeat_taking(alloc, copies, GREATEST_PIECE, times).context(
                "taking HTTP",
            ),
            Codec::Single => repeat_taking(alloc, copies, 1, times).context("taking HTTP"),
        }
    }
}

fn repeat_coap(copies: [&[u8]; 2], times: u64) -> Result<u64, CoapFault> {
    let mut sum: u64 = 0;
    for turn in 0..times {
        sum = sum.wrapping_add(decode_coap(copies[(turn % 2) as usize])?);
    }
    Ok(sum)
}

/// The identifier of the message that the bytes spell and the lengths of its token and payload, added up.
fn decode_coap(bytes: &[u8]) -> Result<u64, CoapFault>
    ensures found { IfOk result (λ sum. (m : CoapMessage) × IsMessage m × (bytes.now ≡ spelling m)
        × (sum ≡ m.identifier + length m.token + length m.payload)) }
    ensures breaks { IfErr result (λ fault. Breaks bytes.now fault) }
{
    let message = coap_message::decode(bytes)?;
    let lengths = message.token().len() as u64 + message.payload().len() as u64;
    Ok(u64::from(message.id()) + lengths)
}

fn repeat_cbor(alloc: Global, copies: [&[u8]; 2], times: u64) -> Result<u64, CborFault> {
    let mut sum: u64 = 0;
    for turn in 0..times {
        sum = sum.wrapping_add(decode_cbor(alloc, copies[(turn % 2) as usize])?);
    }
    Ok(sum)
}

/// How many items or pairs stand directly in the item that the bytes spell; 1 for one that holds none.
fn decode_cbor(alloc: Global, bytes: &[u8]) -> Result<u64, CborFault>
    ensures found { IfOk result (λ sum. (tree : Tree) × Spells bytes.now tree 0 × (sum ≡ parts_in tree)) }
{
    let item = cbor_profile::decode(alloc, bytes)?;
    Ok(count_parts(&item) as u64)
}

fn count_parts(item: &Item) -> usize
    ensures { result ≡ parts_in (tree_of item.now) }
{
    match item {
        Item::Array(list) => list.items().len(),
        Item::Map(list) => list.items().len(),
        _ => 1,
    }
}
