//! The configuration of a session (RFC 9132, section 4.5.1), and heartbeats (section 4.7).

ghost use Rattle.std.specs.Prelude.{◌≡◌, ◌++◌, ◌<◌, ◌^◌, IfOk, OnOk};
ghost use Rattle.cbor_profile.specs.Valid.{IsValid};
ghost use Rattle.cbor_profile.specs.ItemTrees.{tree_of, tree_pairs};
ghost use Rattle.cbor_profile.specs.Within.{IsWithin};
ghost use Rattle.reply_bodies.specs.Sessions.{decimal, number_field, decimal_field, values, configuration, session_tree, beat_tree};

use crate::fields::{number_item, put, put_number, sole};
use crate::keys::{
    ACK_RANDOM_FACTOR, ACK_TIMEOUT, CURRENT_VALUE, CURRENT_VALUE_DECIMAL, HEARTBEAT,
    HEARTBEAT_INTERVAL, IDLE_CONFIG, MAX_RETRANSMIT, MISSING_HB_ALLOWED, MITIGATING_CONFIG,
    PEER_HB_STATUS, PROBING_RATE, SID, SIGNAL_CONFIG,
};
use cbor_profile::{Item, ItemList, PairList};
use dots_lists::NoMemory;
use std::alloc::Global;

/// The tag of a decimal fraction (RFC 8949, section 3.4.4).
pub const DECIMAL_FRACTION: u64 = 4;

/// A configuration that a peer has.
#[derive(Clone, Copy)]
pub struct SessionView {
    /// The number under which the peer set it; None where it has the default.
    pub sid: Option<u32>,
    /// While a mitigation is active.
    pub mitigating: Current,
    /// While none is.
    pub idle: Current,
}

/// The values for one state of a session.
#[derive(Clone, Copy)]
pub struct Current {
    /// `heartbeat-interval`, in seconds.
    pub interval: u64,
    /// `missing-hb-allowed`.
    pub missing: u64,
    /// `max-retransmit`.
    pub retransmit: u64,
    /// `ack-timeout`, in hundredths of a second.
    pub timeout: u64,
    /// `ack-random-factor`, in hundredths.
    pub factor: u64,
    /// `probing-rate`, in bytes a second.
    pub rate: u64,
}

/// Hundredths, as a decimal fraction: an array of the exponent -2 and the number.
fn decimal(alloc: Global, hundredths: u64) -> Result<Item, NoMemory>
    ensures { IfOk result (λ item. tree_of item ≡ decimal hundredths) }
{
    let mut parts = ItemList::new(alloc);
    parts.push(Item::Negative(1))?;
    parts.push(number_item(hundredths))?;
    let parts = Box::new(alloc, Item::Array(parts))?;
    Ok(Item::Tag(DECIMAL_FRACTION, parts))
}

/// Puts a current value under its key.
fn put_value(alloc: Global, fields: &mut PairList, key: u8, number: u64) -> Result<(), NoMemory>
    ensures put { OnOk result (tree_pairs fields.new ≡ tree_pairs fields.old ++ number_field key number) }
    ensures fits { number < 2 ^ 64 }
{
    let value = sole(alloc, CURRENT_VALUE, number_item(number))?;
    put(fields, key, value)
}

/// Puts a current value that is a decimal under its key.
fn put_decimal(
    alloc: Global,
    fields: &mut PairList,
    key: u8,
    hundredths: u64,
) -> Result<(), NoMemory>
    ensures put { OnOk result (tree_pairs fields.new ≡ tree_pairs fields.old ++ decimal_field key hundredths) }
    ensures fits { hundredths < 2 ^ 64 }
{
    let value = sole(alloc, CURRENT_VALUE_DECIMAL, decimal(alloc, hundredths)?)?;
    put(fields, key, value)
}

/// The values for one state.
fn values(alloc: Global, current: &Current) -> Result<Item, NoMemory>
    ensures is { IfOk result (λ item. tree_of item ≡ values current.now) }
    ensures within { OnOk result (IsWithin 5 (values current.now)) }
{
    let Current {
        interval,
        missing,
        retransmit,
        timeout,
        factor,
        rate,
    } = *current;
    let mut fields = PairList::new(alloc);
    put_value(alloc, &mut fields, HEARTBEAT_INTERVAL, interval)?;
    put_value(alloc, &mut fields, MISSING_HB_ALLOWED, missing)?;
    put_value(alloc, &mut fields, MAX_RETRANSMIT, retransmit)?;
    put_decimal(alloc, &mut fields, ACK_TIMEOUT, timeout)?;
    put_decimal(alloc, &mut fields, ACK_RANDOM_FACTOR, factor)?;
    put_value(alloc, &mut fields, PROBING_RATE, rate)?;
    Ok(Item::Map(fields))
}

/// What stands under `signal-config`.
fn configuration(alloc: Global, view: &SessionView) -> Result<Item, NoMemory>
    ensures is { IfOk result (λ item. tree_of item ≡ configuration view.now) }
    ensures within { OnOk result (IsWithin 6 (configuration view.now)) }
{
    let mitigating = values(alloc, &view.mitigating)?;
    let idle = values(alloc, &view.idle)?;
    let mut fields = PairList::new(alloc);
    put_number(&mut fields, SID, view.sid)?;
    put(&mut fields, MITIGATING_CONFIG, mitigating)?;
    put(&mut fields, IDLE_CONFIG, idle)?;
    Ok(Item::Map(fields))
}

/// The body with a configuration.
pub fn session_item(alloc: Global, view: &SessionView) -> Result<Item, NoMemory>
    ensures is { IfOk result (λ item. tree_of item ≡ session_tree view.now) }
    ensures valid { OnOk result (IsValid (session_tree view.now)) }
{
    let configuration = configuration(alloc, view)?;
    sole(alloc, SIGNAL_CONFIG, configuration)
}

/// The body of a heartbeat.
pub fn beat_item(alloc: Global, heard: bool) -> Result<Item, NoMemory>
    ensures is { IfOk result (λ item. tree_of item ≡ beat_tree heard) }
    ensures valid { OnOk result (IsValid (beat_tree heard)) }
{
    let status = sole(alloc, PEER_HB_STATUS, Item::Bool(heard))?;
    sole(alloc, HEARTBEAT, status)
}
