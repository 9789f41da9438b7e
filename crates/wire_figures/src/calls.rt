//! What a call is.

ghost use Rattle.std.specs.Prelude.{◌≡◌, slice_get};
ghost use Rattle.dots_host.specs.LoggedCalls.{act_of};
ghost use Rattle.wire_figures.specs.Counting.{is_event, is_datagram, is_stranger, is_opening, is_loss, code_of, has_status, status_in, status_of, time_at};

use crate::tally::STRANGERS;
use dots_host::{Call, Out, Sent, What};
use dots_lists::{is_word, number_in};

/// Whether an event was handed in.
pub fn is_event(call: &Call<'_>) -> bool
    ensures { result ≡ is_event (act_of call.now) }
{
    matches!(call, Call::Took { .. })
}

/// Whether a datagram came.
pub fn is_datagram(call: &Call<'_>) -> bool
    ensures { result ≡ is_datagram (act_of call.now) }
{
    match call {
        Call::Took { what, .. } => match what {
            What::Datagram { .. } => true,
            _ => false,
        },
        _ => false,
    }
}

/// Whether a datagram came from nobody whose address is known.
pub fn is_stranger(call: &Call<'_>) -> bool
    ensures { result ≡ is_stranger (act_of call.now) }
{
    match call {
        Call::Took { what, .. } => match what {
            What::Datagram { from, .. } => *from == STRANGERS,
            _ => false,
        },
        _ => false,
    }
}

/// Whether a peer opened a connection.
pub fn is_opening(call: &Call<'_>) -> bool
    ensures { result ≡ is_opening (act_of call.now) }
{
    match call {
        Call::Took { what, .. } => match what {
            What::Opened { .. } => true,
            _ => false,
        },
        _ => false,
    }
}

/// Whether a send was lost.
pub fn is_loss(call: &Call<'_>) -> bool
    ensures { result ≡ is_loss (act_of call.now) }
{
    match call {
        Call::Gave { sent, .. } => match sent {
            Sent::Lost => true,
            Sent::Done => false,
        },
        _ => false,
    }
}

/// The code of a datagram that was sent.
pub fn code_of(call: &Call<'_>) -> Option<u64>
    ensures { result ≡ code_of (act_of call.now) }
{
    match call {
        Call::Gave { out, .. } => match out {
            Out::To { bytes, .. } => second(bytes),
            Out::Conn { .. } | Out::Close { .. } => None,
        },
        _ => None,
    }
}

/// The second byte.
fn second(bytes: &[u8]) -> Option<u64>
    ensures { result ≡ slice_get bytes.now 1 }
{
    match bytes.get(1) {
        Some(byte) => Some(u64::from(*byte)),
        None => None,
    }
}

/// The status of a reply that was sent on a connection.
pub fn status_of(call: &Call<'_>) -> Option<u64>
    ensures { result ≡ status_of (act_of call.now) }
{
    match call {
        Call::Gave { out, .. } => match out {
            Out::Conn { bytes, .. } => status_in(bytes),
            Out::To { .. } | Out::Close { .. } => None,
        },
        _ => None,
    }
}

/// The status that the bytes begin with.
fn status_in(bytes: &[u8]) -> Option<u64>
    ensures { result ≡ status_in bytes.now }
{
    if !has_status(bytes) {
        return None;
    }
    number_in(100, 599, &bytes[9..12])
}

/// Whether the bytes begin with the version and a space, and three more stand behind them.
fn has_status(bytes: &[u8]) -> bool
    ensures { result ≡ has_status bytes.now }
{
    bytes.len() >= 12 && is_word(&bytes[..9], b"HTTP/1.1 ")
}

/// The time after the call, where it was this before.
pub fn time_after(call: &Call<'_>, time: u64) -> u64
    ensures { result ≡ time_at time (act_of call.now) }
{
    match call {
        Call::Took { at, .. } => *at,
        _ => time,
    }
}
