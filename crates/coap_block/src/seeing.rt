//! What is seen of an event, and what leaves of a send.

ghost use Rattle.std.specs.Prelude.{◌≡◌, ◌≤◌, length, take};
ghost use Rattle.dots_host.specs.Acts.{IsWithin, OnFailed, Adds, gave, event_of, owned_of, is_done};
ghost use Rattle.dots_host.specs.declared.TheConstants.{MAX_EVENT_BYTES};
ghost use Rattle.coap_block.specs.Blocks.{Sees};
ghost use Rattle.coap_block.specs.Around.{SeesEvent, SendsOut, leaves_of};

use crate::cutting::Cutting;
use dots_host::{Host, MAX_EVENT_BYTES, Out, Sent, What};

/// A datagram of so many bytes came: how many are seen of it, at the front of the room.
fn see_datagram(cutting: &mut Cutting, from: u32, len: usize, room: &mut [u8]) -> usize
    requires room { length room.old ≡ MAX_EVENT_BYTES }
    requires within { len ≤ MAX_EVENT_BYTES }
    ensures sees { Sees from (take len room.old) (take result room.new) cutting.new.blocks.awaited }
    ensures stored { cutting.new.blocks.stored ≡ cutting.old.blocks.stored }
    ensures observed { cutting.new.blocks.observed ≡ cutting.old.blocks.observed }
    ensures within { result ≤ len }
{
    if !cutting.see(from, &room[..len]) {
        return len;
    }
    let seen = cutting.written();
    room[..seen.len()].copy_from_slice(seen);
    seen.len()
}

/// What is seen of an event.
pub fn see(cutting: &mut Cutting, what: What, room: &mut [u8]) -> What
    requires room { length room.old ≡ MAX_EVENT_BYTES }
    requires within { IsWithin what MAX_EVENT_BYTES }
    ensures sees { SeesEvent (event_of what room.old) (event_of result room.new)
        cutting.old.blocks cutting.new.blocks }
    ensures within { IsWithin result MAX_EVENT_BYTES }
    ensures failed { OnFailed result (what ≡ What.Failed) }
{
    match what {
        What::Datagram { from, len } => What::Datagram {
            from,
            len: see_datagram(cutting, from, len, room),
        },
        What::Restart => {
            cutting.forget();
            what
        }
        _ => {
            cutting.skip();
            what
        }
    }
}

/// Whether what leaves of a send was written.
pub fn reply(cutting: &mut Cutting, out: &Out) -> bool
    ensures { SendsOut (owned_of out.now) (leaves_of (owned_of out.now) result cutting.new.written)
        cutting.old.blocks cutting.new.blocks }
{
    match out {
        Out::To { peer, bytes } => cutting.reply(*peer, bytes),
        Out::Conn { .. } | Out::Close { .. } => false,
    }
}

/// Sends what was written in place of a send, or the send as it is: one call of the host.
pub fn send_written<H: Host>(inner: &mut H, written: &[u8], was_written: bool, out: &Out) -> Sent
    ensures acts { Adds (H.acts inner.old) (H.moment inner.old) (H.acts inner.new) (H.moment inner.new)
        (gave (leaves_of (owned_of out.now) was_written written.now) (is_done result)) }
    ensures faults { H.Wire.faults inner.new ≡ H.Wire.faults inner.old }
    ensures beside { H.Wire.beside inner.old inner.new }
    ensures leads { H.leads inner.old inner.new }
{
    match out {
        Out::To { peer, .. } => {
            if was_written {
                return inner.send(&Out::To {
                    peer: *peer,
                    bytes: written,
                });
            }
            return inner.send(out);
        }
        Out::Conn { .. } | Out::Close { .. } => return inner.send(out),
    }
}
