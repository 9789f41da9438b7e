ghost use Rattle.std.specs.Prelude.{◌≡◌, ◌≤◌, length, take, true};
ghost use Rattle.dots_host.specs.Acts.{IsWithin, OnFailed, event_of};
ghost use Rattle.dots_host.specs.Memory.{is_given};
ghost use Rattle.dots_host.specs.declared.TheConstants.{MAX_EVENT_BYTES};

use crate::MAX_EVENT_BYTES;
use crate::event::{Event, What};

/// Puts the bytes of an event to the front of the room.
pub fn hand_in(event: &Event, into: &mut [u8]) -> What
    requires given { is_given event.now ≡ true }
    requires room { length into.old ≡ MAX_EVENT_BYTES }
    ensures event { event_of result into.new ≡ event.now }
    ensures within { IsWithin result MAX_EVENT_BYTES }
    ensures given { OnFailed result ⊥ }
{
    match event {
        Event::Datagram { from, bytes } => What::Datagram {
            from: *from,
            len: copy_to_front(bytes.items(), into),
        },
        Event::Opened { conn, from } => What::Opened {
            conn: *conn,
            from: *from,
        },
        Event::Piece { conn, bytes } => What::Piece {
            conn: *conn,
            len: copy_to_front(bytes.items(), into),
        },
        Event::Closed { conn } => What::Closed { conn: *conn },
        Event::Tick => What::Tick,
        Event::Restart => What::Restart,
        Event::End => What::End,
        Event::Failed => unreachable!(),
    }
}

/// Copies the bytes to the front of the room, and answers how many they are.
fn copy_to_front(bytes: &[u8], into: &mut [u8]) -> usize
    requires { length bytes.now ≤ length into.old }
    ensures count { result ≡ length bytes.now }
    ensures front { take result into.new ≡ bytes.now }
{
    let count = bytes.len();
    into[..count].copy_from_slice(bytes);
    count
}
