//! A record of the first format, made one of the second where it stands.

ghost use Rattle.std.specs.Prelude.{◌≡◌, ◌+◌, ◌≤◌, ◌<◌, length, take, slice_index_or};
ghost use Rattle.slot_store.specs.Formats.{change_place, triggered, upgraded};

use crate::sealing::{SEAL, seal};

/// The number of a change that asks for a mitigation.
const PUT: u8 = 1;

/// In the first format, the number of a change that asks for a mitigation that waits for a lost signal.
const WAITING_PUT: u8 = 13;

/// The longest record that is upgraded, in bytes.
const LONGEST: usize = 8180;

/// Makes the record in the first `len` bytes one of the second format, of the same entry, and answers its length in bytes. Bytes that are no
/// record of the first format come to others, none, and what is longer than any record stays as it is. Takes no memory.
pub fn upgrade(room: &mut [u8], len: usize) -> usize
    requires len { len ≤ 8189 }
    requires room { length room.old ≡ 8189 }
    ensures fits { result ≤ 8189 }
    ensures upgraded { take result room.new ≡ upgraded (take len room.old) }
{
    if len > LONGEST {
        return len;
    }
    let body = put_trigger(room, len);
    let seal = seal(&room[..body]);
    room[body..body + SEAL].copy_from_slice(&seal);
    body + SEAL
}

/// Writes the trigger value of a mitigation behind its other fields, and answers the length of the body in bytes.
fn put_trigger(room: &mut [u8], len: usize) -> usize
    requires len { len ≤ 8180 }
    requires room { length room.old ≡ 8189 }
    ensures fits { result ≤ len + 1 }
    ensures triggered { take result room.new ≡ triggered (take len room.old) }
{
    let at = change_place(&room[..len]);
    let number = byte_at(&room[..len], at);
    if number == PUT {
        room[len] = 1;
        return len + 1;
    }
    if number == WAITING_PUT {
        room[at] = PUT;
        room[len] = 0;
        return len + 1;
    }
    len
}

/// Where the number of the change stands: behind the time, the peer, the domain, the cuid, the message's key and the reply.
fn change_place(bytes: &[u8]) -> usize
    ensures { result ≡ change_place bytes.now }
{
    let cuid = usize::from(byte_at(bytes, 14));
    let high = usize::from(byte_at(bytes, cuid + 18));
    let low = usize::from(byte_at(bytes, cuid + 19));
    cuid + 20 + 256 * high + low
}

/// The byte at the place, and 0 behind the end.
fn byte_at(bytes: &[u8], at: usize) -> u8
    ensures { result ≡ slice_index_or bytes.now at 0 }
{
    if at < bytes.len() {
        return bytes[at];
    }
    0
}
