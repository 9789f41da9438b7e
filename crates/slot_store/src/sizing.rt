//! A record with its length before it.

ghost use Rattle.std.specs.Prelude.{◌≡◌, ◌+◌, ◌≤◌, length, take};
ghost use Rattle.slot_store.specs.StoreValues.{sized};

/// Puts the record to the front of the room behind two bytes for its length, and answers how many bytes that are.
pub fn put_sized(room: &mut [u8], bytes: &[u8]) -> usize
    requires fits { length bytes.now ≤ 8189 }
    requires room { 2 + length bytes.now ≤ length room.old }
    ensures size { result ≡ length bytes.now + 2 }
    ensures bytes { take result room.new ≡ sized bytes.now }
{
    let len = bytes.len();
    room[0] = (len / 256) as u8;
    room[1] = (len % 256) as u8;
    room[2..len + 2].copy_from_slice(bytes);
    len + 2
}
