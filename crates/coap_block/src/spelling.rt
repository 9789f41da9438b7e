//! Messages that are written into a room (RFC 7252, section 3).

ghost use Rattle.std.specs.Prelude.{◌≡◌, ◌≤◌, ◌+◌, ◌++◌, length};
ghost use Rattle.coap_message.specs.Message.{nibble, extension, kind_number, option_bytes, options_bytes, payload_bytes, last_number, AreOptions};
ghost use Rattle.coap_block.specs.Spelling.{is_among, among, head_of};

use crate::room::Room;
use coap_message::option_numbers::{URI_PATH, URI_QUERY};
use coap_message::{Kind, Message, Options};

/// The number of Block2 (RFC 7959, section 6).
pub const BLOCK2: u16 = 23;

/// Which options of a message are meant.
#[derive(Clone, Copy)]
pub enum Which {
    /// All but Block2.
    ButBlock,
    /// Those that stand in front of a Block2.
    UpToBlock,
    /// Those that stand behind one.
    BehindBlock,
    /// What a request asks for: its path and its query.
    PathAndQuery,
}

impl Which {
    fn has(self, number: u16) -> bool
        ensures { result ≡ is_among self number }
    {
        match self {
            Which::ButBlock => number != BLOCK2,
            Which::UpToBlock => number <= BLOCK2,
            Which::BehindBlock => BLOCK2 < number,
            Which::PathAndQuery => number == URI_PATH || number == URI_QUERY,
        }
    }
}

fn nibble_of(number: usize) -> u8
    ensures value { result ≡ nibble number }
    ensures bound { result ≤ 14 }
{
    if number < 13 {
        number as u8
    } else if number < 269 {
        13
    } else {
        14
    }
}

fn put_extension(room: &mut Room, number: usize)
    requires bound { number ≤ 65804 }
    requires room { length room.old.filled + length (extension number) ≤ room.old.most }
    ensures { room.new ≡ record room.old { filled = room.old.filled ++ extension number } }
{
    if number < 13 {
        room.put(&[]);
    } else if number < 269 {
        room.put(&[(number - 13) as u8]);
    } else {
        room.put(&((number - 269) as u16).to_be_bytes());
    }
}

/// Writes an option behind one with the number `previous`.
pub fn put_option(room: &mut Room, previous: u16, number: u16, value: &[u8])
    requires rises { previous ≤ number }
    requires size { length value.now ≤ 65804 }
    requires room { length room.old.filled + length (option_bytes previous (record { number = number; value = value.now }))
        ≤ room.old.most }
    ensures { room.new ≡ record room.old {
      filled = room.old.filled
          ++ option_bytes previous (record { number = number; value = value.now });
    } }
{
    let delta = (number - previous) as usize;
    room.put(&[16 * nibble_of(delta) + nibble_of(value.len())]);
    put_extension(room, delta);
    put_extension(room, value.len());
    room.put(value);
}

/// Writes those of the options, behind one with the number `previous`, and answers the number of the last one.
pub fn put_options(room: &mut Room, previous: u16, options: &mut Options<'_>, which: Which) -> u16
    requires are { AreOptions previous (among which options.old) }
    requires room { length room.old.filled + length (options_bytes previous (among which options.old)) ≤ room.old.most }
    ensures written { room.new ≡ record room.old {
      filled = room.old.filled
          ++ options_bytes previous (among which options.old);
    } }
    ensures last { result ≡ last_number previous (among which options.old) }
{
    let mut previous = previous;
    while let Some(row) = options.next() {
        if which.has(row.number) {
            put_option(room, previous, row.number, row.value);
            previous = row.number;
        }
    }
    previous
}

/// Writes what stands in front of the options of a message, with this code.
pub fn put_head(room: &mut Room, message: &Message<'_>, code: u8)
    requires { length room.old.filled + length (head_of message.now) ≤ room.old.most }
    ensures { room.new ≡ record room.old { filled = room.old.filled ++ head_of (record message.now { code = code }) } }
{
    let token = message.token();
    let [high, low] = message.id().to_be_bytes();
    room.put(&[
        64 + 16 * kind_bits(message.kind()) + token.len() as u8,
        code,
        high,
        low,
    ]);
    room.put(token);
}

/// The two bits of the type.
fn kind_bits(kind: Kind) -> u8
    ensures value { result ≡ kind_number kind }
    ensures bound { result ≤ 3 }
{
    match kind {
        Kind::Con => 0,
        Kind::Non => 1,
        Kind::Ack => 2,
        Kind::Rst => 3,
    }
}

/// Writes a payload behind its marker, or nothing where it has no bytes.
pub fn put_payload(room: &mut Room, payload: &[u8])
    requires { length room.old.filled + length (payload_bytes payload.now) ≤ room.old.most }
    ensures { room.new ≡ record room.old { filled = room.old.filled ++ payload_bytes payload.now } }
{
    if !payload.is_empty() {
        room.put(&[0xff]);
        room.put(payload);
    }
}
