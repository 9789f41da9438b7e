//! The line that is printed of a disk that isn't recovered.

ghost use Rattle.std.specs.Prelude.{◌≡◌, ◌≤◌, ◌+◌, ◌*◌, ◌++◌, length, take, codes, decimal};
ghost use Rattle.hex.specs.Hex.{encode_lower};
ghost use Rattle.dots_host.specs.Causes.{Rose};
ghost use Rattle.dots_host.specs.Writing.{Writes};
ghost use Rattle.dots_machine.specs.Endings.{WritesRefusal};

use dots_host::{Sink, write_all};
use hex::encode_to_slice;
use itoa::Buffer;
use slot_journal::JournalFault;

/// The most bytes of the line: two words, two digests in hexadecimal, two blanks and a line feed.
const LINE_ROOM: usize = 147;

/// Writes why a disk isn't recovered, where it is refused for what it holds; where it failed, or memory ran out, nothing is written.
pub fn write_refusal<K: Sink>(fault: &JournalFault, report: &mut K)
    ensures { WritesRefusal fault.now (K.holds report.old) (K.holds report.new) (Rose (K.faults report.old) (K.faults report.new)) }
{
    let mut room = [0; LINE_ROOM];
    match fault {
        JournalFault::TooSmall { needed, found } => {
            let end = put_sizes(&mut room, *needed, *found);
            return write_line(report, &room[..end]);
        }
        JournalFault::NotOurs { at } => {
            let end = put_place(&mut room, *at);
            return write_line(report, &room[..end]);
        }
        JournalFault::SettingsChanged { stored, given } => {
            let end = put_digests(&mut room, stored, given);
            return write_line(report, &room[..end]);
        }
        JournalFault::DiskFault | JournalFault::NoMemory => return,
    }
}

/// Writes a line. Where the sink fails, a beginning of it is written.
fn write_line<K: Sink>(report: &mut K, line: &[u8])
    ensures { Writes (K.holds report.old) (K.holds report.new) line.now (Rose (K.faults report.old) (K.faults report.new)) }
{
    let _ = write_all(report, line);
}

/// Puts `disk needed N found N` and a line feed to the front of the room, and answers how many bytes they have.
fn put_sizes(room: &mut [u8], needed: u64, found: u64) -> usize
    requires { length room.old ≡ 147 }
    ensures within { result ≤ 147 }
    ensures text { take result room.new ≡ codes "disk needed " ++ decimal needed ++ codes " found " ++ decimal found ++ codes "\n" }
    ensures size { length room.new ≡ length room.old }
{
    let end = put(room, 0, b"disk needed ");
    let end = put_number(room, end, needed);
    let end = put(room, end, b" found ");
    let end = put_number(room, end, found);
    put(room, end, b"\n")
}

/// Puts `not ours PLACE` and a line feed to the front of the room, and answers how many bytes they have.
fn put_place(room: &mut [u8], at: u64) -> usize
    requires { length room.old ≡ 147 }
    ensures within { result ≤ 147 }
    ensures text { take result room.new ≡ codes "not ours " ++ decimal at ++ codes "\n" }
    ensures size { length room.new ≡ length room.old }
{
    let end = put(room, 0, b"not ours ");
    let end = put_number(room, end, at);
    put(room, end, b"\n")
}

/// Puts `settings changed HEX HEX` and a line feed to the front of the room, and answers how many bytes they have.
fn put_digests(room: &mut [u8], stored: &[u8; 32], given: &[u8; 32]) -> usize
    requires { length room.old ≡ 147 }
    ensures within { result ≤ 147 }
    ensures text { take result room.new ≡ codes "settings changed " ++ encode_lower stored.now ++ codes " " ++ encode_lower given.now ++ codes "\n" }
    ensures size { length room.new ≡ length room.old }
{
    let end = put(room, 0, b"settings changed ");
    let end = put_hex(room, end, stored);
    let end = put(room, end, b" ");
    let end = put_hex(room, end, given);
    put(room, end, b"\n")
}

/// Puts the digits of a number to a place, and answers the place behind them.
fn put_number(room: &mut [u8], at: usize, number: u64) -> usize
    requires { at + 20 ≤ length room.old }
    ensures end { result ≡ at + length (decimal number) }
    ensures short { length (decimal number) ≤ 20 }
    ensures text { take result room.new ≡ take at room.old ++ decimal number }
    ensures size { length room.new ≡ length room.old }
{
    let mut buffer = Buffer::new();
    let digits = buffer.format(number).as_bytes();
    put(room, at, digits)
}

/// Puts bytes to a place, and answers the place behind them.
fn put(room: &mut [u8], at: usize, bytes: &[u8]) -> usize
    requires { at + length bytes.now ≤ length room.old }
    ensures end { result ≡ at + length bytes.now }
    ensures text { take result room.new ≡ take at room.old ++ bytes.now }
    ensures size { length room.new ≡ length room.old }
{
    let end = at + bytes.len();
    room[at..end].copy_from_slice(bytes);
    end
}

/// Puts bytes in hexadecimal to a place, and answers the place behind them.
fn put_hex(room: &mut [u8], at: usize, bytes: &[u8]) -> usize
    requires { at + 2 * length bytes.now ≤ length room.old }
    ensures end { result ≡ at + 2 * length bytes.now }
    ensures text { take result room.new ≡ take at room.old ++ encode_lower bytes.now }
    ensures size { length room.new ≡ length room.old }
{
    let end = at + 2 * bytes.len();
    match encode_to_slice(bytes, &mut room[at..end]) {
        Ok(()) => return end,
        Err(_) => unreachable!(),
    }
}
