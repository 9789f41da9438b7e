//! The argument of a head, in any of its lengths (RFC 8949, section 3).

ghost use Rattle.std.specs.Prelude.{◌≤◌, length, IfOk};
ghost use Rattle.std.specs.Int.{w8, w16, w32, w64};
ghost use Rattle.cbor_profile.specs.ItemReading.{Gives, number_at, argument_at};

use crate::fault::CborFault;

/// The argument of an initial byte with this additional information, and the bytes behind it. The input ends at
/// the place `end`.
#[tactic(auto, unfolding(crate::specs::ItemReading::argument_at))]
pub(crate) fn read_argument(end: usize, info: u8, bytes: &[u8]) -> Result<(u64, &[u8]), CborFault>
    ensures value { Gives (λ x. (x.0, x.1.now)) result (argument_at end info bytes.now) }
    ensures shorter { IfOk result (λ x. length x.1.now ≤ length bytes.now) }
{
    match info {
        0..24 => Ok((info as u64, bytes)),
        24 => read_one(end, bytes),
        25 => read_two(end, bytes),
        26 => read_four(end, bytes),
        _ => read_eight(end, bytes),
    }
}

fn read_one(end: usize, bytes: &[u8]) -> Result<(u64, &[u8]), CborFault>
    ensures value { Gives (λ x. (x.0, x.1.now)) result (number_at end w8 bytes.now) }
    ensures shorter { IfOk result (λ x. length x.1.now ≤ length bytes.now) }
{
    if bytes.is_empty() {
        return Err(CborFault::Short { at: end });
    }
    let (front, rest) = bytes.split_at(1);
    Ok((front[0] as u64, rest))
}

fn read_two(end: usize, bytes: &[u8]) -> Result<(u64, &[u8]), CborFault>
    ensures value { Gives (λ x. (x.0, x.1.now)) result (number_at end w16 bytes.now) }
    ensures shorter { IfOk result (λ x. length x.1.now ≤ length bytes.now) }
{
    if bytes.len() < 2 {
        return Err(CborFault::Short { at: end });
    }
    let (front, rest) = bytes.split_at(2);
    let number = u16::from_be_bytes([front[0], front[1]]);
    Ok((number as u64, rest))
}

fn read_four(end: usize, bytes: &[u8]) -> Result<(u64, &[u8]), CborFault>
    ensures value { Gives (λ x. (x.0, x.1.now)) result (number_at end w32 bytes.now) }
    ensures shorter { IfOk result (λ x. length x.1.now ≤ length bytes.now) }
{
    if bytes.len() < 4 {
        return Err(CborFault::Short { at: end });
    }
    let (front, rest) = bytes.split_at(4);
    let number = u32::from_be_bytes([front[0], front[1], front[2], front[3]]);
    Ok((number as u64, rest))
}

fn read_eight(end: usize, bytes: &[u8]) -> Result<(u64, &[u8]), CborFault>
    ensures value { Gives (λ x. (x.0, x.1.now)) result (number_at end w64 bytes.now) }
    ensures shorter { IfOk result (λ x. length x.1.now ≤ length bytes.now) }
{
    if bytes.len() < 8 {
        return Err(CborFault::Short { at: end });
    }
    let (front, rest) = bytes.split_at(8);
    let number = u64::from_be_bytes([
        front[0], front[1], front[2], front[3], front[4], front[5], front[6], front[7],
    ]);
    Ok((number, rest))
}
