//! The header of a disk.

ghost use Rattle.std.specs.Prelude.{◌≡◌, ◌≢◌, ℕ, ◌+◌, ◌<◌, ◌≤◌, ◌⊎◌, length, slice_index, MatchOption, IfOk, IfErr, take};
ghost use Rattle.dots_host.specs.Media.{byte_of, overwritten};
ghost use Rattle.slot_store.specs.Formats.{format_byte};
ghost use Rattle.slot_store.specs.Layout.{header_of, IsHeader, HasFormat};
ghost use Rattle.slot_store.specs.Refusing.{RefusesHeader};

use crate::fault::OpenFault;
use crate::format::{Format, format_byte};
use crate::layout::{SELECTOR, format_place};
use crate::wanted::OPEN;

/// The bytes of a header, the selector, the formats and the zeros at its end among them.
pub const HEADER: usize = 64;

/// The open gate, the journal's name and its version.
const FRONT: [u8; 12] = [OPEN, b'D', b'O', b'T', b'S', b'J', b'N', b'L', 1, 0, 0, 0];

/// Puts the bytes into a header from the place on.
fn put(header: &mut [u8], at: usize, bytes: &[u8])
    requires { at + length bytes.now ≤ length header.old }
    ensures { byte_of header.new ≡ overwritten (byte_of header.old) at bytes.now }
{
    header[at..at + bytes.len()].copy_from_slice(bytes);
}

/// What a header says of the half in use.
#[derive(Clone, Copy)]
pub struct InUse {
    pub selector: u8,
    pub format: Format,
}

/// The header of a disk that was just formatted, with this format for both halves.
pub fn header(slots: u32, digest: &[u8; 32], format: Format) -> [u8; HEADER]
    ensures bytes { (place : ℕ) → (place < 48 ⊎ 51 ≤ place) → byte_of result place ≡ byte_of (header_of slots digest.now) place }
    ensures selector { byte_of result 48 ≡ 0 }
    ensures formats { (byte_of result 49 ≡ format_byte format) × (byte_of result 50 ≡ format_byte format) }
{
    let mut header = [0; HEADER];
    put(&mut header, 0, &FRONT);
    put(&mut header, 12, &slots.to_be_bytes());
    put(&mut header, 16, digest);
    put(&mut header, 49, &[format_byte(format); 2]);
    header
}

/// The first place from the one up to the other at which the bytes differ.
fn first_wrong(found: &[u8; HEADER], wanted: &[u8; HEADER], from: usize, to: usize) -> Option<usize>
    requires { to ≤ 64 }
    ensures { MatchOption result
        ((place : ℕ) → from ≤ place → place < to → slice_index found.now place ≡ slice_index wanted.now place)
        (λ at. (from ≤ at) × (at < to) × (slice_index found.now at ≢ slice_index wanted.now at)
        × ((place : ℕ) → from ≤ place → place < at → slice_index found.now place ≡ slice_index wanted.now place)) }
{
    for place in from..to {
        if found[place] != wanted[place] {
            return Some(place);
        }
    }
    None
}

/// The digest that a header has.
fn stored_digest(found: &[u8; HEADER]) -> [u8; 32]
    ensures { (place : ℕ) → place < 32 → slice_index result place ≡ slice_index found.now (16 + place) }
{
    let mut stored = [0; 32];
    stored.copy_from_slice(&found[16..48]);
    stored
}

/// The format that a byte of a header says. None where it says none.
fn format_of(byte: u8) -> Option<Format>
    ensures { MatchOption result ((format : Format) → byte ≢ format_byte format) (λ format. byte ≡ format_byte format) }
{
    match byte {
        0 => Some(Format::One),
        2 => Some(Format::Two),
        _ => None,
    }
}

/// Refuses a header that is no journal's or of other settings, whose gate is open. Answers what it says of the half in use.
pub fn check_header(found: &[u8; HEADER], slots: u32, digest: &[u8; 32]) -> Result<InUse, OpenFault>
    requires { slice_index found.now 0 ≡ 165 }
    ensures ok { IfOk result (λ in_use. IsHeader slots digest.now (byte_of found.now) ×
        (byte_of found.now 48 ≡ in_use.selector) × HasFormat in_use.format (byte_of found.now)) }
    ensures err { IfErr result (RefusesHeader slots digest.now (byte_of found.now)) }
{
    let wanted = header(slots, digest, Format::Two);
    if let Some(at) = first_wrong(found, &wanted, 1, 12) {
        return Err(OpenFault::NotOurs { at: at as u64 });
    }
    let selector = found[SELECTOR as usize];
    let at = format_place(selector % 2);
    let Some(format) = format_of(found[at as usize]) else {
        return Err(OpenFault::NotOurs { at });
    };
    if let Some(at) = first_wrong(found, &wanted, 51, 64) {
        return Err(OpenFault::NotOurs { at: at as u64 });
    }
    if first_wrong(found, &wanted, 16, 48).is_some() {
        let stored = stored_digest(found);
        return Err(OpenFault::SettingsChanged { stored });
    }
    if let Some(at) = first_wrong(found, &wanted, 12, 16) {
        return Err(OpenFault::NotOurs { at: at as u64 });
    }
    Ok(InUse { selector, format })
}
