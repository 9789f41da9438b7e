ghost use Rattle.std.specs.Prelude.{◌≡◌, ◌≢◌, ℕ, List, ◌∷◌, ◌++◌, ◌^◌, ◌<◌, ◌≤◌, length, take, IfSome, IfNone, MatchOption, codes};
ghost use Rattle.dots_host.specs.Acts.{IsWithin, OnFailed, event_of};
ghost use Rattle.dots_host.specs.declared.event.Event.{Event};
ghost use Rattle.dots_host.specs.declared.TheConstants.{MAX_EVENT_BYTES};
ghost use Rattle.dots_script.specs.Script.{IsNumberAndBytes, IsNumber, SaysEvent, IsEventLine};
ghost use Rattle.dots_script.specs.Words.{HasNoSpace, IsAfterNumber};

use crate::hex_digits::read_digits;
use dots_host::{Got, MAX_EVENT_BYTES, What};
use dots_lists::parse_decimal;

/// The event of a script line and the time beside it, the event's bytes at the front of the room. Where there is
/// none, what then stands in the room isn't said.
pub fn parse_event(line: &[u8], into: &mut [u8]) -> Option<Got>
    requires { length into.old ≡ MAX_EVENT_BYTES }
    ensures some { IfSome result (λ got. IsEventLine line.now (event_of got.what into.new) got.at) }
    ensures none { IfNone result ((event : Event) (at : ℕ) → ¬ (IsEventLine line.now event at)) }
    ensures at { IfSome result (λ got. got.at < 2 ^ 48) }
    ensures within { IfSome result (λ got. IsWithin got.what MAX_EVENT_BYTES) }
    ensures event { IfSome result (λ got. OnFailed got.what ⊥) }
{
    let Some(rest) = after(line, b"at ") else {
        return None;
    };
    let Some((at, words)) = number_before_space(rest) else {
        return None;
    };
    if at >= 1 << 48 {
        return None;
    }
    let Some(what) = parse_words(words, into) else {
        return None;
    };
    Some(Got { what, at })
}

/// The event that the words behind the time say, its bytes at the front of the room.
fn parse_words(words: &[u8], into: &mut [u8]) -> Option<What>
    requires { length into.old ≡ MAX_EVENT_BYTES }
    ensures some { IfSome result (λ what. SaysEvent words.now (event_of what into.new)) }
    ensures none { IfNone result ((event : Event) → ¬ (SaysEvent words.now event)) }
    ensures within { IfSome result (λ what. IsWithin what MAX_EVENT_BYTES) }
    ensures event { IfSome result (λ what. OnFailed what ⊥) }
{
    if words == b"tick".as_slice() {
        return Some(What::Tick);
    }
    if words == b"restart".as_slice() {
        return Some(What::Restart);
    }
    if let Some(behind) = after(words, b"from ") {
        return parse_datagram(behind, into);
    }
    if let Some(behind) = after(words, b"open ") {
        return parse_opening(behind);
    }
    if let Some(behind) = after(words, b"piece ") {
        return parse_piece(behind, into);
    }
    if let Some(behind) = after(words, b"close ") {
        return parse_closing(behind);
    }
    None
}

/// The datagram of the words behind `from`, its bytes at the front of the room.
fn parse_datagram(behind: &[u8], into: &mut [u8]) -> Option<What>
    requires { length into.old ≡ MAX_EVENT_BYTES }
    ensures some { IfSome result (λ what. SaysEvent (codes "from " ++ behind.now) (event_of what into.new)) }
    ensures none { IfNone result ((event : Event) → ¬ (SaysEvent (codes "from " ++ behind.now) event)) }
    ensures within { IfSome result (λ what. IsWithin what MAX_EVENT_BYTES) }
    ensures event { IfSome result (λ what. OnFailed what ⊥) }
{
    let Some((from, len)) = number_and_bytes(behind, into) else {
        return None;
    };
    Some(What::Datagram { from, len })
}

/// The connection that the words behind `open` say to be opened.
fn parse_opening(behind: &[u8]) -> Option<What>
    ensures some { IfSome result (λ what. (room : List ℕ) → SaysEvent (codes "open " ++ behind.now) (event_of what room)) }
    ensures none { IfNone result ((event : Event) → ¬ (SaysEvent (codes "open " ++ behind.now) event)) }
    ensures within { IfSome result (λ what. IsWithin what MAX_EVENT_BYTES) }
    ensures event { IfSome result (λ what. OnFailed what ⊥) }
{
    let Some((conn, digits)) = small_before_space(behind) else {
        return None;
    };
    let Some(from) = small_number(digits) else {
        return None;
    };
    Some(What::Opened { conn, from })
}

/// The bytes of a connection of the words behind `piece`, at the front of the room.
fn parse_piece(behind: &[u8], into: &mut [u8]) -> Option<What>
    requires { length into.old ≡ MAX_EVENT_BYTES }
    ensures some { IfSome result (λ what. SaysEvent (codes "piece " ++ behind.now) (event_of what into.new)) }
    ensures none { IfNone result ((event : Event) → ¬ (SaysEvent (codes "piece " ++ behind.now) event)) }
    ensures within { IfSome result (λ what. IsWithin what MAX_EVENT_BYTES) }
    ensures event { IfSome result (λ what. OnFailed what ⊥) }
{
    let Some((conn, len)) = number_and_bytes(behind, into) else {
        return None;
    };
    Some(What::Piece { conn, len })
}

/// The connection that the words behind `close` say to be closed.
fn parse_closing(behind: &[u8]) -> Option<What>
    ensures some { IfSome result (λ what. (room : List ℕ) → SaysEvent (codes "close " ++ behind.now) (event_of what room)) }
    ensures none { IfNone result ((event : Event) → ¬ (SaysEvent (codes "close " ++ behind.now) event)) }
    ensures within { IfSome result (λ what. IsWithin what MAX_EVENT_BYTES) }
    ensures event { IfSome result (λ what. OnFailed what ⊥) }
{
    let Some(conn) = small_number(behind) else {
        return None;
    };
    Some(What::Closed { conn })
}

/// The number before the first space, and how many bytes the digits behind it write, which then stand at the front of the room.
fn number_and_bytes(text: &[u8], into: &mut [u8]) -> Option<(u32, usize)>
    requires { length into.old ≡ MAX_EVENT_BYTES }
    ensures some { IfSome result (λ found. IsNumberAndBytes text.now found.0 (take found.1 into.new)) }
    ensures none { IfNone result ((number : ℕ) (bytes : List ℕ) → ¬ (IsNumberAndBytes text.now number bytes)) }
    ensures within { IfSome result (λ found. found.1 ≤ MAX_EVENT_BYTES) }
{
    let Some((number, digits)) = small_before_space(text) else {
        return None;
    };
    let Some(len) = read_digits(digits, into) else {
        return None;
    };
    Some((number, len))
}

/// What follows the front, where the bytes begin with it.
fn after<'a>(bytes: &'a [u8], front: &[u8]) -> Option<&'a [u8]>
    ensures { MatchOption result ((rest : List ℕ) → bytes.now ≢ front.now ++ rest)
        (λ rest. bytes.now ≡ front.now ++ rest.now) }
{
    bytes.strip_prefix(front)
}

/// The number that the bytes before the first space write, and the bytes behind that space.
fn number_before_space(bytes: &[u8]) -> Option<(u64, &[u8])>
    ensures some { IfSome result (λ found. IsAfterNumber bytes.now found.0 found.1.now) }
    ensures none { IfNone result ((number : ℕ) (rest : List ℕ) → ¬ (IsAfterNumber bytes.now number rest)) }
{
    let Some((digits, rest)) = split_at_space(bytes) else {
        return None;
    };
    let Some(number) = parse_decimal(digits) else {
        return None;
    };
    Some((number, rest))
}

/// The number below 2^32 that the bytes before the first space write, and the bytes behind that space.
fn small_before_space(bytes: &[u8]) -> Option<(u32, &[u8])>
    ensures some { IfSome result (λ found. (found.0 < 2 ^ 32) × IsAfterNumber bytes.now found.0 found.1.now) }
    ensures none { IfNone result ((number : ℕ) (rest : List ℕ) → number < 2 ^ 32 → ¬ (IsAfterNumber bytes.now number rest)) }
{
    let Some((number, rest)) = number_before_space(bytes) else {
        return None;
    };
    if number > u64::from(u32::MAX) {
        return None;
    }
    Some((number as u32, rest))
}

/// The number below 2^32 that the digits write.
fn small_number(digits: &[u8]) -> Option<u32>
    ensures some { IfSome result (λ number. IsNumber digits.now number) }
    ensures none { IfNone result ((number : ℕ) → ¬ (IsNumber digits.now number)) }
{
    let Some(number) = parse_decimal(digits) else {
        return None;
    };
    if number > u64::from(u32::MAX) {
        return None;
    }
    Some(number as u32)
}

/// The bytes before the first space and those behind it.
fn split_at_space(bytes: &[u8]) -> Option<(&[u8], &[u8])>
    ensures some { IfSome result (λ split. (bytes.now ≡ split.0.now ++ (32 ∷ split.1.now)) × HasNoSpace split.0.now) }
    ensures none { IfNone result (HasNoSpace bytes.now) }
{
    for at in 0..bytes.len() {
        if bytes[at] == b' ' {
            return Some((&bytes[..at], &bytes[at + 1..]));
        }
    }
    None
}
