//! Runs of a gateway over disks in memory: one that stops at any of its calls leaves what it kept, and no number is used twice. And disks
//! that aren't a gateway's.

use crate::run_rows::words_of;
use dots_host::{Act, Bytes, Event, MemoryHost, MemorySink, MemorySource, OwnedOut};
use gateway_command::run_gateway_command;
use std::alloc::Global;

/// Settings by which a half has 24 slots.
const SETTINGS: &[u8] = b"\
domain net1
prefix net1 192.0.2.0/24
client 0 net1
capacity client-mitigations 1
capacity domain-mitigations 1
capacity clients 1
capacity aliases 1
capacity acls 1
capacity remembered 1
upstream 9
";

/// The bytes that they need: 8,192 for each of two halves of 24 slots, and for the header.
const SIZE: u64 = 401_408;

/// Where the first slot begins, whose first byte is its gate.
const FIRST_SLOT: usize = 8192;

/// Where the domain of an entry stands in the first slot: behind the gate, two bytes of its length, its time and its peer.
const FIRST_DOMAIN: usize = 8207;

/// More calls than a run makes.
const MANY: u64 = 1000;

/// A request of peer 0.
const REQUEST: &str =
    "510300014abb2e77656c6c2d6b6e6f776e04646f7473086d697469676174650d0e637569643d647a3670486a6141446b614654626a72304a47427077076d69643d31323312010fffa101a10281a206816c3139322e302e322e302f32340e190e10";

/// What is passed on of it with number 1.
const FIRST: &str =
    "580300010000000000000001bb2e77656c6c2d6b6e6f776e04646f7473086d6974696761746509636469643d6e6574310d0e637569643d647a3670486a6141446b614654626a72304a47427077076d69643d31323312010f410fffa101a10281a206816c3139322e302e322e302f32340e190e10";

/// And with number 2.
const SECOND: &str =
    "580300020000000000000002bb2e77656c6c2d6b6e6f776e04646f7473086d6974696761746509636469643d6e6574310d0e637569643d647a3670486a6141446b614654626a72304a47427077076d69643d31323312010f410fffa101a10281a206816c3139322e302e322e302f32340e190e10";

/// What is on the disk of the writes behind the last sync that went well: each, or none.
#[derive(Clone, Copy)]
enum Left {
    Each,
    None,
}

/// What came of a run that was to stop at a call.
#[derive(Clone, Copy)]
enum Found {
    /// It stopped, and what it kept is found.
    Survived,
    /// It stopped, and something else is found.
    Lost,
    /// It ended well before that call.
    NothingFailed,
}

/// With which number the request was passed on: 0 where it wasn't, and 9 where something else was sent.
fn number_of(alloc: Global, datagram: &[u8]) -> u64 {
    match hex::encode(alloc, datagram) {
        Ok(digits) if digits.as_str() == FIRST => 1,
        Ok(digits) if digits.as_str() == SECOND => 2,
        _ => 9,
    }
}

/// The number of the last send among the calls, and 0 where there is none.
fn number_sent(alloc: Global, acts: &[Act]) -> u64 {
    let mut number = 0;
    for act in acts {
        match act {
            Act::Gave {
                out: OwnedOut::To { peer: 9, bytes },
                ..
            } => number = number_of(alloc, bytes.items()),
            Act::Gave { .. } => number = 9,
            _ => {}
        }
    }
    number
}

/// A host whose disk has this size and holds the image.
fn host_over(alloc: Global, size: u64, image: &[u8]) -> Option<MemoryHost> {
    let mut host = MemoryHost::new(alloc, size).ok()?;
    if image.len() as u64 <= size && host.load(image).is_ok() {
        return Some(host);
    }
    drop(host);
    None
}

/// Lets the request come at a time.
fn push(alloc: Global, host: &mut MemoryHost, at: u64) -> Option<()> {
    let bytes = Bytes::from_vec(hex::decode(alloc, REQUEST).ok()?);
    let event = Event::Datagram { from: 0, bytes };
    if at >= 1 << 48 || !event.is_given() {
        drop(event);
        return None;
    }
    host.push(event, at).ok()
}

/// The exit status of a run over the host.
fn status_over(alloc: Global, host: &mut MemoryHost, report: &mut MemorySink) -> Option<u8> {
    let words = words_of(alloc)?;
    let mut settings = MemorySource::new(alloc, SETTINGS).ok()?;
    Some(run_gateway_command(alloc, words.as_slice(), &mut settings, host, report))
}

/// The exit status of a run over the host to which the request comes at a time.
fn status_at(alloc: Global, host: &mut MemoryHost, at: u64) -> Option<u8> {
    push(alloc, host, at)?;
    let mut report = MemorySink::new(alloc);
    status_over(alloc, host, &mut report)
}

/// With which number the request is passed on where it comes at a time, over a disk with this image.
fn number_over(alloc: Global, image: &[u8], at: u64) -> Option<u64> {
    let mut host = host_over(alloc, SIZE, image)?;
    let status = status_at(alloc, &mut host, at);
    let number = number_sent(alloc, host.acts());
    drop(host);
    if status == Some(0) {
        Some(number)
    } else {
        None
    }
}

/// Puts bytes into an image from a place on, where they have room there.
fn put(image: &mut [u8], at: usize, bytes: &[u8]) {
    if at <= image.len() && bytes.len() <= image.len() - at {
        image[at..at + bytes.len()].copy_from_slice(bytes);
    }
}

/// Where the last sync stands that went well, or 0.
fn last_sync(acts: &[Act]) -> usize {
    let mut last = 0;
    for (index, act) in acts.iter().enumerate() {
        if matches!(act, Act::Synced { ok: true }) {
            last = index;
        }
    }
    last
}

/// Puts what the calls wrote.
fn put_all(image: &mut [u8], acts: &[Act], left: Left) {
    let synced = last_sync(acts);
    for (index, act) in acts.iter().enumerate() {
        if let Act::Wrote { at, bytes, .. } = act {
            if index < synced || matches!(left, Left::Each) {
                put(image, *at as usize, bytes.items());
            }
        }
    }
}

/// What the calls leave of a disk of zeros.
fn image_after(alloc: Global, acts: &[Act], left: Left) -> Option<Vec<u8>> {
    let mut image = vec![in alloc; 0u8; SIZE as usize].ok()?;
    put_all(image.as_mut_slice(), acts, left);
    Some(image)
}

/// Whether the exchange stands in the image where the request was passed on, and is found: its number is used again until it is more than 246
/// seconds old, and then the next one.
fn is_found(alloc: Global, acts: &[Act], left: Left) -> Option<bool> {
    let image = image_after(alloc, acts, left)?;
    let is_kept = *image.as_slice().get(FIRST_SLOT)? == 0xa5;
    let was_sent = number_sent(alloc, acts) != 0;
    let young = number_over(alloc, image.as_slice(), 1246)?;
    let old = number_over(alloc, image.as_slice(), 1247)?;
    let next = if is_kept { 2 } else { 1 };
    Some((is_kept || !was_sent) && young == 1 && old == next)
}

/// What came of a run over the host, which is to stop at a call. Where the disk failed nothing was sent.
fn found_over(alloc: Global, host: &mut MemoryHost) -> Option<Found> {
    let status = status_at(alloc, host, 1000)?;
    if status == 0 {
        return Some(Found::NothingFailed);
    }
    let ends = match status {
        5 => true,
        6 => number_sent(alloc, host.acts()) == 0,
        _ => false,
    };
    let each = is_found(alloc, host.acts(), Left::Each)?;
    let none = is_found(alloc, host.acts(), Left::None)?;
    if ends && each && none {
        Some(Found::Survived)
    } else {
        Some(Found::Lost)
    }
}

/// What came of a run that is to stop at a call.
fn found_at(alloc: Global, call: u64) -> Option<Found> {
    let mut host = host_over(alloc, SIZE, &[])?;
    host.stop_at(call);
    let found = found_over(alloc, &mut host);
    drop(host);
    found
}

/// The first call at which a stop isn't survived, of those from 1 on; 0 where none is.
fn first_lost(alloc: Global) -> u64 {
    for call in 1..MANY {
        match found_at(alloc, call) {
            Some(Found::Survived) => {}
            Some(Found::NothingFailed) => return 0,
            Some(Found::Lost) | None => return call,
        }
    }
    MANY
}

#[test]
fn gateways_survive_a_stop(rt: HostRuntime) {
    let lost = first_lost(rt.alloc());
    assert!(rt; lost == 0, "at call {lost}");
}

/// Whether a run over a disk ends with this status and writes this line.
fn ends_with(alloc: Global, size: u64, image: &[u8], status: u8, line: &[u8]) -> Option<bool> {
    let mut host = host_over(alloc, size, image)?;
    let mut report = MemorySink::new(alloc);
    let ended = status_over(alloc, &mut host, &mut report);
    drop(host);
    Some(ended == Some(status) && report.bytes() == line)
}

/// What a gateway leaves of a disk of zeros, with its exchange in another domain than that of a gateway.
fn of_server(alloc: Global) -> Option<Vec<u8>> {
    let mut host = host_over(alloc, SIZE, &[])?;
    let status = status_at(alloc, &mut host, 1000);
    let image = image_after(alloc, host.acts(), Left::Each);
    drop(host);
    let mut image = image?;
    put(image.as_mut_slice(), FIRST_DOMAIN, &[0, 0]);
    if status == Some(0) { Some(image) } else { None }
}

/// Whether disks that a gateway can't use are refused.
fn are_refused(alloc: Global) -> Option<bool> {
    let image = of_server(alloc)?;
    let strange = ends_with(alloc, SIZE, image.as_slice(), 7, b"not ours 8192\n")?;
    let short = b"disk needed 401408 found 401407\n";
    let small = ends_with(alloc, SIZE - 1, &[], 10, short)?;
    Some(strange && small)
}

#[test]
fn other_disks_are_refused(rt: HostRuntime) {
    assert!(rt; are_refused(rt.alloc()) == Some(true));
}
