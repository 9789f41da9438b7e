//! Images of disks: by lines of bytes at places, and those that a crash may leave, by the ranges that were written since the last sync.

use dots_host::Act;
use std::alloc::Global;

/// What a crash leaves of a range that is being written.
#[derive(Clone, Copy)]
pub enum Way {
    /// What stood there before.
    Old,
    /// What was written.
    New,
    /// The first half of what was written.
    FirstHalf,
    /// The second half of what was written.
    SecondHalf,
    /// Open gates alone.
    Gates,
}

pub const WAYS: [Way; 5] = [
    Way::Old,
    Way::New,
    Way::FirstHalf,
    Way::SecondHalf,
    Way::Gates,
];

/// Puts the bytes into a disk from the place on, and answers whether they have room there.
fn put(disk: &mut [u8], at: usize, bytes: &[u8]) -> bool {
    let has_room = at <= disk.len() && bytes.len() <= disk.len() - at;
    if has_room {
        disk[at..at + bytes.len()].copy_from_slice(bytes);
    }
    has_room
}

/// Puts so many open gates into a disk.
fn put_gates(disk: &mut [u8], at: usize, count: usize) -> bool {
    let mut all = true;
    for index in 0..count {
        all &= put(disk, at.saturating_add(index), &[0xa5]);
    }
    all
}

/// Leaves of a range what the way says, and answers whether it lies on the disk.
fn tear(disk: &mut [u8], at: usize, bytes: &[u8], way: Way) -> bool {
    let half = bytes.len() / 2;
    match way {
        Way::Old => true,
        Way::New => put(disk, at, bytes),
        Way::FirstHalf => put(disk, at, &bytes[..half]),
        Way::SecondHalf => put(disk, at.saturating_add(half), &bytes[half..]),
        Way::Gates => put_gates(disk, at, bytes.len()),
    }
}

/// Where the last sync stands that went well, or 0.
fn last_sync(acts: &[Act]) -> usize {
    let mut last = 0;
    for (index, act) in acts.iter().enumerate() {
        if matches!(act, Act::Synced { ok: true }) {
            last = index;
        }
    }
    last
}

/// Writes what these calls wrote: up to the last sync all of it, and behind that what the way says. Answers whether it lies on the disk.
fn tear_all(disk: &mut [u8], acts: &[Act], way: Way) -> bool {
    let synced = last_sync(acts);
    let mut all = true;
    for (index, act) in acts.iter().enumerate() {
        if let Act::Wrote { at, bytes, .. } = act {
            let way = if index < synced { Way::New } else { way };
            all &= tear(disk, *at as usize, bytes.items(), way);
        }
    }
    all
}

/// What a crash behind these calls leaves in this way of a disk that held the image before them. Of a write that failed anything may
/// stand on the disk.
pub fn image_after(alloc: Global, before: &[u8], acts: &[Act], way: Way) -> Option<Vec<u8>> {
    let mut image = Vec::from_slice(alloc, before).ok()?;
    if tear_all(image.as_mut_slice(), acts, way) {
        Some(image)
    } else {
        None
    }
}

/// The place of a line, past every disk where it has none, and its bytes.
fn placed(alloc: Global, line: &str) -> Option<(usize, Vec<u8>)> {
    let (place, digits) = line.split_once(' ').unwrap_or((line, ""));
    let bytes = hex::decode(alloc, digits).ok()?;
    Some((place.parse::<usize>().unwrap_or(usize::MAX), bytes))
}

/// A disk of this size that holds the bytes of these lines, and zeros around them.
pub fn image_of(alloc: Global, size: usize, lines: &str) -> Option<Vec<u8>> {
    let mut image = vec![in alloc; 0u8; size].ok()?;
    let mut all = true;
    for line in lines.lines() {
        let (at, bytes) = placed(alloc, line)?;
        all &= put(image.as_mut_slice(), at, bytes.as_slice());
    }
    if all { Some(image) } else { None }
}

/// Whether the bytes of each line stand on the disk.
pub fn holds_all(alloc: Global, image: &[u8], lines: &str) -> Option<bool> {
    let mut all = true;
    for line in lines.lines() {
        let (at, bytes) = placed(alloc, line)?;
        all &= at <= image.len() && image[at..].starts_with(bytes.as_slice());
    }
    Some(all)
}
