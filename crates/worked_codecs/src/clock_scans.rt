//! Deadlines beside a plain list that is scanned: both are given the same calls.

use crate::clock_rows::deadlines_of;
use crate::row::Row;
use crate::tables::{Rows, all_hold};
use dots_lists::NoMemory;
use lifetime_clock::Deadlines;
use std::alloc::Global;

/// How many times deadlines are set.
const ROWS: u32 = 100;

/// How keys and times go on: each below a bound, by a step.
#[derive(Clone, Copy)]
struct Going {
    keys: (u32, u32),
    times: (u64, u64),
}

fn rows_of(alloc: Global, of: Going) -> Result<Vec<(u32, u64)>, NoMemory> {
    let mut rows = Vec::new(alloc);
    let (mut key, mut at): (u32, u64) = (0, 0);
    for _ in 0..ROWS {
        rows.push((key, at))?;
        key = key.wrapping_add(of.keys.1) % of.keys.0.max(1);
        at = at.wrapping_add(of.times.1) % of.times.0.max(1);
    }
    Ok(rows)
}

/// Sets or clears the time of a key below 256.
fn put(times: &mut [Option<u64>], key: u32, at: Option<u64>) {
    if let Some(time) = times.get_mut(key as usize) {
        *time = at;
    }
}

/// The times of keys, where the rows were set one after another.
fn list_of(rows: &[(u32, u64)]) -> [Option<u64>; 256] {
    let mut times = [None; 256];
    for (key, at) in rows {
        put(&mut times, *key, Some(*at));
    }
    times
}

fn least_time(times: &[Option<u64>]) -> Option<u64> {
    let mut least = None;
    for time in times {
        least = match (least, *time) {
            (Some(at), Some(other)) if at < other => Some(at),
            (least, None) => least,
            (_, time) => time,
        };
    }
    least
}

/// Whether the key has a time that isn't later than now, and none has an earlier one.
fn is_next(times: &[Option<u64>], key: u32, now: u64) -> bool {
    match (times.get(key as usize), least_time(times)) {
        (Some(Some(at)), Some(least)) => *at <= now && *at == least,
        _ => false,
    }
}

/// Whether no time is earlier than now, or now.
fn is_none_due(times: &[Option<u64>], now: u64) -> bool {
    match least_time(times) {
        Some(at) => at > now,
        None => true,
    }
}

/// Takes what is due out of both, and answers whether the list has the same.
fn take_due(deadlines: &mut Deadlines, times: &mut [Option<u64>], now: u64) -> bool {
    for _ in 0..=ROWS {
        match deadlines.due(now) {
            Some(key) if is_next(times, key, now) => put(times, key, None),
            Some(_) => return false,
            None => return is_none_due(times, now),
        }
    }
    false
}

/// Clears some keys in both, takes out what is due at one time after the other, and answers whether both had the same.
fn is_same(deadlines: &mut Deadlines, times: &mut [Option<u64>]) -> bool {
    for key in [0, 5, 9, 50, 51, 200] {
        deadlines.clear(key);
        put(times, key, None);
    }
    let mut same = true;
    for now in [0, 10, 11, 40, u64::MAX] {
        same &= take_due(deadlines, times, now);
    }
    same && least_time(times).is_none() && deadlines.due(u64::MAX).is_none()
}

fn agrees(alloc: Global, of: Going) -> Result<bool, NoMemory> {
    let rows = rows_of(alloc, of)?;
    let mut times = list_of(rows.as_slice());
    let mut deadlines = deadlines_of(alloc, rows.as_slice())?;
    Ok(is_same(&mut deadlines, &mut times))
}

/// The bounds and the steps of keys and times.
const GOING: &str = "\
# keys that rise, fall and come in turns, to the full room
100 1 100 1
100 99 100 1
100 37 100 61
# equal times
100 7 1 0
100 63 3 1
# keys that are moved earlier and later
16 5 40 13
10 3 40 39";

/// Whether both have the same by a row.
pub fn are_same(alloc: Global, row: &mut Row<'_>) -> Option<bool> {
    let of = Going {
        keys: (row.number::<u32>(" "), row.number::<u32>(" ")),
        times: (row.number::<u64>(" "), row.number::<u64>(" ")),
    };
    agrees(alloc, of).ok()
}

#[test]
fn deadlines_are_those_of_a_list(rt: HostRuntime) {
    all_hold(&rt, rt.alloc(), Rows::Scans, GOING);
}
