//! Generated runs. Their draws are drawn here once more, by their definition.

use crate::runs::{Asked, run_over};
use dots_host::{MemoryHost, MemorySink};
use dots_run::run_load;
use std::alloc::Global;

/// The names of the lines that count sends.
const SENDS: [&str; 6] = [
    "created", "changed", "deleted", "content", "conflict", "other",
];

/// The number behind a number.
fn next(number: u64) -> u64 {
    number
        .wrapping_mul(6364136223846793005)
        .wrapping_add(1442695040888963407)
}

/// How many of the 20,000 events of a seed are datagrams: all whose second draw isn't 7 modulo 8.
fn datagrams_of(seed: u64) -> u64 {
    let mut number = seed;
    let mut count: u64 = 0;
    for _event in 0..20_000 {
        let second = next(next(number));
        if (second >> 32) % 8 != 7 {
            count = count.saturating_add(1);
        }
        number = next(next(second));
    }
    count
}

/// How many heartbeats the ticks of a seed send: one to each of the eight peers, once 30 seconds have passed since the one before it, or since
/// its first datagram. An event comes each second, and no peer is silent for 450.
fn heartbeats_of(seed: u64) -> u64 {
    let mut number = seed;
    let mut last: [Option<u64>; 8] = [None; 8];
    let mut count: u64 = 0;
    for second in 0..20_000u64 {
        let first = next(number);
        let kind = next(first);
        let peer = ((first >> 32) % 8) as usize;
        if (kind >> 32) % 8 == 7 {
            count = count.saturating_add(beats_at(&mut last, second));
        } else if last[peer].is_none() {
            last[peer] = Some(second);
        }
        number = next(next(kind));
    }
    count
}

/// How many peers are sent a heartbeat at this second.
fn beats_at(last: &mut [Option<u64>; 8], second: u64) -> u64 {
    let mut count: u64 = 0;
    for beat in last.iter_mut() {
        match *beat {
            Some(before) if before.saturating_add(30) <= second => {
                *beat = Some(second);
                count = count.saturating_add(1);
            }
            _ => {}
        }
    }
    count
}

/// The number in the line of this name.
fn count_in(text: &str, name: &str) -> u64 {
    for line in text.lines() {
        match line.split_once(' ') {
            Some((found, number)) if found == name => {
                return number.parse::<u64>().unwrap_or(u64::MAX);
            }
            _ => {}
        }
    }
    u64::MAX
}

/// Whether a report counts 20,000 events, and a send for each datagram of the seed and each heartbeat.
fn adds_up(text: &str, seed: u64) -> bool {
    let mut sends: u64 = 0;
    for name in SENDS {
        sends = sends.saturating_add(count_in(text, name));
    }
    count_in(text, "events") == 20_000
        && sends == datagrams_of(seed).saturating_add(heartbeats_of(seed))
}

/// Whether two runs of a seed have one report, which adds up.
fn is_alike(alloc: Global, seed: u64) -> bool {
    match (run_load(alloc, seed), run_load(alloc, seed)) {
        (Ok(one), Ok(other)) => one.as_str() == other.as_str() && adds_up(one.as_str(), seed),
        _ => false,
    }
}

/// Whether a run with these words ends with status 0 and prints something.
fn ends_well(alloc: Global, words: &str) -> Option<bool> {
    let mut host = MemoryHost::new(alloc, 0).ok()?;
    let mut sink = MemorySink::new(alloc);
    let asked = Asked {
        words,
        settings: b"",
        failing: 0,
    };
    let status = run_over(alloc, asked, &mut host, &mut sink).ok()?;
    Some(status == 0 && sink.bytes().len() > 0)
}

#[test]
fn generated_runs(rt: HostRuntime) {
    let alloc = rt.alloc();
    assert!(rt; is_alike(alloc, 1));
    assert!(rt; ends_well(alloc, "load 7") == Some(true));
}
