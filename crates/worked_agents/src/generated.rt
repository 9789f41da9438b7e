//! A generated world.

use dots_host::MemorySink;
use std::alloc::Global;
use world_play::{run_world, world_report};

/// Whether the world of seed 1 has one report.
fn has_one_report(alloc: Global) -> Option<bool> {
    let first = world_report(alloc, 1).ok()?;
    let second = world_report(alloc, 1).ok()?;
    Some(first.as_str() == second.as_str())
}

/// The status of a run by two words that ask for no world, where it writes what is wanted.
fn status_of(alloc: Global, name: &str, number: &str) -> Option<u8> {
    let mut words = Vec::new(alloc);
    words.push(String::from_str(alloc, name).ok()?).ok()?;
    words.push(String::from_str(alloc, number).ok()?).ok()?;
    let mut report = MemorySink::new(alloc);
    let status = run_world(alloc, words.as_slice(), &mut report);
    if report.bytes() == b"words\n".as_slice() {
        Some(status)
    } else {
        None
    }
}

#[test]
fn a_seed_has_one_report(rt: HostRuntime) {
    assert!(rt; has_one_report(rt.alloc()) == Some(true));
}

#[test]
fn other_words_are_refused(rt: HostRuntime) {
    for number in ["0", "1001", "01", "one"] {
        assert!(rt; status_of(rt.alloc(), "world", number) == Some(2));
    }
    assert!(rt; status_of(rt.alloc(), "worlds", "1") == Some(2));
}
