//! When heartbeats are sent (RFC 9132, section 4.7).

use crate::plain_configs::PlainConfigs;
use crate::row::Row;
use crate::tables::{Rows, all_hold};
use dots_host::MemorySource;
use dots_settings::{Settings, read_settings};
use session_core::Sessions;
use std::alloc::Global;

/// Peers 2 and 0 are clients, and peer 3, which stands between them, is a gateway.
const SETTINGS: &[u8] =
    b"domain net1\ndomain net2\nprefix net1 192.0.2.0/24\nclient 2 net1\ngateway 3\nclient 0 net2\n";

/// The settings have so many peers, so at most so many sessions are lost.
const PEERS: usize = 3;

/// Steps, each with what it shows behind a colon where it shows something.
///
/// A message of a peer is `heard` at a time, or a session with it is to `begin`. A `number` is taken for a message to a peer, and its
/// Message ID is shown. The heartbeats of clients go `by` an interval and a number from now on; at first these are 30 and 15. The first
/// session that is `lost` at a time is asked for, and its peer is shown. The first heartbeat that is `due` at a time is asked for: its
/// peer, its Message ID, and whether the peer was heard are shown. The `next` one is that behind all sessions that are lost.
const BEATS: &str = "\
# Peer 0 is heard at 1000, and by the defaults is sent a heartbeat each 30 seconds, until it wasn't heard for more than 450.
next 1000; heard 0 1000; next 1000; next 1029; next 1030: 0 1000 heard; next 1030; next 1059; next 1060: 0 1001 silent; heard 0 1070; next 1089; next 1095: 0 1002 heard; next 1124; next 1520: 0 1003 silent; next 1550; next 9000
# A day with an interval of 60 seconds: two notifications take numbers, and the first time that a heartbeat is asked for one is due.
by 60 15; heard 0 20000; heard 0 28800; number 0: 20000; heard 0 40080; number 0: 20001; next 40120: 0 20002 heard; next 40120
# A gateway that may miss 3 heartbeats of 15 seconds is forgotten after 45. When it is heard again its session begins anew, and its
# Message IDs go on.
heard 3 1000; next 1045: 3 1000 silent; next 1046; next 1060; number 3: 1001; heard 3 1070; next 1084; next 1085: 3 1002 heard; next 1116; heard 3 1117; next 1131; next 1132: 3 1003 heard
# With an interval of 0 there is neither a heartbeat nor forgetting.
by 0 3; heard 0 1000; next 1000; next 9000; by 9000 1; next 9999; next 10000: 0 1000 heard
# At one time heartbeats are sent in the order of the settings, each peer by its own interval.
heard 0 1000; heard 3 1001; heard 2 1002; next 1016: 3 1001 heard; next 1016; next 1032: 2 1002 heard; next 1032: 3 1002 silent; next 1032: 0 1000 silent; next 1032
# Message IDs begin with the time of the first hearing, in 16 bits, and rise by one.
number 0; heard 0 65535; number 0: 65535; number 0: 0; heard 0 70000; number 0: 1; heard 2 65541; number 2: 5; heard 1 1000: stranger; number 1
# A session of 3 heartbeats of 15 seconds is lost after 45, once. Another begins: its heartbeats count from then, its Message IDs go on,
# and beginning it again changes nothing. One that begins without a message gives Message IDs their first.
heard 3 1000; lost 1045; lost 1046: 3; lost 1046; due 1060; begin 3 1050; begin 3 1060; due 1064; due 1065: 3 1000 heard; begin 3 1066; due 1080: 3 1001 silent; lost 1095; lost 1096: 3; begin 0 2000; number 0: 2000; due 2030: 0 2001 heard; begin 1 1000: stranger
# A session that goes on is neither begun anew nor heard: what is due stays due.
heard 3 1000; begin 3 1014; due 1015: 3 1000 heard; begin 3 1044; lost 1046: 3
# Sessions that are lost come in the order of the settings, and a heartbeat alone forgets none. Without an interval none is lost.
by 15 3; heard 0 1000; heard 3 1000; heard 2 1000; due 1046: 2 1000 silent; lost 1046: 2; lost 1046: 3; lost 1046: 0; lost 1046; due 9000; by 0 3; heard 0 1000; lost 9000; by 15 3; lost 9000: 0";

fn hear(alloc: Global, sessions: &mut Sessions, step: &mut Row<'_>) -> Option<String> {
    let peer = step.number::<u32>(" ");
    let now = step.number::<u64>(" ");
    if sessions.holds(peer) {
        sessions.heard(peer, now);
        return Some(String::new(alloc));
    }
    String::from_str(alloc, "stranger").ok()
}

fn begin(alloc: Global, sessions: &mut Sessions, step: &mut Row<'_>) -> Option<String> {
    let peer = step.number::<u32>(" ");
    let now = step.number::<u64>(" ");
    if sessions.holds(peer) {
        sessions.begin(peer, now);
        return Some(String::new(alloc));
    }
    String::from_str(alloc, "stranger").ok()
}

fn lost(
    alloc: Global,
    sessions: &mut Sessions,
    configs: &PlainConfigs,
    step: &mut Row<'_>,
) -> Option<String> {
    let now = step.number::<u64>(" ");
    match sessions.next_lost(configs, now) {
        Some(peer) => format!(in alloc; "{peer}").ok(),
        None => Some(String::new(alloc)),
    }
}

fn number(alloc: Global, sessions: &mut Sessions, step: &mut Row<'_>) -> Option<String> {
    let peer = step.number::<u32>(" ");
    if sessions.has_begun(peer) {
        let id = sessions.number(peer);
        return format!(in alloc; "{id}").ok();
    }
    Some(String::new(alloc))
}

fn next(
    alloc: Global,
    sessions: &mut Sessions,
    configs: &PlainConfigs,
    step: &mut Row<'_>,
) -> Option<String> {
    let now = step.number::<u64>(" ");
    for _peer in 0..PEERS {
        let _lost = sessions.next_lost(configs, now);
    }
    beat(alloc, sessions, configs, now)
}

fn beat(
    alloc: Global,
    sessions: &mut Sessions,
    configs: &PlainConfigs,
    now: u64,
) -> Option<String> {
    match sessions.next_beat(configs, now) {
        Some(beat) => {
            let word = if beat.heard { "heard" } else { "silent" };
            format!(in alloc; "{} {} {word}", beat.peer, beat.id).ok()
        }
        None => Some(String::new(alloc)),
    }
}

/// Takes a step, and answers what it shows.
fn take(
    alloc: Global,
    sessions: &mut Sessions,
    configs: &mut PlainConfigs,
    step: &mut Row<'_>,
) -> Option<String> {
    match step.text(" ") {
        "heard" => hear(alloc, sessions, step),
        "number" => number(alloc, sessions, step),
        "begin" => begin(alloc, sessions, step),
        "lost" => lost(alloc, sessions, configs, step),
        "due" => {
            let now = step.number::<u64>(" ");
            beat(alloc, sessions, configs, now)
        }
        "next" => next(alloc, sessions, configs, step),
        "by" => {
            configs.interval = step.number::<u64>(" ");
            configs.missing = step.number::<u64>(" ");
            Some(String::new(alloc))
        }
        _ => None,
    }
}

/// Whether each step of a row shows what stands behind it.
fn show_all(alloc: Global, sessions: &mut Sessions, row: &Row<'_>) -> Option<bool> {
    let mut configs = PlainConfigs {
        interval: 30,
        missing: 15,
    };
    let mut right = true;
    for step in row.rest().split("; ") {
        let mut step = Row::new(step, ": ");
        let printed = take(alloc, sessions, &mut configs, &mut step)?;
        right &= printed.as_str() == step.want() && step.is_read();
    }
    Some(right)
}

fn show_of(alloc: Global, settings: &Settings, row: &Row<'_>) -> Option<bool> {
    let mut sessions = Sessions::new(alloc, settings).ok()?;
    show_all(alloc, &mut sessions, row)
}

/// Whether the steps of a row show what they are to.
pub fn are_printed(alloc: Global, row: &Row<'_>) -> Option<bool> {
    let mut source = MemorySource::new(alloc, SETTINGS).ok()?;
    let settings = read_settings(alloc, &mut source).ok()?;
    let printed = show_of(alloc, &settings, row);
    drop(settings);
    printed
}

#[test]
fn heartbeats_are_sent(rt: HostRuntime) {
    all_hold(&rt, rt.alloc(), Rows::Beats, BEATS);
}
