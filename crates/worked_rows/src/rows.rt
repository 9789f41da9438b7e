//! All rows.

use crate::block_rows::BLOCKS;
use crate::connection_rows::CONNECTIONS;
use crate::datagram_rows::DATAGRAMS;
use crate::disk_rows::{CHANGED, FOREIGN, JOINS, OTHERS, SEALED, SIZES};
use crate::disks::goes_over_disk;
use crate::domain_rows::DOMAINS;
use crate::faults::{FAULTY, LARGE, UNREAD};
use crate::journal_rows::{DIGESTS, FIRST_FORMAT, JOURNALS, TIMES};
use crate::list_rows::LISTS;
use crate::long_lists::{long_list, long_notice};
use crate::mitigation_rows::{FATES, MITIGATIONS};
use crate::name_rows::{LIFETIMES, SCOPES};
use crate::observer_rows::OBSERVERS;
use crate::option_rows::OPTIONS;
use crate::refusal_rows::REFUSALS;
use crate::repeat_rows::{LAST_TWO, REPEATS};
use crate::rest_rows::{FRONTS, REST, REST_FATES};
use crate::restart_rows::RESTARTS;
use crate::runs::sink_of;
use crate::script_rows::SCRIPTS;
use crate::scripted::goes_over_script;
use crate::session_rows::SESSIONS;
use crate::shown_rows::SHOWN;
use crate::signal_rows::SIGNALS;
use crate::tables::Row;
use crate::topic_rows::{EVENTS, FAULTS, WORDS};
use crate::{ask_rows, checks};
use dots_host::MemorySink;
use std::alloc::Global;
use std::process::Abort;

/// Whether the row is read, and a run of it goes as it says.
fn goes(alloc: Global, row: Row, sink: &mut MemorySink) -> Option<bool> {
    match row.number("@ ") {
        _ if !row.is_read() => None,
        0 => goes_over_script(alloc, row, sink),
        size => goes_over_disk(alloc, row, size, sink),
    }
}

/// Whether a run of the row, whose report may fail, goes as it says.
fn reports(alloc: Global, row: Row) -> Option<bool> {
    let mut sink = sink_of(alloc, row.number("! write ")).ok()?;
    goes(alloc, row, &mut sink)
}

/// Whether a run of a row behind the head of its table goes as it says.
fn holds(alloc: Global, head: &str, row: &str) -> bool {
    match format!(in alloc; "{head}\n{row}") {
        Ok(text) => reports(
            alloc,
            Row {
                lines: text.as_str(),
            },
        ) == Some(true),
        Err(_) => false,
    }
}

/// Each row of the table holds. Rows stand apart by an empty line.
fn all_hold(rt: &impl Abort, alloc: Global, table: &str) {
    let (head, rows) = table.split_once("\n\n").unwrap_or((table, ""));
    for row in rows.split("\n\n") {
        assert!(rt; holds(alloc, head, row), "at {row}");
    }
}

#[test]
fn runs_over_scripts(rt: HostRuntime) {
    let alloc = rt.alloc();
    all_hold(&rt, alloc, DATAGRAMS);
    all_hold(&rt, alloc, DOMAINS);
    all_hold(&rt, alloc, MITIGATIONS);
    all_hold(&rt, alloc, FATES);
    all_hold(&rt, alloc, SCOPES);
    all_hold(&rt, alloc, LIFETIMES);
    all_hold(&rt, alloc, OBSERVERS);
    all_hold(&rt, alloc, OPTIONS);
    all_hold(&rt, alloc, REFUSALS);
    all_hold(&rt, alloc, REPEATS);
    all_hold(&rt, alloc, LAST_TWO);
    all_hold(&rt, alloc, RESTARTS);
    all_hold(&rt, alloc, SESSIONS);
    all_hold(&rt, alloc, SIGNALS);
    all_hold(&rt, alloc, SCRIPTS);
    all_hold(&rt, alloc, BLOCKS);
}

/// Whether a run goes as this row says, where there is one.
fn list_holds(alloc: Global, row: Option<String>) -> bool {
    match row {
        Some(text) => holds(alloc, "$ replay settings\n:&", text.as_str()),
        None => false,
    }
}

#[test]
fn runs_with_connections(rt: HostRuntime) {
    let alloc = rt.alloc();
    all_hold(&rt, alloc, CONNECTIONS);
    all_hold(&rt, alloc, REST);
    all_hold(&rt, alloc, FRONTS);
    all_hold(&rt, alloc, REST_FATES);
}

#[test]
fn long_lists_come_in_blocks(rt: HostRuntime) {
    let alloc = rt.alloc();
    assert!(rt; list_holds(alloc, long_list(alloc)));
    assert!(rt; list_holds(alloc, long_notice(alloc)));
}

#[test]
fn runs_of_commands(rt: HostRuntime) {
    let alloc = rt.alloc();
    all_hold(&rt, alloc, WORDS);
    all_hold(&rt, alloc, FAULTS);
    all_hold(&rt, alloc, EVENTS);
    all_hold(&rt, alloc, SHOWN);
    all_hold(&rt, alloc, checks::SETTINGS);
    all_hold(&rt, alloc, checks::SCRIPTS);
    all_hold(&rt, alloc, FAULTY);
    all_hold(&rt, alloc, LARGE);
    all_hold(&rt, alloc, UNREAD);
}

#[test]
fn runs_of_clients(rt: HostRuntime) {
    let alloc = rt.alloc();
    all_hold(&rt, alloc, ask_rows::ASKED);
    all_hold(&rt, alloc, ask_rows::FAULTS);
    all_hold(&rt, alloc, ask_rows::PROTECTED);
}

#[test]
fn runs_over_disks(rt: HostRuntime) {
    let alloc = rt.alloc();
    all_hold(&rt, alloc, CHANGED);
    all_hold(&rt, alloc, SEALED);
    all_hold(&rt, alloc, FOREIGN);
    all_hold(&rt, alloc, SIZES);
    all_hold(&rt, alloc, OTHERS);
    all_hold(&rt, alloc, JOINS);
    all_hold(&rt, alloc, JOURNALS);
    all_hold(&rt, alloc, FIRST_FORMAT);
    all_hold(&rt, alloc, TIMES);
    all_hold(&rt, alloc, DIGESTS);
    all_hold(&rt, alloc, LISTS);
}
