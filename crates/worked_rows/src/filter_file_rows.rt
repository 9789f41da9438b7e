//! Files of filters, as runs over scripts leave them in the folder that they are run in, and a file of figures, as a run over sockets does.

use crate::runs::{Parts, parts_of_row};
use crate::scripted::host_of;
use crate::serving::status_with;
use crate::tables::Row;
use dots_host::MemorySink;
use dots_run::{Ended, FilterFiles, run_blocks};
use std::fs;
use std::test::Fail;

const REPORT: &str = "worked_rows_filters";

/// Where a new report is made.
const BESIDE: &str = "worked_rows_filters.new";

const SCRIPT: &str = "worked_rows_filters_nft";

const FIGURES: &str = "worked_rows_figures";

/// A run over sockets ends behind its first event, which is a tick.
const HOST_FILE: &[u8] =
    b"journal worked_rows_figured\nevents 1\nfigures worked_rows_figures\nfilters worked_rows_none\n";

const LINES: &[u8] = b"filters worked_rows_filters\nfilters-nft worked_rows_filters_nft\n";

/// A run of this script, with the report that is in the file then. That has what stood at the last tick.
const TICKED: &str = "\
$ replay settings
:&
< at 1000 from 0 REQUEST
< at 1001 tick
< at 1002 from 0 51040002+MITIGATE+CUID+MID_123
= ROW";

/// A second tick finds other filters.
const GONE: &str = "\
$ replay settings
:&
< at 1000 from 0 REQUEST
< at 1001 tick
< at 1002 from 0 51040002+MITIGATE+CUID+MID_123
< at 1122 tick";

/// No tick comes.
const UNTICKED: &str = "\
$ replay settings
:&
< at 1000 from 0 REQUEST
= ROW";

/// The status of a run over this script that writes the files.
fn status_over(rt: &HostRuntime, row: Row, parts: &mut Parts) -> Option<u8> {
    let alloc = rt.alloc();
    let script = row.text(alloc, "<")?;
    let host = host_of(alloc, script.as_str()).ok()?;
    let mut files = FilterFiles::of(alloc, rt, LINES).ok()?;
    let mut sink = MemorySink::new(alloc);
    let Ended { status, host } = run_blocks(
        alloc,
        parts.words.as_slice(),
        &mut parts.settings,
        host,
        &mut sink,
        &mut files,
    );
    drop(host);
    Some(status)
}

/// Whether a run of these lines goes well.
fn runs(rt: &HostRuntime, lines: &str) -> bool {
    let row = Row { lines };
    match parts_of_row(rt.alloc(), row) {
        Some(mut parts) => status_over(rt, row, &mut parts) == Some(0),
        None => false,
    }
}

/// Whether the report in the file is that of these lines.
fn has_report(rt: &HostRuntime, lines: &str) -> bool {
    match fs::read_to_string(rt, REPORT) {
        Ok(found) => Row { lines }.has(rt.alloc(), "=", found.as_bytes()),
        Err(_) => false,
    }
}

/// Whether the file at the path has this part.
fn has_part(rt: &HostRuntime, path: &str, part: &str) -> bool {
    match fs::read_to_string(rt, path) {
        Ok(found) => found.contains(part),
        Err(_) => false,
    }
}

/// Whether a run that can't make a new report goes well all the same, leaves the report that is there, and writes the script.
fn goes_on(rt: &HostRuntime, lines: &str, left: &str) -> bool {
    fs::create_dir(rt, BESIDE).is_ok()
        && runs(rt, lines)
        && has_report(rt, left)
        && fs::remove_dir(rt, BESIDE).is_ok()
}

#[test]
fn files_have_the_filters_of_the_last_tick(rt: HostRuntime) -> Result<(), Fail> {
    assert!(rt; runs(&rt, UNTICKED) && fs::metadata(&rt, REPORT).is_err());
    assert!(rt; runs(&rt, TICKED) && has_report(&rt, TICKED));
    assert!(rt;
        has_part(&rt, SCRIPT, " ip daddr 192.0.2.0/24") && has_part(&rt, SCRIPT, " timeout 3599s")
    );
    assert!(rt; goes_on(&rt, GONE, TICKED));
    assert!(rt; !has_part(&rt, SCRIPT, " ip daddr 192.0.2.0/24"));
    assert!(rt; runs(&rt, GONE) && has_report(&rt, GONE));
    fs::remove_file(&rt, REPORT)?;
    fs::remove_file(&rt, SCRIPT)?;
    Ok(())
}

#[test]
fn a_file_has_the_figures_of_the_first_tick(rt: HostRuntime) -> Result<(), Fail> {
    let mut report = Vec::new(rt.alloc());
    assert!(rt; status_with(&rt, Some(HOST_FILE), &mut report) == Some(0));
    for line in [
        "\ndots_events_total 1\n",
        "\n# TYPE dots_replies_total counter\n",
        "\ndots_mitigations{domain=\"net1\"} 0\n",
        "\ndots_mitigation_rows 0\n",
        "\ndots_journal_slots_used 0\n",
    ] {
        assert!(rt; has_part(&rt, FIGURES, line), "no {line}");
    }
    assert!(rt; has_part(&rt, "worked_rows_none", ""));
    fs::remove_file(&rt, "worked_rows_figured")?;
    fs::remove_file(&rt, FIGURES)?;
    fs::remove_file(&rt, "worked_rows_none")?;
    Ok(())
}
