//! Host files that can't be used, and a journal that another server has.

use crate::serving::status_with;
use dots_edge::FileSocketHost;
use std::fs;
use std::test::Fail;

/// Whether a run over this host file, or over none where it can't be opened, ends so and reports nothing.
fn ends(rt: &HostRuntime, host_file: Option<&[u8]>, status: u8) -> bool {
    let mut report = Vec::new(rt.alloc());
    status_with(rt, host_file, &mut report) == Some(status) && report.is_empty()
}

/// Whether each of these host files ends its run as it has to.
fn all_end(rt: &HostRuntime) -> bool {
    let mut all = ends(rt, None, 6);
    for (host_file, status) in [
        // a line of no form, and no journal
        ("journal worked_rows_unused\nevents\n", 6),
        ("events 0\n", 6),
        ("journal /no/such/folder/journal\nevents 0\n", 6),
        ("journal worked_rows_ended\nevents 0\n", 0),
    ] {
        all &= ends(rt, Some(host_file.as_bytes()), status);
    }
    all
}

fn is_empty(rt: &HostRuntime, name: &str) -> bool {
    match fs::metadata(rt, name) {
        Ok(file) => file.len() == 0,
        Err(_) => false,
    }
}

/// Whether a server over this host file ends with 6, and the journal has nothing in it then.
fn is_left_alone(rt: &HostRuntime, host_file: &[u8]) -> bool {
    ends(rt, Some(host_file), 6) && is_empty(rt, "worked_rows_locked")
}

/// Whether a second server on the journal of another one ends with 6, and the file has nothing in it then.
fn is_kept_out(rt: &HostRuntime) -> bool {
    let host_file = b"journal worked_rows_locked\nevents 0\n";
    match FileSocketHost::open(rt.alloc(), rt, host_file) {
        Ok(first) => {
            let is_alone = is_left_alone(rt, host_file);
            drop(first);
            is_alone
        }
        Err(_) => false,
    }
}

#[test]
fn a_host_file_or_a_journal_that_cannot_be_used(rt: HostRuntime) -> Result<(), Fail> {
    assert!(rt; all_end(&rt) && is_kept_out(&rt));
    fs::remove_file(&rt, "worked_rows_ended")?;
    fs::remove_file(&rt, "worked_rows_locked")?;
    Ok(())
}
