//! Whole runs of a gateway: what is sent, what is reported, and the exit status.
//!
//! Rows stand apart by an empty line. In front of a line stands its mark:
//!
//! - `:` a line of the settings, behind those of [`SETTINGS`]
//! - `<` a line of the script that the gateway takes
//! - `>` a line that is sent
//! - `=` a line that is reported
//! - `?` the exit status, where it isn't 0
//! - `!` the number of the write of the report that fails
//! - `#` a remark

use dots_host::{MemorySink, MemorySource};
use dots_script::ScriptHost;
use gateway_command::run_gateway_command;
use std::alloc::Global;
use std::process::Abort;

/// Clients of two domains, and another gateway: ten lines.
const SETTINGS: &str = "\
domain net1
prefix net1 192.0.2.0/24
prefix net1 2001:db8:1::/48
domain net2
prefix net2 198.51.100.0/24
client 0 net1
client 1 net1
client 2 net2
gateway 3
ceiling 86400
";

const ROWS: &str = "\
# a request is passed on, and what is answered goes back
: upstream 9
< at 1000 from 0 510300014abb2e77656c6c2d6b6e6f776e04646f7473086d697469676174650d0e637569643d647a3670486a6141446b614654626a72304a47427077076d69643d31323312010fffa101a10281a206816c3139322e302e322e302f32340e190e10
< at 1005 from 9 584100010000000000000001c2010fffa101a10281a205187b0e190e10
> to 9 580300010000000000000001bb2e77656c6c2d6b6e6f776e04646f7473086d6974696761746509636469643d6e6574310d0e637569643d647a3670486a6141446b614654626a72304a47427077076d69643d31323312010f410fffa101a10281a206816c3139322e302e322e302f32340e190e10
> to 0 514100014ac2010fffa101a10281a205187b0e190e10
= waiting 1

# a restart between the two: a repeat is passed on with the same number
: upstream 9
< at 1000 from 0 510300014abb2e77656c6c2d6b6e6f776e04646f7473086d697469676174650d0e637569643d647a3670486a6141446b614654626a72304a47427077076d69643d31323312010fffa101a10281a206816c3139322e302e322e302f32340e190e10
< at 1005 restart
< at 1010 from 0 510300014abb2e77656c6c2d6b6e6f776e04646f7473086d697469676174650d0e637569643d647a3670486a6141446b614654626a72304a47427077076d69643d31323312010fffa101a10281a206816c3139322e302e322e302f32340e190e10
< at 1011 from 9 584100010000000000000001c2010fffa101a10281a205187b0e190e10
> to 9 580300010000000000000001bb2e77656c6c2d6b6e6f776e04646f7473086d6974696761746509636469643d6e6574310d0e637569643d647a3670486a6141446b614654626a72304a47427077076d69643d31323312010f410fffa101a10281a206816c3139322e302e322e302f32340e190e10
> to 9 580300010000000000000001bb2e77656c6c2d6b6e6f776e04646f7473086d6974696761746509636469643d6e6574310d0e637569643d647a3670486a6141446b614654626a72304a47427077076d69643d31323312010f410fffa101a10281a206816c3139322e302e322e302f32340e190e10
> to 0 514100014ac2010fffa101a10281a205187b0e190e10
= waiting 1

# 246 seconds after it was passed on it waits still
: upstream 9
< at 1000 from 0 510300014abb2e77656c6c2d6b6e6f776e04646f7473086d697469676174650d0e637569643d647a3670486a6141446b614654626a72304a47427077076d69643d31323312010fffa101a10281a206816c3139322e302e322e302f32340e190e10
< at 1246 tick
> to 9 580300010000000000000001bb2e77656c6c2d6b6e6f776e04646f7473086d6974696761746509636469643d6e6574310d0e637569643d647a3670486a6141446b614654626a72304a47427077076d69643d31323312010f410fffa101a10281a206816c3139322e302e322e302f32340e190e10
= waiting 1

# and then no more: a restart finds its number, and what comes is another exchange
: upstream 9
< at 1000 from 0 510300014abb2e77656c6c2d6b6e6f776e04646f7473086d697469676174650d0e637569643d647a3670486a6141446b614654626a72304a47427077076d69643d31323312010fffa101a10281a206816c3139322e302e322e302f32340e190e10
< at 1247 restart
< at 1247 from 9 584100010000000000000001c2010fffa101a10281a205187b0e190e10
< at 1247 from 0 510300014abb2e77656c6c2d6b6e6f776e04646f7473086d697469676174650d0e637569643d647a3670486a6141446b614654626a72304a47427077076d69643d31323312010fffa101a10281a206816c3139322e302e322e302f32340e190e10
< at 1248 from 9 584100020000000000000002c2010fffa101a10281a205187b0e190e10
> to 9 580300010000000000000001bb2e77656c6c2d6b6e6f776e04646f7473086d6974696761746509636469643d6e6574310d0e637569643d647a3670486a6141446b614654626a72304a47427077076d69643d31323312010f410fffa101a10281a206816c3139322e302e322e302f32340e190e10
> to 9 580300020000000000000002bb2e77656c6c2d6b6e6f776e04646f7473086d6974696761746509636469643d6e6574310d0e637569643d647a3670486a6141446b614654626a72304a47427077076d69643d31323312010f410fffa101a10281a206816c3139322e302e322e302f32340e190e10
> to 0 514100014ac2010fffa101a10281a205187b0e190e10
= waiting 1

# nothing comes
: upstream 9
= waiting 0

# no line names an upstream
< at 1000 from 0 510300014abb2e77656c6c2d6b6e6f776e04646f7473086d697469676174650d0e637569643d647a3670486a6141446b614654626a72304a47427077076d69643d31323312010fffa101a10281a206816c3139322e302e322e302f32340e190e10
= settings line 11
? 3

# a line that is skipped counts
: # no upstream
= settings line 12
? 3

# the upstream is a gateway
: upstream 3
= settings twice 11
? 3

# a line of the script that is none
: upstream 9
< at 1000 from 0 510300014abb2e77656c6c2d6b6e6f776e04646f7473086d697469676174650d0e637569643d647a3670486a6141446b614654626a72304a47427077076d69643d31323312010fffa101a10281a206816c3139322e302e322e302f32340e190e10
< at 1000 tock
> to 9 580300010000000000000001bb2e77656c6c2d6b6e6f776e04646f7473086d6974696761746509636469643d6e6574310d0e637569643d647a3670486a6141446b614654626a72304a47427077076d69643d31323312010f410fffa101a10281a206816c3139322e302e322e302f32340e190e10
? 5

# the report can't be written
: upstream 9
! 1
? 9";

type Scripted = ScriptHost<MemorySource, MemorySink>;

/// The lines behind a mark.
fn text(alloc: Global, row: &str, mark: &str) -> Option<String> {
    let mut text = String::new(alloc);
    for line in row.lines() {
        if let Some(rest) = line.strip_prefix(mark) {
            text.push_str(rest).ok()?;
            text.push_str("\n").ok()?;
        }
    }
    Some(text)
}

/// The number behind a mark, and 0 where there is none.
fn number(row: &str, mark: &str) -> u64 {
    for line in row.lines() {
        if let Some(digits) = line.strip_prefix(mark) {
            return digits.parse::<u64>().unwrap_or(u64::MAX);
        }
    }
    0
}

/// The words that ask for a gateway.
pub fn words_of(alloc: Global) -> Option<Vec<String>> {
    let mut words = Vec::new(alloc);
    for word in ["gateway", "settings", "host"] {
        words.push(String::from_str(alloc, word).ok()?).ok()?;
    }
    Some(words)
}

/// The settings of a row.
fn settings_of(alloc: Global, row: &str) -> Option<MemorySource> {
    let mut file = String::from_str(alloc, SETTINGS).ok()?;
    let lines = text(alloc, row, ": ")?;
    file.push_str(lines.as_str()).ok()?;
    MemorySource::new(alloc, file.as_bytes()).ok()
}

/// A host over the script of a row, whose sends go to a list.
fn host_of(alloc: Global, row: &str) -> Option<Scripted> {
    let script = text(alloc, row, "< ")?;
    let source = MemorySource::new(alloc, script.as_bytes()).ok()?;
    ScriptHost::new(alloc, source, MemorySink::new(alloc)).ok()
}

/// Whether these are the lines behind a mark.
fn has(alloc: Global, row: &str, mark: &str, bytes: &[u8]) -> bool {
    match text(alloc, row, mark) {
        Some(text) => text.as_bytes() == bytes,
        None => false,
    }
}

/// Whether a run of the row over the host goes as it says.
fn leaves(
    alloc: Global,
    row: &str,
    words: &[String],
    settings: &mut MemorySource,
    report: &mut MemorySink,
    host: Scripted,
) -> bool {
    let mut host = host;
    let status = run_gateway_command(alloc, words, settings, &mut host, report);
    let goes = u64::from(status) == number(row, "? ")
        && has(alloc, row, "= ", report.bytes())
        && has(alloc, row, "> ", host.sink().bytes());
    drop(host);
    goes
}

/// Whether a run of the row goes as it says.
fn goes(alloc: Global, row: &str) -> Option<bool> {
    let words = words_of(alloc)?;
    let mut settings = settings_of(alloc, row)?;
    let mut report = MemorySink::new(alloc);
    report.fail_at(number(row, "! ")).ok()?;
    let host = host_of(alloc, row)?;
    Some(leaves(
        alloc,
        row,
        words.as_slice(),
        &mut settings,
        &mut report,
        host,
    ))
}

fn all_hold(rt: &impl Abort, alloc: Global) {
    for row in ROWS.split("\n\n") {
        assert!(rt; goes(alloc, row) == Some(true), "at {row}");
    }
}

#[test]
fn gateways_run(rt: HostRuntime) {
    all_hold(&rt, rt.alloc());
}
