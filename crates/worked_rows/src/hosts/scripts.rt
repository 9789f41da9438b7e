//! The host of a script.

use crate::hosts::acts::all_go;
use crate::hosts::around::Around;
use crate::hosts::set_clock::SetClock;
use crate::hosts::streams::failing_sink;
use dots_host::{MemorySource, NoMemory, Sink, StdSink};
use dots_script::ScriptHost;
use std::alloc::Global;

/// A host over a script, whose sends go to the sink.
fn host_of<K: Sink + Drop>(
    alloc: Global,
    script: &str,
    sink: K,
) -> Result<ScriptHost<MemorySource, K>, NoMemory> {
    let source = MemorySource::new(alloc, script.as_bytes())?;
    ScriptHost::new(alloc, source, sink)
}

fn goes_among<K: Sink + Drop>(around: &mut Around<'_>, script: &str, sink: K, acts: &str) -> bool {
    match host_of(around.rt.alloc(), script, sink) {
        Ok(mut host) => {
            let goes = all_go(&mut host, around, acts);
            drop(host);
            goes
        }
        Err(_) => false,
    }
}

/// Whether the acts go over a host of this script that sends to this sink.
fn goes<K: Sink + Drop>(rt: &HostRuntime, script: &str, sink: K, acts: &str) -> bool {
    let clock = SetClock::new(rt);
    let mut around = Around::new(rt, &clock);
    let goes = goes_among(&mut around, script, sink, acts);
    drop(around);
    goes
}

/// Whether the acts go over a host of this script, and these bytes are sent.
fn goes_and_sends(rt: &HostRuntime, script: &str, acts: &str, sent: &str) -> bool {
    let mut held = Vec::new(rt.alloc());
    goes(rt, script, StdSink::new(&mut held), acts) && held.as_slice() == sent.as_bytes()
}

/// Rows stand apart by `==`. Each has a script, acts over its host, and the lines that it sends, with `--` between them. An empty line
/// in front of a mark ends the line above it.
const ROWS: &str = "\
# comment

at 1000 from 0 50030002
at 281474976710655 from 4294967295 aAfF

--
at 1000 from 0 = 0x50030002
at 281474976710655 from 4294967295 = 0xaaff
==
at 0 from 7 00
#

--
at 0 from 7 = 0x00
at 0 end
==
at 1000 from 0 aaff

at 1001 tick

--
at 1000 from 0 = 0xaaff
at 1001 tick
==
at 0 tick
# comment
at 281474976710655 tick

--
at 0 tick
at 281474976710655 tick
==
at 1001 tick
at 1000 from 0 aaff

--
at 1001 tick
at 1000 from 0 = 0xaaff
==
at 7 tick
at 8 tick
--
at 7 tick
at 0 failed
==
at 1000 from 0 aaff
# comment
at 1001 restart

--
at 1000 from 0 = 0xaaff
at 1001 restart
==
at 0 restart
at 281474976710655 restart

--
at 0 restart
at 281474976710655 restart
==
at 7 restart
at 8 restart x

--
at 7 restart
at 0 failed
==
# A connection is opened, bytes come on it, and it is closed.
at 1000 open 5 0
at 1000 piece 5 474554
at 1001 open 4294967295 4294967295
at 1001 piece 4294967295 aAfF
at 1002 close 5
at 281474976710655 close 4294967295

--
at 1000 opened 5 0
at 1000 piece 5 = GET
at 1001 opened 4294967295 4294967295
at 1001 piece 4294967295 = 0xaaff
at 1002 closed 5
at 281474976710655 closed 4294967295
at 0 end
==
# A send is a line.
--
ok to 0 = 0x50a10002
--
to 0 50a10002

==
# So are bytes of a connection.
--
ok conn 4294967295 = 0xc0
--
conn 4294967295 c0

==
# So is its end.
--
ok close 10
--
close 10

==
at 7 tick

--
# A disk of 2^30 bytes, which was zeros, holds what is written to it while calls of the wire come between, and zeros around that and at
# its end.
size 1073741824
ok write 8192 = DOTS
at 7 tick
ok close 1
ok sync
size 1073741824
ok read 8191 = 0x00444f545300
ok read 1073741820 = 0x00000000
--
close 1

==
at 1 from 0 00
--
# The rest are faults, and a fault stays: a line that lacks its line feed, a number with leading zeros, half a byte, no byte, a time of 49
# bits, a tick or a restart with no time, in capitals or with something around it, and other words.
times 2 at 0 failed
==
# comment
--
times 2 at 0 failed
==
at 01 from 0 00

--
times 2 at 0 failed
==
at 1 from 0 0

--
times 2 at 0 failed
==
at 1 from 0\x20

--
times 2 at 0 failed
==
at 281474976710656 from 0 00

--
times 2 at 0 failed
==
at 1 tick
--
times 2 at 0 failed
==
at 281474976710656 tick

--
times 2 at 0 failed
==
at 01 tick

--
times 2 at 0 failed
==
at tick

--
times 2 at 0 failed
==
at 1 tick\x20

--
times 2 at 0 failed
==
at 1  tick

--
times 2 at 0 failed
==
at 1 tick 0

--
times 2 at 0 failed
==
at 1 ticks

--
times 2 at 0 failed
==
at 1 tic

--
times 2 at 0 failed
==
at 1 TICK

--
times 2 at 0 failed
==
at 1 tickfrom 0 00

--
times 2 at 0 failed
==
at 1\x20

--
times 2 at 0 failed
==
at 1

--
times 2 at 0 failed
==
at 1 tock

--
times 2 at 0 failed
==
at 1 restart
--
times 2 at 0 failed
==
at 281474976710656 restart

--
times 2 at 0 failed
==
at restart

--
times 2 at 0 failed
==
at 1 restart\x20

--
times 2 at 0 failed
==
at 1  restart

--
times 2 at 0 failed
==
at 1 restart x

--
times 2 at 0 failed
==
at 1 restarts

--
times 2 at 0 failed
==
at 1 restar

--
times 2 at 0 failed
==
at 1 RESTART

--
times 2 at 0 failed
==
at 1 open 5

--
times 2 at 0 failed
==
at 1 open 5 0\x20

--
times 2 at 0 failed
==
at 1 open 5  0

--
times 2 at 0 failed
==
at 1 open 05 0

--
times 2 at 0 failed
==
at 1 open 5 00

--
times 2 at 0 failed
==
at 1 open 4294967296 0

--
times 2 at 0 failed
==
at 1 open 0 4294967296

--
times 2 at 0 failed
==
at 1 open 5 0 0

--
times 2 at 0 failed
==
at 1 opened 5 0

--
times 2 at 0 failed
==
at open 5 0

--
times 2 at 0 failed
==
at 281474976710656 open 5 0

--
times 2 at 0 failed
==
at 1 piece 5

--
times 2 at 0 failed
==
at 1 piece 5\x20

--
times 2 at 0 failed
==
at 1 piece 5 0

--
times 2 at 0 failed
==
at 1 piece 5 000

--
times 2 at 0 failed
==
at 1 piece 5 0g

--
times 2 at 0 failed
==
at 1 piece 05 00

--
times 2 at 0 failed
==
at 1 piece 4294967296 00

--
times 2 at 0 failed
==
at 1 piece 5 00\x20

--
times 2 at 0 failed
==
at 1 piece 00

--
times 2 at 0 failed
==
at 1 close

--
times 2 at 0 failed
==
at 1 close\x20

--
times 2 at 0 failed
==
at 1 close 05

--
times 2 at 0 failed
==
at 1 close 4294967296

--
times 2 at 0 failed
==
at 1 close 5\x20

--
times 2 at 0 failed
==
at 1 close 5 0

--
times 2 at 0 failed
==
at 1 close -1

--
times 2 at 0 failed
==
at 1 closed 5

--
times 2 at 0 failed
==
at 1 Close 5

--
times 2 at 0 failed";

fn row_goes(rt: &HostRuntime, row: &str) -> bool {
    let (script, rest) = row.split_once("\n--\n").unwrap_or((row, ""));
    let (acts, sent) = rest.split_once("\n--\n").unwrap_or((rest, ""));
    goes_and_sends(rt, script, acts, sent)
}

#[test]
fn rows_of_scripts(rt: HostRuntime) {
    for row in ROWS.split("\n==\n") {
        assert!(rt; row_goes(&rt, row), "at {row}");
    }
}

#[test]
fn a_line_that_is_cut_is_lost(rt: HostRuntime) {
    let mut room = [0; 7];
    let is_lost = goes(
        &rt,
        "",
        StdSink::new(room.as_mut_slice()),
        "no to 0 = 0xabcd",
    );
    assert!(rt; is_lost && room == *b"to 0 ab");
}

/// Whether the acts go over a host whose second call of the sink fails.
fn goes_to_failing(rt: &HostRuntime, acts: &str) -> bool {
    match failing_sink(rt.alloc()) {
        Ok(sink) => goes(rt, "", sink, acts),
        Err(_) => false,
    }
}

/// The whole line goes to one call of the sink, and a send of more bytes than an event has takes two.
#[test]
fn a_line_takes_one_call(rt: HostRuntime) {
    for acts in [
        "ok conn 1 = FULL\nno conn 1 = FULL",
        "no conn 1 = LONG\nok conn 1 = LONG",
    ] {
        assert!(rt; goes_to_failing(&rt, acts), "at {acts}");
    }
}
