//! Runs in which a call fails, and what is found on the disk after them.

use crate::acts::sends_of;
use crate::disks::host_over;
use crate::events::push_all;
use crate::images::{WAYS, image_after, image_of};
use crate::runs::{Asked, run_over};
use crate::tables::Row;
use crate::texts::{TWO, TWO_BYTES};
use dots_host::{Act, Event, MemoryHost, MemorySink, OwnedOut};
use std::alloc::Global;

/// More calls than a run of a plan makes.
const MANY: u64 = 1000;

/// A journal of the first format in which each slot has an entry: the first request was accepted 28 times.
const FULL: &str = "\
* 0 HEADER
* 8192 a5007e+00000000000003e8+CLIENT+0100010016+51410001+DONE+PUT+AT_1000
* 16384 a5007e+00000000000003e9+CLIENT+0100020016+51440002+DONE+PUT+AT_1000
* 24576 a5007e+00000000000003ea+CLIENT+0100030016+51440003+DONE+PUT+AT_1000
* 32768 a5007e+00000000000003eb+CLIENT+0100040016+51440004+DONE+PUT+AT_1000
* 40960 a5007e+00000000000003ec+CLIENT+0100050016+51440005+DONE+PUT+AT_1000
* 49152 a5007e+00000000000003ed+CLIENT+0100060016+51440006+DONE+PUT+AT_1000
* 57344 a5007e+00000000000003ee+CLIENT+0100070016+51440007+DONE+PUT+AT_1000
* 65536 a5007e+00000000000003ef+CLIENT+0100080016+51440008+DONE+PUT+AT_1000
* 73728 a5007e+00000000000003f0+CLIENT+0100090016+51440009+DONE+PUT+AT_1000
* 81920 a5007e+00000000000003f1+CLIENT+01000a0016+5144000a+DONE+PUT+AT_1000
* 90112 a5007e+00000000000003f2+CLIENT+01000b0016+5144000b+DONE+PUT+AT_1000
* 98304 a5007e+00000000000003f3+CLIENT+01000c0016+5144000c+DONE+PUT+AT_1000
* 106496 a5007e+00000000000003f4+CLIENT+01000d0016+5144000d+DONE+PUT+AT_1000
* 114688 a5007e+00000000000003f5+CLIENT+01000e0016+5144000e+DONE+PUT+AT_1000
* 122880 a5007e+00000000000003f6+CLIENT+01000f0016+5144000f+DONE+PUT+AT_1000
* 131072 a5007e+00000000000003f7+CLIENT+0100100016+51440010+DONE+PUT+AT_1000
* 139264 a5007e+00000000000003f8+CLIENT+0100110016+51440011+DONE+PUT+AT_1000
* 147456 a5007e+00000000000003f9+CLIENT+0100120016+51440012+DONE+PUT+AT_1000
* 155648 a5007e+00000000000003fa+CLIENT+0100130016+51440013+DONE+PUT+AT_1000
* 163840 a5007e+00000000000003fb+CLIENT+0100140016+51440014+DONE+PUT+AT_1000
* 172032 a5007e+00000000000003fc+CLIENT+0100150016+51440015+DONE+PUT+AT_1000
* 180224 a5007e+00000000000003fd+CLIENT+0100160016+51440016+DONE+PUT+AT_1000
* 188416 a5007e+00000000000003fe+CLIENT+0100170016+51440017+DONE+PUT+AT_1000
* 196608 a5007e+00000000000003ff+CLIENT+0100180016+51440018+DONE+PUT+AT_1000
* 204800 a5007e+0000000000000400+CLIENT+0100190016+51440019+DONE+PUT+AT_1000
* 212992 a5007e+0000000000000401+CLIENT+01001a0016+5144001a+DONE+PUT+AT_1000
* 221184 a5007e+0000000000000402+CLIENT+01001b0016+5144001b+DONE+PUT+AT_1000
* 229376 a5007e+0000000000000403+CLIENT+01001c0016+5144001c+DONE+PUT+AT_1000";

/// The same in the second format.
const FULL_SEALED: &str = "\
* 0 HEADER
* 48 000202
* 8192 a50087+00000000000003e8+CLIENT+0100010016+51410001+DONE+PUT+AT_1000+01+290a1e2ed6fa0112
* 16384 a50087+00000000000003e9+CLIENT+0100020016+51440002+DONE+PUT+AT_1000+01+49d8566c5aa9ffb9
* 24576 a50087+00000000000003ea+CLIENT+0100030016+51440003+DONE+PUT+AT_1000+01+ef4243dd4a326e2e
* 32768 a50087+00000000000003eb+CLIENT+0100040016+51440004+DONE+PUT+AT_1000+01+61830de88cbed588
* 40960 a50087+00000000000003ec+CLIENT+0100050016+51440005+DONE+PUT+AT_1000+01+bd43ef5725002795
* 49152 a50087+00000000000003ed+CLIENT+0100060016+51440006+DONE+PUT+AT_1000+01+a224f8cf217df2b6
* 57344 a50087+00000000000003ee+CLIENT+0100070016+51440007+DONE+PUT+AT_1000+01+ccaedef5b09cd709
* 65536 a50087+00000000000003ef+CLIENT+0100080016+51440008+DONE+PUT+AT_1000+01+e0c69e48d2d10f04
* 73728 a50087+00000000000003f0+CLIENT+0100090016+51440009+DONE+PUT+AT_1000+01+fc95e58b7f90776f
* 81920 a50087+00000000000003f1+CLIENT+01000a0016+5144000a+DONE+PUT+AT_1000+01+25718379f16e86d9
* 90112 a50087+00000000000003f2+CLIENT+01000b0016+5144000b+DONE+PUT+AT_1000+01+c9b32ddc2e0e78bb
* 98304 a50087+00000000000003f3+CLIENT+01000c0016+5144000c+DONE+PUT+AT_1000+01+8b76fe21d1b5dbf3
* 106496 a50087+00000000000003f4+CLIENT+01000d0016+5144000d+DONE+PUT+AT_1000+01+6f958bad5a150dd6
* 114688 a50087+00000000000003f5+CLIENT+01000e0016+5144000e+DONE+PUT+AT_1000+01+f4b7e5b1832a8582
* 122880 a50087+00000000000003f6+CLIENT+01000f0016+5144000f+DONE+PUT+AT_1000+01+a34f7df045278799
* 131072 a50087+00000000000003f7+CLIENT+0100100016+51440010+DONE+PUT+AT_1000+01+1c35745ddaa19962
* 139264 a50087+00000000000003f8+CLIENT+0100110016+51440011+DONE+PUT+AT_1000+01+1b9b1146242391c8
* 147456 a50087+00000000000003f9+CLIENT+0100120016+51440012+DONE+PUT+AT_1000+01+e23cacd1272866cd
* 155648 a50087+00000000000003fa+CLIENT+0100130016+51440013+DONE+PUT+AT_1000+01+e35d9a413fd287ce
* 163840 a50087+00000000000003fb+CLIENT+0100140016+51440014+DONE+PUT+AT_1000+01+57a68542efe698ba
* 172032 a50087+00000000000003fc+CLIENT+0100150016+51440015+DONE+PUT+AT_1000+01+27f7308db5d1d1f0
* 180224 a50087+00000000000003fd+CLIENT+0100160016+51440016+DONE+PUT+AT_1000+01+276c59abb02a76f5
* 188416 a50087+00000000000003fe+CLIENT+0100170016+51440017+DONE+PUT+AT_1000+01+23aff8b22df00994
* 196608 a50087+00000000000003ff+CLIENT+0100180016+51440018+DONE+PUT+AT_1000+01+f9bbcdb346f0a4ac
* 204800 a50087+0000000000000400+CLIENT+0100190016+51440019+DONE+PUT+AT_1000+01+7c1ed1d715326623
* 212992 a50087+0000000000000401+CLIENT+01001a0016+5144001a+DONE+PUT+AT_1000+01+d5158ff72507f3fb
* 221184 a50087+0000000000000402+CLIENT+01001b0016+5144001b+DONE+PUT+AT_1000+01+abc8fe9217ff2c7c
* 229376 a50087+0000000000000403+CLIENT+01001c0016+5144001c+DONE+PUT+AT_1000+01+3b392c4b6375a778";

/// Requests over a journal.
#[derive(Clone, Copy)]
struct Plan<'a> {
    /// What the disk holds before.
    before: &'a str,
    /// The events.
    events: &'a str,
    /// How many requests a datagram or a piece brings.
    requests: usize,
    /// The events of a run that looks for what is on the disk.
    asked: &'a str,
    /// What is sent and reported in that run where none of the requests is accepted, where the first is, and so on.
    found: &'a [&'a str],
    /// The half of the disk that is in use in the end.
    half: u8,
}

/// Two requests over a disk that wasn't formatted, and a restart between them.
const OVER_NOTHING: Plan<'static> = Plan {
    before: "",
    events: "\
< at 2000 from 0 5103+0001+ASK
< at 2001 restart
< at 2001 from 0 5103+0002+ASK_SECOND",
    requests: 1,
    asked: "",
    found: &["", "= ROW", "= ROW\n= ROW_SECOND"],
    half: 0,
};

/// A request over a journal of the first format that has room for it.
const OVER_FIRST: Plan<'static> = Plan {
    before: "\
* 0 HEADER
* 8192 a5007e+00000000000003e8+CLIENT+0100010016+51410001+DONE+PUT+AT_1000",
    events: "< at 2000 from 0 5103+001d+ASK_SECOND",
    requests: 1,
    asked: "",
    found: &["= ROW", "= ROW\n= ROW_SECOND"],
    half: 0,
};

/// A request over a journal that is compacted for it, from the first format to the second.
const OVER_FULL: Plan<'static> = Plan {
    before: FULL,
    events: "< at 2000 from 0 5103+001d+ASK_SECOND",
    requests: 1,
    asked: "",
    found: &["= ROW", "= ROW\n= ROW_SECOND"],
    half: 1,
};

/// The same within the second format.
const OVER_SEALED: Plan<'static> = Plan {
    before: FULL_SEALED,
    events: "< at 2000 from 0 5103+001d+ASK_SECOND",
    requests: 1,
    asked: "",
    found: &["= ROW", "= ROW\n= ROW_SECOND"],
    half: 1,
};

/// A registration and an alias, which come in one piece.
const REST_EVENTS: &str = "< at 2000 open 1 0\n<~ at 2000 piece 1 PUT_CLIENT^PUT_WEB";

/// What the client has is read.
const REST_ASKED: &str = "< at 2000 open 1 0\n<~ at 2000 piece 1 GET_CLIENT";

/// Both over a disk that wasn't formatted.
const REST_OVER_NOTHING: Plan<'static> = Plan {
    before: "",
    events: REST_EVENTS,
    requests: 2,
    asked: REST_ASKED,
    found: &[">~ conn 1 NOT_FOUND", ">~ conn 1 NOTHING", ">~ conn 1 HELD"],
    half: 0,
};

/// Both over a journal that is compacted for the first of them.
const REST_OVER_FULL: Plan<'static> = Plan {
    before: FULL,
    events: REST_EVENTS,
    requests: 2,
    asked: REST_ASKED,
    found: &[
        ">~ conn 1 NOT_FOUND\n= ROW",
        ">~ conn 1 NOTHING\n= ROW",
        ">~ conn 1 HELD\n= ROW",
    ],
    half: 1,
};

/// Calls of a host that fail: that of this number, from 1, alone or with every later one.
#[derive(Clone, Copy)]
struct Failing {
    call: u64,
    onwards: bool,
}

/// What came of a run in which calls were to fail.
#[derive(Clone, Copy)]
enum Found {
    /// It ended as it was to, and what it left is found.
    Survived,
    /// It ended in another way, or something else is found.
    Lost,
    /// It ended well before any call failed.
    NothingFailed,
}

impl Failing {
    /// Lets the calls of the host fail, and answers whether that could be done.
    fn arrange(self, host: &mut MemoryHost) -> bool {
        if self.onwards {
            host.stop_at(self.call);
            return true;
        }
        host.fail_at(self.call).is_ok()
    }

    /// The status of a run that made these calls from the first that failed on. A send that is lost ends nothing; but where every later call
    /// fails, the next one that is no send ends the run.
    fn status(self, acts: &[Act]) -> u8 {
        for act in acts {
            match act {
                Act::Took { .. } => return 5,
                Act::Gave { .. } if self.onwards => {}
                Act::Gave { .. } => return 0,
                Act::Read { .. } | Act::Wrote { .. } | Act::Synced { .. } => return 6,
            }
        }
        0
    }
}

/// How many requests are accepted after these acts: at least those whose acceptance was told, 2.01, 2.04 or 201, and at most those that were
/// taken.
fn range_of(acts: &[Act], requests: usize) -> (usize, usize) {
    let mut least: usize = 0;
    let mut most: usize = 0;
    for act in acts {
        match act {
            Act::Took {
                event: Event::Datagram { .. } | Event::Piece { .. },
                ..
            } => most = most.saturating_add(requests),
            Act::Gave {
                out: OwnedOut::To { bytes, .. },
                done: true,
            } => match bytes.items() {
                [_, 0x41 | 0x44, ..] => least = most,
                _ => {}
            },
            Act::Gave {
                out: OwnedOut::Conn { bytes, .. },
                ..
            } => if bytes.items().starts_with(b"HTTP/1.1 201") {
                least = least.saturating_add(1);
            },
            _ => {}
        }
    }
    (least, most)
}

/// What came of a run that looked for what is on the disk.
#[derive(Clone, Copy)]
struct Seen<'a> {
    sends: &'a [u8],
    report: &'a [u8],
}

impl<'a> Plan<'a> {
    /// Whether this is seen where a number of requests in the range are accepted.
    fn has_seen(&self, alloc: Global, seen: Seen, range: (usize, usize)) -> bool {
        let (least, most) = range;
        let found = self.found.get(least..most.saturating_add(1));
        for lines in found.unwrap_or(&[]) {
            let row = Row { lines: *lines };
            if row.has(alloc, ">", seen.sends) && row.has(alloc, "=", seen.report) {
                return true;
            }
        }
        false
    }

    /// Whether a run that ended with this status reports what all requests leave, where it came to its end, and else nothing.
    fn is_reported(&self, alloc: Global, status: u8, report: &[u8]) -> bool {
        if status != 0 {
            return report.is_empty();
        }
        match self.found.last() {
            Some(lines) => Row { lines: *lines }.has(alloc, "=", report),
            None => false,
        }
    }
}

/// The status of a run of these events over the host, under the settings with two mitigations. What it reports is in the sink.
fn replayed(
    alloc: Global,
    events: &str,
    host: &mut MemoryHost,
    sink: &mut MemorySink,
) -> Option<u8> {
    let events = Row { lines: events }.text(alloc, "<")?;
    push_all(alloc, host, events.as_str())?;
    let asked = Asked {
        words: "replay settings",
        settings: TWO.as_bytes(),
        failing: 0,
    };
    run_over(alloc, asked, host, sink).ok()
}

/// Whether a run that looks for what is on the disk of the host ends well, and sees what is left where so many requests are accepted.
fn is_seen(
    alloc: Global,
    plan: &Plan,
    host: &mut MemoryHost,
    range: (usize, usize),
) -> Option<bool> {
    let mut sink = MemorySink::new(alloc);
    let status = replayed(alloc, plan.asked, host, &mut sink)?;
    let sends = sends_of(alloc, host.acts())?;
    let seen = Seen {
        sends: sends.as_bytes(),
        report: sink.bytes(),
    };
    Some(status == 0 && plan.has_seen(alloc, seen, range))
}

/// The same of this image.
fn is_found(alloc: Global, plan: &Plan, image: &[u8], range: (usize, usize)) -> bool {
    match host_over(alloc, TWO_BYTES, image) {
        Some(mut host) => {
            let seen = is_seen(alloc, plan, &mut host, range);
            drop(host);
            seen == Some(true)
        }
        None => false,
    }
}

/// The same of what stands on the disk of the host, which held the image before, and of each image that a crash leaves behind its calls.
fn is_found_each_way(alloc: Global, plan: &Plan, before: &[u8], host: &MemoryHost) -> bool {
    let acts = host.acts();
    let range = range_of(acts, plan.requests);
    let mut all = is_found(alloc, plan, host.image(), range);
    for way in WAYS {
        all &= match image_after(alloc, before, acts, way) {
            Some(image) => is_found(alloc, plan, image.as_slice(), range),
            None => false,
        };
    }
    all
}

/// What came of the run over the host, which ended with this status.
fn found_after(
    alloc: Global,
    plan: &Plan,
    before: &[u8],
    failing: Failing,
    host: &MemoryHost,
    status: u8,
) -> Found {
    let number = (failing.call as usize).saturating_sub(1);
    let failed = host.acts().get(number..).unwrap_or(&[]);
    if failed.is_empty() {
        let is_well = status == 0 && host.image().get(48) == Some(&plan.half);
        return if is_well {
            Found::NothingFailed
        } else {
            Found::Lost
        };
    }
    let is_as_wanted = status == failing.status(failed) && host.whole();
    if is_as_wanted && is_found_each_way(alloc, plan, before, host) {
        return Found::Survived;
    }
    Found::Lost
}

/// What comes of the plan over the host, which holds the image from before.
fn judged(
    alloc: Global,
    plan: &Plan,
    before: &[u8],
    failing: Failing,
    host: &mut MemoryHost,
) -> Found {
    if !failing.arrange(host) {
        return Found::Lost;
    }
    let mut sink = MemorySink::new(alloc);
    match replayed(alloc, plan.events, host, &mut sink) {
        Some(status) if plan.is_reported(alloc, status, sink.bytes()) => {
            found_after(alloc, plan, before, failing, host, status)
        }
        _ => Found::Lost,
    }
}

/// What comes of the plan over the image from before, with calls that fail.
fn outcome(alloc: Global, plan: &Plan, before: &[u8], failing: Failing) -> Found {
    match host_over(alloc, TWO_BYTES, before) {
        Some(mut host) => {
            let found = judged(alloc, plan, before, failing, &mut host);
            drop(host);
            found
        }
        None => Found::Lost,
    }
}

/// Whether each call of the plan over the image from before may fail.
fn survives_over(alloc: Global, plan: &Plan, before: &[u8], onwards: bool) -> bool {
    for call in 1..MANY {
        let failing = Failing { call, onwards };
        match outcome(alloc, plan, before, failing) {
            Found::Survived => {}
            Found::Lost => return false,
            Found::NothingFailed => return true,
        }
    }
    false
}

/// Whichever call fails, alone or with all behind it, what is found is what the first of the requests leave, among which each is whose
/// acceptance was told.
fn survives(alloc: Global, plan: &Plan, onwards: bool) -> Option<bool> {
    let lines = Row { lines: plan.before }.text(alloc, "*")?;
    let before = image_of(alloc, TWO_BYTES as usize, lines.as_str())?;
    Some(survives_over(alloc, plan, before.as_slice(), onwards))
}

/// Whether all plans survive.
fn all_survive(alloc: Global, plans: &[&Plan], onwards: bool) -> bool {
    for plan in plans {
        if survives(alloc, plan, onwards) != Some(true) {
            return false;
        }
    }
    true
}

/// Requests over journals of both formats, and over none.
const REQUESTS: [&Plan<'static>; 4] = [&OVER_NOTHING, &OVER_FIRST, &OVER_FULL, &OVER_SEALED];

#[test]
fn a_call_that_fails(rt: HostRuntime) {
    assert!(rt; all_survive(rt.alloc(), &REQUESTS, false));
}

#[test]
fn all_calls_that_fail(rt: HostRuntime) {
    assert!(rt; all_survive(rt.alloc(), &REQUESTS, true));
}

#[test]
fn a_call_that_fails_in_a_piece(rt: HostRuntime) {
    assert!(rt; all_survive(rt.alloc(), &[&REST_OVER_NOTHING, &REST_OVER_FULL], false));
}

#[test]
fn all_calls_that_fail_in_a_piece(rt: HostRuntime) {
    assert!(rt; all_survive(rt.alloc(), &[&REST_OVER_NOTHING, &REST_OVER_FULL], true));
}
