//! Runs that serve over real sockets and a real journal, over loopback and in a folder of their own.
//!
//! What a socket or a file does no contract says, so a run is made here and compared with what has to come of it.

use crate::runs::{Asked, run_over, words_of};
use dots_edge::FileSocketHost;
use dots_host::MemorySink;
use dots_run::{is_serve, run_sockets};

const SETTINGS: &[u8] = b"domain net1\nprefix net1 192.0.2.0/24\nclient 0 net1\n";

const WORDS: &str = "serve settings host";

/// The status of a run over this host. What it reports is in the sink.
pub fn status_over<'a>(
    rt: &'a HostRuntime,
    host: &mut FileSocketHost<&'a HostRuntime>,
    report: &mut MemorySink,
) -> Option<u8> {
    let asked = Asked {
        words: WORDS,
        settings: SETTINGS,
        failing: 0,
    };
    run_over(rt.alloc(), asked, host, report).ok()
}

/// The status of a run with these words, and 255 where they ask for another.
fn served(
    rt: &HostRuntime,
    words: &[String],
    host_file: Option<&[u8]>,
    report: &mut Vec<u8>,
) -> u8 {
    if !is_serve(words) {
        return 255;
    }
    let opening = |name: &str| if name == "host" {
        host_file
    } else {
        Some(SETTINGS)
    };
    let served = run_sockets(rt.alloc(), words, opening, rt, rt, report);
    served.into_status()
}

/// The status of a run over this host file, or over none where it can't be opened. What it reports is in the list.
pub fn status_with(rt: &HostRuntime, host_file: Option<&[u8]>, report: &mut Vec<u8>) -> Option<u8> {
    let words = words_of(rt.alloc(), WORDS).ok()?;
    Some(served(rt, words.as_slice(), host_file, report))
}
