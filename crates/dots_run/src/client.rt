//! The client over real sockets, and what is told of its settings.

ghost use Rattle.std.specs.Prelude.{◌≡◌, ◌<◌, ◌^◌, map, string_bytes, Option, true, MatchOption, option_and_then};
ghost use Rattle.std.specs.Fn.{FnReturnsAt};
ghost use Rattle.dots_host.specs.Causes.{Rose};
ghost use Rattle.dots_edge.specs.Edge.{Edge};
ghost use Rattle.ask_agent.specs.Commands.{is_ask, second_of, third_of};
ghost use Rattle.dots_run.specs.Clients.{around_at, AsksOver};
ghost use Rattle.dots_run.specs.OverSockets.{IsOpenedFrom};

use crate::sockets::{Served, open_host};
use ask_agent::{Firsts, ask_names, run_client};
use dots_edge::FileSocketHost;
use dots_host::{Sink, Source, StdSink, StdSource};
use std::alloc::Global;
use std::fs::{File, Files};
use std::io::{Read, Write};
use std::net::Net;
use std::time::Clock;

/// The exit status where no memory is found.
const NO_MEMORY: u8 = 4;

/// The greatest second with which a client begins: that before 2^48.
const LAST_SECOND: u64 = 281_474_976_710_655;

/// Does all that the program does with the words `ask SETTINGS HOSTFILE`: `opening` opens both files by their names, the runtime opens the
/// sockets that the host file names, and at End what is granted is written to `report`. The journal of the host file isn't used.
/// A file that can't be opened, where `opening` gives None, fails when it is read. In place of a host file that can't be read, or has
/// more than 65,536 bytes, stands one with a fault, over which every call of the host fails. Where the settings don't say the first
/// mid and the first number, these are of the second at which the run begins, so that a server doesn't take a request for
/// one of a run before. Status 4 where no memory is found for the host.
pub fn ask_sockets<
    F: Read + Drop,
    K: Write + Drop,
    R: Files<File = File> + Net + Clock + Drop,
    Open: Fn(&str) -> Option<F> + Drop,
>(
    alloc: Global,
    words: &[String],
    opening: Open,
    rt: R,
    report: K,
) -> Served<F, K, FileSocketHost<R>>
    requires opens { Open.IsAlwaysCallable opening }
    requires asks { is_ask (map string_bytes words.now) ≡ true }
    // The two files are what opening the second and the third word gave. Where the host finds no memory, no settings were read and nothing was
    // written; and else the client ran over the host that the host file's text opens.
    ensures { (file named : Option F) × FnReturnsAt Open.Fn opening (second_of (map string_bytes words.now)) file
        × FnReturnsAt Open.Fn opening (third_of (map string_bytes words.now)) named
        × MatchOption result.host
        ((result.status ≡ 4) × (⟦<StdSource<F> as Source>⟧.left result.settings ≡ option_and_then F.remaining file) × (⟦<StdSource<F> as Source>⟧.faults result.settings ≡ 0)
        × (⟦<StdSink<K> as Sink>⟧.holds result.report ≡ K.contents report) × (⟦<StdSink<K> as Sink>⟧.faults result.report ≡ 0))
        (λ host. (first : Edge) × IsOpenedFrom (option_and_then F.remaining named) (Rose 0 (⟦<StdSource<F> as Source>⟧.faults result.host_file)) first
        × AsksOver (map string_bytes words.now) result.status
        (around_at (option_and_then F.remaining file) 0 first (K.contents report) 0)
        (around_at (⟦<StdSource<F> as Source>⟧.left result.settings) (⟦<StdSource<F> as Source>⟧.faults result.settings) host (⟦<StdSink<K> as Sink>⟧.holds result.report) (⟦<StdSink<K> as Sink>⟧.faults result.report))
        first host) }
{
    let (settings, host_file) = ask_names(words);
    let mut settings = StdSource::new(opening(settings));
    let mut host_file = StdSource::new(opening(host_file));
    let mut report = StdSink::new(report);
    let firsts = Firsts::at(start_second(&rt));
    let Ok(mut host) = open_host(alloc, rt, &mut host_file) else {
        return Served {
            status: NO_MEMORY,
            settings,
            host_file,
            host: None,
            report,
        };
    };
    let status = run_client(alloc, words, &mut settings, firsts, &mut host, &mut report);
    Served {
        status,
        settings,
        host_file,
        host: Some(host),
        report,
    }
}

/// The seconds since 1970, below 2^48; 0 where the clock can't be read.
pub fn start_second<R: Clock>(rt: &R) -> u64
    ensures { result < 2 ^ 48 }
{
    match rt.since_1970() {
        Ok(wall) => wall.as_secs().min(LAST_SECOND),
        Err(_) => 0,
    }
}
