//! The client that asks once, over real sockets.

ghost use Rattle.std.specs.Prelude.{◌≡◌, map, string_bytes, Option, None, true, MatchOption, option_and_then};
ghost use Rattle.std.specs.Fn.{FnReturnsAt};
ghost use Rattle.dots_host.specs.Causes.{Rose};
ghost use Rattle.dots_edge.specs.Edge.{Edge};
ghost use Rattle.ask_agent.specs.Commands.{is_protect, second_of};
ghost use Rattle.dots_run.specs.Clients.{around_at, ProtectsOver};
ghost use Rattle.dots_run.specs.OverSockets.{IsOpenedFrom};

use crate::client::start_second;
use crate::sockets::open_host;
use ask_agent::{Firsts, protect_host, run_protect};
use dots_edge::FileSocketHost;
use dots_host::{Sink, Source, StdSink, StdSource};
use std::alloc::Global;
use std::fs::{File, Files};
use std::io::{Read, Write};
use std::net::Net;
use std::time::Clock;

/// The exit status where no memory is found.
const NO_MEMORY: u8 = 4;

/// What is left of a run over sockets that asks once.
#[derive(Drop)]
pub struct Protected<F, K, R> {
    /// The exit status.
    pub status: u8,
    /// The host file.
    pub host_file: StdSource<F>,
    /// The sockets and the clock. None where no memory was found to open them.
    pub host: Option<FileSocketHost<R>>,
    /// The sink of what is told.
    pub report: StdSink<K>,
}

impl<F: Drop, K: Drop, R: Drop> Protected<F, K, R> {
    /// The exit status. All else is let go.
    pub fn into_status(self) -> u8
        ensures { result ≡ self.status }
    {
        self.status
    }
}

/// Does all that the program does with the words `protect HOSTFILE SERVER NAME LIFETIME PREFIXES`: `opening` opens the host file by its
/// name, the runtime opens the sockets that it names, the client asks at the first event, and when that is answered or given up, or at
/// End, what became of it is written to `report`. The host file is taken as [`crate::ask_sockets`] takes it, and the first mid and
/// the first number are those of the second at which the run begins. Status 4 where no memory is found for the host.
pub fn protect_sockets<
    F: Read + Drop,
    K: Write + Drop,
    R: Files<File = File> + Net + Clock + Drop,
    Open: Fn(&str) -> Option<F> + Drop,
>(alloc: Global, words: &[String], opening: Open, rt: R, report: K) -> Protected<F, K, R>
    requires opens { Open.IsAlwaysCallable opening }
    requires asks { is_protect (map string_bytes words.now) ≡ true }
    // The host file is what opening the second word gave. Where the host finds no memory, nothing was written; and else the client ran
    // over the host that the host file's text opens.
    ensures { (named : Option F) × FnReturnsAt Open.Fn opening (second_of (map string_bytes words.now)) named
        × MatchOption result.host
        ((result.status ≡ 4) × (⟦<StdSink<K> as Sink>⟧.holds result.report ≡ K.contents report) × (⟦<StdSink<K> as Sink>⟧.faults result.report ≡ 0))
        (λ host. (first : Edge) × IsOpenedFrom (option_and_then F.remaining named) (Rose 0 (⟦<StdSource<F> as Source>⟧.faults result.host_file)) first
        × ProtectsOver (map string_bytes words.now) result.status
        (around_at None 0 first (K.contents report) 0)
        (around_at None 0 host (⟦<StdSink<K> as Sink>⟧.holds result.report) (⟦<StdSink<K> as Sink>⟧.faults result.report))
        first host) }
{
    let mut host_file = StdSource::new(opening(protect_host(words)));
    let mut report = StdSink::new(report);
    let firsts = Firsts::at(start_second(&rt));
    let Ok(mut host) = open_host(alloc, rt, &mut host_file) else {
        return Protected {
            status: NO_MEMORY,
            host_file,
            host: None,
            report,
        };
    };
    let ending = run_protect(alloc, words, firsts, &mut host, &mut report);
    Protected {
        status: ending.status(),
        host_file,
        host: Some(host),
        report,
    }
}
