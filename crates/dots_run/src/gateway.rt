//! The gateway over real sockets and a real journal.

ghost use Rattle.std.specs.Prelude.{◌≡◌, map, string_bytes, Option, true, MatchOption, option_and_then};
ghost use Rattle.std.specs.Fn.{FnReturnsAt};
ghost use Rattle.dots_host.specs.Causes.{Rose};
ghost use Rattle.dots_edge.specs.Edge.{Edge};
ghost use Rattle.dots_machine.specs.Commands.{second_of, third_of};
ghost use Rattle.gateway_command.specs.Commands.{is_gateway};
ghost use Rattle.dots_run.specs.OverSockets.{IsOpenedFrom, outside_at};
ghost use Rattle.dots_run.specs.Gateways.{PassesOver};

use crate::sockets::{Served, open_host};
use dots_edge::FileSocketHost;
use dots_host::{Sink, Source, StdSink, StdSource};
use gateway_command::{gateway_names, run_gateway_command};
use std::alloc::Global;
use std::fs::{File, Files};
use std::io::{Read, Write};
use std::net::Net;
use std::time::Clock;

/// The exit status where no memory is found.
const NO_MEMORY: u8 = 4;

/// Does all that the program does with the words `gateway SETTINGS HOSTFILE`: `opening` opens both files by their names, the runtime opens
/// the sockets and the journal that the host file names, and at End how many exchanges wait is written to `report`. Files that can't be
/// opened or read, and a host file that is too long, are taken as [`crate::run_sockets`] takes them. Status 4 where no memory is found for the host.
pub fn gateway_sockets<
    F: Read + Drop,
    K: Write + Drop,
    R: Files<File = File> + Net + Clock + Drop,
    Open: Fn(&str) -> Option<F> + Drop,
>(
    alloc: Global,
    words: &[String],
    opening: Open,
    rt: R,
    report: K,
) -> Served<F, K, FileSocketHost<R>>
    requires opens { Open.IsAlwaysCallable opening }
    requires asks { is_gateway (map string_bytes words.now) ≡ true }
    // The two files are what opening the second and the third word gave. Where the host finds no memory, no settings were read and nothing was
    // written; and else the gateway ran over the host that the host file's text opens.
    ensures { (file named : Option F) × FnReturnsAt Open.Fn opening (second_of (map string_bytes words.now)) file
        × FnReturnsAt Open.Fn opening (third_of (map string_bytes words.now)) named
        × MatchOption result.host
        ((result.status ≡ 4) × (⟦<StdSource<F> as Source>⟧.left result.settings ≡ option_and_then F.remaining file) × (⟦<StdSource<F> as Source>⟧.faults result.settings ≡ 0)
        × (⟦<StdSink<K> as Sink>⟧.holds result.report ≡ K.contents report) × (⟦<StdSink<K> as Sink>⟧.faults result.report ≡ 0))
        (λ host. (first : Edge) × IsOpenedFrom (option_and_then F.remaining named) (Rose 0 (⟦<StdSource<F> as Source>⟧.faults result.host_file)) first
        × PassesOver (map string_bytes words.now) result.status
        (outside_at (option_and_then F.remaining file) 0 first (K.contents report) 0)
        (outside_at (⟦<StdSource<F> as Source>⟧.left result.settings) (⟦<StdSource<F> as Source>⟧.faults result.settings) host (⟦<StdSink<K> as Sink>⟧.holds result.report) (⟦<StdSink<K> as Sink>⟧.faults result.report))
        first host) }
{
    let (settings, host_file) = gateway_names(words);
    let mut settings = StdSource::new(opening(settings));
    let mut host_file = StdSource::new(opening(host_file));
    let mut report = StdSink::new(report);
    let Ok(mut host) = open_host(alloc, rt, &mut host_file) else {
        return Served {
            status: NO_MEMORY,
            settings,
            host_file,
            host: None,
            report,
        };
    };
    let status = run_gateway_command(alloc, words, &mut settings, &mut host, &mut report);
    Served {
        status,
        settings,
        host_file,
        host: Some(host),
        report,
    }
}
