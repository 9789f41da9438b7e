//! What is told of the settings of a client.

ghost use Rattle.std.specs.Prelude.{◌≡◌, map, string_bytes, Option, true, option_and_then};
ghost use Rattle.std.specs.Fn.{FnReturnsAt};
ghost use Rattle.dots_host.specs.Causes.{Rose};
ghost use Rattle.ask_agent.specs.Commands.{is_check_ask, second_of};
ghost use Rattle.dots_run.specs.Clients.{ReportsClient};

use crate::reporting::report_found;
use ask_agent::{check_ask_settings, checked_name};
use dots_host::{Sink, Source, StdSink, StdSource};
use std::alloc::Global;
use std::io::{Read, Write};

/// What is left of a check of the settings of a client.
#[derive(Drop)]
pub struct ClientChecked<F, K> {
    /// The exit status.
    pub status: u8,
    /// The file of the settings.
    pub settings: StdSource<F>,
    /// The sink of what is told.
    pub report: StdSink<K>,
}

impl<F: Drop, K: Drop> ClientChecked<F, K> {
    /// The exit status. All else is let go.
    pub fn into_status(self) -> u8
        ensures { result ≡ self.status }
    {
        self.status
    }
}

/// Does what the words `check-ask SETTINGS` ask for: `opening` opens the settings of a client by their name, and what they come to is
/// written to `report`, or their first line at fault. A file that can't be opened, where `opening` gives None, fails when it is
/// read.
pub fn check_client<F: Read + Drop, K: Write + Drop, Open: Fn(&str) -> Option<F> + Drop>(
    alloc: Global,
    words: &[String],
    opening: Open,
    report: K,
) -> ClientChecked<F, K>
    requires opens { Open.IsAlwaysCallable opening }
    requires asks { is_check_ask (map string_bytes words.now) ≡ true }
    // The file is what opening the second word gave, and this was found of it and written.
    ensures { (file : Option F) × FnReturnsAt Open.Fn opening (second_of (map string_bytes words.now)) file
        × ReportsClient result.status (option_and_then F.remaining file) (K.contents report) (⟦<StdSink<K> as Sink>⟧.holds result.report)
        (Rose 0 (⟦<StdSource<F> as Source>⟧.faults result.settings)) (Rose 0 (⟦<StdSink<K> as Sink>⟧.faults result.report)) }
{
    let mut settings = StdSource::new(opening(checked_name(words)));
    let mut report = StdSink::new(report);
    let found = check_ask_settings(alloc, &mut settings);
    let status = report_found(found, &mut report).status();
    ClientChecked {
        status,
        settings,
        report,
    }
}
