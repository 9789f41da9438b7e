//! The whole text.

ghost use Rattle.std.specs.Prelude.{◌≡◌, ◌++◌, codes, List, IfOk, OnOk};
ghost use Rattle.dots_history.specs.declared.entry.Entry.{Entry};
ghost use Rattle.dots_registry.specs.RegistryValues.{IsOf, Represents, time_of};
ghost use Rattle.server_figures.specs.Figures.{clock_lines, figures_of};

use crate::domains::{add_clients, add_mitigations};
use crate::lines::add_counter;
use crate::rows::add_kept;
use crate::sent::{add_came, add_sent};
use dots_lists::{Bytes, NoMemory};
use dots_registry::Ledger;
use dots_settings::Settings;
use std::alloc::Global;
use wire_figures::Tally;

/// The figures of a server with these settings, tables and journal, on whose wire this was counted, and at so many of whose ticks the wall clock
/// had strayed.
pub fn figures_text(
    alloc: Global,
    settings: &Settings,
    ledger: &Ledger,
    tally: &Tally,
    strayed: u64,
) -> Result<Bytes, NoMemory>
    requires { IsOf settings.now ledger.now.registry }
    ensures { IfOk result (λ text. (history : List Entry) → Represents ledger.now.registry history
        → text ≡ figures_of settings.now (time_of ledger.now.registry) history ledger.now.journal tally.now strayed) }
{
    let mut text = Vec::new(alloc);
    add_came(&mut text, tally)?;
    add_sent(&mut text, tally)?;
    add_clock(&mut text, strayed)?;
    add_mitigations(alloc, &mut text, settings, ledger.registry())?;
    add_clients(alloc, &mut text, settings, ledger.registry())?;
    add_kept(&mut text, ledger)?;
    Ok(Bytes::from_vec(text))
}

/// At how many ticks the wall clock was away from the time beside events.
#[tactic(auto, unfolding(crate::specs::Figures::clock_lines))]
fn add_clock(text: &mut Vec<u8>, strayed: u64) -> Result<(), NoMemory>
    ensures { OnOk result (text.new.items ≡ text.old.items ++ clock_lines strayed) }
{
    add_counter(
        text,
        b"dots_clock_strayed_total",
        b"Ticks at which the wall clock was more than 30 seconds away.",
        strayed,
    )
}
