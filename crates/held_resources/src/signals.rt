//! Whether the signals of client peers are lost.

ghost use Rattle.std.specs.Prelude.{◌≡◌, ◌==◌, ◌&&◌, ◌++◌, map, IfOk, OnOk};
ghost use Rattle.std.specs.List.{flat_map, list_any};
ghost use Rattle.dots_history.specs.Calm.{loser_of};
ghost use Rattle.dots_history.specs.Capacities.{loses_as};
ghost use Rattle.held_resources.specs.Tables.{no_loss, own_of, signal_with, lost_after};

use dots_history::{Change, Entry, is_loss};
use dots_lists::NoMemory;
use dots_settings::{PeerRow, Role};
use std::alloc::Global;

/// A client peer of the settings with its domain, and whether its signal is lost.
#[derive(Clone, Copy)]
pub struct Signal {
    pub peer: u32,
    pub domain: u16,
    pub lost: bool,
}

/// For each client peer that its signal isn't lost.
pub fn no_losses(alloc: Global, peers: &[PeerRow]) -> Result<Vec<Signal>, NoMemory>
    ensures { IfOk result (λ signals. signals.items ≡ map no_loss (flat_map loser_of peers.now)) }
{
    let mut signals = Vec::new(alloc);
    for row in peers {
        add_client(&mut signals, row)?;
    }
    Ok(signals)
}

/// Puts the peer behind the others where it is a client.
fn add_client(signals: &mut Vec<Signal>, row: &PeerRow) -> Result<(), NoMemory>
    ensures { OnOk result (signals.new.items ≡ signals.old.items ++ map no_loss (loser_of row.now)) }
{
    if let Role::Client(domain) = row.role {
        signals.push(Signal {
            peer: row.peer,
            domain,
            lost: false,
        })?;
        return Ok(());
    }
    Ok(())
}

/// What an entry makes of the signals.
#[tactic(auto, using(crate::proofs::Losses::as_before))]
pub fn note(signals: &mut Vec<Signal>, entry: &Entry)
    ensures { signals.new.items ≡ map (signal_with entry.now) signals.old.items }
{
    if is_loss(&entry.change) {
        note_all(signals.as_mut_slice(), entry);
    }
}

fn note_all(signals: &mut [Signal], entry: &Entry)
    ensures { signals.new ≡ map (signal_with entry.now) signals.old }
{
    for signal in signals.iter_mut() {
        note_one(signal, entry);
    }
}

fn note_one(signal: &mut Signal, entry: &Entry)
    ensures { signal.new ≡ signal_with entry.now signal.old }
{
    if is_of(signal, entry) {
        signal.lost = is_lost_after(&entry.change, signal.lost);
    }
}

/// Whether the signal is of the entry's peer and domain.
fn is_of(signal: &Signal, entry: &Entry) -> bool
    ensures { result ≡ loses_as entry.now (own_of signal.now) }
{
    entry.peer == signal.peer && entry.domain == signal.domain
}

/// Whether a signal is lost after a change of its peer.
fn is_lost_after(change: &Change, before: bool) -> bool
    ensures { result ≡ lost_after change.now before }
{
    match change {
        Change::Lost => true,
        Change::Back => false,
        _ => before,
    }
}

/// Whether the signal of this peer is lost in this domain.
pub fn is_lost(signals: &[Signal], peer: u32, domain: u16) -> bool
    ensures { result ≡ list_any (λ signal. signal.lost && ((peer == signal.peer) && (domain == signal.domain))) signals.now }
{
    signals.iter().any(|signal| signal.lost && peer == signal.peer && domain == signal.domain)
}

/// Whether a signal of this peer is lost.
pub fn has_lost(signals: &[Signal], peer: u32) -> bool
    ensures { result ≡ list_any (λ signal. signal.lost && (peer == signal.peer)) signals.now }
{
    signals
        .iter()
        .any(|signal| signal.lost && peer == signal.peer)
}

/// Whether one of the signals is of the entry's peer and domain.
pub fn has_signal(signals: &[Signal], entry: &Entry) -> bool
    ensures { result ≡ list_any (λ signal. loses_as entry.now (own_of signal)) signals.now }
{
    signals.iter().any(|signal| is_of(signal, entry))
}
