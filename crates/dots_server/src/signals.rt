//! Signals of clients that are lost, and that come back, where a mitigation waits for that (RFC 9132, section 4.4.1, `trigger-mitigation`).

ghost use Rattle.std.specs.Prelude.{◌≡◌, ◌≢◌, ℕ, ◌<◌, ◌≤◌, ◌&&◌, not, length, true, List, Some, slice_get, option_map, if◌then◌else◌, OnOk, OnErr, IfSome, ⊤};
ghost use Rattle.dots_host.specs.Causes.{HasCause};
ghost use Rattle.dots_host.specs.Runs.{Added};
ghost use Rattle.dots_settings.specs.Settings.{SettingsValue, IsSettings};
ghost use Rattle.dots_settings.specs.Lookups.{role_of};
ghost use Rattle.dots_settings.specs.declared.peer.Role.TheVariants as role;
ghost use Rattle.dots_history.specs.Entries.{is_loss};
ghost use Rattle.dots_history.specs.declared.entry.Entry.{Entry};
ghost use Rattle.dots_history.specs.declared.change.Change.TheVariants as changes;
ghost use Rattle.slot_store.specs.Layout.{needed_of};
ghost use Rattle.slot_journal.specs.DiskEntries as journal;
ghost use Rattle.session_core.specs.Places.{row_peer};
ghost use Rattle.dots_machine.specs.Machine.{State, with_entry, lapsed};
ghost use Rattle.dots_history.specs.Histories.{held};
ghost use Rattle.dots_history.specs.Held.{is_lost_of};
ghost use Rattle.dots_history.specs.HistoryReading.{is_waiting};
ghost use Rattle.dots_registry.specs.RegistryValues.{time_of};
ghost use Rattle.dots_registry.specs.RegistryValues as registry;
ghost use Rattle.dots_machine.specs.Signals.{own_domain, signal_entry};
ghost use Rattle.dots_server.specs.ServerValues.{Represents, RestartsWith};
ghost use Rattle.dots_server.specs.HearingPeers.{met};
ghost use Rattle.dots_server.specs.Signals.{passing, watched_domain, lost_domain, returned, signals, loss_at, with_turn, lapsed_at, HasLapsed, LapseBroke};
ghost use Rattle.dots_server.specs.Turning.{Wrote, Broke};

use crate::beating::PeerBeats;
use crate::entries::signal_entry;
use crate::server::Server;
use dots_history::Change;
use dots_host::Host;
use dots_registry::Registry;
use dots_settings::{Role, Settings};
use session_core::Configs;
use slot_journal::DiskFault;

impl Server {
    /// The peer is heard by what it sent, or it isn't. Where it is and its signal was lost, it is kept that this is back.
    pub(crate) fn meet<H: Host>(
        &mut self,
        host: &mut H,
        peer: u32,
        heard: bool,
    ) -> Result<(), DiskFault>
        requires size { needed_of self.old.journal.slots ≤ H.extent host.old }
        ensures done { OnOk result ((settings : SettingsValue) (state : State) (entries : List Entry) → RestartsWith self.old settings state entries
            → (few : List Entry) × RestartsWith self.new settings (met settings heard peer state) few
            × Wrote settings state (met settings heard peer state) (journal.Represents self.old.journal settings entries) (journal.Represents self.new.journal settings few)
            (H.media host.old) (H.media host.new) (H.acts host.old) (H.acts host.new)) }
        ensures failed { OnErr result ((settings : SettingsValue) (state : State) (entries : List Entry) → RestartsWith self.old settings state entries
            → ((met settings heard peer state).history ≢ state.history)
            × Broke settings state (met settings heard peer state) (journal.Represents self.old.journal settings entries) (H.media host.old) (H.media host.new) (H.acts host.old) (H.acts host.new)) }
        ensures adds { Added (H.acts host.old) (H.acts host.new) (λ _. ⊤) }
        ensures settings { self.new.settings ≡ self.old.settings }
        ensures slots { self.new.journal.slots ≡ self.old.journal.slots }
        ensures extent { H.extent host.new ≡ H.extent host.old }
        ensures cause { HasCause (H.Disk.faults host.old) (H.Disk.faults host.new) result }
        ensures wire { H.Wire.faults host.new ≡ H.Wire.faults host.old }
        ensures leads { H.leads host.old host.new }
    {
        self.hear(peer, heard);
        match self.returned(peer, heard) {
            Some(domain) => return self.keep_signal(host, peer, domain, Change::Back),
            None => return Ok(()),
        }
    }

    /// The domain of a client that is heard and whose signal is lost.
    fn returned(&self, peer: u32, heard: bool) -> Option<u16>
        ensures domain { (settings : SettingsValue) (state : State) → Represents self.now settings state → result ≡ returned heard settings state.history peer }
        ensures client { IfSome result (λ domain. role_of self.now.settings peer ≡ role.Client domain) }
        ensures within { IfSome result (λ domain. domain < length self.now.settings.domains) }
    {
        if heard {
            return self.lost_domain(peer);
        }
        None
    }

    /// The domain of a client whose signal is lost.
    fn lost_domain(&self, peer: u32) -> Option<u16>
        ensures domain { (settings : SettingsValue) (state : State) → Represents self.now settings state → result ≡ lost_domain settings state.history peer }
        ensures client { IfSome result (λ domain. role_of self.now.settings peer ≡ role.Client domain) }
        ensures within { IfSome result (λ domain. domain < length self.now.settings.domains) }
    {
        let own = own_domain(&self.settings, peer);
        only_if(self.ledger.registry().lost(peer), own)
    }

    /// The domain of a client of which a mitigation waits, and whose signal isn't lost.
    fn watched_domain(&self, peer: u32) -> Option<u16>
        ensures domain { (settings : SettingsValue) (state : State) → Represents self.now settings state
            → result ≡ watched_domain settings state.time state.history peer }
        ensures client { IfSome result (λ domain. role_of self.now.settings peer ≡ role.Client domain) }
        ensures within { IfSome result (λ domain. domain < length self.now.settings.domains) }
        ensures valid { IsSettings self.now.settings }
    {
        let own = own_domain(&self.settings, peer);
        only_if(is_watched(self.ledger.registry(), peer), own)
    }

    /// Keeps that the signal of a client is lost, or back. Takes no memory.
    fn keep_signal<H: Host>(
        &mut self,
        host: &mut H,
        peer: u32,
        domain: u16,
        change: Change,
    ) -> Result<(), DiskFault>
        requires loss { is_loss change ≡ true }
        requires client { role_of self.old.settings peer ≡ role.Client domain }
        requires within { domain < length self.old.settings.domains }
        requires size { needed_of self.old.journal.slots ≤ H.extent host.old }
        ensures done { OnOk result ((settings : SettingsValue) (state : State) (entries : List Entry) → RestartsWith self.old settings state entries
            → (few : List Entry) × RestartsWith self.new settings (with_entry state (signal_entry state.time peer change domain)) few
            × Wrote settings state (with_entry state (signal_entry state.time peer change domain)) (journal.Represents self.old.journal settings entries) (journal.Represents self.new.journal settings few)
            (H.media host.old) (H.media host.new) (H.acts host.old) (H.acts host.new)) }
        ensures failed { OnErr result ((settings : SettingsValue) (state : State) (entries : List Entry) → RestartsWith self.old settings state entries
            → Broke settings state (with_entry state (signal_entry state.time peer change domain)) (journal.Represents self.old.journal settings entries) (H.media host.old) (H.media host.new) (H.acts host.old) (H.acts host.new)) }
        ensures watch { self.new.watch ≡ record self.old.watch { due = self.new.watch.due } }
        ensures adds { Added (H.acts host.old) (H.acts host.new) (λ _. ⊤) }
        ensures settings { self.new.settings ≡ self.old.settings }
        ensures slots { self.new.journal.slots ≡ self.old.journal.slots }
        ensures extent { H.extent host.new ≡ H.extent host.old }
        ensures cause { HasCause (H.Disk.faults host.old) (H.Disk.faults host.new) result }
        ensures wire { H.Wire.faults host.new ≡ H.Wire.faults host.old }
        ensures leads { H.leads host.old host.new }
    {
        let time = self.ledger.registry().time();
        let entry = signal_entry(self.alloc, time, peer, domain, change);
        match self.ledger.registry().stage(entry) {
            Ok(entry) => return self.keep_entry(host, entry),
            Err(_) => unreachable!(),
        }
    }

    /// Gives each peer its turn at a tick, in the order of the settings: a session begins with a client that is watched and has none, so that its
    /// silence is noticed; and the session of a peer that was silent for too long is forgotten, and the signal of such a client that is
    /// watched is lost, which is kept.
    pub(crate) fn lapse<H: Host>(&mut self, host: &mut H) -> Result<(), DiskFault>
        requires size { needed_of self.old.journal.slots ≤ H.extent host.old }
        ensures done { OnOk result ((settings : SettingsValue) (state : State) (entries : List Entry) → RestartsWith self.old settings state entries
            → HasLapsed settings state self.old self.new entries (H.media host.old) (H.media host.new) (H.acts host.old) (H.acts host.new)) }
        ensures failed { OnErr result ((settings : SettingsValue) (state : State) (entries : List Entry) → RestartsWith self.old settings state entries
            → LapseBroke settings state self.old entries (H.media host.old) (H.media host.new) (H.acts host.old) (H.acts host.new)) }
        ensures adds { Added (H.acts host.old) (H.acts host.new) (λ _. ⊤) }
        ensures settings { self.new.settings ≡ self.old.settings }
        ensures slots { self.new.journal.slots ≡ self.old.journal.slots }
        ensures extent { H.extent host.new ≡ H.extent host.old }
        ensures cause { HasCause (H.Disk.faults host.old) (H.Disk.faults host.new) result }
        ensures wire { H.Wire.faults host.new ≡ H.Wire.faults host.old }
        ensures leads { H.leads host.old host.new }
    {
        for place in 0..self.watch.sessions.len() {
            self.lapse_at(host, place)?;
        }
        Ok(())
    }

    /// The turn of the peer at a place.
    fn lapse_at<H: Host>(&mut self, host: &mut H, place: usize) -> Result<(), DiskFault>
        requires place { place < length self.old.watch.sessions }
        requires size { needed_of self.old.journal.slots ≤ H.extent host.old }
        ensures done { OnOk result ((settings : SettingsValue) (state : State) (entries : List Entry) → RestartsWith self.old settings state entries
            → (few : List Entry) × RestartsWith self.new settings (lapsed_at settings place state) few
            × Wrote settings state (lapsed_at settings place state) (journal.Represents self.old.journal settings entries) (journal.Represents self.new.journal settings few)
            (H.media host.old) (H.media host.new) (H.acts host.old) (H.acts host.new)) }
        ensures failed { OnErr result ((settings : SettingsValue) (state : State) (entries : List Entry) → RestartsWith self.old settings state entries
            → ((lapsed_at settings place state).history ≢ state.history)
            × Broke settings state (lapsed_at settings place state) (journal.Represents self.old.journal settings entries) (H.media host.old) (H.media host.new) (H.acts host.old) (H.acts host.new)) }
        ensures valid { IsSettings self.old.settings }
        ensures sessions { length self.new.watch.sessions ≡ length self.old.watch.sessions }
        ensures adds { Added (H.acts host.old) (H.acts host.new) (λ _. ⊤) }
        ensures settings { self.new.settings ≡ self.old.settings }
        ensures slots { self.new.journal.slots ≡ self.old.journal.slots }
        ensures extent { H.extent host.new ≡ H.extent host.old }
        ensures cause { HasCause (H.Disk.faults host.old) (H.Disk.faults host.new) result }
        ensures wire { H.Wire.faults host.new ≡ H.Wire.faults host.old }
        ensures leads { H.leads host.old host.new }
    {
        let peer = self.watch.sessions.peer_at(place);
        match self.turn(place, peer) {
            Some(domain) => return self.keep_signal(host, peer, domain, Change::Lost),
            None => return Ok(()),
        }
    }

    /// The turn of the peer at a place, but for what is kept of it: the domain of a client whose signal is lost.
    fn turn(&mut self, place: usize, peer: u32) -> Option<u16>
        requires place { place < length self.old.watch.sessions }
        requires peer { option_map row_peer (slice_get self.old.watch.sessions place) ≡ Some peer }
        ensures kept { (settings : SettingsValue) (state : State) (entries : List Entry) → RestartsWith self.old settings state entries → RestartsWith self.new settings (with_turn settings place state) entries }
        ensures lost { (settings : SettingsValue) (state : State) → Represents self.old settings state → signals state.time peer changes.Lost result ≡ loss_at settings place state }
        ensures client { IfSome result (λ domain. role_of self.old.settings peer ≡ role.Client domain) }
        ensures within { IfSome result (λ domain. domain < length self.old.settings.domains) }
        ensures valid { IsSettings self.old.settings }
        ensures sessions { length self.new.watch.sessions ≡ length self.old.watch.sessions }
        ensures journal { self.new.journal ≡ self.old.journal }
        ensures settings { self.new.settings ≡ self.old.settings }
    {
        let time = self.ledger.registry().time();
        let domain = self.watched_domain(peer);
        let beats = PeerBeats {
            settings: &self.settings,
            registry: self.ledger.registry(),
        };
        let beat = beats.beat(peer);
        let lost = self
            .watch
            .sessions
            .turn_at(place, domain.is_some(), beat, time);
        only_if(lost, domain)
    }
}

/// The domain of a client; None of any other peer.
fn own_domain(settings: &Settings, peer: u32) -> Option<u16>
    ensures domain { result ≡ own_domain settings.now peer }
    ensures valid { IsSettings settings.now }
{
    match settings.domain_of(peer) {
        Role::Client(domain) => Some(domain),
        Role::Stranger | Role::Gateway => None,
    }
}

/// The domain, where something was found.
fn only_if(found: bool, domain: Option<u16>) -> Option<u16>
    ensures { result ≡ passing (λ _. found) domain }
{
    if found {
        return domain;
    }
    None
}

/// Whether a mitigation of this peer waits for its signal to be lost, which it isn't.
fn is_watched(tables: &Registry, peer: u32) -> bool
    ensures { (entries : List Entry) → registry.Represents tables.now entries
        → result ≡ (is_waiting (time_of tables.now) entries peer && not (is_lost_of (held entries) peer)) }
{
    tables.waits(peer) && !tables.lost(peer)
}
