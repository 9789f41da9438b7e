//! The server: the settings, what was accepted, in its tables and on the disk, who observes and was heard, and what is connected.

ghost use Rattle.std.specs.Prelude.{◌≡◌, ◌≢◌, ℕ, ◌<◌, ◌≤◌, ◌⊎◌, ◌^◌, [], ◌∷◌, length, true, if◌then◌else◌, List, map, None, IfOk, IfErr, OnOk, OnErr, ⊤};
ghost use Rattle.std.specs.Io.KnownBytes.{Appends};
ghost use Rattle.dots_host.specs.Becoming.{Leaves, RestsWith, KeepsMedia};
ghost use Rattle.dots_host.specs.Acts.{IsWithin, event_of};
ghost use Rattle.dots_host.specs.Causes.{HasCause};
ghost use Rattle.dots_host.specs.Runs.{Added};
ghost use Rattle.dots_host.specs.Writing.{AppendsBeginning};
ghost use Rattle.dots_settings.specs.Settings.{SettingsValue};
ghost use Rattle.dots_history.specs.declared.entry.Entry.{Entry};
ghost use Rattle.dots_history.specs.Fits.{is_calm};
ghost use Rattle.slot_store.specs.Layout.{needed_of};
ghost use Rattle.slot_store.specs.Opening.{Is};
ghost use Rattle.slot_store.specs.Gates.{Sees};
ghost use Rattle.slot_journal.specs.Sizes.{slots_of};
ghost use Rattle.slot_journal.specs.DiskEntries.{HasEntries};
ghost use Rattle.slot_journal.specs.DiskEntries as journal;
ghost use Rattle.slot_journal.specs.Refused.{Caused, IsNoSize, IsSmallBy};
ghost use Rattle.slot_journal.specs.declared.fault.JournalFault.TheVariants as faults;
ghost use Rattle.slot_journal.specs.Untaken.{RefusesLedger, IsFailure};
ghost use Rattle.dots_machine.specs.Machine.{State, begun_from, later, restarted, sends_of, after, with_entry, beating, Hears};
ghost use Rattle.dots_machine.specs.Report.{report_of};
ghost use Rattle.dots_registry.specs.RegistryValues.{IsOf, time_of};
ghost use Rattle.dots_registry.specs.ObserverViews.{views_of};
ghost use Rattle.session_core.specs.Contacts.{heard_from, unheard, number_of};
ghost use Rattle.session_core.specs.Beats.{beats};
ghost use Rattle.session_core.specs.Notifying.{SentTo, IsKnown, OnlyUnheardAreDue};
ghost use Rattle.dots_server.specs.ServerValues.{observers_of, ledger_of, Represents, RestartsWith, IsAcceptable, CanCarryOut, IsAccepted};
ghost use Rattle.dots_server.specs.HearingPeers.{beaten};
ghost use Rattle.dots_server.specs.Taking.{Took, BrokeOff, Answered, Failing, DatagramTaken, DatagramBroke};
ghost use Rattle.dots_server.specs.Asking.{IsCome};
ghost use Rattle.dots_server.specs.Turning.{IsServed, TurnedTo, Wrote, Broke};
ghost use Rattle.dots_server.specs.Observing.{MayNotify};

use crate::beating::PeerBeats;
use crate::deciding::{Came, hears};
use crate::gathering::Gatherer;
use crate::report::{put_packets, put_rows};
use crate::verdict::Verdict;
use coap_observe::{DueAmong, Observers};
use dots_data::RestStream;
use dots_host::{Got, Host, Sink, What};
use dots_lists::NoMemory;
use dots_registry::{Ledger, Registry};
use dots_settings::Settings;
use http_cut::HeadRoom;
use installed_filters::Staged;
use list_json::JsonRoom;
use session_core::{Sessions, Watch, beat, send_to};
use slot_journal::{DiskFault, JournalFault};
use std::alloc::Global;
use std::marker::Model;
use stream_table::StreamTable;

/// A server: its settings, and what it has accepted.
#[derive(Drop)]
pub struct Server {
    pub(crate) alloc: Global,
    pub(crate) settings: Settings,
    pub(crate) ledger: Ledger,
    /// The observers, and the sessions with the peers. An observer may be due in whose domain something was accepted or is over; any, where one
    /// was passed over.
    pub(crate) watch: Watch,
    /// The connections that are open, with what is held of each.
    pub(crate) lines: StreamTable<RestStream>,
    /// Room for the head of a request.
    pub(crate) heads: HeadRoom,
    /// Room for its body.
    pub(crate) json: JsonRoom,
}

impl Model for Server {
    ghost use Rattle.dots_server.specs.ServerValues.{ServerValue, IsServing};

    ghost Value = { ServerValue };

    ghost view = { λ server. record { settings = server.settings; registry = server.ledger.registry; journal = server.ledger.journal; watch = server.watch; lines = server.lines } };

    ghost invariant = { λ server. IsServing (record { settings = server.settings; registry = server.ledger.registry; journal = server.ledger.journal; watch = server.watch; lines = server.lines }) };
}

/// The report couldn't be written.
#[derive(Clone, Copy)]
pub enum ReportFault {
    /// The sink failed: its count of faults rose.
    Failed,
}

impl Server {
    /// A server with what its disk holds, which it recovers, and with the memory of all its tables. Its time is the greater of the time
    /// handed in, in seconds, below 2^48, and that of the last entry.
    ///
    /// # Errors
    ///
    /// `TooSmall`, `NotOurs` and `SettingsChanged` where the disk is refused for what it is, `DiskFault` where the disk's count of faults rose,
    /// and `NoMemory`.
    pub fn begin<H: Host>(
        alloc: Global,
        settings: Settings,
        host: &mut H,
        at: u64,
    ) -> Result<Self, JournalFault>
        requires early { at < 2 ^ 48 }
        // It represents calm entries, which are what the disk held, and the disk rests with them.
        ensures begun { IfOk result (λ server. (stored : List Entry) × RestartsWith server settings (restarted settings (begun_from settings stored) at) stored × (is_calm settings stored ≡ true)
            × ((seen : ℕ → ℕ) → Sees (H.media host.old) seen → HasEntries settings seen stored × RestsWith (H.media host.new) (journal.Represents server.journal settings stored))) }
        ensures settings { IfOk result (λ server. server.settings ≡ settings) }
        ensures size { OnOk result (needed_of (slots_of settings) ≤ H.extent host.new) }
        ensures refused { IfErr result (λ fault. (seen : ℕ → ℕ) → Sees (H.media host.old) seen → RefusesLedger settings (H.extent host.old) seen (H.media host.new) fault) }
        // A disk whose content isn't told is too small for the same cause.
        ensures small { IfErr result (IsSmallBy settings (H.extent host.old)) }
        // A disk that held entries, with nothing pending, holds them at each moment; another stays as it was, where no call of it failed.
        ensures moments { (seen : ℕ → ℕ) (entries : List Entry) → RestsWith (H.media host.old) (Is seen) → HasEntries settings seen entries
            → Leaves (H.media host.old) (H.media host.new) (λ image. HasEntries settings image entries) }
        ensures unwritten { IfErr result (λ fault. (seen : ℕ → ℕ) → fault ≢ faults.DiskFault → RestsWith (H.media host.old) (Is seen)
            → RestsWith (H.media host.new) (Is seen) ⊎ ((entries : List Entry) × HasEntries settings seen entries)) }
        ensures extent { H.extent host.new ≡ H.extent host.old }
        ensures cause { Caused (H.Disk.faults host.old) (H.Disk.faults host.new) result }
        ensures beside { H.Disk.beside host.old host.new }
    {
        let watch = watch_for(alloc, &settings)?;
        let lines = StreamTable::new(alloc, &settings)?;
        let heads = HeadRoom::new(alloc)?;
        let json = JsonRoom::new(alloc);
        let ledger = Ledger::begin(alloc, host, &settings, at)?;
        Ok(Server {
            alloc,
            settings,
            ledger,
            watch,
            lines,
            heads,
            json,
        })
    }

    /// The server that begins anew after a restart of its machine, with what is on the disk alone.
    ///
    /// # Errors
    ///
    /// Those of [`Server::begin`].
    pub fn restart<H: Host>(self, host: &mut H, at: u64) -> Result<Self, JournalFault>
        requires early { at < 2 ^ 48 }
        ensures restarted { IfOk result (λ server. (settings : SettingsValue) (state : State) (entries : List Entry) → RestartsWith self settings state entries
            → RestsWith (H.media host.old) (journal.Represents self.journal settings entries)
            → RestartsWith server settings (restarted settings state at) entries × RestsWith (H.media host.new) (journal.Represents server.journal settings entries)) }
        ensures settings { IfOk result (λ server. server.settings ≡ self.settings) }
        ensures slots { IfOk result (λ server. server.journal.slots ≡ slots_of self.settings) }
        ensures size { OnOk result (needed_of (slots_of self.settings) ≤ H.extent host.new) }
        ensures moments { (settings : SettingsValue) (state : State) (entries : List Entry) → RestartsWith self settings state entries
            → RestsWith (H.media host.old) (journal.Represents self.journal settings entries)
            → Leaves (H.media host.old) (H.media host.new) (λ image. HasEntries settings image entries) }
        // What a server left is found again: there may be no memory, or the disk may fail, and else nothing is refused.
        ensures found { IfErr result (λ fault. (settings : SettingsValue) (state : State) (entries : List Entry) → RestartsWith self settings state entries
            → RestsWith (H.media host.old) (journal.Represents self.journal settings entries) → needed_of (slots_of settings) ≤ H.extent host.old → IsFailure fault) }
        // A disk of the size that the settings need isn't too small, whatever it tells.
        ensures sized { IfErr result (λ fault. needed_of self.journal.slots ≤ H.extent host.old → IsNoSize fault) }
        ensures extent { H.extent host.new ≡ H.extent host.old }
        ensures cause { Caused (H.Disk.faults host.old) (H.Disk.faults host.new) result }
        ensures beside { H.Disk.beside host.old host.new }
    {
        let alloc = self.alloc;
        Server::begin(alloc, self.into_settings(), host, at)
    }

    /// The settings under which it serves.
    pub fn settings(&self) -> &Settings
        ensures value { result.now ≡ self.now.settings }
        // Its tables are of these.
        ensures tables { IsOf self.now.settings self.now.registry }
    {
        &self.settings
    }

    /// The settings again. Takes no memory.
    pub fn into_settings(self) -> Settings
        ensures { result ≡ self.settings }
    {
        self.ledger.let_go();
        self.settings
    }

    /// Lets all of it go.
    pub fn let_go(self) {
        let _settings = self.into_settings();
    }

    /// The tables of what was accepted.
    pub fn registry(&self) -> &Registry
        ensures { result.now ≡ self.now.registry }
    {
        self.ledger.registry()
    }

    /// The journal of what was accepted, and its tables.
    pub fn ledger(&self) -> &Ledger
        ensures { result.now ≡ ledger_of self.now }
    {
        &self.ledger
    }

    /// Takes one event, its bytes at the front of the room: one step of the machine, by its turns. What a turn accepts is on the disk and in the
    /// tables before the first of its sends is handed to the host, and nothing else is sent.
    ///
    /// # Errors
    ///
    /// `DiskFault` where the disk's count of faults rose. Then nothing was sent of the turn in which it rose, and the server isn't used again.
    pub fn handle<H: Host>(&mut self, host: &mut H, got: &Got, room: &[u8]) -> Result<(), DiskFault>
        requires within { IsWithin got.now.what (length room.now) }
        requires early { got.now.at < 2 ^ 48 }
        requires served { IsServed got.now.what }
        requires size { needed_of self.old.journal.slots ≤ H.extent host.old }
        ensures done { OnOk result ((settings : SettingsValue) (state : State) (entries : List Entry) → RestartsWith self.old settings state entries
            → Took settings state (event_of got.now.what room.now) got.now.at self.old self.new entries (H.media host.old) (H.media host.new) (H.acts host.old) (H.acts host.new)) }
        ensures failed { OnErr result ((settings : SettingsValue) (state : State) (entries : List Entry) → RestartsWith self.old settings state entries
            → BrokeOff settings state (event_of got.now.what room.now) got.now.at self.old entries (H.media host.old) (H.media host.new) (H.acts host.old) (H.acts host.new)) }
        // Behind an event by which observers are notified none is due any more; or one is that was passed over, and all are looked at by the
        // next such event.
        ensures observers { OnOk result (MayNotify got.now.what → IsKnown (views_of self.new.registry) self.new.watch.due self.new.watch.observers.observed) }
        // And where no memory was refused to a notification, each observer whose view differs was notified, unless its peer was never heard.
        ensures all { OnOk result (MayNotify got.now.what → self.new.watch.refused ≡ None
            → OnlyUnheardAreDue (views_of self.new.registry) self.new.watch.sessions self.new.watch.observers.observed) }
        ensures adds { Added (H.acts host.old) (H.acts host.new) (λ _. ⊤) }
        ensures settings { self.new.settings ≡ self.old.settings }
        ensures slots { self.new.journal.slots ≡ self.old.journal.slots }
        ensures extent { H.extent host.new ≡ H.extent host.old }
        ensures cause { HasCause (H.Disk.faults host.old) (H.Disk.faults host.new) result }
        ensures wire { H.Wire.faults host.new ≡ H.Wire.faults host.old }
        ensures leads { H.leads host.old host.new }
    {
        match got.what {
            What::Datagram { from, len } => {
                self.move_time(got.at);
                return self.take_datagram(host, from, &room[..len]);
            }
            What::Tick => {
                self.move_time(got.at);
                self.lapse(host)?;
                self.notify(host);
                self.send_heartbeats(host);
                return Ok(());
            }
            What::Piece { conn, len } => {
                self.move_time(got.at);
                self.take_piece(host, conn, &room[..len])?;
                self.notify(host);
                return Ok(());
            }
            What::End | What::Failed | What::Restart => return Ok(()),
            What::Opened { conn, from } => {
                self.move_time(got.at);
                self.open_connection(host, from, conn);
                return Ok(());
            }
            What::Closed { conn } => {
                self.move_time(got.at);
                self.forget_connection(conn);
                return Ok(());
            }
        }
    }

    /// Takes a peer's datagram: the peer is met, which may have to be kept, and then the datagram is answered.
    fn take_datagram<H: Host>(
        &mut self,
        host: &mut H,
        peer: u32,
        datagram: &[u8],
    ) -> Result<(), DiskFault>
        requires size { needed_of self.old.journal.slots ≤ H.extent host.old }
        ensures done { OnOk result ((settings : SettingsValue) (state : State) (entries : List Entry) → RestartsWith self.old settings state entries
            → DatagramTaken settings state peer datagram.now self.old self.new entries (H.media host.old) (H.media host.new) (H.acts host.old) (H.acts host.new)) }
        ensures failed { OnErr result ((settings : SettingsValue) (state : State) (entries : List Entry) → RestartsWith self.old settings state entries
            → DatagramBroke settings state peer datagram.now self.old entries (H.media host.old) (H.media host.new) (H.acts host.old) (H.acts host.new)) }
        ensures observers { OnOk result (IsKnown (views_of self.new.registry) self.new.watch.due self.new.watch.observers.observed) }
        ensures all { OnOk result (self.new.watch.refused ≡ None
            → OnlyUnheardAreDue (views_of self.new.registry) self.new.watch.sessions self.new.watch.observers.observed) }
        ensures adds { Added (H.acts host.old) (H.acts host.new) (λ _. ⊤) }
        ensures settings { self.new.settings ≡ self.old.settings }
        ensures slots { self.new.journal.slots ≡ self.old.journal.slots }
        ensures extent { H.extent host.new ≡ H.extent host.old }
        ensures cause { HasCause (H.Disk.faults host.old) (H.Disk.faults host.new) result }
        ensures wire { H.Wire.faults host.new ≡ H.Wire.faults host.old }
        ensures leads { H.leads host.old host.new }
    {
        let came = self.receive(peer, datagram);
        let heard = hears(&came);
        match self.meet(host, peer, heard) {
            Ok(()) => return self.answer(host, peer, came),
            Err(fault) => {
                drop(came);
                return Err(fault);
            }
        }
    }

    /// Answers what came of the datagram of a peer that was met: it is decided on, the verdict is carried out, and the observers that are due are
    /// notified.
    fn answer<H: Host>(&mut self, host: &mut H, peer: u32, came: Came) -> Result<(), DiskFault>
        requires came { (datagram : List ℕ) × IsCome self.old.settings peer datagram came }
        requires size { needed_of self.old.journal.slots ≤ H.extent host.old }
        ensures done { OnOk result ((settings : SettingsValue) (state met : State) (entries : List Entry) (datagram : List ℕ) → RestartsWith self.old settings met entries
            → IsCome settings peer datagram came → Hears settings state peer datagram met
            → Answered settings state met peer datagram self.old self.new entries (H.media host.old) (H.media host.new) (H.acts host.old) (H.acts host.new)) }
        ensures failed { OnErr result ((settings : SettingsValue) (met : State) (entries : List Entry) (datagram : List ℕ) → RestartsWith self.old settings met entries
            → IsCome settings peer datagram came
            → Failing settings met peer datagram self.old entries (H.media host.old) (H.media host.new) (H.acts host.old) (H.acts host.new)) }
        ensures observers { OnOk result (IsKnown (views_of self.new.registry) self.new.watch.due self.new.watch.observers.observed) }
        ensures all { OnOk result (self.new.watch.refused ≡ None
            → OnlyUnheardAreDue (views_of self.new.registry) self.new.watch.sessions self.new.watch.observers.observed) }
        ensures adds { Added (H.acts host.old) (H.acts host.new) (λ _. ⊤) }
        ensures settings { self.new.settings ≡ self.old.settings }
        ensures slots { self.new.journal.slots ≡ self.old.journal.slots }
        ensures extent { H.extent host.new ≡ H.extent host.old }
        ensures cause { HasCause (H.Disk.faults host.old) (H.Disk.faults host.new) result }
        ensures wire { H.Wire.faults host.new ≡ H.Wire.faults host.old }
        ensures leads { H.leads host.old host.new }
    {
        let decision = self.decide(peer, came);
        match self.carry_out(host, peer, decision.verdict) {
            Ok(()) => {}
            Err(fault) => return Err(fault),
        }
        self.observe(peer, decision.watching);
        self.notify(host);
        Ok(())
    }

    /// The time never falls, and what has ended by then is taken out.
    fn move_time(&mut self, at: u64)
        requires early { at < 2 ^ 48 }
        ensures settings { self.new.settings ≡ self.old.settings }
        ensures journal { self.new.journal ≡ self.old.journal }
        ensures kept { (settings : SettingsValue) (state : State) (entries : List Entry) → RestartsWith self.old settings state entries → RestartsWith self.new settings (later state at) entries }
    {
        let before = self.ledger.registry().time();
        if at > before {
            let ended = self.ledger.tick(at);
            let due = self.watch.due.merged(ended);
            self.watch.due = due;
        }
    }

    /// The peer is heard by what it sent, or it isn't.
    pub(crate) fn hear(&mut self, peer: u32, heard: bool)
        ensures { self.new ≡ record self.old {
          watch = record self.old.watch { sessions = if heard then heard_from peer (time_of self.old.registry) self.old.watch.sessions else self.old.watch.sessions };
        } }
    {
        if heard && self.watch.sessions.holds(peer) {
            let time = self.ledger.registry().time();
            self.watch.hear(peer, time);
        }
    }

    /// Sends the heartbeats that are due (RFC 9132, section 4.7). No session is forgotten.
    fn send_heartbeats<H: Host>(&mut self, host: &mut H)
        ensures sent { (settings : SettingsValue) (state : State) → Represents self.old settings state
            → Added (H.acts host.old) (H.acts host.new) (SentTo (H.moment host.old) (H.moment host.new) (beats (beating settings state) state.time state.contacts)) }
        ensures kept { (settings : SettingsValue) (state : State) (entries : List Entry) → RestartsWith self.old settings state entries → RestartsWith self.new settings (beaten settings state) entries }
        ensures registry { self.new.registry ≡ self.old.registry }
        ensures watch { self.new.watch ≡ record self.old.watch { sessions = self.new.watch.sessions } }
        ensures unheard { (peer : ℕ) → number_of peer self.old.watch.sessions ≡ None → number_of peer self.new.watch.sessions ≡ None }
        ensures journal { self.new.journal ≡ self.old.journal }
        ensures settings { self.new.settings ≡ self.old.settings }
        ensures adds { Added (H.acts host.old) (H.acts host.new) (λ _. ⊤) }
        ensures media { KeepsMedia (H.media host.old) (H.media host.new) }
        ensures extent { H.extent host.new ≡ H.extent host.old }
        ensures disk { H.Disk.faults host.new ≡ H.Disk.faults host.old }
        ensures wire { H.Wire.faults host.new ≡ H.Wire.faults host.old }
        ensures leads { H.leads host.old host.new }
    {
        let time = self.ledger.registry().time();
        let beats = PeerBeats {
            settings: &self.settings,
            registry: self.ledger.registry(),
        };
        beat(host, &mut self.watch.sessions, &beats, time);
    }

    /// Carries a verdict on a peer's datagram out: what is accepted is kept, on the disk and then in the tables, and then the reply is sent.
    fn carry_out<H: Host>(
        &mut self,
        host: &mut H,
        peer: u32,
        verdict: Verdict,
    ) -> Result<(), DiskFault>
        requires ready { CanCarryOut verdict self.old }
        requires size { needed_of self.old.journal.slots ≤ H.extent host.old }
        ensures done { OnOk result ((settings : SettingsValue) (state : State) (entries : List Entry) → RestartsWith self.old settings state entries
            → (few : List Entry) × RestartsWith self.new settings (after verdict state) few
            × TurnedTo (H.moment host.new) settings state (after verdict state) (sends_of None verdict peer) (journal.Represents self.old.journal settings entries) (journal.Represents self.new.journal settings few)
            (H.media host.old) (H.media host.new) (H.acts host.old) (H.acts host.new)) }
        ensures watch { self.new.watch ≡ record self.old.watch { due = self.new.watch.due } }
        // Nothing but an entry that is accepted is written.
        ensures failed { OnErr result ((settings : SettingsValue) (state : State) (entries : List Entry) → RestartsWith self.old settings state entries
            → IsAccepted verdict × Broke settings state (after verdict state) (journal.Represents self.old.journal settings entries) (H.media host.old) (H.media host.new) (H.acts host.old) (H.acts host.new)) }
        ensures adds { Added (H.acts host.old) (H.acts host.new) (λ _. ⊤) }
        ensures settings { self.new.settings ≡ self.old.settings }
        ensures slots { self.new.journal.slots ≡ self.old.journal.slots }
        ensures extent { H.extent host.new ≡ H.extent host.old }
        ensures cause { HasCause (H.Disk.faults host.old) (H.Disk.faults host.new) result }
        ensures wire { H.Wire.faults host.new ≡ H.Wire.faults host.old }
        ensures leads { H.leads host.old host.new }
    {
        match verdict {
            Verdict::Silent => return Ok(()),
            Verdict::Reply(reply) => {
                send_to(host, peer, reply.bytes());
                return Ok(());
            }
            Verdict::LongReply(reply) => {
                send_to(host, peer, reply.items());
                return Ok(());
            }
            // What shows mitigations is a message by now.
            Verdict::Retrieves { .. } => unreachable!(),
            Verdict::Accept { reply, entry } => {
                self.keep_entry(host, entry)?;
                send_to(host, peer, reply.bytes());
                return Ok(());
            }
        }
    }

    /// Keeps an entry that is accepted, on the disk and then in the tables. An observer of its domain may be due then.
    pub(crate) fn keep_entry<H: Host>(
        &mut self,
        host: &mut H,
        entry: Staged,
    ) -> Result<(), DiskFault>
        requires ready { IsAcceptable self.old entry }
        requires size { needed_of self.old.journal.slots ≤ H.extent host.old }
        ensures done { OnOk result ((settings : SettingsValue) (state : State) (entries : List Entry) → RestartsWith self.old settings state entries
            → (few : List Entry) × RestartsWith self.new settings (with_entry state entry) few
            × Wrote settings state (with_entry state entry) (journal.Represents self.old.journal settings entries) (journal.Represents self.new.journal settings few)
            (H.media host.old) (H.media host.new) (H.acts host.old) (H.acts host.new)) }
        ensures failed { OnErr result ((settings : SettingsValue) (state : State) (entries : List Entry) → RestartsWith self.old settings state entries
            → Broke settings state (with_entry state entry) (journal.Represents self.old.journal settings entries) (H.media host.old) (H.media host.new) (H.acts host.old) (H.acts host.new)) }
        ensures watch { self.new.watch ≡ record self.old.watch { due = self.new.watch.due } }
        ensures lines { self.new.lines ≡ self.old.lines }
        ensures adds { Added (H.acts host.old) (H.acts host.new) (λ _. ⊤) }
        ensures settings { self.new.settings ≡ self.old.settings }
        ensures slots { self.new.journal.slots ≡ self.old.journal.slots }
        ensures extent { H.extent host.new ≡ H.extent host.old }
        ensures cause { HasCause (H.Disk.faults host.old) (H.Disk.faults host.new) result }
        ensures wire { H.Wire.faults host.new ≡ H.Wire.faults host.old }
        ensures leads { H.leads host.old host.new }
    {
        let due = self.watch.due.joined(entry.entry().domain);
        self.watch.due = due;
        self.ledger.accept(host, entry)?;
        Ok(())
    }

    /// Writes the report: a line for each row that mitigations install, in order of acceptance, and one for each sample packet.
    /// Takes no memory. Where the sink fails, a beginning was written.
    pub fn write_report<K: Sink>(&self, report: &mut K) -> Result<(), ReportFault>
        // Whatever the host told, there is a state that the server represents.
        ensures any { (state : State) × Represents self.now self.now.settings state }
        ensures ok { (settings : SettingsValue) (state : State) → Represents self.now settings state
            → OnOk result (Appends (K.holds report.old) (K.holds report.new) (report_of settings state)) }
        ensures err { (settings : SettingsValue) (state : State) → Represents self.now settings state
            → OnErr result (AppendsBeginning (K.holds report.old) (K.holds report.new) (report_of settings state)) }
        ensures cause { HasCause (K.faults report.old) (K.faults report.new) result }
    {
        let mut gatherer = Gatherer::new();
        let table = self.ledger.registry().filters();
        put_rows(&self.settings, table, &mut gatherer, report);
        put_packets(&self.settings, table, &mut gatherer, report);
        match gatherer.finish(report) {
            Ok(()) => Ok(()),
            Err(_) => Err(ReportFault::Failed),
        }
    }
}

/// No observers and no sessions, with the memory of both.
fn watch_for(alloc: Global, settings: &Settings) -> Result<Watch, NoMemory>
    ensures { IfOk result (λ watch. (watch.observers ≡ observers_of settings.now []) × (watch.sessions ≡ map unheard settings.now.peers)) }
{
    let observers = Observers::new(alloc, settings)?;
    let sessions = Sessions::new(alloc, settings)?;
    Ok(Watch {
        observers,
        sessions,
        due: DueAmong::Nobody,
        refused: None,
    })
}
