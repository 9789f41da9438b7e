ghost use Rattle.std.specs.Prelude.{◌≡◌, ◌+◌, ◌≤◌, ◌<◌, ◌^◌, ◌⊎◌, List, [], ◌∷◌, ◌++◌, map, length, true, false, None, Some, is_some, is_ok, IfOk, OnOk, OnErr, IfSome, ⊤};
ghost use Rattle.dots_host.specs.Causes.{Rose, HasCause};
ghost use Rattle.dots_host.specs.declared.act.Act.TheVariants as act;
ghost use Rattle.dots_host.specs.Acts.{IsWithin, OnFailed, OnEvent, Adds, event_of, owned_of, is_done, taken, given, wire_acts};
ghost use Rattle.dots_host.specs.declared.TheConstants.{MAX_EVENT_BYTES};
ghost use Rattle.dots_edge.specs.Restarts.{OnRestart, OnEnd};
ghost use Rattle.dots_edge.specs.Came.{HasComeOf};
ghost use Rattle.dots_edge.specs.Opened.{FollowsCalls, IsGivenAfter};
ghost use Rattle.dots_edge.specs.Told.{AreFresh, FollowsOf, IsGivenOf};
ghost use Rattle.dots_edge.specs.Edge.{acts_told, with_call, one_fewer, NeverRestarts, KeepsWire, KeepsDisk, IsAsSaid};
ghost use Rattle.dots_lists.specs.Lines.{lines_of};
ghost use Rattle.dots_edge.specs.HostLine.{LineValue, line_value};
ghost use Rattle.dots_edge.specs.HostFile.{Stand};
ghost use Rattle.dots_edge.specs.Clocks.{IsSteady, one_more};
ghost use Rattle.dots_edge.specs.JournalFile.{is_lost, room_of};
ghost use Rattle.dots_edge.specs.Found.{events_in, reserve_in, has_journal};
ghost use Rattle.std.proofs.Common.{ap, refl};
ghost use Rattle.dots_edge.specs.EdgeLaws.{keeps_wire_same, keeps_wire_then, keeps_disk_same, keeps_disk_then};
ghost use Rattle.dots_edge.specs.EdgeLaws.{never_restarts_same, never_restarts_then, keeps_acts_told, disk_restarts_none};

use crate::ends::Ends;
use crate::found::{events_in, journal_in, reserve_in};
use crate::host_fault::HostFault;
use crate::host_line::HostLine;
use crate::journal::{Journal, room_of};
use crate::reading::read_host_file;
use crate::rooms::Rooms;
use crate::seconds::Seconds;
use crate::sockets::{SocketRoom, Sockets};
use dots_host::{Call, CallLog, Disk, Failed, Got, Host, NoMemory, Out, Sent, What, Wire};
use std::alloc::Global;
use std::fs::{File, Files};
use std::io;
use std::marker::Model;
use std::net::Net;
use std::time::Clock;

/// A host of real sockets, a real journal file and the clock.
///
/// It tells its acts: which events it handed in, with their bytes and times, and which sends it was handed, each done or lost. They stand
/// in a log that exists in proofs alone. What comes when, and what the file holds, it doesn't tell: what a socket, a file or a clock does
/// isn't proved.
#[derive(Drop)]
pub struct FileSocketHost<R> {
    rt: R,
    ends: Option<Ends>,
    journal: Option<Journal>,
    seconds: Seconds,
    left: Option<u64>,
    /// How many bytes of the journal are reserved, where that is said.
    reserve: Option<u64>,
    wire_faults: u64,
    disk_faults: u64,
    log: CallLog,
}

/// What a host file names, once it is open.
#[derive(Drop)]
struct Opened {
    ends: Option<Ends>,
    journal: Option<Journal>,
    /// How many events are to come, where that is said.
    left: Option<u64>,
    /// How many bytes of the journal are reserved, where that is said.
    reserve: Option<u64>,
}

impl<R> Model for FileSocketHost<R> {
    ghost use Rattle.std.specs.Prelude.{is_some};
    ghost use Rattle.dots_edge.specs.Edge.{Edge};
    ghost use Rattle.dots_edge.specs.JournalFile.{is_lost};

    ghost Value = { Edge };

    ghost use Rattle.dots_edge.specs.Told.{AreOpenAsTold};

    // The connections are open that its calls opened and didn't close.
    ghost invariant = { λ host. AreOpenAsTold host.log.acts host.ends };

    ghost view = { λ host. record { opened = is_some host.ends; journaled = is_some host.journal; lost = is_lost host.journal; left = host.left; reserve = host.reserve; begun = host.seconds.begun; last = host.seconds.last; strayed = host.seconds.strayed; wire = host.wire_faults; disk = host.disk_faults; calls = host.log.acts } };
}

impl<R: Files<File = File> + Net + Clock + Drop> FileSocketHost<R> {
    /// Opens the sockets and the journal that the text of a host file names.
    ///
    /// Where the file has a fault, a socket can't be bound, or the journal can't be opened or locked, every call of the
    /// host fails.
    pub fn open(alloc: Global, rt: R, text: &[u8]) -> Result<FileSocketHost<R>, NoMemory>
        ensures said { IfOk result (λ host. host.opened ≡ true → IsAsSaid text.now host) }
        ensures shut { IfOk result (λ host. host.opened ≡ false → host.journaled ≡ false) }
        ensures faults { IfOk result (λ host. (host.wire ≡ 0) × (host.disk ≡ 0)) }
        ensures lost { IfOk result (λ host. host.lost ≡ false) }
        // No call of it was made yet.
        ensures calls { IfOk result (λ host. host.calls ≡ []) }
    {
        match open_said(alloc, &rt, text) {
            Ok(opened) => Ok(FileSocketHost::of(rt, opened)),
            Err(_) => Err(NoMemory),
        }
    }

    /// The host of what was opened.
    fn of(rt: R, opened: Opened) -> FileSocketHost<R>
        requires { AreFresh opened.ends }
        ensures opened { result.opened ≡ is_some opened.ends }
        ensures journaled { result.journaled ≡ is_some opened.journal }
        ensures left { (result.left ≡ opened.left) × (result.reserve ≡ opened.reserve) }
        ensures lost { result.lost ≡ is_lost opened.journal }
        ensures faults { (result.wire ≡ 0) × (result.disk ≡ 0) }
        ensures calls { result.calls ≡ [] }
    {
        let Opened {
            ends,
            journal,
            left,
            reserve,
        } = opened;
        FileSocketHost {
            rt,
            ends,
            journal,
            seconds: Seconds::new(),
            left,
            reserve,
            wire_faults: 0,
            disk_faults: 0,
            log: CallLog::new(),
        }
    }

    /// The port on which datagrams are received, or 0 where there is none.
    pub fn signal_port(&self) -> u16 {
        match &self.ends {
            Some(ends) => ends.sockets().signal_port(),
            None => 0,
        }
    }

    /// At how many ticks the wall clock was more than 30 seconds away from the time beside events, which doesn't follow it.
    pub fn strayed(&self) -> u64
        ensures { result ≡ self.now.strayed }
    {
        self.seconds.strayed
    }

    /// The port on which connections are accepted, or 0 where there is none.
    pub fn http_port(&self) -> u16 {
        match &self.ends {
            Some(ends) => ends.sockets().http_port(),
            None => 0,
        }
    }
}

/// Opens what the text of a host file names, or nothing where it has a fault.
fn open_said<R: Files<File = File> + Net>(
    alloc: Global,
    rt: &R,
    text: &[u8],
) -> Result<Opened, NoMemory>
    ensures said { IfOk result (λ opened. is_some opened.ends ≡ true → (values : List LineValue) × Stand (lines_of text.now) values
        × (opened.left ≡ events_in values) × (opened.reserve ≡ reserve_in values) × (is_some opened.journal ≡ has_journal values)) }
    ensures shut { IfOk result (λ opened. is_some opened.ends ≡ false → is_some opened.journal ≡ false) }
    ensures lost { IfOk result (λ opened. is_lost opened.journal ≡ false) }
    ensures fresh { IfOk result (λ opened. AreFresh opened.ends) }
{
    match read_host_file(alloc, text) {
        Ok(lines) => open_lines(alloc, rt, lines.as_slice()),
        Err(HostFault::NoMemory) => Err(NoMemory),
        Err(_) => Ok(Opened {
            ends: None,
            journal: None,
            left: None,
            reserve: None,
        }),
    }
}

/// Opens what the lines name, or nothing where a part of it can't be opened.
fn open_lines<R: Files<File = File> + Net>(
    alloc: Global,
    rt: &R,
    lines: &[HostLine<'_>],
) -> Result<Opened, NoMemory>
    ensures journaled { IfOk result (λ opened. is_some opened.ends ≡ true → is_some opened.journal ≡ has_journal (map line_value lines.now)) }
    ensures shut { IfOk result (λ opened. is_some opened.ends ≡ false → is_some opened.journal ≡ false) }
    ensures left { IfOk result (λ opened. opened.left ≡ events_in (map line_value lines.now)) }
    ensures reserve { IfOk result (λ opened. opened.reserve ≡ reserve_in (map line_value lines.now)) }
    ensures lost { IfOk result (λ opened. is_lost opened.journal ≡ false) }
    ensures fresh { IfOk result (λ opened. AreFresh opened.ends) }
{
    let path = path_in(alloc, lines)?;
    let sockets = SocketRoom::new(alloc)?;
    let rooms = Rooms::new(alloc, lines)?;
    let left = events_in(lines);
    let reserve = reserve_in(lines);
    match open_all(rt, lines, sockets, path) {
        Ok((sockets, journal)) => Ok(Opened {
            ends: Some(Ends::new(sockets, rooms)),
            journal,
            left,
            reserve,
        }),
        Err(_) => {
            drop(rooms);
            Ok(Opened {
                ends: None,
                journal: None,
                left,
                reserve,
            })
        }
    }
}

/// The path of the journal that the lines name.
fn path_in(alloc: Global, lines: &[HostLine<'_>]) -> Result<Option<String>, NoMemory>
    ensures { IfOk result (λ path. is_some path ≡ has_journal (map line_value lines.now)) }
{
    match journal_in(lines) {
        Some(path) => match String::from_str(alloc, path) {
            Ok(path) => Ok(Some(path)),
            Err(_) => Err(NoMemory),
        },
        None => Ok(None),
    }
}

/// Binds the sockets that the lines name, and opens the journal of the path.
fn open_all<R: Files<File = File> + Net>(
    rt: &R,
    lines: &[HostLine<'_>],
    room: SocketRoom,
    path: Option<String>,
) -> io::Result<(Sockets, Option<Journal>)>
    ensures journaled { IfOk result (λ all. is_some all.1 ≡ is_some path) }
    ensures lost { IfOk result (λ all. is_lost all.1 ≡ false) }
{
    let sockets = Sockets::bind(rt, lines, room)?;
    match open_journal(rt, path, reserve_in(lines)) {
        Ok(journal) => Ok((sockets, journal)),
        Err(error) => {
            drop(sockets);
            Err(error)
        }
    }
}

fn open_journal<R: Files<File = File>>(
    rt: &R,
    path: Option<String>,
    reserve: Option<u64>,
) -> io::Result<Option<Journal>>
    ensures journaled { IfOk result (λ journal. is_some journal ≡ is_some path) }
    ensures lost { IfOk result (λ journal. is_lost journal ≡ false) }
{
    match path {
        Some(path) => Ok(Some(Journal::open(rt, path, reserve)?)),
        None => Ok(None),
    }
}

/// The next event, or None where the wire failed. None is to come any more where none is left.
fn next_event<R: Clock>(
    ends: &mut Option<Ends>,
    left: &mut Option<u64>,
    rt: &R,
    into: &mut [u8],
) -> Option<What>
    requires { length into.old ≡ MAX_EVENT_BYTES }
    ensures within { IfSome result (λ what. IsWithin what MAX_EVENT_BYTES) }
    ensures event { IfSome result (λ what. OnFailed what ⊥) }
    ensures restart { IfSome result (λ what. OnRestart what ⊥) }
    ensures opened { is_some ends.new ≡ is_some ends.old }
    ensures shut { is_some ends.old ≡ false → result ≡ None }
    ensures ends { is_some ends.old ≡ true → left.old ≡ Some 0 → result ≡ Some What.End }
    ensures counted { IfSome result (λ _. left.new ≡ one_fewer left.old) }
    ensures failed { result ≡ None → left.new ≡ left.old }
    ensures follows { FollowsOf result ends.old ends.new }
    // An event is what a socket gave since, with its very bytes, or what the clock says, and the end comes only where none is left.
    ensures came { IfSome result (λ what. HasComeOf what into.new left.old ends.old ends.new) }
{
    let Some(ends) = ends else {
        return None;
    };
    if let Some(0) = *left {
        return Some(What::End);
    }
    match ends.next(rt, into) {
        Ok(what) => {
            *left = one_fewer(*left);
            Some(what)
        }
        Err(_) => None,
    }
}

/// Sends, where the sockets are open.
fn send_by(ends: &mut Option<Ends>, out: &Out) -> Sent
    ensures closed { is_some ends.old ≡ false → result ≡ Sent.Lost }
    ensures opened { is_some ends.new ≡ is_some ends.old }
    ensures given { IsGivenOf out.now result ends.old ends.new }
{
    match ends {
        Some(ends) => ends.send(out),
        None => Sent::Lost,
    }
}

/// Takes down that an event was handed in, its bytes at the front of the room.
fn note_taken(log: &mut CallLog, got: Got, room: &[u8])
    ensures call { log.new.acts ≡ log.old.acts ++ act.Took (event_of got.what room.now) got.at ∷ [] }
    ensures adds { Adds (Some (wire_acts 0 log.old.acts)) (length log.old.acts)
        (Some (wire_acts 0 log.new.acts)) (length log.new.acts) (taken got room.now) }
{
    *log = log.after(&Call::Took {
        what: got.what,
        room,
        at: got.at,
    });
}

/// Takes down a send, and whether it was done.
fn note_given(log: &mut CallLog, out: &Out, sent: Sent)
    ensures call { log.new.acts ≡ log.old.acts ++ act.Gave (owned_of out.now) (is_done sent) ∷ [] }
    ensures adds { Adds (Some (wire_acts 0 log.old.acts)) (length log.old.acts)
        (Some (wire_acts 0 log.new.acts)) (length log.new.acts) (given out.now sent) }
{
    *log = log.after(&Call::Gave { out: *out, sent });
}

/// Looks whether the path of the journal still leads to its file.
fn look_at<R: Files>(journal: &mut Option<Journal>, rt: &R)
    ensures journaled { is_some journal.new ≡ is_some journal.old }
    ensures lost { (is_lost journal.new ≡ is_lost journal.old) ⊎ (is_lost journal.new ≡ true) }
{
    if let Some(journal) = journal {
        journal.look(rt);
    }
}

/// Whether the bytes were read from the journal.
fn is_read(journal: &Option<Journal>, at: u64, into: &mut [u8]) -> bool
    ensures none { is_some journal.now ≡ false → result ≡ false }
    ensures lost { is_lost journal.now ≡ true → result ≡ false }
{
    match journal {
        Some(journal) => match journal.read(at, into) {
            Ok(()) => true,
            Err(_) => false,
        },
        None => false,
    }
}

/// Whether the bytes were written to the journal.
fn is_written(journal: &mut Option<Journal>, at: u64, bytes: &[u8]) -> bool
    requires { at + length bytes.now ≤ 2 ^ 30 }
    ensures none { is_some journal.old ≡ false → result ≡ false }
    ensures lost { is_lost journal.old ≡ true → result ≡ false }
    ensures journaled { is_some journal.new ≡ is_some journal.old }
    ensures kept { is_lost journal.new ≡ is_lost journal.old }
{
    match journal {
        Some(journal) => match journal.write(at, bytes) {
            Ok(()) => true,
            Err(_) => false,
        },
        None => false,
    }
}

/// Whether what was written to the journal was made to stay.
fn is_synced(journal: &Option<Journal>) -> bool
    ensures none { is_some journal.now ≡ false → result ≡ false }
    ensures lost { is_lost journal.now ≡ true → result ≡ false }
{
    match journal {
        Some(journal) => match journal.sync() {
            Ok(()) => true,
            Err(_) => false,
        },
        None => false,
    }
}

/// Counts a fault where a call wasn't done.
fn settle(faults: &mut u64, done: bool) -> Result<(), Failed>
    ensures told { is_ok result ≡ done }
    ensures cause { HasCause faults.old faults.new result }
{
    if done {
        return Ok(());
    }
    *faults = faults.saturating_add(1);
    Err(Failed)
}

/// One event fewer, where they are counted.
fn one_fewer(left: Option<u64>) -> Option<u64>
    ensures { result ≡ one_fewer left }
{
    left.map(|left| left.saturating_sub(1))
}

impl<R: Files<File = File> + Net + Clock + Drop> Wire for FileSocketHost<R> {
    ghost acts = { acts_told };

    ghost moment = { λ host. length host.calls };

    ghost faults = { λ host. host.wire };

    ghost beside = { KeepsDisk };

    ghost beside_same = { keeps_disk_same };

    ghost beside_then = { keeps_disk_then };

    // What it hands in is no restart.
    ghost leads = { NeverRestarts };

    ghost leads_same = { never_restarts_same };

    ghost leads_then = { never_restarts_then };

    fn next(&mut self, into: &mut [u8]) -> Got
        requires { length into.old ≡ MAX_EVENT_BYTES }
        ensures at { result.at < 2 ^ 48 }
        ensures within { IsWithin result.what MAX_EVENT_BYTES }
        ensures acts { Adds (acts_told self.old) (length self.old.calls)
            (acts_told self.new) (length self.new.calls) (taken result into.new) }
        ensures later { self.old.wire ≤ self.new.wire }
        ensures cause { OnFailed result.what (Rose self.old.wire self.new.wire) }
        ensures beside { KeepsDisk self.old self.new }
        ensures leads { NeverRestarts self.old self.new }

        // The call is added to its log, with the event, its bytes and its time. It never hands in a restart.
        ensures call { self.new.calls ≡ self.old.calls ++ act.Took (event_of result.what into.new) result.at ∷ [] }
        ensures restart { OnRestart result.what ⊥ }
        // A connection is opened under a number that isn't open by the calls so far, and bytes come, and an end, on one that is.
        ensures follows { FollowsCalls result.what self.old.calls }
        // A host that isn't open fails, and one to which no event is to come any more ends.
        ensures shut { self.old.opened ≡ false → result.what ≡ What.Failed }
        ensures ends { self.old.opened ≡ true → self.old.left ≡ Some 0 → result.what ≡ What.End }
        ensures end { OnEnd result.what (self.old.left ≡ Some 0) }
        // Where events are counted, each that is handed in is one fewer to come.
        ensures counted { OnEvent result.what (self.new.left ≡ one_fewer self.old.left) }
        ensures kept { OnFailed result.what (self.new.left ≡ self.old.left) }
        ensures stays { (self.new.opened ≡ self.old.opened) × (self.new.journaled ≡ self.old.journaled) }
        // Where the path of the journal leads is looked at when a tick comes, and what is lost stays so.
        ensures lost { (self.new.lost ≡ self.old.lost) ⊎ ((result.what ≡ What.Tick) × (self.new.lost ≡ true)) }
        // A fault is counted where it failed alone.
        ensures no_fault { OnEvent result.what (self.new.wire ≡ self.old.wire) }
        // A time is never below the one before, and once the clocks were read it never steps with the wall clock.
        ensures time { (self.new.last ≡ result.at) × (self.old.last ≤ result.at) }
        ensures steady { IsSteady self.old.begun self.new.begun self.old.last result.at }
        // A wall clock that strays is counted, at a tick alone.
        ensures strayed { (self.new.strayed ≡ self.old.strayed) ⊎ ((result.what ≡ What.Tick) × (self.new.strayed ≡ one_more self.old.strayed)) }
    {
        let what = next_event(&mut self.ends, &mut self.left, &self.rt, into);
        let at = self.seconds.read(&self.rt);
        match what {
            Some(What::Tick) => {
                self.seconds.compare(&self.rt);
                look_at(&mut self.journal, &self.rt);
                let what = What::Tick;
                note_taken(&mut self.log, Got { what, at }, into);
                Got { what, at }
            }
            Some(what) => {
                note_taken(&mut self.log, Got { what, at }, into);
                Got { what, at }
            }
            None => {
                self.wire_faults = self.wire_faults.saturating_add(1);
                let what = What::Failed;
                note_taken(&mut self.log, Got { what, at }, into);
                Got { what, at }
            }
        }
    }

    /// Done is a send of which no byte was lost: the system took them all, or, on a connection, took some and the host keeps the others for
    /// it. What is kept is lost only where its connection ends before the system took it, or the host does.
    fn send(&mut self, out: &Out) -> Sent
        ensures acts { Adds (acts_told self.old) (length self.old.calls)
            (acts_told self.new) (length self.new.calls) (given out.now result) }
        ensures faults { self.new.wire ≡ self.old.wire }
        ensures beside { KeepsDisk self.old self.new }
        ensures leads { NeverRestarts self.old self.new }

        // It is sent only on a connection that is open by the calls so far, and one is closed exactly where it is open.
        ensures given { IsGivenAfter out.now result self.old.calls }
        // A host that isn't open loses each send.
        ensures closed { self.old.opened ≡ false → result ≡ Sent.Lost }
        // The send is added to its log, done or lost, and nothing else changes.
        ensures kept { self.new ≡ with_call self.old (act.Gave (owned_of out.now) (is_done result)) }
    {
        let sent = send_by(&mut self.ends, out);
        note_given(&mut self.log, out, sent);
        sent
    }
}

impl<R: Files<File = File> + Net + Clock + Drop> Disk for FileSocketHost<R> {
    ghost media = { λ _. None };

    ghost extent = { λ host. room_of host.reserve };

    ghost faults = { λ host. host.disk };

    ghost beside = { KeepsWire };

    ghost beside_same = { keeps_wire_same };

    ghost beside_then = { keeps_wire_then };

    fn size(&self) -> u64
        ensures { result ≡ room_of self.now.reserve }
    {
        room_of(self.reserve)
    }

    fn read(&mut self, at: u64, into: &mut [u8]) -> Result<(), Failed>
        requires { at + length into.old ≤ room_of self.old.reserve }
        ensures bytes { OnOk result ⊤ }
        ensures ok { OnOk result ⊤ }
        ensures err { OnErr result ⊤ }
        ensures extent { room_of self.new.reserve ≡ room_of self.old.reserve }
        ensures cause { HasCause self.old.disk self.new.disk result }
        ensures beside { KeepsWire self.old self.new }

        // The call is added to its log.
        ensures call { self.new.calls ≡ self.old.calls ++ act.Read (is_ok result) ∷ [] }
        // Without a journal it fails.
        ensures no_journal { self.old.journaled ≡ false → OnOk result ⊥ }
        // Nor does it go well once another file, or none, stood at the path of the journal.
        ensures lost { self.old.lost ≡ true → OnOk result ⊥ }
    {
        let done = is_read(&self.journal, at, into);
        self.log = self.log.after(&Call::Read { ok: done });
        settle(&mut self.disk_faults, done)
    }

    fn write_at(&mut self, at: u64, bytes: &[u8]) -> Result<(), Failed>
        requires { at + length bytes.now ≤ room_of self.old.reserve }
        ensures ok { OnOk result ⊤ }
        ensures err { OnErr result ⊤ }
        ensures extent { room_of self.new.reserve ≡ room_of self.old.reserve }
        ensures cause { HasCause self.old.disk self.new.disk result }
        ensures beside { KeepsWire self.old self.new }

        // The call is added to its log.
        ensures call { self.new.calls ≡ self.old.calls ++ act.Wrote at bytes.now (is_ok result) ∷ [] }
        // Without a journal it fails.
        ensures no_journal { self.old.journaled ≡ false → OnOk result ⊥ }
        // Nor does it go well once another file, or none, stood at the path of the journal.
        ensures lost { self.old.lost ≡ true → OnOk result ⊥ }
    {
        let ok = is_written(&mut self.journal, at, bytes);
        self.log = self.log.after(&Call::Wrote { at, bytes, ok });
        settle(&mut self.disk_faults, ok)
    }

    fn sync(&mut self) -> Result<(), Failed>
        ensures ok { OnOk result ⊤ }
        ensures err { OnErr result ⊤ }
        ensures extent { room_of self.new.reserve ≡ room_of self.old.reserve }
        ensures cause { HasCause self.old.disk self.new.disk result }
        ensures beside { KeepsWire self.old self.new }

        // The call is added to its log.
        ensures call { self.new.calls ≡ self.old.calls ++ act.Synced (is_ok result) ∷ [] }
        // Without a journal it fails.
        ensures no_journal { self.old.journaled ≡ false → OnOk result ⊥ }
        // Nor does it go well once another file, or none, stood at the path of the journal.
        ensures lost { self.old.lost ≡ true → OnOk result ⊥ }
    {
        let done = is_synced(&self.journal);
        self.log = self.log.after(&Call::Synced { ok: done });
        settle(&mut self.disk_faults, done)
    }
}

impl<R: Files<File = File> + Net + Clock + Drop> Host for FileSocketHost<R> {
    ghost one_moment = { λ _. tt };

    ghost disk_keeps = { λ old new keeps. (keeps_acts_told old new keeps, ap (λ host. host.wire) keeps.kept, disk_restarts_none old new keeps) };

    ghost wire_keeps = { λ _ _ keeps. (tt, ap room_of keeps.reserve, keeps.disk) };
}
