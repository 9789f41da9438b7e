ghost use Rattle.std.specs.Prelude.{◌≡◌, ◌+◌, ◌≤◌, ◌<◌, ◌^◌, [], length, Some, IfOk, OnOk, OnErr};
ghost use Rattle.std.specs.Io.KnownBytes.{Appends};
ghost use Rattle.dots_host.specs.Causes.{Rose, HasCause};
ghost use Rattle.dots_host.specs.Acts.{IsWithin, OnFailed, OnEvent, Adds, taken, given, event_of, owned_of};
ghost use Rattle.dots_host.specs.Writing.{AppendsBeginning};
ghost use Rattle.dots_host.specs.declared.TheConstants.{MAX_EVENT_BYTES};
ghost use Rattle.dots_host.specs.Media.{bytes_at, written, IsTorn, settled};
ghost use Rattle.dots_host.specs.Becoming.{Becomes, MayBecome, Stays};
ghost use Rattle.dots_host.specs.Logged.{zeros, media_since, acts_told, KeepsLogged};
ghost use Rattle.dots_host.specs.LoggedLaws.{keeps_logged_same, keeps_logged_then, one_moment_logged, keeps_acts_logged};
ghost use Rattle.dots_script.specs.Lines.{to_come, NextIs};
ghost use Rattle.dots_script.specs.Sends.{line_of};
ghost use Rattle.dots_script.specs.Accounts.{Outer, AccountsSince};
ghost use Rattle.dots_script.specs.Scripting.{KeepsScript};
ghost use Rattle.dots_script.specs.ScriptingLaws.{keeps_script_same, keeps_script_then, script_leads};

use crate::block::Block;
use crate::event_line::parse_event;
use crate::lines::{Found, find_unskipped};
use crate::send_line::{SEND_ROOM, write_line};
use dots_host::{
    Disk, Failed, Got, Host, LoggedDisk, MAX_EVENT_BYTES, NoMemory, Out, Sent, Sink, Source, What,
    Wire,
};
use std::alloc::Global;
use std::marker::Model;

/// The size of its disk in bytes.
pub const DISK_BYTES: u64 = 1_073_741_824;

/// A host whose events are the lines of a script and whose sends are written as lines. Its disk is in memory, of
/// [`DISK_BYTES`] zeros at first, and takes memory for what is written to it alone. It tells its acts: they stand in a log
/// that exists in proofs alone.
///
/// A write to the disk fails where no memory is found for it. No other call of the disk fails.
#[derive(Drop)]
pub struct ScriptHost<S, K> {
    source: S,
    block: Block,
    sink: K,
    room: Vec<u8>,
    disk: LoggedDisk,
    faults: u64,
}

impl<S, K> Model for ScriptHost<S, K> {
    ghost use Rattle.std.specs.Prelude.{◌≡◌, length};
    ghost use Rattle.dots_script.specs.Scripting.{Scripting};

    ghost Value = { Scripting S K };

    ghost view = { λ host. record { source = host.source; ahead = host.block; sink = host.sink; disk = host.disk; faults = host.faults } };

    ghost invariant = { λ host. length host.room.items ≡ 8209 };
}

const FAILED: Got = Got {
    what: What::Failed,
    at: 0,
};

impl<S: Source + Drop, K: Sink + Drop> ScriptHost<S, K> {
    /// A host over the script that the source gives, whose sends go to the sink. Takes the room for lines.
    pub fn new(alloc: Global, source: S, sink: K) -> Result<Self, NoMemory>
        ensures host { IfOk result (λ host. host ≡
            record { source = source; ahead = []; sink = sink; disk = zeros (2 ^ 30); faults = 0 }) }
        // It has read and written nothing yet.
        ensures accounts { IfOk result (λ host. AccountsSince S.left S.faults K.holds
            (record { script = S.left source; written = K.holds sink; failures = S.faults source }) host) }
    {
        let block = Block::new(alloc)?;
        let room = vec![in alloc; 0u8; SEND_ROOM]?;
        Ok(ScriptHost {
            source,
            block,
            sink,
            room,
            disk: LoggedDisk::new(alloc, DISK_BYTES),
            faults: 0,
        })
    }
}

impl<S: Source, K: Sink> ScriptHost<S, K> {
    /// The sink of its sends.
    pub fn sink(&self) -> &K
        ensures { result.now ≡ self.now.sink }
    {
        &self.sink
    }
}

/// The event of the first line that isn't skipped, which then is passed, or the end, or a failure.
fn next_event<S: Source>(block: &mut Block, source: &mut S, into: &mut [u8]) -> Got
    requires { length into.old ≡ MAX_EVENT_BYTES }
    ensures at { result.at < 2 ^ 48 }
    ensures within { IsWithin result.what MAX_EVENT_BYTES }
    ensures answer { NextIs (to_come block.old (S.left source.old))
        (to_come block.new (S.left source.new)) (event_of result.what into.new) result.at
        (Rose (S.faults source.old) (S.faults source.new)) }
    ensures later { S.faults source.old ≤ S.faults source.new }
{
    match find_unskipped(block, source) {
        Found::Line { len } => {
            let Some(got) = parse_event(&block.bytes()[..len], into) else {
                return FAILED;
            };
            block.pass(len + 1);
            return got;
        }
        Found::End => {
            return Got {
                what: What::End,
                at: 0,
            };
        }
        Found::Fault => return FAILED,
        Found::Failed => return FAILED,
    }
}

/// One more fault where the wire failed.
fn count_fault(faults: u64, what: What) -> u64
    ensures later { faults ≤ result }
    ensures rose { OnFailed what (Rose faults result) }
    ensures same { OnEvent what (result ≡ faults) }
{
    match what {
        What::Failed => faults.saturating_add(1),
        _ => faults,
    }
}

impl<S: Source, K: Sink> Wire for ScriptHost<S, K> {
    ghost acts = { λ host. acts_told host.disk };

    ghost moment = { λ host. length host.disk.acts };

    ghost faults = { λ host. host.faults };

    ghost beside = { λ old new. KeepsLogged old.disk new.disk };

    ghost beside_same = { λ host. keeps_logged_same host.disk };

    ghost beside_then = { λ old mid new. keeps_logged_then old.disk mid.disk new.disk };

    // Whatever the start, the acts that it tells still are all that was read and written since.
    ghost leads = { λ old new. (start : Outer) → AccountsSince S.left S.faults K.holds start old →
        AccountsSince S.left S.faults K.holds start new };

    ghost leads_same = { λ _ _ accounts. accounts };

    ghost leads_then = { λ _ _ _ first second start accounts. second start (first start accounts) };

    fn next(&mut self, into: &mut [u8]) -> Got
        requires { length into.old ≡ MAX_EVENT_BYTES }
        ensures at { result.at < 2 ^ 48 }
        ensures within { IsWithin result.what MAX_EVENT_BYTES }
        ensures acts { Adds (acts_told self.old.disk) (length self.old.disk.acts)
            (acts_told self.new.disk) (length self.new.disk.acts) (taken result into.new) }
        ensures later { self.old.faults ≤ self.new.faults }
        ensures cause { OnFailed result.what (Rose self.old.faults self.new.faults) }
        ensures beside { KeepsLogged self.old.disk self.new.disk }
        ensures leads { (start : Outer) → AccountsSince S.left S.faults K.holds start self.old →
            AccountsSince S.left S.faults K.holds start self.new }

        // What it answers is what the first line that isn't skipped says.
        ensures answer { NextIs (to_come self.old.ahead (S.left self.old.source))
            (to_come self.new.ahead (S.left self.new.source)) (event_of result.what into.new) result.at
            (Rose (S.faults self.old.source) (S.faults self.new.source)) }
        ensures source { S.faults self.old.source ≤ S.faults self.new.source }
        ensures no_fault { OnEvent result.what (self.new.faults ≡ self.old.faults) }
        ensures sink { self.new.sink ≡ self.old.sink }
    {
        let got = next_event(&mut self.block, &mut self.source, into);
        self.faults = count_fault(self.faults, got.what);
        self.disk.note_taken(got, into);
        got
    }

    fn send(&mut self, out: &Out) -> Sent
        ensures acts { Adds (acts_told self.old.disk) (length self.old.disk.acts)
            (acts_told self.new.disk) (length self.new.disk.acts) (given out.now result) }
        ensures faults { self.new.faults ≡ self.old.faults }
        ensures beside { KeepsLogged self.old.disk self.new.disk }
        ensures leads { (start : Outer) → AccountsSince S.left S.faults K.holds start self.old →
            AccountsSince S.left S.faults K.holds start self.new }

        // The line is written, or a beginning of it where the sink failed.
        ensures done { result ≡ Sent.Done → Appends (K.holds self.old.sink) (K.holds self.new.sink)
            (line_of (owned_of out.now)) }
        ensures lost { result ≡ Sent.Lost → AppendsBeginning (K.holds self.old.sink)
            (K.holds self.new.sink) (line_of (owned_of out.now)) }
        ensures lost_only { result ≡ Sent.Lost → Rose (K.faults self.old.sink) (K.faults self.new.sink) }
        ensures sink { K.faults self.old.sink ≤ K.faults self.new.sink }
        ensures source { self.new.source ≡ self.old.source }
        ensures ahead { self.new.ahead ≡ self.old.ahead }
    {
        let sent = match write_line(&mut self.sink, self.room.as_mut_slice(), out) {
            Ok(()) => Sent::Done,
            Err(Failed) => Sent::Lost,
        };
        self.disk.note_given(out, sent);
        sent
    }
}

impl<S: Source, K: Sink> Disk for ScriptHost<S, K> {
    ghost media = { λ host. Some (media_since host.disk.acts) };

    ghost extent = { λ host. host.disk.extent };

    ghost faults = { λ host. host.disk.faults };

    ghost beside = { KeepsScript };

    ghost beside_same = { keeps_script_same };

    ghost beside_then = { keeps_script_then };

    fn size(&self) -> u64
        ensures { result ≡ self.now.disk.extent }
    {
        self.disk.size()
    }

    fn read(&mut self, at: u64, into: &mut [u8]) -> Result<(), Failed>
        requires { at + length into.old ≤ self.old.disk.extent }
        ensures bytes { OnOk result (into.new ≡ bytes_at (media_since self.old.disk.acts).now.seen at (length into.old)) }
        ensures ok { OnOk result (Becomes (Some (media_since self.old.disk.acts)) (Some (media_since self.new.disk.acts)) Stays) }
        ensures err { OnErr result (MayBecome (Some (media_since self.old.disk.acts)) (Some (media_since self.new.disk.acts)) Stays) }
        ensures extent { self.new.disk.extent ≡ self.old.disk.extent }
        ensures cause { HasCause self.old.disk.faults self.new.disk.faults result }
        ensures beside { KeepsScript self.old self.new }

        // It never fails.
        ensures never { OnErr result ⊥ }
    {
        self.disk.read(at, into)
    }

    fn write_at(&mut self, at: u64, bytes: &[u8]) -> Result<(), Failed>
        requires { at + length bytes.now ≤ self.old.disk.extent }
        ensures ok { OnOk result (Becomes (Some (media_since self.old.disk.acts)) (Some (media_since self.new.disk.acts)) (λ old new.
            new ≡ written old at bytes.now)) }
        ensures err { OnErr result (MayBecome (Some (media_since self.old.disk.acts)) (Some (media_since self.new.disk.acts))
            (IsTorn at (length bytes.now))) }
        ensures extent { self.new.disk.extent ≡ self.old.disk.extent }
        ensures cause { HasCause self.old.disk.faults self.new.disk.faults result }
        ensures beside { KeepsScript self.old self.new }

        // Where it fails, which it does for want of memory alone, a read gives what it gave before.
        ensures unwritten { OnErr result ((media_since self.new.disk.acts).now.seen ≡ (media_since self.old.disk.acts).now.seen) }
    {
        self.disk.write_at(at, bytes)
    }

    fn sync(&mut self) -> Result<(), Failed>
        ensures ok { OnOk result (Becomes (Some (media_since self.old.disk.acts)) (Some (media_since self.new.disk.acts)) (λ old new. new ≡ settled old)) }
        ensures err { OnErr result (MayBecome (Some (media_since self.old.disk.acts)) (Some (media_since self.new.disk.acts)) Stays) }
        ensures extent { self.new.disk.extent ≡ self.old.disk.extent }
        ensures cause { HasCause self.old.disk.faults self.new.disk.faults result }
        ensures beside { KeepsScript self.old self.new }

        // It never fails.
        ensures never { OnErr result ⊥ }
    {
        self.disk.sync()
    }
}

impl<S: Source, K: Sink> Host for ScriptHost<S, K> {
    ghost one_moment = { λ host. one_moment_logged host.disk };

    ghost disk_keeps = { λ old new keeps. (keeps_acts_logged old.disk new.disk keeps.disk, keeps.faults, script_leads S.left S.faults K.holds old new keeps) };

    ghost wire_keeps = { λ old new keeps. (keeps.media, keeps.extent, keeps.faults) };
}
