//! Pieces of connections to the data channel: what stands at the front of one is answered (RFC 8783, section 3; RFC 9112, section 9.3).

ghost use Rattle.std.specs.Prelude.{◌≡◌, ◌<◌, ◌≤◌, ◌+◌, ◌-◌, ℕ, [], ◌∷◌, true, false, if◌then◌else◌, length, take, drop, min, List, Some, None, IfOk, IfSome, OnOk, OnErr, MatchOption, ⊤};
ghost use Rattle.dots_host.specs.Causes.{HasCause};
ghost use Rattle.dots_host.specs.Runs.{Added};
ghost use Rattle.dots_host.specs.declared.out.OwnedOut.TheVariants as owned;
ghost use Rattle.dots_host.specs.Becoming.{KeepsMedia};
ghost use Rattle.dots_settings.specs.Settings.{SettingsValue};
ghost use Rattle.dots_settings.specs.Lookups.{role_of};
ghost use Rattle.dots_history.specs.declared.entry.Entry.{Entry};
ghost use Rattle.dots_history.specs.Calm.{may_act};
ghost use Rattle.slot_store.specs.Layout.{needed_of};
ghost use Rattle.slot_journal.specs.DiskEntries as journal;
ghost use Rattle.stream_table.specs.Lines.{Line, AreOf, line_of, forgotten, buffering};
ghost use Rattle.stream_table.specs.Places.{AreApart, IsAt, NowBuffers, line_at, with_more};
ghost use Rattle.rest_answers.specs.Replies.{refusal};
ghost use Rattle.rest_answers.specs.Turns.{caller_of, is_waiting, HasSize, reply_in, closing};
ghost use Rattle.dots_machine.specs.Machine.{State, receiving};
ghost use Rattle.session_core.specs.Notifying.{SentTo};
ghost use Rattle.dots_server.specs.ServerValues.{Represents, RestartsWith};
ghost use Rattle.dots_server.specs.Turning.{TurnedTo, Broke};
ghost use Rattle.dots_server.specs.Pieces.{IsFrontAt, CanAnswer, CanAnswerFront, having, IsAcceptedBy, IsFrontTaken, FrontBroke, IsPieceTaken, PieceTaken, PieceBroke, bytes_on};

use crate::server::Server;
use dots_data::{Desk, RestStream, caller_at, front};
use dots_host::{Host, Out};
use dots_settings::Settings;
use http_cut::HttpFault;
use installed_filters::Staged;
use rest_answers::{Caller, RestAnswer, RestFront, RestReply, refusal};
use slot_journal::DiskFault;
use stream_table::{LinePlace, StreamTable};

impl Server {
    /// Takes a piece of a connection. Its bytes are held behind those that were, and what stands at the front is answered, one request after the
    /// other, until more is waited for or the connection is gone. Of a connection that isn't open nothing is held.
    pub(crate) fn take_piece<H: Host>(
        &mut self,
        host: &mut H,
        conn: u32,
        piece: &[u8],
    ) -> Result<(), DiskFault>
        requires size { needed_of self.old.journal.slots ≤ H.extent host.old }
        ensures done { OnOk result ((settings : SettingsValue) (state : State) (entries : List Entry) → RestartsWith self.old settings state entries
            → PieceTaken settings conn piece.now state self.old self.new entries (H.media host.old) (H.media host.new) (H.acts host.old) (H.acts host.new)) }
        ensures failed { OnErr result ((settings : SettingsValue) (state : State) (entries : List Entry) → RestartsWith self.old settings state entries
            → PieceBroke settings conn piece.now state self.old entries (H.media host.old) (H.media host.new) (H.acts host.old) (H.acts host.new)) }
        ensures adds { Added (H.acts host.old) (H.acts host.new) (λ _. ⊤) }
        ensures settings { self.new.settings ≡ self.old.settings }
        ensures slots { self.new.journal.slots ≡ self.old.journal.slots }
        ensures extent { H.extent host.new ≡ H.extent host.old }
        ensures cause { HasCause (H.Disk.faults host.old) (H.Disk.faults host.new) result }
        ensures wire { H.Wire.faults host.new ≡ H.Wire.faults host.old }
        ensures leads { H.leads host.old host.new }
    {
        let mut rest = piece;
        'fronts: loop {
            match self.take_front(host, conn, rest)? {
                None => return Ok(()),
                Some(taken) => {
                    let (_, left) = rest.split_at(taken);
                    rest = left;
                }
            }
        }
    }

    /// Holds as many of these bytes as there is room for, and answers what stands at the front then. It says how many of them are held now; or
    /// None, and all are, or the connection is gone.
    fn take_front<H: Host>(
        &mut self,
        host: &mut H,
        conn: u32,
        rest: &[u8],
    ) -> Result<Option<usize>, DiskFault>
        requires size { needed_of self.old.journal.slots ≤ H.extent host.old }
        ensures done { IfOk result (λ taken. (settings : SettingsValue) (state : State) (entries : List Entry) → RestartsWith self.old settings state entries
            → IsPieceTaken taken settings conn rest.now state self.old self.new entries (H.media host.old) (H.media host.new) (H.acts host.old) (H.acts host.new)) }
        ensures failed { OnErr result ((settings : SettingsValue) (state : State) (entries : List Entry) → RestartsWith self.old settings state entries
            → FrontBroke settings conn (receiving conn rest.now state) self.old entries (H.media host.old) (H.media host.new) (H.acts host.old) (H.acts host.new)) }
        ensures fewer { IfOk result (λ taken. IfSome taken (λ n. (n ≤ length rest.now) × (bytes_on conn self.new.lines + length rest.now < bytes_on conn self.old.lines + length rest.now + n))) }
        ensures adds { Added (H.acts host.old) (H.acts host.new) (λ _. ⊤) }
        ensures settings { self.new.settings ≡ self.old.settings }
        ensures slots { self.new.journal.slots ≡ self.old.journal.slots }
        ensures extent { H.extent host.new ≡ H.extent host.old }
        ensures cause { HasCause (H.Disk.faults host.old) (H.Disk.faults host.new) result }
        ensures wire { H.Wire.faults host.new ≡ H.Wire.faults host.old }
        ensures leads { H.leads host.old host.new }
    {
        let Some(place) = self.place(conn) else {
            return Ok(None);
        };
        let taken = self.hold(place, rest);
        if self.answer_front(host, conn, place)? {
            return Ok(Some(taken));
        }
        Ok(None)
    }

    /// Answers what stands at the front of the connection at this place, in one turn; and says false where more is waited for.
    fn answer_front<H: Host>(
        &mut self,
        host: &mut H,
        conn: u32,
        place: LinePlace,
    ) -> Result<bool, DiskFault>
        requires there { IsAt conn place self.old.lines }
        requires size { needed_of self.old.journal.slots ≤ H.extent host.old }
        ensures done { IfOk result (λ more. (settings : SettingsValue) (state : State) (entries : List Entry) → RestartsWith self.old settings state entries
            → IsFrontTaken more settings conn state self.old self.new entries (H.media host.old) (H.media host.new) (H.acts host.old) (H.acts host.new)) }
        ensures failed { OnErr result ((settings : SettingsValue) (state : State) (entries : List Entry) → RestartsWith self.old settings state entries
            → FrontBroke settings conn state self.old entries (H.media host.old) (H.media host.new) (H.acts host.old) (H.acts host.new)) }
        ensures fewer { IfOk result (λ more. more ≡ true → bytes_on conn self.new.lines < bytes_on conn self.old.lines) }
        // Where more is waited for, there is room for it.
        ensures room { IfOk result (λ more. more ≡ false → (line : Line) → line_at place self.old.lines ≡ Some line → length line.buffered < 16384) }
        ensures adds { Added (H.acts host.old) (H.acts host.new) (λ _. ⊤) }
        ensures settings { self.new.settings ≡ self.old.settings }
        ensures slots { self.new.journal.slots ≡ self.old.journal.slots }
        ensures extent { H.extent host.new ≡ H.extent host.old }
        ensures cause { HasCause (H.Disk.faults host.old) (H.Disk.faults host.new) result }
        ensures wire { H.Wire.faults host.new ≡ H.Wire.faults host.old }
        ensures leads { H.leads host.old host.new }
    {
        match self.front_at(place) {
            RestFront::Waits => return Ok(false),
            RestFront::Refused(fault) => {
                self.refuse_front(host, conn, fault);
                return Ok(true);
            }
            RestFront::Answered {
                size,
                close,
                answer,
            } => {
                self.send_answer(host, conn, answer)?;
                self.end_request(host, conn, place, size, close);
                return Ok(true);
            }
        }
    }

    /// Where the connection of this number stands.
    fn place(&self, conn: u32) -> Option<LinePlace>
        ensures place { MatchOption result (line_of conn self.now.lines ≡ None) (λ place. IsAt conn place self.now.lines) }
        ensures apart { AreApart self.now.lines }
    {
        self.lines.place(conn)
    }

    /// Holds as many bytes of a piece as there is room for at this place, and says how many.
    fn hold(&mut self, place: LinePlace, piece: &[u8]) -> usize
        requires { (line : Line) × (line_at place self.old.lines ≡ Some line) }
        ensures count { (line : Line) → line_at place self.old.lines ≡ Some line → result ≡ min (length piece.now) (16384 - length line.buffered) }
        ensures held { (line : Line) → line_at place self.old.lines ≡ Some line
            → NowBuffers place (with_more (take result piece.now)) self.old.lines self.new.lines line }
        ensures others { self.new ≡ record self.old { lines = self.new.lines } }
    {
        self.lines.take(place, piece)
    }

    /// Drops the bytes of a request that is answered.
    fn drop_request(&mut self, place: LinePlace, size: usize)
        requires { (line : Line) × (line_at place self.old.lines ≡ Some line) × (size ≤ length line.buffered) }
        ensures held { (line : Line) → line_at place self.old.lines ≡ Some line → NowBuffers place (drop size) self.old.lines self.new.lines line }
        ensures others { self.new ≡ record self.old { lines = self.new.lines } }
    {
        self.lines.discard(place, size);
    }

    /// What stands at the front of the connection at this place. Nothing is changed.
    fn front_at(&mut self, place: LinePlace) -> RestFront<Staged>
        requires { (conn : ℕ) × IsAt conn place self.old.lines }
        ensures stands { (conn : ℕ) (at : IsAt conn place self.old.lines) (settings : SettingsValue) (state : State) → Represents self.old settings state
            → IsFrontAt settings conn state at.line result }
        ensures room { (line : Line) → line_at place self.old.lines ≡ Some line → is_waiting result ≡ true → length line.buffered < 16384 }
        ensures size { (line : Line) → line_at place self.old.lines ≡ Some line → HasSize line.buffered result }
        ensures ready { CanAnswerFront result self.old }
        ensures same { self.new ≡ self.old }
    {
        let caller = caller_there(&self.settings, &self.lines, place);
        front(
            &Desk {
                alloc: self.alloc,
                settings: &self.settings,
                registry: self.ledger.registry(),
            },
            &mut self.heads,
            &mut self.json,
            &self.lines,
            place,
            caller,
        )
    }

    /// Answers what is no request, and closes its connection.
    fn refuse_front<H: Host>(&mut self, host: &mut H, conn: u32, fault: HttpFault)
        ensures lines { self.new ≡ record self.old { lines = forgotten conn self.old.lines } }
        ensures sent { Added (H.acts host.old) (H.acts host.new) (SentTo (H.moment host.old) (H.moment host.new) (owned.Conn conn (refusal fault) ∷ owned.Close conn ∷ [])) }
        ensures media { KeepsMedia (H.media host.old) (H.media host.new) }
        ensures extent { H.extent host.new ≡ H.extent host.old }
        ensures disk { H.Disk.faults host.new ≡ H.Disk.faults host.old }
        ensures wire { H.Wire.faults host.new ≡ H.Wire.faults host.old }
        ensures leads { H.leads host.old host.new }
    {
        let reply = refusal(self.alloc, fault);
        send_reply(host, conn, &reply);
        self.end_connection(host, conn);
    }

    /// Sends the answer to a request on its connection. What is accepted is kept before, on the disk and then in the tables.
    fn send_answer<H: Host>(
        &mut self,
        host: &mut H,
        conn: u32,
        answer: RestAnswer<Staged>,
    ) -> Result<(), DiskFault>
        requires ready { CanAnswer answer self.old }
        requires size { needed_of self.old.journal.slots ≤ H.extent host.old }
        ensures done { OnOk result ((settings : SettingsValue) (state : State) (entries : List Entry) → RestartsWith self.old settings state entries
            → (few : List Entry) × RestartsWith self.new settings (having answer state) few
            × TurnedTo (H.moment host.new) settings state (having answer state) (owned.Conn conn (reply_in answer) ∷ []) (journal.Represents self.old.journal settings entries) (journal.Represents self.new.journal settings few)
            (H.media host.old) (H.media host.new) (H.acts host.old) (H.acts host.new)) }
        // Nothing but an entry that is accepted is written.
        ensures failed { OnErr result ((settings : SettingsValue) (state : State) (entries : List Entry) → RestartsWith self.old settings state entries
            → IsAcceptedBy answer × Broke settings state (having answer state) (journal.Represents self.old.journal settings entries) (H.media host.old) (H.media host.new) (H.acts host.old) (H.acts host.new)) }
        ensures lines { self.new.lines ≡ self.old.lines }
        ensures adds { Added (H.acts host.old) (H.acts host.new) (λ _. ⊤) }
        ensures settings { self.new.settings ≡ self.old.settings }
        ensures slots { self.new.journal.slots ≡ self.old.journal.slots }
        ensures extent { H.extent host.new ≡ H.extent host.old }
        ensures cause { HasCause (H.Disk.faults host.old) (H.Disk.faults host.new) result }
        ensures wire { H.Wire.faults host.new ≡ H.Wire.faults host.old }
        ensures leads { H.leads host.old host.new }
    {
        match answer {
            RestAnswer::Reply(reply) => {
                send_reply(host, conn, &reply);
                return Ok(());
            }
            RestAnswer::LongReply(reply) => {
                send_on(host, conn, reply.items());
                return Ok(());
            }
            RestAnswer::Accept { reply, entry } => {
                self.keep_entry(host, entry)?;
                send_reply(host, conn, &reply);
                return Ok(());
            }
        }
    }

    /// What becomes of the connection behind the reply to a request: it is closed, or the bytes of the request are no longer held.
    fn end_request<H: Host>(
        &mut self,
        host: &mut H,
        conn: u32,
        place: LinePlace,
        size: usize,
        close: bool,
    )
        requires there { IsAt conn place self.old.lines }
        requires size { (line : Line) → line_at place self.old.lines ≡ Some line → size ≤ length line.buffered }
        ensures lines { self.new ≡ record self.old { lines = if close then forgotten conn self.old.lines else buffering conn (drop size) self.old.lines } }
        ensures sent { Added (H.acts host.old) (H.acts host.new) (SentTo (H.moment host.old) (H.moment host.new) (closing conn close)) }
        ensures media { KeepsMedia (H.media host.old) (H.media host.new) }
        ensures extent { H.extent host.new ≡ H.extent host.old }
        ensures disk { H.Disk.faults host.new ≡ H.Disk.faults host.old }
        ensures wire { H.Wire.faults host.new ≡ H.Wire.faults host.old }
        ensures leads { H.leads host.old host.new }
    {
        if close {
            self.end_connection(host, conn);
            return;
        }
        self.drop_request(place, size);
    }
}

/// Who asks on the connection at this place. Each connection is of a client.
fn caller_there(settings: &Settings, table: &StreamTable<RestStream>, place: LinePlace) -> Caller
    requires there { (conn : ℕ) × IsAt conn place table.now }
    requires rows { AreOf settings.now.peers table.now }
    ensures caller { (conn : ℕ) → IsAt conn place table.now → caller_of settings.now conn table.now ≡ Some result }
    ensures acts { may_act settings.now (role_of settings.now result.peer) result.domain ≡ true }
{
    match caller_at(settings, table, place) {
        Some(caller) => caller,
        None => {
            let _domains = settings.domains();
            unreachable!()
        }
    }
}

/// Sends bytes on a connection. Whether they left makes no difference.
fn send_on<H: Host>(host: &mut H, conn: u32, bytes: &[u8])
    ensures acts { Added (H.acts host.old) (H.acts host.new) (SentTo (H.moment host.old) (H.moment host.new) (owned.Conn conn bytes.now ∷ [])) }
    ensures media { KeepsMedia (H.media host.old) (H.media host.new) }
    ensures extent { H.extent host.new ≡ H.extent host.old }
    ensures disk { H.Disk.faults host.new ≡ H.Disk.faults host.old }
    ensures wire { H.Wire.faults host.new ≡ H.Wire.faults host.old }
    ensures leads { H.leads host.old host.new }
{
    let _ = host.send(&Out::Conn { conn, bytes });
}

/// Sends a reply without a body on a connection. Takes no memory.
fn send_reply<H: Host>(host: &mut H, conn: u32, reply: &RestReply)
    ensures acts { Added (H.acts host.old) (H.acts host.new) (SentTo (H.moment host.old) (H.moment host.new) (owned.Conn conn reply.now ∷ [])) }
    ensures media { KeepsMedia (H.media host.old) (H.media host.new) }
    ensures extent { H.extent host.new ≡ H.extent host.old }
    ensures disk { H.Disk.faults host.new ≡ H.Disk.faults host.old }
    ensures wire { H.Wire.faults host.new ≡ H.Wire.faults host.old }
    ensures leads { H.leads host.old host.new }
{
    let mut bytes = [0; 1024];
    let len = reply.write(&mut bytes);
    send_on(host, conn, &bytes[..len]);
}
