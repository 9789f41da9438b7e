//! What is kept of a peer.

ghost use Rattle.std.specs.Prelude.{◌≡◌, is_some, true, MatchOption, ⊤, option_and_then};
ghost use Rattle.session_core.specs.Contacts.{is_of, session_of, number_heard, session_heard, row_heard, row_begun, next_id, number_in, row_numbered};
ghost use Rattle.session_core.specs.Beating.{Beating, Agrees, is_lost, lost_in, has_lost, has_session, contact_forgotten, row_forgotten, turn_loses, row_turned};
ghost use Rattle.session_core.specs.Beating.{beat_in, has_waited, is_due, was_heard, beat_to, due_beat, session_sent, contact_sent, row_sent};

use crate::configs::Configs;

/// A session with a peer (RFC 9132, section 4.7). It begins when a message of the peer is heard, or as if one was.
#[derive(Clone, Copy)]
pub struct Session {
    /// When the peer was heard last, in seconds; before that, when the session began.
    pub heard: u64,
    /// When it was sent a heartbeat last, in seconds; before the first one, when the session began.
    pub beat: u64,
}

/// What is kept of a peer once a session with it has begun.
#[derive(Clone, Copy)]
pub struct Contact {
    /// The Message ID of the next message that begins here.
    pub number: u16,
    /// The session, unless it is forgotten.
    pub session: Option<Session>,
}

/// A peer of the settings with what is kept of it.
#[derive(Clone, Copy)]
pub struct PeerContact {
    pub peer: u32,
    /// None until a session begins.
    pub contact: Option<Contact>,
}

/// A heartbeat that is to be sent (RFC 9132, section 4.7).
#[derive(Clone, Copy)]
pub struct Beat {
    pub peer: u32,
    /// Its Message ID.
    pub id: u16,
    /// Whether the peer was heard within the interval, for `peer-hb-status`.
    pub heard: bool,
}

impl Session {
    /// Whether it is lost at the time `now`: the peer was heard longer ago than `missing` heartbeats of the interval in seconds take.
    /// With an interval of 0 none is.
    fn is_lost(self, interval: u64, missing: u64, now: u64) -> bool
        ensures { result ≡ is_lost (interval, missing) now self }
    {
        interval > 0 && now.saturating_sub(self.heard) > interval.saturating_mul(missing)
    }

    /// Whether the interval in seconds has passed since the last heartbeat. An interval of 0 never has.
    fn is_due(self, interval: u64, now: u64) -> bool
        ensures { result ≡ is_due interval now self }
    {
        interval > 0 && now.saturating_sub(self.beat) >= interval
    }

    /// Whether the peer was heard at most the interval ago.
    fn was_heard(self, interval: u64, now: u64) -> bool
        ensures { result ≡ was_heard interval now self }
    {
        now.saturating_sub(self.heard) <= interval
    }

    /// The heartbeat with this Message ID that the peer is to be sent, where one is due.
    fn beat_to(self, interval: u64, now: u64, peer: u32, id: u16) -> Option<Beat>
        ensures { result ≡ beat_to interval now peer id self }
    {
        if !self.is_due(interval, now) {
            return None;
        }
        let heard = self.was_heard(interval, now);
        Some(Beat { peer, id, heard })
    }

    /// What is kept of it when a heartbeat is sent.
    fn sent(self, now: u64) -> Session
        ensures { result ≡ session_sent now self }
    {
        Session {
            heard: self.heard,
            beat: now,
        }
    }
}

impl Contact {
    /// What is kept when the session is forgotten.
    fn forgotten(self) -> Contact
        ensures { result ≡ contact_forgotten self }
    {
        Contact {
            number: self.number,
            session: None,
        }
    }

    /// What is kept when a heartbeat is sent.
    fn sent(self, now: u64) -> Contact
        ensures { result ≡ contact_sent now self }
    {
        Contact {
            number: next_id(self.number),
            session: self.session.map(|session| session.sent(now)),
        }
    }
}

/// The Message ID behind another, in 16 bits.
fn next_id(id: u16) -> u16
    ensures { result ≡ next_id id }
{
    id.wrapping_add(1)
}

impl PeerContact {
    /// A peer that wasn't heard.
    pub(crate) fn unheard(peer: u32) -> Self
        ensures { result ≡ record { peer = peer; contact = None } }
    {
        PeerContact {
            peer,
            contact: None,
        }
    }

    /// Whether it is that of this peer.
    pub fn is_of(&self, peer: u32) -> bool
        ensures { result ≡ is_of peer self.now }
    {
        self.peer == peer
    }

    /// A message of the peer is heard. Its session goes on, or begins; and Message IDs begin with the time where none was heard
    /// before.
    pub(crate) fn hear(&mut self, now: u64)
        ensures { self.new ≡ row_heard now self.old }
    {
        let number = number_heard(self.contact, now);
        let session = session_heard(self.session(), now);
        self.contact = Some(Contact {
            number,
            session: Some(session),
        });
    }

    /// A session begins as if a message of the peer was heard, where there is none.
    pub(crate) fn begin(&mut self, now: u64)
        ensures { self.new ≡ row_begun now self.old }
    {
        if self.session().is_none() {
            self.hear(now);
        }
    }

    /// The session with the peer.
    fn session(&self) -> Option<Session>
        ensures { result ≡ session_of self.now }
    {
        self.contact?.session
    }

    /// Whether a session has begun, be it forgotten or not.
    pub(crate) fn has_begun(&self) -> bool
        ensures { result ≡ is_some (number_in self.now) }
    {
        self.contact.is_some()
    }

    /// The Message ID of the next message that begins here, where a session has begun.
    pub(crate) fn next_number(&self) -> Option<u16>
        ensures { result ≡ number_in self.now }
    {
        Some(self.contact?.number)
    }

    /// The Message ID of the next message that begins here; the one behind it is the next then.
    pub(crate) fn take_number(&mut self) -> u16
        requires { is_some (number_in self.old) ≡ true }
        ensures number { Some result ≡ number_in self.old }
        ensures after { self.new ≡ row_numbered self.old }
    {
        let Some(contact) = self.contact else {
            unreachable!()
        };
        self.contact = Some(Contact {
            number: next_id(contact.number),
            session: contact.session,
        });
        contact.number
    }

    /// Whether its session is lost at the time `now`.
    pub(crate) fn has_lost<C: Configs>(&self, configs: &C, now: u64) -> bool
        ensures lost { (by : Beating) → Agrees (C.Says configs.now) by → result ≡ has_lost by now self.now }
        ensures session { result ≡ true → has_session self.now ≡ true }
    {
        let (interval, missing) = configs.beat(self.peer);
        self.has_lost_by(interval, missing, now)
    }

    /// Whether its session is lost at the time `now`, by an interval in seconds and a number of heartbeats that may be missed.
    fn has_lost_by(&self, interval: u64, missing: u64, now: u64) -> bool
        ensures { result ≡ lost_in (interval, missing) now (session_of self.now) }
    {
        match self.session() {
            Some(session) => session.is_lost(interval, missing, now),
            None => false,
        }
    }

    /// The session is forgotten. Message IDs go on.
    pub(crate) fn forget(&mut self)
        ensures { self.new ≡ row_forgotten self.old }
    {
        if let Some(contact) = self.contact {
            self.contact = Some(contact.forgotten());
        }
    }

    /// Its turn at a tick at the time `now`: a session begins where the peer is watched and has none; and the session is forgotten where it
    /// is lost by this interval in seconds and number of heartbeats that may be missed, which is answered.
    pub(crate) fn turn(&mut self, watched: bool, beat: (u64, u64), now: u64) -> bool
        ensures lost { result ≡ turn_loses watched beat now self.old }
        ensures after { self.new ≡ row_turned watched beat now self.old }
    {
        if watched {
            self.begin(now);
        }
        let (interval, missing) = beat;
        let lost = self.has_lost_by(interval, missing, now);
        if lost {
            self.forget();
        }
        lost
    }

    /// The heartbeat that the peer is to be sent at the time `now`, where one is due.
    pub(crate) fn due_beat<C: Configs>(&self, configs: &C, now: u64) -> Option<Beat>
        ensures due { (by : Beating) → Agrees (C.Says configs.now) by → result ≡ due_beat by now self.now }
        ensures waited { MatchOption result ⊤ (λ beat. has_waited now self.now ≡ true) }
    {
        let (interval, _) = configs.beat(self.peer);
        self.due_beat_by(interval, now)
    }

    /// The heartbeat that the peer is to be sent at the time `now`, where one is due by an interval in seconds.
    fn due_beat_by(&self, interval: u64, now: u64) -> Option<Beat>
        ensures { result ≡ option_and_then (beat_in interval now self.now.peer) self.now.contact }
    {
        let contact = self.contact?;
        let session = contact.session?;
        session.beat_to(interval, now, self.peer, contact.number)
    }

    /// A heartbeat is sent, which takes a Message ID.
    pub(crate) fn send_beat(&mut self, now: u64)
        ensures { self.new ≡ row_sent now self.old }
    {
        if let Some(contact) = self.contact {
            self.contact = Some(contact.sent(now));
        }
    }
}

/// The Message ID of the next message to a peer that is heard.
fn number_heard(contact: Option<Contact>, now: u64) -> u16
    ensures { result ≡ number_heard now contact }
{
    match contact {
        Some(contact) => contact.number,
        None => (now % 65_536) as u16,
    }
}

/// The session with a peer that is heard.
fn session_heard(session: Option<Session>, now: u64) -> Session
    ensures { result ≡ session_heard now session }
{
    match session {
        Some(session) => Session {
            heard: now,
            beat: session.beat,
        },
        None => Session {
            heard: now,
            beat: now,
        },
    }
}
