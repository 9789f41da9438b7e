//! Who is watched, and by whom.

ghost use Rattle.std.specs.Prelude.{◌≡◌, true, if◌then◌else◌, Some, None};
ghost use Rattle.std.specs.List.{list_any};
ghost use Rattle.coap_exchange.specs.Pairs.{is_pair};
ghost use Rattle.coap_observe.specs.Observing.{has_room, number_for, registered, deregistered, without_id};
ghost use Rattle.session_core.specs.Contacts.{is_of, heard_from};

use crate::sessions::Sessions;
use coap_observe::{DueAmong, Observer, Observers, Views};
use dots_lists::NoMemory;

/// The observers of mitigations, and the sessions with all peers, whose Message IDs notifications take.
#[derive(Drop)]
pub struct Watch {
    pub observers: Observers,
    pub sessions: Sessions,
    /// Among whom an observer may be due: what the others were notified of last is what there is to see.
    pub due: DueAmong,
    /// What refused memory for a notification when observers were notified last.
    pub refused: Option<NoMemory>,
}

impl Watch {
    /// A message of this peer, which the settings have, is heard at the time `now`, in seconds. A session begins where there is none.
    pub fn hear(&mut self, peer: u32, now: u64)
        requires { list_any (is_of peer) self.old.sessions ≡ true }
        ensures { self.new ≡ record self.old { sessions = heard_from peer now self.old.sessions } }
    {
        self.sessions.heard(peer, now);
    }

    /// A message of this peer rejects the one with this Message ID: the observer whose last notification it was goes (RFC 7641, section
    /// 3.6).
    pub fn reset(&mut self, peer: u32, id: u16)
        ensures { self.new ≡ record self.old { observers = record self.old.observers { observed = without_id peer id self.old.observers.observed } } }
    {
        self.observers.reset(peer, id);
    }

    /// The number that [`Watch::register`] gives this observer; None exactly where there is no room for it.
    pub fn number(&self, observer: &Observer) -> Option<u32>
        ensures { result ≡ (if has_room self.now.observers.room observer.now self.now.observers.observed
            then Some (number_for observer.now self.now.observers.observed) else None) }
    {
        self.observers.number(observer)
    }

    /// Registers an observer whose peer may act for its domain. What it sees now counts as sent. Where there is no room for it nothing
    /// changes.
    pub fn register<V: Views>(&mut self, observer: Observer, views: &V)
        requires { list_any (is_pair observer.peer observer.domain) self.old.observers.pairs ≡ true }
        ensures { self.new ≡ record self.old {
          observers = record self.old.observers {
            observed = registered (V.lists views.now) self.old.observers.room observer self.old.observers.observed;
          };
        } }
    {
        let _ = self.observers.register(observer, views);
    }

    /// The observer of this peer and token goes, where there is one.
    pub fn cancel(&mut self, peer: u32, token: &[u8])
        ensures { self.new ≡ record self.old { observers = record self.old.observers { observed = deregistered peer token.now self.old.observers.observed } } }
    {
        self.observers.deregister(peer, token);
    }
}
