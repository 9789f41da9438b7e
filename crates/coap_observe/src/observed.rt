ghost use Rattle.std.specs.Prelude.{◌≡◌, ◌+◌, ◌<◌, ◌%◌, bytes_eq};
ghost use Rattle.coap_observe.specs.Observed.{next_number, is_token, is_of, had_id, same_id, is_due, notified, registered_again};
ghost use Rattle.coap_observe.specs.Observing.{registered_first};

use crate::observer::Observer;
use crate::seen::SeenList;
use crate::views::Views;
use std::marker::Model;

/// The numbers of notifications have 24 bits (RFC 7641, section 3.4).
const NUMBERS: u32 = 16_777_216;

/// An observer with what it was notified of.
#[derive(Drop)]
pub struct Observed {
    observer: Observer,
    /// The number of its next notification.
    number: u32,
    /// The Message ID of its last notification.
    last: Option<u16>,
    /// What it was notified of last.
    seen: SeenList,
}

impl Model for Observed {
    ghost use Rattle.std.specs.Prelude.{◌<◌};
    ghost use Rattle.coap_observe.specs.Observed.{ObservedValue};

    ghost Value = { ObservedValue };

    ghost view = { λ o. record { observer = o.observer; number = o.number; last = o.last; seen = o.seen } };

    ghost invariant = { λ o. o.number < 16777216 };
}

impl Observed {
    /// An observer that is registered for the first time, and has seen this in the reply of number 1.
    pub fn new(observer: Observer, seen: SeenList) -> Self
        ensures { result ≡ registered_first observer seen }
    {
        Observed {
            observer,
            number: next_number(1),
            last: None,
            seen,
        }
    }

    pub fn observer(&self) -> &Observer
        ensures { result.now ≡ self.now.observer }
    {
        &self.observer
    }

    /// The number of its next notification.
    pub fn number(&self) -> u32
        ensures { result ≡ self.now.number }
    {
        self.number
    }

    /// Whether it is the one of this peer and token.
    pub fn is_token(&self, peer: u32, token: &[u8]) -> bool
        ensures { result ≡ is_token peer token.now self.now }
    {
        self.observer.peer == peer && self.observer.token.bytes() == token
    }

    /// Whether it is of this peer and domain.
    pub fn is_of(&self, peer: u32, domain: u16) -> bool
        ensures { result ≡ is_of peer domain self.now }
    {
        self.observer.peer == peer && self.observer.domain == domain
    }

    /// Whether it is of this peer, and its last notification had this Message ID.
    pub fn had_id(&self, peer: u32, id: u16) -> bool
        ensures { result ≡ had_id peer id self.now }
    {
        self.observer.peer == peer && is_same_id(self.last, id)
    }

    /// Whether there is something else to see than it was notified of last.
    pub fn is_due<V: Views>(&self, views: &V) -> bool
        ensures { result ≡ is_due (V.lists views.now) self.now }
    {
        !self.seen.is(views, &self.observer)
    }

    /// It was notified of this with this Message ID.
    pub fn notify(&mut self, seen: SeenList, id: u16)
        ensures { self.new ≡ notified id seen self.old }
    {
        self.number = next_number(self.number);
        self.last = Some(id);
        self.seen = seen;
    }

    /// It is registered again and has seen this in the reply; answers the number of that.
    pub fn register_again(&mut self, observer: Observer, seen: SeenList) -> u32
        ensures number { result ≡ self.old.number }
        ensures again { self.new ≡ registered_again observer seen self.old }
    {
        let number = self.number;
        self.observer = observer;
        self.number = next_number(number);
        self.seen = seen;
        number
    }
}

fn next_number(number: u32) -> u32
    requires { number < 16777216 }
    ensures value { result ≡ next_number number }
    ensures bound { result < 16777216 }
{
    (number + 1) % NUMBERS
}

fn is_same_id(last: Option<u16>, id: u16) -> bool
    ensures { result ≡ same_id id last }
{
    match last {
        Some(other) => other == id,
        None => false,
    }
}
