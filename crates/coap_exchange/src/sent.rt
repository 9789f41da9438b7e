ghost use Rattle.std.specs.Prelude.{◌≡◌, ◌<◌, ◌≤◌};
ghost use Rattle.coap_exchange.specs.Sent.{given, repeated, is_due, may_repeat, passed_after};

use dots_lists::Bytes;
use std::marker::Model;

/// How often a message is repeated (RFC 7252, section 4.8: MAX_RETRANSMIT).
const MAX_REPEATS: u8 = 3;

/// A message that waits for its acknowledgement.
#[derive(Drop)]
pub struct Sent {
    bytes: Bytes,
    id: u16,
    /// When it was given, in milliseconds.
    given: u64,
    /// The initial timeout, in milliseconds: 3,000 to 4,000.
    timeout: u64,
    /// How often it has been repeated: at most three times.
    repeats: u8,
}

impl Model for Sent {
    ghost use Rattle.std.specs.Prelude.{◌≤◌};
    ghost use Rattle.coap_exchange.specs.Sent.{SentValue};

    ghost Value = { SentValue };

    ghost view = { λ sent. record {
      bytes = sent.bytes;
      id = sent.id;
      given = sent.given;
      timeout = sent.timeout;
      repeats = sent.repeats;
    } };

    ghost invariant = { λ sent. (3000 ≤ sent.timeout) × (sent.timeout ≤ 4000) × (sent.repeats ≤ 3) };
}

impl Sent {
    /// A message that is given at the time `now`, in milliseconds. A random word fixes its initial timeout.
    pub fn new(bytes: Bytes, id: u16, now: u64, word: u32) -> Self
        ensures { result ≡ given bytes id now word }
    {
        Sent {
            bytes,
            id,
            given: now,
            timeout: 3000 + u64::from(word % 1001),
            repeats: 0,
        }
    }

    pub fn bytes(&self) -> &Bytes
        ensures { result.now ≡ self.now.bytes }
    {
        &self.bytes
    }

    pub fn id(&self) -> u16
        ensures { result ≡ self.now.id }
    {
        self.id
    }

    /// Whether its timeout is over at the time `now`, in milliseconds.
    pub fn is_due(&self, now: u64) -> bool
        ensures { result ≡ is_due now self.now }
    {
        now.saturating_sub(self.given) >= passed_after(self.timeout, self.repeats + 1)
    }

    /// Whether it is sent again when its timeout is over, and not given up.
    pub fn may_repeat(&self) -> bool
        ensures { result ≡ may_repeat self.now }
    {
        self.repeats < MAX_REPEATS
    }

    /// It is sent again.
    pub fn repeat(&mut self)
        requires { self.old.repeats < 3 }
        ensures { self.new ≡ repeated self.old }
    {
        self.repeats += 1;
    }
}

/// The time after so many timeouts, in milliseconds.
fn passed_after(timeout: u64, timeouts: u8) -> u64
    requires some { (1 ≤ timeout) × (1 ≤ timeouts) }
    requires few { timeouts ≤ 4 }
    requires short { timeout ≤ 4000 }
    ensures value { result ≡ passed_after timeout timeouts }
    ensures some { 0 < result }
{
    match timeouts {
        1 => timeout,
        2 => timeout * 3,
        3 => timeout * 7,
        _ => timeout * 15,
    }
}
