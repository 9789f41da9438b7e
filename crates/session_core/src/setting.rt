//! The values of a session configuration.

ghost use Rattle.std.specs.Prelude.{◌≡◌};
ghost use Rattle.session_core.specs.Ranges.{key_of, default_of, is_within, is_accepted, is_refused, chosen};

/// A value of a session configuration (RFC 9132, section 4.5.2), in the order of their keys.
#[derive(Clone, Copy)]
pub enum Setting {
    /// `heartbeat-interval`, in seconds.
    Interval,
    /// `missing-hb-allowed`.
    Missing,
    /// `max-retransmit`.
    Retransmit,
    /// `ack-timeout`, in hundredths of a second.
    Timeout,
    /// `ack-random-factor`, in hundredths.
    Factor,
    /// `probing-rate`, in bytes a second.
    Rate,
}

impl Setting {
    /// Its key in CBOR (RFC 9132, section 6).
    pub fn key(self) -> u8
        ensures { result ≡ key_of self }
    {
        match self {
            Setting::Interval => 33,
            Setting::Missing => 37,
            Setting::Retransmit => 38,
            Setting::Timeout => 39,
            Setting::Factor => 40,
            Setting::Rate => 50,
        }
    }

    /// What holds where no value is given.
    pub fn default_value(self) -> u64
        ensures { result ≡ default_of self }
    {
        match self {
            Setting::Interval => 30,
            Setting::Missing => 15,
            Setting::Retransmit => 3,
            Setting::Timeout => 200,
            Setting::Factor => 150,
            Setting::Rate => 5,
        }
    }

    /// Whether a value is accepted: it is in its range, and an interval may be 0 too, for no heartbeats.
    pub fn accepts(self, value: u64) -> bool
        ensures { result ≡ is_accepted self value }
    {
        match self {
            Setting::Interval => value == 0 || is_within(15, 240, value),
            Setting::Missing => is_within(3, 20, value),
            Setting::Retransmit => is_within(2, 15, value),
            Setting::Timeout => is_within(100, 3000, value),
            Setting::Factor => is_within(110, 400, value),
            Setting::Rate => is_within(1, 100, value),
        }
    }

    /// Whether a value is given that isn't accepted.
    pub fn refuses(self, value: Option<u64>) -> bool
        ensures { result ≡ is_refused self value }
    {
        match value {
            Some(value) => !self.accepts(value),
            None => false,
        }
    }

    /// The value that is given, or else what holds without one.
    pub fn chosen(self, value: Option<u64>) -> u64
        ensures { result ≡ chosen self value }
    {
        match value {
            Some(value) => value,
            None => self.default_value(),
        }
    }
}

fn is_within(least: u64, most: u64, value: u64) -> bool
    ensures { result ≡ is_within least most value }
{
    least <= value && value <= most
}
