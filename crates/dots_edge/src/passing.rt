//! What has passed by a clock that doesn't fall.

ghost use Rattle.std.specs.Prelude.{◌≡◌, ◌-◌, ◌*◌, None, Some, if◌then◌else◌};
ghost use Rattle.std.specs.Duration.{as_nanos};
ghost use Rattle.dots_edge.specs.Passing.{have_passed, is_due, begun, left_of};

use std::time::Duration;

/// How many nanoseconds a second has.
const NANOS: u128 = 1_000_000_000;

/// Whether so many seconds, or more, have passed.
pub fn have_passed(seconds: u32, since: Duration, now: Duration) -> bool
    ensures { result ≡ have_passed seconds since now }
{
    u128::from(seconds) * NANOS <= now.saturating_sub(since).as_nanos()
}

/// When the last tick came, or the first look at the clock where there was none.
#[derive(Drop)]
pub struct Ticks {
    pub since: Option<Duration>,
}

impl Ticks {
    pub fn new() -> Self
        ensures { result.since ≡ None }
    {
        Ticks { since: None }
    }

    /// Whether a tick is due now, which then is the last one.
    pub fn is_due(&mut self, now: Duration) -> bool
        ensures due { result ≡ is_due self.old.since now }
        ensures since { self.new.since ≡ (if result then Some now else begun self.old.since now) }
    {
        match self.since {
            Some(since) if !have_passed(1, since, now) => false,
            Some(_) => {
                self.since = Some(now);
                true
            }
            None => {
                self.since = Some(now);
                false
            }
        }
    }

    /// How long it is until the next tick.
    pub fn left(&self, now: Duration) -> Duration
        ensures { as_nanos result ≡ left_of self.now.since now }
    {
        match self.since {
            Some(since) => Duration::from_secs(1).saturating_sub(now.saturating_sub(since)),
            None => Duration::from_secs(1),
        }
    }
}
