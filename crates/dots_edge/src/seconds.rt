//! The time beside events.

ghost use Rattle.std.specs.Prelude.{◌≡◌, ◌≤◌, ◌<◌, ◌^◌, ◌⊎◌, max, None};
ghost use Rattle.std.specs.Duration.{as_nanos};
ghost use Rattle.dots_edge.specs.Clocks.{nanos_at, second_at, IsSteady, strays, one_more};

use std::time::{Clock, Duration};

/// The greatest time of an event.
const LAST_SECOND: u64 = 281_474_976_710_655;

/// By how much the wall clock may differ from the time before that is counted.
const MAX_STRAY: u128 = 30_000_000_000;

/// What the two clocks read when they were read first.
#[derive(Clone, Copy)]
pub struct Begun {
    /// The wall clock, since 1970.
    pub wall: Duration,
    /// The monotonic clock, which never falls and isn't set.
    pub reading: Duration,
}

impl Begun {
    /// The time at a reading of the monotonic clock: what the wall clock read first, and what has passed since.
    fn time_at(self, reading: Duration) -> Duration
        ensures { as_nanos result ≡ nanos_at self reading }
    {
        self.wall
            .saturating_add(reading.saturating_sub(self.reading))
    }

    /// Whether the wall clock differs from the time by more than 30 seconds.
    fn strays(self, reading: Duration, wall: Duration) -> bool
        ensures { result ≡ strays self reading wall }
    {
        self.time_at(reading).abs_diff(wall).as_nanos() > MAX_STRAY
    }
}

/// The time beside events: seconds since 1970, which never fall and stay below 2^48. The wall clock is read once, and from then
/// on the time goes by the monotonic one.
#[derive(Drop)]
pub struct Seconds {
    pub begun: Option<Begun>,
    pub last: u64,
    /// At how many ticks the wall clock was more than 30 seconds away from the time.
    pub strayed: u64,
    pub ghost range: { last < 2 ^ 48 },
}

impl Seconds {
    pub fn new() -> Self
        ensures { (result.begun ≡ None) × (result.last ≡ 0) × (result.strayed ≡ 0) }
    {
        Seconds {
            begun: None,
            last: 0,
            strayed: 0,
        }
    }

    /// The time now. With a clock that can't be read it stands still.
    pub fn read<R: Clock>(&mut self, rt: &R) -> u64
        ensures range { result < 2 ^ 48 }
        ensures told { result ≡ self.new.last }
        ensures later { self.old.last ≤ self.new.last }
        ensures steady { IsSteady self.old.begun self.new.begun self.old.last result }
        ensures strayed { self.new.strayed ≡ self.old.strayed }
    {
        let Ok(reading) = rt.monotonic() else {
            return self.last;
        };
        match self.begun {
            Some(begun) => self.go_on(begun, reading),
            None => self.begin(rt, reading),
        }
    }

    /// Reads the wall clock, once. The time goes on from there.
    fn begin<R: Clock>(&mut self, rt: &R, reading: Duration) -> u64
        ensures range { result < 2 ^ 48 }
        ensures told { result ≡ self.new.last }
        ensures later { self.old.last ≤ self.new.last }
        ensures strayed { self.new.strayed ≡ self.old.strayed }
    {
        let Ok(wall) = rt.since_1970() else {
            return self.last;
        };
        let begun = Begun { wall, reading };
        self.begun = Some(begun);
        self.go_on(begun, reading)
    }

    /// The time at this reading, which is never below the last one.
    fn go_on(&mut self, begun: Begun, reading: Duration) -> u64
        ensures range { result < 2 ^ 48 }
        ensures told { result ≡ self.new.last }
        ensures time { result ≡ max self.old.last (second_at begun reading) }
        ensures kept { (self.new.begun ≡ self.old.begun) × (self.new.strayed ≡ self.old.strayed) }
    {
        let second = begun.time_at(reading).as_secs().min(LAST_SECOND);
        self.last = self.last.max(second);
        self.last
    }

    /// Counts a wall clock that differs from the time by more than 30 seconds. It isn't followed.
    pub fn compare<R: Clock>(&mut self, rt: &R)
        ensures kept { (self.new.begun ≡ self.old.begun) × (self.new.last ≡ self.old.last) }
        ensures strayed { (self.new.strayed ≡ self.old.strayed) ⊎ (self.new.strayed ≡ one_more self.old.strayed) }
    {
        let Some(begun) = self.begun else {
            return;
        };
        let (Ok(reading), Ok(wall)) = (rt.monotonic(), rt.since_1970()) else {
            return;
        };
        if begun.strays(reading, wall) {
            self.strayed = self.strayed.saturating_add(1);
        }
    }
}
