//! Draws from a seed.

ghost use Rattle.std.specs.Prelude.{◌≡◌, ◌<◌, ◌^◌};
ghost use Rattle.dots_load.specs.Draws.{next, high};

/// A linear congruential generator modulo 2^64.
#[derive(Drop)]
pub struct Draws {
    pub(crate) number: u64,
}

const FACTOR: u64 = 6364136223846793005;

const SUMMAND: u64 = 1442695040888963407;

impl Draws {
    pub fn new(seed: u64) -> Self
        ensures { result.number ≡ seed }
    {
        Draws { number: seed }
    }

    /// The next draw, the high half of the next number.
    pub fn draw(&mut self) -> u32
        ensures number { self.new.number ≡ next self.old.number }
        ensures draw { result ≡ high self.new.number }
    {
        self.number = self.number.wrapping_mul(FACTOR).wrapping_add(SUMMAND);
        (self.number >> 32) as u32
    }
}
