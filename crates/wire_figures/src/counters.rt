//! A count for each number of a range.

ghost use Rattle.std.specs.Prelude.{◌≡◌, ℕ, ◌<◌, length, get_or, replicate, IfOk};
ghost use Rattle.wire_figures.specs.Counting.{is_the, more_if};

use dots_lists::NoMemory;
use std::alloc::Global;
use std::marker::Model;

/// A count for each number below a size.
#[derive(Drop)]
pub struct Counters {
    counts: Vec<u64>,
}

impl Model for Counters {
    ghost use Rattle.std.specs.Prelude.{List, ℕ};

    ghost Value = { List ℕ };

    ghost view = { λ counters. counters.counts.items };
}

impl Counters {
    /// All counts are 0.
    pub fn new(alloc: Global, size: usize) -> Result<Counters, NoMemory>
        ensures { IfOk result (λ counters. counters ≡ replicate size 0) }
    {
        let mut counts = Vec::new(alloc);
        counts.resize(size, 0)?;
        Ok(Counters { counts })
    }

    /// The count for the number, or 0 where there is none.
    pub fn at(&self, number: usize) -> u64
        ensures { result ≡ get_or self.now number 0 }
    {
        match self.counts.get(number) {
            Some(count) => *count,
            None => 0,
        }
    }

    /// Counts the number that was found.
    pub fn add(&mut self, found: Option<u64>)
        ensures length { length self.new ≡ length self.old }
        ensures counts { (number : ℕ) → number < length self.old → get_or self.new number 0 ≡ more_if (is_the number found) (get_or self.old number 0) }
    {
        let Some(number) = found else {
            return;
        };
        if number < self.counts.len() as u64 {
            let at = number as usize;
            self.counts[at] = self.counts[at].saturating_add(1);
        }
    }
}
