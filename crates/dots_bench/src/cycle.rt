//! Deadlines that are set, come due, and are set again.

ghost use Rattle.std.specs.Prelude.{◌≡◌, ◌≤◌};
ghost use Rattle.lifetime_clock.specs.Times.{count};

use dots_lists::NoMemory;
use lifetime_clock::Deadlines;
use std::alloc::Global;

/// Times that all differ, and rise on the whole, so that a new one lands anywhere among those that are set.
#[derive(Drop)]
struct Times {
    /// How many were made.
    made: u64,
    /// How many will be.
    all: u64,
    /// By how many steps a time is put off at most.
    spread: u64,
    state: u32,
}

impl Times {
    /// For so many keys, and so many deadlines after theirs.
    fn new(keys: u32, repetitions: u32) -> Times {
        Times {
            made: 0,
            all: u64::from(keys) + u64::from(repetitions),
            spread: u64::from(keys).max(1),
            state: 1,
        }
    }

    fn next_time(&mut self) -> u64 {
        self.state = self
            .state
            .wrapping_mul(1_664_525)
            .wrapping_add(1_013_904_223);
        let step = self
            .made
            .wrapping_add(u64::from(self.state >> 8) % self.spread.max(1));
        let time = step.wrapping_mul(self.all).wrapping_add(self.made);
        self.made = self.made.wrapping_add(1);
        time
    }
}

/// The keys that were answered, in their order.
#[derive(Clone, Copy)]
pub struct Order {
    pub answered: u32,
    pub sum: u64,
}

/// Gives each key below `keys` a time.
fn fill(deadlines: &mut Deadlines, keys: u32, times: &mut Times)
    requires { (count deadlines.old ≡ 0) × (deadlines.old.room ≡ keys) }
    ensures room { count deadlines.new ≤ deadlines.new.room }
{
    for key in 0..keys {
        deadlines.set(key, times.next_time());
    }
}

/// Takes the key with the least time out and gives it another, so often.
fn repeat(deadlines: &mut Deadlines, repetitions: u32, times: &mut Times) -> Order
    requires { count deadlines.old ≤ deadlines.old.room }
    ensures bound { result.answered ≤ repetitions }
{
    let mut order = Order {
        answered: 0,
        sum: 0,
    };
    for _ in 0..repetitions {
        if let Some(key) = deadlines.due(u64::MAX) {
            deadlines.set(key, times.next_time());
            order.answered += 1;
            order.sum = order.sum.wrapping_mul(31).wrapping_add(u64::from(key));
        }
    }
    order
}

/// Sets deadlines for so many keys, and takes them out again so often.
pub fn run(alloc: Global, keys: u32, repetitions: u32) -> Result<Order, NoMemory> {
    let mut deadlines = Deadlines::new(alloc, keys as usize)?;
    let mut times = Times::new(keys, repetitions);
    fill(&mut deadlines, keys, &mut times);
    Ok(repeat(&mut deadlines, repetitions, &mut times))
}
