//! Putting exchanges back that waited before a crash.

ghost use Rattle.std.specs.Prelude.{◌≡◌, ◌<◌, ◌≤◌, ◌+◌, ◌∷◌, [], length, map, max};
ghost use Rattle.std.specs.HashMap.{spare};
ghost use Rattle.std.specs.VecDeque.{deque_capacity, deque_len};
ghost use Rattle.dots_gateway.specs.Exchanges.{waiting_again, time_of};
ghost use Rattle.dots_gateway.specs.Finding.{AreLinked, AreNumbered};

use crate::exchange::{Exchange, Key, Waiting, key_of};
use std::collections::{HashMap, VecDeque};

/// Puts exchanges back, from the last to the first.
pub fn put_back(
    waiting: &mut VecDeque<Waiting>,
    links: &mut VecDeque<Option<u64>>,
    numbers: &mut HashMap<Key, u64>,
    exchanges: &[Exchange],
)
    requires none { waiting.old.items ≡ [] }
    requires linked { AreLinked links.old.items waiting.old.items }
    requires numbered { AreNumbered numbers.old.entries waiting.old.items }
    requires room { (length exchanges.now ≤ deque_capacity waiting.old) × (length exchanges.now ≤ deque_capacity links.old) × (length exchanges.now ≤ spare numbers.old) }
    ensures waiting { waiting.new.items ≡ map waiting_again exchanges.now }
    ensures linked { AreLinked links.new.items waiting.new.items }
    ensures numbered { AreNumbered numbers.new.entries waiting.new.items }
    ensures capacity { (deque_capacity waiting.new ≡ deque_capacity waiting.old) × (deque_capacity links.new ≡ deque_capacity links.old) }
    ensures none { exchanges.now ≡ [] → spare numbers.new ≡ spare numbers.old }
{
    let mut at = exchanges.len();
    while at > 0 {
        at -= 1;
        put_first(waiting, links, numbers, &exchanges[at]);
    }
}

/// Puts an exchange in front of the others, whose datagram was lost.
fn put_first(
    waiting: &mut VecDeque<Waiting>,
    links: &mut VecDeque<Option<u64>>,
    numbers: &mut HashMap<Key, u64>,
    exchange: &Exchange,
)
    requires linked { AreLinked links.old.items waiting.old.items }
    requires numbered { AreNumbered numbers.old.entries waiting.old.items }
    requires room { (deque_len waiting.old < deque_capacity waiting.old) × (deque_len links.old < deque_capacity links.old) × (0 < spare numbers.old) }
    ensures waiting { waiting.new.items ≡ waiting_again exchange.now ∷ waiting.old.items }
    ensures linked { AreLinked links.new.items waiting.new.items }
    ensures numbered { AreNumbered numbers.new.entries waiting.new.items }
    ensures capacity { (deque_capacity waiting.new ≡ deque_capacity waiting.old) × (deque_capacity links.new ≡ deque_capacity links.old) }
    ensures spare { spare numbers.old ≤ spare numbers.new + 1 }
{
    match numbers.insert(key_of(exchange), exchange.number) {
        Ok(link) => links.push_front_reserved(link),
        Err(_) => unreachable!(),
    }
    waiting.push_front_reserved(Waiting {
        exchange: *exchange,
        asked: None,
    });
}

/// The time of the last exchange, or a later one.
pub fn time_after(exchanges: &[Exchange], time: u64) -> u64
    ensures { result ≡ max (time_of 0 exchanges.now) time }
{
    if exchanges.is_empty() {
        return time;
    }
    exchanges[exchanges.len() - 1].time.max(time)
}
