//! Letting exchanges go.

ghost use Rattle.std.specs.Prelude.{◌≡◌, ◌≢◌, [], drop, cond, None};
ghost use Rattle.std.specs.HashMap.{spare};
ghost use Rattle.std.specs.Map.{lookup};
ghost use Rattle.std.specs.VecDeque.{deque_capacity};
ghost use Rattle.dots_gateway.specs.declared.exchange.Key.{Key};
ghost use Rattle.dots_gateway.specs.Exchanges.{is_over, left_at};
ghost use Rattle.dots_gateway.specs.Finding.{AreInOrder, AreLinked, AreNumbered, same_key, is_first_over};

use crate::exchange::{EXCHANGE_LIFETIME, Key, Waiting, key_of};
use std::collections::{HashMap, VecDeque};

/// Whether an exchange is over at the time `now`, in seconds.
pub fn is_over(waiting: &Waiting, now: u64) -> bool
    ensures { result ≡ is_over now waiting.now }
{
    now.saturating_sub(waiting.exchange.time) >= EXCHANGE_LIFETIME
}

/// Lets the exchanges go that are over at the time `now`, in seconds. They are the first.
pub fn drop_over(
    waiting: &mut VecDeque<Waiting>,
    links: &mut VecDeque<Option<u64>>,
    numbers: &mut HashMap<Key, u64>,
    now: u64,
)
    requires order { AreInOrder waiting.old.items }
    requires linked { AreLinked links.old.items waiting.old.items }
    requires numbered { AreNumbered numbers.old.entries waiting.old.items }
    ensures left { waiting.new.items ≡ left_at now waiting.old.items }
    ensures linked { AreLinked links.new.items waiting.new.items }
    ensures numbered { AreNumbered numbers.new.entries waiting.new.items }
    ensures capacity { (deque_capacity waiting.new ≡ deque_capacity waiting.old) × (deque_capacity links.new ≡ deque_capacity links.old) }
    ensures none { waiting.old.items ≡ [] → spare numbers.new ≡ spare numbers.old }
{
    while is_first_over(waiting, now) {
        drop_first(waiting, links, numbers);
    }
}

/// Whether the first exchange is over at the time `now`, in seconds.
fn is_first_over(waiting: &VecDeque<Waiting>, now: u64) -> bool
    ensures { result ≡ is_first_over now waiting.now.items }
{
    match waiting.front() {
        Some(first) => is_over(first, now),
        None => false,
    }
}

/// Lets the first exchange go. The next one of the same request is the first of it then.
fn drop_first(
    waiting: &mut VecDeque<Waiting>,
    links: &mut VecDeque<Option<u64>>,
    numbers: &mut HashMap<Key, u64>,
)
    requires linked { AreLinked links.old.items waiting.old.items }
    requires numbered { AreNumbered numbers.old.entries waiting.old.items }
    ensures left { waiting.new.items ≡ drop 1 waiting.old.items }
    ensures linked { AreLinked links.new.items waiting.new.items }
    ensures numbered { AreNumbered numbers.new.entries waiting.new.items }
    ensures capacity { (deque_capacity waiting.new ≡ deque_capacity waiting.old) × (deque_capacity links.new ≡ deque_capacity links.old) }
{
    let Some(first) = waiting.pop_front() else {
        return;
    };
    let Some(link) = links.pop_front() else {
        unreachable!();
    };
    set_number(numbers, key_of(&first.exchange), link);
}

/// The number of the first exchange of a request that there was one of; None where there is none any more.
fn set_number(numbers: &mut HashMap<Key, u64>, key: Key, number: Option<u64>)
    requires { lookup (same_key key) numbers.old.entries ≢ None }
    ensures { (other : Key) → lookup (same_key other) numbers.new.entries ≡ cond (same_key key other) number (lookup (same_key other) numbers.old.entries) }
{
    match number {
        Some(number) => match numbers.insert(key, number) {
            Ok(_) => {}
            Err(_) => unreachable!(),
        },
        None => {
            let _gone = numbers.remove(&key);
        }
    }
}
