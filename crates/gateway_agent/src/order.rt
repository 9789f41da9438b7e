//! The exchanges of a store, in the order in which they were passed on.

ghost use Rattle.std.specs.Prelude.{◌≡◌, ℕ, ◌<◌, ◌≤◌, length, max, nat_lt};
ghost use Rattle.gateway_agent.specs.Exchanges.{IsStore, is_young, joins, last_number, last_time, most_young, young_at};

use crate::form::is_of_request;
use dots_gateway::{Exchange, LAST_NUMBER, MAX_WAITING};

/// For how many seconds after its time a store keeps an exchange (RFC 7252, section 4.8.2): it waits for 247.
pub const MAX_AGE: u64 = 246;

/// Whether an exchange is at most 246 seconds old at the time `now`, in seconds.
fn is_young(exchange: &Exchange, now: u64) -> bool
    ensures { result ≡ is_young now exchange.now }
{
    now.saturating_sub(exchange.time) <= MAX_AGE
}

/// How many exchanges are at most 246 seconds old at the time `now`, in seconds.
pub fn count_young(exchanges: &[Exchange], now: u64) -> usize
    ensures { result ≡ length (young_at now exchanges.now) }
{
    exchanges
        .iter()
        .filter(|exchange| is_young(exchange, now))
        .count()
}

/// Those of a store that are at most 246 seconds old at the time `now`, in seconds, or at the time of the last one, if that is later.
pub fn young_among(exchanges: &[Exchange], now: u64) -> &[Exchange]
    requires { (most : ℕ) × IsStore most exchanges.now }
    ensures { result.now ≡ young_at (max now (last_time exchanges.now)) exchanges.now }
{
    let time = now.max(last_time(exchanges));
    let old = exchanges.len() - count_young(exchanges, time);
    &exchanges[old..]
}

/// The number of the last exchange, and 0 where there is none.
pub fn last_number(exchanges: &[Exchange]) -> u64
    ensures { result ≡ last_number exchanges.now }
{
    if exchanges.is_empty() {
        return 0;
    }
    exchanges[exchanges.len() - 1].number
}

/// The time of the last exchange, in seconds, and 0 where there is none.
fn last_time(exchanges: &[Exchange]) -> u64
    ensures { result ≡ last_time exchanges.now }
{
    if exchanges.is_empty() {
        return 0;
    }
    exchanges[exchanges.len() - 1].time
}

/// How many exchanges may be young at once in a journal with so many slots.
pub fn most_young(slots: u32) -> usize
    requires { 8 < slots }
    ensures most { result ≡ most_young slots }
    ensures some { 0 < result }
{
    MAX_WAITING.min(slots as usize - 8)
}

/// Whether fewer than `most` are at most 246 seconds old at the time `now`, in seconds. The young ones are the last.
fn has_room(exchanges: &[Exchange], most: usize, now: u64) -> bool
    requires store { IsStore most exchanges.now }
    requires some { 0 < most }
    ensures { result ≡ nat_lt (length (young_at now exchanges.now)) most }
{
    let len = exchanges.len();
    len < most || !is_young(&exchanges[len - most], now)
}

/// Whether an exchange joins those of a store, of which at most `most` may be young at once.
pub fn joins(exchanges: &[Exchange], most: usize, exchange: &Exchange) -> bool
    requires store { IsStore most exchanges.now }
    requires some { 0 < most }
    ensures token { length exchange.now.token ≤ 8 }
    ensures is { result ≡ joins most exchanges.now exchange.now }
{
    is_of_request(exchange)
        && last_number(exchanges) < exchange.number
        && exchange.number < LAST_NUMBER
        && last_time(exchanges) <= exchange.time
        && has_room(exchanges, most, exchange.time)
}
