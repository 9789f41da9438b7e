//! Searches in numbers that are in order.

ghost use Rattle.std.specs.Prelude.{◌≡◌, ◌==◌, ◌<◌, ◌≤◌, ◌^◌, nat_lt, if◌then◌else◌, length, take, drop};
ghost use Rattle.std.specs.List.{prefix_len, AllByRecursion};
ghost use Rattle.filter_table.specs.Numbers.{Falls};

use crate::rank::Rank;

/// 1 where the first number is less, and 0 else. The sign of the difference says it, so a search that adds it up has no branch
/// that depends on the numbers.
#[inline(always)]
fn is_less(number: u64, bound: u64) -> usize
    requires number { number < 2 ^ 63 }
    requires bound { bound < 2 ^ 63 }
    ensures { result ≡ (if nat_lt number bound then 1 else 0) }
{
    (number.wrapping_sub(bound) >> 63) as usize
}

/// How many numbers are below the bound. They are in order.
#[inline(always)]
pub fn numbers_below(bound: u64, numbers: &[u64]) -> usize
    requires in_order { Falls (λ number. nat_lt number bound) numbers.now }
    requires small { AllByRecursion (λ number. number < 2 ^ 63) numbers.now }
    requires bound { bound < 2 ^ 63 }
    ensures value { result ≡ prefix_len (λ number. nat_lt number bound) numbers.now }
    ensures within { result ≤ length numbers.now }
{
    let mut size = numbers.len();
    if size == 0 {
        return 0;
    }
    let mut base = 0;
    while size > 1 {
        let half = size / 2;
        base += half * is_less(numbers[base + half], bound);
        size -= half;
    }
    base + is_less(numbers[base], bound)
}

/// How many numbers at the front equal this one.
#[inline(always)]
fn number_of_equal(number: u64, numbers: &[u64]) -> usize
    ensures value { result ≡ prefix_len (λ other. other == number) numbers.now }
    ensures within { result ≤ length numbers.now }
{
    numbers.iter().take_while(|other| **other == number).count()
}

/// The slots beside the numbers that equal this one, where the numbers are in order.
#[inline(always)]
pub fn slots_of_number<'a>(number: u64, numbers: &[u64], slots: &'a [u32]) -> &'a [u32]
    requires in_order { Falls (λ other. nat_lt other number) numbers.now }
    requires small { AllByRecursion (λ other. other < 2 ^ 63) numbers.now }
    requires number { number < 2 ^ 63 }
    requires beside { length slots.now ≡ length numbers.now }
    ensures { let at = prefix_len (λ other. nat_lt other number) numbers.now in
        result.now ≡ take (prefix_len (λ other. other == number) (drop at numbers.now)) (drop at slots.now) }
{
    let at = numbers_below(number, numbers);
    let (_, numbers) = numbers.split_at(at);
    let (_, slots) = slots.split_at(at);
    let (found, _) = slots.split_at(number_of_equal(number, numbers));
    found
}

/// How many ranks have a number below the bound. Their numbers are in order.
fn ranks_below(bound: u128, ranks: &[Rank]) -> usize
    requires { Falls (λ rank. nat_lt rank.number bound) ranks.now }
    ensures value { result ≡ prefix_len (λ rank. nat_lt rank.number bound) ranks.now }
    ensures within { result ≤ length ranks.now }
{
    ranks.partition_point(|rank| rank.number < bound)
}

/// How many ranks at the front have this number.
fn number_of_ranks(number: u128, ranks: &[Rank]) -> usize
    ensures value { result ≡ prefix_len (λ rank. rank.number == number) ranks.now }
    ensures within { result ≤ length ranks.now }
{
    ranks
        .iter()
        .take_while(|rank| rank.number == number)
        .count()
}

/// The slots beside the ranks of this number, where the numbers are in order.
pub fn slots_of_long_number<'a>(number: u128, ranks: &[Rank], slots: &'a [u32]) -> &'a [u32]
    requires in_order { Falls (λ rank. nat_lt rank.number number) ranks.now }
    requires beside { length slots.now ≡ length ranks.now }
    ensures { let at = prefix_len (λ rank. nat_lt rank.number number) ranks.now in
        result.now ≡ take (prefix_len (λ rank. rank.number == number) (drop at ranks.now)) (drop at slots.now) }
{
    let at = ranks_below(number, ranks);
    let (_, ranks) = ranks.split_at(at);
    let (_, slots) = slots.split_at(at);
    let (found, _) = slots.split_at(number_of_ranks(number, ranks));
    found
}

/// The ranks of this number, where the numbers are in order.
pub fn ranks_of_number(number: u128, ranks: &[Rank]) -> &[Rank]
    requires { Falls (λ rank. nat_lt rank.number number) ranks.now }
    ensures { let at = prefix_len (λ rank. nat_lt rank.number number) ranks.now in
        result.now ≡ take (prefix_len (λ rank. rank.number == number) (drop at ranks.now)) (drop at ranks.now) }
{
    let (_, ranks) = ranks.split_at(ranks_below(number, ranks));
    let (found, _) = ranks.split_at(number_of_ranks(number, ranks));
    found
}
