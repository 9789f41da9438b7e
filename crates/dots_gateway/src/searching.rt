//! Finding exchanges by their numbers.

ghost use Rattle.std.specs.Prelude.{◌≡◌, ◌≢◌, length, MatchOption, option_map};
ghost use Rattle.std.specs.Int.{w64, from_be_bytes};
ghost use Rattle.std.specs.List.{find};
ghost use Rattle.dots_gateway.specs.Finding.{AreInOrder, has_number};

use crate::exchange::Waiting;
use std::collections::VecDeque;

/// The number whose 8 bytes the token is.
pub fn number_in(token: &[u8]) -> Option<u64>
    ensures { MatchOption result (length token.now ≢ 8) (λ number. (length token.now ≡ 8) × (number ≡ from_be_bytes w64 token.now)) }
{
    if token.len() != 8 {
        return None;
    }
    let mut bytes = [0; 8];
    bytes.copy_from_slice(token);
    Some(u64::from_be_bytes(bytes))
}

/// The exchange of this number, by halving.
pub fn of_number(waiting: &VecDeque<Waiting>, number: u64) -> Option<&Waiting>
    requires { AreInOrder waiting.now.items }
    ensures { option_map (λ k. k.now) result ≡ find (has_number number) waiting.now.items }
{
    let mut low = 0;
    let mut high = waiting.len();
    while low < high {
        let middle = low + (high - low) / 2;
        let here = &waiting[middle];
        if here.exchange.number == number {
            return Some(here);
        }
        if here.exchange.number < number {
            low = middle + 1;
        } else {
            high = middle;
        }
    }
    None
}
