//! The rows of the ledger.

ghost use Rattle.std.specs.Prelude.{◌≡◌, ◌<◌, nat_le, position, vec_len, vec_capacity, option_map, Some};
ghost use Rattle.std.specs.List.{find};
ghost use Rattle.dots_client.specs.Client.{has_mid, left_at, is_over};
ghost use Rattle.dots_client.specs.Ledger.{with_row, without_row};

use crate::granted::Granted;

/// The row of this mid.
pub fn row_of(ledger: &[Granted], mid: u32) -> Option<&Granted>
    ensures { option_map (λ row. row.now) result ≡ find (has_mid mid) ledger.now }
{
    ledger.iter().find(|row| row.mid == mid)
}

/// Sets the row of a mid, between those of lower and of higher mids.
pub fn set_row(ledger: &mut Vec<Granted>, row: Granted)
    requires { vec_len ledger.old < vec_capacity ledger.old }
    ensures { ledger.new.items ≡ with_row row ledger.old.items }
{
    let mid = row.mid;
    match place_for(ledger.as_slice(), mid) {
        Some(place) => put_row(ledger, place, row),
        None => ledger.push_reserved(row),
    }
}

/// The place of the first row that isn't of a lower mid.
fn place_for(ledger: &[Granted], mid: u32) -> Option<usize>
    ensures { result ≡ position (λ row. nat_le mid row.mid) ledger.now }
{
    ledger.iter().position(|row| row.mid >= mid)
}

/// Puts a row at the place of the first one that isn't of a lower mid: over it where it is of the same mid, else before it.
fn put_row(ledger: &mut Vec<Granted>, place: usize, row: Granted)
    requires room { vec_len ledger.old < vec_capacity ledger.old }
    requires first { Some place ≡ position (λ r. nat_le row.mid r.mid) ledger.old.items }
    ensures { ledger.new.items ≡ with_row row ledger.old.items }
{
    if ledger[place].mid == row.mid {
        ledger[place] = row;
        return;
    }
    match ledger.insert(place, row) {
        Ok(()) => {}
        Err(_) => unreachable!(),
    }
}

/// Removes the row of a mid.
pub fn drop_row(ledger: &mut Vec<Granted>, mid: u32)
    ensures { ledger.new.items ≡ without_row mid ledger.old.items }
{
    if let Some(place) = place_of(ledger.as_slice(), mid) {
        let _withdrawn = ledger.remove(place);
    }
}

fn place_of(ledger: &[Granted], mid: u32) -> Option<usize>
    ensures { result ≡ position (has_mid mid) ledger.now }
{
    ledger.iter().position(|row| row.mid == mid)
}

/// Removes the rows whose lifetime has passed at the time `now`, in seconds.
pub fn retain_granted(ledger: &mut Vec<Granted>, now: u64)
    ensures { ledger.new.items ≡ left_at now ledger.old.items }
{
    ledger.retain(|row| !row.is_over(now));
}
