//! The rows of a mitigation, found by its domain and mid.

ghost use Rattle.std.specs.Prelude.{◌≡◌};
ghost use Rattle.std.specs.List.{find};
ghost use Rattle.filter_table.specs.Rows.{mark_of, marks_of, slot_is_of, woken_in};

use crate::rank::Rank;
use crate::ranking::Ranking;
use crate::slot_rows::{is_in_slot, wake_in_slot};
use acl_lists::ScrubRow;

/// The mark of a row: its rank by domain and mid.
pub fn mark_of(row: &ScrubRow, place: u64, slot: u32) -> Rank
    ensures { result ≡ mark_of (record { slot = slot; place = place; row = row.now }) }
{
    Rank {
        kind: row.domain,
        number: u128::from(row.mid),
        place,
        slot,
    }
}

/// The marks of this domain and mid.
pub fn marks_of(marks: &Ranking, domain: u16, mid: u32) -> &[Rank]
    ensures { result.now ≡ marks_of domain mid marks.now.ranks }
{
    marks.of_number(domain, u128::from(mid))
}

/// The first of these marks whose row is one of this mitigation.
pub fn first_of(
    marks: &[Rank],
    rows: &[Option<ScrubRow>],
    domain: u16,
    cuid: &[u8],
    mid: u32,
) -> Option<Rank>
    ensures { result ≡ find (λ mark. slot_is_of domain cuid.now mid rows.now mark.slot) marks.now }
{
    for mark in marks {
        if is_in_slot(mark.slot, rows, domain, cuid, mid) {
            return Some(*mark);
        }
    }
    None
}

/// Says of each row that has one of these marks and is one of this mitigation whether it is active.
pub fn wake_marked(
    marks: &[Rank],
    rows: &mut Vec<Option<ScrubRow>>,
    domain: u16,
    cuid: &[u8],
    mid: u32,
    active: bool,
)
    ensures { rows.new.items ≡ woken_in domain cuid.now mid active marks.now rows.old.items }
{
    for mark in marks {
        wake_in_slot(mark.slot, rows, domain, cuid, mid, active);
    }
}
