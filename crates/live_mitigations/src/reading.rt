//! The live mitigations of a client, one after the other.

ghost use Rattle.std.specs.Prelude.{◌≡◌, ◌∷◌, [], IfSome, IfNone};
ghost use Rattle.conflict_rules.specs.LiveViews.{of_cuid, live_views_of};
ghost use Rattle.live_mitigations.specs.LiveRows.{mitigations_in};

use crate::live_row::LiveRow;
use crate::row::Row;
use dots_history::Put;
use std::marker::Model;

/// A live mitigation, as it is read (RFC 9132, section 4.4.2).
#[derive(Drop)]
pub struct MitigationRow<'a> {
    pub put: &'a Put,
    /// Who asked for it.
    pub peer: u32,
    /// The seconds left of its lifetime, or -1 where that is indefinite; of a terminating one the seconds until it is over.
    pub left: i32,
    /// 2 where it stands, 5 where it is terminating.
    pub status: u8,
}

/// The live mitigations of a client that are left.
#[derive(Drop)]
pub struct Mitigations<'a> {
    left: &'a [LiveRow],
    cuid: &'a [u8],
    now: u64,
}

impl<'a> Model for Mitigations<'a> {
    ghost use Rattle.std.specs.Prelude.{List};
    ghost use Rattle.conflict_rules.specs.LiveViews.{LiveView, live_views_of};
    ghost use Rattle.live_mitigations.specs.LiveRows.{mitigations_in};

    ghost Value = { List LiveView };

    ghost view = { λ rows. live_views_of rows.now rows.cuid.now (mitigations_in rows.left.now) };
}

impl<'a> Mitigations<'a> {
    /// Those of the client among these, at this time.
    pub(crate) fn of(left: &'a [LiveRow], cuid: &'a [u8], now: u64) -> Mitigations<'a>
        ensures { result ≡ live_views_of now cuid.now (mitigations_in left.now) }
    {
        Mitigations { left, cuid, now }
    }
}

impl<'a> Iterator for Mitigations<'a> {
    type Item = MitigationRow<'a>;

    ghost use Rattle.std.specs.Iterator.{YieldsFirstBy, item_count};
    ghost use Rattle.live_mitigations.specs.LiveViews.{row_view};

    ghost next_gives = { YieldsFirstBy row_view (λ rows. rows) };

    ghost remaining = { item_count (λ rows. rows) };

    fn next(&mut self) -> Option<MitigationRow<'a>> {
        let (row, left) = next_of(self.left, self.cuid)?;
        self.left = left;
        Some(MitigationRow {
            put: row.put(),
            peer: row.peer(),
            left: row.left(self.now),
            status: row.status_number(),
        })
    }
}

/// The first of the client, and what stands behind it.
fn next_of<'a>(rows: &'a [LiveRow], cuid: &[u8]) -> Option<(&'a Row, &'a [LiveRow])>
    ensures none { IfNone result (of_cuid cuid.now (mitigations_in rows.now) ≡ []) }
    ensures some { IfSome result (λ found. of_cuid cuid.now (mitigations_in rows.now) ≡ found.0.now ∷ of_cuid cuid.now (mitigations_in found.1.now)) }
{
    for (at, row) in rows.iter().enumerate() {
        if row.mitigation.cuid().bytes() == cuid {
            let (_, left) = rows.split_at(at + 1);
            return Some((&row.mitigation, left));
        }
    }
    None
}
