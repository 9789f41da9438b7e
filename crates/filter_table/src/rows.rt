//! The rows of a table, one after the other.

ghost use Rattle.std.specs.Prelude.{◌≡◌, map, option_copied, IfSome, IfNone, [], ◌∷◌};
ghost use Rattle.std.specs.Iterator.{YieldsFirstRef, item_count};
ghost use Rattle.filter_table.specs.TableRows.{row_of_acl, active_rows};
ghost use Rattle.filter_table.specs.Rows.{gathered, active_in};

use crate::placed::PlacedAcl;
use crate::slot_rows::row_in;
use crate::turn::Turn;
use acl_lists::{AclRow, ScrubRow};
use std::marker::Model;

/// The active rows of mitigations that are left.
#[derive(Drop)]
pub struct ScrubRows<'a> {
    left: &'a [Turn],
    rows: &'a [Option<ScrubRow>],
}

impl<'a> Model for ScrubRows<'a> {
    ghost use Rattle.std.specs.Prelude.{List};
    ghost use Rattle.acl_lists.specs.declared.rows.ScrubRow.{ScrubRow};
    ghost use Rattle.filter_table.specs.TableRows.{active_rows};
    ghost use Rattle.filter_table.specs.Rows.{gathered};

    ghost Value = { List ScrubRow };

    ghost view = { λ scrubs. active_rows (gathered scrubs.rows.now scrubs.left.now) };
}

impl<'a> ScrubRows<'a> {
    /// The active ones of the rows of these turns.
    pub(crate) fn of(left: &'a [Turn], rows: &'a [Option<ScrubRow>]) -> ScrubRows<'a>
        ensures { result ≡ active_rows (gathered rows.now left.now) }
    {
        ScrubRows { left, rows }
    }
}

impl<'a> Iterator for ScrubRows<'a> {
    type Item = &'a ScrubRow;

    ghost next_gives = { YieldsFirstRef (λ rows. rows) };

    ghost remaining = { item_count (λ rows. rows) };

    fn next(&mut self) -> Option<&'a ScrubRow> {
        let (row, left) = next_active(self.left, self.rows)?;
        self.left = left;
        Some(row)
    }
}

/// The row in this slot, where it is active.
fn active_in(slot: u32, rows: &[Option<ScrubRow>]) -> Option<&ScrubRow>
    ensures { option_copied result ≡ active_in rows.now slot }
{
    let row = row_in(slot, rows)?;
    if !row.active {
        return None;
    }
    Some(row)
}

/// The first active row, and the turns behind its own.
fn next_active<'a>(
    turns: &'a [Turn],
    rows: &'a [Option<ScrubRow>],
) -> Option<(&'a ScrubRow, &'a [Turn])>
    ensures none { IfNone result (active_rows (gathered rows.now turns.now) ≡ []) }
    ensures some { IfSome result (λ found. active_rows (gathered rows.now turns.now) ≡ found.0.now ∷ active_rows (gathered rows.now found.1.now)) }
{
    for (at, turn) in turns.iter().enumerate() {
        if let Some(row) = active_in(turn.slot, rows) {
            let (_, left) = turns.split_at(at + 1);
            return Some((row, left));
        }
    }
    None
}

/// The rows of access lists that are left.
#[derive(Drop)]
pub struct AclRows<'a> {
    left: &'a [PlacedAcl],
}

impl<'a> Model for AclRows<'a> {
    ghost use Rattle.std.specs.Prelude.{List, map};
    ghost use Rattle.acl_lists.specs.declared.rows.AclRow.{AclRow};
    ghost use Rattle.filter_table.specs.TableRows.{row_of_acl};

    ghost Value = { List AclRow };

    ghost view = { λ rows. map row_of_acl rows.left.now };
}

impl<'a> AclRows<'a> {
    /// All of these.
    pub(crate) fn of(left: &'a [PlacedAcl]) -> AclRows<'a>
        ensures { result ≡ map row_of_acl left.now }
    {
        AclRows { left }
    }
}

impl<'a> Iterator for AclRows<'a> {
    type Item = &'a AclRow;

    ghost next_gives = { YieldsFirstRef (λ rows. rows) };

    ghost remaining = { item_count (λ rows. rows) };

    fn next(&mut self) -> Option<&'a AclRow> {
        let (list, left) = self.left.split_first()?;
        self.left = left;
        Some(&list.row)
    }
}
