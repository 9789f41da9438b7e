//! Places for rows, each behind all others.

ghost use Rattle.std.specs.Prelude.{◌≡◌, ◌<◌, ◌^◌};
ghost use Rattle.filter_table.specs.Table.{TableValue};
ghost use Rattle.installed_filters.specs.Filters.{IsPlaced, filters_of};

use filter_table::FilterTable;

/// From this place on the rows are numbered anew.
const LAST_PLACE: u64 = 1 << 62;

/// A place behind all rows of the table, where this one is. The rows are given other places where it would become too great.
#[tactic(auto, using(crate::proofs::Places::anew_rows, crate::proofs::Places::anew_placed, crate::proofs::Places::anew_low))]
pub(crate) fn fresh_place(table: &mut FilterTable, next: u64) -> u64
    requires { IsPlaced next table.old }
    ensures placed { IsPlaced result table.new }
    ensures rows { filters_of table.new ≡ filters_of table.old }
    ensures low { result < 2 ^ 63 }
{
    if next < LAST_PLACE {
        return next;
    }
    table.renumber()
}
