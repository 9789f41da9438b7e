//! The live mitigations of a client as they are shown.

ghost use Rattle.std.specs.Prelude.{◌≡◌, map};
ghost use Rattle.held_resources.specs.Tables.{lost_in};
ghost use Rattle.conflict_rules.specs.Statuses.{view_with, status_by};

use held_resources::HeldResources;
use live_mitigations::{MitigationRow, Mitigations};
use std::marker::Model;

/// The status of a mitigation that stands and filters (RFC 9132, section 4.4.2).
const FILTERS: u8 = 2;

/// That of one that stands and waits for a lost signal.
const WAITS: u8 = 8;

/// The live mitigations of a client that are left, each with the status that is shown: 2 where it stands and filters, 8 where it
/// stands and waits for a lost signal, 5 where it is terminating (RFC 9132, section 4.4.2).
#[derive(Drop)]
pub struct StatusViews<'a> {
    pub(crate) rows: Mitigations<'a>,
    pub(crate) domain: u16,
    pub(crate) held: &'a HeldResources,
}

impl<'a> Model for StatusViews<'a> {
    ghost use Rattle.std.specs.Prelude.{List, map};
    ghost use Rattle.held_resources.specs.Tables.{lost_in};
    ghost use Rattle.conflict_rules.specs.LiveViews.{LiveView};
    ghost use Rattle.conflict_rules.specs.Statuses.{view_with};

    ghost Value = { List LiveView };

    ghost view = { λ left. map (view_with (lost_in left.held.now) left.domain) left.rows };
}

impl<'a> Iterator for StatusViews<'a> {
    type Item = MitigationRow<'a>;

    ghost use Rattle.std.specs.Iterator.{YieldsFirstBy, item_count};
    ghost use Rattle.live_mitigations.specs.LiveViews.{row_view};

    ghost next_gives = { YieldsFirstBy row_view (λ rows. rows) };

    ghost remaining = { item_count (λ rows. rows) };

    fn next(&mut self) -> Option<MitigationRow<'a>> {
        let row = self.rows.next()?;
        let works = row.put.trigger || self.held.lost(row.peer, self.domain);
        Some(MitigationRow {
            put: row.put,
            peer: row.peer,
            left: row.left,
            status: status_by(works, row.status),
        })
    }
}

/// The status that is shown of a mitigation, by whether it filters.
pub(crate) fn status_by(works: bool, status: u8) -> u8
    ensures { result ≡ status_by works status }
{
    if status == FILTERS && !works {
        WAITS
    } else {
        status
    }
}
