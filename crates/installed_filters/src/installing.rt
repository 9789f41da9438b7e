//! Rows of mitigations that are live already.

ghost use Rattle.std.specs.Prelude.{◌≡◌, ◌+◌, ◌≤◌, length, IfOk, OnOk};
ghost use Rattle.held_resources.specs.Tables.{lost_in};
ghost use Rattle.installed_filters.specs.Filters.{rows_put, filters_more};

use crate::filters::InstalledFilters;
use crate::staged::rows_of_put;
use crate::working::is_working;
use acl_lists::ScrubRow;
use dots_lists::NoMemory;
use held_resources::HeldResources;
use live_mitigations::Row;
use std::alloc::Global;

impl InstalledFilters {
    /// Makes the rows of a live mitigation, and puts them behind the others. They are active where it filters, and then those lists of its
    /// client are active that are so while it mitigates. What is held says whose signal is lost.
    pub fn install(
        &mut self,
        alloc: Global,
        row: &Row,
        held: &HeldResources,
    ) -> Result<(), NoMemory>
        requires { length self.old.scrubs + length (rows_put row.now.put) ≤ self.old.scrub_room }
        ensures { OnOk result (self.new ≡ filters_more (lost_in held.now) row.now self.old) }
    {
        let own = rows_of_row(alloc, row)?;
        self.install_made(own, row, held);
        Ok(())
    }

    /// Puts the rows of a live mitigation behind the others.
    fn install_made(&mut self, own: Vec<ScrubRow>, row: &Row, held: &HeldResources)
        requires made { own.items ≡ rows_put row.now.put }
        requires room { length self.old.scrubs + length own.items ≤ self.old.scrub_room }
        ensures { self.new ≡ filters_more (lost_in held.now) row.now self.old }
    {
        let works = is_working(row, held);
        self.install_all(own, works);
        if works {
            self.activate(row.domain(), row.cuid().bytes(), true);
        }
    }
}

/// The rows of a mitigation, which aren't active yet.
#[tactic(auto, using(crate::proofs::Copies::put_alike))]
fn rows_of_row(alloc: Global, row: &Row) -> Result<Vec<ScrubRow>, NoMemory>
    ensures { IfOk result (λ rows. rows.items ≡ rows_put row.now.put) }
{
    let rows = rows_of_put(alloc, row.domain(), row.cuid(), row.put())?;
    Ok(rows)
}
