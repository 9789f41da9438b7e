//! Rows as signals are lost and come back.

ghost use Rattle.std.specs.Prelude.{◌≡◌, ◌∷◌, [], map};
ghost use Rattle.held_resources.specs.Tables.{lost_in};
ghost use Rattle.installed_filters.specs.Filters as filters;
ghost use Rattle.live_mitigations.specs.LiveRows.{mitigations_in};
ghost use Rattle.installed_filters.specs.Filters.{with_rows, woken_row, is_working, settled_row, filters_lost};

use crate::filters::InstalledFilters;
use crate::working::{is_mitigating, is_waiting_for};
use held_resources::HeldResources;
use live_mitigations::{LiveRow, Row};

impl InstalledFilters {
    /// For an entry that says that the signal of a peer of this domain is lost or back, where what is held says so already: of the
    /// mitigations of the domain, which are given, the rows of those that wait for this signal are active where it is lost, and
    /// not where it is back. The lists of their clients that are active while the client mitigates are so while one of its
    /// mitigations filters. No place changes.
    pub fn lose(&mut self, peer: u32, domain: u16, rows: &[LiveRow], held: &HeldResources)
        ensures { self.new ≡ filters_lost (lost_in held.now) peer domain (mitigations_in rows.now) self.old }
    {
        self.wake_waiting(peer, domain, rows, held.lost(peer, domain));
        self.settle_waiting(peer, domain, rows, held);
    }

    #[tactic(auto, using(crate::proofs::Steps::wake_step, crate::proofs::Steps::wake_end))]
    fn wake_waiting(&mut self, peer: u32, domain: u16, rows: &[LiveRow], active: bool)
        ensures { self.new ≡ with_rows self.old (map (woken_row domain (filters.is_waiting_for peer) active (mitigations_in rows.now)) self.old.scrubs) self.old.acls }
    {
        for row in rows {
            self.wake_if_waiting(peer, domain, &row.mitigation, active);
        }
    }

    #[tactic(auto, using(crate::proofs::Steps::wake_one, crate::proofs::Steps::wake_unchanged))]
    fn wake_if_waiting(&mut self, peer: u32, domain: u16, row: &Row, active: bool)
        ensures { self.new ≡ with_rows self.old (map (woken_row domain (filters.is_waiting_for peer) active (row.now ∷ [])) self.old.scrubs) self.old.acls }
    {
        if is_waiting_for(row, peer) {
            self.wake(domain, row.cuid().bytes(), row.put().mid, active);
        }
    }

    #[tactic(auto, using(crate::proofs::Steps::settle_step, crate::proofs::Steps::settle_end))]
    fn settle_waiting(&mut self, peer: u32, domain: u16, rows: &[LiveRow], held: &HeldResources)
        ensures { self.new ≡ with_rows self.old self.old.scrubs
            (map (settled_row domain (filters.is_waiting_for peer) (is_working (lost_in held.now)) (mitigations_in rows.now) (mitigations_in rows.now)) self.old.acls) }
    {
        for row in rows {
            self.settle_if_waiting(peer, domain, &row.mitigation, rows, held);
        }
    }

    /// Settles the lists of the client of a mitigation that waits for this signal.
    #[tactic(auto, using(crate::proofs::Steps::settle_one, crate::proofs::Steps::settle_unchanged))]
    fn settle_if_waiting(
        &mut self,
        peer: u32,
        domain: u16,
        row: &Row,
        rows: &[LiveRow],
        held: &HeldResources,
    )
        ensures { self.new ≡ with_rows self.old self.old.scrubs
            (map (settled_row domain (filters.is_waiting_for peer) (is_working (lost_in held.now)) (mitigations_in rows.now) (row.now ∷ [])) self.old.acls) }
    {
        if is_waiting_for(row, peer) {
            let cuid = row.cuid().bytes();
            self.activate(domain, cuid, is_mitigating(rows, cuid, held));
        }
    }
}
