//! Rows as mitigations come and go.

ghost use Rattle.std.specs.Prelude.{◌≡◌, ◌≤◌, ◌++◌, ◌∷◌, ◌+◌, [], map, length};
ghost use Rattle.std.specs.List.{list_any};
ghost use Rattle.filter_table.specs.TableRows.{row_set};
ghost use Rattle.held_resources.specs.Tables.{lost_in};
ghost use Rattle.live_mitigations.specs.LiveRows.{mitigations_in};
ghost use Rattle.installed_filters.specs.Filters.{with_rows, rows_put, own_rows, scrubs_without, lives_at, is_over, works_at, stays_beside, works_beside, works_at_once, some_of, settled_row, filters_at, filters_put};

use crate::filters::InstalledFilters;
use crate::working::{is_working, works};
use acl_lists::ScrubRow;
use dots_history::{Entry, Status, is_live};
use held_resources::HeldResources;
use live_mitigations::{LiveRow, Row};

impl InstalledFilters {
    /// Of the mitigations of a domain, which are given, the rows of those go that are over by this time. The lists of a client
    /// that are active while it mitigates are so while one of its mitigations is live at this time and filters; what is held
    /// says whose signal is lost.
    pub fn retain_live(&mut self, domain: u16, rows: &[LiveRow], now: u64, held: &HeldResources)
        ensures { self.new ≡ filters_at (lost_in held.now) domain now (mitigations_in rows.now) self.old }
    {
        self.remove_over(domain, rows, now);
        self.settle_over(domain, rows, now, held);
    }

    #[tactic(auto, using(crate::proofs::Steps::sweep_step, crate::proofs::Steps::sweep_end))]
    fn remove_over(&mut self, domain: u16, rows: &[LiveRow], now: u64)
        ensures { self.new ≡ with_rows self.old (scrubs_without domain (lives_at now) (mitigations_in rows.now) self.old.scrubs) self.old.acls }
    {
        for row in rows {
            self.remove_if_over(domain, &row.mitigation, now);
        }
    }

    #[tactic(auto, using(crate::proofs::Steps::sweep_one, crate::proofs::Steps::sweep_unchanged))]
    fn remove_if_over(&mut self, domain: u16, row: &Row, now: u64)
        ensures { self.new ≡ with_rows self.old (scrubs_without domain (lives_at now) (row.now ∷ []) self.old.scrubs) self.old.acls }
    {
        if !row.is_live(now) {
            self.remove(domain, row.cuid().bytes(), row.put().mid);
        }
    }

    #[tactic(auto, using(crate::proofs::Steps::settle_step, crate::proofs::Steps::settle_end))]
    fn settle_over(&mut self, domain: u16, rows: &[LiveRow], now: u64, held: &HeldResources)
        ensures { self.new ≡ with_rows self.old self.old.scrubs
            (map (settled_row domain (is_over now) (works_at (lost_in held.now) now) (mitigations_in rows.now) (mitigations_in rows.now)) self.old.acls) }
    {
        for row in rows {
            self.settle_if_over(domain, &row.mitigation, rows, now, held);
        }
    }

    /// Settles the lists of the client of a mitigation that is over.
    #[tactic(auto, using(crate::proofs::Steps::settle_one, crate::proofs::Steps::settle_unchanged))]
    fn settle_if_over(
        &mut self,
        domain: u16,
        row: &Row,
        rows: &[LiveRow],
        now: u64,
        held: &HeldResources,
    )
        ensures { self.new ≡ with_rows self.old self.old.scrubs
            (map (settled_row domain (is_over now) (works_at (lost_in held.now) now) (mitigations_in rows.now) (row.now ∷ [])) self.old.acls) }
    {
        if !row.is_live(now) {
            let cuid = row.cuid().bytes();
            self.activate(domain, cuid, has_working(rows, cuid, now, held));
        }
    }

    /// For an entry that puts a mitigation: of the mitigations of its domain, which are given, the rows of those go that it
    /// ends; its own rows, which are given too, come last, where it is live at once, and are active where it filters; and the
    /// lists of its client that are active while it mitigates are so where one of its mitigations is live and filters. What
    /// is held says whose signal is lost.
    pub fn put(&mut self, entry: &Entry, own: Vec<ScrubRow>, rows: &[LiveRow], held: &HeldResources)
        requires staged { own.items ≡ rows_put entry.now }
        requires room { length (filters_put (lost_in held.now) entry.now (mitigations_in rows.now) self.old).scrubs ≤ self.old.scrub_room }
        ensures { self.new ≡ filters_put (lost_in held.now) entry.now (mitigations_in rows.now) self.old }
    {
        self.remove_ended(rows, entry);
        self.install_own(entry, own, held);
        let mitigates = works_at_once(entry, held) || has_left(rows, entry, held);
        self.activate(entry.domain, entry.cuid.bytes(), mitigates);
    }

    #[tactic(auto, using(crate::proofs::Steps::sweep_step, crate::proofs::Steps::sweep_end))]
    fn remove_ended(&mut self, rows: &[LiveRow], entry: &Entry)
        ensures { self.new ≡ with_rows self.old (scrubs_without entry.now.domain (stays_beside entry.now) (mitigations_in rows.now) self.old.scrubs) self.old.acls }
    {
        for row in rows {
            self.remove_if_ended(&row.mitigation, entry);
        }
    }

    #[tactic(auto, using(crate::proofs::Steps::sweep_one, crate::proofs::Steps::sweep_unchanged))]
    fn remove_if_ended(&mut self, row: &Row, entry: &Entry)
        ensures { self.new ≡ with_rows self.old (scrubs_without entry.now.domain (stays_beside entry.now) (row.now ∷ []) self.old.scrubs) self.old.acls }
    {
        if row.is_ended_by(entry) {
            self.remove(entry.domain, row.cuid().bytes(), row.put().mid);
        }
    }

    /// Installs the rows of the mitigation that an entry puts, where it is live at once. They are active where it filters.
    fn install_own(&mut self, entry: &Entry, own: Vec<ScrubRow>, held: &HeldResources)
        requires staged { own.items ≡ rows_put entry.now }
        requires room { length (self.old.scrubs ++ own_rows (lost_in held.now) entry.now) ≤ self.old.scrub_room }
        ensures { self.new ≡ with_rows self.old (self.old.scrubs ++ own_rows (lost_in held.now) entry.now) self.old.acls }
    {
        if is_live(entry.time, entry, Status::Open) {
            self.install_all(own, works(entry, held));
        }
    }

    /// Installs these rows, and says of each whether it is active.
    pub(crate) fn install_all(&mut self, own: Vec<ScrubRow>, active: bool)
        requires { length self.old.scrubs + length own.items ≤ self.old.scrub_room }
        ensures { self.new ≡ with_rows self.old (self.old.scrubs ++ map (row_set active) own.items) self.old.acls }
    {
        let mut rows = own;
        set_active(&mut rows, active);
        self.install_rows(rows);
    }
}

/// Says of each of these rows whether it is active.
fn set_active(rows: &mut Vec<ScrubRow>, active: bool)
    ensures { rows.new.items ≡ map (row_set active) rows.old.items }
{
    set_each(rows.as_mut_slice(), active);
}

fn set_each(rows: &mut [ScrubRow], active: bool)
    ensures { rows.new ≡ map (row_set active) rows.old }
{
    for row in rows.iter_mut() {
        set_one(row, active);
    }
}

fn set_one(row: &mut ScrubRow, active: bool)
    ensures { row.new ≡ row_set active row.old }
{
    row.active = active;
}

/// Whether a client of this name has one that is live at this time and filters.
fn has_working(rows: &[LiveRow], cuid: &[u8], now: u64, held: &HeldResources) -> bool
    ensures { result ≡ some_of (works_at (lost_in held.now) now) cuid.now (mitigations_in rows.now) }
{
    rows.iter().any(|row| {
        row.mitigation.is_live(now)
            && is_working(&row.mitigation, held)
            && row.mitigation.cuid().bytes() == cuid
    })
}

/// Whether the entry's client has one that the entry doesn't end, and that filters.
fn has_left(rows: &[LiveRow], entry: &Entry, held: &HeldResources) -> bool
    ensures { result ≡ some_of (works_beside (lost_in held.now) entry.now) entry.now.cuid (mitigations_in rows.now) }
{
    rows.iter().any(|row| {
        !row.mitigation.is_ended_by(entry)
            && is_working(&row.mitigation, held)
            && row.mitigation.cuid().bytes() == entry.cuid.bytes()
    })
}

/// Whether the mitigation that an entry puts is live at once, and filters.
fn works_at_once(entry: &Entry, held: &HeldResources) -> bool
    ensures { result ≡ works_at_once (lost_in held.now) entry.now }
{
    is_live(entry.time, entry, Status::Open) && works(entry, held)
}
