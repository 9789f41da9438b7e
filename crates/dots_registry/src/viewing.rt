//! What observers see of a registry.

ghost use Rattle.std.specs.Prelude.{◌≡◌, ◌≤◌, ℕ, Bool, ◌&&◌, bytes_eq, ◌<◌, List, length, slice_get};
ghost use Rattle.dots_history.specs.declared.entry.Entry.{Entry};
ghost use Rattle.held_resources.specs.Tables.{lost_in};
ghost use Rattle.live_mitigations.specs.LiveRows.{mitigations_in};
ghost use Rattle.conflict_rules.specs.LiveViews.{live_view, status_number};
ghost use Rattle.dots_registry.specs.RegistryValues.{Represents, time_of, domains_of};
ghost use Rattle.dots_registry.specs.ObserverViews.{seen, seen_of, views_among, seen_among, is_wanted, views_of};
ghost use Rattle.conflict_rules.specs.Statuses.{view_with, views_in};

use crate::registry::Registry;
use crate::statuses::status_by;
use coap_observe::Views;
use dots_history::Status;
use held_resources::HeldResources;
use live_mitigations::{LiveRow, Row};

/// The most mitigations that an observer sees.
const MAX_SEEN: usize = 64;

impl Registry {
    /// The mid and the status at this place of the list of the client's live mitigations, or of the one of this mid, in order
    /// of their entries; None exactly past its end, which is at most 64.
    pub fn view(
        &self,
        domain: u16,
        cuid: &[u8],
        mid: Option<u32>,
        place: usize,
    ) -> Option<(u32, u8)>
        ensures value { result ≡ slice_get (views_of self.now domain cuid.now mid) place }
        ensures history { (entries : List Entry) → Represents self.now entries → domain < domains_of self.now
            → result ≡ slice_get (seen_of mid (views_in domain cuid.now (time_of self.now) entries)) place }
        ensures few { length (views_of self.now domain cuid.now mid) ≤ 64 }
    {
        if domain < self.live.domains() {
            let rows = DomainRows {
                rows: self.live.rows(domain),
                domain,
                held: &self.held,
            };
            return view_of(&rows, cuid, mid, place);
        }
        None
    }
}

/// The live mitigations of a domain, with what says whose signal is lost.
#[derive(Drop)]
struct DomainRows<'a> {
    rows: &'a [LiveRow],
    domain: u16,
    held: &'a HeldResources,
}

impl Views for Registry {
    ghost lists = { λ registry. views_of registry };

    fn view(&self, domain: u16, cuid: &[u8], mid: Option<u32>, place: usize) -> Option<(u32, u8)> {
        Registry::view(self, domain, cuid, mid, place)
    }
}

/// What there is to see at this place of the client's mitigations, or of the one of this mid, up to the most.
fn view_of(among: &DomainRows, cuid: &[u8], mid: Option<u32>, place: usize) -> Option<(u32, u8)>
    ensures { (t : ℕ) → result ≡ slice_get (seen_of mid (views_among (lost_in among.now.held.now) among.now.domain t cuid.now (mitigations_in among.now.rows.now))) place }
{
    if place < MAX_SEEN {
        return seen_at(among, cuid, mid, place);
    }
    None
}

fn seen_at(among: &DomainRows, cuid: &[u8], mid: Option<u32>, place: usize) -> Option<(u32, u8)>
    ensures { (t : ℕ) → result ≡ slice_get (seen_among (lost_in among.now.held.now) among.now.domain t cuid.now mid (mitigations_in among.now.rows.now)) place }
{
    let mut before = place;
    for row in among.rows {
        if !is_seen(&row.mitigation, cuid, mid) {
            continue;
        }
        if before == 0 {
            return Some(seen(&row.mitigation, among.domain, among.held));
        }
        before -= 1;
    }
    None
}

/// Its mid and its status.
fn seen(row: &Row, domain: u16, held: &HeldResources) -> (u32, u8)
    ensures { (t : ℕ) → result ≡ seen (view_with (lost_in held.now) domain (live_view t row.now)) }
{
    let works = row.put().trigger || held.lost(row.peer(), domain);
    (row.put().mid, status_by(works, status_number(row.status())))
}

/// Whether the mitigation is of the client, and of the mid where one is asked for.
fn is_seen(row: &Row, cuid: &[u8], mid: Option<u32>) -> bool
    ensures { (lost : ℕ → ℕ → Bool) (domain t : ℕ)
        → result ≡ (bytes_eq row.now.put.cuid cuid.now && is_wanted mid (view_with lost domain (live_view t row.now))) }
{
    row.cuid().bytes() == cuid && is_wanted(row, mid)
}

fn is_wanted(row: &Row, mid: Option<u32>) -> bool
    ensures { (lost : ℕ → ℕ → Bool) (domain t : ℕ) → result ≡ is_wanted mid (view_with lost domain (live_view t row.now)) }
{
    match mid {
        Some(mid) => row.put().mid == mid,
        None => true,
    }
}

/// 2 where it stands, 5 where it is terminating (RFC 9132, section 4.4.2).
fn status_number(status: Status) -> u8
    ensures { result ≡ status_number status }
{
    match status {
        Status::Open => 2,
        Status::Withdrawn(_) => 5,
        Status::Ended => 0,
    }
}
