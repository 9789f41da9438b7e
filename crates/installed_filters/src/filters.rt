//! The rows with their places.

ghost use Rattle.std.specs.Prelude.{◌≡◌, ◌+◌, ◌*◌, ◌≤◌, ◌<◌, ◌^◌, ◌++◌, ◌∷◌, ℕ, [], map, length, IfOk};
ghost use Rattle.dots_settings.specs.Settings.{SettingsValue};
ghost use Rattle.installed_filters.specs.Filters.{FiltersValue, with_rows, scrubs_without_one, acls_without, activated_row, filters_of};
ghost use Rattle.filter_table.specs.TableRows.{row_woken};
ghost use Rattle.installed_filters.specs.HistoryRows.{Represents, HasRoom};

use crate::placing::fresh_place;
use acl_lists::{AclRow, ScrubRow};
use dots_lists::{Name, NoMemory};
use dots_settings::Settings;
use filter_table::FilterTable;
use std::alloc::Global;
use std::marker::Model;

/// How many prefixes a mitigation has at most.
const PREFIXES: u32 = acl_lists::MAX_RESOLVED as u32;

/// The rows of mitigations and those of access lists that are installed.
#[derive(Drop)]
pub struct InstalledFilters {
    table: FilterTable,
    next: u64,
}

impl Model for InstalledFilters {
    ghost use Rattle.installed_filters.specs.Filters.{FiltersValue, IsPlaced, filters_of};

    ghost Value = { FiltersValue };

    ghost view = { λ filters. filters_of filters.table };

    ghost invariant = { λ filters. IsPlaced filters.next filters.table };
}

impl InstalledFilters {
    /// No rows, and room for as many as the settings allow. Only this call and [`InstalledFilters::install`] take memory.
    #[tactic(auto, using(crate::proofs::Places::first_placed, crate::proofs::Places::first_represents, crate::proofs::Places::first_room))]
    pub fn new(alloc: Global, settings: &Settings) -> Result<Self, NoMemory>
        ensures represents { IfOk result (λ filters. (t : ℕ) → Represents filters t []) }
        ensures room { IfOk result (λ filters. HasRoom (length settings.now.domains) settings.now.limits filters) }
    {
        let limits = settings.limits();
        let domains = settings.domains();
        let scrubs = room_of(domains, limits.domain_mitigations, PREFIXES);
        let acls = room_of(domains, limits.clients, limits.acls);
        Ok(InstalledFilters {
            table: FilterTable::new(alloc, scrubs, acls)?,
            next: 0,
        })
    }

    /// The table of the rows.
    pub fn table(&self) -> &FilterTable
        ensures { filters_of result.now ≡ self.now }
    {
        &self.table
    }

    /// Puts rows of a mitigation behind the others.
    pub(crate) fn install_rows(&mut self, own: Vec<ScrubRow>)
        requires { length self.old.scrubs + length own.items ≤ self.old.scrub_room }
        ensures { self.new ≡ with_rows self.old (self.old.scrubs ++ own.items) self.old.acls }
    {
        let place = fresh_place(&mut self.table, self.next);
        let number = own.len() as u64;
        self.table.install_all(place, own);
        self.next = place + number;
    }

    /// Takes each row of this mitigation out.
    #[tactic(auto, using(crate::proofs::Places::removed_rows, crate::proofs::Places::removed_placed))]
    pub(crate) fn remove(&mut self, domain: u16, cuid: &[u8], mid: u32)
        ensures { self.new ≡ with_rows self.old (scrubs_without_one domain cuid.now mid self.old.scrubs) self.old.acls }
    {
        self.table.remove(domain, cuid, mid);
    }

    /// Says of each row of this mitigation whether it is active.
    #[tactic(auto, using(crate::proofs::Places::woken_rows, crate::proofs::Places::woken_placed))]
    pub(crate) fn wake(&mut self, domain: u16, cuid: &[u8], mid: u32, active: bool)
        ensures { self.new ≡ with_rows self.old (map (row_woken domain cuid.now mid active) self.old.scrubs) self.old.acls }
    {
        self.table.wake(domain, cuid, mid, active);
    }

    /// Puts the row of an access list behind the others, and takes that of the same client and name out.
    #[tactic(auto, using(crate::proofs::Places::set_rows, crate::proofs::Places::set_placed, crate::proofs::Places::list_room))]
    pub(crate) fn set_acl(&mut self, row: AclRow)
        requires { length (acls_without row.domain row.cuid row.acl.name self.old.acls) < self.old.acl_room }
        ensures { self.new ≡ with_rows self.old self.old.scrubs (acls_without row.domain row.cuid row.acl.name self.old.acls ++ row ∷ []) }
    {
        let place = fresh_place(&mut self.table, self.next);
        self.table.set_acl(place, row);
        self.next = place + 1;
    }

    /// Takes the row of this client's list of this name out, where there is one.
    #[tactic(auto, using(crate::proofs::Places::dropped_rows, crate::proofs::Places::dropped_placed))]
    pub(crate) fn drop_acl(&mut self, domain: u16, cuid: &[u8], name: &Name)
        ensures { self.new ≡ with_rows self.old self.old.scrubs (acls_without domain cuid.now name.now self.old.acls) }
    {
        self.table.drop_acl(domain, cuid, name);
    }

    /// Says of each row of this client whose list is active while the client mitigates whether it is.
    #[tactic(auto, using(crate::proofs::Places::activated_rows, crate::proofs::Places::activated_placed))]
    pub(crate) fn activate(&mut self, domain: u16, cuid: &[u8], active: bool)
        ensures { self.new ≡ with_rows self.old self.old.scrubs (map (activated_row domain cuid.now active) self.old.acls) }
    {
        self.table.activate(domain, cuid, active);
    }
}

/// How many there are in so many domains, where each of them has a number of clients or mitigations, and each of these so many.
#[tactic(auto, using(crate::proofs::Places::product_low))]
fn room_of(domains: u16, of_domain: u32, of_each: u32) -> usize
    requires few { domains ≤ 16 }
    requires in_domain { of_domain ≤ 64 }
    requires in_each { of_each ≤ 128 }
    ensures value { result ≡ domains * of_domain * of_each }
    ensures most { result ≤ 131072 }
{
    let number = usize::from(domains) * of_domain as usize;
    number * of_each as usize
}
