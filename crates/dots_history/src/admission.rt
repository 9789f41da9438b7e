//! Which entries fit a history, and which histories are calm: plain programs, each by its definition.

ghost use Rattle.std.specs.Prelude.{◌≡◌, ◌++◌, ◌∷◌, ◌&&◌, ◌||◌, ◌==◌, not, []};
ghost use Rattle.std.specs.List.{list_all};
ghost use Rattle.dots_history.specs.Entries.{same_client};
ghost use Rattle.dots_history.specs.Histories.{tally, mitigations, held};
ghost use Rattle.dots_history.specs.Capacities.{is_registration, is_alias, is_list, has_client};
ghost use Rattle.dots_history.specs.Fits.{last_time, is_registered, registers_rightly, keeps_room, fits, is_of_mitigations, has_one_peer, joins, is_calm};

use crate::change::Change;
use crate::entry::Entry;
use crate::holding::is_still_held;
use crate::lives::is_live_after;
use crate::relations::is_same_client;
use crate::settings_own::{came_rightly, is_of_settings};
use dots_settings::{Limits, Settings};

const TIMES: u64 = 1 << 48;

/// Whether a history is calm: each of its entries joins those before it.
#[tactic(auto, using(crate::proofs::Cuts::take_push, crate::proofs::Cuts::drop_next))]
pub fn is_calm(settings: &Settings, entries: &[Entry]) -> bool
    ensures { result ≡ is_calm settings.now entries.now }
{
    for (place, entry) in entries.iter().enumerate() {
        if !joins(settings, &entries[..place], entry, &entries[..place + 1]) {
            return false;
        }
    }
    true
}

/// Whether an entry keeps a history calm. `with` is the history with the entry.
pub fn joins(settings: &Settings, before: &[Entry], entry: &Entry, with: &[Entry]) -> bool
    requires { with.now ≡ before.now ++ entry.now ∷ [] }
    ensures { result ≡ joins settings.now before.now entry.now }
{
    fits(settings, before, entry, with) && came_rightly(entry) && has_one_peer(entry, before)
}

/// Whether the entry fits those before it: its time isn't before theirs and is below 2^48; it is of a peer that may act
/// for its domain, inside which lies what it names; its client is registered where it must be; and after it, at its
/// time, its domain and client keep the capacities. `with` is the history with the entry.
pub fn fits(settings: &Settings, before: &[Entry], entry: &Entry, with: &[Entry]) -> bool
    requires { with.now ≡ before.now ++ entry.now ∷ [] }
    ensures { result ≡ fits settings.now before.now entry.now }
{
    last_time(before) <= entry.time
        && entry.time < TIMES
        && is_of_settings(settings, entry)
        && registers_rightly(before, entry)
        && keeps_room(settings.limits(), entry, with)
}

/// The time of the last entry, or 0.
fn last_time(entries: &[Entry]) -> u64
    ensures { result ≡ last_time entries.now }
{
    let mut time = 0;
    for entry in entries {
        time = entry.time;
    }
    time
}

/// Whether only a client that isn't registered registers, and only one that is writes aliases and access lists.
fn registers_rightly(before: &[Entry], entry: &Entry) -> bool
    ensures { result ≡ registers_rightly (held before.now) entry.now }
{
    (!is_registration(&entry.change) || !is_registered(before, entry)) && has_client(before, entry)
}

fn has_client(before: &[Entry], entry: &Entry) -> bool
    ensures { result ≡ has_client (held before.now) entry.now }
{
    let owned = is_alias(&entry.change) || is_list(&entry.change);
    !owned || is_registered(before, entry)
}

/// Whether a registration of the entry's client is held.
fn is_registered(before: &[Entry], entry: &Entry) -> bool
    ensures { result ≡ is_registered (held before.now) entry.now }
{
    for (place, other) in before.iter().enumerate() {
        let registers = is_registration(&other.change) && is_same_client(other, entry);
        if registers && is_still_held(other, &before[place + 1..]) {
            return true;
        }
    }
    false
}

/// Whether a client registers.
#[tactic(auto, unfolding(crate::specs::Capacities::is_registration))]
pub fn is_registration(change: &Change) -> bool
    ensures { result ≡ is_registration change.now }
{
    matches!(change, Change::Register)
}

/// Whether an alias is written.
#[tactic(auto, unfolding(crate::specs::Capacities::is_alias))]
pub fn is_alias(change: &Change) -> bool
    ensures { result ≡ is_alias change.now }
{
    matches!(change, Change::SetAlias(_))
}

/// Whether an access list is written.
#[tactic(auto, unfolding(crate::specs::Capacities::is_list))]
pub fn is_list(change: &Change) -> bool
    ensures { result ≡ is_list change.now }
{
    matches!(change, Change::SetAcl(_))
}

/// Whether a mitigation is put or withdrawn.
#[tactic(auto, unfolding(crate::specs::Fits::is_of_mitigations))]
pub fn is_of_mitigations(change: &Change) -> bool
    ensures { result ≡ is_of_mitigations change.now }
{
    matches!(change, Change::Put(_) | Change::Withdraw { .. })
}

/// Whether, in this history with the entry, at its time, its domain and client keep the capacities.
fn keeps_room(limits: Limits, entry: &Entry, with: &[Entry]) -> bool
    ensures { result ≡ keeps_room limits entry.now (mitigations entry.now.time with.now) (held with.now) }
{
    live_of_domain(entry, with) <= limits.domain_mitigations as usize
        && live_of_client(entry, with) <= limits.client_mitigations as usize
        && registrations(entry, with) <= limits.clients as usize
        && aliases(entry, with) <= limits.aliases as usize
        && lists(entry, with) <= limits.acls as usize
}

fn live_of_domain(entry: &Entry, with: &[Entry]) -> usize
    ensures { result ≡ tally (λ m. m.put.domain == entry.now.domain) (mitigations entry.now.time with.now) }
{
    let mut count = 0;
    for (place, put) in with.iter().enumerate() {
        if is_live_after(entry.time, put, &with[place + 1..]) && put.domain == entry.domain {
            count += 1;
        }
    }
    count
}

fn live_of_client(entry: &Entry, with: &[Entry]) -> usize
    ensures { result ≡ tally (λ m. same_client entry.now m.put) (mitigations entry.now.time with.now) }
{
    let mut count = 0;
    for (place, put) in with.iter().enumerate() {
        if is_live_after(entry.time, put, &with[place + 1..]) && is_same_client(entry, put) {
            count += 1;
        }
    }
    count
}

fn registrations(entry: &Entry, with: &[Entry]) -> usize
    ensures { result ≡ tally (λ x. is_registration x.change && (x.domain == entry.now.domain)) (held with.now) }
{
    let mut count = 0;
    for (place, other) in with.iter().enumerate() {
        let counts = is_registration(&other.change) && other.domain == entry.domain;
        if is_still_held(other, &with[place + 1..]) && counts {
            count += 1;
        }
    }
    count
}

fn aliases(entry: &Entry, with: &[Entry]) -> usize
    ensures { result ≡ tally (λ x. is_alias x.change && same_client entry.now x) (held with.now) }
{
    let mut count = 0;
    for (place, other) in with.iter().enumerate() {
        let counts = is_alias(&other.change) && is_same_client(entry, other);
        if is_still_held(other, &with[place + 1..]) && counts {
            count += 1;
        }
    }
    count
}

fn lists(entry: &Entry, with: &[Entry]) -> usize
    ensures { result ≡ tally (λ x. is_list x.change && same_client entry.now x) (held with.now) }
{
    let mut count = 0;
    for (place, other) in with.iter().enumerate() {
        let counts = is_list(&other.change) && is_same_client(entry, other);
        if is_still_held(other, &with[place + 1..]) && counts {
            count += 1;
        }
    }
    count
}

/// Whether an entry that puts or withdraws a mitigation has the peer of each live one of its client.
fn has_one_peer(entry: &Entry, before: &[Entry]) -> bool
    ensures { result ≡ has_one_peer entry.now (mitigations entry.now.time before.now) }
{
    !is_of_mitigations(&entry.change) || are_of_peer(entry, before)
}

fn are_of_peer(entry: &Entry, before: &[Entry]) -> bool
    ensures { result ≡ list_all (λ m. not (same_client m.put entry.now) || (entry.now.peer == m.put.peer)) (mitigations entry.now.time before.now) }
{
    for (place, put) in before.iter().enumerate() {
        let other = is_same_client(put, entry) && entry.peer != put.peer;
        if is_live_after(entry.time, put, &before[place + 1..]) && other {
            return false;
        }
    }
    true
}
