//! Which entries a registry can take.

ghost use Rattle.std.specs.Prelude.{◌≡◌, ◌≤◌, ◌<◌, ◌&&◌, true, nat_le, List, length};
ghost use Rattle.std.specs.List.{list_all};
ghost use Rattle.dots_history.specs.Bounds.{within_bounds};
ghost use Rattle.dots_history.specs.Histories.{mitigations};
ghost use Rattle.dots_history.specs.Calm.{is_of_settings};
ghost use Rattle.dots_history.specs.Fits.{is_of_mitigations, has_one_peer};
ghost use Rattle.dots_history.specs.declared.entry.Entry.{Entry};
ghost use Rattle.live_mitigations.specs.LiveValues.{puts, has_live_room};
ghost use Rattle.live_mitigations.specs.LiveValues as lives;
ghost use Rattle.held_resources.specs.Accepting.{accepts};
ghost use Rattle.held_resources.specs.Tables as things;
ghost use Rattle.dots_registry.specs.RegistryValues.{RegistryValue, Represents, IsOf, time_of};
ghost use Rattle.dots_registry.specs.Fitting.{HasTables, fits_now, has_peer};

use crate::registry::Registry;
use dots_history::{Change, Entry, is_of_mitigations, is_of_settings, is_within_bounds};
use dots_settings::Settings;
use held_resources::HeldResources;
use live_mitigations::LiveMitigations;

impl Registry {
    /// Whether an entry fits, by the settings of which the registry is: it is within bounds, and its time isn't before that of
    /// the registry; its peer may act for its domain, inside which lies what it names; only a client that isn't registered
    /// registers, and only one that is writes aliases and access lists; and after it the capacities are kept.
    pub fn fits(&self, settings: &Settings, entry: &Entry) -> bool
        requires { IsOf settings.now self.now }
        ensures { (entries : List Entry) → Represents self.now entries → result ≡ fits_now settings.now self.now entries entry.now }
    {
        fits(&self.live, &self.held, settings, entry)
    }

    /// Whether an entry that puts or withdraws a mitigation has the peer of each live mitigation of its client.
    pub fn has_one_peer(&self, entry: &Entry) -> bool
        ensures { (entries : List Entry) → Represents self.now entries → result ≡ has_one_peer entry.now (mitigations (time_of self.now) entries) }
    {
        has_one_peer(&self.live, entry)
    }
}

/// Whether an entry fits, as [`Registry::fits`] says, by the tables of a registry of the settings.
pub(crate) fn fits(
    live: &LiveMitigations,
    held: &HeldResources,
    settings: &Settings,
    entry: &Entry,
) -> bool
    requires { live.now.domains ≡ length settings.now.domains }
    ensures { (registry : RegistryValue) (entries : List Entry) → HasTables registry live.now held.now → IsOf settings.now registry → Represents registry entries
        → result ≡ fits_now settings.now registry entries entry.now }
{
    is_possible(settings, entry) && takes(live, held, entry)
}

/// Whether it is not before the time of these tables, and what the history comes to with it is allowed.
fn takes(live: &LiveMitigations, held: &HeldResources, entry: &Entry) -> bool
    requires { puts entry.now ≡ true → entry.now.domain < live.now.domains }
    ensures { (entries : List Entry) → lives.Represents live.now entries → things.Represents held.now entries
        → result ≡ (nat_le live.now.time entry.now.time && (accepts held.now.sizes entries entry.now && has_live_room live.now.limits entries entry.now)) }
{
    live.time() <= entry.time && held.fits(entry) && has_live_room(live, entry)
}

/// Whether with the entry, at its time, its domain and its client have at most as many live mitigations as the settings
/// say.
fn has_live_room(live: &LiveMitigations, entry: &Entry) -> bool
    requires later { live.now.time ≤ entry.now.time }
    requires inside { puts entry.now ≡ true → entry.now.domain < live.now.domains }
    ensures { (entries : List Entry) → lives.Represents live.now entries → result ≡ has_live_room live.now.limits entries entry.now }
{
    if entry.domain < live.domains() {
        return live.has_room(entry);
    }
    true
}

/// Whether an entry that puts or withdraws a mitigation has the peer of each live mitigation of its client.
pub(crate) fn has_one_peer(live: &LiveMitigations, entry: &Entry) -> bool
    ensures { (entries : List Entry) → lives.Represents live.now entries → result ≡ has_one_peer entry.now (mitigations live.now.time entries) }
{
    !is_of_mitigations(&entry.change) || are_of_peer(live, entry)
}

/// Whether each live mitigation of the entry's client has the entry's peer.
fn are_of_peer(live: &LiveMitigations, entry: &Entry) -> bool
    ensures { (entries : List Entry) → lives.Represents live.now entries → result ≡ list_all (has_peer entry.now) (mitigations live.now.time entries) }
{
    if entry.domain < live.domains() {
        return !live.collides(entry.domain, entry.cuid.bytes(), entry.peer);
    }
    true
}

/// Whether it is within bounds and of the settings.
fn is_possible(settings: &Settings, entry: &Entry) -> bool
    ensures { result ≡ (within_bounds entry.now && is_of_settings settings.now entry.now) }
{
    is_within_bounds(entry) && is_of_settings(settings, entry)
}
