//! Which registrations, aliases, access lists and session configurations are held.

ghost use Rattle.std.specs.Prelude.{◌≡◌};
ghost use Rattle.std.specs.List.{list_any};
ghost use Rattle.dots_history.specs.Entries.{is_held, undoes, undoes_of_client, undoes_alias, undoes_acl, is_deregister, is_configuration, undoes_of_peer, reconfigures, resumes, undoes_loss, is_lost, is_loss};
ghost use Rattle.dots_history.specs.Histories.{stays};

use crate::change::Change;
use crate::entry::Entry;
use crate::relations::is_same_client;
use dots_lists::Name;

/// Whether the entry wrote something that is held until a later entry undoes it, and none of these did.
pub fn is_still_held(entry: &Entry, later: &[Entry]) -> bool
    ensures { result ≡ stays entry.now later.now }
{
    is_held(&entry.change) && !is_undone(entry, later)
}

/// Whether one of the later entries undoes what the entry wrote.
fn is_undone(entry: &Entry, later: &[Entry]) -> bool
    ensures { result ≡ list_any (undoes entry.now) later.now }
{
    later.iter().any(|other| undoes(entry, other))
}

/// Whether what the earlier entry wrote is no longer held after the later one.
#[tactic(auto, unfolding(crate::specs::Entries::undoes))]
fn undoes(earlier: &Entry, later: &Entry) -> bool
    ensures { result ≡ undoes earlier.now later.now }
{
    (is_same_client(earlier, later) && undoes_of_client(&earlier.change, &later.change))
        || reconfigures(earlier, later)
        || resumes(earlier, later)
}

#[tactic(auto, unfolding(crate::specs::Entries::resumes))]
fn resumes(earlier: &Entry, later: &Entry) -> bool
    ensures { result ≡ resumes earlier.now later.now }
{
    earlier.peer == later.peer
        && earlier.domain == later.domain
        && undoes_loss(&earlier.change, &later.change)
}

#[tactic(auto, unfolding(crate::specs::Entries::undoes_loss))]
fn undoes_loss(earlier: &Change, later: &Change) -> bool
    ensures { result ≡ undoes_loss earlier.now later.now }
{
    is_lost(earlier) && is_loss(later)
}

/// Whether the change says that a signal is lost.
#[tactic(auto, unfolding(crate::specs::Entries::is_lost))]
pub fn is_lost(change: &Change) -> bool
    ensures { result ≡ is_lost change.now }
{
    matches!(change, Change::Lost)
}

/// Whether the change says that a signal is lost, or back.
#[tactic(auto, unfolding(crate::specs::Entries::is_loss))]
pub fn is_loss(change: &Change) -> bool
    ensures { result ≡ is_loss change.now }
{
    matches!(change, Change::Lost | Change::Back)
}

#[tactic(auto, unfolding(crate::specs::Entries::reconfigures))]
fn reconfigures(earlier: &Entry, later: &Entry) -> bool
    ensures { result ≡ reconfigures earlier.now later.now }
{
    earlier.peer == later.peer && undoes_of_peer(&earlier.change, &later.change)
}

/// Whether the change writes something that is held until a later change undoes it.
#[tactic(auto, unfolding(crate::specs::Entries::is_held))]
fn is_held(change: &Change) -> bool
    ensures { result ≡ is_held change.now }
{
    matches!(
        change,
        Change::Register
            | Change::SetAlias(_)
            | Change::SetAcl(_)
            | Change::SetConfig { .. }
            | Change::Lost
    )
}

#[tactic(auto, unfolding(crate::specs::Entries::undoes_of_client))]
fn undoes_of_client(earlier: &Change, later: &Change) -> bool
    ensures { result ≡ undoes_of_client earlier.now later.now }
{
    match earlier {
        Change::Register => is_deregister(later),
        Change::SetAlias(alias) => undoes_alias(&alias.name, later),
        Change::SetAcl(acl) => undoes_acl(&acl.name, later),
        _ => false,
    }
}

/// Whether the change takes the alias of this name away, or writes it anew (RFC 8783, sections 5.2, 6.1 and 6.3).
#[tactic(auto, unfolding(crate::specs::Entries::undoes_alias))]
pub fn undoes_alias(name: &Name, later: &Change) -> bool
    ensures { result ≡ undoes_alias name.now later.now }
{
    match later {
        Change::SetAlias(other) => name.bytes() == other.name.bytes(),
        Change::DropAlias { name: other } => name.bytes() == other.bytes(),
        Change::Deregister => true,
        _ => false,
    }
}

/// The same of the access list of this name (RFC 8783, sections 5.2, 7.2 and 7.4).
#[tactic(auto, unfolding(crate::specs::Entries::undoes_acl))]
pub fn undoes_acl(name: &Name, later: &Change) -> bool
    ensures { result ≡ undoes_acl name.now later.now }
{
    match later {
        Change::SetAcl(other) => name.bytes() == other.name.bytes(),
        Change::DropAcl { name: other } => name.bytes() == other.bytes(),
        Change::Deregister => true,
        _ => false,
    }
}

/// Whether a client leaves by the change.
#[tactic(auto, unfolding(crate::specs::Entries::is_deregister))]
pub fn is_deregister(change: &Change) -> bool
    ensures { result ≡ is_deregister change.now }
{
    matches!(change, Change::Deregister)
}

#[tactic(auto, unfolding(crate::specs::Entries::undoes_of_peer))]
fn undoes_of_peer(earlier: &Change, later: &Change) -> bool
    ensures { result ≡ undoes_of_peer earlier.now later.now }
{
    matches!(earlier, Change::SetConfig { .. }) && is_configuration(later)
}

/// Whether the change sets or deletes a session configuration.
#[tactic(auto, unfolding(crate::specs::Entries::is_configuration))]
pub fn is_configuration(change: &Change) -> bool
    ensures { result ≡ is_configuration change.now }
{
    matches!(change, Change::SetConfig { .. } | Change::ClearConfig)
}
