//! A row of what is held, and what undoes it.

ghost use Rattle.std.specs.Prelude.{◌≡◌, ◌≤◌, length, option_map};
ghost use Rattle.dots_history.specs.Entries.{is_deregister, is_configuration, undoes_alias, undoes_acl, is_loss};
ghost use Rattle.held_resources.specs.Rows.{written_of, row_of, undone_of_client, undone_of_peer, undone_of_signal, is_resumed, is_undone};

use crate::name::ShortName;
use dots_history::{Change, Entry, is_configuration, is_deregister, is_loss};

/// What an entry wrote that is held until a later one undoes it.
#[derive(Drop)]
pub enum HeldName {
    /// The client is registered (RFC 8783, section 5.1).
    Registration,
    /// The client's alias of this name (section 6.1).
    Alias { name: ShortName },
    /// The client's access list of this name (section 7.2).
    Acl { name: ShortName },
    /// The session configuration of the peer (RFC 9132, section 4.5.2).
    Configuration,
    /// The signal of the peer is lost in its domain.
    Loss,
}

/// Something that is held, and the slot of the entry that wrote it.
#[derive(Drop)]
pub struct HeldSlot {
    /// Who wrote it.
    pub peer: u32,
    pub domain: u16,
    /// The client; empty where a session is configured or a signal is lost.
    pub cuid: ShortName,
    pub written: HeldName,
    pub slot: u32,
}

/// The row of an entry in this slot, where it writes something.
pub(crate) fn row_of(entry: &Entry, slot: u32) -> Option<HeldSlot>
    requires { length entry.now.cuid ≤ 64 }
    ensures { result ≡ row_of (record { entry = entry.now; slot = slot }) }
{
    let written = written_of(&entry.change)?;
    Some(HeldSlot {
        peer: entry.peer,
        domain: entry.domain,
        cuid: ShortName::new(entry.cuid.bytes()),
        written,
        slot,
    })
}

/// What a change writes that is held.
fn written_of(change: &Change) -> Option<HeldName>
    ensures { result ≡ written_of change.now }
{
    match change {
        Change::Register => Some(HeldName::Registration),
        Change::SetAlias(alias) => Some(HeldName::Alias {
            name: ShortName::of(&alias.name),
        }),
        Change::SetAcl(acl) => Some(HeldName::Acl {
            name: ShortName::of(&acl.name),
        }),
        Change::SetConfig { .. } => Some(HeldName::Configuration),
        Change::Lost => Some(HeldName::Loss),
        _ => None,
    }
}

/// Whether what the row is of is no longer held after this entry.
pub(crate) fn is_undone(row: &HeldSlot, entry: &Entry) -> bool
    ensures { result ≡ is_undone row.now entry.now }
{
    (row.domain == entry.domain
        && row.cuid.bytes() == entry.cuid.bytes()
        && undone_of_client(&row.written, &entry.change))
        || (row.peer == entry.peer && undone_of_peer(&row.written, &entry.change))
        || is_resumed(row, entry)
}

/// Whether the row is of a lost signal, and the entry says anew whether that is lost.
fn is_resumed(row: &HeldSlot, entry: &Entry) -> bool
    ensures { result ≡ is_resumed row.now entry.now }
{
    row.peer == entry.peer
        && row.domain == entry.domain
        && undone_of_signal(&row.written, &entry.change)
}

/// Whether a change of the client undoes it.
fn undone_of_client(written: &HeldName, change: &Change) -> bool
    ensures { result ≡ undone_of_client written.now change.now }
{
    match written {
        HeldName::Registration => is_deregister(change),
        HeldName::Alias { name } => undoes_alias(name, change),
        HeldName::Acl { name } => undoes_acl(name, change),
        HeldName::Configuration | HeldName::Loss => false,
    }
}

/// Whether a change of the peer undoes it.
fn undone_of_peer(written: &HeldName, change: &Change) -> bool
    ensures { result ≡ undone_of_peer written.now change.now }
{
    match written {
        HeldName::Configuration => is_configuration(change),
        _ => false,
    }
}

/// Whether it is a lost signal, and a change of the peer in its domain undoes it.
fn undone_of_signal(written: &HeldName, change: &Change) -> bool
    ensures { result ≡ undone_of_signal written.now change.now }
{
    match written {
        HeldName::Loss => is_loss(change),
        _ => false,
    }
}

/// Whether the change takes the alias of this name away, or writes it anew.
#[tactic(auto, unfolding(dots_history::specs::Entries::undoes_alias))]
fn undoes_alias(name: &ShortName, change: &Change) -> bool
    ensures { result ≡ undoes_alias name.now change.now }
{
    match change {
        Change::SetAlias(other) => name.bytes() == other.name.bytes(),
        Change::DropAlias { name: other } => name.bytes() == other.bytes(),
        Change::Deregister => true,
        _ => false,
    }
}

/// The same of the access list of this name.
#[tactic(auto, unfolding(dots_history::specs::Entries::undoes_acl))]
fn undoes_acl(name: &ShortName, change: &Change) -> bool
    ensures { result ≡ undoes_acl name.now change.now }
{
    match change {
        Change::SetAcl(other) => name.bytes() == other.name.bytes(),
        Change::DropAcl { name: other } => name.bytes() == other.bytes(),
        Change::Deregister => true,
        _ => false,
    }
}
