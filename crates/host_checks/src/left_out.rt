//! Why an entry doesn't go over to other settings.

ghost use Rattle.std.specs.Prelude.{◌≡◌, ◌++◌, OnOk};
ghost use Rattle.dots_history.specs.Calm.{may_act, may_configure, is_client_of};
ghost use Rattle.host_checks.specs.Leavings.{may_ask, is_client_where_asked, cause_alone, cause_words, left_line};

use crate::entry_line::{add_change, add_client, add_when, add_words};
use dots_history::{Entry, is_configuration, is_loss, waits};
use dots_lists::NoMemory;
use dots_settings::{NO_DOMAIN, Role, Settings};

/// Why an entry is left out.
#[derive(Clone, Copy)]
pub enum LeftOut {
    /// A later entry ended it, and its client loses one of those that it put later: it might stand again.
    Over,
    /// The settings don't have its domain.
    DomainGone,
    /// They don't name its peer.
    PeerGone,
    /// Its peer may not ask for the domain.
    PeerElsewhere,
    /// What it names doesn't lie inside the domain.
    Outside,
    /// The capacities are exceeded, or its client isn't registered.
    NoRoom,
}

/// Why an entry isn't the settings' own.
pub(crate) fn cause_alone(settings: &Settings, entry: &Entry) -> LeftOut
    ensures { result ≡ cause_alone settings.now entry.now }
{
    let role = settings.domain_of(entry.peer);
    match role {
        Role::Stranger => LeftOut::PeerGone,
        Role::Client(_) | Role::Gateway => {
            if may_ask(settings, role, entry) && is_client_where_asked(role, entry) {
                return LeftOut::Outside;
            }
            LeftOut::PeerElsewhere
        }
    }
}

/// Whether a peer of this role may ask for what the entry changes.
fn may_ask(settings: &Settings, role: Role, entry: &Entry) -> bool
    ensures { result ≡ may_ask settings.now role entry.now }
{
    if is_configuration(&entry.change) {
        return may_configure(role, entry.domain);
    }
    may_act(settings, role, entry.domain)
}

fn may_act(settings: &Settings, role: Role, domain: u16) -> bool
    ensures { result ≡ may_act settings.now role domain }
{
    match role {
        Role::Stranger => false,
        Role::Client(own) => own == domain && domain < settings.domains(),
        Role::Gateway => domain < settings.domains(),
    }
}

fn may_configure(role: Role, domain: u16) -> bool
    ensures { result ≡ may_configure role domain }
{
    match role {
        Role::Stranger => false,
        Role::Client(own) => own == domain,
        Role::Gateway => domain == NO_DOMAIN,
    }
}

/// Whether it is a client of the entry's domain, where only a client may be the peer.
fn is_client_where_asked(role: Role, entry: &Entry) -> bool
    ensures { result ≡ is_client_where_asked role entry.now }
{
    (!is_loss(&entry.change) || is_client_of(role, entry.domain))
        && (!waits(&entry.change) || is_client_of(role, entry.domain))
}

fn is_client_of(role: Role, domain: u16) -> bool
    ensures { result ≡ is_client_of role domain }
{
    match role {
        Role::Client(own) => own == domain,
        Role::Stranger | Role::Gateway => false,
    }
}

/// The cause in words.
fn cause_words(why: LeftOut) -> &'static [u8]
    ensures { result.now ≡ cause_words why }
{
    match why {
        LeftOut::Over => b"it is over, and its client loses a later one",
        LeftOut::DomainGone => b"its domain isn't there any more",
        LeftOut::PeerGone => b"its peer isn't there any more",
        LeftOut::PeerElsewhere => b"its peer isn't of the domain any more",
        LeftOut::Outside => b"a prefix or a host name isn't inside the domain",
        LeftOut::NoRoom => b"a capacity is full, or its client isn't registered",
    }
}

/// Adds the line of an entry that is left out, which stands in this slot under these settings.
#[tactic(auto, unfolding(crate::specs::Leavings::left_line))]
pub(crate) fn add_left(
    text: &mut Vec<u8>,
    old: &Settings,
    slot: u32,
    entry: &Entry,
    why: LeftOut,
) -> Result<(), NoMemory>
    ensures { OnOk result (text.new.items ≡ text.old.items ++ left_line old.now slot entry.now why) }
{
    add_words(text, b"left out ")?;
    add_when(text, u64::from(slot), entry)?;
    add_client(text, old, entry)?;
    add_change(text, &entry.change)?;
    add_words(text, b": ")?;
    add_words(text, cause_words(why))?;
    add_words(text, b"\n")
}
