//! Which entries are the settings' own.

ghost use Rattle.std.specs.Prelude.{◌≡◌};
ghost use Rattle.std.specs.List.{list_all};
ghost use Rattle.dots_history.specs.declared.change.Change.TheVariants as change;
ghost use Rattle.dots_settings.specs.Lookups.{role_of, prefixes_of, addresses_of};
ghost use Rattle.dots_history.specs.Calm.{may_act, may_configure, all_inside, name_inside, destination_inside, change_inside, acts_rightly, loses_rightly, waits_rightly, is_client_of, is_of_settings, came_rightly, is_http};

use crate::change::Change;
use crate::entry::{Entry, MessageKey};
use crate::holding::{is_configuration, is_loss};
use crate::put::Target;
use crate::relations::{is_signal, waits};
use acl_lists::{Ace, Alias};
use dots_lists::Name;
use dots_settings::{NO_DOMAIN, Role, Settings};
use ip_scope::{Prefix, inside_any};

/// Whether the peer may act for the entry's domain, inside which lies what the entry names, or it configures its
/// session and names no client.
pub fn is_of_settings(settings: &Settings, entry: &Entry) -> bool
    ensures { result ≡ is_of_settings settings.now entry.now }
{
    acts_rightly(settings, entry)
        && loses_rightly(settings, entry)
        && waits_rightly(settings, entry)
}

/// Whether the peer may act for the entry's domain, inside which lies what the entry names, or it configures its
/// session and names no client.
fn acts_rightly(settings: &Settings, entry: &Entry) -> bool
    ensures { result ≡ acts_rightly settings.now entry.now }
{
    let role = settings.domain_of(entry.peer);
    if is_configuration(&entry.change) {
        return entry.cuid.bytes().is_empty() && may_configure(role, entry.domain);
    }
    may_act(settings, role, entry.domain)
        && change_inside(settings, settings.prefixes_of(entry.domain), &entry.change)
}

/// Whether a loss is of a client peer, and names no client.
fn loses_rightly(settings: &Settings, entry: &Entry) -> bool
    ensures { result ≡ loses_rightly settings.now entry.now }
{
    !is_loss(&entry.change)
        || (entry.cuid.bytes().is_empty()
            && is_client_of(settings.domain_of(entry.peer), entry.domain))
}

/// Whether a mitigation that waits for a lost signal is of a client peer.
fn waits_rightly(settings: &Settings, entry: &Entry) -> bool
    ensures { result ≡ waits_rightly settings.now entry.now }
{
    !waits(&entry.change) || is_client_of(settings.domain_of(entry.peer), entry.domain)
}

fn is_client_of(role: Role, domain: u16) -> bool
    ensures { result ≡ is_client_of role domain }
{
    match role {
        Role::Client(own) => own == domain,
        Role::Stranger | Role::Gateway => false,
    }
}

/// Whether the entry is a signal entry or came by HTTP.
pub fn came_rightly(entry: &Entry) -> bool
    ensures { result ≡ came_rightly entry.now }
{
    is_signal(&entry.change) || is_http(entry.key)
}

fn is_http(key: MessageKey) -> bool
    ensures { result ≡ is_http key }
{
    match key {
        MessageKey::Http => true,
        MessageKey::Non(_) | MessageKey::Con(_) => false,
    }
}

fn may_act(settings: &Settings, role: Role, domain: u16) -> bool
    ensures { result ≡ may_act settings.now role domain }
{
    match role {
        Role::Stranger => false,
        Role::Client(own) => own == domain && domain < settings.domains(),
        Role::Gateway => domain < settings.domains(),
    }
}

fn may_configure(role: Role, domain: u16) -> bool
    ensures { result ≡ may_configure role domain }
{
    match role {
        Role::Stranger => false,
        Role::Client(own) => own == domain,
        Role::Gateway => domain == NO_DOMAIN,
    }
}

fn change_inside(settings: &Settings, domain: &[Prefix], change: &Change) -> bool
    ensures { result ≡ change_inside settings.now domain.now change.now }
{
    match change {
        Change::Put(put) => targets_inside(domain, put.targets.items()),
        Change::SetAlias(alias) => alias_inside(settings, domain, alias),
        Change::SetAcl(acl) => aces_inside(domain, acl.aces.items()),
        _ => true,
    }
}

fn targets_inside(domain: &[Prefix], targets: &[Target]) -> bool
    ensures { result ≡ list_all (λ target. all_inside domain.now target.prefixes) targets.now }
{
    targets
        .iter()
        .all(|target| all_inside(domain, target.prefixes.items()))
}

fn alias_inside(settings: &Settings, domain: &[Prefix], alias: &Alias) -> bool
    ensures { result ≡ change_inside settings.now domain.now (change.SetAlias alias.now) }
{
    all_inside(domain, alias.asked.prefixes.items())
        && names_inside(settings, domain, alias.asked.names.items())
}

fn names_inside(settings: &Settings, domain: &[Prefix], names: &[Name]) -> bool
    ensures { result ≡ list_all (name_inside settings.now domain.now) names.now }
{
    names.iter().all(|name| name_inside(settings, domain, name))
}

fn name_inside(settings: &Settings, domain: &[Prefix], name: &Name) -> bool
    ensures { result ≡ name_inside settings.now domain.now name.now }
{
    let addresses = settings.addresses(name.bytes());
    !addresses.is_empty() && all_inside(domain, addresses)
}

fn aces_inside(domain: &[Prefix], aces: &[Ace]) -> bool
    ensures { result ≡ list_all (λ ace. destination_inside domain.now ace.destination) aces.now }
{
    aces.iter().all(|ace| destination_inside(domain, ace))
}

fn destination_inside(domain: &[Prefix], ace: &Ace) -> bool
    ensures { result ≡ destination_inside domain.now ace.now.destination }
{
    match &ace.destination {
        Some(prefix) => inside_any(prefix, domain),
        None => true,
    }
}

fn all_inside(domain: &[Prefix], prefixes: &[Prefix]) -> bool
    ensures { result ≡ all_inside domain.now prefixes.now }
{
    prefixes.iter().all(|prefix| inside_any(prefix, domain))
}
