//! What is read of a client and of a session.

ghost use Rattle.std.specs.Prelude.{◌≡◌, option_copied, option_map, is_some};
ghost use Rattle.dots_history.specs.Held.{alias_named, acl_named};
ghost use Rattle.held_resources.specs.Tables.{registrant_in, aliases_in, acls_in, config_in, config_now};

use crate::configurations::Configuration;
use crate::registered_client::RegisteredClient;
use acl_lists::{Acl, Alias};
use dots_history::Config;
use dots_lists::Name;

/// Whether there is a client.
pub(crate) fn is_there(client: Option<&RegisteredClient>) -> bool
    ensures { result ≡ is_some (option_copied client.entry) }
{
    match client {
        Some(_) => true,
        None => false,
    }
}

/// The peer that registered the client.
pub(crate) fn registrant_of(client: Option<&RegisteredClient>) -> Option<u32>
    ensures { result ≡ registrant_in (option_copied client.entry) }
{
    match client {
        Some(client) => Some(client.peer()),
        None => None,
    }
}

/// The aliases of the client.
pub(crate) fn aliases_of(client: Option<&RegisteredClient>) -> &[Alias]
    ensures { result.now ≡ aliases_in (option_copied client.entry) }
{
    match client {
        Some(client) => client.aliases(),
        None => &[],
    }
}

/// The access lists of the client.
pub(crate) fn acls_of(client: Option<&RegisteredClient>) -> &[Acl]
    ensures { result.now ≡ acls_in (option_copied client.entry) }
{
    match client {
        Some(client) => client.acls(),
        None => &[],
    }
}

/// The one of this name.
pub(crate) fn alias_named<'a>(aliases: &'a [Alias], name: &Name) -> Option<&'a Alias>
    ensures { option_copied result ≡ alias_named name.now aliases.now }
{
    aliases
        .iter()
        .find(|alias| name.bytes() == alias.name.bytes())
}

/// The one of this name.
pub(crate) fn acl_named<'a>(acls: &'a [Acl], name: &Name) -> Option<&'a Acl>
    ensures { option_copied result ≡ acl_named name.now acls.now }
{
    acls.iter().find(|acl| name.bytes() == acl.name.bytes())
}

/// What a session has.
pub(crate) fn config_in(configuration: Option<&Configuration>) -> Option<(u32, &Config)>
    ensures { option_map config_now result ≡ config_in (option_copied configuration.entry) }
{
    match &configuration?.config {
        Some((sid, config)) => Some((*sid, config)),
        None => None,
    }
}
