ghost use Rattle.std.specs.Prelude.{◌≡◌, ◌^◌, nat_le};
ghost use Rattle.std.specs.List.{list_all};
ghost use Rattle.dots_history.specs.Bounds.{within_bounds, change_within, put_within, target_within, alias_within, asked_within, values_within, prefix_count};

use crate::change::Change;
use crate::config::Values;
use crate::entry::Entry;
use crate::put::{Put, Target};
use acl_lists::{Alias, Asked, MAX_ACES, MAX_ITEMS, MAX_NAMES, MAX_RESOLVED, MAX_TARGETS};
use dots_lists::is_name;

const TIMES: u64 = 1 << 48;

const MAX_REPLY: usize = 64;

const VALUES: u64 = 1 << 32;

/// Whether the entry is within bounds: those of times, names, replies, and of the lists and values of its change.
pub fn is_within_bounds(entry: &Entry) -> bool
    ensures { result ≡ within_bounds entry.now }
{
    entry.time < TIMES
        && (entry.cuid.bytes().is_empty() || is_name(entry.cuid.bytes()))
        && entry.reply.items().len() <= MAX_REPLY
        && is_change_within(&entry.change)
}

fn is_change_within(change: &Change) -> bool
    ensures { result ≡ change_within change.now }
{
    match change {
        Change::Put(put) => is_put_within(put),
        Change::SetAlias(alias) => is_alias_within(alias),
        Change::SetAcl(acl) => acl.aces.items().len() <= MAX_ACES,
        Change::SetConfig { sid: _, config } => {
            are_values_within(&config.mitigating) && are_values_within(&config.idle)
        }
        Change::Withdraw { .. } => true,
        Change::DropAlias { .. } => true,
        Change::DropAcl { .. } => true,
        Change::Register => true,
        Change::Deregister => true,
        Change::ClearConfig => true,
        Change::Lost => true,
        Change::Back => true,
    }
}

fn is_put_within(put: &Put) -> bool
    ensures { result ≡ put_within put.now }
{
    is_asked_within(&put.asked)
        && put.targets.items().len() <= MAX_TARGETS
        && are_targets_within(put.targets.items())
        && are_few(put.targets.items())
}

fn are_targets_within(targets: &[Target]) -> bool
    ensures { result ≡ list_all target_within targets.now }
{
    targets.iter().all(|target| is_target_within(target))
}

/// Whether the targets have at most 128 prefixes together, the resolved prefixes of one mitigation.
pub fn are_few(targets: &[Target]) -> bool
    ensures { result ≡ nat_le (prefix_count targets.now) MAX_RESOLVED }
{
    let mut left = MAX_RESOLVED;
    for target in targets {
        match left.checked_sub(target.prefixes.items().len()) {
            Some(rest) => left = rest,
            None => return false,
        }
    }
    true
}

fn is_target_within(target: &Target) -> bool
    ensures { result ≡ target_within target.now }
{
    target.ports.items().len() <= MAX_ITEMS && target.protocols.items().len() <= MAX_ITEMS
}

fn is_alias_within(alias: &Alias) -> bool
    ensures { result ≡ alias_within alias.now }
{
    is_asked_within(&alias.asked) && alias.asked.aliases.items().is_empty()
}

fn is_asked_within(asked: &Asked) -> bool
    ensures { result ≡ asked_within asked.now }
{
    asked.prefixes.items().len() <= MAX_ITEMS
        && asked.ports.items().len() <= MAX_ITEMS
        && asked.protocols.items().len() <= MAX_ITEMS
        && asked.names.items().len() <= MAX_NAMES
        && asked.aliases.items().len() <= MAX_NAMES
}

fn are_values_within(values: &Values) -> bool
    ensures { result ≡ values_within values.now }
{
    values.interval < VALUES
        && values.missing < VALUES
        && values.retransmit < VALUES
        && values.timeout < VALUES
        && values.factor < VALUES
        && values.rate < VALUES
}
