//! What a request's targets come to.

ghost use Rattle.std.specs.Prelude.{◌≡◌, ◌+◌, ◌<◌, ◌++◌, [], length, nat_le, IfOk, OnOk, MatchOption, is_none};
ghost use Rattle.std.specs.List.{flat_map, list_any};
ghost use Rattle.std.specs.Option.{option_copied};
ghost use Rattle.acl_lists.specs.declared.limits.TheConstants.{MAX_RESOLVED};
ghost use Rattle.dots_history.specs.Bounds.{prefix_count};
ghost use Rattle.conflict_rules.specs.Targets.{prefixes_asked, target_of, own_target, alias_named, is_unknown, alias_target, targets_of};

use acl_lists::{Alias, Asked, MAX_RESOLVED, PrefixList};
use dots_history::{Target, TargetList};
use dots_lists::{List, Name, NoMemory};
use dots_settings::Settings;
use ip_scope::Prefix;
use std::alloc::Global;

/// The targets of what is asked: one of its own prefixes and host names, where these come to a prefix, and one of each
/// alias in order.
pub fn targets_of(
    alloc: Global,
    settings: &Settings,
    aliases: &[Alias],
    asked: &Asked,
) -> Result<TargetList, NoMemory>
    ensures { IfOk result (λ targets. targets ≡ targets_of settings.now aliases.now asked.now) }
{
    let mut targets = own_target(alloc, settings, asked)?;
    for name in asked.aliases.items() {
        push_alias(&mut targets, settings, aliases, name)?;
    }
    Ok(targets)
}

/// Whether the targets of what is asked have at most 128 prefixes together. None of them is made for it, and it takes no memory.
#[tactic(auto, using(crate::proofs::Rooms::whole_count))]
pub fn come_to_few(settings: &Settings, aliases: &[Alias], asked: &Asked) -> bool
    ensures { result ≡ nat_le (prefix_count (targets_of settings.now aliases.now asked.now)) MAX_RESOLVED }
{
    match room_beside(MAX_RESOLVED, settings, asked) {
        Some(left) => have_room(left, settings, aliases, asked.aliases.items()),
        None => false,
    }
}

/// Whether there is room for the prefixes of the targets of the aliases of these names.
#[tactic(auto, using(crate::proofs::Rooms::names_count))]
fn have_room(room: usize, settings: &Settings, aliases: &[Alias], names: &[Name]) -> bool
    ensures { result ≡ nat_le (prefix_count (flat_map (alias_target settings.now aliases.now) names.now)) room }
{
    let mut left = room;
    for name in names {
        match room_beside_alias(left, settings, aliases, name) {
            Some(rest) => left = rest,
            None => return false,
        }
    }
    true
}

/// The room that is left beside the prefixes of the target of the alias of this name; None where there is too little.
fn room_beside_alias(
    room: usize,
    settings: &Settings,
    aliases: &[Alias],
    name: &Name,
) -> Option<usize>
    ensures { MatchOption result (room < prefix_count (alias_target settings.now aliases.now name.now))
        (λ rest. rest + prefix_count (alias_target settings.now aliases.now name.now) ≡ room) }
{
    match alias_named(aliases, name) {
        Some(alias) => room_beside(room, settings, &alias.asked),
        None => Some(room),
    }
}

/// The room that is left beside the asked prefixes and those of the asked host names; None where there is too little.
#[tactic(auto, using(crate::proofs::Rooms::asked_count, crate::proofs::Rooms::addresses_count))]
fn room_beside(room: usize, settings: &Settings, asked: &Asked) -> Option<usize>
    ensures { MatchOption result (room < length (prefixes_asked settings.now asked.now))
        (λ rest. rest + length (prefixes_asked settings.now asked.now) ≡ room) }
{
    let mut left = room.checked_sub(asked.prefixes.items().len())?;
    for name in asked.names.items() {
        left = left.checked_sub(settings.addresses(name.bytes()).len())?;
    }
    Some(left)
}

/// Whether the client holds no alias of one of these names.
pub fn some_unknown(aliases: &[Alias], names: &[Name]) -> bool
    ensures { result ≡ list_any (is_unknown aliases.now) names.now }
{
    names.iter().any(|name| is_unknown(aliases, name))
}

/// The same targets in the same order.
pub fn copy_of_targets(alloc: Global, targets: &[Target]) -> Result<TargetList, NoMemory>
    ensures { IfOk result (λ copy. copy ≡ targets.now) }
{
    let mut copy = List::new(alloc);
    for target in targets {
        copy.push(copy_of_target(target)?)?;
    }
    Ok(copy)
}

fn copy_of_target(target: &Target) -> Result<Target, NoMemory>
    ensures { IfOk result (λ copy. copy ≡ target.now) }
{
    Ok(Target {
        prefixes: target.prefixes.copy()?,
        ports: target.ports.copy()?,
        protocols: target.protocols.copy()?,
    })
}

/// The target of the asked prefixes and host names, where they come to a prefix.
fn own_target(alloc: Global, settings: &Settings, asked: &Asked) -> Result<TargetList, NoMemory>
    ensures { IfOk result (λ targets. targets ≡ own_target settings.now asked.now) }
{
    let target = target_of(settings, asked)?;
    let mut targets = List::new(alloc);
    if !target.prefixes.items().is_empty() {
        targets.push(target)?;
    }
    Ok(targets)
}

/// Puts the target of the alias of this name behind the others, where the client holds it.
fn push_alias(
    targets: &mut TargetList,
    settings: &Settings,
    aliases: &[Alias],
    name: &Name,
) -> Result<(), NoMemory>
    ensures { OnOk result (targets.new ≡ targets.old ++ alias_target settings.now aliases.now name.now) }
{
    if let Some(alias) = alias_named(aliases, name) {
        targets.push(target_of(settings, &alias.asked)?)?;
    }
    Ok(())
}

fn target_of(settings: &Settings, asked: &Asked) -> Result<Target, NoMemory>
    ensures { IfOk result (λ target. target ≡ target_of settings.now asked.now) }
{
    Ok(Target {
        prefixes: prefixes_asked(settings, asked)?,
        ports: asked.ports.copy()?,
        protocols: asked.protocols.copy()?,
    })
}

/// The asked prefixes, and those of the asked host names in order.
fn prefixes_asked(settings: &Settings, asked: &Asked) -> Result<PrefixList, NoMemory>
    ensures { IfOk result (λ prefixes. prefixes ≡ prefixes_asked settings.now asked.now) }
{
    let mut prefixes = asked.prefixes.copy()?;
    for name in asked.names.items() {
        push_all(&mut prefixes, settings.addresses(name.bytes()))?;
    }
    Ok(prefixes)
}

/// Puts more prefixes behind those that are there.
pub fn push_all(prefixes: &mut PrefixList, more: &[Prefix]) -> Result<(), NoMemory>
    ensures { OnOk result (prefixes.new ≡ prefixes.old ++ more.now) }
{
    for prefix in more {
        prefixes.push(*prefix)?;
    }
    Ok(())
}

fn is_unknown(aliases: &[Alias], name: &Name) -> bool
    ensures { result ≡ is_unknown aliases.now name.now }
{
    alias_named(aliases, name).is_none()
}

fn alias_named<'a>(aliases: &'a [Alias], name: &Name) -> Option<&'a Alias>
    ensures { option_copied result ≡ alias_named name.now aliases.now }
{
    aliases
        .iter()
        .find(|alias| name.bytes() == alias.name.bytes())
}
