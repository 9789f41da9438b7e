//! How full the domains are.

ghost use Rattle.std.specs.Prelude.{◌≡◌, ◌<◌, ◌++◌, codes, length, List, OnOk};
ghost use Rattle.dots_settings.specs.Lookups.{name_of};
ghost use Rattle.dots_history.specs.declared.entry.Entry.{Entry};
ghost use Rattle.dots_registry.specs.RegistryValues.{IsOf, Represents, time_of};
ghost use Rattle.server_figures.specs.Lines.{labelled_line, spelled};
ghost use Rattle.server_figures.specs.Figures.{domain_lines, live_in, registered_in, mitigations_lines, clients_lines};

use crate::lines::{add_gauge, add_gauge_heading, add_labelled};
use crate::spelling::spelled;
use dots_lists::NoMemory;
use dots_registry::Registry;
use dots_settings::Settings;
use held_resources::RoomKind;
use std::alloc::Global;

/// The live mitigations of each domain, and how many there may be.
#[tactic(auto, unfolding(crate::specs::Figures::mitigations_lines))]
pub fn add_mitigations(
    alloc: Global,
    text: &mut Vec<u8>,
    settings: &Settings,
    registry: &Registry,
) -> Result<(), NoMemory>
    requires { IsOf settings.now registry.now }
    ensures { OnOk result ((history : List Entry) → Represents registry.now history
        → text.new.items ≡ text.old.items ++ mitigations_lines settings.now (time_of registry.now) history) }
{
    add_gauge_heading(text, b"dots_mitigations", b"Live mitigations of a domain.")?;
    add_live(alloc, text, settings, registry)?;
    add_gauge(
        text,
        b"dots_mitigations_limit",
        b"Live mitigations that a domain may have.",
        u64::from(settings.limits().domain_mitigations),
    )
}

fn add_live(
    alloc: Global,
    text: &mut Vec<u8>,
    settings: &Settings,
    registry: &Registry,
) -> Result<(), NoMemory>
    requires { IsOf settings.now registry.now }
    ensures { OnOk result ((history : List Entry) → Represents registry.now history
        → text.new.items ≡ text.old.items ++ domain_lines settings.now (codes "dots_mitigations") (live_in (time_of registry.now) history)) }
{
    for domain in 0..settings.domains() {
        let number = registry.live_in(domain) as u64;
        add_domain(alloc, text, settings, domain, b"dots_mitigations", number)?;
    }
    Ok(())
}

/// The registered clients of each domain, and how many there may be.
#[tactic(auto, unfolding(crate::specs::Figures::clients_lines))]
pub fn add_clients(
    alloc: Global,
    text: &mut Vec<u8>,
    settings: &Settings,
    registry: &Registry,
) -> Result<(), NoMemory>
    ensures { OnOk result ((history : List Entry) → Represents registry.now history
        → text.new.items ≡ text.old.items ++ clients_lines settings.now history) }
{
    add_gauge_heading(text, b"dots_clients", b"Registered clients of a domain.")?;
    add_registered(alloc, text, settings, registry)?;
    add_gauge(
        text,
        b"dots_clients_limit",
        b"Registered clients that a domain may have.",
        u64::from(settings.limits().clients),
    )
}

fn add_registered(
    alloc: Global,
    text: &mut Vec<u8>,
    settings: &Settings,
    registry: &Registry,
) -> Result<(), NoMemory>
    ensures { OnOk result ((history : List Entry) → Represents registry.now history
        → text.new.items ≡ text.old.items ++ domain_lines settings.now (codes "dots_clients") (registered_in history)) }
{
    for domain in 0..settings.domains() {
        let number = registry.number_of(RoomKind::Client, domain, &[]) as u64;
        add_domain(alloc, text, settings, domain, b"dots_clients", number)?;
    }
    Ok(())
}

/// The line of a domain.
fn add_domain(
    alloc: Global,
    text: &mut Vec<u8>,
    settings: &Settings,
    domain: u16,
    name: &[u8],
    number: u64,
) -> Result<(), NoMemory>
    requires { domain < length settings.now.domains }
    ensures { OnOk result (text.new.items ≡ text.old.items
        ++ labelled_line name.now (codes "domain") (spelled (name_of settings.now domain)) number) }
{
    let label = spelled(alloc, settings.domain_name(domain))?;
    add_labelled(text, name, b"domain", label.as_slice(), number)
}
