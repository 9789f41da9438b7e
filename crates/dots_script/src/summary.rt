//! What settings come to, in lines.

ghost use Rattle.std.specs.Prelude.{◌≡◌, ◌<◌, ◌+◌, ◌++◌, ℕ, List, length, flat_map, take, count_by, OnOk, IfOk};
ghost use Rattle.dots_script.specs.Summary.{count_line, prefixes_line, is_client, is_gateway, upstream_lines, granted_line, mitigation_limits, client_limits, message_limits, limits_lines, domains_lines, people_lines, lifetimes_lines, amounts_lines, summary};

use crate::pieces::add;
use dots_lists::{Bytes, NoMemory};
use dots_settings::{Limits, PeerRow, Role, Settings};
use ip_scope::Prefix;
use itoa::Buffer;
use std::alloc::Global;

/// The lines that say what the settings come to.
pub fn summary(alloc: Global, settings: &Settings) -> Result<Bytes, NoMemory>
    ensures { IfOk result (λ text. text ≡ summary settings.now) }
{
    let mut text = Vec::new(alloc);
    add_domains(&mut text, settings)?;
    add_people(&mut text, settings)?;
    add_lifetimes(&mut text, settings)?;
    add_amounts(&mut text, settings.limits(), settings.packets().len())?;
    Ok(Bytes::from_vec(text))
}

/// Adds `what: N`.
pub fn add_count(text: &mut Vec<u8>, what: &[u8], number: u64) -> Result<(), NoMemory>
    ensures { OnOk result (text.new.items ≡ text.old.items ++ count_line what.now number) }
{
    let mut buffer = Buffer::new();
    let pieces = [
        what,
        b": ".as_slice(),
        buffer.format(number).as_bytes(),
        b"\n".as_slice(),
    ];
    add(text, &pieces)
}

/// Adds how many domains there are, and a line for each.
fn add_domains(text: &mut Vec<u8>, settings: &Settings) -> Result<(), NoMemory>
    ensures { OnOk result (text.new.items ≡ text.old.items ++ domains_lines settings.now) }
{
    add_count(text, b"domains", u64::from(settings.domains()))?;
    add_prefixes(text, settings)
}

fn add_prefixes(text: &mut Vec<u8>, settings: &Settings) -> Result<(), NoMemory>
    ensures { OnOk result (text.new.items ≡ text.old.items ++ flat_map prefixes_line settings.now.domains) }
{
    for domain in 0..settings.domains() {
        add_domain(text, settings, domain)?;
    }
    Ok(())
}

/// Adds the line of a domain, whatever stands before those of the domains before it.
fn add_domain(text: &mut Vec<u8>, settings: &Settings, domain: u16) -> Result<(), NoMemory>
    requires { domain < length settings.now.domains }
    ensures { OnOk result ((front : List ℕ) → text.old.items ≡ front ++ flat_map prefixes_line (take domain settings.now.domains)
        → text.new.items ≡ front ++ flat_map prefixes_line (take (domain + 1) settings.now.domains)) }
{
    let name = settings.domain_name(domain);
    let prefixes = settings.prefixes(domain);
    match add_named(text, name, prefixes) {
        Ok(()) => return Ok(()),
        Err(NoMemory) => return Err(NoMemory),
    }
}

/// Adds `prefixes of NAME: N`.
fn add_named(text: &mut Vec<u8>, name: &[u8], prefixes: &[Prefix]) -> Result<(), NoMemory>
    ensures { OnOk result (text.new.items ≡ text.old.items
        ++ prefixes_line (record { name = name.now; prefixes = prefixes.now })) }
{
    let mut buffer = Buffer::new();
    let pieces = [
        b"prefixes of ".as_slice(),
        name,
        b": ".as_slice(),
        buffer.format(prefixes.len()).as_bytes(),
        b"\n".as_slice(),
    ];
    add(text, &pieces)
}

/// Adds how many clients and gateways there are, the upstream, and how many host names there are.
fn add_people(text: &mut Vec<u8>, settings: &Settings) -> Result<(), NoMemory>
    ensures { OnOk result (text.new.items ≡ text.old.items ++ people_lines settings.now) }
{
    add_count(text, b"clients", count_clients(settings.peers()) as u64)?;
    add_count(text, b"gateways", count_gateways(settings.peers()) as u64)?;
    add_upstream(text, settings.upstream())?;
    add_count(text, b"host names", settings.names().len() as u64)
}

/// Adds `upstream: PEER`, where there is one.
fn add_upstream(text: &mut Vec<u8>, upstream: Option<u32>) -> Result<(), NoMemory>
    ensures { OnOk result (text.new.items ≡ text.old.items ++ upstream_lines upstream) }
{
    match upstream {
        Some(peer) => add_count(text, b"upstream", u64::from(peer)),
        None => Ok(()),
    }
}

fn count_clients(peers: &[PeerRow]) -> usize
    ensures { result ≡ count_by (λ row. is_client row.role) peers.now }
{
    peers.iter().filter(|row| is_client(row.role)).count()
}

fn count_gateways(peers: &[PeerRow]) -> usize
    ensures { result ≡ count_by (λ row. is_gateway row.role) peers.now }
{
    peers.iter().filter(|row| is_gateway(row.role)).count()
}

fn is_client(role: Role) -> bool
    ensures { result ≡ is_client role }
{
    match role {
        Role::Client(_) => true,
        _ => false,
    }
}

fn is_gateway(role: Role) -> bool
    ensures { result ≡ is_gateway role }
{
    match role {
        Role::Gateway => true,
        _ => false,
    }
}

fn granted_line(granted: bool) -> &'static [u8]
    ensures { result.now ≡ granted_line granted }
{
    if granted {
        return b"lifetimes without end: yes\n";
    }
    b"lifetimes without end: no\n"
}

/// Adds the ceiling, and whether lifetimes without end are granted.
fn add_lifetimes(text: &mut Vec<u8>, settings: &Settings) -> Result<(), NoMemory>
    ensures { OnOk result (text.new.items ≡ text.old.items ++ lifetimes_lines settings.now) }
{
    add_count(text, b"ceiling in seconds", settings.ceiling() as u64)?;
    text.extend_from_slice(granted_line(settings.indefinite()))?;
    Ok(())
}

/// Adds how much the server takes on at a time, and how many sample packets there are.
fn add_amounts(text: &mut Vec<u8>, limits: Limits, packets: usize) -> Result<(), NoMemory>
    ensures { OnOk result (text.new.items ≡ text.old.items ++ amounts_lines limits packets) }
{
    add_limits(text, limits)?;
    add_count(text, b"sample packets", packets as u64)
}

#[tactic(auto, unfolding(crate::specs::Summary::limits_lines))]
fn add_limits(text: &mut Vec<u8>, limits: Limits) -> Result<(), NoMemory>
    ensures { OnOk result (text.new.items ≡ text.old.items ++ limits_lines limits) }
{
    add_mitigation_limits(text, limits)?;
    add_client_limits(text, limits)?;
    add_message_limits(text, limits)
}

fn add_mitigation_limits(text: &mut Vec<u8>, limits: Limits) -> Result<(), NoMemory>
    ensures { OnOk result (text.new.items ≡ text.old.items ++ mitigation_limits limits) }
{
    add_count(
        text,
        b"client-mitigations",
        u64::from(limits.client_mitigations),
    )?;
    add_count(
        text,
        b"domain-mitigations",
        u64::from(limits.domain_mitigations),
    )
}

fn add_client_limits(text: &mut Vec<u8>, limits: Limits) -> Result<(), NoMemory>
    ensures { OnOk result (text.new.items ≡ text.old.items ++ client_limits limits) }
{
    add_count(text, b"clients of a domain", u64::from(limits.clients))?;
    add_count(text, b"aliases", u64::from(limits.aliases))?;
    add_count(text, b"acls", u64::from(limits.acls))
}

fn add_message_limits(text: &mut Vec<u8>, limits: Limits) -> Result<(), NoMemory>
    ensures { OnOk result (text.new.items ≡ text.old.items ++ message_limits limits) }
{
    add_count(text, b"remembered", u64::from(limits.remembered))?;
    add_count(text, b"observers", u64::from(limits.observers))
}
