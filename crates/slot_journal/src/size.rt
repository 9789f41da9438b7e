//! How large a journal is.

ghost use Rattle.std.specs.Prelude.{◌≡◌, ◌≤◌, ◌+◌, ◌*◌, length};
ghost use Rattle.dots_settings.specs.Settings.{is_gateway_role};
ghost use Rattle.slot_store.specs.Layout.{needed_of};
ghost use Rattle.slot_journal.specs.Sizes.{is_client_role, clients_of, gateways_of, actors_of, kept_at_most, slots_of};

use dots_settings::{PeerRow, Role, Settings};

fn is_client(role: Role) -> bool
    ensures { result ≡ is_client_role role }
{
    match role {
        Role::Client(_) => true,
        Role::Gateway => false,
        Role::Stranger => false,
    }
}

fn is_gateway(role: Role) -> bool
    ensures { result ≡ is_gateway_role role }
{
    match role {
        Role::Client(_) => false,
        Role::Gateway => true,
        Role::Stranger => false,
    }
}

/// How many of at most 64 peers are clients.
fn clients(peers: &[PeerRow]) -> u32
    requires { length peers.now ≤ 64 }
    ensures clients { result ≡ clients_of peers.now }
    ensures most { result ≤ 64 }
{
    peers.iter().filter(|row| is_client(row.role)).count() as u32
}

/// How many of at most 64 peers are gateways.
fn gateways(peers: &[PeerRow]) -> u32
    requires { length peers.now ≤ 64 }
    ensures gateways { result ≡ gateways_of peers.now }
    ensures most { result ≤ 64 }
{
    peers.iter().filter(|row| is_gateway(row.role)).count() as u32
}

/// For how many domains at most 4 gateways act, each for at most 17.
#[tactic(auto, using(crate::proofs::Sizing::of_gateways_most))]
fn of_gateways(gateways: u32, each: u32) -> u32
    requires gateways { gateways ≤ 4 }
    requires each { each ≤ 17 }
    ensures product { result ≡ gateways * each }
    ensures most { result ≤ 68 }
{
    gateways * each
}

/// The product of small numbers.
#[tactic(auto, using(crate::proofs::Sizing::product_of_small))]
fn times(one: u32, other: u32) -> u32
    requires one { one ≤ 64 }
    requires other { other ≤ 400 }
    ensures product { result ≡ one * other }
    ensures most { result ≤ 25600 }
{
    one * other
}

/// For how many pairs of a peer and a domain messages are remembered at most.
fn actors(domains: u32, peers: &[PeerRow]) -> u32
    requires domains { domains ≤ 16 }
    requires peers { length peers.now ≤ 64 }
    requires gateways { gateways_of peers.now ≤ 4 }
    ensures actors { result ≡ actors_of domains peers.now }
    ensures most { result ≤ 256 }
{
    clients(peers) + of_gateways(gateways(peers), domains + 1)
}

/// How many entries a compaction keeps at most under these settings.
fn kept_at_most(settings: &Settings) -> u32
    ensures kept { result ≡ kept_at_most settings.now }
    ensures most { result ≤ 51400 }
{
    let domains = u32::from(settings.domains());
    let limits = settings.limits();
    let peers = settings.peers();
    let of_domains = times(domains, settings.most_of_domain());
    let remembered = times(limits.remembered, actors(domains, peers));
    of_domains + remembered + clients(peers) + gateways(peers) + 1
}

/// How many slots a half of a journal has under these settings: twice what a compaction keeps at most, and eight.
pub fn slots(settings: &Settings) -> u32
    ensures slots { result ≡ slots_of settings.now }
{
    2 * kept_at_most(settings) + 8
}

/// How many bytes a disk needs under these settings.
pub fn bytes_needed(settings: &Settings) -> u64
    ensures { result ≡ needed_of (slots_of settings.now) }
{
    8192 * (1 + 2 * u64::from(slots(settings)))
}
