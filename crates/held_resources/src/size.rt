//! How much is held at most.

ghost use Rattle.std.specs.Prelude.{◌≡◌, ◌≤◌, ◌+◌, ◌*◌, length};
ghost use Rattle.std.specs.List.{flat_map};
ghost use Rattle.dots_history.specs.Calm.{loser_of};
ghost use Rattle.held_resources.specs.Sizes.{is_client, most_held};

use dots_settings::{PeerRow, Role, Settings};

/// How many entries are held by the settings at most, and as many more as the live mitigations have.
pub(crate) fn most_held(settings: &Settings) -> u32
    ensures { result ≡ most_held settings.now }
{
    let domains = u32::from(settings.domains());
    let peers = settings.peers();
    of_domains(domains, settings.most_of_domain()) + peers.len() as u32 + clients(peers) + 1
}

/// How many of at most 64 peers are clients.
#[tactic(auto, using(crate::proofs::Sizing::clients_many))]
fn clients(peers: &[PeerRow]) -> u32
    requires { length peers.now ≤ 64 }
    ensures clients { result ≡ length (flat_map loser_of peers.now) }
    ensures most { result ≤ 64 }
{
    peers.iter().filter(|row| is_client(row.role)).count() as u32
}

fn is_client(role: Role) -> bool
    ensures { result ≡ is_client role }
{
    matches!(role, Role::Client(_))
}

/// How many things at most 16 domains have, of each at most 400.
#[tactic(auto, using(crate::proofs::Sizing::of_domains_most))]
fn of_domains(domains: u32, each: u32) -> u32
    requires domains { domains ≤ 16 }
    requires each { each ≤ 400 }
    ensures product { result ≡ domains * each }
    ensures most { result ≤ 6400 }
{
    domains * each
}
