//! Peers and the domains that they may act for.

ghost use Rattle.std.specs.Prelude.{◌≡◌, ◌++◌, IfOk};
ghost use Rattle.coap_exchange.specs.Pairs.{pairs_of, pairs_of_role, pairs_with_each};

use dots_lists::NoMemory;
use dots_settings::{NO_DOMAIN, Role, Settings};
use std::alloc::Global;

/// A peer and a domain that it may act for.
#[derive(Clone, Copy, PartialEq, Eq, Hash)]
pub struct Pair {
    pub peer: u32,
    /// The domain by its number in the settings; 65,535 for a gateway's own session.
    pub domain: u16,
}

/// Each peer of the settings with each domain that it may act for, in the order of the settings: a client with its own,
/// and a gateway with all and with 65,535, which stands for its own session.
pub fn pairs_of(alloc: Global, settings: &Settings) -> Result<Vec<Pair>, NoMemory>
    ensures { IfOk result (λ pairs. pairs.items ≡ pairs_of settings.now) }
{
    let mut pairs = Vec::new(alloc);
    let domains = settings.domains();
    for row in settings.peers() {
        push_pairs(&mut pairs, domains, row.peer, row.role)?;
    }
    Ok(pairs)
}

fn push_pairs(pairs: &mut Vec<Pair>, domains: u16, peer: u32, role: Role) -> Result<(), NoMemory>
    ensures { IfOk result (λ _. pairs.new.items ≡ pairs.old.items ++ pairs_of_role domains peer role) }
{
    match role {
        Role::Stranger => Ok(()),
        Role::Client(domain) => {
            pairs.push(Pair { peer, domain })?;
            Ok(())
        }
        Role::Gateway => {
            push_each(pairs, domains, peer)?;
            let domain = NO_DOMAIN;
            pairs.push(Pair { peer, domain })?;
            Ok(())
        }
    }
}

/// The peer with each domain.
fn push_each(pairs: &mut Vec<Pair>, domains: u16, peer: u32) -> Result<(), NoMemory>
    ensures { IfOk result (λ _. pairs.new.items ≡ pairs.old.items ++ pairs_with_each peer domains) }
{
    for domain in 0..domains {
        pairs.push(Pair { peer, domain })?;
    }
    Ok(())
}
