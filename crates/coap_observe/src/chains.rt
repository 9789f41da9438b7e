//! The keys of each peer's observers.

ghost use Rattle.std.specs.Prelude.{◌≡◌, ◌<◌, ◌∷◌, [], true, map, length, position, slice_index_or, IfOk};
ghost use Rattle.dots_history.specs.Histories.{tally};
ghost use Rattle.coap_observe.specs.Orders.{has_slot};
ghost use Rattle.coap_observe.specs.Chains.{ChainsValue, is_chain_of, chain_at, keys_in, room_in, is_pair_of, room_for, empty_chains, one_chained, one_left, pair_peer, IsNowhere, AreFirsts, peer_chain};

use crate::rings::Rings;
use coap_exchange::Pair;
use dots_lists::NoMemory;
use std::alloc::Global;
use std::collections::HashMap;
use std::marker::Model;

/// A peer, and how many observers it may have.
#[derive(Clone, Copy)]
struct Chain {
    peer: u32,
    room: usize,
}

/// The keys of each peer's observers, in the order of registration. The chain of a peer is found at once, by its hash, so those of a
/// peer are found without passing over the others, and one goes without passing over the others of its peer.
#[derive(Drop)]
pub struct Chains {
    chains: Vec<Chain>,
    /// The keys of each chain.
    keys: Rings,
    /// Where the chain of each peer stands.
    firsts: HashMap<u32, usize>,
}

impl Model for Chains {
    ghost use Rattle.std.specs.Prelude.{◌≡◌, length, map};
    ghost use Rattle.coap_observe.specs.Chains.{ChainsValue, chains_of, peer_in, AreFirsts};

    ghost Value = { ChainsValue };

    ghost view = { λ c. record { limit = c.keys.room; chains = chains_of c.chains.items c.keys.rings } };

    ghost invariant = { λ c. record {
      firsts : AreFirsts 0 c.firsts.entries (map peer_in c.chains.items);
      paired : length c.chains.items ≡ length c.keys.rings;
    } };
}

impl Chains {
    /// No keys, and room for so many of each of these pairs, which are numbers below the limit. This is the only call that takes memory.
    pub fn new(alloc: Global, pairs: &[Pair], room: usize, limit: usize) -> Result<Self, NoMemory>
        ensures { IfOk result (λ made. made ≡ record { limit = limit; chains = empty_chains pairs.now room limit pairs.now }) }
    {
        let chains = chains_for(alloc, pairs, room)?;
        let keys = Rings::new(alloc, limit, pairs.len())?;
        let firsts = firsts_of(alloc, pairs)?;
        Ok(Chains {
            chains,
            keys,
            firsts,
        })
    }

    /// Where the chain of this peer stands.
    pub fn place(&self, peer: u32) -> Option<usize>
        ensures { result ≡ position (is_chain_of peer) self.now.chains }
    {
        self.firsts.get(&peer).copied()
    }

    /// How many keys the chain at this place has.
    pub fn len(&self, at: usize) -> usize
        requires { at < length self.now.chains }
        ensures { result ≡ length (chain_at at self.now.chains).keys }
    {
        self.keys.len(at)
    }

    /// Where the chain at this place begins: the key behind it is the first one.
    pub fn start(&self, at: usize) -> usize
        requires { at < length self.now.chains }
        ensures { result ≡ (chain_at at self.now.chains).start }
    {
        self.keys.start(at)
    }

    /// The key at this place of a chain, which stands behind the one before it, or behind the start.
    pub fn behind(&self, at: usize, key: usize, place: usize) -> usize
        requires at { at < length self.now.chains }
        requires there { place < length (chain_at at self.now.chains).keys }
        requires before { key ≡ slice_index_or ((chain_at at self.now.chains).start ∷ (chain_at at self.now.chains).keys) place 0 }
        ensures { result ≡ slice_index_or (chain_at at self.now.chains).keys place 0 }
    {
        self.keys.behind(at, key, place)
    }

    /// One more key of this peer, which is behind all others.
    pub fn push(&mut self, peer: u32, key: usize)
        requires room { length (keys_in peer self.old.chains) < room_in peer self.old.chains }
        requires below { key < self.old.limit }
        requires new { IsNowhere key self.old.chains }
        ensures { self.new ≡ record { limit = self.old.limit; chains = one_chained peer key self.old.chains } }
    {
        match self.place(peer) {
            Some(at) => {
                // There are fewer keys than this, so one more can be counted.
                let _room = self.chains[at].room;
                self.keys.push(at, key);
            }
            None => {}
        }
    }

    /// This key of the peer goes.
    pub fn depart(&mut self, peer: u32, key: usize)
        requires { has_slot key (keys_in peer self.old.chains) ≡ true }
        ensures others { self.new ≡ record { limit = self.old.limit; chains = one_left peer key self.old.chains } }
        ensures gone { IsNowhere key self.new.chains }
    {
        match self.place(peer) {
            Some(at) => self.keys.depart(at, key),
            None => {}
        }
    }
}

/// The first place of each peer. They are entered from the last to the first.
fn firsts_of(alloc: Global, pairs: &[Pair]) -> Result<HashMap<u32, usize>, NoMemory>
    ensures { IfOk result (λ firsts. AreFirsts 0 firsts.entries (map pair_peer pairs.now)) }
{
    let mut firsts = HashMap::new(alloc);
    let mut place = pairs.len();
    while place > 0 {
        place -= 1;
        firsts.insert(pairs[place].peer, place)?;
    }
    Ok(firsts)
}

/// A chain for the peer of each pair; the first of a peer's is the one that is used.
fn chains_for(alloc: Global, pairs: &[Pair], room: usize) -> Result<Vec<Chain>, NoMemory>
    ensures { IfOk result (λ chains. chains.items ≡ map (peer_chain pairs.now room) pairs.now) }
{
    let mut chains = Vec::new(alloc);
    for pair in pairs {
        let chain = chain_for(pairs, room, pair.peer)?;
        chains.push(chain)?;
    }
    Ok(chains)
}

fn chain_for(pairs: &[Pair], room: usize, peer: u32) -> Result<Chain, NoMemory>
    ensures { IfOk result (λ chain. chain ≡ record { peer = peer; room = room_for pairs.now room peer }) }
{
    let Some(room) = pairs_with(pairs, peer).checked_mul(room) else {
        return Err(NoMemory);
    };
    Ok(Chain { peer, room })
}

/// How many pairs are of this peer.
fn pairs_with(pairs: &[Pair], peer: u32) -> usize
    ensures { result ≡ tally (is_pair_of peer) pairs.now }
{
    let mut count = 0;
    for pair in pairs {
        if pair.peer == peer {
            count += 1;
        }
    }
    count
}
