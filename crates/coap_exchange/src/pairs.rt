//! Where peers stand with the domains that they may act for.

ghost use Rattle.std.specs.Prelude.{◌≡◌, position, IfOk};
ghost use Rattle.std.specs.List.{list_any};
ghost use Rattle.coap_exchange.specs.Pairs.{is_pair, pairs_of, AreFoundFrom};

use crate::pair::{Pair, pairs_of};
use dots_lists::NoMemory;
use dots_settings::Settings;
use std::alloc::Global;
use std::collections::HashMap;
use std::marker::Model;

/// Each peer of the settings with each domain that it may act for, in the order of the settings. A pair is found at once, by its hash.
#[derive(Drop)]
pub struct Pairs {
    pairs: Vec<Pair>,
    /// The place of each pair.
    places: HashMap<Pair, usize>,
}

impl Model for Pairs {
    ghost use Rattle.std.specs.Prelude.{List};
    ghost use Rattle.coap_exchange.specs.declared.pair.Pair.{Pair};
    ghost use Rattle.coap_exchange.specs.Pairs.{AreFoundFrom};

    ghost Value = { List Pair };

    ghost view = { λ p. p.pairs.items };

    ghost invariant = { λ p. AreFoundFrom 0 p.places.entries p.pairs.items };
}

impl Pairs {
    /// Those of the settings: a client with its own domain, and a gateway with all and with 65,535, which stands for its own
    /// session. This is the only call that takes memory.
    pub fn new(alloc: Global, settings: &Settings) -> Result<Self, NoMemory>
        ensures { IfOk result (λ made. made ≡ pairs_of settings.now) }
    {
        let pairs = pairs_of(alloc, settings)?;
        let places = places_of(alloc, pairs.as_slice())?;
        Ok(Pairs { pairs, places })
    }

    /// All of them.
    pub fn pairs(&self) -> &[Pair]
        ensures { result.now ≡ self.now }
    {
        self.pairs.as_slice()
    }

    /// Whether this peer may act for this domain.
    pub fn holds(&self, peer: u32, domain: u16) -> bool
        ensures { result ≡ list_any (is_pair peer domain) self.now }
    {
        self.place(peer, domain).is_some()
    }

    /// The place of this peer with this domain.
    pub fn place(&self, peer: u32, domain: u16) -> Option<usize>
        ensures { result ≡ position (is_pair peer domain) self.now }
    {
        let pair = Pair { peer, domain };
        self.places.get(&pair).copied()
    }
}

/// The place of each pair. They are entered from the last to the first, so that the first of two that are the same counts.
fn places_of(alloc: Global, pairs: &[Pair]) -> Result<HashMap<Pair, usize>, NoMemory>
    ensures { IfOk result (λ places. AreFoundFrom 0 places.entries pairs.now) }
{
    let mut places = HashMap::new(alloc);
    let mut place = pairs.len();
    while place > 0 {
        place -= 1;
        places.insert(pairs[place], place)?;
    }
    Ok(places)
}
