//! What a request asks for, and what is held of its client.

ghost use Rattle.std.specs.Prelude.{◌≡◌};
ghost use Rattle.conflict_rules.specs.Requests.{is_of_another};

use acl_lists::{Alias, Asked};
use std::marker::Model;

/// A request for a mitigation.
#[derive(Drop)]
pub struct PutRequest<'a> {
    /// Who asks.
    pub peer: u32,
    /// The client's name in the domain.
    pub cuid: &'a [u8],
    pub mid: u32,
    pub asked: &'a Asked,
    /// The lifetime in seconds, from 1 on, or -1 for an indefinite one.
    pub lifetime: i32,
    /// Whether it is to filter at once, and not only while the signal of the client is lost (RFC 9132, section 4.4.1:
    /// `trigger-mitigation`).
    pub trigger: bool,
}

impl<'a> Model for PutRequest<'a> {
    ghost use Rattle.conflict_rules.specs.Requests.{Request};

    ghost Value = { Request };

    ghost view = { λ request. record {
      peer = request.peer;
      cuid = request.cuid.now;
      mid = request.mid;
      asked = request.asked.now;
      lifetime = request.lifetime;
      trigger = request.trigger;
    } };
}

/// What is held of a client.
#[derive(Drop)]
pub struct Client<'a> {
    /// The peer that registered it; None where it isn't registered.
    pub registrant: Option<u32>,
    /// Its aliases.
    pub aliases: &'a [Alias],
}

impl<'a> Model for Client<'a> {
    ghost use Rattle.conflict_rules.specs.Requests.{ClientValue};

    ghost Value = { ClientValue };

    ghost view = { λ client. record {
      registrant = client.registrant;
      aliases = client.aliases.now;
    } };
}

impl Client<'_> {
    /// Whether another peer than this one registered it.
    pub(crate) fn is_of_another(&self, peer: u32) -> bool
        ensures { result ≡ is_of_another peer self.now }
    {
        match self.registrant {
            Some(registrant) => registrant != peer,
            None => false,
        }
    }
}
