//! The endpoints of a peer.

ghost use Rattle.std.specs.Prelude.{◌≡◌, [], None, IfOk};
ghost use Rattle.dots_edge.specs.Headers.{head_in};
ghost use Rattle.dots_edge.specs.Returns.{after_received, after_sent, goes_to, is_answered};

use crate::getter::Getter;
use crate::getters::{MAX_GETTERS, note, renew};
use crate::head::{Head, read_head};
use crate::way::Way;
use dots_lists::NoMemory;
use std::alloc::Global;
use std::marker::Model;

/// Where the last datagram of a peer came from, and from where its GETs came.
#[derive(Drop)]
pub struct Endpoints {
    last: Option<Way>,
    /// The header of its last datagram, while that has no reply.
    asked: Option<Head>,
    getters: Vec<Getter>,
}

impl Model for Endpoints {
    ghost use Rattle.std.specs.Prelude.{◌≤◌, vec_len, vec_capacity};
    ghost use Rattle.dots_edge.specs.Returns.{Reached};

    ghost Value = { Reached };

    ghost view = { λ endpoints. record { last = endpoints.last; asked = endpoints.asked; getters = endpoints.getters.items } };

    ghost invariant = { λ endpoints. (136 ≤ vec_capacity endpoints.getters) × (vec_len endpoints.getters ≤ 136) };
}

impl Endpoints {
    /// Those of a peer of which nothing came yet, but that is known to be there. This is the only call that takes memory.
    pub fn new(alloc: Global, known: Option<Way>) -> Result<Endpoints, NoMemory>
        ensures { IfOk result (λ made. made ≡ record { last = known; asked = None; getters = [] }) }
    {
        let getters = Vec::with_capacity(alloc, MAX_GETTERS)?;
        Ok(Endpoints {
            last: known,
            asked: None,
            getters,
        })
    }

    /// Where the last datagram of the peer came from, or where it is known to be.
    pub fn last(&self) -> Option<Way>
        ensures { result ≡ self.now.last }
    {
        self.last
    }

    /// A datagram of the peer came this way.
    pub fn receive(&mut self, way: Way, bytes: &[u8])
        ensures { self.new ≡ after_received way (head_in bytes.now) self.old }
    {
        self.last = Some(way);
        self.asked = read_head(bytes);
        if let Some(head) = &self.asked
            && head.is_get()
        {
            let token = head.token;
            note(&mut self.getters, Getter { token, way });
        }
    }

    /// Where a datagram goes that is sent now. None where nothing came of the peer and it isn't known to be anywhere.
    pub fn way_for(&mut self, bytes: &[u8]) -> Option<Way>
        ensures way { result ≡ goes_to (head_in bytes.now) self.old }
        ensures sent { self.new ≡ after_sent (head_in bytes.now) self.old }
    {
        let Some(head) = read_head(bytes) else {
            return self.last;
        };
        if is_answered(&self.asked, &head) {
            self.asked = None;
            return self.last;
        }
        if !head.is_response() {
            return self.last;
        }
        renew(&mut self.getters, head.token.bytes()).or(self.last)
    }
}

/// Whether a datagram with the header is the reply to what was asked.
fn is_answered(asked: &Option<Head>, head: &Head) -> bool
    ensures { result ≡ is_answered asked.now head.now }
{
    match asked {
        Some(asked) => head.is_reply_to(asked),
        None => false,
    }
}
