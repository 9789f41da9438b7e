//! The gateway.

ghost use Rattle.std.specs.Prelude.{◌≡◌, ◌≤◌, [], length, IfOk};
ghost use Rattle.dots_gateway.specs.declared.gateway.TheConstants.{MAX_WAITING};
ghost use Rattle.dots_gateway.specs.Exchanges.{AreApart, AreRestorable, restored, at_time};
ghost use Rattle.dots_gateway.specs.Gateway.{gateway_at, UpOrLacks, DownOrLacks};
ghost use Rattle.dots_gateway.specs.Routes.{routes_of};
ghost use Rattle.dots_gateway.specs.Steps.{YieldsOf};

use crate::exchange::Exchange;
use crate::exchanges::Exchanges;
use crate::passed::{GatewayFault, Passed};
use crate::requests::{Asking, ask, unread};
use crate::responses::{beat, is_beat, response};
use crate::routes::{Route, domain_for, routes_of};
use coap_message::decode;
use dots_lists::NoMemory;
use dots_settings::Settings;
use std::alloc::Global;
use std::marker::Model;

/// The most exchanges that a gateway may have room for.
pub const MAX_WAITING: usize = 1024;

/// A server-domain gateway (RFC 8811, section 2.2.3).
#[derive(Drop)]
pub struct GatewayCore {
    alloc: Global,
    routes: Vec<Route>,
    /// The peer to which requests are passed on.
    upstream: u32,
    exchanges: Exchanges,
}

impl Model for GatewayCore {
    ghost use Rattle.dots_gateway.specs.Gateway.{GatewayValue};

    ghost Value = { GatewayValue };

    ghost view = { λ core. record { routes = core.routes.items; upstream = core.upstream; exchanges = core.exchanges } };
}

impl GatewayCore {
    /// A gateway for the clients of the settings, with room for so many exchanges. None waits, the time is 0, and the first number
    /// is 1.
    pub fn new(
        alloc: Global,
        settings: &Settings,
        upstream: u32,
        room: usize,
    ) -> Result<Self, NoMemory>
        requires { room ≤ MAX_WAITING }
        ensures { IfOk result (λ core. core ≡ record { routes = routes_of settings.now; upstream = upstream; exchanges = record { room = room; next = 1; time = 0; waiting = [] } }) }
    {
        let routes = routes_of(alloc, settings)?;
        let exchanges = Exchanges::new(alloc, room)?;
        Ok(GatewayCore {
            alloc,
            routes,
            upstream,
            exchanges,
        })
    }

    /// Takes a datagram of a peer that isn't the upstream, at the time `now`, in seconds. What it is answered by itself is a reply to the
    /// peer; a request for a mitigation is passed on, and waits for 247 seconds with its number. After an error the gateway is as the
    /// time alone leaves it.
    pub fn up(&mut self, from: u32, bytes: &[u8], now: u64) -> Result<Passed, GatewayFault>
        ensures { UpOrLacks (gateway_at now self.old) from bytes.now result self.new }
    {
        self.exchanges.pass_time(now);
        let Some(domain) = domain_for(&self.routes, self.upstream, from) else {
            return Ok(Passed::Nothing);
        };
        let Ok(message) = decode(bytes) else {
            return unread(self.alloc, from, bytes);
        };
        let asking = Asking {
            peer: from,
            domain,
            datagram: bytes,
            message: &message,
        };
        ask(self.alloc, &mut self.exchanges, &asking)
    }

    /// Takes a datagram of the upstream, at the time `now`, in seconds. An answer to what was passed on goes to its client, and a
    /// heartbeat (RFC 9132, section 4.7) is answered.
    pub fn down(&mut self, bytes: &[u8], now: u64) -> Passed
        ensures said { DownOrLacks (gateway_at now self.old) bytes.now result }
        ensures after { self.new ≡ gateway_at now self.old }
    {
        self.exchanges.pass_time(now);
        match self.said_of(bytes) {
            Ok(said) => said,
            Err(NoMemory) => Passed::NoMemory,
        }
    }

    /// Exchanges that waited before a crash wait again, in their order, and the next number is the one handed in. Their datagrams were
    /// lost: a request of the same type, Message ID and token counts as one that comes again. Their numbers are from 1 on and rise up to
    /// the next one, their times don't fall, and nothing was passed on before. Takes no memory.
    pub fn restore(&mut self, exchanges: &[Exchange], next: u64)
        requires fresh { self.old.exchanges.next ≡ 1 }
        requires room { length exchanges.now ≤ self.old.exchanges.room }
        requires order { AreRestorable exchanges.now next }
        ensures { self.new ≡ record self.old { exchanges = restored exchanges.now next self.old.exchanges } }
    {
        self.exchanges.restore(exchanges, next);
    }

    /// The time is now `now`, in seconds, unless it was later before. Exchanges that are over go.
    pub fn pass_time(&mut self, now: u64)
        ensures { self.new ≡ gateway_at now self.old }
    {
        self.exchanges.pass_time(now);
    }

    /// How many exchanges wait at the time `now`, in seconds, or at the gateway's own time, if that is later. No two have one number.
    /// Takes no memory.
    pub fn waiting(&self, now: u64) -> usize
        ensures count { result ≡ length (at_time now self.now.exchanges).waiting }
        ensures apart { AreApart self.now.exchanges.waiting }
    {
        self.exchanges.count(now)
    }

    /// What is said of a datagram of the upstream.
    fn said_of(&self, bytes: &[u8]) -> Result<Passed, NoMemory>
        ensures { YieldsOf self.now bytes.now result }
    {
        let Ok(message) = decode(bytes) else {
            return Ok(Passed::Nothing);
        };
        if is_beat(&message) {
            return beat(self.alloc, self.upstream, &message);
        }
        response(self.alloc, &self.exchanges, &message)
    }
}
