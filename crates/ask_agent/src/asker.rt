//! The agent.

ghost use Rattle.std.specs.Prelude.{◌≡◌, ◌≤◌, ◌<◌, ◌^◌, ℕ, List, length, max, true, false, is_some, Some, IfOk};
ghost use Rattle.dots_host.specs.Acts.{IsWithin, event_of};
ghost use Rattle.dots_host.specs.declared.out.OwnedOut.{OwnedOut};
ghost use Rattle.dots_host.specs.Sending.{Handed};
ghost use Rattle.dots_client.specs.declared.client.TheConstants.{MAX_MID};
ghost use Rattle.ask_agent.specs.File.{IsMidFit};
ghost use Rattle.ask_agent.specs.Asking.{AskState, step, at_time, next_ask, AsksNext, AsksDue, HandsOut, ReceivesDatagram, ReceivesEvent, Takes, to_server, start_of};
ghost use Rattle.ask_agent.specs.Protecting.{is_over};
ghost use Rattle.ask_agent.specs.Unmoved.{step_ends, step_fails};

use crate::firsts::Firsts;
use crate::making::make;
use crate::planned::Planned;
use crate::refusal::Refusal;
use crate::sending::send_due;
use crate::settings::AskSettings;
use crate::unsent::Unsent;
use dots_client::{ClientCore, Heard};
use dots_host::{Agent, Got, NoMemory, What, Wire, send_to};
use std::alloc::Global;
use std::marker::Model;

/// The most requests that wait for their answers at a time.
pub const ROOM: usize = 16;

/// A client with what it asks and when.
#[derive(Drop)]
pub struct Asker {
    /// The peer that is its server.
    server: u32,
    /// In seconds.
    time: u64,
    core: ClientCore,
    asks: dots_lists::List<Planned>,
    /// How many of the asks were reached.
    reached: usize,
    /// Those of them that weren't sent, with room for each.
    unsent: Vec<Unsent>,
    /// The last request that was refused.
    refused: Option<Refusal>,
}

impl Model for Asker {
    ghost use Rattle.std.specs.Prelude.{length, vec_len, vec_capacity};
    ghost use Rattle.ask_agent.specs.Asking.{AskState, HasRoom};

    ghost Value = { AskState };

    ghost view = { λ asker. record {
      server = asker.server;
      time = asker.time;
      client = asker.core;
      asks = asker.asks;
      reached = asker.reached;
      unsent = asker.unsent.items;
      refused = asker.refused;
    } };

    ghost invariant = { λ asker. HasRoom asker.reached (length asker.asks) (vec_len asker.unsent) (vec_capacity asker.unsent) };
}

impl Asker {
    /// The client of these settings, at time 0. This is the only call that takes memory for itself.
    pub fn new(alloc: Global, settings: AskSettings, firsts: Firsts) -> Result<Self, NoMemory>
        requires mid { IsMidFit settings }
        requires first { firsts.mid ≤ MAX_MID }
        ensures { IfOk result (λ asker. asker ≡ start_of settings firsts) }
    {
        let unsent = Vec::with_capacity(alloc, settings.asks.items().len())?;
        let mid = settings.mid.unwrap_or(firsts.mid);
        let number = settings.number.unwrap_or(firsts.number);
        let AskSettings {
            server,
            cuid,
            asks,
            ..
        } = settings;
        let core = ClientCore::starting(alloc, cuid, ROOM, mid, number)?;
        Ok(Asker {
            server,
            time: 0,
            core,
            asks,
            reached: 0,
            unsent,
            refused: None,
        })
    }

    /// The asks that were reached and not sent, in order.
    pub fn unsent(&self) -> &[Unsent]
        ensures { result.now ≡ self.now.unsent }
    {
        self.unsent.as_slice()
    }

    /// The last request that was refused.
    pub fn refused(&self) -> Option<Refusal>
        ensures { result ≡ self.now.refused }
    {
        self.refused
    }

    /// Whether all asks were reached and no request waits for its answer.
    pub fn is_over(&self) -> bool
        ensures { result ≡ is_over self.now }
    {
        self.reached >= self.asks.items().len() && self.core.is_idle()
    }

    /// The client.
    pub fn client(&self) -> &ClientCore
        ensures { result.now ≡ self.now.client }
    {
        &self.core
    }

    /// Takes an event that isn't the last, its bytes at the front of the room.
    fn take<W: Wire>(&mut self, wire: &mut W, got: &Got, room: &[u8])
        requires { IsWithin got.now.what (length room.now) }
        ensures takes { (outs : List OwnedOut) × Takes self.old (event_of got.now.what room.now) got.now.at outs self.new
            × Handed (W.acts wire.old) (W.moment wire.old) (W.acts wire.new) (W.moment wire.new) outs }
        ensures faults { W.faults wire.new ≡ W.faults wire.old }
        ensures leads { W.leads wire.old wire.new }
    {
        self.pass(got.at);
        self.receive(wire, got.what, room);
        self.ask_due();
        self.hand_out(wire);
    }

    /// Lets the time come that stands beside an event. It never falls.
    fn pass(&mut self, at: u64)
        ensures { self.new ≡ at_time self.old at }
    {
        self.time = self.time.max(at);
    }

    /// Hears what came, where it is a datagram of the server.
    fn receive<W: Wire>(&mut self, wire: &mut W, what: What, room: &[u8])
        requires { IsWithin what (length room.now) }
        ensures hears { (answers : List (List ℕ)) × ReceivesEvent self.old (event_of what room.now) answers self.new
            × Handed (W.acts wire.old) (W.moment wire.old) (W.acts wire.new) (W.moment wire.new) (to_server self.old.server answers) }
        ensures server { self.new.server ≡ self.old.server }
        ensures faults { W.faults wire.new ≡ W.faults wire.old }
        ensures leads { W.leads wire.old wire.new }
    {
        match what {
            What::Datagram { from, len } => {
                if from == self.server {
                    return self.receive_datagram(wire, &room[..len]);
                }
            }
            _ => {}
        }
    }

    /// Hears a datagram of the server, and answers a heartbeat.
    fn receive_datagram<W: Wire>(&mut self, wire: &mut W, bytes: &[u8])
        ensures hears { (answers : List (List ℕ)) × ReceivesDatagram self.old bytes.now answers self.new
            × Handed (W.acts wire.old) (W.moment wire.old) (W.acts wire.new) (W.moment wire.new) (to_server self.old.server answers) }
        ensures server { self.new.server ≡ self.old.server }
        ensures faults { W.faults wire.new ≡ W.faults wire.old }
        ensures leads { W.leads wire.old wire.new }
    {
        match self.core.got(bytes, self.time) {
            Heard::Beat(answer) => {
                send_to(wire, self.server, answer.bytes());
                return;
            }
            Heard::Refused { mid, code } => {
                self.refused = Some(Refusal { mid, code });
                return;
            }
            _ => return,
        }
    }

    /// Makes the asks whose time is reached, in order.
    fn ask_due(&mut self)
        ensures asks { AsksDue self.old self.new }
        ensures server { self.new.server ≡ self.old.server }
    {
        while self.is_due() {
            self.ask_next();
        }
    }

    /// Whether the time of the next ask is reached.
    fn is_due(&self) -> bool
        ensures { result ≡ is_some (next_ask self.now) }
    {
        match self.asks.items().get(self.reached) {
            Some(planned) => planned.at <= self.time,
            None => false,
        }
    }

    /// Makes the next ask, whose time is reached.
    fn ask_next(&mut self)
        requires { is_some (next_ask self.old) ≡ true }
        ensures { AsksNext self.old self.new }
    {
        let planned = &self.asks.items()[self.reached];
        self.reached += 1;
        match make(&mut self.core, &planned.ask, self.time) {
            Some(why) => {
                self.unsent.push_reserved(Unsent {
                    number: self.reached,
                    why,
                });
                return;
            }
            None => return,
        }
    }

    /// Sends all that is due.
    fn hand_out<W: Wire>(&mut self, wire: &mut W)
        ensures hands { (messages : List (List ℕ)) × HandsOut self.old messages self.new
            × Handed (W.acts wire.old) (W.moment wire.old) (W.acts wire.new) (W.moment wire.new) (to_server self.old.server messages) }
        ensures faults { W.faults wire.new ≡ W.faults wire.old }
        ensures leads { W.leads wire.old wire.new }
    {
        send_due(&mut self.core, wire, self.server, self.time);
    }
}

impl<W: Wire> Agent<W> for Asker {
    ghost step = { step };

    ghost over = { λ _. false };

    /// A client goes on until the end.
    fn is_over(&self) -> bool {
        false
    }

    fn turn(&mut self, wire: &mut W, got: &Got, room: &[u8]) {
        match got.what {
            What::End => return,
            What::Failed => return,
            _ => return self.take(wire, got, room),
        }
    }

    ghost ends = { step_ends };

    ghost fails = { step_fails };
}
