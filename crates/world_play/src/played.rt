//! What is played.

ghost use Rattle.std.specs.Prelude.{◌≡◌, [], option_map, unwrap_or, slice_get, length, IfOk};
ghost use Rattle.filter_table.specs.TableRows.{active_rows};
ghost use Rattle.dots_settings.specs.Settings.{SettingsValue};
ghost use Rattle.dots_client.specs.Client.{ClientValue};
ghost use Rattle.dots_machine.specs.Machine.{State};
ghost use Rattle.dots_world.specs.Worlds.{World};
ghost use Rattle.world_play.specs.Playing.{PlaysAs};
ghost use Rattle.world_play.specs.Rows.{rows_of};

use crate::parties::Parties;
use crate::passing::GatewaySide;
use crate::serving::ServerSide;
use dots_client::{ClientCore, Granted};
use dots_host::Act;
use dots_lists::NoMemory;
use dots_world::Packet;
use filter_table::FilterTable;
use std::alloc::Global;
use std::marker::Model;

/// A world that was played: its parties, and all that was sent.
#[derive(Drop)]
pub struct Played {
    pub(crate) alloc: Global,
    pub(crate) parties: Parties,
    /// In seconds.
    pub(crate) time: u64,
    pub(crate) server: ServerSide,
    pub(crate) gateway: GatewaySide,
    pub(crate) clients: Vec<ClientCore>,
    pub(crate) packets: Vec<Packet>,
}

impl Model for Played {
    ghost use Rattle.world_play.specs.Playing.{PlayedValue};

    ghost Value = { PlayedValue };

    ghost view = { λ played. record {
      parties = played.parties;
      time = played.time;
      server = played.server;
      gateway = played.gateway;
      clients = played.clients.items;
      packets = played.packets.items;
    } };
}

impl Played {
    /// The clients, in the plan's order.
    pub fn clients(&self) -> &[ClientCore]
        ensures { result.now ≡ self.now.clients }
    {
        self.clients.as_slice()
    }

    /// What the client at a place has as granted, in the order of the mids; nothing where there is no such client.
    pub fn ledger(&self, place: u32) -> &[Granted]
        ensures { result.now ≡ unwrap_or (option_map (λ (client : ClientValue). client.ledger) (slice_get self.now.clients place)) [] }
    {
        match self.clients.as_slice().get(place as usize) {
            Some(client) => client.ledger(),
            None => &[],
        }
    }

    /// All packets that were sent, in the order of sending.
    pub fn packets(&self) -> &[Packet]
        ensures { result.now ≡ self.now.packets }
    {
        self.packets.as_slice()
    }

    /// The events that the server took, and what it sent.
    pub fn acts(&self) -> &[Act]
        ensures { result.now ≡ self.now.server.acts.acts }
    {
        self.server.acts.acts()
    }

    /// How many rows of mitigations filter at the server. There is no memory for more than can be counted.
    pub fn rows(&self) -> Result<usize, NoMemory>
        ensures { IfOk result (λ rows. (settings : SettingsValue) (world : World State) → PlaysAs settings self.now world → rows ≡ rows_of world.server) }
    {
        count_rows(self.server.server.registry().filters())
    }
}

/// How many rows of mitigations filter.
fn count_rows(table: &FilterTable) -> Result<usize, NoMemory>
    ensures { IfOk result (λ rows. rows ≡ length (active_rows table.now.scrubs)) }
{
    let mut rows = 0;
    for _row in table.scrubs() {
        if rows == usize::MAX {
            return Err(NoMemory);
        }
        rows += 1;
    }
    Ok(rows)
}
