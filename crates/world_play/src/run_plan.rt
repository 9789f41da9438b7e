//! The plan of a generated world.

ghost use Rattle.std.specs.Prelude.{◌≡◌, ◌<◌, ◌^◌, IsTrue, IfOk, length};
ghost use Rattle.dots_lists.specs.Name.{is_name};
ghost use Rattle.dots_settings.specs.File.{SettingsAre};
ghost use Rattle.world_play.specs.Parties.{plan_of};
ghost use Rattle.world_play.specs.Plans.{server_text, gateway_text, clients, IsGenerated};

use crate::plan::{ClientList, WorldPlan};
use crate::possible::can_be;
use dots_host::MemorySource;
use dots_lists::{Name, NoMemory};
use dots_settings::{Settings, read_settings};
use dots_world::PlanClient;
use std::alloc::Global;

/// Two domains, three clients and a gateway.
const SERVER_SETTINGS: &[u8] = b"\
domain net1\nprefix net1 192.0.2.0/24\nprefix net1 2001:db8:1::/48\n\
domain net2\nprefix net2 198.51.100.0/24\n\
client 0 net1\nclient 1 net1\nclient 2 net2\ngateway 3\nceiling 86400\n";

/// The same, and whom the gateway asks.
const GATEWAY_SETTINGS: &[u8] = b"\
domain net1\nprefix net1 192.0.2.0/24\nprefix net1 2001:db8:1::/48\n\
domain net2\nprefix net2 198.51.100.0/24\n\
client 0 net1\nclient 1 net1\nclient 2 net2\ngateway 3\nceiling 86400\n\
upstream 9\n";

/// The peer that the gateway is for the server.
const GATEWAY: u32 = 3;

/// The plan of each generated world. One that can't be is taken for want of memory.
pub fn world_plan(alloc: Global) -> Result<WorldPlan, NoMemory>
    ensures generated { IfOk result (λ plan. IsGenerated (plan_of plan)) }
    ensures few { IfOk result (λ plan. length plan.clients < 2 ^ 32) }
{
    let settings = server_settings(alloc)?;
    let gateway_settings = gateway_settings(alloc)?;
    let clients = clients(alloc)?;
    let plan = WorldPlan {
        settings,
        gateway_settings,
        gateway: GATEWAY,
        clients,
    };
    let can = can_be(alloc, &plan)?;
    if !can {
        return Err(NoMemory);
    }
    Ok(plan)
}

fn server_settings(alloc: Global) -> Result<Settings, NoMemory>
    ensures { IfOk result (λ settings. SettingsAre server_text settings) }
{
    settings_of(alloc, SERVER_SETTINGS)
}

fn gateway_settings(alloc: Global) -> Result<Settings, NoMemory>
    ensures { IfOk result (λ settings. SettingsAre gateway_text settings) }
{
    settings_of(alloc, GATEWAY_SETTINGS)
}

/// The settings of a file without a fault; any other is taken for want of memory.
fn settings_of(alloc: Global, file: &[u8]) -> Result<Settings, NoMemory>
    ensures { IfOk result (λ settings. SettingsAre file.now settings) }
{
    let mut source = MemorySource::new(alloc, file)?;
    match read_settings(alloc, &mut source) {
        Ok(settings) => Ok(settings),
        Err(_) => Err(NoMemory),
    }
}

/// Two clients that ask the server, and one that asks the gateway.
fn clients(alloc: Global) -> Result<ClientList, NoMemory>
    ensures { IfOk result (λ list. list ≡ clients) }
{
    let mut list = ClientList::new(alloc);
    list.push(PlanClient {
        peer: 0,
        cuid: name_of(alloc, b"a")?,
        behind: false,
    })?;
    list.push(PlanClient {
        peer: 2,
        cuid: name_of(alloc, b"b")?,
        behind: false,
    })?;
    list.push(PlanClient {
        peer: 1,
        cuid: name_of(alloc, b"c")?,
        behind: true,
    })?;
    Ok(list)
}

/// The name that the bytes are.
fn name_of(alloc: Global, bytes: &[u8]) -> Result<Name, NoMemory>
    requires { IsTrue (is_name bytes.now) }
    ensures { IfOk result (λ name. name ≡ bytes.now) }
{
    match Name::new(alloc, bytes)? {
        Some(name) => Ok(name),
        None => unreachable!(),
    }
}
