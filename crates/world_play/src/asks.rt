//! What the clients of a generated world ask for.

ghost use Rattle.std.specs.Prelude.{◌≡◌, IfOk};
ghost use Rattle.ip_scope.specs.declared.family.Family.TheVariants.{V4};
ghost use Rattle.ip_scope.specs.Prefix.{prefix_of};
ghost use Rattle.world_play.specs.Asks.{address_for, scope_at, ask_for};

use acl_lists::{Asked, ByteList, NameList, PortList, PrefixList};
use dots_client::Ask;
use dots_lists::NoMemory;
use ip_scope::{Addr, Family, Prefix};
use std::alloc::Global;

/// 192.0.2.0.
const NET1: u32 = 0xc000_0200;

/// 198.51.100.0.
const NET2: u32 = 0xc633_6400;

/// In seconds.
const LIFETIME: i32 = 600;

/// What the client at a place asks for by a draw.
pub fn ask_for(alloc: Global, place: u32, draw: u32) -> Result<Ask, NoMemory>
    ensures { IfOk result (λ ask. ask ≡ ask_for place draw) }
{
    let asked = scope_at(alloc, address_for(place, draw))?;
    Ok(Ask::New {
        asked,
        lifetime: LIFETIME,
    })
}

/// The address that the client at a place asks for by a draw.
fn address_for(place: u32, draw: u32) -> u32
    ensures { result ≡ address_for place draw }
{
    if place == 0 {
        return NET1 + draw % 128;
    }
    if place == 1 {
        return NET2 + draw % 256;
    }
    NET1 + 128 + draw % 128
}

/// One address, every port and every protocol.
fn scope_at(alloc: Global, address: u32) -> Result<Asked, NoMemory>
    ensures { IfOk result (λ asked. asked ≡ scope_at address) }
{
    let mut prefixes = PrefixList::new(alloc);
    prefixes.push(prefix_at(address))?;
    Ok(Asked {
        prefixes,
        ports: PortList::new(alloc),
        protocols: ByteList::new(alloc),
        names: NameList::new(alloc),
        aliases: NameList::new(alloc),
    })
}

/// The prefix of one address.
fn prefix_at(address: u32) -> Prefix
    ensures { result ≡ prefix_of V4 address 32 }
{
    let addr = Addr {
        family: Family::V4,
        number: u128::from(address),
    };
    match Prefix::new(addr, 32) {
        Some(prefix) => prefix,
        None => unreachable!(),
    }
}
