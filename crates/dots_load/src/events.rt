//! The events of a generated run.

ghost use Rattle.std.specs.Prelude.{◌≡◌, [], true, IfOk, OnOk};
ghost use Rattle.dots_host.specs.Memory.{is_given};
ghost use Rattle.dots_host.specs.Calls.{no_calls};
ghost use Rattle.dots_load.specs.Draws.{next, high};
ghost use Rattle.dots_load.specs.Events.{event_by, events_to, load_events};

use crate::bodies::scope_body;
use crate::draws::Draws;
use crate::requests::{delete_one, get_all, put_one};
use dots_host::{Event, MemoryHost};
use dots_lists::NoMemory;
use std::alloc::Global;

/// How many events come before End.
const EVENTS: u16 = 20_000;

/// The time of the first event, in seconds.
const FIRST_TIME: u64 = 1000;

/// The bytes of the disk: 8,192 for each of the slots of both halves and for the header.
const DISK_SIZE: u64 = 8192 * 7349;

/// A host with an empty disk, to which the events of a seed come.
pub fn loaded_host(alloc: Global, seed: u64) -> Result<MemoryHost, NoMemory>
    ensures coming { IfOk result (λ host. host.coming ≡ load_events seed) }
    ensures calls { IfOk result (λ host. (host.calls ≡ no_calls) × (host.faults ≡ 0) × (host.disk.faults ≡ 0)) }
    ensures acts { IfOk result (λ host. (host.disk.acts ≡ []) × (host.disk.whole ≡ true)) }
    ensures disk { IfOk result (λ host. (host.disk.extent ≡ DISK_SIZE) × (host.disk.base ≡ [])) }
{
    let mut host = MemoryHost::new(alloc, DISK_SIZE)?;
    push_events(alloc, seed, EVENTS, &mut host)?;
    Ok(host)
}

/// Lets so many events of a seed come to the host.
fn push_events(alloc: Global, seed: u64, count: u16, host: &mut MemoryHost) -> Result<(), NoMemory>
    requires { host.old.coming ≡ [] }
    ensures { OnOk result (host.new ≡ record host.old { coming = events_to seed count }) }
{
    let mut draws = Draws::new(seed);
    for k in 0..count {
        let event = drawn_event(alloc, k, &mut draws)?;
        host.push(event, FIRST_TIME + u64::from(k))?;
    }
    Ok(())
}

/// Event k, by the next four draws.
fn drawn_event(alloc: Global, k: u16, draws: &mut Draws) -> Result<Event, NoMemory>
    ensures number { draws.new.number ≡ next (next (next (next draws.old.number))) }
    ensures event { IfOk result (λ event. event ≡ event_by k (high (next draws.old.number)) (high (next (next draws.old.number)))
        (high (next (next (next draws.old.number)))) (high (next (next (next (next draws.old.number)))))) }
    ensures given { IfOk result (λ event. is_given event ≡ true) }
{
    let a = draws.draw();
    let b = draws.draw();
    let c = draws.draw();
    let d = draws.draw();
    event_of(alloc, k, a, b, c, d)
}

/// Event k, by four draws.
fn event_of(alloc: Global, k: u16, a: u32, b: u32, c: u32, d: u32) -> Result<Event, NoMemory>
    ensures event { IfOk result (λ event. event ≡ event_by k a b c d) }
    ensures given { IfOk result (λ event. is_given event ≡ true) }
{
    let from = a % 8;
    let kind = b % 8;
    let mids = u32::from(k) + 1;
    if kind < 5 {
        let body = scope_body(alloc, from % 4, c % 256, 60 + d % 600)?;
        let bytes = put_one(alloc, k, from, mids, body.items())?;
        return Ok(Event::Datagram { from, bytes });
    }
    if kind == 5 {
        let bytes = delete_one(alloc, k, from, 1 + c % mids)?;
        return Ok(Event::Datagram { from, bytes });
    }
    if kind == 6 {
        let bytes = get_all(alloc, k, from)?;
        return Ok(Event::Datagram { from, bytes });
    }
    Ok(Event::Tick)
}
