//! Reading bodies of the data channel, again and again.

ghost use Rattle.std.specs.Prelude.{◌≡◌, Some, Ok, IfSome};
ghost use Rattle.serde_json.specs.Data.{Data};
ghost use Rattle.serde_json.specs.Read.{read};
ghost use Rattle.serde_json.specs.View.{view};
ghost use Rattle.list_json.specs.Steps.{Gives};
ghost use Rattle.dots_bench.specs.Sizes.{size_in, entries_in, prefixes_in};

use anyhow::{Result, bail};
use data_channel::{acl_body, alias_body};
use list_json::{JsonRoom, ListFault, read_json};
use serde_json::Value;
use std::alloc::Global;

/// Reads the bytes as JSON and then as the body of an alias or of an access list, in turns of the two copies, so often, and adds
/// up their sizes.
pub fn repeat_json(alloc: Global, copies: [&[u8]; 2], times: u64) -> Result<u64> {
    let mut room = JsonRoom::new(alloc);
    sum_of_sizes(alloc, &mut room, copies, times)
}

/// The same in this room.
fn sum_of_sizes(alloc: Global, room: &mut JsonRoom, copies: [&[u8]; 2], times: u64) -> Result<u64> {
    let mut sum: u64 = 0;
    for turn in 0..times {
        match read_body(alloc, room, copies[(turn % 2) as usize]) {
            Some(size) => sum = sum.wrapping_add(size),
            None => bail!("no body of an alias or of an access list"),
        }
    }
    Ok(sum)
}

/// The size of the alias or of the access list in a body; None where it has neither, or memory ran out.
fn read_body(alloc: Global, room: &mut JsonRoom, bytes: &[u8]) -> Option<u64>
    ensures { IfSome result (λ size. (d : Data) × (read bytes.now ≡ Some d) × (size_in d ≡ Ok size)) }
{
    let value = read_json(alloc, room, bytes).ok()?;
    size_of(alloc, &value).ok()
}

/// The size of the access list in a body, where it has one, and else of the alias.
fn size_of(alloc: Global, body: &Value) -> Result<u64, ListFault>
    ensures { Gives result (size_in (view body.now)) }
{
    if body.get("ietf-dots-data-channel:acl").is_some() {
        return entries_in(alloc, body);
    }
    prefixes_in(alloc, body)
}

/// How many entries the access list in a body has.
fn entries_in(alloc: Global, body: &Value) -> Result<u64, ListFault>
    ensures { Gives result (entries_in (view body.now)) }
{
    match acl_body(alloc, body) {
        Ok(acl) => Ok(acl.aces.items().len() as u64),
        Err(fault) => Err(fault),
    }
}

/// How many prefixes the alias in a body has.
fn prefixes_in(alloc: Global, body: &Value) -> Result<u64, ListFault>
    ensures { Gives result (prefixes_in (view body.now)) }
{
    match alias_body(alloc, body) {
        Ok(alias) => {
            let count = alias.asked.prefixes.items().len() as u64;
            drop(alias);
            Ok(count)
        }
        Err(fault) => Err(fault),
    }
}
