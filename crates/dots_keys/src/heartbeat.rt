//! The body of a heartbeat (RFC 9132, section 4.7).

ghost use Rattle.std.specs.Prelude.{◌≡◌};
ghost use Rattle.cbor_profile.specs.ItemTrees.{tree_of};
ghost use Rattle.dots_keys.specs.Fields.{sole_field};
ghost use Rattle.dots_keys.specs.Heartbeats.{peer_status, heartbeat_of};

use crate::fields::Fields;
use crate::refusing::invalid;
use crate::reject::Reject;
use cbor_profile::Item;

/// `heartbeat` and `peer-hb-status`.
const HEARTBEAT: u8 = 49;

const PEER_HB_STATUS: u8 = 51;

fn peer_status(item: &Item) -> Result<bool, Reject>
    ensures { result ≡ peer_status (tree_of item.now) }
{
    match item {
        Item::Bool(heard) => Ok(*heard),
        _ => Err(invalid(PEER_HB_STATUS)),
    }
}

/// The status in the map under `heartbeat`.
fn heartbeat_status(item: &Item) -> Result<bool, Reject>
    ensures { result ≡ sole_field 49 51 peer_status (tree_of item.now) }
{
    let mut fields = Fields::of(item, HEARTBEAT)?;
    let value = fields.first(PEER_HB_STATUS)?;
    let heard = peer_status(value)?;
    fields.end()?;
    Ok(heard)
}

/// The `peer-hb-status` of a heartbeat.
pub fn heartbeat_of(item: &Item) -> Result<bool, Reject>
    ensures { result ≡ heartbeat_of (tree_of item.now) }
{
    let mut fields = Fields::of(item, 0)?;
    let value = fields.first(HEARTBEAT)?;
    let heard = heartbeat_status(value)?;
    fields.end()?;
    Ok(heard)
}
