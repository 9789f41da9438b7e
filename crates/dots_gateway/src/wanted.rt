//! What a client's message wants of a gateway.

ghost use Rattle.std.specs.Prelude.{◌≡◌, ◌≢◌, ℕ, List, Option, None, Some, IfOk};
ghost use Rattle.dots_keys.specs.Options.{first_critical, values_of};
ghost use Rattle.dots_keys.specs.Paths.{mitigation, resource_at};
ghost use Rattle.dots_keys.specs.Results.{Reads};
ghost use Rattle.dots_gateway.specs.Wanted.{hop_in, refuse_operation, wanted_of};
ghost use Rattle.dots_gateway.specs.WantedValues.{wanted_value, IsPassable, operation_refusal};

use coap_message::Message;
use coap_message::codes::PUT;
use coap_message::option_numbers::HOP_LIMIT;
use dots_keys::head_laws::resource_of_a_path;
use dots_keys::{Reject, Resource, first_critical, read_head, resource_of, value_of};

/// The Hop-Limit of a request that gives none (RFC 8768, section 3).
const DEFAULT_HOP_LIMIT: u8 = 16;

/// What a request has that is passed on, as parts of its message.
#[derive(Clone, Copy)]
pub struct Passage<'a> {
    /// Its Hop-Limit, above 0.
    pub hop: u8,
    pub cuid: Option<&'a [u8]>,
    pub mid: Option<&'a [u8]>,
}

/// What a request wants of a gateway.
#[derive(Clone, Copy)]
pub enum Wanted<'a> {
    /// An answer to a heartbeat.
    Beat,
    /// To be passed on.
    Passage(Passage<'a>),
}

/// The Hop-Limit of a request.
pub fn hop_of(message: &Message<'_>) -> u8
    ensures { result ≡ hop_in message.now.options }
{
    match value_of(message, HOP_LIMIT) {
        Some([hop]) => *hop,
        Some(_) => unreachable!(),
        None => DEFAULT_HOP_LIMIT,
    }
}

/// What a request wants, or the first refusal: a critical option that isn't recognised, a Hop-Limit of 0, a path that isn't passed on, or
/// a method or parameters that a server refuses. Takes no memory.
pub fn read_wanted<'a>(message: &Message<'a>) -> Result<Wanted<'a>, Reject>
    ensures value { Reads wanted_value result (wanted_of message.now) }
    ensures passable { IfOk result IsPassable }
{
    if let Some(number) = first_critical(message) {
        return Err(Reject::Critical(number));
    }
    let hop = hop_of(message);
    if hop == 0 {
        return Err(Reject::HopLimit);
    }
    read_resource(message, hop)
}

/// What a request of this Hop-Limit wants of its resource.
fn read_resource<'a>(message: &Message<'a>, hop: u8) -> Result<Wanted<'a>, Reject>
    requires critical { first_critical None message.now.options ≡ None }
    requires hop { hop_in message.now.options ≡ hop }
    requires some { hop ≢ 0 }
    ensures value { Reads wanted_value result (wanted_of message.now) }
    ensures passable { IfOk result IsPassable }
{
    match resource_of(message) {
        Some(Resource::Mitigation { cdid: _, cuid, mid }) => {
            refuse_operation(message)?;
            resource_of_a_path();
            let _options = message.options();
            Ok(Wanted::Passage(Passage { hop, cuid, mid }))
        }
        Some(Resource::Heartbeat) => {
            if message.code() == PUT {
                return Ok(Wanted::Beat);
            }
            Err(Reject::Path)
        }
        Some(Resource::Config { .. }) | None => Err(Reject::Path),
    }
}

/// Refuses a method that mitigations haven't, and a parameter that is missing or not of its form, as a server does.
fn refuse_operation(message: &Message<'_>) -> Result<(), Reject>
    requires critical { first_critical None message.now.options ≡ None }
    requires hop { hop_in message.now.options ≢ 0 }
    ensures { (cdid cuid mid : Option (List ℕ)) → resource_at (values_of 11 message.now.options) ≡ Some (mitigation cdid cuid mid)
        → result ≡ refuse_operation (mitigation cdid cuid mid) message.now.code }
{
    match read_head(message, false) {
        Err(reject) => operation_refusal(reject),
        Ok(_) => Ok(()),
    }
}

/// Of what a server refuses, what isn't left to it.
fn operation_refusal(reject: Reject) -> Result<(), Reject>
    ensures { result ≡ operation_refusal reject }
{
    match reject {
        Reject::Method => Err(Reject::Method),
        Reject::Parameter => Err(Reject::Parameter),
        _ => Ok(()),
    }
}
