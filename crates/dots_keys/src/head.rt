//! What a message says before its body.

ghost use Rattle.std.specs.Prelude.{◌≡◌, ◌≤◌, length, None, IfOk, IfSome};
ghost use Rattle.std.specs.Option.{option_copied};
ghost use Rattle.dots_keys.specs.Options.{first_critical, value_of, values_of};
ghost use Rattle.dots_keys.specs.Heads.{refuse_critical, refuse_hop_limit, refuse_media, refuse_format, content_named, content_of, observe_of, head_of};
ghost use Rattle.dots_keys.specs.HeadValues.{head_value};
ghost use Rattle.dots_keys.specs.OperationValues.{IsNamed};
ghost use Rattle.dots_keys.specs.Results.{Reads};

use crate::head_request::{Content, Observe};
use crate::operation::{Method, Operation, method_of, operation_of};
use crate::options::{
    ACCEPT, CONTENT_FORMAT, HOP_LIMIT, OBSERVE, URI_QUERY, first_critical, next_value,
    option_number, value_of,
};
use crate::path::resource_of;
use crate::reject::Reject;
use coap_message::Message;

/// application/dots+cbor (RFC 9132, section 10.3).
const DOTS_CBOR: u32 = 271;

/// The queries (RFC 9132, section 4.4.2).
const ALL: &[u8] = b"c=a";

const CONFIG: &[u8] = b"c=c";

const STATE: &[u8] = b"c=n";

/// What a message says before its body, as parts of it.
#[derive(Clone, Copy)]
pub struct Head<'a> {
    pub operation: Operation<'a>,
    pub content: Content,
    pub observe: Observe,
}

fn refuse_critical(message: &Message<'_>) -> Result<(), Reject>
    ensures { result ≡ refuse_critical (first_critical None message.now.options) }
{
    match first_critical(message) {
        Some(number) => Err(Reject::Critical(number)),
        None => Ok(()),
    }
}

fn refuse_hop_limit(message: &Message<'_>) -> Result<(), Reject>
    ensures { result ≡ refuse_hop_limit (value_of 16 message.now.options) }
{
    match value_of(message, HOP_LIMIT) {
        Some(value) => {
            if option_number(value) == 0 {
                return Err(Reject::HopLimit);
            }
            Ok(())
        }
        None => Ok(()),
    }
}

/// Refuses a media type other than application/dots+cbor.
fn refuse_media(refusal: Reject, value: Option<&[u8]>) -> Result<(), Reject>
    requires { IfSome value (λ bytes. length bytes.now ≤ 3) }
    ensures { result ≡ refuse_media refusal (option_copied value.entry) }
{
    match value {
        Some(value) => {
            if option_number(value) == DOTS_CBOR {
                return Ok(());
            }
            Err(refusal)
        }
        None => Ok(()),
    }
}

fn refuse_format(method: Method, message: &Message<'_>) -> Result<(), Reject>
    ensures { result ≡ refuse_format method message.now.options }
{
    match method {
        Method::Put => refuse_media(Reject::Format, value_of(message, CONTENT_FORMAT)),
        Method::Get | Method::Delete => Ok(()),
    }
}

fn content_named(text: &[u8]) -> Option<Content>
    ensures { result ≡ content_named text.now }
{
    if text == ALL {
        return Some(Content::All);
    }
    if text == CONFIG {
        return Some(Content::Config);
    }
    if text == STATE {
        return Some(Content::State);
    }
    None
}

/// The content that the query asks for (RFC 9132, section 4.4.2).
fn content_of(method: Method, message: &Message<'_>) -> Result<Content, Reject>
    ensures { result ≡ content_of method (values_of 15 message.now.options) }
{
    let mut options = message.options();
    let Some(query) = next_value(&mut options, URI_QUERY) else {
        return Ok(Content::All);
    };
    if next_value(&mut options, URI_QUERY).is_some() {
        return Err(Reject::Query);
    }
    match method {
        Method::Get => content_named(query).ok_or(Reject::Query),
        Method::Put | Method::Delete => Err(Reject::Query),
    }
}

fn observe_of(message: &Message<'_>) -> Observe
    ensures { result ≡ observe_of (value_of 6 message.now.options) }
{
    match value_of(message, OBSERVE) {
        Some(value) => match option_number(value) {
            0 => Observe::Register,
            1 => Observe::Deregister,
            _ => Observe::No,
        },
        None => Observe::No,
    }
}

/// What the message, which comes from a gateway or from a client, says before its body, or the first refusal. Takes no memory.
pub fn read_head<'a>(message: &Message<'a>, gateway: bool) -> Result<Head<'a>, Reject>
    ensures value { Reads head_value result (head_of message.now gateway) }
    ensures named { IfOk result (λ head. IsNamed head.operation) }
{
    refuse_critical(message)?;
    let resource = resource_of(message).ok_or(Reject::Path)?;
    let method = method_of(&resource, message.code())?;
    refuse_hop_limit(message)?;
    let operation = operation_of(resource, method, gateway)?;
    refuse_media(Reject::Accept, value_of(message, ACCEPT))?;
    refuse_format(method, message)?;
    let content = content_of(method, message)?;
    Ok(Head {
        operation,
        content,
        observe: observe_of(message),
    })
}
