//! The messages that are passed on.

ghost use Rattle.std.specs.Prelude.{◌≡◌, ◌≢◌, ◌≤◌, ◌<◌, ◌+◌, ◌-◌, ◌++◌, ◌∷◌, [], map, length, Some, IfOk, IsTrue};
ghost use Rattle.std.specs.Option.{option_copied};
ghost use Rattle.coap_message.specs.declared.option_numbers.TheConstants.{URI_PATH, URI_QUERY};
ghost use Rattle.coap_message.specs.Message.{last_number, spelling};
ghost use Rattle.dots_keys.specs.Options.{value_of, values_of};
ghost use Rattle.dots_keys.specs.Paths.{parameter};
ghost use Rattle.dots_gateway.specs.Forwarding.{option_with, option_for, path_for, passed_options, forwarded, answered, answer_kind, without_observe};
ghost use Rattle.dots_gateway.specs.Options.{IsShortBehind};
ghost use Rattle.dots_gateway.specs.WantedValues.{passage_value, CanPass};

use crate::exchange::{Exchange, id_of};
use crate::options::OptionList;
use crate::wanted::Passage;
use crate::writing::{Front, write};
use coap_message::option_numbers::{
    ACCEPT, CONTENT_FORMAT, HOP_LIMIT, OBSERVE, URI_PATH, URI_QUERY,
};
use coap_message::{Kind, Message};
use dots_history::MessageKey;
use dots_keys::{next_value, value_of};
use dots_lists::{Bytes, Name, NoMemory};
use std::alloc::Global;

/// A client's request under a number, for the domain of the client (RFC 9132, section 4.4.1).
pub fn forwarded(
    alloc: Global,
    number: u64,
    domain: &Name,
    passage: &Passage<'_>,
    message: &Message<'_>,
) -> Result<Bytes, NoMemory>
    requires code { message.now.code ≢ 0 }
    requires passable { CanPass passage.now }
    ensures { IfOk result (λ bytes. bytes ≡ spelling (forwarded number domain.now (passage_value passage.now) message.now)) }
{
    let options = passed_options(alloc, domain, passage, message)?;
    let token = number.to_be_bytes();
    let front = Front {
        kind: message.kind(),
        code: message.code(),
        id: (number % 65_536) as u16,
        token: &token,
    };
    write(alloc, &front, &options, message.payload())
}

/// The options of a request that are passed on.
fn passed_options(
    alloc: Global,
    domain: &Name,
    passage: &Passage<'_>,
    message: &Message<'_>,
) -> Result<OptionList, NoMemory>
    requires passable { CanPass passage.now }
    ensures { IfOk result (λ options. options ≡ passed_options domain.now (passage_value passage.now) message.now.options) }
{
    let path = path_for(alloc, domain, passage)?;
    let format = with_value_of(path, CONTENT_FORMAT, message)?;
    let queries = with_each_of(format, URI_QUERY, message)?;
    let hop = queries.with(HOP_LIMIT, b"", &[passage.hop - 1])?;
    with_value_of(hop, ACCEPT, message)
}

/// The path of a mitigation.
fn path_for(alloc: Global, domain: &Name, passage: &Passage<'_>) -> Result<OptionList, NoMemory>
    requires { CanPass passage.now }
    ensures path { IfOk result (λ options. options ≡ path_for domain.now (passage_value passage.now)) }
    ensures last { IfOk result (λ options. last_number 0 options ≤ URI_PATH) }
{
    let domain = domain.bytes();
    let root = OptionList::new(alloc).with(URI_PATH, b"", b".well-known")?;
    let dots = root.with(URI_PATH, b"", b"dots")?;
    let mitigate = dots.with(URI_PATH, b"", b"mitigate")?;
    let named = mitigate.with(URI_PATH, b"cdid=", domain)?;
    let client = with_parameter(named, b"cuid=", passage.cuid)?;
    with_parameter(client, b"mid=", passage.mid)
}

/// The path with a parameter behind it, if that is given.
fn with_parameter(
    path: OptionList,
    name: &[u8],
    value: Option<&[u8]>,
) -> Result<OptionList, NoMemory>
    requires order { last_number 0 path ≤ URI_PATH }
    requires short { IsShortBehind (length name.now) (option_copied value) }
    ensures path { IfOk result (λ options. options ≡ path ++ map (option_with URI_PATH) (parameter name.now (option_copied value.entry))) }
    ensures last { IfOk result (λ options. last_number 0 options ≤ URI_PATH) }
{
    match value {
        Some(value) => path.with(URI_PATH, name, value),
        None => Ok(path),
    }
}

/// The options with the recognised value of the message's option of this number behind them, if it has one.
fn with_value_of(
    options: OptionList,
    number: u16,
    message: &Message<'_>,
) -> Result<OptionList, NoMemory>
    requires { last_number 0 options ≤ number }
    ensures list { IfOk result (λ list. list ≡ options ++ option_for number (value_of number message.now.options)) }
    ensures last { IfOk result (λ list. last_number 0 list ≤ number) }
{
    match value_of(message, number) {
        Some(value) => options.with(number, b"", value),
        None => Ok(options),
    }
}

/// The options with each of the message's options of this number behind them.
fn with_each_of(
    options: OptionList,
    number: u16,
    message: &Message<'_>,
) -> Result<OptionList, NoMemory>
    requires { last_number 0 options ≤ number }
    ensures list { IfOk result (λ list. list ≡ options ++ map (option_with number) (values_of number message.now.options)) }
    ensures last { IfOk result (λ list. last_number 0 list ≤ number) }
{
    let mut list = options;
    let mut rest = message.options();
    while let Some(value) = next_value(&mut rest, number) {
        list = list.with(number, b"", value)?;
    }
    Ok(list)
}

/// The upstream's answer to an exchange, as its client gets it.
pub fn answered(
    alloc: Global,
    exchange: &Exchange,
    message: &Message<'_>,
) -> Result<Bytes, NoMemory>
    requires { message.now.code ≢ 0 }
    ensures { IfOk result (λ bytes. bytes ≡ spelling (answered exchange.now message.now)) }
{
    let options = without_observe(alloc, message)?;
    let front = Front {
        kind: answer_kind(exchange.key),
        code: message.code(),
        id: id_of(exchange.key),
        token: exchange.token.bytes(),
    };
    write(alloc, &front, &options, message.payload())
}

/// The type of the answer to a request (RFC 7252, section 5.2).
fn answer_kind(key: MessageKey) -> Kind
    ensures { result ≡ answer_kind key }
{
    match key {
        MessageKey::Con(_) => Kind::Ack,
        MessageKey::Non(_) | MessageKey::Http => Kind::Non,
    }
}

/// The options of a message but Observe.
fn without_observe(alloc: Global, message: &Message<'_>) -> Result<OptionList, NoMemory>
    ensures { IfOk result (λ list. list ≡ without_observe message.now.options) }
{
    let mut list = OptionList::new(alloc);
    let mut rest = message.options();
    while let Some(row) = rest.next() {
        if row.number != OBSERVE {
            list = list.with(row.number, b"", row.value)?;
        }
    }
    Ok(list)
}
