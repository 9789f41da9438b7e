//! Reading a line.

ghost use Rattle.std.specs.Prelude.{◌≡◌, map};
ghost use Rattle.dots_settings.specs.Admitting.{read_value};
ghost use Rattle.dots_settings.specs.Form.{domain_form, prefix_form, client_form, gateway_form, upstream_form, name_form, ceiling_form, indefinite_form, capacity_of, capacity_form, ports_in, packet_of, packet_form, form_by_word, form_of};

use crate::capacity::Capacity;
use crate::complaint::Complaint;
use crate::form::Form;
use crate::mistake::Mistake;
use crate::spelling::{granted_in, is_domain_name, is_number, prefix_mistake};
use acl_lists::Packet;
use dots_lists::{is_name, is_word, number_in};
use ip_scope::{parse_address, parse_prefix};

/// The greatest number of a peer.
const MAX_PEER: u64 = 4_294_967_295;

/// The greatest ceiling, in seconds.
const MAX_CEILING: u64 = 604_800;

/// The greatest number of a protocol.
const MAX_PROTOCOL: u64 = 255;

/// The greatest port.
const MAX_PORT: u64 = 65_535;

/// What a line with these fields says, or why it has none of the ten forms. Takes no memory.
pub fn read_form<'a>(fields: &[&'a [u8]]) -> Result<Form<'a>, Complaint>
    ensures { read_value result ≡ form_of (map (λ field. field.now) fields.now) }
{
    let [word, rest @ ..] = fields else {
        return Err(Complaint::of_field(Mistake::Word, 0));
    };
    form_by_word(word, rest)
}

/// The form of a line that begins with this word, and has these fields behind it.
#[tactic(auto, unfolding(crate::specs::Form::form_by_word))]
fn form_by_word<'a>(word: &[u8], fields: &[&'a [u8]]) -> Result<Form<'a>, Complaint>
    ensures { read_value result ≡ form_by_word word.now (map (λ field. field.now) fields.now) }
{
    if is_word(word, b"domain") {
        return domain_form(fields);
    }
    if is_word(word, b"prefix") {
        return prefix_form(fields);
    }
    if is_word(word, b"client") {
        return client_form(fields);
    }
    if is_word(word, b"gateway") {
        return gateway_form(fields);
    }
    if is_word(word, b"upstream") {
        return upstream_form(fields);
    }
    if is_word(word, b"name") {
        return name_form(fields);
    }
    if is_word(word, b"ceiling") {
        return ceiling_form(fields);
    }
    if is_word(word, b"indefinite") {
        return indefinite_form(fields);
    }
    if is_word(word, b"capacity") {
        return capacity_form(fields);
    }
    if is_word(word, b"packet") {
        return packet_form(fields);
    }
    Err(Complaint::of_field(Mistake::Word, 0))
}

fn domain_form<'a>(fields: &[&'a [u8]]) -> Result<Form<'a>, Complaint>
    ensures { read_value result ≡ domain_form (map (λ field. field.now) fields.now) }
{
    let [name] = fields else {
        return Err(Complaint::of_line(Mistake::DomainFields));
    };
    if !is_domain_name(name) {
        return Err(Complaint::of_field(Mistake::DomainName, 1));
    }
    Ok(Form::Domain { name })
}

fn prefix_form<'a>(fields: &[&'a [u8]]) -> Result<Form<'a>, Complaint>
    ensures { read_value result ≡ prefix_form (map (λ field. field.now) fields.now) }
{
    let [name, text] = fields else {
        return Err(Complaint::of_line(Mistake::PrefixFields));
    };
    if !is_domain_name(name) {
        return Err(Complaint::of_field(Mistake::DomainName, 1));
    }
    match parse_prefix(text) {
        Ok(prefix) => Ok(Form::Prefix { name, prefix }),
        Err(_) => Err(Complaint::of_field(prefix_mistake(text), 2)),
    }
}

fn client_form<'a>(fields: &[&'a [u8]]) -> Result<Form<'a>, Complaint>
    ensures { read_value result ≡ client_form (map (λ field. field.now) fields.now) }
{
    let [text, name] = fields else {
        return Err(Complaint::of_line(Mistake::ClientFields));
    };
    let Some(peer) = number_in(0, MAX_PEER, text) else {
        return Err(Complaint::of_field(Mistake::Peer, 1));
    };
    if !is_domain_name(name) {
        return Err(Complaint::of_field(Mistake::DomainName, 2));
    }
    Ok(Form::Client {
        peer: peer as u32,
        name,
    })
}

fn gateway_form<'a>(fields: &[&'a [u8]]) -> Result<Form<'a>, Complaint>
    ensures { read_value result ≡ gateway_form (map (λ field. field.now) fields.now) }
{
    let [text] = fields else {
        return Err(Complaint::of_line(Mistake::GatewayFields));
    };
    let Some(peer) = number_in(0, MAX_PEER, text) else {
        return Err(Complaint::of_field(Mistake::Peer, 1));
    };
    Ok(Form::Gateway { peer: peer as u32 })
}

fn upstream_form<'a>(fields: &[&'a [u8]]) -> Result<Form<'a>, Complaint>
    ensures { read_value result ≡ upstream_form (map (λ field. field.now) fields.now) }
{
    let [text] = fields else {
        return Err(Complaint::of_line(Mistake::UpstreamFields));
    };
    let Some(peer) = number_in(0, MAX_PEER, text) else {
        return Err(Complaint::of_field(Mistake::Peer, 1));
    };
    Ok(Form::Upstream { peer: peer as u32 })
}

fn name_form<'a>(fields: &[&'a [u8]]) -> Result<Form<'a>, Complaint>
    ensures { read_value result ≡ name_form (map (λ field. field.now) fields.now) }
{
    let [fqdn, text] = fields else {
        return Err(Complaint::of_line(Mistake::NameFields));
    };
    if !is_name(fqdn) {
        return Err(Complaint::of_field(Mistake::HostName, 1));
    }
    match parse_prefix(text) {
        Ok(prefix) => Ok(Form::Name { fqdn, prefix }),
        Err(_) => Err(Complaint::of_field(prefix_mistake(text), 2)),
    }
}

fn ceiling_form<'a>(fields: &[&'a [u8]]) -> Result<Form<'a>, Complaint>
    ensures { read_value result ≡ ceiling_form (map (λ field. field.now) fields.now) }
{
    let [text] = fields else {
        return Err(Complaint::of_line(Mistake::CeilingFields));
    };
    let Some(seconds) = number_in(1, MAX_CEILING, text) else {
        return Err(Complaint::of_field(Mistake::Ceiling, 1));
    };
    Ok(Form::Ceiling {
        seconds: seconds as u32,
    })
}

fn indefinite_form<'a>(fields: &[&'a [u8]]) -> Result<Form<'a>, Complaint>
    ensures { read_value result ≡ indefinite_form (map (λ field. field.now) fields.now) }
{
    let [text] = fields else {
        return Err(Complaint::of_line(Mistake::IndefiniteFields));
    };
    match granted_in(text) {
        Some(granted) => Ok(Form::Indefinite { granted }),
        None => Err(Complaint::of_field(Mistake::YesOrNo, 1)),
    }
}

fn capacity_form<'a>(fields: &[&'a [u8]]) -> Result<Form<'a>, Complaint>
    ensures { read_value result ≡ capacity_form (map (λ field. field.now) fields.now) }
{
    let [name, text] = fields else {
        return Err(Complaint::of_line(Mistake::CapacityFields));
    };
    capacity_of(name, text)
}

#[tactic(auto, unfolding(crate::specs::Form::capacity_of))]
fn capacity_of<'a>(name: &[u8], text: &[u8]) -> Result<Form<'a>, Complaint>
    ensures { read_value result ≡ capacity_of name.now text.now }
{
    let Some(what) = Capacity::named(name) else {
        return Err(Complaint::of_field(Mistake::CapacityName, 1));
    };
    if !is_number(text) {
        return Err(Complaint::of_field(Mistake::Limit, 2));
    }
    let limit = number_in(1, u64::from(what.greatest()), text);
    Ok(Form::Capacity {
        what,
        limit: limit.map(|limit| limit as u32),
    })
}

fn packet_form<'a>(fields: &[&'a [u8]]) -> Result<Form<'a>, Complaint>
    ensures { read_value result ≡ packet_form (map (λ field. field.now) fields.now) }
{
    let [source, destination, protocol, source_port, destination_port] = fields else {
        return Err(Complaint::of_line(Mistake::PacketFields));
    };
    match packet_of(source, destination, protocol, source_port, destination_port) {
        Ok(packet) => Ok(Form::Packet(packet)),
        Err(complaint) => Err(complaint),
    }
}

/// The packet that the five fields behind `packet` write.
fn packet_of(
    source: &[u8],
    destination: &[u8],
    protocol: &[u8],
    source_port: &[u8],
    destination_port: &[u8],
) -> Result<Packet, Complaint>
    ensures { result ≡ packet_of source.now destination.now protocol.now source_port.now destination_port.now }
{
    let Some(source) = parse_address(source) else {
        return Err(Complaint::of_field(Mistake::Address, 1));
    };
    let Some(destination) = parse_address(destination) else {
        return Err(Complaint::of_field(Mistake::Address, 2));
    };
    let Some(protocol) = number_in(0, MAX_PROTOCOL, protocol) else {
        return Err(Complaint::of_field(Mistake::Protocol, 3));
    };
    match ports_in(source_port, destination_port) {
        Ok(ports) => Ok(Packet {
            source,
            destination,
            protocol: protocol as u8,
            ports,
        }),
        Err(complaint) => Err(complaint),
    }
}

/// The ports that the texts write, both or none.
fn ports_in(source: &[u8], destination: &[u8]) -> Result<Option<(u16, u16)>, Complaint>
    ensures { result ≡ ports_in source.now destination.now }
{
    if is_word(source, b"-") && is_word(destination, b"-") {
        return Ok(None);
    }
    let Some(source) = number_in(0, MAX_PORT, source) else {
        return Err(Complaint::of_field(Mistake::Port, 4));
    };
    let Some(destination) = number_in(0, MAX_PORT, destination) else {
        return Err(Complaint::of_field(Mistake::Port, 5));
    };
    Ok(Some((source as u16, destination as u16)))
}
