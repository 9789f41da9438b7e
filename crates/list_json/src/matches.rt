//! What an entry of an access list matches (RFC 8519, section 4.2, `matches`).

ghost use Rattle.std.specs.Prelude.{◌≡◌, codes};
ghost use Rattle.serde_json.specs.Find.{get};
ghost use Rattle.serde_json.specs.View.{view};
ghost use Rattle.list_json.specs.declared.fault.Member.TheVariants as the;
ghost use Rattle.list_json.specs.Lists.{one_spelling, transport_of, present, one_transport, with_transport, header_name, other_header_name, header_member, other_header_member, header_shape, source_name, destination_name, in_family, network_of, header_of, no_header, absent, agreed, source_test, destination_test, joined, matches_of, every_packet};
ghost use Rattle.list_json.specs.Steps.{given, otherwise};
ghost use Rattle.list_json.specs.Values.{protocol_of};

use crate::fault::{ListFault, Member};
use crate::operator::port_test_of;
use crate::shape::{Shape, check_members};
use crate::values::{prefix_of, protocol_of};
use acl_lists::PortTest;
use ip_scope::{Family, Prefix};
use serde_json::Value;

/// The protocol numbers of TCP and UDP.
const TCP: u8 = 6;

const UDP: u8 = 17;

/// What `ipv4` or `ipv6` asks.
#[derive(Clone, Copy)]
pub struct Network {
    pub source: Option<Prefix>,
    pub destination: Option<Prefix>,
    pub protocol: Option<u8>,
}

/// What `tcp` or `udp` asks.
#[derive(Clone, Copy)]
pub struct Transport {
    pub protocol: u8,
    pub source: PortTest,
    pub destination: PortTest,
}

/// What `matches` asks.
#[derive(Clone, Copy)]
pub struct Matches {
    pub source: Option<Prefix>,
    pub destination: Option<Prefix>,
    pub protocol: Option<u8>,
    pub source_port: PortTest,
    pub destination_port: PortTest,
}

impl Matches {
    /// What asks nothing.
    pub fn every_packet() -> Self
        ensures { result ≡ every_packet }
    {
        Matches {
            source: None,
            destination: None,
            protocol: None,
            source_port: PortTest::Any,
            destination_port: PortTest::Any,
        }
    }
}

/// What is asked of the port of a member that has two names, under one of which it stands at most.
fn one_spelling(
    transport: &Value,
    short: &str,
    long: &str,
    member: Member,
) -> Result<PortTest, ListFault>
    ensures { result ≡ one_spelling member (get short.now (view transport.now)) (get long.now (view transport.now)) }
{
    match (transport.get(short), transport.get(long)) {
        (Some(_), Some(_)) => Err(ListFault::Invalid(member)),
        (Some(value), None) => port_test_of(member, value),
        (None, Some(value)) => port_test_of(member, value),
        (None, None) => Ok(PortTest::Any),
    }
}

fn transport_of(value: &Value, protocol: u8, member: Member) -> Result<Transport, ListFault>
    ensures { result ≡ transport_of member protocol (view value.now) }
{
    check_members(value, Shape::Transport, member)?;
    let source = one_spelling(
        value,
        "source-port",
        "source-port-range-or-operator",
        Member::SourcePort,
    )?;
    let destination = one_spelling(
        value,
        "destination-port",
        "destination-port-range-or-operator",
        Member::DestinationPort,
    )?;
    Ok(Transport {
        protocol,
        source,
        destination,
    })
}

fn present(read: Result<Transport, ListFault>) -> Result<Option<Transport>, ListFault>
    ensures { result ≡ present read }
{
    match read {
        Ok(transport) => Ok(Some(transport)),
        Err(fault) => Err(fault),
    }
}

/// What `tcp` or `udp` asks, one of which is there at most.
fn own_transport(matches: &Value) -> Result<Option<Transport>, ListFault>
    ensures { result ≡ one_transport (get (codes "tcp") (view matches.now)) (get (codes "udp") (view matches.now)) }
{
    match (matches.get("tcp"), matches.get("udp")) {
        (None, None) => Ok(None),
        (Some(tcp), None) => present(transport_of(tcp, TCP, Member::Tcp)),
        (None, Some(udp)) => present(transport_of(udp, UDP, Member::Udp)),
        (Some(_), Some(_)) => Err(ListFault::Invalid(Member::Udp)),
    }
}

pub fn header_name(family: Family) -> &'static str
    ensures { result.now ≡ header_name family }
{
    match family {
        Family::V4 => "ipv4",
        Family::V6 => "ipv6",
    }
}

fn other_header_name(family: Family) -> &'static str
    ensures { result.now ≡ other_header_name family }
{
    match family {
        Family::V4 => "ipv6",
        Family::V6 => "ipv4",
    }
}

fn header_member(family: Family) -> Member
    ensures { result ≡ header_member family }
{
    match family {
        Family::V4 => Member::Ipv4,
        Family::V6 => Member::Ipv6,
    }
}

fn other_header_member(family: Family) -> Member
    ensures { result ≡ other_header_member family }
{
    match family {
        Family::V4 => Member::Ipv6,
        Family::V6 => Member::Ipv4,
    }
}

fn header_shape(family: Family) -> Shape
    ensures { result ≡ header_shape family }
{
    match family {
        Family::V4 => Shape::Ipv4,
        Family::V6 => Shape::Ipv6,
    }
}

/// The names of the members of a header.
pub fn source_name(family: Family) -> &'static str
    ensures { result.now ≡ source_name family }
{
    match family {
        Family::V4 => "source-ipv4-network",
        Family::V6 => "source-ipv6-network",
    }
}

pub fn destination_name(family: Family) -> &'static str
    ensures { result.now ≡ destination_name family }
{
    match family {
        Family::V4 => "destination-ipv4-network",
        Family::V6 => "destination-ipv6-network",
    }
}

/// A prefix of this family.
fn network_of(family: Family, member: Member, value: &Value) -> Result<Prefix, ListFault>
    ensures { result ≡ network_of family member (view value.now) }
{
    let prefix = prefix_of(member, value)?;
    if !prefix.family().is_same(family) {
        return Err(ListFault::Invalid(member));
    }
    Ok(prefix)
}

/// The member of this name that is a prefix of this family, where it is there.
fn own_network(
    header: &Value,
    name: &str,
    family: Family,
    member: Member,
) -> Result<Option<Prefix>, ListFault>
    ensures { result ≡ given (network_of family member) (get name.now (view header.now)) }
{
    match header.get(name) {
        Some(value) => Ok(Some(network_of(family, member, value)?)),
        None => Ok(None),
    }
}

/// The member `protocol`, where it is there.
fn own_protocol(header: &Value) -> Result<Option<u8>, ListFault>
    ensures { result ≡ given (protocol_of the.Protocol) (get (codes "protocol") (view header.now)) }
{
    match header.get("protocol") {
        Some(value) => Ok(Some(protocol_of(Member::Protocol, value)?)),
        None => Ok(None),
    }
}

fn header_of(family: Family, value: &Value) -> Result<Network, ListFault>
    ensures { result ≡ header_of family (view value.now) }
{
    check_members(value, header_shape(family), header_member(family))?;
    let source = own_network(value, source_name(family), family, Member::SourceNetwork)?;
    let destination = own_network(
        value,
        destination_name(family),
        family,
        Member::DestinationNetwork,
    )?;
    let protocol = own_protocol(value)?;
    Ok(Network {
        source,
        destination,
        protocol,
    })
}

/// What `ipv4` or `ipv6` asks, as the family says; nothing where it is absent.
fn own_header(matches: &Value, family: Family) -> Result<Network, ListFault>
    ensures { result ≡ otherwise no_header (header_of family) (get (header_name family) (view matches.now)) }
{
    match matches.get(header_name(family)) {
        Some(value) => header_of(family, value),
        None => Ok(Network {
            source: None,
            destination: None,
            protocol: None,
        }),
    }
}

/// Refuses the header of the other family.
fn check_other_header(matches: &Value, family: Family) -> Result<(), ListFault>
    ensures { result ≡ absent (other_header_member family) (get (other_header_name family) (view matches.now)) }
{
    match matches.get(other_header_name(family)) {
        Some(_) => Err(ListFault::Invalid(other_header_member(family))),
        None => Ok(()),
    }
}

/// The protocol, which a transport can't contradict.
fn agreed(named: Option<u8>, transport: &Option<Transport>) -> Result<Option<u8>, ListFault>
    ensures { result ≡ agreed named transport.now }
{
    match (named, transport) {
        (named, None) => Ok(named),
        (None, Some(transport)) => Ok(Some(transport.protocol)),
        (Some(named), Some(transport)) => {
            if named == transport.protocol {
                return Ok(Some(named));
            }
            Err(ListFault::Invalid(Member::Protocol))
        }
    }
}

fn source_test(transport: &Option<Transport>) -> PortTest
    ensures { result ≡ source_test transport.now }
{
    match transport {
        Some(transport) => transport.source,
        None => PortTest::Any,
    }
}

fn destination_test(transport: &Option<Transport>) -> PortTest
    ensures { result ≡ destination_test transport.now }
{
    match transport {
        Some(transport) => transport.destination,
        None => PortTest::Any,
    }
}

fn joined(header: &Network, transport: &Option<Transport>) -> Result<Matches, ListFault>
    ensures { result ≡ joined header.now transport.now }
{
    let protocol = agreed(header.protocol, transport)?;
    Ok(Matches {
        source: header.source,
        destination: header.destination,
        protocol,
        source_port: source_test(transport),
        destination_port: destination_test(transport),
    })
}

/// What a header asks, together with what `tcp` or `udp` asks.
fn with_transport(header: &Network, matches: &Value) -> Result<Matches, ListFault>
    ensures { result ≡ with_transport header.now (get (codes "tcp") (view matches.now)) (get (codes "udp") (view matches.now)) }
{
    match own_transport(matches) {
        Ok(transport) => joined(header, &transport),
        Err(fault) => Err(fault),
    }
}

/// What `matches` asks in a list of this family.
pub fn matches_of(family: Family, value: &Value) -> Result<Matches, ListFault>
    ensures { result ≡ matches_of family (view value.now) }
{
    check_members(value, Shape::Matches, Member::Matches)?;
    check_other_header(value, family)?;
    match own_header(value, family) {
        Ok(header) => with_transport(&header, value),
        Err(fault) => Err(fault),
    }
}
