ghost use Rattle.std.specs.Prelude.{◌≡◌, ◌==◌, ◌&&◌, Some, None, MatchOption, bytes_eq};
ghost use Rattle.dots_edge.specs.HostLine.{key_of, line_value, beside, path_in, share_file, same_end, same_question, same_thing, same_kind, is_wildcard, crowds};

use crate::whole_file::BESIDE;
use ip_scope::{Addr, Family};

/// An address and a port.
#[derive(Clone, Copy)]
pub struct Endpoint {
    pub address: Addr,
    pub port: u16,
}

/// What a line of the host file says.
#[derive(Clone, Copy)]
pub enum HostLine<'a> {
    /// `journal PATH`: the file of the journal.
    Journal {
        path: &'a str,
    },
    /// `signal ADDRESS:PORT`: where datagrams are received. Up to four.
    Signal {
        at: Endpoint,
    },
    /// `http ADDRESS:PORT`: where connections are accepted. Up to four.
    Http {
        at: Endpoint,
    },
    /// `peer N ADDRESS` or `peer N ADDRESS:PORT`: an address of a peer, and where its messages go until it was heard.
    Peer {
        number: u32,
        address: Addr,
        port: Option<u16>,
    },
    /// `reserve BYTES`: how long the file of the journal is made at the start, up to 2^30 bytes.
    Reserve {
        bytes: u64,
    },
    /// `events N`: how many events are handed in before the end.
    Events {
        count: u64,
    },
    /// `filters PATH`: the file in which the filters stand as lines of a report.
    Filters {
        path: &'a str,
    },
    /// `filters-nft PATH`: the file in which they stand as a script for `nft -f`.
    FiltersNft {
        path: &'a str,
    },
    /// `figures PATH`: the file in which the figures of the server stand.
    Figures {
        path: &'a str,
    },
}

/// The IPv6 addresses that stand for IPv4 ones begin here (RFC 4291, section 2.5.5.2).
pub const MAPPED: u128 = 0xffff_0000_0000;

/// The address as an IPv6 one: an IPv4 address and the IPv6 address that is mapped to it have one key.
pub fn key_of(address: Addr) -> u128
    ensures { result ≡ key_of address }
{
    match address.family {
        Family::V4 => MAPPED + address.number,
        Family::V6 => address.number,
    }
}

/// Whether both are one address and port.
fn same_end(one: Endpoint, other: Endpoint) -> bool
    ensures { result ≡ same_end one other }
{
    key_of(one.address) == key_of(other.address) && one.port == other.port
}

/// Whether the lines say one thing, so that a file has only one of them: both answer one question, or a file of the one would be written
/// over that of the other.
pub fn same_thing(one: &HostLine<'_>, other: &HostLine<'_>) -> bool
    ensures { result ≡ same_thing (line_value one.now) (line_value other.now) }
{
    same_question(one, other) || share_file(one, other)
}

/// Whether the lines name one file, or the one names that which is made beside the file of the other.
fn share_file(one: &HostLine<'_>, other: &HostLine<'_>) -> bool
    ensures { result ≡ share_file (path_in (line_value one.now)) (path_in (line_value other.now)) }
{
    match (path_of_line(one), path_of_line(other)) {
        (Some(path), Some(other)) => {
            path == other || is_beside(path, other) || is_beside(other, path)
        }
        _ => false,
    }
}

/// The path of the file that the line names.
fn path_of_line<'a>(line: &HostLine<'a>) -> Option<&'a str>
    ensures { MatchOption result (path_in (line_value line.now) ≡ None) (λ path. path_in (line_value line.now) ≡ Some path.now) }
{
    match line {
        HostLine::Journal { path } => Some(*path),
        HostLine::Filters { path } => Some(*path),
        HostLine::FiltersNft { path } => Some(*path),
        HostLine::Figures { path } => Some(*path),
        _ => None,
    }
}

/// Whether the path is that of the file which is made beside the other.
fn is_beside(path: &str, other: &str) -> bool
    ensures { result ≡ bytes_eq path.now (beside other.now) }
{
    match path.as_bytes().strip_suffix(BESIDE.as_bytes()) {
        Some(front) => front == other.as_bytes(),
        None => false,
    }
}

/// Whether the lines answer one question.
fn same_question(one: &HostLine<'_>, other: &HostLine<'_>) -> bool
    ensures { result ≡ same_question (line_value one.now) (line_value other.now) }
{
    match (one, other) {
        (HostLine::Journal { .. }, HostLine::Journal { .. }) => true,
        (HostLine::Signal { at }, HostLine::Signal { at: other }) => same_end(*at, *other),
        (HostLine::Http { at }, HostLine::Http { at: other }) => same_end(*at, *other),
        (HostLine::Reserve { .. }, HostLine::Reserve { .. }) => true,
        (HostLine::Events { .. }, HostLine::Events { .. }) => true,
        (HostLine::Filters { .. }, HostLine::Filters { .. }) => true,
        (HostLine::FiltersNft { .. }, HostLine::FiltersNft { .. }) => true,
        (HostLine::Figures { .. }, HostLine::Figures { .. }) => true,
        (HostLine::Peer { address, .. }, HostLine::Peer { address: other, .. }) => {
            key_of(*address) == key_of(*other)
        }
        _ => false,
    }
}

/// Whether both lines are `signal` lines, or both `http` lines.
pub fn same_kind(one: &HostLine<'_>, other: &HostLine<'_>) -> bool
    ensures { result ≡ same_kind (line_value one.now) (line_value other.now) }
{
    match (one, other) {
        (HostLine::Signal { .. }, HostLine::Signal { .. }) => true,
        (HostLine::Http { .. }, HostLine::Http { .. }) => true,
        _ => false,
    }
}

/// Whether the line is about all addresses of the machine, as `0.0.0.0` and `[::]` are.
fn is_wildcard(line: &HostLine<'_>) -> bool
    ensures { result ≡ is_wildcard (line_value line.now) }
{
    match line {
        HostLine::Signal { at } | HostLine::Http { at } => {
            let key = key_of(at.address);
            key == 0 || key == MAPPED
        }
        _ => false,
    }
}

/// Whether both are of one kind, and one of them is about all addresses.
pub fn crowds(one: &HostLine<'_>, other: &HostLine<'_>) -> bool
    ensures { result ≡ crowds (line_value one.now) (line_value other.now) }
{
    same_kind(one, other) && (is_wildcard(one) || is_wildcard(other))
}
