//! Addresses as sockets have them.

ghost use Rattle.std.specs.Prelude.{◌≡◌};
ghost use Rattle.std.specs.Net.Addr.{IsIpv6OfBits, IsV6And};
ghost use Rattle.std.specs.Net.Socket.{socket_ip, socket_port};
ghost use Rattle.dots_edge.specs.Address.{key_of_ip, IsIpOf};

use crate::host_line::{Endpoint, MAPPED};
use ip_scope::Family;
use std::net::{IpAddr, Ipv4Addr, Ipv6Addr, SocketAddr};

/// The key of an address: that of an IPv4 address is the IPv6 address that is mapped to it, so both count as one.
pub fn key_of_ip(ip: IpAddr) -> u128
    ensures { result ≡ key_of_ip ip }
{
    match ip {
        IpAddr::V4(ip) => MAPPED + u128::from(ip.to_bits()),
        IpAddr::V6(ip) => ip.to_bits(),
    }
}

/// Where a socket binds or sends.
pub fn socket_address(at: Endpoint) -> SocketAddr
    ensures port { socket_port result ≡ at.port }
    ensures ip { IsIpOf (socket_ip result) at.address }
{
    let ip = match at.address.family {
        Family::V4 => IpAddr::V4(Ipv4Addr::from_bits(at.address.number as u32)),
        Family::V6 => IpAddr::V6(Ipv6Addr::from_bits(at.address.number)),
    };
    SocketAddr::new(ip, at.port)
}

/// The same address for a socket of IPv6, which sends to IPv4 by mapped addresses.
pub fn mapped(to: SocketAddr) -> SocketAddr
    ensures port { socket_port result ≡ socket_port to }
    ensures ip { IsV6And (socket_ip result) (λ ip. IsIpv6OfBits ip (key_of_ip (socket_ip to))) }
{
    SocketAddr::new(
        IpAddr::V6(Ipv6Addr::from_bits(key_of_ip(to.ip()))),
        to.port(),
    )
}
