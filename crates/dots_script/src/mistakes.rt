ghost use Rattle.std.specs.Prelude.{◌≡◌};
ghost use Rattle.dots_script.specs.Reason.{mistake_words};

use dots_settings::Mistake;

/// Why a line of the settings has none of the ten forms, in words.
pub fn mistake_words(mistake: Mistake) -> &'static [u8]
    ensures { result.now ≡ mistake_words mistake }
{
    match mistake {
        Mistake::Word =>
            b"the first word of a line is domain, prefix, client, gateway, upstream, name, ceiling, indefinite, capacity or packet",
        Mistake::DomainFields =>
            b"a domain line is: domain NAME, with one space between two fields",
        Mistake::PrefixFields =>
            b"a prefix line is: prefix NAME PREFIX, with one space between two fields",
        Mistake::ClientFields =>
            b"a client line is: client PEER NAME, with one space between two fields",
        Mistake::GatewayFields =>
            b"a gateway line is: gateway PEER, with one space between two fields",
        Mistake::UpstreamFields =>
            b"an upstream line is: upstream PEER, with one space between two fields",
        Mistake::NameFields =>
            b"a name line is: name FQDN PREFIX, with one space between two fields",
        Mistake::CeilingFields =>
            b"a ceiling line is: ceiling SECONDS, with one space between two fields",
        Mistake::IndefiniteFields => b"an indefinite line is: indefinite yes, or: indefinite no",
        Mistake::CapacityFields =>
            b"a capacity line is: capacity WHAT LIMIT, with one space between two fields",
        Mistake::PacketFields =>
            b"a packet line is: packet SOURCE DESTINATION PROTOCOL SPORT DPORT, with one space between two fields",
        Mistake::DomainName => b"the name of a domain is 1 to 64 of a to z, 0 to 9, dot and hyphen",
        Mistake::HostName => b"a host name is 1 to 64 visible ASCII characters",
        Mistake::Peer => b"a peer is a number from 0 to 4294967295, without leading zeros",
        Mistake::NoSlash =>
            b"a prefix is an address, a slash and a length, as 192.0.2.0/24 or 2001:db8::/32",
        Mistake::NoAddress =>
            b"no IPv4 or IPv6 address stands before the slash, as in 192.0.2.0/24 or 2001:db8::/32",
        Mistake::NoLength => b"the length of a prefix is a number, without leading zeros",
        Mistake::LengthV4 => b"the length of an IPv4 prefix is at most 32",
        Mistake::LengthV6 => b"the length of an IPv6 prefix is at most 128",
        Mistake::Ceiling =>
            b"the ceiling is a number of seconds from 1 to 604800, without leading zeros",
        Mistake::YesOrNo => b"this word is yes or no",
        Mistake::CapacityName =>
            b"a capacity is client-mitigations, domain-mitigations, clients, aliases, acls, remembered or observers",
        Mistake::Limit => b"the limit of a capacity is a number, without leading zeros",
        Mistake::Address =>
            b"an address is an IPv4 or IPv6 address, as 192.0.2.1 or 2001:db8::1, without a length",
        Mistake::Protocol => b"a protocol is a number from 0 to 255, without leading zeros",
        Mistake::Port =>
            b"a port is a number from 0 to 65535, without leading zeros, or both ports are -",
    }
}
