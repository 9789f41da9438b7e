use acl_lists::{Asked, ByteList, PortList, PrefixList};
use dots_lists::List;

/// A mitigation, as granted (RFC 9132, section 4.4.1).
#[derive(Drop)]
pub struct Put {
    /// The number that the client gave it.
    pub mid: u32,
    /// What the request named.
    pub asked: Asked,
    /// What that came to when it was accepted; later writings of aliases change nothing of it.
    pub targets: TargetList,
    /// The lifetime in seconds, or -1 for an indefinite one.
    pub granted: i32,
    /// When the mitigation was first accepted, in seconds.
    pub start: u64,
    /// Whether it filters at once, and not only while the signal of its client is lost (RFC 9132, section 4.4.1).
    pub trigger: bool,
}

/// The targets of a mitigation, in order.
pub type TargetList = List<Target>;

/// Where traffic is to be scrubbed: what goes to an address of these prefixes, by these protocols, to these ports.
#[derive(Drop)]
pub struct Target {
    pub prefixes: PrefixList,
    /// None means every port.
    pub ports: PortList,
    /// None means every protocol.
    pub protocols: ByteList,
}
