ghost use Rattle.std.specs.Prelude.{◌≡◌, IfOk};

use crate::port_test::PortTest;
use dots_lists::{Name, NoMemory};
use ip_scope::Prefix;

/// An entry of an access list: what it matches, and what becomes of a packet that matches (RFC 8519, section 4.2;
/// RFC 8783, section 7.2).
#[derive(Drop)]
pub struct Ace {
    pub name: Name,
    /// Where packets come from; None matches every source.
    pub source: Option<Prefix>,
    /// Where packets go; None matches what goes to a prefix of the client's domain of the list's family.
    pub destination: Option<Prefix>,
    /// The protocol number; None matches every protocol.
    pub protocol: Option<u8>,
    pub source_port: PortTest,
    pub destination_port: PortTest,
    /// Whether a packet that matches is accepted; it is else dropped.
    pub accept: bool,
}

impl Ace {
    /// An equal value.
    pub fn copy(&self) -> Result<Self, NoMemory>
        ensures { IfOk result (λ copy. copy ≡ self.now) }
    {
        Ok(Ace {
            name: self.name.copy()?,
            source: self.source,
            destination: self.destination,
            protocol: self.protocol,
            source_port: self.source_port,
            destination_port: self.destination_port,
            accept: self.accept,
        })
    }
}
