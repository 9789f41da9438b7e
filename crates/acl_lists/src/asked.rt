ghost use Rattle.std.specs.Prelude.{◌≡◌, IfOk};

use dots_lists::{Bytes, List, Name, NoMemory};
use ip_scope::{PortRange, Prefix};
use std::alloc::Global;

/// Address prefixes, in the order of a request.
pub type PrefixList = List<Prefix>;

/// Port ranges, in the order of a request.
pub type PortList = List<PortRange>;

/// Protocol numbers, in the order of a request.
pub type ByteList = Bytes;

/// Names, in the order of a request.
pub type NameList = List<Name>;

/// The targets that a request or an alias names, as they were named (RFC 9132, section 4.4.1; RFC 8783, section 6.1).
#[derive(Drop)]
pub struct Asked {
    /// `target-prefix`.
    pub prefixes: PrefixList,
    /// `target-port-range`; none means every port.
    pub ports: PortList,
    /// `target-protocol`, numbers of IANA's registry; none means every protocol.
    pub protocols: ByteList,
    /// `target-fqdn`.
    pub names: NameList,
    /// `alias-name`; an alias itself has none.
    pub aliases: NameList,
}

impl Asked {
    /// An equal value.
    pub fn copy(&self, alloc: Global) -> Result<Self, NoMemory>
        ensures { IfOk result (λ copy. copy ≡ self.now) }
    {
        Ok(Asked {
            prefixes: self.prefixes.copy()?,
            ports: self.ports.copy()?,
            protocols: self.protocols.copy()?,
            names: copy_of_names(alloc, self.names.items())?,
            aliases: copy_of_names(alloc, self.aliases.items())?,
        })
    }
}

/// The same names in the same order.
fn copy_of_names(alloc: Global, names: &[Name]) -> Result<NameList, NoMemory>
    ensures { IfOk result (λ copy. copy ≡ names.now) }
{
    let mut copy = List::new(alloc);
    for name in names {
        copy.push(name.copy()?)?;
    }
    Ok(copy)
}
