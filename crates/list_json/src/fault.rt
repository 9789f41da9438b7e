use dots_lists::NoMemory;
use std::alloc::{AllocError, AllocFailed};
use std::error::Error;
use std::fmt;

/// A member of the bodies of the data channel (RFC 8783, sections 4.3, 6.1 and 7.2; RFC 8519, section 4.2).
#[derive(Clone, Copy, Debug)]
pub enum Member {
    DotsClient,
    Cuid,
    Aliases,
    Alias,
    Acls,
    Acl,
    Name,
    TargetPrefix,
    TargetPortRange,
    LowerPort,
    UpperPort,
    TargetProtocol,
    TargetFqdn,
    /// `type`.
    AclKind,
    ActivationType,
    Aces,
    Ace,
    Matches,
    Ipv4,
    Ipv6,
    /// `source-ipv4-network` or `source-ipv6-network`.
    SourceNetwork,
    /// `destination-ipv4-network` or `destination-ipv6-network`.
    DestinationNetwork,
    Protocol,
    Tcp,
    Udp,
    /// `source-port-range-or-operator`, or `source-port`.
    SourcePort,
    /// `destination-port-range-or-operator`, or `destination-port`.
    DestinationPort,
    Operator,
    Port,
    Actions,
    Forwarding,
}

/// Why a value is none of the data channel: the first fault in the order of the definition of what is read.
#[derive(Clone, Copy, Debug)]
pub enum ListFault {
    /// An object lacks this member.
    Missing(Member),
    /// The value of this member hasn't its type, form, range or number of items, contradicts another member, or repeats a
    /// name.
    Invalid(Member),
    /// An object has a member that isn't known there.
    Unknown,
    /// Memory ran out.
    NoMemory,
}

impl fmt::Display for ListFault {
    ghost use Rattle.std.specs.Prelude.{Some};
    ghost use Rattle.list_json.specs.FaultText.{fault_text};

    ghost output = { λ fault. Some (fault_text fault) };

    fn fmt<W: fmt::Write>(&self, f: &mut fmt::Formatter<W>) -> fmt::Result {
        match self {
            ListFault::Missing(_) => f.write_str("a member is missing"),
            ListFault::Invalid(_) => f.write_str("a member has a value that it can't have"),
            ListFault::Unknown => f.write_str("a member is unknown"),
            ListFault::NoMemory => f.write_str("out of memory"),
        }
    }
}

impl Error for ListFault {}

impl From<NoMemory> for ListFault {
    ghost use Rattle.std.specs.Prelude.{◌≡◌};
    ghost use Rattle.list_json.specs.declared.fault.ListFault.TheVariants as faults;

    ghost from_gives = { λ _ fault. fault ≡ faults.NoMemory };

    fn from(_: NoMemory) -> Self {
        Self::NoMemory
    }
}

impl From<AllocError> for ListFault {
    ghost use Rattle.std.specs.Prelude.{◌≡◌};
    ghost use Rattle.list_json.specs.declared.fault.ListFault.TheVariants as faults;

    ghost from_gives = { λ _ fault. fault ≡ faults.NoMemory };

    fn from(_: AllocError) -> Self {
        Self::NoMemory
    }
}

impl<T: Drop> From<AllocFailed<T>> for ListFault {
    ghost use Rattle.std.specs.Prelude.{◌≡◌};
    ghost use Rattle.list_json.specs.declared.fault.ListFault.TheVariants as faults;

    ghost from_gives = { λ _ fault. fault ≡ faults.NoMemory };

    fn from(_: AllocFailed<T>) -> Self {
        Self::NoMemory
    }
}
