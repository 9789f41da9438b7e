ghost use Rattle.std.specs.Prelude.{◌≡◌};
ghost use Rattle.dots_edge.specs.FaultText.{line_of};
ghost use Rattle.dots_edge.specs.declared.host_fault.HostFault.TheVariants as fault;

use std::alloc::{AllocError, AllocFailed};
use std::error::Error;
use std::fmt;

/// Why a host file can't be used. Lines are counted from 1 on, those that are skipped too.
#[derive(Clone, Copy, Debug)]
pub enum HostFault {
    /// The line has none of the forms.
    Line { n: u64 },
    /// What the line gives stands already: the journal, its room, an address and port of its kind, the number of events, a file of its kind, or
    /// whose an address is. Or its file is, or would be made beside, that of a line before it.
    Twice { n: u64 },
    /// Four lines of its kind stand already: a file has at most four `signal` and four `http` lines.
    Many { n: u64 },
    /// The line, or one of its kind before it, is for all addresses, as `0.0.0.0` and `[::]` are, and then it is the only one of its kind.
    Wildcard { n: u64 },
    /// Memory ran out.
    NoMemory,
}

impl HostFault {
    /// The number of the line that has it.
    pub fn line(self) -> Option<u64>
        ensures { result ≡ line_of self }
    {
        match self {
            HostFault::Line { n } | HostFault::Twice { n } => Some(n),
            HostFault::Many { n } | HostFault::Wildcard { n } => Some(n),
            HostFault::NoMemory => None,
        }
    }
}

impl fmt::Display for HostFault {
    ghost use Rattle.std.specs.Prelude.{Some};
    ghost use Rattle.dots_edge.specs.FaultText.{fault_text};

    ghost output = { λ fault. Some (fault_text fault) };

    fn fmt<W: fmt::Write>(&self, f: &mut fmt::Formatter<W>) -> fmt::Result {
        match self {
            HostFault::Line { n } => write!(f, "host file line {n}"),
            HostFault::Twice { n } => write!(f, "host file twice {n}"),
            HostFault::Many { n } => write!(f, "host file many {n}"),
            HostFault::Wildcard { n } => write!(f, "host file wildcard {n}"),
            HostFault::NoMemory => f.write_str("out of memory"),
        }
    }
}

impl Error for HostFault {}

impl From<AllocError> for HostFault {
    ghost from_gives = { λ _ made. made ≡ fault.NoMemory };

    fn from(_: AllocError) -> Self {
        HostFault::NoMemory
    }
}

impl<T: Drop> From<AllocFailed<T>> for HostFault {
    ghost from_gives = { λ _ made. made ≡ fault.NoMemory };

    fn from(_: AllocFailed<T>) -> Self {
        HostFault::NoMemory
    }
}
