use std::alloc::{AllocError, AllocFailed};
use std::error::Error;
use std::fmt;

/// Why bytes weren't read as a value.
#[derive(Clone, Copy, Debug)]
pub enum JsonFault {
    /// They are no text of JSON, or one with a number that is too large or with too deep a value.
    NotJson,
    /// Memory ran out.
    NoMemory,
}

impl fmt::Display for JsonFault {
    ghost use Rattle.std.specs.Prelude.{Some};
    ghost use Rattle.list_json.specs.JsonFaultText.{fault_text};

    ghost output = { λ fault. Some (fault_text fault) };

    fn fmt<W: fmt::Write>(&self, f: &mut fmt::Formatter<W>) -> fmt::Result {
        match self {
            JsonFault::NotJson => f.write_str("no JSON"),
            JsonFault::NoMemory => f.write_str("out of memory"),
        }
    }
}

impl Error for JsonFault {}

impl From<json::Invalid> for JsonFault {
    ghost use Rattle.std.specs.Prelude.{◌≡◌};
    ghost use Rattle.list_json.specs.declared.json_fault.JsonFault.TheVariants as faults;

    ghost from_gives = { λ _ fault. fault ≡ faults.NotJson };

    fn from(_: json::Invalid) -> Self {
        Self::NotJson
    }
}

impl From<AllocError> for JsonFault {
    ghost use Rattle.std.specs.Prelude.{◌≡◌};
    ghost use Rattle.list_json.specs.declared.json_fault.JsonFault.TheVariants as faults;

    ghost from_gives = { λ _ fault. fault ≡ faults.NoMemory };

    fn from(_: AllocError) -> Self {
        Self::NoMemory
    }
}

impl<T: Drop> From<AllocFailed<T>> for JsonFault {
    ghost use Rattle.std.specs.Prelude.{◌≡◌};
    ghost use Rattle.list_json.specs.declared.json_fault.JsonFault.TheVariants as faults;

    ghost from_gives = { λ _ fault. fault ≡ faults.NoMemory };

    fn from(_: AllocFailed<T>) -> Self {
        Self::NoMemory
    }
}
