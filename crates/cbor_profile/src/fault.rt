ghost use Rattle.std.specs.Prelude.{◌≡◌};
ghost use Rattle.cbor_profile.specs.FaultText.{fault_place, fault_words};

use dots_lists::NoMemory;
use std::alloc::{AllocError, AllocFailed};
use std::error::Error;
use std::fmt;

/// Why [`decode`](crate::decode) answers no item: the first fault from left to right, and the place of the byte
/// where it is, counted from 0.
#[derive(Clone, Copy, Debug)]
pub enum CborFault {
    /// The input ends inside the item. The place is the length of the input.
    Short { at: usize },
    /// A first byte that means nothing where it stands (RFC 8949, sections 3 and 3.2).
    Reserved { at: usize },
    /// A text, or a part of one, that isn't UTF-8 (section 3.1). The place is its first byte.
    NotUtf8 { at: usize },
    /// A key that is the same item as an earlier one of its map (section 5.6). The place is its first byte.
    Duplicate { at: usize },
    /// A float, or a simple value other than false, true and null (section 3.3).
    Unsupported { at: usize },
    /// An array, a map or a tag inside [`MAX_DEPTH`](crate::MAX_DEPTH) others.
    Deep { at: usize },
    /// Bytes after the item. The place is the first of them.
    Trailing { at: usize },
    /// Memory ran out.
    NoMemory,
}

impl CborFault {
    fn words(&self) -> &'static str
        ensures { result.now ≡ fault_words self.now }
    {
        match self {
            CborFault::Short { .. } => "the input ends inside the item",
            CborFault::Reserved { .. } => "a byte that means nothing",
            CborFault::NotUtf8 { .. } => "a text isn't UTF-8",
            CborFault::Duplicate { .. } => "a key comes twice",
            CborFault::Unsupported { .. } => "a float or another simple value",
            CborFault::Deep { .. } => "items nest too deep",
            CborFault::Trailing { .. } => "bytes after the item",
            CborFault::NoMemory => "out of memory",
        }
    }

    fn place(&self) -> Option<usize>
        ensures { result ≡ fault_place self.now }
    {
        match *self {
            CborFault::Short { at }
            | CborFault::Reserved { at }
            | CborFault::NotUtf8 { at }
            | CborFault::Duplicate { at }
            | CborFault::Unsupported { at }
            | CborFault::Deep { at }
            | CborFault::Trailing { at } => Some(at),
            CborFault::NoMemory => None,
        }
    }
}

impl fmt::Display for CborFault {
    ghost use Rattle.std.specs.Prelude.{Some};
    ghost use Rattle.cbor_profile.specs.FaultText.{fault_text};

    ghost output = { λ fault. Some (fault_text fault) };

    fn fmt<W: fmt::Write>(&self, f: &mut fmt::Formatter<W>) -> fmt::Result {
        match self.place() {
            Some(at) => write!(f, "{} at {}", self.words(), at),
            None => f.write_str(self.words()),
        }
    }
}

impl Error for CborFault {}

impl From<NoMemory> for CborFault {
    ghost use Rattle.std.specs.Prelude.{◌≡◌};
    ghost use Rattle.cbor_profile.specs.declared.fault.CborFault.TheVariants.{NoMemory};

    ghost from_gives = { λ _ fault. fault ≡ NoMemory };

    fn from(_: NoMemory) -> Self {
        Self::NoMemory
    }
}

impl From<AllocError> for CborFault {
    ghost use Rattle.std.specs.Prelude.{◌≡◌};
    ghost use Rattle.cbor_profile.specs.declared.fault.CborFault.TheVariants.{NoMemory};

    ghost from_gives = { λ _ fault. fault ≡ NoMemory };

    fn from(_: AllocError) -> Self {
        Self::NoMemory
    }
}

impl<T: Drop> From<AllocFailed<T>> for CborFault {
    ghost use Rattle.std.specs.Prelude.{◌≡◌};
    ghost use Rattle.cbor_profile.specs.declared.fault.CborFault.TheVariants.{NoMemory};

    ghost from_gives = { λ _ fault. fault ≡ NoMemory };

    fn from(_: AllocFailed<T>) -> Self {
        Self::NoMemory
    }
}
