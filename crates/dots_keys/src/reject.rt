ghost use Rattle.std.specs.Prelude.{◌≡◌, ◌≤◌, length, take};
ghost use Rattle.dots_keys.specs.RejectText.{reject_code, reject_text, cause_text};
ghost use Rattle.dots_keys.specs.Wordings.{wording_text, IsShort};

use crate::wording::Wording;
use cbor_profile::CborFault;
use coap_message::codes;
use dots_lists::NoMemory;
use std::alloc::{AllocError, AllocFailed};
use std::error::Error;
use std::fmt;

/// Why a message is no request: the first of these that applies, in this order.
#[derive(Clone, Copy, Debug)]
pub enum Reject {
    /// A critical option that isn't recognised, the first of this number (RFC 7252, section 5.4.1).
    Critical(u16),
    /// No resource has this path.
    Path,
    /// The resource doesn't have this method.
    Method,
    /// Hop-Limit is 0 (RFC 8768, section 3).
    HopLimit,
    /// A parameter of the path is missing or hasn't its form.
    Parameter,
    /// Accept is given and isn't application/dots+cbor.
    Accept,
    /// The Content-Format of a PUT is given and isn't application/dots+cbor.
    Format,
    /// A query other than one `c=a`, `c=c` or `c=n` in a GET.
    Query,
    /// The body isn't that of the request.
    Body(Cause),
    /// Memory ran out.
    NoMemory,
}

/// Why a body isn't that of a request: the first fault of its bytes, or else the first cause in the order of the keys.
#[derive(Clone, Copy, Debug)]
pub enum Cause {
    /// The bytes are no item of CBOR.
    Cbor(CborFault),
    /// This key is missing.
    Missing(u8),
    /// This key can't stand where it does, or its value isn't of its type, range or number of items. 0 is the body.
    Invalid(u8),
    /// A key outside the table of keys.
    Unknown(u64),
}

impl Reject {
    /// The code of the reply that says so (RFC 7252, section 12.1.2). Want of memory has 4.00 too where it is said like a
    /// refusal.
    pub fn code(&self) -> u8
        ensures { result ≡ reject_code self.now }
    {
        match self {
            Reject::Critical(_) => codes::BAD_OPTION,
            Reject::Path => codes::NOT_FOUND,
            Reject::Method => codes::METHOD_NOT_ALLOWED,
            Reject::Accept => codes::NOT_ACCEPTABLE,
            Reject::Format => codes::UNSUPPORTED_CONTENT_FORMAT,
            Reject::HopLimit
            | Reject::Parameter
            | Reject::Query
            | Reject::Body(_)
            | Reject::NoMemory => codes::BAD_REQUEST,
        }
    }

    fn wording(&self) -> Wording
        ensures text { wording_text result ≡ reject_text self.now }
        ensures short { IsShort result }
    {
        match self {
            Reject::Critical(number) => Wording::numbered("option ", u64::from(*number)),
            Reject::Path => Wording::plain("path"),
            Reject::Method => Wording::plain("method"),
            Reject::HopLimit => Wording::plain("hop limit"),
            Reject::Parameter => Wording::plain("path parameter"),
            Reject::Accept => Wording::plain("accept"),
            Reject::Format => Wording::plain("content format"),
            Reject::Query => Wording::plain("query"),
            Reject::Body(cause) => cause.wording(),
            Reject::NoMemory => Wording::plain("out of memory"),
        }
    }

    /// Puts the text of the refusal to the front of the bytes, and answers how many bytes it has: [`MAX_TEXT`] at most. As
    /// many are there. Takes no memory.
    pub fn put_text(&self, into: &mut [u8]) -> usize
        requires { 28 ≤ length into.old }
        ensures front { take result into.new ≡ reject_text self.now }
        ensures within { result ≤ 28 }
    {
        self.wording().put(into)
    }
}

impl Cause {
    fn wording(&self) -> Wording
        ensures text { wording_text result ≡ cause_text self.now }
        ensures short { IsShort result }
    {
        match self {
            Cause::Cbor(_) => Wording::plain("cbor"),
            Cause::Missing(key) => Wording::numbered("missing ", u64::from(*key)),
            Cause::Invalid(key) => Wording::numbered("invalid ", u64::from(*key)),
            Cause::Unknown(key) => Wording::numbered("unknown ", *key),
        }
    }
}

/// The text of the refusal.
impl fmt::Display for Reject {
    ghost use Rattle.std.specs.Prelude.{Some};
    ghost use Rattle.dots_keys.specs.RejectText.{reject_text};

    ghost output = { λ reject. Some (reject_text reject) };

    fn fmt<W: fmt::Write>(&self, f: &mut fmt::Formatter<W>) -> fmt::Result {
        let wording = self.wording();
        write!(f, "{}", wording)
    }
}

/// The text of the cause.
impl fmt::Display for Cause {
    ghost use Rattle.std.specs.Prelude.{Some};
    ghost use Rattle.dots_keys.specs.RejectText.{cause_text};

    ghost output = { λ cause. Some (cause_text cause) };

    fn fmt<W: fmt::Write>(&self, f: &mut fmt::Formatter<W>) -> fmt::Result {
        let wording = self.wording();
        write!(f, "{}", wording)
    }
}

impl Error for Reject {}

impl Error for Cause {}

impl From<NoMemory> for Reject {
    ghost use Rattle.std.specs.Prelude.{◌≡◌};
    ghost use Rattle.dots_keys.specs.declared.reject.Reject.TheVariants.{NoMemory};

    ghost from_gives = { λ _ reject. reject ≡ NoMemory };

    fn from(_: NoMemory) -> Self {
        Self::NoMemory
    }
}

impl From<AllocError> for Reject {
    ghost use Rattle.std.specs.Prelude.{◌≡◌};
    ghost use Rattle.dots_keys.specs.declared.reject.Reject.TheVariants.{NoMemory};

    ghost from_gives = { λ _ reject. reject ≡ NoMemory };

    fn from(_: AllocError) -> Self {
        Self::NoMemory
    }
}

impl<T: Drop> From<AllocFailed<T>> for Reject {
    ghost use Rattle.std.specs.Prelude.{◌≡◌};
    ghost use Rattle.dots_keys.specs.declared.reject.Reject.TheVariants.{NoMemory};

    ghost from_gives = { λ _ reject. reject ≡ NoMemory };

    fn from(_: AllocFailed<T>) -> Self {
        Self::NoMemory
    }
}
