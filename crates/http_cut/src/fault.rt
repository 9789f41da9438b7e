use std::error::Error;
use std::fmt;

/// Why a stream is refused. Its connection is closed behind the reply.
#[derive(Clone, Copy, Debug)]
pub enum HttpFault {
    /// The bytes begin with no head of at most 8,192 bytes, or the head has two Content-Length fields or one that isn't
    /// 1 to 10 digits (RFC 9112, sections 2.2 and 6.3): status 400.
    BadHead,
    /// The head has a Transfer-Encoding field (RFC 9110, section 15.5.12): status 411.
    LengthRequired,
    /// The head announces a body of more than 8,192 bytes (RFC 9110, section 15.5.14): status 413.
    BodyTooLong,
}

/// The name of the fault, for an operator.
impl fmt::Display for HttpFault {
    ghost use Rattle.std.specs.Prelude.{Some};
    ghost use Rattle.http_cut.specs.FaultText.{fault_text};

    ghost output = { λ fault. Some (fault_text fault) };

    fn fmt<W: fmt::Write>(&self, f: &mut fmt::Formatter<W>) -> fmt::Result {
        f.write_str(match self {
            HttpFault::BadHead => "bad head",
            HttpFault::LengthRequired => "length required",
            HttpFault::BodyTooLong => "body too long",
        })
    }
}

impl Error for HttpFault {}
