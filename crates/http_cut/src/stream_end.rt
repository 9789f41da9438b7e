use crate::fault::HttpFault;

/// How a stream goes on behind the requests that were taken from it.
#[derive(Clone, Copy)]
pub enum StreamEnd {
    /// More bytes are waited for.
    Waits,
    /// The last request is the last of its connection: it is HTTP/1.0 or asks for closing. What stands behind it is never
    /// acted on (RFC 9112, section 9.6).
    Closes,
    /// No request follows, whatever bytes do.
    Refused(HttpFault),
}
