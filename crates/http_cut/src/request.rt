use crate::fault::HttpFault;

/// A request at the front of a stream, in slices of the bytes that are buffered (RFC 9112, section 2.1).
#[derive(Clone, Copy)]
pub struct HttpRequest<'a> {
    pub method: &'a [u8],
    pub target: &'a [u8],
    /// The first Content-Type field as far as its first `;`, without spaces and tabs round it (RFC 9110, section 8.3.1).
    pub media: Option<&'a [u8]>,
    /// Whether the connection is closed behind the reply: HTTP/1.0, or `close` among the options of a Connection field
    /// (RFC 9112, section 9.6).
    pub close: bool,
    pub body: &'a [u8],
    /// How many bytes the request has, head and body: as many are to be discarded.
    pub length: usize,
}

/// What stands at the front of a stream.
#[derive(Clone, Copy)]
pub enum Cut<'a> {
    /// A whole request.
    Request(HttpRequest<'a>),
    /// Less than a request.
    More,
    /// No request, whatever follows.
    Refused(HttpFault),
}
