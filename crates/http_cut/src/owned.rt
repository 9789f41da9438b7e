ghost use Rattle.std.specs.Prelude.{◌≡◌, IfOk, option_map};
ghost use Rattle.http_cut.specs.Requests.{request_value};
ghost use Rattle.http_cut.specs.Owned.{owned_value};

use crate::request::HttpRequest;
use dots_lists::{Bytes, List, NoMemory};
use std::alloc::Global;

/// A request with bytes of its own.
#[derive(Drop)]
pub struct OwnedRequest {
    pub method: Bytes,
    pub target: Bytes,
    /// The media type of the first Content-Type field (RFC 9110, section 8.3.1).
    pub media: Option<Bytes>,
    /// Whether the connection is closed behind the reply.
    pub close: bool,
    pub body: Bytes,
    /// How many bytes the request had, head and body.
    pub length: usize,
}

/// Requests with bytes of their own, in the order of their stream.
pub type RequestList = List<OwnedRequest>;

fn copy_of_media(alloc: Global, media: Option<&[u8]>) -> Result<Option<Bytes>, NoMemory>
    ensures { IfOk result (λ copy. copy ≡ option_map (λ bytes. bytes.now) media.entry) }
{
    match media {
        Some(bytes) => return Ok(Some(Bytes::from_slice(alloc, bytes)?)),
        None => return Ok(None),
    }
}

/// A copy of the request.
pub(crate) fn copy_of(alloc: Global, request: &HttpRequest) -> Result<OwnedRequest, NoMemory>
    ensures { IfOk result (λ copy. owned_value copy ≡ request_value request.now) }
{
    let method = Bytes::from_slice(alloc, request.method)?;
    let target = Bytes::from_slice(alloc, request.target)?;
    let media = copy_of_media(alloc, request.media)?;
    let body = Bytes::from_slice(alloc, request.body)?;
    Ok(OwnedRequest {
        method,
        target,
        media,
        close: request.close,
        body,
        length: request.length,
    })
}
