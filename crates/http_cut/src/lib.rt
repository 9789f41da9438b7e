//! Requests of a stream, however it is cut, and the heads of replies.
//!
//! A [`Stream`] buffers what came of a connection and isn't answered yet. [`Stream::take`] appends a piece,
//! [`Stream::cut`] answers what stands at the front (a request, nothing whole yet, or a refusal), and
//! [`Stream::discard`] drops a request that is answered. [`take_requests`] does that for a list of pieces and copies the
//! requests out. [`write_head`] writes the head of a reply (RFC 9112, section 4): exactly the lines of
//! `specs/Reply.antt`, in their order. Only the two `new` and [`take_requests`] take memory.
//!
//! A stream costs time linear in its bytes, however it is cut into pieces: each byte of a head is looked at once as it
//! comes, and a head is parsed where its empty line came, and not again while its body is waited for.
//!
//! Contracts see a stream as the bytes that it buffers. Start reading at `specs/Requests.antt`, which says what stands at
//! the front of some bytes, over the grammar of heads in `httparse`; `specs/Fields.antt` says what the fields mean, and
//! `specs/Streams.antt` which requests all bytes of a stream have.
#![tactic(auto)]

mod cutting;
mod fault;
mod fields;
mod owned;
mod place;
mod reply_head;
mod request;
mod room;
mod stream;
mod stream_end;
mod taking;
mod text;
mod writing;

pub use fault::HttpFault;
pub use owned::{OwnedRequest, RequestList};
pub use reply_head::{ReplyHead, write_head};
pub use request::{Cut, HttpRequest};
pub use room::HeadRoom;
pub use stream::Stream;
pub use stream_end::StreamEnd;
pub use taking::{Taken, take_requests};
