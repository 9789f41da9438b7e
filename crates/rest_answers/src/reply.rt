//! A reply without a body.

ghost use Rattle.std.specs.Prelude.{◌≡◌, ◌≤◌, ◌++◌, [], length, drop, IsTrue};
ghost use Rattle.http_cut.specs.Reply.{is_reply_status, is_in_line};
ghost use Rattle.rest_answers.specs.Replies.{bodiless, methods_in};

use data_channel::Allow;
use dots_lists::Bytes;
use http_cut::{ReplyHead, write_head};
use std::alloc::Global;
use std::marker::Model;

/// A reply without a body. Contracts see it as its bytes.
#[derive(Drop)]
pub struct RestReply {
    status: u16,
    close: bool,
    location: Bytes,
    allow: Option<Allow>,
}

impl Model for RestReply {
    ghost use Rattle.std.specs.Prelude.{ℕ, List};
    ghost use Rattle.rest_answers.specs.Replies.{bodiless, methods_in, IsWritable};

    ghost Value = { List ℕ };

    ghost view = { λ reply. bodiless reply.status reply.close reply.location (methods_in reply.allow) };

    ghost invariant = { λ reply. IsWritable reply.status reply.location };
}

impl RestReply {
    /// A reply of this status, which says whether the connection is closed behind it.
    pub(crate) fn new(alloc: Global, status: u16, close: bool) -> Self
        requires { IsTrue (is_reply_status status) }
        ensures { result ≡ bodiless status close [] [] }
    {
        RestReply {
            status,
            close,
            location: Bytes::new(alloc),
            allow: None,
        }
    }

    /// The same with where a resource is.
    pub(crate) fn located(status: u16, close: bool, location: Bytes) -> Self
        requires status { IsTrue (is_reply_status status) }
        requires line { IsTrue (is_in_line location) }
        requires size { length location ≤ 700 }
        ensures { result ≡ bodiless status close location [] }
    {
        RestReply {
            status,
            close,
            location,
            allow: None,
        }
    }

    /// The same with the methods of a resource.
    pub(crate) fn allowing(alloc: Global, status: u16, close: bool, allow: Option<Allow>) -> Self
        requires { IsTrue (is_reply_status status) }
        ensures { result ≡ bodiless status close [] (methods_in allow) }
    {
        RestReply {
            status,
            close,
            location: Bytes::new(alloc),
            allow,
        }
    }

    /// Writes the reply in front of the bytes, of which there are 1,024 at least, and answers how many it has. Takes no memory.
    pub fn write(&self, into: &mut [u8]) -> usize
        requires { 1024 ≤ length into.old }
        ensures len { result ≡ length self.now }
        ensures within { result ≤ length into.old }
        // The other bytes are unchanged.
        ensures written { into.new ≡ self.now ++ drop result into.old }
    {
        let head = ReplyHead {
            status: self.status,
            close: self.close,
            location: self.location.items(),
            allow: methods_in(self.allow).as_bytes(),
            json: false,
            length: 0,
        };
        write_head(&head, into)
    }
}

/// The methods that are told.
fn methods_in(allow: Option<Allow>) -> &'static str
    ensures methods { result.now ≡ methods_in allow }
    ensures line { IsTrue (is_in_line result.now) }
    ensures size { length result.now ≤ 64 }
{
    match allow {
        Some(allow) => allow.text(),
        None => "",
    }
}
