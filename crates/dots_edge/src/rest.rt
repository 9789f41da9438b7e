//! What of its replies a socket hasn't taken yet.

ghost use Rattle.std.specs.Prelude.{◌≡◌, ◌==◌, ◌++◌, ◌≤◌, [], length, drop, true, is_ok, OnOk, OnErr};

use std::alloc::Global;
use std::io;
use std::io::{Error, ErrorKind};

/// How many bytes are kept at most.
const MAX_REST: usize = 524_288;

/// Bytes that are to be written to a socket as it takes them, in their order.
#[derive(Drop)]
pub struct Rest {
    bytes: Vec<u8>,
    pub ghost range: { length bytes.items ≤ 524288 },
}

impl Rest {
    pub fn new(alloc: Global) -> Rest
        ensures { result.bytes.items ≡ [] }
    {
        Rest {
            bytes: Vec::new(alloc),
        }
    }

    pub fn is_empty(&self) -> bool
        ensures { result ≡ (length self.now.bytes.items == 0) }
    {
        self.bytes.is_empty()
    }

    pub fn as_slice(&self) -> &[u8]
        ensures { result.now ≡ self.now.bytes.items }
    {
        self.bytes.as_slice()
    }

    /// Keeps these behind the others. They aren't kept where they are too many, or find no memory.
    pub fn keep(&mut self, more: &[u8]) -> io::Result<()>
        ensures kept { OnOk result (self.new.bytes.items ≡ self.old.bytes.items ++ more.now) }
        ensures refused { OnErr result (self.new.bytes.items ≡ self.old.bytes.items) }
        ensures none { more.now ≡ [] → is_ok result ≡ true }
    {
        if more.is_empty() {
            return Ok(());
        }
        if more.len() > MAX_REST - self.bytes.len() {
            return Err(Error::from(ErrorKind::OutOfMemory));
        }
        match self.bytes.extend_from_slice(more) {
            Ok(()) => Ok(()),
            Err(_) => Err(Error::from(ErrorKind::OutOfMemory)),
        }
    }

    /// Lets the first bytes go, which the socket took.
    pub fn pass(&mut self, count: usize)
        requires { count ≤ length self.old.bytes.items }
        ensures { self.new.bytes.items ≡ drop count self.old.bytes.items }
    {
        let left = self.bytes.len() - count;
        self.bytes.as_mut_slice().copy_within(count.., 0);
        self.bytes.truncate(left);
        if left == 0 {
            self.bytes.shrink_to_fit();
        }
    }

    /// Lets all of them go.
    pub fn clear(&mut self)
        ensures { self.new.bytes.items ≡ [] }
    {
        self.bytes.clear();
        self.bytes.shrink_to_fit();
    }
}
