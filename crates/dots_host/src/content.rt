ghost use Rattle.std.specs.Prelude.{◌≡◌, ◌+◌, ◌≤◌, ◌<◌, ◌^◌, max, [], length, vec_len, IfOk, OnOk, OnErr};
ghost use Rattle.dots_host.specs.Media.{byte_of, bytes_at, overwritten};

use dots_lists::NoMemory;
use std::alloc::Global;
use std::marker::Model;

/// Bytes up to the highest place that was written, and zeros after them.
#[derive(Drop)]
pub struct Content {
    bytes: Vec<u8>,
}

impl Model for Content {
    ghost use Rattle.std.specs.Prelude.{List, ℕ};

    ghost Value = { List ℕ };

    ghost view = { λ content. content.bytes.items };
}

impl Content {
    /// Zeros alone. Takes no memory.
    pub fn new(alloc: Global) -> Self
        ensures { result ≡ [] }
    {
        Content {
            bytes: Vec::new(alloc),
        }
    }

    /// A copy of the bytes.
    pub fn from_slice(alloc: Global, bytes: &[u8]) -> Result<Self, NoMemory>
        ensures { IfOk result (λ content. content ≡ bytes.now) }
    {
        let bytes = Vec::from_slice(alloc, bytes)?;
        Ok(Content { bytes })
    }

    /// The bytes up to the highest place that was written.
    pub fn bytes(&self) -> &[u8]
        ensures { result.now ≡ self.now }
    {
        self.bytes.as_slice()
    }

    /// The bytes from the place on.
    pub fn read(&self, at: usize, into: &mut [u8])
        ensures { into.new ≡ bytes_at (byte_of self.now) at (length into.old) }
    {
        copy_from(self.bytes.as_slice(), at, into);
    }

    /// Puts the bytes from the place on.
    pub fn write(&mut self, at: usize, bytes: &[u8]) -> Result<(), NoMemory>
        requires { at + length bytes.now < 2 ^ 64 }
        ensures ok { OnOk result (byte_of self.new ≡ overwritten (byte_of self.old) at bytes.now) }
        ensures len { OnOk result (length self.new ≡ max (length self.old) (at + length bytes.now)) }
        ensures err { OnErr result (self.new ≡ self.old) }
    {
        grow(&mut self.bytes, at + bytes.len())?;
        put(self.bytes.as_mut_slice(), at, bytes);
        Ok(())
    }
}

/// Lets zeros follow, up to the length.
fn grow(bytes: &mut Vec<u8>, len: usize) -> Result<(), NoMemory>
    ensures ok { OnOk result (byte_of bytes.new.items ≡ byte_of bytes.old.items) }
    ensures len { OnOk result (vec_len bytes.new ≡ max (vec_len bytes.old) len) }
    ensures err { OnErr result (bytes.new.items ≡ bytes.old.items) }
{
    if len <= bytes.len() {
        return Ok(());
    }
    bytes.resize(len, 0)?;
    Ok(())
}

/// Puts the bytes into a list from the place on.
fn put(list: &mut [u8], at: usize, bytes: &[u8])
    requires { at + length bytes.now ≤ length list.old }
    ensures { byte_of list.new ≡ overwritten (byte_of list.old) at bytes.now }
{
    list[at..at + bytes.len()].copy_from_slice(bytes);
}

/// The bytes of a list from the place on, and zeros after them.
fn copy_from(bytes: &[u8], at: usize, into: &mut [u8])
    ensures { into.new ≡ bytes_at (byte_of bytes.now) at (length into.old) }
{
    let start = at.min(bytes.len());
    let count = into.len().min(bytes.len() - start);
    into.fill(0);
    into[..count].copy_from_slice(&bytes[start..start + count]);
}
