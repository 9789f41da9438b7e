ghost use Rattle.std.specs.Prelude.{◌≡◌, ℕ, List, true, IsTrue, IfOk, OnErr, IsUtf8, Some, None, if◌then◌else◌};
ghost use Rattle.std.specs.Char.{is_ascii_graphic};
ghost use Rattle.std.specs.List.{list_all};
ghost use Rattle.dots_lists.specs.Name.{is_name};

use crate::memory::NoMemory;
use std::alloc::Global;
use std::marker::Model;

/// The greatest length of a [`Name`], in bytes.
pub const MAX_NAME: usize = 64;

/// 1 to 64 visible ASCII characters, `!` to `~`.
#[derive(Drop)]
pub struct Name {
    bytes: Vec<u8>,
}

impl Model for Name {
    ghost Value = { List ℕ };

    ghost view = { λ name. name.bytes.items };

    ghost invariant = { λ name. IsTrue (is_name name.bytes.items) };
}

/// Whether the bytes are 1 to 64 visible ASCII characters.
pub fn is_name(bytes: &[u8]) -> bool
    ensures { result ≡ is_name bytes.now }
{
    if bytes.is_empty() || bytes.len() > MAX_NAME {
        return false;
    }
    are_visible(bytes)
}

fn are_visible(bytes: &[u8]) -> bool
    ensures { result ≡ list_all is_ascii_graphic bytes.now }
{
    bytes.iter().all(|byte| byte.is_ascii_graphic())
}

impl Name {
    /// The name that the bytes are, or None exactly where they are none. No memory is asked for where they are none.
    pub fn new(alloc: Global, bytes: &[u8]) -> Result<Option<Self>, NoMemory>
        ensures ok { IfOk result (λ name.
            name ≡ (if is_name bytes.now then Some bytes.now else None)) }
        ensures no_memory { OnErr result (IsTrue (is_name bytes.now)) }
    {
        if !is_name(bytes) {
            return Ok(None);
        }
        let bytes = Vec::from_slice(alloc, bytes)?;
        Ok(Some(Name { bytes }))
    }

    pub fn bytes(&self) -> &[u8]
        ensures value { result.now ≡ self.now }
        ensures name { IsTrue (is_name self.now) }
        ensures utf8 { IsUtf8 self.now }
    {
        self.bytes.as_slice()
    }

    /// An equal value.
    pub fn copy(&self) -> Result<Self, NoMemory>
        ensures { IfOk result (λ copy. copy ≡ self.now) }
    {
        let bytes = self.bytes.clone()?;
        Ok(Name { bytes })
    }
}
