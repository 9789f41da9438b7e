ghost use Rattle.std.specs.Prelude.{◌≡◌, ℕ, List, IfOk, OnErr, IfSome, IfNone, IsUtf8, string_bytes};

use crate::memory::NoMemory;
use std::alloc::Global;
use std::marker::Model;
use std::str;

/// A text in UTF-8.
#[derive(Drop)]
pub struct Text {
    text: String,
}

impl Model for Text {
    ghost Value = { List ℕ };

    ghost view = { λ text. string_bytes text.text };
}

impl Text {
    /// The text that the bytes are, or None exactly where they aren't UTF-8. No memory is asked for where they aren't.
    pub fn new(alloc: Global, bytes: &[u8]) -> Result<Option<Self>, NoMemory>
        ensures some { IfOk result (λ found.
            IfSome found (λ text. (text ≡ bytes.now) × IsUtf8 bytes.now)) }
        ensures none { IfOk result (λ found. IfNone found (¬ IsUtf8 bytes.now)) }
        ensures no_memory { OnErr result (IsUtf8 bytes.now) }
    {
        match str::from_utf8(bytes) {
            Ok(text) => Ok(Some(Text {
                text: String::from_str(alloc, text)?,
            })),
            Err(_) => Ok(None),
        }
    }

    /// The text of a string. Takes no memory.
    pub fn from_string(text: String) -> Self
        ensures { result ≡ string_bytes text }
    {
        Text { text }
    }

    pub fn bytes(&self) -> &[u8]
        ensures value { result.now ≡ self.now }
        ensures utf8 { IsUtf8 self.now }
    {
        self.text.as_str().as_bytes()
    }

    pub fn as_str(&self) -> &str
        ensures { result.now ≡ self.now }
    {
        self.text.as_str()
    }

    /// An equal value.
    pub fn copy(&self) -> Result<Self, NoMemory>
        ensures { IfOk result (λ copy. copy ≡ self.now) }
    {
        let text = self.text.clone()?;
        Ok(Text { text })
    }
}
