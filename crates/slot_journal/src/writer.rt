//! Writing bytes, numbers and names behind others. Each call says what it writes (`written`), and what the type of its
//! value says of that (`typed`).

ghost use Rattle.std.specs.Prelude.{◌≡◌, ◌+◌, ◌*◌, ◌^◌, ◌<◌, ◌≤◌, [], ◌∷◌, length};
ghost use Rattle.std.specs.List.{AllByRecursion};
ghost use Rattle.std.specs.Int.{w16, w32, w64, w128, to_be_bytes};
ghost use Rattle.slot_store.specs.Formats.{sealed};
ghost use Rattle.slot_journal.specs.Layout.{counted};
ghost use Rattle.slot_journal.specs.Values.{IsByte, IsName};
ghost use Rattle.slot_journal.specs.Writing.{Writes};

use arrayvec::ArrayVec;
use dots_lists::Name;
use slot_store::seal;
use std::marker::Model;

/// The greatest length of the record of an entry within bounds, in bytes: that of an access list in the second format.
pub const MAX_RECORD: usize = 7_649;

/// The bytes of a record as far as they are written.
#[derive(Drop)]
pub(crate) struct Writer {
    bytes: ArrayVec<u8, MAX_RECORD>,
}

impl Model for Writer {
    ghost use Rattle.std.specs.Prelude.{ℕ, List};

    ghost Value = { List ℕ };

    ghost view = { λ writer. writer.bytes.items };
}

impl Writer {
    pub(crate) fn new() -> Self
        ensures { result ≡ [] }
    {
        Writer {
            bytes: ArrayVec::new(),
        }
    }

    /// Leaves nothing written.
    pub(crate) fn clear(&mut self)
        ensures { self.new ≡ [] }
    {
        self.bytes.clear();
    }

    /// What is written.
    pub(crate) fn written(&self) -> &[u8]
        ensures { result.now ≡ self.now }
    {
        self.bytes.as_slice()
    }

    /// A byte. One for which there is no room is left out.
    pub(crate) fn byte(&mut self, byte: u8)
        ensures { Writes 1 (byte ∷ []) self.old self.new }
    {
        if !self.bytes.is_full() {
            self.bytes.push(byte);
        }
    }

    /// Bytes. Those for which there is no room are left out.
    pub(crate) fn bytes(&mut self, bytes: &[u8])
        ensures written { Writes (length bytes.now) bytes.now self.old self.new }
        ensures typed { AllByRecursion IsByte bytes.now }
    {
        match self.bytes.try_extend_from_slice(bytes) {
            Ok(()) => {}
            Err(_) => {}
        }
    }

    /// The seal of what is written, behind it.
    pub(crate) fn seal(&mut self)
        requires { length self.old ≤ 7641 }
        ensures { self.new ≡ sealed self.old }
    {
        let seal = seal(self.written());
        self.bytes(&seal);
    }

    pub(crate) fn u16(&mut self, number: u16)
        ensures written { Writes 2 (to_be_bytes w16 number) self.old self.new }
        ensures typed { number < 2 ^ 16 }
    {
        self.bytes(&number.to_be_bytes());
    }

    pub(crate) fn u32(&mut self, number: u32)
        ensures written { Writes 4 (to_be_bytes w32 number) self.old self.new }
        ensures typed { number < 2 ^ 32 }
    {
        self.bytes(&number.to_be_bytes());
    }

    pub(crate) fn u64(&mut self, number: u64)
        ensures written { Writes 8 (to_be_bytes w64 number) self.old self.new }
        ensures typed { number < 2 ^ 64 }
    {
        self.bytes(&number.to_be_bytes());
    }

    pub(crate) fn u128(&mut self, number: u128)
        ensures { Writes 16 (to_be_bytes w128 number) self.old self.new }
    {
        self.bytes(&number.to_be_bytes());
    }

    /// Bytes behind how many there are.
    pub(crate) fn counted(&mut self, bytes: &[u8])
        requires { length bytes.now ≤ 255 }
        ensures written { Writes (1 + length bytes.now) (counted bytes.now) self.old self.new }
        ensures typed { AllByRecursion IsByte bytes.now }
    {
        self.byte(bytes.len() as u8);
        self.bytes(bytes);
    }

    pub(crate) fn name(&mut self, name: &Name)
        ensures written { Writes 65 (counted name.now) self.old self.new }
        ensures typed { IsName name.now }
    {
        self.counted(name.bytes());
    }
}
