//! Reading bytes, numbers, names and lists of bytes in front of others.

ghost use Rattle.std.specs.Prelude.{◌≡◌, ◌+◌, ◌-◌, ◌≤◌, ◌∷◌, IsTrue, length, take, IfOk, OnOk};
ghost use Rattle.std.specs.Char.{is_ascii_graphic};
ghost use Rattle.std.specs.List.{list_all};
ghost use Rattle.std.specs.Int.{w16, w32, w64};
ghost use Rattle.slot_journal.specs.declared.record_fault.EntryFault.TheVariants.{NotEntry};
ghost use Rattle.slot_journal.specs.RecordReading.{Gives, byte_at, bytes_at, counted_at, exactly_at, flag_at, items_at, number_at, time_at, visible_at, within_at};

use crate::record_fault::EntryFault;
use dots_lists::{Bytes, Name, Text};
use std::alloc::Global;

/// The greatest length of a name, in bytes.
const MAX_NAME: u8 = 64;

/// The bytes of a record that are still to be read. After a fault what it holds means nothing.
#[derive(Drop)]
pub(crate) struct Reader<'a> {
    /// Where what is read is kept.
    pub(crate) alloc: Global,
    /// The place at which the bytes end.
    pub(crate) end: usize,
    pub(crate) rest: &'a [u8],
    pub(crate) ghost within: { length rest.now ≤ end },
}

impl<'a> Reader<'a> {
    /// A byte from `least` to `most`.
    #[tactic(auto, unfolding(crate::specs::RecordReading::byte_at))]
    pub(crate) fn within(&mut self, least: u8, most: u8) -> Result<u8, EntryFault>
        ensures value { Gives (λ x. (x, self.new.rest.now)) result (within_at least most self.old.end self.old.rest.now) }
        ensures end { OnOk result (self.new.end ≡ self.old.end) }
        ensures most { IfOk result (λ x. x ≤ most) }
        ensures least { IfOk result (λ x. least ≤ x) }
    {
        let Some((byte, rest)) = self.rest.split_first() else {
            return Err(EntryFault::NotEntry { at: self.end });
        };
        if *byte < least || most < *byte {
            return Err(self.fault());
        }
        self.rest = rest;
        Ok(*byte)
    }

    /// No record can go on with the next byte.
    pub(crate) fn fault(&self) -> EntryFault
        ensures { result ≡ NotEntry (self.now.end - length self.now.rest.now) }
    {
        EntryFault::NotEntry {
            at: self.end - self.rest.len(),
        }
    }

    /// A visible ASCII character.
    #[tactic(auto, unfolding(crate::specs::RecordReading::byte_at))]
    fn visible(&mut self) -> Result<u8, EntryFault>
        ensures value { Gives (λ x. (x, self.new.rest.now)) result (byte_at is_ascii_graphic self.old.end self.old.rest.now) }
        ensures end { OnOk result (self.new.end ≡ self.old.end) }
        ensures front { IfOk result (λ x. self.old.rest.now ≡ x ∷ self.new.rest.now) }
    {
        let Some((byte, rest)) = self.rest.split_first() else {
            return Err(EntryFault::NotEntry { at: self.end });
        };
        if !byte.is_ascii_graphic() {
            return Err(self.fault());
        }
        self.rest = rest;
        Ok(*byte)
    }

    /// So many bytes.
    #[tactic(auto, unfolding(crate::specs::RecordReading::bytes_at))]
    pub(crate) fn split(&mut self, count: usize) -> Result<&'a [u8], EntryFault>
        ensures value { Gives (λ x. (x.now, self.new.rest.now)) result (bytes_at count self.old.end self.old.rest.now) }
        ensures end { OnOk result (self.new.end ≡ self.old.end) }
        ensures size { IfOk result (λ x. length x.now ≡ count) }
    {
        if self.rest.len() < count {
            return Err(EntryFault::NotEntry { at: self.end });
        }
        let (front, rest) = self.rest.split_at(count);
        self.rest = rest;
        Ok(front)
    }

    pub(crate) fn u16(&mut self) -> Result<u16, EntryFault>
        ensures value { Gives (λ x. (x, self.new.rest.now)) result (number_at w16 self.old.end self.old.rest.now) }
        ensures end { OnOk result (self.new.end ≡ self.old.end) }
    {
        let front = self.split(2)?;
        Ok(u16::from_be_bytes([front[0], front[1]]))
    }

    pub(crate) fn u32(&mut self) -> Result<u32, EntryFault>
        ensures value { Gives (λ x. (x, self.new.rest.now)) result (number_at w32 self.old.end self.old.rest.now) }
        ensures end { OnOk result (self.new.end ≡ self.old.end) }
    {
        let front = self.split(4)?;
        Ok(u32::from_be_bytes([front[0], front[1], front[2], front[3]]))
    }

    pub(crate) fn u64(&mut self) -> Result<u64, EntryFault>
        ensures value { Gives (λ x. (x, self.new.rest.now)) result (number_at w64 self.old.end self.old.rest.now) }
        ensures end { OnOk result (self.new.end ≡ self.old.end) }
    {
        let front = self.split(8)?;
        Ok(u64::from_be_bytes([
            front[0], front[1], front[2], front[3], front[4], front[5], front[6], front[7],
        ]))
    }

    /// Seconds below 2^48, in eight bytes.
    #[tactic(auto, unfolding(crate::specs::RecordReading::time_at))]
    pub(crate) fn time(&mut self) -> Result<u64, EntryFault>
        ensures value { Gives (λ x. (x, self.new.rest.now)) result (time_at self.old.end self.old.rest.now) }
        ensures end { OnOk result (self.new.end ≡ self.old.end) }
    {
        self.within(0, 0)?;
        self.within(0, 0)?;
        let low = self.split(6)?;
        Ok(u64::from_be_bytes([0, 0, low[0], low[1], low[2], low[3], low[4], low[5]]))
    }

    pub(crate) fn flag(&mut self) -> Result<bool, EntryFault>
        ensures value { Gives (λ x. (x, self.new.rest.now)) result (flag_at self.old.end self.old.rest.now) }
        ensures end { OnOk result (self.new.end ≡ self.old.end) }
    {
        Ok(self.within(0, 1)? == 1)
    }

    /// Exactly these bytes.
    pub(crate) fn exactly(&mut self, bytes: &[u8]) -> Result<(), EntryFault>
        ensures value { Gives (λ x. (x, self.new.rest.now)) result (exactly_at bytes.now self.old.end self.old.rest.now) }
        ensures end { OnOk result (self.new.end ≡ self.old.end) }
    {
        for byte in bytes {
            self.within(*byte, *byte)?;
        }
        Ok(())
    }

    /// At most so many bytes, behind their number.
    #[tactic(auto, unfolding(crate::specs::RecordReading::counted_at))]
    pub(crate) fn counted(&mut self, most: u8) -> Result<Bytes, EntryFault>
        ensures value { Gives (λ x. (x, self.new.rest.now)) result (counted_at most self.old.end self.old.rest.now) }
        ensures end { OnOk result (self.new.end ≡ self.old.end) }
    {
        let count = self.within(0, most)?;
        let front = self.split(count as usize)?;
        Ok(Bytes::from_slice(self.alloc, front)?)
    }

    /// Passes so many visible characters.
    fn pass_visible(&mut self, count: u8) -> Result<(), EntryFault>
        ensures value { Gives (λ x. (take count self.old.rest.now, self.new.rest.now)) result (items_at (byte_at is_ascii_graphic) count self.old.end self.old.rest.now) }
        ensures end { OnOk result (self.new.end ≡ self.old.end) }
        ensures size { IfOk result (λ x. length self.new.rest.now + count ≡ length self.old.rest.now) }
    {
        for _ in 0..count {
            self.visible()?;
        }
        Ok(())
    }

    /// From `least` to `most` visible characters, behind their number.
    #[tactic(auto, unfolding(crate::specs::RecordReading::visible_at))]
    fn characters(&mut self, least: u8, most: u8) -> Result<&'a [u8], EntryFault>
        ensures value { Gives (λ x. (x.now, self.new.rest.now)) result (visible_at least most self.old.end self.old.rest.now) }
        ensures end { OnOk result (self.new.end ≡ self.old.end) }
        ensures visible { IfOk result (λ x. IsTrue (list_all is_ascii_graphic x.now)) }
        ensures least { IfOk result (λ x. least ≤ length x.now) }
        ensures most { IfOk result (λ x. length x.now ≤ most) }
    {
        let count = self.within(least, most)?;
        let front = self.rest;
        self.pass_visible(count)?;
        Ok(&front[..count as usize])
    }

    pub(crate) fn name(&mut self) -> Result<Name, EntryFault>
        ensures value { Gives (λ x. (x, self.new.rest.now)) result (visible_at 1 64 self.old.end self.old.rest.now) }
        ensures end { OnOk result (self.new.end ≡ self.old.end) }
    {
        let characters = self.characters(1, MAX_NAME)?;
        let Some(name) = Name::new(self.alloc, characters)? else {
            unreachable!()
        };
        Ok(name)
    }

    /// A `cuid`, which is a name or empty.
    pub(crate) fn cuid(&mut self) -> Result<Text, EntryFault>
        ensures value { Gives (λ x. (x, self.new.rest.now)) result (visible_at 0 64 self.old.end self.old.rest.now) }
        ensures end { OnOk result (self.new.end ≡ self.old.end) }
    {
        let characters = self.characters(0, MAX_NAME)?;
        let Some(text) = Text::new(self.alloc, characters)? else {
            unreachable!()
        };
        Ok(text)
    }
}
