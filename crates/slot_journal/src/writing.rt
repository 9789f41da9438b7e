ghost use Rattle.std.specs.Prelude.{◌≡◌, ◌≤◌, ◌⊎◌, ◌++◌, drop, length, IsTrue};
ghost use Rattle.dots_history.specs.Bounds.{within_bounds};
ghost use Rattle.slot_journal.specs.Layout.{record_bytes};
ghost use Rattle.slot_journal.specs.Records.{IsRecord};

use crate::writer::Writer;
use dots_history::Entry;
use slot_store::Format;

/// The length of the record of an entry in this format, in bytes: at most [`crate::MAX_RECORD`].
pub fn record_len(entry: &Entry, format: Format) -> usize
    requires { IsTrue (within_bounds entry.now) }
    ensures len { result ≡ length (record_bytes format entry.now) }
    ensures short { result ≤ 7649 }
    ensures record { IsRecord format (record_bytes format entry.now) entry.now }
{
    let mut writer = Writer::new();
    writer.entry(format, entry);
    writer.written().len()
}

/// Writes the record of an entry in this format to the front of `into`, and answers its length in bytes, that of `record_len`. What stood
/// behind it stays. Room for [`crate::MAX_RECORD`] bytes is enough for each.
pub fn record_into(entry: &Entry, format: Format, into: &mut [u8]) -> usize
    requires within { IsTrue (within_bounds entry.now) }
    requires room { (length (record_bytes format entry.now) ≤ length into.old) ⊎ (7649 ≤ length into.old) }
    ensures short { result ≤ 7649 }
    ensures len { result ≡ length (record_bytes format entry.now) }
    ensures written { into.new ≡ record_bytes format entry.now ++ drop result into.old }
    ensures record { IsRecord format (record_bytes format entry.now) entry.now }
{
    let mut writer = Writer::new();
    writer.entry(format, entry);
    let bytes = writer.written();
    into[..bytes.len()].copy_from_slice(bytes);
    bytes.len()
}
