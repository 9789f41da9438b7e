ghost use Rattle.std.specs.Prelude.{◌≡◌, ◌≤◌, [], length, IsTrue};
ghost use Rattle.dots_history.specs.Bounds.{within_bounds};
ghost use Rattle.slot_journal.specs.Layout.{record_bytes};
ghost use Rattle.slot_journal.specs.Records.{IsRecord};

use crate::writer::Writer;
use dots_history::Entry;
use slot_store::Format;
use std::marker::Model;

/// Room for the record of an entry, [`crate::MAX_RECORD`] bytes in the value itself. Whoever writes one record after
/// another keeps it, since making it clears them all.
#[derive(Drop)]
pub struct RecordRoom {
    writer: Writer,
}

impl Model for RecordRoom {
    ghost use Rattle.std.specs.Prelude.{ℕ, List};

    ghost Value = { List ℕ };

    ghost view = { λ room. room.writer };
}

impl RecordRoom {
    /// Room with no record in it.
    pub fn new() -> Self
        ensures { result ≡ [] }
    {
        RecordRoom {
            writer: Writer::new(),
        }
    }

    /// Writes the record of an entry in this format, in place of the one before.
    pub fn put(&mut self, entry: &Entry, format: Format)
        requires { IsTrue (within_bounds entry.now) }
        ensures written { self.new ≡ record_bytes format entry.now }
        ensures short { length self.new ≤ 7649 }
        ensures record { IsRecord format (record_bytes format entry.now) entry.now }
    {
        self.writer.clear();
        self.writer.entry(format, entry);
    }

    /// The record that was written last.
    pub fn record(&self) -> &[u8]
        ensures { result.now ≡ self.now }
    {
        self.writer.written()
    }
}
