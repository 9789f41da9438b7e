ghost use Rattle.std.specs.Prelude.{◌≡◌, ◌≢◌, ℕ, Ok, Err, IfOk, IfErr};
ghost use Rattle.dots_history.specs.declared.entry.Entry.{Entry};
ghost use Rattle.slot_journal.specs.declared.record_fault.EntryFault.TheVariants.{NotEntry, NoMemory};
ghost use Rattle.slot_journal.specs.RecordReading.{Gives, record_at};
ghost use Rattle.slot_journal.specs.Records.{IsRecord, IsBroken};

use crate::reader::Reader;
use crate::record_fault::EntryFault;
use dots_history::Entry;
use slot_store::Format;
use std::alloc::Global;

/// The entry whose record of this format the bytes are. One that is answered is within bounds.
///
/// # Errors
///
/// `NotEntry` with the place at which no record of the format can go on where the bytes are no record of it, and `NoMemory` where there is no
/// memory for the entry's lists and texts.
pub fn entry_of(alloc: Global, bytes: &[u8], format: Format) -> Result<Entry, EntryFault>
    ensures found { IfOk result (λ entry. IsRecord format bytes.now entry) }
    ensures only { (entry : Entry) → IsRecord format bytes.now entry → result ≢ Err NoMemory → result ≡ Ok entry }
    ensures broken { IfErr result (λ fault. (at : ℕ) → fault ≡ NotEntry at → IsBroken format bytes.now at) }
    ensures first { (at : ℕ) → IsBroken format bytes.now at → result ≢ Err NoMemory → result ≡ Err (NotEntry at) }
{
    read_record(alloc, bytes, format)
}

fn read_record(alloc: Global, bytes: &[u8], format: Format) -> Result<Entry, EntryFault>
    ensures { Gives (λ x. x) result (record_at format bytes.now) }
{
    let mut reader = Reader {
        alloc,
        end: bytes.len(),
        rest: bytes,
    };
    let entry = reader.whole(format, bytes)?;
    if !reader.rest.is_empty() {
        return Err(reader.fault());
    }
    Ok(entry)
}
