//! The journal of other settings, made of what counts in one.

ghost use Rattle.std.specs.Prelude.{◌≡◌, ◌≤◌, ◌<◌, ◌^◌, ℕ, List, [], map, Some, IfOk, OnOk};
ghost use Rattle.std.specs.List.{AllByRecursion};
ghost use Rattle.dots_host.specs.Media.{blank};
ghost use Rattle.dots_host.specs.Stored.{media_of};
ghost use Rattle.dots_host.specs.Becoming.{RestsWith};
ghost use Rattle.dots_history.specs.Histories.{Within};
ghost use Rattle.dots_history.specs.Filed.{Filed, entry_of};
ghost use Rattle.slot_store.specs.Layout.{needed_of};
ghost use Rattle.slot_store.specs.Gates.{Sees};
ghost use Rattle.dots_registry.specs.RegistryValues.{time_of};
ghost use Rattle.host_checks.specs.KeptEntries.{IsBounded, judged};
ghost use Rattle.host_checks.specs.Making.{HasTaken, HasCalm, IsMadeFrom, IsFilledWith, HasNamed, HasCounting};

use crate::kept_entry::{KeptEntry, pick};
use crate::migrating::take_all;
use crate::returning::returns;
use dots_history::SlotList;
use dots_host::{Disk, MemoryDisk};
use dots_lists::NoMemory;
use dots_registry::Ledger;
use dots_script::add_count;
use dots_settings::Settings;
use slot_journal::{Journal, JournalFault, slots};
use std::alloc::Global;

/// A journal in memory, and what is to be told of it.
#[derive(Drop)]
pub struct MadeJournal {
    pub disk: MemoryDisk,
    pub text: Vec<u8>,
}

/// Why no journal is made.
#[derive(Clone, Copy)]
pub enum MakeFault {
    /// The one that is read is refused for this fault.
    Refused(JournalFault),
    /// The new settings need more bytes than there are.
    TooSmall,
    /// Memory ran out.
    NoMemory,
}

impl From<NoMemory> for MakeFault {
    ghost use Rattle.std.specs.Prelude.{◌≡◌};
    ghost use Rattle.host_checks.specs.declared.made_journal.MakeFault.TheVariants.{NoMemory};

    ghost from_gives = { λ _ fault. fault ≡ NoMemory };

    fn from(_: NoMemory) -> Self {
        Self::NoMemory
    }
}

/// Makes a journal of the new settings, on a disk in memory of so many bytes, of what counts at this second of the journal of a disk under
/// the old ones, and tells what is left out. Over a disk that refuses each write nothing is written to it.
///
/// # Errors
///
/// `Refused` where the disk is refused, `TooSmall` where the new settings need more bytes, and `NoMemory`.
pub fn make_journal<D: Disk>(
    alloc: Global,
    from: &mut D,
    old: &Settings,
    new: &Settings,
    room: u64,
    now: u64,
) -> Result<MadeJournal, MakeFault>
    requires early { now < 2 ^ 48 }

    // What is made is a journal of the new settings. Where the old disk is told, it holds what counts there and goes over, and all else is told.
    ensures made { IfOk result (λ made. RestsWith (Some (media_of made.disk)) (HasCalm new.now)) }
    ensures from { IfOk result (λ made. (seen : ℕ → ℕ) → Sees (D.media from.old) seen
        → IsMadeFrom old.now new.now now seen (Some (media_of made.disk)) made.text.items) }
    ensures extent { D.extent from.new ≡ D.extent from.old }
{
    let list = match read_kept(alloc, from, old, new, now) {
        Ok(list) => list,
        Err(JournalFault::NoMemory) => return Err(MakeFault::NoMemory),
        Err(fault) => return Err(MakeFault::Refused(fault)),
    };
    let mut disk = MemoryDisk::new(alloc, room);
    match fill(alloc, &mut disk, old, new, list) {
        Ok(text) => Ok(MadeJournal { disk, text }),
        Err(fault) => Err(give_up(disk, fault)),
    }
}

/// Lets the disk go, for this fault.
fn give_up(disk: MemoryDisk, fault: MakeFault) -> MakeFault {
    drop(disk);
    fault
}

/// The entries that the view of the journal of a disk names at this second, each with its slot.
fn read_kept<D: Disk>(
    alloc: Global,
    disk: &mut D,
    old: &Settings,
    new: &Settings,
    now: u64,
) -> Result<Vec<KeptEntry>, JournalFault>
    requires early { now < 2 ^ 48 }
    ensures each { IfOk result (λ list. AllByRecursion IsBounded list.items) }
    ensures counting { IfOk result (λ list. (seen : ℕ → ℕ) → Sees (D.media disk.old) seen → HasCounting old.now new.now now seen list.items) }
    ensures extent { D.extent disk.new ≡ D.extent disk.old }
{
    let keep = read_slots(alloc, disk, old, now)?;
    let (_journal, entries) = Journal::recover(alloc, disk, old)?;
    let list = pick(alloc, old, new, entries, keep.items())?;
    Ok(list)
}

/// The slots of the entries that the view of the journal of a disk names at this second.
fn read_slots<D: Disk>(
    alloc: Global,
    disk: &mut D,
    old: &Settings,
    now: u64,
) -> Result<SlotList, JournalFault>
    requires early { now < 2 ^ 48 }
    ensures named { IfOk result (λ keep. (seen : ℕ → ℕ) → Sees (D.media disk.old) seen → HasNamed old.now now seen (D.media disk.new) keep.items) }
    ensures extent { D.extent disk.new ≡ D.extent disk.old }
{
    let mut keep = SlotList::new(alloc, slots(old) as usize)?;
    let ledger = Ledger::begin(alloc, disk, old, now)?;
    ledger.registry().kept(&mut keep);
    ledger.let_go();
    Ok(keep)
}

/// Begins a journal on a disk of zeros, and takes of these entries into it what goes over. Answers what is to be told.
fn fill(
    alloc: Global,
    disk: &mut MemoryDisk,
    old: &Settings,
    new: &Settings,
    list: Vec<KeptEntry>,
) -> Result<Vec<u8>, MakeFault>
    requires blank { media_of disk.old ≡ blank [] }
    requires each { AllByRecursion IsBounded list.items }
    ensures made { OnOk result (RestsWith (Some (media_of disk.new)) (HasCalm new.now)) }
    ensures filled { IfOk result (λ text. (filed : List Filed) (t : ℕ) → list.items ≡ map (judged old.now new.now) filed → Within 0 (map entry_of filed) t
        → IsFilledWith old.now new.now t filed (Some (media_of disk.new)) text.items) }
{
    let over = returns(alloc, list.as_slice())?;
    let mut text = Vec::new(alloc);
    add_count(&mut text, b"entries that count", list.len() as u64)?;
    let mut ledger = begin(alloc, disk, new)?;
    let taken = take_all(
        disk,
        &mut ledger,
        old,
        new,
        list,
        over.as_slice(),
        &mut text,
    );
    ledger.let_go();
    taken?;
    Ok(text)
}

/// The ledger of a disk of zeros in memory.
fn begin(alloc: Global, disk: &mut MemoryDisk, new: &Settings) -> Result<Ledger, MakeFault>
    requires { media_of disk.old ≡ blank [] }
    ensures begun { IfOk result (λ ledger. HasTaken new.now [] ledger (Some (media_of disk.new)) × (time_of ledger.registry ≡ 0)) }
    ensures size { IfOk result (λ ledger. needed_of ledger.journal.slots ≤ disk.new.extent) }
{
    match Ledger::begin(alloc, disk, new, 0) {
        Ok(ledger) => Ok(ledger),
        Err(JournalFault::TooSmall { .. }) => Err(MakeFault::TooSmall),
        Err(_) => Err(MakeFault::NoMemory),
    }
}
