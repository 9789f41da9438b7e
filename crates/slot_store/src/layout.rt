//! Where a journal lies on a disk.

ghost use Rattle.std.specs.Prelude.{◌≡◌, ◌<◌};
ghost use Rattle.slot_store.specs.Layout.{place_of, needed_of, format_place};

/// The bytes of a slot: its gate, two bytes of length, and the record.
pub const SLOT: usize = 8192;

/// The greatest length of a record, in bytes.
pub const MAX_RECORD: usize = SLOT - 3;

/// The place of a slot of a half.
pub fn place_of(slots: u32, half: u8, slot: u32) -> u64
    requires { half < 2 }
    ensures { result ≡ place_of slots half slot }
{
    SLOT as u64 * (1 + u64::from(half) * u64::from(slots) + u64::from(slot))
}

/// The place of the selector, whose lowest bit names the half in use.
pub const SELECTOR: u64 = 48;

/// The place of the byte that says a half's format.
pub fn format_place(half: u8) -> u64
    requires { half < 2 }
    ensures { result ≡ format_place half }
{
    49 + u64::from(half)
}

/// How many bytes a journal needs.
pub fn needed_of(slots: u32) -> u64
    ensures { result ≡ needed_of slots }
{
    SLOT as u64 * (1 + 2 * u64::from(slots))
}
