//! What holds of every record. Each law is the contract of a function with an empty body.

ghost use Rattle.std.specs.Prelude.{◌≡◌, ◌⊎◌, ℕ, List, [], ◌++◌, IsTrue};
ghost use Rattle.std.specs.List.{AllByRecursion};
ghost use Rattle.slot_store.specs.declared.format.Format.{Format};
ghost use Rattle.slot_store.specs.declared.format.Format.TheVariants.{One, Two};
ghost use Rattle.slot_store.specs.Formats.{upgraded};
ghost use Rattle.dots_history.specs.Bounds.{within_bounds};
ghost use Rattle.dots_history.specs.declared.entry.Entry.{Entry};
ghost use Rattle.slot_journal.specs.Values.{IsByte, IsEntry};
ghost use Rattle.slot_journal.specs.Layout.{record_bytes};
ghost use Rattle.slot_journal.specs.Records.{IsRecord, IsSomeRecord, IsBroken};

/// In each format an entry within bounds has one record, whose bytes are its layout, and no other entry has it.
pub fn one_record()
    ensures some { (format : Format) (entry : Entry) → IsEntry entry → IsTrue (within_bounds entry) → IsRecord format (record_bytes format entry) entry }
    ensures bytes { (format : Format) (first second : List ℕ) (entry : Entry) → IsRecord format first entry → IsRecord format second entry → first ≡ second }
    ensures entry { (format : Format) (bytes : List ℕ) (first second : Entry) → IsRecord format bytes first → IsRecord format bytes second → first ≡ second }
{}

/// No record begins another of its format.
pub fn no_front()
    ensures { (format : Format) (bytes more : List ℕ) → IsSomeRecord format bytes → IsSomeRecord format (bytes ++ more) → more ≡ [] }
{}

/// In each format bytes are a record, or there is one place at which no record can go on.
pub fn one_place()
    ensures either { (format : Format) (bytes : List ℕ) → AllByRecursion IsByte bytes → IsSomeRecord format bytes ⊎ ((at : ℕ) × IsBroken format bytes at) }
    ensures neither { (format : Format) (bytes : List ℕ) (at : ℕ) → IsBroken format bytes at → ¬ (IsSomeRecord format bytes) }
    ensures one { (format : Format) (bytes : List ℕ) (first second : ℕ) → IsBroken format bytes first → IsBroken format bytes second → first ≡ second }
{}

/// The record of an entry in the first format becomes that of the same entry in the second.
pub fn one_upgrade()
    ensures { (entry : Entry) → IsEntry entry → IsTrue (within_bounds entry) → upgraded (record_bytes One entry) ≡ record_bytes Two entry }
{}
