//! What holds of every journal. Each law is the contract of a function with an empty body.

ghost use Rattle.std.specs.Prelude.{◌≡◌, ℕ, List};
ghost use Rattle.slot_store.specs.Layout.{HasRecords};

use crate::format::Format;

/// An image of a disk holds one list of records at most, of one format.
pub fn one_list()
    ensures { (slots : ℕ) (digest : List ℕ) (format other : Format) (image : ℕ → ℕ) (first second : List (List ℕ)) →
        HasRecords slots digest format image first → HasRecords slots digest other image second → (format ≡ other) × (first ≡ second) }
{}
