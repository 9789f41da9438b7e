//! What the definitions come to: the contract is a law, and the body does nothing.

ghost use Rattle.std.specs.Prelude.{◌≡◌, ℕ, List, Option};
ghost use Rattle.dots_script.specs.declared.checked.Checked.{Checked};
ghost use Rattle.dots_run.specs.Load.{LoadReported};
ghost use Rattle.dots_run.specs.Reporting.{IsOf};

use crate::topic::Topic;

/// The topic and the bytes of the source decide what is to be told.
pub fn one_text()
    ensures { (topic : Topic) (left : Option (List ℕ)) (one other : Checked) → IsOf topic left one → IsOf topic left other → one ≡ other }
{}

/// A number has one report of its generated run.
pub fn one_load_text()
    ensures { (seed : ℕ) (one other : List ℕ) → LoadReported seed one → LoadReported seed other → one ≡ other }
{}
