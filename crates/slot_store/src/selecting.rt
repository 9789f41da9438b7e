//! The one way in which the half in use is changed.

ghost use Rattle.std.specs.Prelude.{◌≡◌, ℕ, ◌+◌, ◌%◌, ◌<◌, ◌≤◌, OnOk};
ghost use Rattle.dots_host.specs.Causes.{HasCause};
ghost use Rattle.dots_host.specs.Becoming.{Leaves, RestsWith};
ghost use Rattle.slot_store.specs.Opening.{Is};
ghost use Rattle.slot_store.specs.Copying.{Elsewhere, IsSelected, other_selector};

use crate::layout::SELECTOR;
use dots_host::{Disk, Failed};

/// The selector with its lowest bit changed.
pub fn other_selector(selector: u8) -> u8
    ensures { result ≡ other_selector selector }
{
    if selector % 2 == 0 {
        selector + 1
    } else {
        selector - 1
    }
}

/// Writes the selector, and syncs.
pub fn select<D: Disk>(disk: &mut D, selector: u8) -> Result<(), Failed>
    requires { 64 ≤ D.extent disk.old }
    ensures moments { (seen : ℕ → ℕ) → RestsWith (D.media disk.old) (Is seen) →
        Leaves (D.media disk.old) (D.media disk.new) (Elsewhere seen 48 1) }
    ensures selected { OnOk result ((seen : ℕ → ℕ) → RestsWith (D.media disk.old) (Is seen) →
        RestsWith (D.media disk.new) (IsSelected seen selector)) }
    ensures extent { D.extent disk.new ≡ D.extent disk.old }
    ensures cause { HasCause (D.faults disk.old) (D.faults disk.new) result }
    ensures beside { D.beside disk.old disk.new }
{
    disk.write_at(SELECTOR, &[selector])?;
    disk.sync()?;
    Ok(())
}
