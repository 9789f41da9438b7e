//! A registry that takes entries which fit it.

ghost use Rattle.std.specs.Prelude.{List};
ghost use Rattle.dots_history.specs.declared.entry.Entry.{Entry};
ghost use Rattle.dots_registry.specs.RegistryValues.{Represents, IsOf};

use crate::registry::entries::entry;
use crate::registry::spelled::Spelled;
use crate::registry::words::flag;
use dots_history::Entry;
use dots_registry::Registry;
use dots_settings::Settings;
use std::alloc::Global;
use std::test::Fail;

/// Takes an entry, and says whether it fits; one that doesn't changes nothing.
fn take(registry: &mut Registry, settings: &Settings, entry: Entry) -> Result<bool, Fail>
    requires settings { IsOf settings.now registry.old }
    requires represents { (entries : List Entry) × Represents registry.old entries }
    ensures settings { IsOf settings.now registry.new }
    ensures represents { (entries : List Entry) × Represents registry.new entries }
{
    if !registry.fits(settings, &entry) {
        drop(entry);
        return Ok(false);
    }
    let staged = registry.stage(entry)?;
    registry.apply(staged, 0);
    Ok(true)
}

/// Takes the entries of these words, and says of each by a letter whether it fits.
pub fn take_all(
    alloc: Global,
    registry: &mut Registry,
    settings: &Settings,
    entries: &str,
    fit: &mut Spelled,
) -> Result<(), Fail>
    requires settings { IsOf settings.now registry.old }
    requires represents { (entries : List Entry) × Represents registry.old entries }
    ensures settings { IsOf settings.now registry.new }
    ensures represents { (entries : List Entry) × Represents registry.new entries }
{
    for text in entries.split("; ") {
        let entry = entry(alloc, text)?;
        fit.push(flag(take(registry, settings, entry)?));
    }
    Ok(())
}
