//! The rows and the lists that filter, each with its end.

ghost use Rattle.std.specs.Prelude.{◌≡◌, ℕ, List, map, IfOk};
ghost use Rattle.dots_history.specs.declared.entry.Entry.{Entry};
ghost use Rattle.filter_table.specs.TableRows.{row_of_acl, active_rows};
ghost use Rattle.dots_registry.specs.RegistryValues.{Represents, IsOf, time_of};
ghost use Rattle.host_checks.specs.Ends.{scrub_value, acl_value, timed_scrub, timed_acl};

use crate::ends::{left_of_list, left_of_row};
use dots_lists::{List, NoMemory};
use dots_registry::Registry;
use dots_settings::Settings;
use filter_table::FilterTable;
use nft_script::{TimedList, TimedRow};
use std::alloc::Global;

/// The rows of a table that filter, each with what is left of its mitigation.
pub fn timed_rows<'a>(
    alloc: Global,
    settings: &Settings,
    registry: &Registry,
    table: &'a FilterTable,
) -> Result<List<TimedRow<'a>>, NoMemory>
    requires { IsOf settings.now registry.now }
    ensures { IfOk result (λ rows. (entries : List Entry) → Represents registry.now entries
        → map (timed_scrub settings.now (time_of registry.now) entries) (active_rows table.now.scrubs) ≡ map scrub_value rows) }
{
    let mut rows = List::new(alloc);
    for row in table.scrubs() {
        let left = left_of_row(settings, registry, row);
        rows.push(TimedRow { row, left })?;
    }
    Ok(rows)
}

/// The access lists of a table, each with its end.
pub fn timed_lists<'a>(
    alloc: Global,
    settings: &Settings,
    registry: &Registry,
    table: &'a FilterTable,
) -> Result<List<TimedList<'a>>, NoMemory>
    requires { IsOf settings.now registry.now }
    ensures { IfOk result (λ lists. (entries : List Entry) → Represents registry.now entries
        → map (timed_acl settings.now (time_of registry.now) entries) (map row_of_acl table.now.acls) ≡ map acl_value lists) }
{
    let mut lists = List::new(alloc);
    for list in table.acls() {
        let left = left_of_list(settings, registry, list);
        lists.push(TimedList { list, left })?;
    }
    Ok(lists)
}
