//! What tells the filters of one time from those of another.

ghost use Rattle.std.specs.Prelude.{◌≡◌, ◌++◌, List, map, IfOk, OnOk};
ghost use Rattle.dots_history.specs.declared.entry.Entry.{Entry};
ghost use Rattle.dots_registry.specs.RegistryValues.{Represents, IsOf, time_of};
ghost use Rattle.host_checks.specs.Ends.{scrub_value, acl_value};
ghost use Rattle.host_checks.specs.Shown.{AreShown, end_at, row_ends, list_ends, same_filters};

use crate::filtering::FilterForm;
use crate::report::report_of;
use crate::timed::{timed_lists, timed_rows};
use dots_lists::{Bytes, List, NoMemory};
use dots_registry::Registry;
use dots_settings::Settings;
use nft_script::{TimedList, TimedRow};
use std::alloc::Global;

/// The filters of a registry, and when each is over.
#[derive(Drop)]
pub struct Shown {
    /// The report.
    pub report: Bytes,
    /// The seconds at which the rows are over, and behind them those of the lists, in order; the greatest number for one without an end.
    pub ends: List<u64>,
}

impl Shown {
    /// Those of a registry of these settings, at its time.
    pub fn of(alloc: Global, settings: &Settings, registry: &Registry) -> Result<Self, NoMemory>
        requires { IsOf settings.now registry.now }
        ensures { IfOk result (λ shown. (entries : List Entry) → Represents registry.now entries
            → AreShown settings.now (time_of registry.now) entries shown) }
    {
        let report = report_of(alloc, settings, registry)?;
        let table = registry.filters();
        let rows = timed_rows(alloc, settings, registry, table)?;
        let lists = timed_lists(alloc, settings, registry, table)?;
        let mut ends = List::new(alloc);
        add_row_ends(&mut ends, rows.items(), registry.time())?;
        add_list_ends(&mut ends, lists.items(), registry.time())?;
        Ok(Shown { report, ends })
    }

    /// Whether both have the same filters, in this form: a script says when they are over, and a report doesn't.
    pub fn has_same(&self, form: FilterForm, other: &Shown) -> bool
        ensures { result ≡ same_filters form self.now other.now }
    {
        let same = self.report.items() == other.report.items();
        match form {
            FilterForm::Report => same,
            FilterForm::Script => same && self.ends.items() == other.ends.items(),
        }
    }
}

/// Adds the second at which each row is over.
fn add_row_ends(ends: &mut List<u64>, rows: &[TimedRow<'_>], now: u64) -> Result<(), NoMemory>
    ensures { OnOk result (ends.new ≡ ends.old ++ row_ends now (map scrub_value rows.now)) }
{
    for row in rows {
        ends.push(end_at(now, row.left))?;
    }
    Ok(())
}

/// Adds the second at which each list is over.
fn add_list_ends(ends: &mut List<u64>, lists: &[TimedList<'_>], now: u64) -> Result<(), NoMemory>
    ensures { OnOk result (ends.new ≡ ends.old ++ list_ends now (map acl_value lists.now)) }
{
    for list in lists {
        ends.push(end_at(now, list.left))?;
    }
    Ok(())
}

/// The second at which a filter is over that has so many seconds left.
fn end_at(now: u64, left: Option<u32>) -> u64
    ensures { result ≡ end_at now left }
{
    match left {
        Some(left) => now.saturating_add(u64::from(left)),
        None => u64::MAX,
    }
}
