//! The rows that filter, and the journal.

ghost use Rattle.std.specs.Prelude.{◌≡◌, ◌++◌, length, List, IfOk, OnOk};
ghost use Rattle.filter_table.specs.TableRows.{active_rows};
ghost use Rattle.dots_history.specs.declared.entry.Entry.{Entry};
ghost use Rattle.dots_registry.specs.RegistryValues.{Represents, time_of};
ghost use Rattle.server_figures.specs.Figures.{kept_lines, rows_lines, slots_lines};

use crate::lines::add_gauge;
use dots_lists::NoMemory;
use dots_registry::Ledger;
use filter_table::FilterTable;

/// How many rows filter, how many lists are held, and how much of the journal is in use.
#[tactic(auto, unfolding(crate::specs::Figures::kept_lines))]
pub fn add_kept(text: &mut Vec<u8>, ledger: &Ledger) -> Result<(), NoMemory>
    ensures { OnOk result ((history : List Entry) → Represents ledger.now.registry history
        → text.new.items ≡ text.old.items ++ kept_lines (time_of ledger.now.registry) history ledger.now.journal) }
{
    add_rows(text, ledger.registry().filters())?;
    add_slots(text, ledger)?;
    Ok(())
}

/// How many rows of mitigations filter, and how many lists are held.
#[tactic(auto, unfolding(crate::specs::Figures::rows_lines))]
fn add_rows(text: &mut Vec<u8>, table: &FilterTable) -> Result<(), NoMemory>
    ensures { OnOk result (text.new.items ≡ text.old.items ++ rows_lines (length (active_rows table.now.scrubs)) (length table.now.acls)) }
{
    let rows = count_rows(table)?;
    let lists = count_lists(table)?;
    add_gauge(
        text,
        b"dots_mitigation_rows",
        b"Rows of mitigations that filter.",
        rows,
    )?;
    add_gauge(
        text,
        b"dots_list_rows",
        b"Access lists that are held.",
        lists,
    )
}

/// How much of the journal is in use.
#[tactic(auto, unfolding(crate::specs::Figures::slots_lines))]
fn add_slots(text: &mut Vec<u8>, ledger: &Ledger) -> Result<(), NoMemory>
    ensures { OnOk result (text.new.items ≡ text.old.items ++ slots_lines ledger.now.journal) }
{
    add_gauge(
        text,
        b"dots_journal_slots_used",
        b"Slots of the journal in use.",
        u64::from(ledger.used()),
    )?;
    add_gauge(
        text,
        b"dots_journal_slots",
        b"Slots of the journal in all.",
        u64::from(ledger.slots()),
    )
}

/// How many rows of mitigations filter. There is no memory for more than can be counted.
fn count_rows(table: &FilterTable) -> Result<u64, NoMemory>
    ensures { IfOk result (λ rows. rows ≡ length (active_rows table.now.scrubs)) }
{
    let mut rows = 0;
    for _row in table.scrubs() {
        if rows == u64::MAX {
            return Err(NoMemory);
        }
        rows += 1;
    }
    Ok(rows)
}

/// How many access lists are held.
fn count_lists(table: &FilterTable) -> Result<u64, NoMemory>
    ensures { IfOk result (λ lists. lists ≡ length table.now.acls) }
{
    let mut lists = 0;
    for _list in table.acls() {
        if lists == u64::MAX {
            return Err(NoMemory);
        }
        lists += 1;
    }
    Ok(lists)
}
