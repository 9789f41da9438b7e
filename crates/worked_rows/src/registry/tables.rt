//! Tables of rows in text.
//!
//! A row is what is asked and, behind an equals sign, the answer. A table has a head that stands in front of each of its rows: entries,
//! or steps. Where a question is put, it stands behind a question mark.

use crate::registry::entries::settings;
use crate::registry::histories::spell_history;
use crate::registry::judgements::spell_judged;
use crate::registry::observers::spell_observers;
use crate::registry::records::spell_record;
use crate::registry::registries::spell_registry;
use crate::registry::repeats::spell_repeats;
use crate::registry::senders::spell_sender;
use crate::registry::spelled::Spelled;
use crate::registry::survivors::spell_survivor;
use crate::registry::texts::{SETTINGS, TIGHT};
use dots_settings::Settings;
use slot_store::Format;
use std::alloc::Global;
use std::process::Abort;
use std::test::Fail;

/// To what the rows are put.
#[derive(Clone, Copy)]
pub enum Part {
    Registry,
    History,
    Judgement,
    /// Records of the first format, each also written and read in the second.
    Record,
    /// Records of the second format.
    Sealed,
    Survivor,
    Observers,
    Sender,
    Repeats,
}

/// A head and rows.
pub type Table = (&'static str, &'static str);

fn settings_of(part: Part) -> &'static str {
    match part {
        Part::History => TIGHT,
        _ => SETTINGS,
    }
}

fn spell(
    alloc: Global,
    spelled: &mut Spelled,
    settings: &Settings,
    part: Part,
    asked: &str,
) -> Result<(), Fail> {
    match part {
        Part::Registry => spell_registry(alloc, spelled, settings, asked),
        Part::History => spell_history(alloc, spelled, settings, asked),
        Part::Judgement => spell_judged(alloc, spelled, asked),
        Part::Record => spell_record(alloc, spelled, Format::One, asked),
        Part::Sealed => spell_record(alloc, spelled, Format::Two, asked),
        Part::Survivor => spell_survivor(alloc, spelled, settings, asked),
        Part::Observers => spell_observers(alloc, spelled, settings, asked),
        Part::Sender => spell_sender(alloc, spelled, asked),
        Part::Repeats => spell_repeats(alloc, spelled, settings, asked),
    }
}

/// Whether this is what is told.
fn is_spelled(
    alloc: Global,
    settings: &Settings,
    part: Part,
    asked: &str,
    want: &str,
) -> Result<bool, Fail> {
    let mut spelled = Spelled::new();
    spell(alloc, &mut spelled, settings, part, asked)?;
    Ok(spelled.spells(want))
}

/// The same with the settings of the part.
fn is_answer(alloc: Global, part: Part, asked: &str, want: &str) -> Result<bool, Fail> {
    let settings = settings(alloc, settings_of(part))?;
    is_spelled(alloc, &settings, part, asked, want)
}

fn holds(alloc: Global, part: Part, head: &str, row: &str) -> Result<bool, Fail> {
    let (asked, want) = row.split_once(" = ").ok_or("a row")?;
    let asked = format!(in alloc; "{head}{asked}")?;
    is_answer(alloc, part, asked.as_str(), want)
}

/// Each row of these tables holds.
pub fn all_hold(rt: &impl Abort, alloc: Global, part: Part, tables: &[Table]) -> Result<(), Fail> {
    for (head, rows) in tables {
        for row in rows.lines() {
            assert!(rt; holds(alloc, part, head, row)?, "at {row}");
        }
    }
    Ok(())
}
