//! What is said of a journal.

ghost use Rattle.std.specs.Prelude.{◌≡◌, ◌++◌, OnOk};
ghost use Rattle.host_checks.specs.Journals.{is_ahead, last_line, restart_seconds, entries_count, slots_count, restart_line, amounts_text, ahead_line, filled_text, refused_text, journal_text, is_fit};

use crate::entry_line::add_words;
use crate::findings::add_numbered;
use dots_lists::NoMemory;
use dots_script::add_count;
use slot_journal::JournalFault;

/// How many seconds the last entry may be ahead of the clock.
const MAX_AHEAD: u64 = 3600;

/// How many entries a restart reads in a second at least.
const ENTRIES_A_SECOND: u32 = 250;

/// What is found of the journal that a host file names.
#[derive(Clone, Copy)]
pub enum JournalState {
    /// There is no file. A server makes it.
    Missing,
    /// There is a file in which nothing stands. A server begins a journal there.
    Blank,
    /// There is something that can't be a journal.
    NotOne,
    /// It can't be read.
    Unreadable,
    /// A server refuses it for this fault.
    Refused(JournalFault),
    /// It is one of the settings.
    Filled {
        /// How many entries it holds.
        used: u64,
        /// How many it may hold before a compaction.
        slots: u32,
        /// The time of the last, in seconds since 1970.
        last: Option<u64>,
    },
}

impl JournalState {
    /// Whether a server starts with it at this second.
    pub fn is_fit(self, now: u64) -> bool
        ensures { result ≡ is_fit now self }
    {
        match self {
            JournalState::Missing | JournalState::Blank => true,
            JournalState::NotOne | JournalState::Unreadable => false,
            JournalState::Refused(_) => false,
            JournalState::Filled { last, .. } => !is_ahead(now, last),
        }
    }
}

/// Adds what is said of the journal at this second.
#[tactic(auto, unfolding(crate::specs::Journals::journal_text))]
pub fn add_journal(text: &mut Vec<u8>, now: u64, state: JournalState) -> Result<(), NoMemory>
    ensures { OnOk result (text.new.items ≡ text.old.items ++ journal_text now state) }
{
    match state {
        JournalState::Missing => add_words(text, b"journal: not there yet\n"),
        JournalState::Blank => add_words(text, b"journal: empty\n"),
        JournalState::NotOne => add_words(
            text,
            b"fault 6: at the path of the journal stands what is no journal\n",
        ),
        JournalState::Unreadable => add_words(text, b"fault 6: the journal can't be read\n"),
        JournalState::Refused(why) => add_refused(text, why),
        JournalState::Filled { used, slots, last } => add_filled(text, now, used, slots, last),
    }
}

/// Adds why a server refuses the journal, and with which status.
#[tactic(auto, unfolding(crate::specs::Journals::refused_text))]
pub fn add_refused(text: &mut Vec<u8>, why: JournalFault) -> Result<(), NoMemory>
    ensures { OnOk result (text.new.items ≡ text.old.items ++ refused_text why) }
{
    match why {
        JournalFault::TooSmall { .. } => add_words(
            text,
            b"fault 10: the journal has fewer bytes than it needs\n",
        ),
        JournalFault::NotOurs { at } => add_numbered(
            text,
            b"fault 7: what stands in the journal is no journal's at byte ",
            at,
            b"\n",
        ),
        JournalFault::SettingsChanged { .. } => add_words(
            text,
            b"fault 8: the journal was written under other settings\n",
        ),
        JournalFault::DiskFault => add_words(text, b"fault 6: the journal can't be read\n"),
        JournalFault::NoMemory => Ok(()),
    }
}

#[tactic(auto, unfolding(crate::specs::Journals::filled_text))]
fn add_filled(
    text: &mut Vec<u8>,
    now: u64,
    used: u64,
    slots: u32,
    last: Option<u64>,
) -> Result<(), NoMemory>
    ensures { OnOk result (text.new.items ≡ text.old.items ++ filled_text now used slots last) }
{
    add_amounts(text, used, slots, last)?;
    add_restart(text, used)?;
    add_ahead(text, now, last)?;
    Ok(())
}

/// Adds how many entries the journal has and may have, and the second of the last.
#[tactic(auto, unfolding(crate::specs::Journals::amounts_text))]
fn add_amounts(text: &mut Vec<u8>, used: u64, slots: u32, last: Option<u64>) -> Result<(), NoMemory>
    ensures { OnOk result (text.new.items ≡ text.old.items ++ amounts_text used slots last) }
{
    add_entries_count(text, used)?;
    add_slots_count(text, slots)?;
    add_last(text, last)?;
    Ok(())
}

#[tactic(auto, unfolding(crate::specs::Journals::entries_count))]
fn add_entries_count(text: &mut Vec<u8>, number: u64) -> Result<(), NoMemory>
    ensures { OnOk result (text.new.items ≡ text.old.items ++ entries_count number) }
{
    add_count(text, b"entries of the journal", number)
}

#[tactic(auto, unfolding(crate::specs::Journals::slots_count))]
fn add_slots_count(text: &mut Vec<u8>, number: u32) -> Result<(), NoMemory>
    ensures { OnOk result (text.new.items ≡ text.old.items ++ slots_count number) }
{
    add_count(text, b"slots of a half", u64::from(number))
}

#[tactic(auto, unfolding(crate::specs::Journals::restart_line))]
fn add_restart(text: &mut Vec<u8>, used: u64) -> Result<(), NoMemory>
    ensures { OnOk result (text.new.items ≡ text.old.items ++ restart_line used) }
{
    add_count(text, b"seconds of a restart at most", restart_seconds(used))
}

#[tactic(auto, unfolding(crate::specs::Journals::last_line))]
fn add_last(text: &mut Vec<u8>, last: Option<u64>) -> Result<(), NoMemory>
    ensures { OnOk result (text.new.items ≡ text.old.items ++ last_line last) }
{
    match last {
        Some(last) => add_count(text, b"second of the last entry", last),
        None => Ok(()),
    }
}

fn restart_seconds(used: u64) -> u64
    ensures { result ≡ restart_seconds used }
{
    used / u64::from(ENTRIES_A_SECOND) + 1
}

#[tactic(auto, unfolding(crate::specs::Journals::ahead_line))]
fn add_ahead(text: &mut Vec<u8>, now: u64, last: Option<u64>) -> Result<(), NoMemory>
    ensures { OnOk result (text.new.items ≡ text.old.items ++ ahead_line now last) }
{
    match last {
        Some(last) if is_ahead(now, Some(last)) => add_numbered(
            text,
            b"fault: the last entry is ahead of the clock by ",
            last.saturating_sub(now),
            b" seconds\n",
        ),
        _ => Ok(()),
    }
}

/// Whether the last entry is ahead of the clock by more than an hour.
fn is_ahead(now: u64, last: Option<u64>) -> bool
    ensures { result ≡ is_ahead now last }
{
    match last {
        Some(last) => last.saturating_sub(now) > MAX_AHEAD,
        None => false,
    }
}
