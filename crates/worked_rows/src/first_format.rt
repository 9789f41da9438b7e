//! A journal that is made in the first format: the rows of `journal_rows::FIRST_FORMAT` begin with these bytes.

use crate::images::{holds_all, image_of};
use crate::registry::entries::settings;
use crate::tables::Row;
use crate::texts::{TWO, TWO_BYTES};
use dots_host::{Disk, MemoryHost};
use dots_settings::Settings;
use slot_journal::{Journal, bytes_needed};
use std::alloc::Global;
use std::test::Fail;

/// The header, up to its end.
const MADE: Row<'static> = Row {
    lines: "* 0 HEADER\n* 48 00000000000000000000000000000000",
};

/// Formats the disk of the host, which is all zeros, in the first format, and answers whether it then holds what these lines say and nothing
/// else.
fn is_made(alloc: Global, settings: &Settings, host: &mut MemoryHost, lines: &str) -> Option<bool> {
    if host.size() < bytes_needed(settings) {
        return None;
    }
    Journal::format_one(host, settings).ok()?;
    let wanted = image_of(alloc, TWO_BYTES as usize, lines)?;
    let holds = holds_all(alloc, host.image(), lines)?;
    Some(holds && wanted.as_slice().starts_with(host.image()))
}

#[test]
fn a_journal_is_made_in_the_first_format(rt: HostRuntime) -> Result<(), Fail> {
    let alloc = rt.alloc();
    let settings = settings(alloc, TWO)?;
    let lines = MADE.text(alloc, "*").ok_or("the lines")?;
    let mut host = MemoryHost::new(alloc, TWO_BYTES)?;
    let is_made = is_made(alloc, &settings, &mut host, lines.as_str());
    drop(host);
    assert!(rt; is_made == Some(true));
    Ok(())
}
