//! Drawn tables as texts.

use crate::draws::Draws;
use crate::lists::lists;
use crate::packets::line;
use crate::rows::{client, rows};
use acl_lists::{AclRow, PrefixList, ScrubRow};
use anyhow::{Result, bail};
use dots_host::MemorySource;
use dots_lists::{Bytes, List};
use dots_settings::{Settings, read_settings};
use ip_scope::{Addr, Family, PortRange, Prefix};
use nft_script::{TimedList, TimedRow, nft_script};
use std::alloc::Global;

/// How many packets each table has.
const PACKETS: u32 = 10;

/// Settings of two domains, with prefixes of both families each.
const SETTINGS: &str = "\
domain one
prefix one 10.0.0.0/29
prefix one fd00::/125
prefix one 10.0.0.2/31
domain two
prefix two 10.0.0.8/30
prefix two fd00::8/126
prefix two fd00::c/127
";

pub fn settings(alloc: Global) -> Result<Settings> {
    let mut source = MemorySource::new(alloc, SETTINGS.as_bytes())?;
    match read_settings(alloc, &mut source) {
        Ok(settings) => Ok(settings),
        Err(_) => bail!("no settings"),
    }
}

/// The prefixes of a domain.
fn prefixes(alloc: Global, settings: &Settings, domain: u16) -> Result<PrefixList> {
    let mut list = List::new(alloc);
    for prefix in settings.prefixes_of(domain) {
        list.push(*prefix)?;
    }
    Ok(list)
}

/// The script of these rows and lists, with drawn ends.
fn script(
    alloc: Global,
    settings: &Settings,
    draws: &mut Draws,
    rows: &[ScrubRow],
    lists: &[AclRow],
) -> Result<Bytes> {
    let mut timed_rows = List::new(alloc);
    for row in rows {
        let left = draws.left();
        timed_rows.push(TimedRow { row, left })?;
    }
    let mut timed_lists = List::new(alloc);
    for list in lists {
        let left = draws.left();
        timed_lists.push(TimedList { list, left })?;
    }
    Ok(nft_script(alloc, settings, timed_rows.items(), timed_lists.items())?)
}

fn add_script(text: &mut String, script: &Bytes) -> Result<()> {
    match str::from_utf8(script.items()) {
        Ok(script) => text.push_str(script)?,
        Err(_) => bail!("no text"),
    }
    Ok(())
}

/// A drawn table: its script, and lines of drawn packets with their fates.
pub fn table(alloc: Global, settings: &Settings, draws: &mut Draws) -> Result<String> {
    let rows = rows(alloc, draws)?;
    let lists = lists(alloc, draws)?;
    let domains = [prefixes(alloc, settings, 0)?, prefixes(alloc, settings, 1)?];
    let script = script(alloc, settings, draws, rows.items(), lists.items())?;
    let mut text = String::new(alloc);
    add_script(&mut text, &script)?;
    for _ in 0..PACKETS {
        let line = line(alloc, draws, &domains, rows.items(), lists.items())?;
        text.push_str(line.as_str())?;
    }
    Ok(text)
}

/// A row to one address of its own, with two protocols and a range of ports.
fn loaded(alloc: Global, number: u32) -> Result<ScrubRow> {
    let address = Addr {
        family: Family::V4,
        number: u128::from(number),
    };
    let mut ports = List::new(alloc);
    ports.push(PortRange::new(443, 453).unwrap())?;
    let protocols = Bytes::from_vec(Vec::from_slice(alloc, &[6, 17])?);
    let cuid = client(alloc)?;
    let prefix = Prefix::new(address, 32).unwrap();
    Ok(ScrubRow {
        domain: 0,
        cuid,
        mid: number,
        prefix,
        ports,
        protocols,
        active: true,
    })
}

/// The script of a table of so many rows.
pub fn load(alloc: Global, count: u32) -> Result<String> {
    let settings = settings(alloc)?;
    let mut rows = List::new(alloc);
    for number in 0..count {
        rows.push(loaded(alloc, number)?)?;
    }
    let mut draws = Draws::new(1);
    let script = script(alloc, &settings, &mut draws, rows.items(), &[])?;
    let mut text = String::new(alloc);
    add_script(&mut text, &script)?;
    Ok(text)
}
