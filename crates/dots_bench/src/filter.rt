//! Fates of packets by the rows of a table, again and again.

use acl_lists::{Fate, Packet, ScrubRow};
use anyhow::{Context, Result, bail, ensure};
use dots_host::MemorySource;
use dots_lists::{Bytes, List, Text};
use dots_settings::{Settings, read_settings};
use filter_table::FilterTable;
use ip_scope::{Addr, Family, Prefix, parse_prefix};
use std::alloc::Global;

fn prefix(text: &str) -> Result<Prefix> {
    match parse_prefix(text.as_bytes()) {
        Ok(prefix) => Ok(prefix),
        Err(_) => bail!("{text} is no prefix"),
    }
}

/// The prefix and the mid of a line `PREFIX MID`.
fn fields(line: &str) -> Result<(Prefix, u32)> {
    let Some((text, mid)) = line.split_once(' ') else {
        bail!("a row is a line PREFIX MID");
    };
    let prefix = prefix(text)?;
    Ok((prefix, mid.parse::<u32>().context("reading a mid")?))
}

/// The row of a client for this prefix and mid.
fn row(alloc: Global, cuid: Text, prefix: Prefix, mid: u32) -> ScrubRow {
    ScrubRow {
        domain: 0,
        cuid,
        mid,
        prefix,
        ports: List::new(alloc),
        protocols: Bytes::new(alloc),
        active: true,
    }
}

/// Puts the row of a line at this place into the table, where it has room for it.
fn install(alloc: Global, table: &mut FilterTable, place: u64, line: &str) -> Result<()> {
    let (prefix, mid) = fields(line)?;
    ensure!(table.has_scrub_room(), "more rows than lines");
    match Text::new(alloc, b"client")? {
        Some(cuid) => {
            table.install(place, row(alloc, cuid, prefix, mid));
            Ok(())
        }
        None => bail!("no text"),
    }
}

/// Puts the rows of these lines into the table, in their order.
fn install_rows(alloc: Global, table: &mut FilterTable, text: &str) -> Result<()> {
    let mut place: u64 = 0;
    for line in text.lines() {
        install(alloc, table, place, line)?;
        place = place.wrapping_add(1);
    }
    Ok(())
}

/// The number of an IPv4 address.
fn number(alloc: Global, line: &str) -> Result<u32> {
    let text = format!(in alloc; "{line}/32")?;
    let prefix = prefix(text.as_str())?;
    u32::try_from(prefix.number()).context("reading an address")
}

/// The numbers of the addresses of these lines.
fn read_addresses(alloc: Global, text: &str) -> Result<Vec<u32>> {
    let mut numbers = Vec::new(alloc);
    for line in text.lines() {
        numbers.push(number(alloc, line)?)?;
    }
    Ok(numbers)
}

/// Settings of a domain, which no row here looks at.
fn settings(alloc: Global) -> Result<Settings> {
    let text = b"domain net\nprefix net 192.0.2.0/24\nclient 0 net\n";
    let mut source = MemorySource::new(alloc, text)?;
    match read_settings(alloc, &mut source) {
        Ok(settings) => Ok(settings),
        Err(_) => bail!("no settings"),
    }
}

/// The mid for which a packet to this address is scrubbed, and 0 where it isn't.
fn winning_mid(table: &FilterTable, settings: &Settings, number: u32) -> u32 {
    let address = Addr {
        family: Family::V4,
        number: u128::from(number),
    };
    let packet = Packet {
        source: address,
        destination: address,
        protocol: 17,
        ports: None,
    };
    match table.fate(&packet, settings) {
        Fate::Scrubbed { mid } => mid,
        Fate::Pass | Fate::Accepted { .. } | Fate::Dropped { .. } => 0,
    }
}

/// The sum of the winning mids of packets to these addresses.
fn sum_of_mids(table: &FilterTable, settings: &Settings, numbers: &[u32]) -> u64 {
    let mut sum: u64 = 0;
    for number in numbers {
        sum = sum.wrapping_add(u64::from(winning_mid(table, settings, *number)));
    }
    sum
}

/// The sum of one round, after so many rounds.
fn repeat_rounds(table: &FilterTable, settings: &Settings, numbers: &[u32], times: u64) -> u64 {
    let mut sum = 0;
    for _ in 0..times {
        sum = sum_of_mids(table, settings, numbers);
    }
    sum
}

/// The same with a table of the rows of these lines.
fn repeat_over(
    alloc: Global,
    rows: &str,
    settings: &Settings,
    numbers: &[u32],
    times: u64,
) -> Result<u64> {
    let room = u32::try_from(rows.lines().count()).context("counting rows")?;
    let mut table = FilterTable::new(alloc, room as usize, 0)?;
    install_rows(alloc, &mut table, rows)?;
    Ok(repeat_rounds(&table, settings, numbers, times))
}

/// Asks so often for the fates of packets to the addresses of these lines by a table with these rows, and answers the sum of the
/// winning mids of one round.
pub fn repeat_filter(alloc: Global, rows: &str, packets: &str, times: u64) -> Result<u64> {
    let numbers = read_addresses(alloc, packets)?;
    let settings = settings(alloc)?;
    repeat_over(alloc, rows, &settings, numbers.as_slice(), times)
}
