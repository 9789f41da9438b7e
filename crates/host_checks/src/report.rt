//! The report of a registry.

ghost use Rattle.std.specs.Prelude.{◌≡◌, ℕ, ◌++◌, List, flat_map, decimal, IfOk, OnOk};
ghost use Rattle.acl_lists.specs.HandedOut.{fate_of};
ghost use Rattle.filter_table.specs.TableRows.{active_rows};
ghost use Rattle.dots_settings.specs.Lookups.{name_of};
ghost use Rattle.dots_history.specs.declared.entry.Entry.{Entry};
ghost use Rattle.dots_registry.specs.RegistryValues.{Represents, IsOf, time_of};
ghost use Rattle.dots_machine.specs.Machine.{afresh};
ghost use Rattle.dots_machine.specs.Report.{behind_commas, any_or, texts_of, ports_text, scrub_line, fate_text, packet_line, packet_lines, report_of};
ghost use Rattle.host_checks.specs.Lines.{line_client, line_prefix, line_end, fate_in};

use crate::lists::add_lists;
use crate::words::{add_number, add_numbered, add_prefix, add_range, add_words};
use acl_lists::{Fate, Packet, ScrubRow};
use dots_lists::{Bytes, NoMemory};
use dots_registry::Registry;
use dots_settings::Settings;
use filter_table::FilterTable;
use ip_scope::PortRange;
use std::alloc::Global;

/// The report of a server of these settings that begins with the history of a registry, at its time: a line for each row of a mitigation
/// that filters, those of the access lists that filter, and one for each sample packet.
pub fn report_of(alloc: Global, settings: &Settings, registry: &Registry) -> Result<Bytes, NoMemory>
    requires { IsOf settings.now registry.now }
    ensures { IfOk result (λ text. (entries : List Entry) → Represents registry.now entries
        → text ≡ report_of settings.now (afresh settings.now entries (time_of registry.now))) }
{
    let table = registry.filters();
    let mut text = Vec::new(alloc);
    add_rows(&mut text, settings, table)?;
    add_lists(&mut text, settings, table)?;
    add_packets(&mut text, settings, table)?;
    Ok(Bytes::from_vec(text))
}

/// Adds the lines of the rows that filter, in order.
fn add_rows(text: &mut Vec<u8>, settings: &Settings, table: &FilterTable) -> Result<(), NoMemory>
    ensures { OnOk result (text.new.items ≡ text.old.items ++ flat_map (scrub_line settings.now) (active_rows table.now.scrubs)) }
{
    for row in table.scrubs() {
        add_row(text, settings, row)?;
    }
    Ok(())
}

/// Adds `scrub DOMAIN CUID MID PREFIX PROTOCOLS PORTS`.
#[tactic(auto, using(crate::proofs::ReportLines::line_in_parts))]
fn add_row(text: &mut Vec<u8>, settings: &Settings, row: &ScrubRow) -> Result<(), NoMemory>
    ensures { OnOk result (text.new.items ≡ text.old.items ++ scrub_line settings.now row.now) }
{
    add_client(text, settings, row)?;
    add_aim(text, row)?;
    add_end(text, row)
}

#[tactic(auto, unfolding(crate::specs::Lines::line_client))]
fn add_client(text: &mut Vec<u8>, settings: &Settings, row: &ScrubRow) -> Result<(), NoMemory>
    ensures { OnOk result (text.new.items ≡ text.old.items ++ line_client settings.now row.now) }
{
    add_words(text, b"scrub ")?;
    add_words(text, name_of(settings, row.domain))?;
    add_words(text, b" ")?;
    add_words(text, row.cuid.bytes())
}

/// The name of the domain of this number; empty where there is none.
pub fn name_of(settings: &Settings, domain: u16) -> &[u8]
    ensures { result.now ≡ name_of settings.now domain }
{
    if domain < settings.domains() {
        return settings.domain_name(domain);
    }
    &[]
}

#[tactic(auto, unfolding(crate::specs::Lines::line_prefix))]
fn add_aim(text: &mut Vec<u8>, row: &ScrubRow) -> Result<(), NoMemory>
    ensures { OnOk result (text.new.items ≡ text.old.items ++ line_prefix row.now) }
{
    add_numbered(text, b" ", u64::from(row.mid))?;
    add_words(text, b" ")?;
    add_prefix(text, &row.prefix)
}

#[tactic(auto, unfolding(crate::specs::Lines::line_end))]
fn add_end(text: &mut Vec<u8>, row: &ScrubRow) -> Result<(), NoMemory>
    ensures { OnOk result (text.new.items ≡ text.old.items ++ line_end row.now) }
{
    add_words(text, b" ")?;
    add_protocols(text, row.protocols.items())?;
    add_words(text, b" ")?;
    add_ports(text, row.ports.items())?;
    add_words(text, b"\n")
}

/// Adds `any`, or the numbers with commas between them.
fn add_protocols(text: &mut Vec<u8>, protocols: &[u8]) -> Result<(), NoMemory>
    ensures { OnOk result (text.new.items ≡ text.old.items ++ any_or (texts_of decimal protocols.now)) }
{
    let Some((first, others)) = protocols.split_first() else {
        return add_words(text, b"any");
    };
    add_number(text, u64::from(*first))?;
    add_more_protocols(text, others)
}

/// Adds the numbers, each behind a comma.
fn add_more_protocols(text: &mut Vec<u8>, protocols: &[u8]) -> Result<(), NoMemory>
    ensures { OnOk result (text.new.items ≡ text.old.items ++ behind_commas (texts_of decimal protocols.now)) }
{
    for protocol in protocols {
        add_numbered(text, b",", u64::from(*protocol))?;
    }
    Ok(())
}

/// Adds `any`, or the ranges with commas between them.
fn add_ports(text: &mut Vec<u8>, ports: &[PortRange]) -> Result<(), NoMemory>
    ensures { OnOk result (text.new.items ≡ text.old.items ++ any_or (texts_of ports_text ports.now)) }
{
    let Some((first, others)) = ports.split_first() else {
        return add_words(text, b"any");
    };
    add_range(text, first)?;
    add_more_ports(text, others)
}

/// Adds the ranges, each behind a comma.
fn add_more_ports(text: &mut Vec<u8>, ports: &[PortRange]) -> Result<(), NoMemory>
    ensures { OnOk result (text.new.items ≡ text.old.items ++ behind_commas (texts_of ports_text ports.now)) }
{
    for range in ports {
        add_words(text, b",")?;
        add_range(text, range)?;
    }
    Ok(())
}

/// Adds the lines of the sample packets, in order, with their fates by the table.
fn add_packets(text: &mut Vec<u8>, settings: &Settings, table: &FilterTable) -> Result<(), NoMemory>
    ensures { OnOk result (text.new.items ≡ text.old.items ++ packet_lines (fate_in settings.now table.now) 1 settings.now.packets) }
{
    let packets = settings.packets();
    let mut number = 1;
    for packet in packets {
        add_packet(text, settings, table, number, packet)?;
        number += 1;
    }
    Ok(())
}

/// Adds `packet N FATE`, with the fate by the table.
fn add_packet(
    text: &mut Vec<u8>,
    settings: &Settings,
    table: &FilterTable,
    number: u64,
    packet: &Packet,
) -> Result<(), NoMemory>
    ensures { OnOk result (text.new.items ≡ text.old.items ++ packet_line number (fate_in settings.now table.now packet.now)) }
{
    let fate = table.fate(packet, settings);
    add_numbered(text, b"packet ", number)?;
    add_words(text, b" ")?;
    add_fate(text, &fate)?;
    add_words(text, b"\n")
}

/// Adds what becomes of a packet, in words.
fn add_fate(text: &mut Vec<u8>, fate: &Fate<'_>) -> Result<(), NoMemory>
    ensures { OnOk result (text.new.items ≡ text.old.items ++ fate_text (fate_of fate.now)) }
{
    match fate {
        Fate::Pass => add_words(text, b"pass"),
        Fate::Accepted { acl } => add_both(text, b"accepted ", acl.bytes()),
        Fate::Dropped { acl } => add_both(text, b"dropped ", acl.bytes()),
        Fate::Scrubbed { mid } => add_numbered(text, b"scrubbed ", u64::from(*mid)),
    }
}

/// Adds words and what stands behind them.
fn add_both(text: &mut Vec<u8>, words: &[u8], behind: &[u8]) -> Result<(), NoMemory>
    ensures { OnOk result (text.new.items ≡ text.old.items ++ words.now ++ behind.now) }
{
    add_words(text, words)?;
    add_words(text, behind)
}
