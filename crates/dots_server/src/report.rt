//! The report: a line for each row of a mitigation, those of access lists, and one for each sample packet.

ghost use Rattle.std.specs.Prelude.{◌++◌, flat_map, map, codes, decimal};
ghost use Rattle.acl_lists.specs.Fates.{fate_by_rows};
ghost use Rattle.acl_lists.specs.HandedOut.{fate_of};
ghost use Rattle.filter_table.specs.TableRows.{row_of_scrub, row_of_acl, active_rows};
ghost use Rattle.dots_settings.specs.Lookups.{prefixes_of};
ghost use Rattle.dots_machine.specs.Report.{any_or, texts_of, ports_text, scrub_line, list_lines, fate_text, packet_line, packet_lines};
ghost use Rattle.dots_server.specs.Gathering.{sunk, Puts};
ghost use Rattle.dots_server.specs.Lines.{line_front, line_end, active_lists};

use crate::gathering::Gatherer;
use crate::naming::name_of;
use acl_lists::{Fate, Packet, ScrubRow};
use dots_host::Sink;
use dots_settings::Settings;
use filter_table::FilterTable;
use ip_scope::{PortRange, write_prefix};

mod lists;

use lists::put_lists;

/// The lines of the rows that filter: those of mitigations, and behind them those of access lists.
pub fn put_rows<K: Sink>(
    settings: &Settings,
    table: &FilterTable,
    report: &mut Gatherer,
    sink: &mut K,
)
    ensures { Puts (sunk K.holds K.faults sink.old) report.old (sunk K.holds K.faults sink.new) report.new
        (flat_map (scrub_line settings.now) (active_rows table.now.scrubs) ++ flat_map (list_lines settings.now) (active_lists table.now.acls)) }
{
    put_scrubs(settings, table, report, sink);
    put_lists(settings, table, report, sink);
}

/// The lines of the active rows of mitigations, in order.
fn put_scrubs<K: Sink>(
    settings: &Settings,
    table: &FilterTable,
    report: &mut Gatherer,
    sink: &mut K,
)
    ensures { Puts (sunk K.holds K.faults sink.old) report.old (sunk K.holds K.faults sink.new) report.new
        (flat_map (scrub_line settings.now) (active_rows table.now.scrubs)) }
{
    for row in table.scrubs() {
        put_front(settings, row, report, sink);
        put_end(row, report, sink);
    }
}

/// The lines of the sample packets, in order, with their fates by the table.
pub fn put_packets<K: Sink>(
    settings: &Settings,
    table: &FilterTable,
    report: &mut Gatherer,
    sink: &mut K,
)
    ensures { Puts (sunk K.holds K.faults sink.old) report.old (sunk K.holds K.faults sink.new) report.new
        (packet_lines (fate_by_rows (prefixes_of settings.now) (map row_of_scrub table.now.scrubs) (map row_of_acl table.now.acls)) 1 settings.now.packets) }
{
    let packets = settings.packets();
    let mut number: usize = 0;
    for packet in packets {
        number += 1;
        put_packet(settings, table, number, packet, report, sink);
    }
}

/// `packet N FATE`, with the fate by the table.
fn put_packet<K: Sink>(
    settings: &Settings,
    table: &FilterTable,
    number: usize,
    packet: &Packet,
    report: &mut Gatherer,
    sink: &mut K,
)
    ensures { Puts (sunk K.holds K.faults sink.old) report.old (sunk K.holds K.faults sink.new) report.new
        (packet_line number (fate_by_rows (prefixes_of settings.now) (map row_of_scrub table.now.scrubs) (map row_of_acl table.now.acls) packet.now)) }
{
    let fate = table.fate(packet, settings);
    put_number(number, report, sink);
    put_fate(&fate, report, sink);
    report.put(sink, b"\n");
}

/// `packet N ` with the blank behind it.
fn put_number<K: Sink>(number: usize, report: &mut Gatherer, sink: &mut K)
    ensures { Puts (sunk K.holds K.faults sink.old) report.old (sunk K.holds K.faults sink.new) report.new (codes "packet " ++ decimal number ++ codes " ") }
{
    let mut digits = itoa::Buffer::new();
    let pieces = [
        b"packet ".as_slice(),
        digits.format(number).as_bytes(),
        b" ".as_slice(),
    ];
    report.put_all(sink, &pieces)
}

/// What becomes of a packet, in words.
fn put_fate<K: Sink>(fate: &Fate<'_>, report: &mut Gatherer, sink: &mut K)
    ensures { Puts (sunk K.holds K.faults sink.old) report.old (sunk K.holds K.faults sink.new) report.new (fate_text (fate_of fate.now)) }
{
    match fate {
        Fate::Pass => report.put(sink, b"pass"),
        Fate::Accepted { acl } => put_with(b"accepted ", acl.bytes(), report, sink),
        Fate::Dropped { acl } => put_with(b"dropped ", acl.bytes(), report, sink),
        Fate::Scrubbed { mid } => {
            let mut digits = itoa::Buffer::new();
            put_with(b"scrubbed ", digits.format(*mid).as_bytes(), report, sink);
        }
    }
}

/// A word and what stands behind it.
fn put_with<K: Sink>(word: &[u8], behind: &[u8], report: &mut Gatherer, sink: &mut K)
    ensures { Puts (sunk K.holds K.faults sink.old) report.old (sunk K.holds K.faults sink.new) report.new (word.now ++ behind.now) }
{
    report.put(sink, word);
    report.put(sink, behind);
}

/// `scrub DOMAIN CUID MID PREFIX ` with the blank behind it.
fn put_front<K: Sink>(settings: &Settings, row: &ScrubRow, report: &mut Gatherer, sink: &mut K)
    ensures { Puts (sunk K.holds K.faults sink.old) report.old (sunk K.holds K.faults sink.new) report.new (line_front settings.now row.now) }
{
    let mut digits = itoa::Buffer::new();
    let mut text = [0; 43];
    let len = write_prefix(&row.prefix, &mut text);
    let pieces = [
        b"scrub ".as_slice(),
        name_of(settings, row.domain),
        b" ".as_slice(),
        row.cuid.bytes(),
        b" ".as_slice(),
        digits.format(row.mid).as_bytes(),
        b" ".as_slice(),
        &text[..len],
        b" ".as_slice(),
    ];
    report.put_all(sink, &pieces)
}

/// `PROTOCOLS PORTS`, with which a line ends.
fn put_end<K: Sink>(row: &ScrubRow, report: &mut Gatherer, sink: &mut K)
    ensures { Puts (sunk K.holds K.faults sink.old) report.old (sunk K.holds K.faults sink.new) report.new (line_end row.now) }
{
    put_protocols(row.protocols.items(), report, sink);
    report.put(sink, b" ");
    put_ports(row.ports.items(), report, sink);
    report.put(sink, b"\n");
}

/// `any`, or the numbers with commas between them.
fn put_protocols<K: Sink>(protocols: &[u8], report: &mut Gatherer, sink: &mut K)
    ensures { Puts (sunk K.holds K.faults sink.old) report.old (sunk K.holds K.faults sink.new) report.new (any_or (texts_of decimal protocols.now)) }
{
    let Some((first, others)) = protocols.split_first() else {
        return report.put(sink, b"any");
    };
    put_protocol(b"", *first, report, sink);
    for protocol in others {
        put_protocol(b",", *protocol, report, sink);
    }
}

/// A number behind a comma or nothing.
fn put_protocol<K: Sink>(before: &[u8], protocol: u8, report: &mut Gatherer, sink: &mut K)
    ensures { Puts (sunk K.holds K.faults sink.old) report.old (sunk K.holds K.faults sink.new) report.new (before.now ++ decimal protocol) }
{
    let mut digits = itoa::Buffer::new();
    report.put_all(sink, &[before, digits.format(protocol).as_bytes()])
}

/// `any`, or the ranges with commas between them.
fn put_ports<K: Sink>(ports: &[PortRange], report: &mut Gatherer, sink: &mut K)
    ensures { Puts (sunk K.holds K.faults sink.old) report.old (sunk K.holds K.faults sink.new) report.new (any_or (texts_of ports_text ports.now)) }
{
    let Some((first, others)) = ports.split_first() else {
        return report.put(sink, b"any");
    };
    put_range(b"", first, report, sink);
    for range in others {
        put_range(b",", range, report, sink);
    }
}

/// `L-U` behind a comma or nothing.
fn put_range<K: Sink>(before: &[u8], range: &PortRange, report: &mut Gatherer, sink: &mut K)
    ensures { Puts (sunk K.holds K.faults sink.old) report.old (sunk K.holds K.faults sink.new) report.new (before.now ++ ports_text range.now) }
{
    let mut lower = itoa::Buffer::new();
    let mut upper = itoa::Buffer::new();
    let pieces = [
        before,
        lower.format(range.lower()).as_bytes(),
        b"-".as_slice(),
        upper.format(range.upper()).as_bytes(),
    ];
    report.put_all(sink, &pieces)
}
