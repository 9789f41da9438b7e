//! The lines of access lists.

ghost use Rattle.std.specs.Prelude.{◌≡◌, ◌++◌, flat_map, filter, codes, decimal};
ghost use Rattle.ip_scope.specs.Family.{same_family};
ghost use Rattle.ip_scope.specs.PrefixText.{prefix_text};
ghost use Rattle.dots_settings.specs.Lookups.{prefixes_of};
ghost use Rattle.dots_machine.specs.Report.{asked_text, test_text, verdict_text, acl_line, ace_lines, list_lines};
ghost use Rattle.dots_server.specs.Gathering.{sunk, Puts};
ghost use Rattle.dots_server.specs.Lines.{active_lists, only_where, list_front, ace_front, ace_aims, ace_end};

use super::{put_protocol, put_range};
use crate::gathering::Gatherer;
use crate::naming::name_of;
use acl_lists::{Ace, AclRow, PortTest};
use dots_host::Sink;
use dots_settings::Settings;
use filter_table::FilterTable;
use ip_scope::{Prefix, write_prefix};

/// The lines of the lists that filter, in order.
pub fn put_lists<K: Sink>(
    settings: &Settings,
    table: &FilterTable,
    report: &mut Gatherer,
    sink: &mut K,
)
    ensures { Puts (sunk K.holds K.faults sink.old) report.old (sunk K.holds K.faults sink.new) report.new
        (flat_map (list_lines settings.now) (active_lists table.now.acls)) }
{
    for row in table.acls() {
        put_active(settings, row, report, sink);
    }
}

/// The lines of a list that filters, and none of another.
#[tactic(auto, using(crate::proofs::Puts::puts_nothing))]
fn put_active<K: Sink>(settings: &Settings, row: &AclRow, report: &mut Gatherer, sink: &mut K)
    ensures { Puts (sunk K.holds K.faults sink.old) report.old (sunk K.holds K.faults sink.new) report.new (only_where row.now.active (list_lines settings.now row.now)) }
{
    if row.active {
        put_list(settings, row, report, sink);
    }
}

/// The lines of the entries, in order.
fn put_list<K: Sink>(settings: &Settings, row: &AclRow, report: &mut Gatherer, sink: &mut K)
    ensures { Puts (sunk K.holds K.faults sink.old) report.old (sunk K.holds K.faults sink.new) report.new (list_lines settings.now row.now) }
{
    for ace in row.acl.aces.items() {
        put_ace(settings, row, ace, report, sink);
    }
}

/// The line of an entry, or one for each prefix of the domain that is of the list's family.
fn put_ace<K: Sink>(
    settings: &Settings,
    row: &AclRow,
    ace: &Ace,
    report: &mut Gatherer,
    sink: &mut K,
)
    ensures { Puts (sunk K.holds K.faults sink.old) report.old (sunk K.holds K.faults sink.new) report.new (ace_lines settings.now row.now ace.now) }
{
    match &ace.destination {
        Some(destination) => put_line(settings, row, ace, destination, report, sink),
        None => put_for_domain(settings, row, ace, report, sink),
    }
}

/// A line for each prefix of the domain that is of the list's family, in order.
fn put_for_domain<K: Sink>(
    settings: &Settings,
    row: &AclRow,
    ace: &Ace,
    report: &mut Gatherer,
    sink: &mut K,
)
    ensures { Puts (sunk K.holds K.faults sink.old) report.old (sunk K.holds K.faults sink.new) report.new
        (flat_map (acl_line settings.now row.now ace.now)
        (filter (λ prefix. same_family prefix.family row.now.acl.family) (prefixes_of settings.now row.now.domain))) }
{
    for prefix in settings.prefixes_of(row.domain) {
        put_of_family(settings, row, ace, prefix, report, sink);
    }
}

/// The line of an entry to a prefix of the list's family, and none to another.
#[tactic(auto, using(crate::proofs::Puts::puts_nothing))]
fn put_of_family<K: Sink>(
    settings: &Settings,
    row: &AclRow,
    ace: &Ace,
    prefix: &Prefix,
    report: &mut Gatherer,
    sink: &mut K,
)
    ensures { Puts (sunk K.holds K.faults sink.old) report.old (sunk K.holds K.faults sink.new) report.new
        (only_where (same_family prefix.now.family row.now.acl.family) (acl_line settings.now row.now ace.now prefix.now)) }
{
    if prefix.family().is_same(row.acl.family) {
        put_line(settings, row, ace, prefix, report, sink);
    }
}

/// `acl DOMAIN CUID NAME ACE accept|drop SOURCE DESTINATION PROTOCOL SPORT DPORT`.
fn put_line<K: Sink>(
    settings: &Settings,
    row: &AclRow,
    ace: &Ace,
    destination: &Prefix,
    report: &mut Gatherer,
    sink: &mut K,
)
    ensures { Puts (sunk K.holds K.faults sink.old) report.old (sunk K.holds K.faults sink.new) report.new (acl_line settings.now row.now ace.now destination.now) }
{
    put_front(settings, row, report, sink);
    put_name(ace, report, sink);
    put_aims(ace, destination, report, sink);
    put_end(ace, report, sink);
}

/// `acl DOMAIN CUID NAME ` with the blank behind it.
fn put_front<K: Sink>(settings: &Settings, row: &AclRow, report: &mut Gatherer, sink: &mut K)
    ensures { Puts (sunk K.holds K.faults sink.old) report.old (sunk K.holds K.faults sink.new) report.new (list_front settings.now row.now) }
{
    let pieces = [
        b"acl ".as_slice(),
        name_of(settings, row.domain),
        b" ".as_slice(),
        row.cuid.bytes(),
        b" ".as_slice(),
        row.acl.name.bytes(),
        b" ".as_slice(),
    ];
    report.put_all(sink, &pieces)
}

/// `ACE accept|drop ` with the blank behind it.
fn put_name<K: Sink>(ace: &Ace, report: &mut Gatherer, sink: &mut K)
    ensures { Puts (sunk K.holds K.faults sink.old) report.old (sunk K.holds K.faults sink.new) report.new (ace_front ace.now) }
{
    report.put(sink, ace.name.bytes());
    report.put(sink, b" ");
    report.put(sink, verdict_text(ace.accept));
    report.put(sink, b" ");
}

fn verdict_text(accept: bool) -> &'static [u8]
    ensures { result.now ≡ verdict_text accept }
{
    if accept {
        return b"accept";
    }
    b"drop"
}

/// `SOURCE DESTINATION ` with the blank behind it.
fn put_aims<K: Sink>(ace: &Ace, destination: &Prefix, report: &mut Gatherer, sink: &mut K)
    ensures { Puts (sunk K.holds K.faults sink.old) report.old (sunk K.holds K.faults sink.new) report.new (ace_aims ace.now destination.now) }
{
    put_source(ace, report, sink);
    report.put(sink, b" ");
    put_prefix(destination, report, sink);
    report.put(sink, b" ");
}

fn put_source<K: Sink>(ace: &Ace, report: &mut Gatherer, sink: &mut K)
    ensures { Puts (sunk K.holds K.faults sink.old) report.old (sunk K.holds K.faults sink.new) report.new (asked_text prefix_text ace.now.source) }
{
    match &ace.source {
        Some(source) => put_prefix(source, report, sink),
        None => report.put(sink, b"any"),
    }
}

fn put_prefix<K: Sink>(prefix: &Prefix, report: &mut Gatherer, sink: &mut K)
    ensures { Puts (sunk K.holds K.faults sink.old) report.old (sunk K.holds K.faults sink.new) report.new (prefix_text prefix.now) }
{
    let mut text = [0; 43];
    let len = write_prefix(prefix, &mut text);
    report.put(sink, &text[..len])
}

/// `PROTOCOL SPORT DPORT`, with which a line ends.
fn put_end<K: Sink>(ace: &Ace, report: &mut Gatherer, sink: &mut K)
    ensures { Puts (sunk K.holds K.faults sink.old) report.old (sunk K.holds K.faults sink.new) report.new (ace_end ace.now) }
{
    put_asked_protocol(ace, report, sink);
    report.put(sink, b" ");
    put_test(&ace.source_port, report, sink);
    report.put(sink, b" ");
    put_test(&ace.destination_port, report, sink);
    report.put(sink, b"\n");
}

fn put_asked_protocol<K: Sink>(ace: &Ace, report: &mut Gatherer, sink: &mut K)
    ensures { Puts (sunk K.holds K.faults sink.old) report.old (sunk K.holds K.faults sink.new) report.new (asked_text decimal ace.now.protocol) }
{
    match ace.protocol {
        Some(protocol) => put_protocol(b"", protocol, report, sink),
        None => report.put(sink, b"any"),
    }
}

/// `any`, `=P`, `!P`, `<=P`, `>=P` or `L-U`.
fn put_test<K: Sink>(test: &PortTest, report: &mut Gatherer, sink: &mut K)
    ensures { Puts (sunk K.holds K.faults sink.old) report.old (sunk K.holds K.faults sink.new) report.new (test_text test.now) }
{
    match test {
        PortTest::Any => report.put(sink, b"any"),
        PortTest::Eq(port) => put_port(b"=", *port, report, sink),
        PortTest::Neq(port) => put_port(b"!", *port, report, sink),
        PortTest::Lte(port) => put_port(b"<=", *port, report, sink),
        PortTest::Gte(port) => put_port(b">=", *port, report, sink),
        PortTest::Range(range) => put_range(b"", range, report, sink),
    }
}

/// A port behind a sign.
fn put_port<K: Sink>(sign: &[u8], port: u16, report: &mut Gatherer, sink: &mut K)
    ensures { Puts (sunk K.holds K.faults sink.old) report.old (sunk K.holds K.faults sink.new) report.new (sign.now ++ decimal port) }
{
    let mut digits = itoa::Buffer::new();
    report.put_all(sink, &[sign, digits.format(port).as_bytes()])
}
