//! The lines of access lists.

ghost use Rattle.std.specs.Prelude.{◌≡◌, ◌++◌, flat_map, filter, codes, decimal, OnOk};
ghost use Rattle.ip_scope.specs.Family.{same_family};
ghost use Rattle.ip_scope.specs.PrefixText.{prefix_text};
ghost use Rattle.dots_settings.specs.Lookups.{prefixes_of};
ghost use Rattle.dots_machine.specs.Report.{asked_text, test_text, verdict_text, acl_line, ace_lines, list_lines};
ghost use Rattle.host_checks.specs.Lines.{active_lists, only_where, list_front, ace_front, ace_aims, ace_end};

use crate::report::name_of;
use crate::words::{add_number, add_numbered, add_prefix, add_range, add_words};
use acl_lists::{Ace, AclRow, PortTest};
use dots_lists::NoMemory;
use dots_settings::Settings;
use filter_table::FilterTable;
use ip_scope::Prefix;

/// Adds the lines of the lists that filter, in order.
pub fn add_lists(
    text: &mut Vec<u8>,
    settings: &Settings,
    table: &FilterTable,
) -> Result<(), NoMemory>
    ensures { OnOk result (text.new.items ≡ text.old.items ++ flat_map (list_lines settings.now) (active_lists table.now.acls)) }
{
    for row in table.acls() {
        add_active(text, settings, row)?;
    }
    Ok(())
}

/// Adds the lines of a list that filters, and none of another.
fn add_active(text: &mut Vec<u8>, settings: &Settings, row: &AclRow) -> Result<(), NoMemory>
    ensures { OnOk result (text.new.items ≡ text.old.items ++ only_where row.now.active (list_lines settings.now row.now)) }
{
    if row.active {
        return add_list(text, settings, row);
    }
    Ok(())
}

/// Adds the lines of the entries, in order.
fn add_list(text: &mut Vec<u8>, settings: &Settings, row: &AclRow) -> Result<(), NoMemory>
    ensures { OnOk result (text.new.items ≡ text.old.items ++ list_lines settings.now row.now) }
{
    for ace in row.acl.aces.items() {
        add_ace(text, settings, row, ace)?;
    }
    Ok(())
}

/// Adds the line of an entry, or one for each prefix of the domain that is of the list's family.
fn add_ace(text: &mut Vec<u8>, settings: &Settings, row: &AclRow, ace: &Ace) -> Result<(), NoMemory>
    ensures { OnOk result (text.new.items ≡ text.old.items ++ ace_lines settings.now row.now ace.now) }
{
    match &ace.destination {
        Some(destination) => return add_line(text, settings, row, ace, destination),
        None => return add_for_domain(text, settings, row, ace),
    }
}

/// Adds a line for each prefix of the domain that is of the list's family, in order.
fn add_for_domain(
    text: &mut Vec<u8>,
    settings: &Settings,
    row: &AclRow,
    ace: &Ace,
) -> Result<(), NoMemory>
    ensures { OnOk result (text.new.items ≡ text.old.items ++ flat_map (acl_line settings.now row.now ace.now)
        (filter (λ prefix. same_family prefix.family row.now.acl.family) (prefixes_of settings.now row.now.domain))) }
{
    let prefixes = settings.prefixes_of(row.domain);
    for prefix in prefixes {
        add_of_family(text, settings, row, ace, prefix)?;
    }
    Ok(())
}

/// Adds the line of an entry to a prefix of the list's family, and none to another.
fn add_of_family(
    text: &mut Vec<u8>,
    settings: &Settings,
    row: &AclRow,
    ace: &Ace,
    prefix: &Prefix,
) -> Result<(), NoMemory>
    ensures { OnOk result (text.new.items ≡ text.old.items
        ++ only_where (same_family prefix.now.family row.now.acl.family) (acl_line settings.now row.now ace.now prefix.now)) }
{
    if prefix.family().is_same(row.acl.family) {
        return add_line(text, settings, row, ace, prefix);
    }
    Ok(())
}

/// Adds `acl DOMAIN CUID NAME ACE accept|drop SOURCE DESTINATION PROTOCOL SPORT DPORT`.
#[tactic(auto, using(crate::proofs::ListLines::list_in_parts))]
fn add_line(
    text: &mut Vec<u8>,
    settings: &Settings,
    row: &AclRow,
    ace: &Ace,
    destination: &Prefix,
) -> Result<(), NoMemory>
    ensures { OnOk result (text.new.items ≡ text.old.items ++ acl_line settings.now row.now ace.now destination.now) }
{
    add_front(text, settings, row)?;
    add_name(text, row, ace)?;
    add_aims(text, ace, destination)?;
    add_end(text, ace)
}

#[tactic(auto, unfolding(crate::specs::Lines::list_front))]
fn add_front(text: &mut Vec<u8>, settings: &Settings, row: &AclRow) -> Result<(), NoMemory>
    ensures { OnOk result (text.new.items ≡ text.old.items ++ list_front settings.now row.now) }
{
    add_words(text, b"acl ")?;
    add_words(text, name_of(settings, row.domain))?;
    add_words(text, b" ")?;
    add_words(text, row.cuid.bytes())
}

#[tactic(auto, unfolding(crate::specs::Lines::ace_front))]
fn add_name(text: &mut Vec<u8>, row: &AclRow, ace: &Ace) -> Result<(), NoMemory>
    ensures { OnOk result (text.new.items ≡ text.old.items ++ ace_front row.now ace.now) }
{
    add_words(text, b" ")?;
    add_words(text, row.acl.name.bytes())?;
    add_words(text, b" ")?;
    add_words(text, ace.name.bytes())?;
    add_words(text, verdict(ace.accept))
}

/// ` accept` or ` drop`.
fn verdict(accept: bool) -> &'static [u8]
    ensures { result.now ≡ codes " " ++ verdict_text accept }
{
    if accept {
        return b" accept";
    }
    b" drop"
}

#[tactic(auto, unfolding(crate::specs::Lines::ace_aims))]
fn add_aims(text: &mut Vec<u8>, ace: &Ace, destination: &Prefix) -> Result<(), NoMemory>
    ensures { OnOk result (text.new.items ≡ text.old.items ++ ace_aims ace.now destination.now) }
{
    add_words(text, b" ")?;
    add_source(text, ace)?;
    add_words(text, b" ")?;
    add_prefix(text, destination)
}

fn add_source(text: &mut Vec<u8>, ace: &Ace) -> Result<(), NoMemory>
    ensures { OnOk result (text.new.items ≡ text.old.items ++ asked_text prefix_text ace.now.source) }
{
    match &ace.source {
        Some(source) => return add_prefix(text, source),
        None => return add_words(text, b"any"),
    }
}

#[tactic(auto, unfolding(crate::specs::Lines::ace_end))]
fn add_end(text: &mut Vec<u8>, ace: &Ace) -> Result<(), NoMemory>
    ensures { OnOk result (text.new.items ≡ text.old.items ++ ace_end ace.now) }
{
    add_words(text, b" ")?;
    add_protocol(text, ace)?;
    add_words(text, b" ")?;
    add_test(text, &ace.source_port)?;
    add_words(text, b" ")?;
    add_test(text, &ace.destination_port)?;
    add_words(text, b"\n")
}

fn add_protocol(text: &mut Vec<u8>, ace: &Ace) -> Result<(), NoMemory>
    ensures { OnOk result (text.new.items ≡ text.old.items ++ asked_text decimal ace.now.protocol) }
{
    match ace.protocol {
        Some(protocol) => return add_number(text, u64::from(protocol)),
        None => return add_words(text, b"any"),
    }
}

/// Adds `any`, `=P`, `!P`, `<=P`, `>=P` or `L-U`.
fn add_test(text: &mut Vec<u8>, test: &PortTest) -> Result<(), NoMemory>
    ensures { OnOk result (text.new.items ≡ text.old.items ++ test_text test.now) }
{
    match test {
        PortTest::Any => return add_words(text, b"any"),
        PortTest::Eq(port) => return add_numbered(text, b"=", u64::from(*port)),
        PortTest::Neq(port) => return add_numbered(text, b"!", u64::from(*port)),
        PortTest::Lte(port) => return add_numbered(text, b"<=", u64::from(*port)),
        PortTest::Gte(port) => return add_numbered(text, b">=", u64::from(*port)),
        PortTest::Range(range) => return add_range(text, range),
    }
}
