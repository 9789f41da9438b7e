//! The rules of access lists.

ghost use Rattle.std.specs.Prelude.{◌≡◌, ◌++◌, codes, decimal, OnOk};
ghost use Rattle.std.specs.List.{flat_map};
ghost use Rattle.nft_script.specs.Script.{port_test, asks, port_tests, source_test, protocol_words, protocol_test, verdict_text, entry_match, comment_words, list_comment, entry_verdict, entry_rule, agrees, rule_to, rule_within, rules_to, entry_rules, list_words, list_key, list_element, list_text, lists_text};

use crate::parts::{
    add_address_test, add_has_ports, add_lookup, add_numbered, add_range, add_rule_front,
    add_timeout, add_words,
};
use crate::timed::TimedList;
use acl_lists::{Ace, AclRow, PortTest};
use dots_lists::NoMemory;
use dots_settings::Settings;
use ip_scope::{Family, Prefix};

/// Adds the active lists, numbered from 1.
pub fn add_lists(
    text: &mut Vec<u8>,
    settings: &Settings,
    lists: &[TimedList<'_>],
) -> Result<(), NoMemory>
    ensures { OnOk result (text.new.items ≡ text.old.items ++ lists_text settings.now 1 lists.now) }
{
    let mut number = 1;
    for timed in lists {
        add_list(text, settings, number, timed.list, timed.left)?;
        number += 1;
    }
    Ok(())
}

/// Adds the list of this number, where it is active.
#[tactic(auto, unfolding(crate::specs::Script::list_text))]
fn add_list(
    text: &mut Vec<u8>,
    settings: &Settings,
    number: u64,
    row: &AclRow,
    left: Option<u32>,
) -> Result<(), NoMemory>
    ensures { OnOk result (text.new.items ≡ text.old.items ++ list_text settings.now number row.now left) }
{
    if !row.active {
        return Ok(());
    }
    add_element(text, number, left)?;
    add_entries(text, settings, number, row, row.acl.aces.items())
}

#[tactic(auto, unfolding(crate::specs::Script::list_element))]
fn add_element(text: &mut Vec<u8>, number: u64, left: Option<u32>) -> Result<(), NoMemory>
    ensures { OnOk result (text.new.items ≡ text.old.items ++ list_element number left) }
{
    add_list_key(text, number)?;
    add_timeout(text, left)?;
    add_words(text, b" }\n")
}

#[tactic(auto, unfolding(crate::specs::Script::list_key))]
fn add_list_key(text: &mut Vec<u8>, number: u64) -> Result<(), NoMemory>
    ensures { OnOk result (text.new.items ≡ text.old.items ++ list_key number) }
{
    add_numbered(text, list_words(), number)
}

#[tactic(auto, unfolding(crate::specs::Script::list_words))]
fn list_words() -> &'static [u8]
    ensures { result.now ≡ list_words }
{
    b"add element inet dots lists { "
}

fn add_entries(
    text: &mut Vec<u8>,
    settings: &Settings,
    number: u64,
    row: &AclRow,
    aces: &[Ace],
) -> Result<(), NoMemory>
    ensures { OnOk result (text.new.items ≡ text.old.items ++ flat_map (entry_rules settings.now number row.now) aces.now) }
{
    for ace in aces {
        add_entry(text, settings, number, row, ace)?;
    }
    Ok(())
}

/// Adds the rules of an entry.
#[tactic(auto, unfolding(crate::specs::Script::rules_to))]
fn add_entry(
    text: &mut Vec<u8>,
    settings: &Settings,
    number: u64,
    row: &AclRow,
    ace: &Ace,
) -> Result<(), NoMemory>
    ensures { OnOk result (text.new.items ≡ text.old.items ++ entry_rules settings.now number row.now ace.now) }
{
    match &ace.destination {
        Some(destination) => add_to(text, number, ace, destination),
        None => {
            let prefixes = settings.prefixes_of(row.domain);
            add_within(text, number, ace, row.acl.family, prefixes)
        }
    }
}

/// Adds the rules of an entry to each of these prefixes that is of the family.
fn add_within(
    text: &mut Vec<u8>,
    number: u64,
    ace: &Ace,
    family: Family,
    prefixes: &[Prefix],
) -> Result<(), NoMemory>
    ensures { OnOk result (text.new.items ≡ text.old.items ++ flat_map (rule_within number ace.now family) prefixes.now) }
{
    for prefix in prefixes {
        add_of_family(text, number, ace, family, prefix)?;
    }
    Ok(())
}

#[tactic(auto, unfolding(crate::specs::Script::rule_within))]
fn add_of_family(
    text: &mut Vec<u8>,
    number: u64,
    ace: &Ace,
    family: Family,
    prefix: &Prefix,
) -> Result<(), NoMemory>
    ensures { OnOk result (text.new.items ≡ text.old.items ++ rule_within number ace.now family prefix.now) }
{
    if !prefix.family().is_same(family) {
        return Ok(());
    }
    add_to(text, number, ace, prefix)
}

/// Adds the rule of an entry to a prefix, unless its source is of another family.
#[tactic(auto, unfolding(crate::specs::Script::rule_to))]
fn add_to(text: &mut Vec<u8>, number: u64, ace: &Ace, destination: &Prefix) -> Result<(), NoMemory>
    ensures { OnOk result (text.new.items ≡ text.old.items ++ rule_to number ace.now destination.now) }
{
    if !agrees(&ace.source, destination.family()) {
        return Ok(());
    }
    add_rule(text, number, ace, destination)
}

/// Whether the source, where there is one, is of the family.
fn agrees(source: &Option<Prefix>, family: Family) -> bool
    ensures { result ≡ agrees source.now family }
{
    match source {
        Some(source) => source.family().is_same(family),
        None => true,
    }
}

#[tactic(auto, unfolding(crate::specs::Script::entry_rule))]
fn add_rule(
    text: &mut Vec<u8>,
    number: u64,
    ace: &Ace,
    destination: &Prefix,
) -> Result<(), NoMemory>
    ensures { OnOk result (text.new.items ≡ text.old.items ++ entry_rule number ace.now destination.now) }
{
    add_rule_front(text)?;
    add_match(text, ace, destination)?;
    add_verdict(text, number, ace)
}

/// Adds what the entry asks of a packet to the prefix.
#[tactic(auto, unfolding(crate::specs::Script::entry_match))]
fn add_match(text: &mut Vec<u8>, ace: &Ace, destination: &Prefix) -> Result<(), NoMemory>
    ensures { OnOk result (text.new.items ≡ text.old.items ++ entry_match ace.now destination.now) }
{
    add_address_test(text, b" daddr ", destination)?;
    add_source(text, &ace.source)?;
    add_ports(text, ace)?;
    add_protocol(text, ace.protocol)
}

#[tactic(auto, unfolding(crate::specs::Script::source_test))]
fn add_source(text: &mut Vec<u8>, source: &Option<Prefix>) -> Result<(), NoMemory>
    ensures { OnOk result (text.new.items ≡ text.old.items ++ source_test source.now) }
{
    match source {
        Some(prefix) => add_address_test(text, b" saddr ", prefix),
        None => Ok(()),
    }
}

#[tactic(auto, unfolding(crate::specs::Script::protocol_test))]
fn add_protocol(text: &mut Vec<u8>, protocol: Option<u8>) -> Result<(), NoMemory>
    ensures { OnOk result (text.new.items ≡ text.old.items ++ protocol_test protocol) }
{
    let Some(protocol) = protocol else {
        return Ok(());
    };
    add_numbered(text, protocol_words(), u64::from(protocol))
}

#[tactic(auto, unfolding(crate::specs::Script::protocol_words))]
fn protocol_words() -> &'static [u8]
    ensures { result.now ≡ protocol_words }
{
    b" meta l4proto "
}

/// Adds what the entry asks of ports, where it asks anything.
#[tactic(auto, unfolding(crate::specs::Script::port_tests))]
fn add_ports(text: &mut Vec<u8>, ace: &Ace) -> Result<(), NoMemory>
    ensures { OnOk result (text.new.items ≡ text.old.items ++ port_tests ace.now) }
{
    if asks(&ace.source_port) || asks(&ace.destination_port) {
        add_has_ports(text)?;
        add_port(text, b" th sport ", &ace.source_port)?;
        return add_port(text, b" th dport ", &ace.destination_port);
    }
    Ok(())
}

/// Whether anything is asked of a port.
fn asks(test: &PortTest) -> bool
    ensures { result ≡ asks test.now }
{
    !matches!(test, PortTest::Any)
}

/// Adds the test of the port on this side.
#[tactic(auto, unfolding(crate::specs::Script::port_test))]
fn add_port(text: &mut Vec<u8>, side: &[u8], test: &PortTest) -> Result<(), NoMemory>
    ensures { OnOk result (text.new.items ≡ text.old.items ++ port_test side.now test.now) }
{
    match test {
        PortTest::Any => Ok(()),
        PortTest::Eq(port) => add_than(text, side, b"", *port),
        PortTest::Neq(port) => add_other(text, side, *port),
        PortTest::Lte(port) => add_than(text, side, b"<= ", *port),
        PortTest::Gte(port) => add_than(text, side, b">= ", *port),
        PortTest::Range(range) => {
            add_words(text, side)?;
            add_range(text, range)
        }
    }
}

/// Adds that a port is another than this one, as a range.
fn add_other(text: &mut Vec<u8>, side: &[u8], port: u16) -> Result<(), NoMemory>
    ensures { OnOk result (text.new.items ≡ text.old.items ++ side.now ++ codes "!= " ++ decimal port ++ codes "-" ++ decimal port) }
{
    add_than(text, side, b"!= ", port)?;
    add_numbered(text, b"-", u64::from(port))
}

/// Adds how a port compares with this one.
fn add_than(text: &mut Vec<u8>, side: &[u8], sign: &[u8], port: u16) -> Result<(), NoMemory>
    ensures { OnOk result (text.new.items ≡ text.old.items ++ side.now ++ sign.now ++ decimal port) }
{
    add_words(text, side)?;
    add_numbered(text, sign, u64::from(port))
}

#[tactic(auto, unfolding(crate::specs::Script::verdict_text))]
fn verdict(ace: &Ace) -> &'static [u8]
    ensures { result.now ≡ verdict_text ace.now }
{
    if ace.accept {
        return b"accept";
    }
    b"drop"
}

/// Adds that the list's number stands, and what becomes of the packet then.
#[tactic(auto, unfolding(crate::specs::Script::entry_verdict))]
fn add_verdict(text: &mut Vec<u8>, number: u64, ace: &Ace) -> Result<(), NoMemory>
    ensures { OnOk result (text.new.items ≡ text.old.items ++ entry_verdict number ace.now) }
{
    add_lookup(text, number)?;
    add_words(text, b" @lists counter ")?;
    add_words(text, verdict(ace))?;
    add_comment(text, number)
}

#[tactic(auto, unfolding(crate::specs::Script::list_comment))]
fn add_comment(text: &mut Vec<u8>, number: u64) -> Result<(), NoMemory>
    ensures { OnOk result (text.new.items ≡ text.old.items ++ list_comment number) }
{
    add_numbered(text, comment_words(), number)?;
    add_words(text, b"\"\n")
}

#[tactic(auto, unfolding(crate::specs::Script::comment_words))]
fn comment_words() -> &'static [u8]
    ensures { result.now ≡ comment_words }
{
    b" comment \"list "
}
