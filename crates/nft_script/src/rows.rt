//! The rules of mitigations.

ghost use Rattle.std.specs.Prelude.{◌≡◌, ◌++◌, Some, OnOk};
ghost use Rattle.std.specs.List.{flat_map};
ghost use Rattle.nft_script.specs.Script.{wide_words, wide_key, wide_element, row_words, row_key, row_element, row_elements, row_lookup, wanted_ports, row_match, row_verdict, row_rule, row_rules, row_text, rows_text};

use crate::parts::{
    add_address_test, add_has_ports, add_lookup, add_numbered, add_range, add_rule_front,
    add_timeout, add_words,
};
use crate::timed::TimedRow;
use acl_lists::ScrubRow;
use dots_lists::NoMemory;
use ip_scope::PortRange;

/// Adds the rows in their order, numbered from 1.
pub fn add_rows(text: &mut Vec<u8>, rows: &[TimedRow<'_>]) -> Result<(), NoMemory>
    ensures { OnOk result (text.new.items ≡ text.old.items ++ rows_text 1 rows.now) }
{
    let mut number = 1;
    for timed in rows {
        add_row(text, number, timed.row, timed.left)?;
        number += 1;
    }
    Ok(())
}

/// Adds the elements and the rules of the row of this number.
#[tactic(auto, unfolding(crate::specs::Script::row_text))]
fn add_row(
    text: &mut Vec<u8>,
    number: u64,
    row: &ScrubRow,
    left: Option<u32>,
) -> Result<(), NoMemory>
    ensures { OnOk result (text.new.items ≡ text.old.items ++ row_text number row.now left) }
{
    add_elements(text, number, left, row.protocols.items())?;
    add_rules(text, number, row, row.ports.items())
}

/// Adds the number with each of these protocols; where there is none, by itself.
#[tactic(auto, unfolding(crate::specs::Script::row_elements))]
fn add_elements(
    text: &mut Vec<u8>,
    number: u64,
    left: Option<u32>,
    protocols: &[u8],
) -> Result<(), NoMemory>
    ensures { OnOk result (text.new.items ≡ text.old.items ++ row_elements number left protocols.now) }
{
    if protocols.is_empty() {
        return add_wide(text, number, left);
    }
    add_narrow(text, number, left, protocols)
}

#[tactic(auto, unfolding(crate::specs::Script::wide_element))]
fn add_wide(text: &mut Vec<u8>, number: u64, left: Option<u32>) -> Result<(), NoMemory>
    ensures { OnOk result (text.new.items ≡ text.old.items ++ wide_element number left) }
{
    add_wide_key(text, number)?;
    add_timeout(text, left)?;
    add_words(text, b" }\n")
}

#[tactic(auto, unfolding(crate::specs::Script::wide_key))]
fn add_wide_key(text: &mut Vec<u8>, number: u64) -> Result<(), NoMemory>
    ensures { OnOk result (text.new.items ≡ text.old.items ++ wide_key number) }
{
    add_numbered(text, wide_words(), number)
}

#[tactic(auto, unfolding(crate::specs::Script::wide_words))]
fn wide_words() -> &'static [u8]
    ensures { result.now ≡ wide_words }
{
    b"add element inet dots wide { "
}

fn add_narrow(
    text: &mut Vec<u8>,
    number: u64,
    left: Option<u32>,
    protocols: &[u8],
) -> Result<(), NoMemory>
    ensures { OnOk result (text.new.items ≡ text.old.items ++ flat_map (row_element number left) protocols.now) }
{
    for protocol in protocols {
        add_element(text, number, left, *protocol)?;
    }
    Ok(())
}

#[tactic(auto, unfolding(crate::specs::Script::row_element))]
fn add_element(
    text: &mut Vec<u8>,
    number: u64,
    left: Option<u32>,
    protocol: u8,
) -> Result<(), NoMemory>
    ensures { OnOk result (text.new.items ≡ text.old.items ++ row_element number left protocol) }
{
    add_key(text, number, protocol)?;
    add_timeout(text, left)?;
    add_words(text, b" }\n")
}

#[tactic(auto, unfolding(crate::specs::Script::row_key))]
fn add_key(text: &mut Vec<u8>, number: u64, protocol: u8) -> Result<(), NoMemory>
    ensures { OnOk result (text.new.items ≡ text.old.items ++ row_key number protocol) }
{
    add_numbered(text, row_words(), number)?;
    add_numbered(text, b" . ", u64::from(protocol))
}

#[tactic(auto, unfolding(crate::specs::Script::row_words))]
fn row_words() -> &'static [u8]
    ensures { result.now ≡ row_words }
{
    b"add element inet dots rows { "
}

/// Adds a rule for each of these ranges; where there is none, one for all packets.
#[tactic(auto, unfolding(crate::specs::Script::row_rules))]
fn add_rules(
    text: &mut Vec<u8>,
    number: u64,
    row: &ScrubRow,
    ranges: &[PortRange],
) -> Result<(), NoMemory>
    ensures { OnOk result (text.new.items ≡ text.old.items ++ row_rules number row.now ranges.now) }
{
    if ranges.is_empty() {
        return add_rule(text, number, row, None);
    }
    add_ranged(text, number, row, ranges)
}

fn add_ranged(
    text: &mut Vec<u8>,
    number: u64,
    row: &ScrubRow,
    ranges: &[PortRange],
) -> Result<(), NoMemory>
    ensures { OnOk result (text.new.items ≡ text.old.items ++ flat_map (λ ports. row_rule number row.now (Some ports)) ranges.now) }
{
    for range in ranges {
        add_rule(text, number, row, Some(*range))?;
    }
    Ok(())
}

#[tactic(auto, unfolding(crate::specs::Script::row_rule))]
fn add_rule(
    text: &mut Vec<u8>,
    number: u64,
    row: &ScrubRow,
    ports: Option<PortRange>,
) -> Result<(), NoMemory>
    ensures { OnOk result (text.new.items ≡ text.old.items ++ row_rule number row.now ports) }
{
    add_rule_front(text)?;
    add_match(text, number, row, ports)?;
    add_verdict(text, row.mid)
}

/// Adds what the row asks of a packet, and that its number stands.
#[tactic(auto, unfolding(crate::specs::Script::row_match))]
fn add_match(
    text: &mut Vec<u8>,
    number: u64,
    row: &ScrubRow,
    ports: Option<PortRange>,
) -> Result<(), NoMemory>
    ensures { OnOk result (text.new.items ≡ text.old.items ++ row_match number row.now ports) }
{
    add_address_test(text, b" daddr ", &row.prefix)?;
    add_wanted(text, ports)?;
    add_lookup(text, number)?;
    add_words(text, set_of(row.protocols.items()))
}

#[tactic(auto, unfolding(crate::specs::Script::wanted_ports))]
fn add_wanted(text: &mut Vec<u8>, ports: Option<PortRange>) -> Result<(), NoMemory>
    ensures { OnOk result (text.new.items ≡ text.old.items ++ wanted_ports ports) }
{
    let Some(range) = ports else {
        return Ok(());
    };
    add_has_ports(text)?;
    add_words(text, b" th dport ")?;
    add_range(text, &range)
}

/// The set in which the number stands, by itself or with a protocol.
#[tactic(auto, unfolding(crate::specs::Script::row_lookup))]
fn set_of(protocols: &[u8]) -> &'static [u8]
    ensures { result.now ≡ row_lookup protocols.now }
{
    if protocols.is_empty() {
        return b" @wide";
    }
    b" . meta l4proto @rows"
}

#[tactic(auto, unfolding(crate::specs::Script::row_verdict))]
fn add_verdict(text: &mut Vec<u8>, mid: u32) -> Result<(), NoMemory>
    ensures { OnOk result (text.new.items ≡ text.old.items ++ row_verdict mid) }
{
    add_numbered(text, b" counter goto scrub comment \"mid ", u64::from(mid))?;
    add_words(text, b"\"\n")
}
