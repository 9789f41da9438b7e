//! What is said of the lines of a host file beside the settings.

ghost use Rattle.std.specs.Prelude.{◌≡◌, ◌==◌, ◌+◌, ◌<◌, ◌++◌, if◌then◌else◌, [], ℕ, List, codes, decimal, length, map, take, OnOk};
ghost use Rattle.std.specs.List.{list_any, flat_map};
ghost use Rattle.dots_edge.specs.HostLine.{line_value, how_many};
ghost use Rattle.dots_edge.specs.Found.{reserve_in};
ghost use Rattle.dots_edge.specs.JournalFile.{room_of};
ghost use Rattle.host_checks.specs.Findings.{is_signal, is_http, is_peer, is_of_peer, family_of, serves, numbered, no_signal, no_address, is_named, not_named, not_served, of_line, is_whole, whole_family, no_room, no_journal, is_roomy, too_small, is_startable, signal_count, http_count, peer_count, needed_count, stranger_line, whole_line, counts, kinds, amounts, peer_remarks, remarks, faults, findings, needed};

use dots_edge::{HostLine, journal_in, key_of, reserve_in, room_of};
use dots_lists::NoMemory;
use dots_script::add_count;
use dots_settings::{PeerRow, Settings};
use ip_scope::{Addr, Family, Prefix};
use itoa::Buffer;
use slot_journal::bytes_needed;

/// Adds the lines on a host file that is used with the settings: how many lines there are of each kind, how many bytes the journal needs,
/// the remarks and the faults.
#[tactic(auto, unfolding(crate::specs::Findings::findings))]
pub fn add_findings(
    text: &mut Vec<u8>,
    settings: &Settings,
    said: &[HostLine<'_>],
) -> Result<(), NoMemory>
    ensures { OnOk result (text.new.items ≡ text.old.items ++ findings settings.now (map line_value said.now)) }
{
    add_amounts(text, settings, said)?;
    add_remarks(text, settings, said)?;
    add_faults(text, settings, said)
}

/// Whether a server starts with these, as far as the two files decide it: there is a journal, and room for it.
pub fn is_startable(settings: &Settings, said: &[HostLine<'_>]) -> bool
    ensures { result ≡ is_startable settings.now (map line_value said.now) }
{
    journal_in(said).is_some() && is_roomy(settings, said)
}

#[tactic(auto, unfolding(crate::specs::Findings::amounts))]
fn add_amounts(
    text: &mut Vec<u8>,
    settings: &Settings,
    said: &[HostLine<'_>],
) -> Result<(), NoMemory>
    ensures { OnOk result (text.new.items ≡ text.old.items ++ amounts settings.now (map line_value said.now)) }
{
    add_kinds(text, said)?;
    add_needed_count(text, bytes_needed(settings))?;
    Ok(())
}

/// Adds how many lines of each kind there are.
fn add_kinds(text: &mut Vec<u8>, said: &[HostLine<'_>]) -> Result<(), NoMemory>
    ensures { OnOk result (text.new.items ≡ text.old.items ++ kinds (map line_value said.now)) }
{
    add_counts(text, count_signal(said), count_http(said), count_peer(said))
}

fn add_counts(text: &mut Vec<u8>, signal: u64, http: u64, peer: u64) -> Result<(), NoMemory>
    ensures { OnOk result (text.new.items ≡ text.old.items ++ counts signal http peer) }
{
    add_signal_count(text, signal)?;
    add_http_count(text, http)?;
    add_peer_count(text, peer)?;
    Ok(())
}

#[tactic(auto, unfolding(crate::specs::Findings::signal_count))]
fn add_signal_count(text: &mut Vec<u8>, number: u64) -> Result<(), NoMemory>
    ensures { OnOk result (text.new.items ≡ text.old.items ++ signal_count number) }
{
    add_count(text, b"signal lines", number)
}

#[tactic(auto, unfolding(crate::specs::Findings::http_count))]
fn add_http_count(text: &mut Vec<u8>, number: u64) -> Result<(), NoMemory>
    ensures { OnOk result (text.new.items ≡ text.old.items ++ http_count number) }
{
    add_count(text, b"http lines", number)
}

#[tactic(auto, unfolding(crate::specs::Findings::peer_count))]
fn add_peer_count(text: &mut Vec<u8>, number: u64) -> Result<(), NoMemory>
    ensures { OnOk result (text.new.items ≡ text.old.items ++ peer_count number) }
{
    add_count(text, b"peer lines", number)
}

#[tactic(auto, unfolding(crate::specs::Findings::needed_count))]
fn add_needed_count(text: &mut Vec<u8>, number: u64) -> Result<(), NoMemory>
    ensures { OnOk result (text.new.items ≡ text.old.items ++ needed_count number) }
{
    add_count(text, b"bytes that the journal needs", number)
}

fn count_signal(said: &[HostLine<'_>]) -> u64
    ensures { result ≡ how_many is_signal (map line_value said.now) }
{
    let mut count = 0;
    for line in said {
        if is_signal(line) {
            count += 1;
        }
    }
    count
}

fn count_http(said: &[HostLine<'_>]) -> u64
    ensures { result ≡ how_many is_http (map line_value said.now) }
{
    let mut count = 0;
    for line in said {
        if is_http(line) {
            count += 1;
        }
    }
    count
}

fn count_peer(said: &[HostLine<'_>]) -> u64
    ensures { result ≡ how_many is_peer (map line_value said.now) }
{
    let mut count = 0;
    for line in said {
        if is_peer(line) {
            count += 1;
        }
    }
    count
}

fn is_signal(line: &HostLine<'_>) -> bool
    ensures { result ≡ is_signal (line_value line.now) }
{
    match line {
        HostLine::Signal { .. } => true,
        _ => false,
    }
}

fn is_http(line: &HostLine<'_>) -> bool
    ensures { result ≡ is_http (line_value line.now) }
{
    match line {
        HostLine::Http { .. } => true,
        _ => false,
    }
}

fn is_peer(line: &HostLine<'_>) -> bool
    ensures { result ≡ is_peer (line_value line.now) }
{
    match line {
        HostLine::Peer { .. } => true,
        _ => false,
    }
}

#[tactic(auto, unfolding(crate::specs::Findings::remarks))]
fn add_remarks(
    text: &mut Vec<u8>,
    settings: &Settings,
    said: &[HostLine<'_>],
) -> Result<(), NoMemory>
    ensures { OnOk result (text.new.items ≡ text.old.items ++ remarks settings.now (map line_value said.now)) }
{
    add_peer_remarks(text, settings, said)?;
    add_domains(text, settings)?;
    add_no_room(text, said)
}

/// Adds the remarks on signal lines and peers.
fn add_peer_remarks(
    text: &mut Vec<u8>,
    settings: &Settings,
    said: &[HostLine<'_>],
) -> Result<(), NoMemory>
    ensures { OnOk result (text.new.items ≡ text.old.items ++ peer_remarks settings.now (map line_value said.now)) }
{
    add_no_signal(text, said)?;
    add_no_addresses(text, settings.peers(), said)?;
    add_lines(text, settings, said)
}

#[tactic(auto, unfolding(crate::specs::Findings::no_signal))]
fn add_no_signal(text: &mut Vec<u8>, said: &[HostLine<'_>]) -> Result<(), NoMemory>
    ensures { OnOk result (text.new.items ≡ text.old.items ++ no_signal (map line_value said.now)) }
{
    if !has_signal(said) {
        text.extend_from_slice(b"remark: no signal line, so no datagram comes\n")?;
    }
    Ok(())
}

fn has_signal(said: &[HostLine<'_>]) -> bool
    ensures { result ≡ list_any is_signal (map line_value said.now) }
{
    for line in said {
        if is_signal(line) {
            return true;
        }
    }
    false
}

/// Adds the words, the number and the words behind it.
pub fn add_numbered(
    text: &mut Vec<u8>,
    before: &[u8],
    number: u64,
    behind: &[u8],
) -> Result<(), NoMemory>
    ensures { OnOk result (text.new.items ≡ text.old.items ++ numbered before.now number behind.now) }
{
    let mut buffer = Buffer::new();
    text.extend_from_slice(before)?;
    text.extend_from_slice(buffer.format(number).as_bytes())?;
    text.extend_from_slice(behind)?;
    Ok(())
}

/// Adds a remark on each client and gateway that no line says an address of.
fn add_no_addresses(
    text: &mut Vec<u8>,
    peers: &[PeerRow],
    said: &[HostLine<'_>],
) -> Result<(), NoMemory>
    ensures { OnOk result (text.new.items ≡ text.old.items ++ flat_map (no_address (map line_value said.now)) peers.now) }
{
    for row in peers {
        add_no_address(text, row, said)?;
    }
    Ok(())
}

#[tactic(auto, unfolding(crate::specs::Findings::no_address))]
fn add_no_address(text: &mut Vec<u8>, row: &PeerRow, said: &[HostLine<'_>]) -> Result<(), NoMemory>
    ensures { OnOk result (text.new.items ≡ text.old.items ++ no_address (map line_value said.now) row.now) }
{
    if has_address(row.peer, said) {
        return Ok(());
    }
    add_numbered(
        text,
        b"remark: no peer line says an address of peer ",
        u64::from(row.peer),
        b", so nothing of it is read\n",
    )
}

/// Whether a line says an address of the peer.
fn has_address(peer: u32, said: &[HostLine<'_>]) -> bool
    ensures { result ≡ list_any (is_of_peer peer) (map line_value said.now) }
{
    for line in said {
        if is_of_peer(peer, line) {
            return true;
        }
    }
    false
}

fn is_of_peer(peer: u32, line: &HostLine<'_>) -> bool
    ensures { result ≡ is_of_peer peer (line_value line.now) }
{
    match line {
        HostLine::Peer { number, .. } => *number == peer,
        _ => false,
    }
}

/// Adds the remarks on each line of a peer.
fn add_lines(text: &mut Vec<u8>, settings: &Settings, said: &[HostLine<'_>]) -> Result<(), NoMemory>
    ensures { OnOk result (text.new.items ≡ text.old.items ++ flat_map (of_line settings.now (map line_value said.now)) (map line_value said.now)) }
{
    for line in said {
        add_line(text, settings, said, line)?;
    }
    Ok(())
}

#[tactic(auto, unfolding(crate::specs::Findings::of_line))]
fn add_line(
    text: &mut Vec<u8>,
    settings: &Settings,
    said: &[HostLine<'_>],
    line: &HostLine<'_>,
) -> Result<(), NoMemory>
    ensures { OnOk result (text.new.items ≡ text.old.items ++ of_line settings.now (map line_value said.now) (line_value line.now)) }
{
    match line {
        HostLine::Peer {
            number,
            address,
            ..
        } => add_peer(text, settings, said, *number, *address),
        _ => Ok(()),
    }
}

fn add_peer(
    text: &mut Vec<u8>,
    settings: &Settings,
    said: &[HostLine<'_>],
    number: u32,
    address: Addr,
) -> Result<(), NoMemory>
    ensures { OnOk result (text.new.items ≡ text.old.items ++ not_named settings.now number ++ not_served (map line_value said.now) number address) }
{
    add_not_named(text, settings, number)?;
    add_not_served(text, number, address, said)
}

#[tactic(auto, unfolding(crate::specs::Findings::not_named))]
fn add_not_named(text: &mut Vec<u8>, settings: &Settings, number: u32) -> Result<(), NoMemory>
    ensures { OnOk result (text.new.items ≡ text.old.items ++ not_named settings.now number) }
{
    if !is_named(settings, number) {
        add_stranger(text, number)?;
    }
    Ok(())
}

#[tactic(auto, unfolding(crate::specs::Findings::stranger_line))]
fn add_stranger(text: &mut Vec<u8>, number: u32) -> Result<(), NoMemory>
    ensures { OnOk result (text.new.items ≡ text.old.items ++ stranger_line number) }
{
    add_numbered(
        text,
        b"remark: the settings name no peer ",
        u64::from(number),
        b", as a line does\n",
    )
}

#[tactic(auto, unfolding(crate::specs::Findings::not_served))]
fn add_not_served(
    text: &mut Vec<u8>,
    number: u32,
    address: Addr,
    said: &[HostLine<'_>],
) -> Result<(), NoMemory>
    ensures { OnOk result (text.new.items ≡ text.old.items ++ not_served (map line_value said.now) number address) }
{
    if is_served(address, said) {
        return Ok(());
    }
    add_numbered(
        text,
        b"remark: no signal line is of the family of an address of peer ",
        u64::from(number),
        b"\n",
    )
}

/// Whether the settings name the peer.
fn is_named(settings: &Settings, peer: u32) -> bool
    ensures { result ≡ is_named settings.now peer }
{
    settings.peers().iter().any(|row| row.peer == peer)
}

/// Whether datagrams from the address may come to one of the lines.
fn is_served(address: Addr, said: &[HostLine<'_>]) -> bool
    ensures { result ≡ list_any (serves address) (map line_value said.now) }
{
    for line in said {
        if serves(address, line) {
            return true;
        }
    }
    false
}

fn serves(address: Addr, line: &HostLine<'_>) -> bool
    ensures { result ≡ serves address (line_value line.now) }
{
    match line {
        HostLine::Signal { at } => {
            family_of(at.address).is_same(family_of(address)) || key_of(at.address) == 0
        }
        _ => false,
    }
}

/// The family of an address; an IPv6 one that is mapped to one of IPv4 counts as that.
fn family_of(address: Addr) -> Family
    ensures { result ≡ family_of address }
{
    if key_of(address) / 4_294_967_296 == 65_535 {
        return Family::V4;
    }
    Family::V6
}

/// Adds a remark on each domain that has all addresses of a family.
fn add_domains(text: &mut Vec<u8>, settings: &Settings) -> Result<(), NoMemory>
    ensures { OnOk result (text.new.items ≡ text.old.items ++ flat_map whole_family settings.now.domains) }
{
    for domain in 0..settings.domains() {
        add_domain(text, settings, domain)?;
    }
    Ok(())
}

/// Adds the remark on a domain, whatever stands before those of the domains before it.
fn add_domain(text: &mut Vec<u8>, settings: &Settings, domain: u16) -> Result<(), NoMemory>
    requires { domain < length settings.now.domains }
    ensures { OnOk result ((front : List ℕ) → text.old.items ≡ front ++ flat_map whole_family (take domain settings.now.domains)
        → text.new.items ≡ front ++ flat_map whole_family (take (domain + 1) settings.now.domains)) }
{
    let name = settings.domain_name(domain);
    let prefixes = settings.prefixes(domain);
    match add_whole(text, name, prefixes) {
        Ok(()) => return Ok(()),
        Err(NoMemory) => return Err(NoMemory),
    }
}

#[tactic(auto, unfolding(crate::specs::Findings::whole_family))]
fn add_whole(text: &mut Vec<u8>, name: &[u8], prefixes: &[Prefix]) -> Result<(), NoMemory>
    ensures { OnOk result (text.new.items ≡ text.old.items ++ whole_family (record { name = name.now; prefixes = prefixes.now })) }
{
    if has_whole(prefixes) {
        add_whole_line(text, name)?;
    }
    Ok(())
}

#[tactic(auto, unfolding(crate::specs::Findings::whole_line))]
fn add_whole_line(text: &mut Vec<u8>, name: &[u8]) -> Result<(), NoMemory>
    ensures { OnOk result (text.new.items ≡ text.old.items ++ whole_line name.now) }
{
    add_about(
        text,
        b"remark: all addresses of a family are of domain ",
        name,
    )
}

/// Adds the words, the name and the end of the line.
fn add_about(text: &mut Vec<u8>, words: &[u8], name: &[u8]) -> Result<(), NoMemory>
    ensures { OnOk result (text.new.items ≡ text.old.items ++ words.now ++ name.now ++ codes "\n") }
{
    text.extend_from_slice(words)?;
    text.extend_from_slice(name)?;
    text.extend_from_slice(b"\n")?;
    Ok(())
}

fn has_whole(prefixes: &[Prefix]) -> bool
    ensures { result ≡ list_any is_whole prefixes.now }
{
    prefixes.iter().any(|prefix| prefix.length() == 0)
}

#[tactic(auto, unfolding(crate::specs::Findings::no_room))]
fn add_no_room(text: &mut Vec<u8>, said: &[HostLine<'_>]) -> Result<(), NoMemory>
    ensures { OnOk result (text.new.items ≡ text.old.items ++ no_room (map line_value said.now)) }
{
    match reserve_in(said) {
        Some(_) => Ok(()),
        None => {
            text.extend_from_slice(
                b"remark: no room is reserved for the journal, so a full disk ends the server\n",
            )?;
            Ok(())
        }
    }
}

#[tactic(auto, unfolding(crate::specs::Findings::faults))]
fn add_faults(
    text: &mut Vec<u8>,
    settings: &Settings,
    said: &[HostLine<'_>],
) -> Result<(), NoMemory>
    ensures { OnOk result (text.new.items ≡ text.old.items ++ faults settings.now (map line_value said.now)) }
{
    add_no_journal(text, said)?;
    add_too_small(text, settings, said)
}

#[tactic(auto, unfolding(crate::specs::Findings::no_journal))]
fn add_no_journal(text: &mut Vec<u8>, said: &[HostLine<'_>]) -> Result<(), NoMemory>
    ensures { OnOk result (text.new.items ≡ text.old.items ++ no_journal (map line_value said.now)) }
{
    if journal_in(said).is_some() {
        return Ok(());
    }
    text.extend_from_slice(b"fault 6: no journal line\n")?;
    Ok(())
}

#[tactic(auto, unfolding(crate::specs::Findings::too_small))]
fn add_too_small(
    text: &mut Vec<u8>,
    settings: &Settings,
    said: &[HostLine<'_>],
) -> Result<(), NoMemory>
    ensures { OnOk result (text.new.items ≡ text.old.items ++ too_small settings.now (map line_value said.now)) }
{
    if is_roomy(settings, said) {
        return Ok(());
    }
    let room = room_of(reserve_in(said));
    add_sizes(text, bytes_needed(settings), room)
}

fn add_sizes(text: &mut Vec<u8>, needed: u64, room: u64) -> Result<(), NoMemory>
    ensures { OnOk result (text.new.items ≡ text.old.items
        ++ numbered (codes "fault 10: the journal needs ") needed (numbered (codes " bytes, and has ") room (codes "\n"))) }
{
    let mut buffer = Buffer::new();
    text.extend_from_slice(b"fault 10: the journal needs ")?;
    text.extend_from_slice(buffer.format(needed).as_bytes())?;
    add_numbered(text, b" bytes, and has ", room, b"\n")
}

/// Whether the journal has the room that the settings need.
fn is_roomy(settings: &Settings, said: &[HostLine<'_>]) -> bool
    ensures { result ≡ is_roomy settings.now (map line_value said.now) }
{
    bytes_needed(settings) <= room_of(reserve_in(said))
}
