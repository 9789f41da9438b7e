//! An entry of a journal as a line.

ghost use Rattle.std.specs.Prelude.{◌≡◌, ◌<◌, ◌++◌, ℕ, List, Option, decimal, slice_get, OnOk};
ghost use Rattle.std.specs.List.{flat_map};
ghost use Rattle.host_checks.specs.EntryLines.{hex_digit, is_unreserved, spelled_byte, spelled, named, change_word, change_object, change_text, when_text, client_text, entry_line};

use crate::findings::add_numbered;
use dots_history::{Change, Entry};
use dots_lists::NoMemory;
use dots_settings::Settings;
use itoa::Buffer;

/// Adds the line of an entry that stands in this slot.
#[tactic(auto, unfolding(crate::specs::EntryLines::entry_line))]
pub fn add_entry(
    text: &mut Vec<u8>,
    settings: &Settings,
    slot: u64,
    entry: &Entry,
) -> Result<(), NoMemory>
    ensures { OnOk result (text.new.items ≡ text.old.items ++ entry_line settings.now slot entry.now) }
{
    add_when(text, slot, entry)?;
    add_client(text, settings, entry)?;
    add_change(text, &entry.change)?;
    add_words(text, b"\n")
}

/// Adds when and by whom the change was asked for.
#[tactic(auto, unfolding(crate::specs::EntryLines::when_text))]
pub fn add_when(text: &mut Vec<u8>, slot: u64, entry: &Entry) -> Result<(), NoMemory>
    ensures { OnOk result (text.new.items ≡ text.old.items ++ when_text slot entry.now) }
{
    add_numbered(text, b"slot ", slot, b" at ")?;
    add_numbered(text, b"", entry.time, b" peer ")?;
    add_numbered(text, b"", u64::from(entry.peer), b"")
}

/// Adds for which client.
#[tactic(auto, unfolding(crate::specs::EntryLines::client_text))]
pub fn add_client(text: &mut Vec<u8>, settings: &Settings, entry: &Entry) -> Result<(), NoMemory>
    ensures { OnOk result (text.new.items ≡ text.old.items ++ client_text settings.now entry.now) }
{
    add_words(text, b" domain ")?;
    add_domain(text, settings, entry.domain)?;
    add_named(text, b" cuid ", entry.cuid.bytes())?;
    add_words(text, b" ")
}

/// Adds the name of the domain of this number, or `-` where there is none.
#[tactic(auto, unfolding(crate::specs::EntryLines::named))]
fn add_domain(text: &mut Vec<u8>, settings: &Settings, domain: u16) -> Result<(), NoMemory>
    ensures { OnOk result (text.new.items ≡ text.old.items ++ named (slice_get settings.now.domains domain)) }
{
    if domain < settings.domains() {
        text.extend_from_slice(settings.domain_name(domain))?;
        return Ok(());
    }
    text.extend_from_slice(b"-")?;
    Ok(())
}

/// Adds a name, of which what isn't a letter, a digit, `-`, `.`, `_` or `~` is written as `%XX`; `-` where there is none.
#[tactic(auto, unfolding(crate::specs::EntryLines::spelled))]
fn add_name(text: &mut Vec<u8>, name: &[u8]) -> Result<(), NoMemory>
    ensures { OnOk result (text.new.items ≡ text.old.items ++ spelled name.now) }
{
    if name.is_empty() {
        text.extend_from_slice(b"-")?;
        return Ok(());
    }
    add_bytes(text, name)
}

fn add_bytes(text: &mut Vec<u8>, name: &[u8]) -> Result<(), NoMemory>
    ensures { OnOk result (text.new.items ≡ text.old.items ++ flat_map spelled_byte name.now) }
{
    for byte in name {
        add_byte(text, *byte)?;
    }
    Ok(())
}

#[tactic(auto, unfolding(crate::specs::EntryLines::spelled_byte))]
fn add_byte(text: &mut Vec<u8>, byte: u8) -> Result<(), NoMemory>
    ensures { OnOk result (text.new.items ≡ text.old.items ++ spelled_byte byte) }
{
    if is_unreserved(byte) {
        text.push(byte)?;
        return Ok(());
    }
    text.extend_from_slice(&[b'%', hex_digit(byte / 16), hex_digit(byte % 16)])?;
    Ok(())
}

fn is_unreserved(byte: u8) -> bool
    ensures { result ≡ is_unreserved byte }
{
    byte.is_ascii_alphanumeric()
        || (byte == b'-' || (byte == b'.' || (byte == b'_' || byte == b'~')))
}

/// The digit of a number below 16.
fn hex_digit(number: u8) -> u8
    requires { number < 16 }
    ensures { result ≡ hex_digit number }
{
    if number < 10 {
        return b'0' + number;
    }
    55 + number
}

/// Adds what the change is.
pub fn add_change(text: &mut Vec<u8>, change: &Change) -> Result<(), NoMemory>
    ensures { OnOk result (text.new.items ≡ text.old.items ++ change_text change.now) }
{
    add_words(text, change_word(change))?;
    add_object(text, change)?;
    Ok(())
}

/// What the change does.
#[tactic(auto, unfolding(crate::specs::EntryLines::change_word))]
fn change_word(change: &Change) -> &'static [u8]
    ensures { result.now ≡ change_word change.now }
{
    match change {
        Change::Put(put) => {
            if put.trigger {
                return b"put mid ";
            }
            b"put-waiting mid "
        }
        Change::Withdraw { .. } => b"withdraw mid ",
        Change::SetAlias(_) => b"alias ",
        Change::DropAlias { .. } => b"drop-alias ",
        Change::SetAcl(_) => b"acl ",
        Change::DropAcl { .. } => b"drop-acl ",
        Change::Register => b"register",
        Change::Deregister => b"deregister",
        Change::SetConfig { .. } => b"config sid ",
        Change::ClearConfig => b"clear-config",
        Change::Lost => b"signal-lost",
        Change::Back => b"signal-back",
    }
}

/// Adds the mid, the sid or the name that the change is of.
#[tactic(auto, unfolding(crate::specs::EntryLines::change_object))]
fn add_object(text: &mut Vec<u8>, change: &Change) -> Result<(), NoMemory>
    ensures { OnOk result (text.new.items ≡ text.old.items ++ change_object change.now) }
{
    match change {
        Change::Put(put) => add_number(text, put.mid),
        Change::Withdraw { mid } => add_number(text, *mid),
        Change::SetAlias(alias) => add_name(text, alias.name.bytes()),
        Change::DropAlias { name } => add_name(text, name.bytes()),
        Change::SetAcl(acl) => add_name(text, acl.name.bytes()),
        Change::DropAcl { name } => add_name(text, name.bytes()),
        Change::SetConfig { sid, .. } => add_number(text, *sid),
        _ => Ok(()),
    }
}

fn add_number(text: &mut Vec<u8>, number: u32) -> Result<(), NoMemory>
    ensures { OnOk result (text.new.items ≡ text.old.items ++ decimal number) }
{
    let mut buffer = Buffer::new();
    text.extend_from_slice(buffer.format(number).as_bytes())?;
    Ok(())
}

fn add_named(text: &mut Vec<u8>, words: &[u8], name: &[u8]) -> Result<(), NoMemory>
    ensures { OnOk result (text.new.items ≡ text.old.items ++ words.now ++ spelled name.now) }
{
    text.extend_from_slice(words)?;
    add_name(text, name)
}

pub fn add_words(text: &mut Vec<u8>, words: &[u8]) -> Result<(), NoMemory>
    ensures { OnOk result (text.new.items ≡ text.old.items ++ words.now) }
{
    text.extend_from_slice(words)?;
    Ok(())
}
