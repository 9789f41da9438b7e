//! What a line says.

ghost use Rattle.std.specs.Prelude.{◌≡◌, ◌∷◌, [], map, IfOk};
ghost use Rattle.dots_client.specs.declared.ask.Ask.TheVariants as asks;
ghost use Rattle.ask_agent.specs.Lines.{prefixes_asked, new_of, refresh_of, withdraw_of, ask_of, named, value_of, front_of, at_of, fields_say};

use crate::fields::{cuid_in, lifetime_in, long_in, prefixes_in, word_in};
use acl_lists::{Asked, PrefixList};
use dots_client::{Ask, MAX_MID};
use dots_lists::{Bytes, List, Name, NoMemory, is_word, number_in};
use std::alloc::Global;

/// The greatest time, in seconds.
const MAX_TIME: u64 = (1 << 48) - 1;

/// What a line says.
#[derive(Drop)]
pub enum Line {
    /// `server PEER`
    Server { peer: u32 },
    /// `cuid NAME`, or `spki HEX` with a key that has this name
    Cuid { name: Name },
    /// `mid N`
    Mid { mid: u32 },
    /// `number N`
    Number { number: u64 },
    /// `at T ..`
    At { at: u64, ask: Ask },
}

/// What a line with these fields says; None where it has none of the forms.
pub fn read_line(alloc: Global, fields: &[&[u8]]) -> Result<Option<Line>, NoMemory>
    ensures { IfOk result (λ line. line ≡ fields_say (map (λ field. field.now) fields.now)) }
{
    let [word, rest @ ..] = fields else {
        return Ok(None);
    };
    if is_word(word, b"at") {
        return at_line(alloc, rest);
    }
    front_line(alloc, word, rest)
}

/// What a line says that begins with another word than `at`.
fn front_line(alloc: Global, word: &[u8], fields: &[&[u8]]) -> Result<Option<Line>, NoMemory>
    ensures { IfOk result (λ line. line ≡ front_of word.now (map (λ field. field.now) fields.now)) }
{
    let [text] = fields else {
        return Ok(None);
    };
    value_line(alloc, word, text)
}

/// What a word and its value say.
fn value_line(alloc: Global, word: &[u8], text: &[u8]) -> Result<Option<Line>, NoMemory>
    ensures { IfOk result (λ line. line ≡ value_of word.now text.now) }
{
    if is_word(word, b"server") {
        return Ok(word_in(text).map(|peer| Line::Server { peer }));
    }
    if is_word(word, b"cuid") {
        return name_line(alloc, text);
    }
    if is_word(word, b"spki") {
        let Some(name) = cuid_in(text) else {
            return Ok(None);
        };
        return name_line(alloc, &name);
    }
    if is_word(word, b"mid") {
        return Ok(number_in(0, u64::from(MAX_MID), text).map(|mid| Line::Mid { mid: mid as u32 }));
    }
    if is_word(word, b"number") {
        return Ok(long_in(text).map(|number| Line::Number { number }));
    }
    Ok(None)
}

fn name_line(alloc: Global, name: &[u8]) -> Result<Option<Line>, NoMemory>
    ensures { IfOk result (λ line. line ≡ named name.now) }
{
    match Name::new(alloc, name)? {
        Some(name) => Ok(Some(Line::Cuid { name })),
        None => Ok(None),
    }
}

/// What a line says that begins with `at`.
fn at_line(alloc: Global, fields: &[&[u8]]) -> Result<Option<Line>, NoMemory>
    ensures { IfOk result (λ line. line ≡ at_of (map (λ field. field.now) fields.now)) }
{
    let [time, rest @ ..] = fields else {
        return Ok(None);
    };
    let Some(at) = number_in(0, MAX_TIME, time) else {
        return Ok(None);
    };
    match read_ask(alloc, rest)? {
        Some(ask) => Ok(Some(Line::At { at, ask })),
        None => Ok(None),
    }
}

/// What the fields behind the time ask.
fn read_ask(alloc: Global, fields: &[&[u8]]) -> Result<Option<Ask>, NoMemory>
    ensures { IfOk result (λ ask. ask ≡ ask_of (map (λ field. field.now) fields.now)) }
{
    match fields {
        [word, mid] => {
            if is_word(word, b"withdraw") {
                return Ok(word_in(mid).map(|mid| Ask::Withdraw { mid }));
            }
            Ok(None)
        }
        [word, one, two] => {
            if is_word(word, b"new") {
                return read_new(alloc, one, two);
            }
            if is_word(word, b"refresh") {
                return Ok(read_refresh(one, two));
            }
            Ok(None)
        }
        _ => Ok(None),
    }
}

fn read_new(alloc: Global, lifetime: &[u8], prefixes: &[u8]) -> Result<Option<Ask>, NoMemory>
    ensures { IfOk result (λ ask. ask ≡ new_of lifetime.now prefixes.now) }
{
    let Some(lifetime) = lifetime_in(lifetime) else {
        return Ok(None);
    };
    let Some(prefixes) = prefixes_in(alloc, prefixes)? else {
        return Ok(None);
    };
    Ok(Some(new_ask(alloc, prefixes, lifetime)))
}

/// A new mitigation of these prefixes. Takes no memory.
pub fn new_ask(alloc: Global, prefixes: PrefixList, lifetime: i32) -> Ask
    ensures { result ≡ asks.New (prefixes_asked prefixes) lifetime }
{
    let asked = Asked {
        prefixes,
        ports: List::new(alloc),
        protocols: Bytes::new(alloc),
        names: List::new(alloc),
        aliases: List::new(alloc),
    };
    Ask::New { asked, lifetime }
}

fn read_refresh(mid: &[u8], lifetime: &[u8]) -> Option<Ask>
    ensures { result ≡ refresh_of mid.now lifetime.now }
{
    let mid = word_in(mid)?;
    let lifetime = lifetime_in(lifetime)?;
    Some(Ask::Refresh { mid, lifetime })
}
