//! Parts of the rules.

ghost use Rattle.std.specs.Prelude.{◌≡◌, ◌++◌, max, min, decimal, OnOk};
ghost use Rattle.ip_scope.specs.PrefixText.{prefix_text};
ghost use Rattle.nft_script.specs.Script.{seconds, timeout_text, family_word, address_test, range_text, number_text, has_ports, rule_front};

use dots_lists::NoMemory;
use ip_scope::{Family, PortRange, Prefix, write_prefix};
use itoa::Buffer;

/// The greatest number of seconds that `nft` takes, which is 49 days.
const MOST_SECONDS: u32 = 4_294_967;

pub fn add_words(text: &mut Vec<u8>, words: &[u8]) -> Result<(), NoMemory>
    ensures { OnOk result (text.new.items ≡ text.old.items ++ words.now) }
{
    text.extend_from_slice(words)?;
    Ok(())
}

pub fn add_number(text: &mut Vec<u8>, number: u64) -> Result<(), NoMemory>
    ensures { OnOk result (text.new.items ≡ text.old.items ++ decimal number) }
{
    let mut buffer = Buffer::new();
    text.extend_from_slice(buffer.format(number).as_bytes())?;
    Ok(())
}

/// Adds words and a number.
pub fn add_numbered(text: &mut Vec<u8>, words: &[u8], number: u64) -> Result<(), NoMemory>
    ensures { OnOk result (text.new.items ≡ text.old.items ++ words.now ++ decimal number) }
{
    add_words(text, words)?;
    add_number(text, number)
}

/// The seconds as `nft` takes them.
fn seconds(left: u32) -> u32
    ensures { result ≡ seconds left }
{
    left.min(MOST_SECONDS).max(1)
}

/// Adds how long an element stands.
#[tactic(auto, unfolding(crate::specs::Script::timeout_text))]
pub fn add_timeout(text: &mut Vec<u8>, left: Option<u32>) -> Result<(), NoMemory>
    ensures { OnOk result (text.new.items ≡ text.old.items ++ timeout_text left) }
{
    let Some(left) = left else {
        return Ok(());
    };
    add_numbered(text, b" timeout ", u64::from(seconds(left)))?;
    add_words(text, b"s")
}

#[tactic(auto, unfolding(crate::specs::Script::family_word))]
fn family_word(family: Family) -> &'static [u8]
    ensures { result.now ≡ family_word family }
{
    match family {
        Family::V4 => b" ip",
        Family::V6 => b" ip6",
    }
}

fn add_prefix(text: &mut Vec<u8>, prefix: &Prefix) -> Result<(), NoMemory>
    ensures { OnOk result (text.new.items ≡ text.old.items ++ prefix_text prefix.now) }
{
    let mut room = [0; 43];
    let len = write_prefix(prefix, &mut room);
    text.extend_from_slice(&room[..len])?;
    Ok(())
}

/// Adds that the address on this side lies in the prefix.
#[tactic(auto, unfolding(crate::specs::Script::address_test))]
pub fn add_address_test(text: &mut Vec<u8>, side: &[u8], prefix: &Prefix) -> Result<(), NoMemory>
    ensures { OnOk result (text.new.items ≡ text.old.items ++ address_test side.now prefix.now) }
{
    add_words(text, family_word(prefix.family()))?;
    add_words(text, side)?;
    add_prefix(text, prefix)
}

#[tactic(auto, unfolding(crate::specs::Script::range_text))]
pub fn add_range(text: &mut Vec<u8>, range: &PortRange) -> Result<(), NoMemory>
    ensures { OnOk result (text.new.items ≡ text.old.items ++ range_text range.now) }
{
    add_number(text, u64::from(range.lower()))?;
    add_numbered(text, b"-", u64::from(range.upper()))
}

/// Adds the number that a lookup takes, whatever mark the packet has.
#[tactic(auto, unfolding(crate::specs::Script::number_text))]
pub fn add_lookup(text: &mut Vec<u8>, number: u64) -> Result<(), NoMemory>
    ensures { OnOk result (text.new.items ≡ text.old.items ++ number_text number) }
{
    add_numbered(text, b" meta mark and 0 or ", number)
}

/// Adds that the protocol has ports.
#[tactic(auto, unfolding(crate::specs::Script::has_ports))]
pub fn add_has_ports(text: &mut Vec<u8>) -> Result<(), NoMemory>
    ensures { OnOk result (text.new.items ≡ text.old.items ++ has_ports) }
{
    add_words(text, b" meta l4proto @ported")
}

/// Adds what each rule begins with.
#[tactic(auto, unfolding(crate::specs::Script::rule_front))]
pub fn add_rule_front(text: &mut Vec<u8>) -> Result<(), NoMemory>
    ensures { OnOk result (text.new.items ≡ text.old.items ++ rule_front) }
{
    add_words(text, b"add rule inet dots filters")
}
