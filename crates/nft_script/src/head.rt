//! What a script begins with.

ghost use Rattle.std.specs.Prelude.{◌≡◌, ◌++◌, OnOk};
ghost use Rattle.nft_script.specs.Script.{chains_text, sets_text, flush_text, head_text};

use crate::parts::add_words;
use dots_lists::NoMemory;

/// Adds the lines that make the table where it isn't there, and empty it.
#[tactic(auto, unfolding(crate::specs::Script::head_text))]
pub fn add_head(text: &mut Vec<u8>) -> Result<(), NoMemory>
    ensures { OnOk result (text.new.items ≡ text.old.items ++ head_text) }
{
    add_words(text, chains())?;
    add_words(text, sets())?;
    add_words(text, flushes())
}

#[tactic(auto, unfolding(crate::specs::Script::chains_text))]
fn chains() -> &'static [u8]
    ensures { result.now ≡ chains_text }
{
    b"\
add table inet dots
add chain inet dots scrub
add chain inet dots filters { type filter hook prerouting priority raw; policy accept; }
"
}

#[tactic(auto, unfolding(crate::specs::Script::sets_text))]
fn sets() -> &'static [u8]
    ensures { result.now ≡ sets_text }
{
    b"\
add set inet dots ported { type inet_proto; }
add set inet dots lists { type mark; flags timeout; }
add set inet dots rows { type mark . inet_proto; flags timeout; }
add set inet dots wide { type mark; flags timeout; }
"
}

#[tactic(auto, unfolding(crate::specs::Script::flush_text))]
fn flushes() -> &'static [u8]
    ensures { result.now ≡ flush_text }
{
    b"\
flush chain inet dots filters
flush set inet dots lists
flush set inet dots rows
flush set inet dots wide
add element inet dots ported { 6, 17, 33, 132, 136 }
"
}
