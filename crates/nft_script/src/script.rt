//! The whole script.

ghost use Rattle.std.specs.Prelude.{◌≡◌, IfOk};
ghost use Rattle.nft_script.specs.Script.{nft_text};

use crate::entries::add_lists;
use crate::falling::falling;
use crate::head::add_head;
use crate::rows::add_rows;
use crate::timed::{TimedList, TimedRow};
use dots_lists::{Bytes, NoMemory};
use dots_settings::Settings;
use std::alloc::Global;

/// The script for `nft -f` that replaces the filters of the table `inet dots` with those of the rows and the access lists that are active:
/// the entries of the lists in their order, and then the rows by falling mid.
#[tactic(auto, unfolding(crate::specs::Script::nft_text))]
pub fn nft_script(
    alloc: Global,
    settings: &Settings,
    rows: &[TimedRow<'_>],
    lists: &[TimedList<'_>],
) -> Result<Bytes, NoMemory>
    ensures { IfOk result (λ text. text ≡ nft_text settings.now rows.now lists.now) }
{
    let sorted = falling(alloc, rows)?;
    let mut text = Vec::new(alloc);
    add_head(&mut text)?;
    add_lists(&mut text, settings, lists)?;
    add_rows(&mut text, sorted.as_slice())?;
    Ok(Bytes::from_vec(text))
}
