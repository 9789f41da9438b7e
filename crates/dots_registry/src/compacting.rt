//! Which slots a compaction keeps, and their new numbers.

ghost use Rattle.std.specs.Prelude.{◌≡◌, ◌≤◌, [], List, length, map, option_map, option_to_list};
ghost use Rattle.dots_settings.specs.Settings.{SettingsValue};
ghost use Rattle.dots_history.specs.declared.entry.Entry.{Entry};
ghost use Rattle.dots_history.specs.Histories.{Calm};
ghost use Rattle.dots_history.specs.Keeping.{kept};
ghost use Rattle.dots_history.specs.Slots.{Rises, number_in};
ghost use Rattle.dots_history.specs.Filed.{Filed, entry_of, slot_of, refiled};
ghost use Rattle.dots_history.specs.KeptPlaces.{union};
ghost use Rattle.dots_registry.specs.Kept.{named_slots, filed, filed_kept, kept_slots};
ghost use Rattle.dots_registry.specs.RegistryValues.{Represents, IsOf, time_of, number_remembered};
ghost use Rattle.dots_registry.specs.Filed.{RepresentsFiled, most_kept};

use crate::registry::Registry;
use coap_exchange::Remembered;
use dots_history::{SlotList, number_in};
use held_resources::HeldResources;
use live_mitigations::LiveMitigations;

impl Registry {
    /// Puts the slots of the entries that a compaction keeps into the list, which is empty and has room for them: those of the entries
    /// that the view of the history names. Takes no memory.
    pub fn kept(&self, into: &mut SlotList)
        requires empty { into.old.items ≡ [] }
        requires room { most_kept self.now ≤ into.old.room }
        ensures kept { (all : List Filed) → RepresentsFiled self.now all → Rises (map slot_of all)
            → into.new.items ≡ named_slots (number_remembered self.now) (time_of self.now) all }
        ensures few { length into.new.items ≤ most_kept self.now }
        ensures room { into.new.room ≡ into.old.room }
    {
        put_slots(&self.live, &self.held, &self.remembered, self.last, into);
    }

    /// Gives the slots new numbers: the slot `keep[i]` becomes the slot `i`, and one that isn't in `keep` stays. Where `keep` is what
    /// [`Registry::kept`] gave, what it names then stands in the first slots. Takes no memory.
    pub fn moved(&mut self, keep: &[u32])
        requires { Rises keep.now }
        ensures represents { (entries : List Entry) → Represents self.old entries → Represents self.new entries }
        // Whatever list it is, each entry then stands in the slot of its new number: all of them, and those alone that the view names.
        ensures refiled { (all : List Filed) → RepresentsFiled self.old all → RepresentsFiled self.new (map (refiled keep.now) all) }
        ensures named { (all : List Filed) → RepresentsFiled self.old all → Calm (map entry_of all)
            → RepresentsFiled self.new (map (refiled keep.now) (filed_kept (number_remembered self.old) (time_of self.old) all)) }
        ensures filed { (all : List Filed) → RepresentsFiled self.old all → Rises (map slot_of all) → Calm (map entry_of all)
            → keep.now ≡ named_slots (number_remembered self.old) (time_of self.old) all
            → RepresentsFiled self.new (filed (kept (number_remembered self.old) (time_of self.old) (map entry_of all))) }
        ensures time { time_of self.new ≡ time_of self.old }
        ensures settings { (settings : SettingsValue) → IsOf settings self.old → IsOf settings self.new }
    {
        self.remembered.moved(keep);
        self.live.renumber(keep);
        self.held.renumber(keep);
        self.last = number_of(keep, self.last);
    }
}

/// Puts all slots that are kept into the list, which has room for them.
fn put_slots(
    live: &LiveMitigations,
    held: &HeldResources,
    remembered: &Remembered,
    last: Option<u32>,
    into: &mut SlotList,
)
    requires { length (union (kept_slots live.now.tables remembered.now last held.now.slots.rows) into.old.items) ≤ into.old.room }
    ensures { into.new ≡ record into.old { items = union (kept_slots live.now.tables remembered.now last held.now.slots.rows) into.old.items } }
{
    held.put_slots(into);
    put_last(last, into);
    remembered.slots(into);
    live.put_slots(into);
}

/// Puts the slot into the list, where there is one.
fn put_last(last: Option<u32>, into: &mut SlotList)
    requires { length (union (option_to_list last) into.old.items) ≤ into.old.room }
    ensures { into.new ≡ record into.old { items = union (option_to_list last) into.old.items } }
{
    if let Some(slot) = last {
        into.put(slot);
    }
}

fn number_of(keep: &[u32], slot: Option<u32>) -> Option<u32>
    requires { Rises keep.now }
    ensures { result ≡ option_map (number_in keep.now) slot }
{
    match slot {
        Some(slot) => Some(number_in(keep, slot)),
        None => None,
    }
}
