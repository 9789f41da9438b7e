//! Laws of generated runs. No program needs to call these functions.

ghost use Rattle.std.specs.Prelude.{◌≡◌, ℕ, ◌+◌, true, List, [], ◌∷◌, ◌++◌, length, count_by};
ghost use Rattle.dots_host.specs.declared.event.Event.TheVariants as event;
ghost use Rattle.dots_host.specs.declared.out.OwnedOut.{OwnedOut};
ghost use Rattle.dots_host.specs.Acts.{wire_acts};
ghost use Rattle.dots_host.specs.Runs.{EndsBy};
ghost use Rattle.dots_host.specs.Hosted.{Hosted, HandsOut};
ghost use Rattle.dots_load.specs.Datagrams.{EachComing, AreBytes};
ghost use Rattle.dots_load.specs.Events.{load_events};
ghost use Rattle.dots_load.specs.Report.{coming_in, created, changed, deleted, content, conflict, other};

/// Where a host to which the events of a seed come was asked for its events until End came, and each call was recorded, it handed out all
/// of them, in their order, and then End.
pub fn all_come()
    ensures { (seed : ℕ) (old new : Hosted) → old.coming ≡ load_events seed → old.disk.acts ≡ [] → HandsOut old new → new.disk.whole ≡ true
        → EndsBy event.End (wire_acts 0 new.disk.acts) → coming_in (wire_acts 0 new.disk.acts) ≡ load_events seed ++ (record { event = event.End; at = 0 }) ∷ [] }
{}

/// Each datagram of the events of a seed has bytes.
pub fn events_are_bytes()
    ensures { (seed : ℕ) → EachComing AreBytes (load_events seed) }
{}

/// The six counts of sends add up to the number of sends.
pub fn counts_add_up()
    ensures { (sends : List OwnedOut) → count_by created sends + count_by changed sends + count_by deleted sends + count_by content sends
        + count_by conflict sends + count_by other sends ≡ length sends }
{}
