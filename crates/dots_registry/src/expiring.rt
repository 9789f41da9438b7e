//! Mitigations that are over, with their rows.

ghost use Rattle.std.specs.Prelude.{◌≡◌, ◌<◌, ◌≤◌, ℕ, false, List};
ghost use Rattle.dots_history.specs.declared.entry.Entry.{Entry};
ghost use Rattle.live_mitigations.specs.Ends.{never};
ghost use Rattle.live_mitigations.specs.LiveValues.{ComesTo, SameButRows, SlotsCome, has_due, rows_for};
ghost use Rattle.live_mitigations.specs.LiveValues as lives;
ghost use Rattle.held_resources.specs.Tables as things;
ghost use Rattle.installed_filters.specs.Filters.{SameRoom};
ghost use Rattle.installed_filters.specs.HistoryRows.{Represents};
ghost use Rattle.dots_history.specs.Filed.{Filed};
ghost use Rattle.coap_observe.specs.DueAmong.{includes};

use coap_observe::DueAmong;
use held_resources::HeldResources;
use installed_filters::InstalledFilters;
use live_mitigations::LiveMitigations;

/// Takes the mitigations out that are over by this time in seconds, domain by domain, and before that their rows. The time of
/// the mitigations doesn't move; `LiveMitigations::tick` moves it then. The answer has the domains in which one was over.
pub(crate) fn expire_all(
    live: &mut LiveMitigations,
    filters: &mut InstalledFilters,
    held: &HeldResources,
    now: u64,
) -> DueAmong
    requires bounded { now < never }
    ensures comes { (entries : List Entry) → ComesTo now live.old entries → ComesTo now live.new entries }
    ensures none { (domain : ℕ) → has_due now live.new domain ≡ false }
    ensures others { (domain : ℕ) → includes result domain ≡ false → rows_for live.new domain ≡ rows_for live.old domain }
    ensures same { SameButRows live.old live.new }
    ensures represents { (entries : List Entry) → live.old.time ≤ now → lives.Represents live.old entries → things.Represents held.now entries
        → Represents filters.old live.old.time entries → Represents filters.new now entries }
    ensures room { SameRoom filters.old filters.new }
    ensures slots { (filed : List Filed) → SlotsCome now live.old.tables filed → SlotsCome now live.new.tables filed }
{
    let mut ended = DueAmong::Nobody;
    while let Some(domain) = live.next_due(now) {
        filters.retain_live(domain, live.rows(domain), now, held);
        live.expire(domain, now);
        ended = ended.joined(domain);
    }
    ended
}
