//! A live mitigation with the slots of its entries.

ghost use Rattle.std.specs.Prelude.{◌≡◌, IfSome, IfNone, None};
ghost use Rattle.dots_history.specs.Entries.{put_of};
ghost use Rattle.dots_history.specs.Tables.{bare};
ghost use Rattle.dots_history.specs.declared.status.Status.TheVariants.{Open};
ghost use Rattle.live_mitigations.specs.LiveRows.{row_moved};

use crate::row::Row;
use crate::slots::MitigationSlots;
use crate::slotting::note_withdrawal;
use conflict_rules::Mitigates;
use dots_history::{Entry, Put, Status};

/// A live mitigation, and the slots of a journal in which its entries stand.
#[derive(Drop)]
pub struct LiveRow {
    pub mitigation: Row,
    pub(crate) slots: MitigationSlots,
}

impl Mitigates for LiveRow {
    ghost use Rattle.conflict_rules.specs.Lives.{live_of};

    ghost live = { λ row. live_of row.mitigation };

    fn peer(&self) -> u32 {
        self.mitigation.peer()
    }

    fn cuid(&self) -> &[u8] {
        self.mitigation.cuid().bytes()
    }

    fn put(&self) -> &Put {
        self.mitigation.put()
    }

    fn is_standing(&self) -> bool {
        match self.mitigation.status() {
            Status::Open => true,
            Status::Withdrawn(_) | Status::Ended => false,
        }
    }
}

impl LiveRow {
    /// The mitigation that an entry in this slot puts, to which nothing was done yet; None where it puts none.
    pub(crate) fn of(entry: Entry, slot: u32) -> Option<LiveRow>
        ensures none { IfNone result (put_of entry.change ≡ None) }
        ensures some { IfSome result (λ row. row ≡ record {
          mitigation = record { put = bare entry; status = Open };
          slots = record { put = slot; withdrawal = None };
        }) }
    {
        let mitigation = Row::of(entry)?;
        Some(LiveRow {
            mitigation,
            slots: MitigationSlots {
                put: slot,
                withdrawal: None,
            },
        })
    }

    /// Does to it what the entry in this slot does.
    pub(crate) fn take(&mut self, entry: &Entry, slot: u32)
        ensures { self.new ≡ row_moved (record { entry = entry.now; slot = slot }) self.old }
    {
        note_withdrawal(&mut self.slots, &self.mitigation, entry, slot);
        self.mitigation.take(entry);
    }
}
