//! Reading lists, and what a request or an alias names.

ghost use Rattle.std.specs.Prelude.{◌≡◌, ◌≤◌, length, IfOk, OnOk};
ghost use Rattle.slot_journal.specs.RecordReading.{Gives, alias_at, asked_at, items_at, list_at, name_at, ports_at, prefix_at};

use crate::reader::Reader;
use crate::record_fault::EntryFault;
use acl_lists::{Alias, Asked, NameList, PortList, PrefixList};

/// How many prefixes, port ranges or protocols there may be at most.
pub(crate) const MAX_ITEMS: u8 = acl_lists::MAX_ITEMS as u8;

/// How many names there may be at most.
const MAX_NAMES: u8 = acl_lists::MAX_NAMES as u8;

impl Reader<'_> {
    /// So many prefixes.
    fn prefixes_of(&mut self, count: u8) -> Result<PrefixList, EntryFault>
        ensures value { Gives (λ x. (x, self.new.rest.now)) result (items_at prefix_at count self.old.end self.old.rest.now) }
        ensures end { OnOk result (self.new.end ≡ self.old.end) }
        ensures size { IfOk result (λ x. length x ≡ count) }
    {
        let mut prefixes = PrefixList::new(self.alloc);
        for _ in 0..count {
            let prefix = self.prefix()?;
            prefixes.push(prefix)?;
        }
        Ok(prefixes)
    }

    /// At most so many prefixes, behind their number.
    #[tactic(auto, unfolding(crate::specs::RecordReading::list_at))]
    pub(crate) fn prefixes(&mut self, most: u8) -> Result<PrefixList, EntryFault>
        ensures value { Gives (λ x. (x, self.new.rest.now)) result (list_at most prefix_at self.old.end self.old.rest.now) }
        ensures end { OnOk result (self.new.end ≡ self.old.end) }
        ensures few { IfOk result (λ x. length x ≤ most) }
    {
        let count = self.within(0, most)?;
        self.prefixes_of(count)
    }

    /// So many port ranges.
    fn ranges_of(&mut self, count: u8) -> Result<PortList, EntryFault>
        ensures value { Gives (λ x. (x, self.new.rest.now)) result (items_at ports_at count self.old.end self.old.rest.now) }
        ensures end { OnOk result (self.new.end ≡ self.old.end) }
    {
        let mut ranges = PortList::new(self.alloc);
        for _ in 0..count {
            let range = self.ports()?;
            ranges.push(range)?;
        }
        Ok(ranges)
    }

    #[tactic(auto, unfolding(crate::specs::RecordReading::list_at))]
    pub(crate) fn ranges(&mut self) -> Result<PortList, EntryFault>
        ensures value { Gives (λ x. (x, self.new.rest.now)) result (list_at 32 ports_at self.old.end self.old.rest.now) }
        ensures end { OnOk result (self.new.end ≡ self.old.end) }
    {
        let count = self.within(0, MAX_ITEMS)?;
        self.ranges_of(count)
    }

    /// So many names.
    fn names_of(&mut self, count: u8) -> Result<NameList, EntryFault>
        ensures value { Gives (λ x. (x, self.new.rest.now)) result (items_at name_at count self.old.end self.old.rest.now) }
        ensures end { OnOk result (self.new.end ≡ self.old.end) }
    {
        let mut names = NameList::new(self.alloc);
        for _ in 0..count {
            let name = self.name()?;
            names.push(name)?;
        }
        Ok(names)
    }

    /// At most so many names, behind their number.
    #[tactic(auto, unfolding(crate::specs::RecordReading::list_at))]
    fn names(&mut self, most: u8) -> Result<NameList, EntryFault>
        ensures value { Gives (λ x. (x, self.new.rest.now)) result (list_at most name_at self.old.end self.old.rest.now) }
        ensures end { OnOk result (self.new.end ≡ self.old.end) }
    {
        let count = self.within(0, most)?;
        self.names_of(count)
    }

    /// What is asked, with at most so many names of aliases.
    #[tactic(auto, unfolding(crate::specs::RecordReading::asked_at))]
    pub(crate) fn asked(&mut self, most_aliases: u8) -> Result<Asked, EntryFault>
        ensures value { Gives (λ x. (x, self.new.rest.now)) result (asked_at most_aliases self.old.end self.old.rest.now) }
        ensures end { OnOk result (self.new.end ≡ self.old.end) }
    {
        Ok(Asked {
            prefixes: self.prefixes(MAX_ITEMS)?,
            ports: self.ranges()?,
            protocols: self.counted(MAX_ITEMS)?,
            names: self.names(MAX_NAMES)?,
            aliases: self.names(most_aliases)?,
        })
    }

    #[tactic(auto, unfolding(crate::specs::RecordReading::alias_at))]
    pub(crate) fn alias(&mut self) -> Result<Alias, EntryFault>
        ensures value { Gives (λ x. (x, self.new.rest.now)) result (alias_at self.old.end self.old.rest.now) }
        ensures end { OnOk result (self.new.end ≡ self.old.end) }
    {
        Ok(Alias {
            name: self.name()?,
            asked: self.asked(0)?,
        })
    }
}
