use dots_history::Entry;
use dots_lists::List;

/// Entries in order.
pub type EntryList = List<Entry>;
