use acl_lists::PrefixList;
use dots_lists::Name;

/// A host name and its addresses.
#[derive(Drop)]
pub struct NameRow {
    /// With the spelling of its first line.
    pub name: Name,
    /// In the file's order; at least one.
    pub prefixes: PrefixList,
}
