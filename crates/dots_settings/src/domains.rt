use acl_lists::PrefixList;
use dots_lists::Bytes;

/// A domain and its prefixes, as contracts speak of it.
#[derive(Drop)]
pub struct DomainRow {
    pub name: Bytes,
    /// In the file's order.
    pub prefixes: PrefixList,
}
