//! How much a request, an alias or an access list may name. RFC 9132 and RFC 8783 have no such numbers: these are this server's own,
//! and stand here alone.

/// The most target prefixes, port ranges and protocols, each, of a scope or an alias.
pub const MAX_ITEMS: usize = 32;

/// The most host names, and the most alias names, of a scope or an alias.
pub const MAX_NAMES: usize = 8;

/// The most targets of a mitigation: its own, and one of each alias.
pub const MAX_TARGETS: usize = 9;

/// The most prefixes that the targets of a mitigation have together.
pub const MAX_RESOLVED: usize = 128;

/// The most entries of an access list.
pub const MAX_ACES: usize = 64;
