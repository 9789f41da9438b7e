use crate::config::Config;
use crate::put::Put;
use acl_lists::{Acl, Alias};
use dots_lists::Name;

/// What an accepted request changes.
#[derive(Drop)]
pub enum Change {
    /// A mitigation is granted, or its lifetime anew (RFC 9132, section 4.4.1).
    Put(Put),
    /// The mitigation of this mid is withdrawn (RFC 9132, section 4.4.4).
    Withdraw { mid: u32 },
    /// An alias is written (RFC 8783, section 6.1).
    SetAlias(Alias),
    /// The alias of this name is deleted (RFC 8783, section 6.3).
    DropAlias { name: Name },
    /// An access list is written (RFC 8783, section 7.2).
    SetAcl(Acl),
    /// The access list of this name is deleted (RFC 8783, section 7.4).
    DropAcl { name: Name },
    /// The client registers on the data channel (RFC 8783, section 5.1).
    Register,
    /// The client leaves the data channel, and takes its aliases and access lists along (RFC 8783, section 5.2).
    Deregister,
    /// A session configuration is set (RFC 9132, section 4.5.2).
    SetConfig { sid: u32, config: Config },
    /// The session configuration that is held is deleted (RFC 9132, section 4.5.4).
    ClearConfig,
    /// The signal of a client peer is lost.
    Lost,
    /// It is back.
    Back,
}
