use crate::by_overlap::Which;
use acl_lists::PrefixList;
use dots_lists::NoMemory;

/// Why a mitigation isn't granted.
#[derive(Drop)]
pub enum PutFault {
    /// The client's name is in use by another peer (RFC 9132, section 4.4.1.3: conflict-cause 3).
    Collision,
    /// A mitigation of this mid stands that was asked for something else, or with another trigger value.
    Changed,
    /// The client holds no alias of an asked name.
    UnknownAlias,
    /// The targets have more than 128 prefixes together.
    TooMany,
    /// A standing mitigation of the client with the same trigger value overlaps and has a higher mid; this is the highest
    /// such mid.
    Higher { mid: u32 },
    /// Standing mitigations of other clients overlap; these are the resolved prefixes, in order, that meet one
    /// (conflict-cause 1).
    Other { prefixes: PrefixList },
    /// As many live mitigations as may be would stay beside it, of the client or of the domain; this is their number.
    Capacity { which: Which, number: u64 },
    NoMemory,
}

impl From<NoMemory> for PutFault {
    ghost use Rattle.std.specs.Prelude.{◌≡◌};
    ghost use Rattle.conflict_rules.specs.declared.fault.PutFault.TheVariants.{NoMemory};

    ghost from_gives = { λ _ fault. fault ≡ NoMemory };

    fn from(_: NoMemory) -> Self {
        Self::NoMemory
    }
}
