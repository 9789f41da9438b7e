use crate::exchange::Exchange;
use dots_lists::{Bytes, NoMemory};

/// 5.08 Hop Limit Reached (RFC 8768, section 4).
pub const HOP_LIMIT_REACHED: u8 = 0xa8;

/// What is to be done with a datagram.
#[derive(Drop)]
pub enum Passed {
    /// These bytes go to the upstream. The exchange is the one that is new, if one is: a store is to have it before the bytes are sent.
    Forward {
        bytes: Bytes,
        fresh: Option<Exchange>,
    },
    /// These bytes go to this peer.
    Reply {
        to: u32,
        bytes: Bytes,
    },
    /// Nothing is sent.
    Nothing,
    /// Memory ran out, and nothing is sent. [`GatewayCore::up`](crate::GatewayCore::up) says so by its error.
    NoMemory,
}

/// Why a request isn't passed on.
#[derive(Clone, Copy)]
pub enum GatewayFault {
    /// As many exchanges wait as there may be, or no number is left.
    TableFull,
    /// Memory ran out.
    NoMemory,
}

impl From<NoMemory> for GatewayFault {
    ghost use Rattle.std.specs.Prelude.{◌≡◌};
    ghost use Rattle.dots_gateway.specs.declared.passed.GatewayFault.TheVariants.{NoMemory};

    ghost from_gives = { λ _ fault. fault ≡ NoMemory };

    fn from(_: NoMemory) -> Self {
        Self::NoMemory
    }
}
