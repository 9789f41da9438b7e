use acl_lists::Asked;

/// What a client wants of its server.
#[derive(Drop)]
pub enum Ask {
    /// A mitigation, for a lifetime in seconds, from 1 on, or -1 for an indefinite one (RFC 9132, section 4.4.1).
    New { asked: Asked, lifetime: i32 },
    /// The mitigation of this mid once more, with the same scope and for this lifetime.
    Refresh { mid: u32, lifetime: i32 },
    /// The mitigation of this mid no longer (section 4.4.4).
    Withdraw { mid: u32 },
}

/// Why nothing is asked. The client is then as it was.
#[derive(Clone, Copy)]
pub enum AskFault {
    /// A request of this mid waits for its answer.
    Busy { mid: u32 },
    /// All mids were given, and a request waits or a mitigation is granted, so that none can be given again.
    MidSpent,
    /// As many requests wait as there is room for. The number is the one that the request would have had.
    Full { number: u64 },
    /// Memory ran out.
    NoMemory,
}
