use crate::short::Short;

/// What a client heard.
#[derive(Drop)]
pub enum Heard {
    /// The mitigation of this mid is granted.
    Granted { mid: u32 },
    /// The mitigation of this mid is withdrawn.
    Withdrawn { mid: u32 },
    /// The request of this mid was answered otherwise, with this code.
    Refused { mid: u32, code: u8 },
    /// A heartbeat, with the bytes of its answer.
    Beat(Short),
    /// Nothing that a client waits for.
    Nothing,
    /// Memory ran out. The client is as it was.
    NoMemory,
}
