use dots_lists::Bytes;

/// Who sends and is sent to.
#[derive(Clone, Copy)]
pub enum Party {
    /// A client, by its place in the plan.
    Client(u32),
    Gateway,
    Server,
}

/// What was sent.
#[derive(Drop)]
pub struct Packet {
    pub source: Party,
    /// None where a peer was sent to that is none of the plan.
    pub target: Option<Party>,
    pub bytes: Bytes,
}
