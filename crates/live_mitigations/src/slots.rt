//! The slots of a mitigation.

/// The slots of a journal in which the entries stand by which a mitigation is live.
#[derive(Drop)]
pub struct MitigationSlots {
    /// That of the entry that put it.
    pub put: u32,
    /// That of the entry that withdrew it, where it is terminating.
    pub withdrawal: Option<u32>,
}
