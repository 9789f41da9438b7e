use crate::planned::Planned;
use dots_lists::{List, Name};

/// The settings of a client.
#[derive(Drop)]
pub struct AskSettings {
    /// The peer that is its server.
    pub server: u32,
    pub cuid: Name,
    /// The mid of the first new ask, where a line gives it: at most 3221225471.
    pub mid: Option<u32>,
    /// The number of the first request, where a line gives it.
    pub number: Option<u64>,
    /// What is asked, in the order of the times.
    pub asks: List<Planned>,
}
