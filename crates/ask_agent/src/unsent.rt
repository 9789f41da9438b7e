use dots_client::AskFault;

/// Why an ask isn't sent.
#[derive(Clone, Copy)]
pub enum Why {
    /// The mitigation of this mid isn't granted, so that it can't be refreshed or withdrawn.
    Unknown { mid: u32 },
    /// The client didn't take it.
    Refused(AskFault),
}

/// An ask that wasn't sent.
#[derive(Clone, Copy)]
pub struct Unsent {
    /// Of the ask in the order of the settings, from 1 on.
    pub number: usize,
    pub why: Why,
}
