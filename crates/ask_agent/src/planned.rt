use dots_client::Ask;

/// The most asks of a file.
pub const MAX_ASKS: usize = 64;

/// What a client asks, and when.
#[derive(Drop)]
pub struct Planned {
    /// In seconds, below 2^48.
    pub at: u64,
    pub ask: Ask,
}
