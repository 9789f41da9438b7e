use dots_client::Ask;

/// What may happen in a world.
#[derive(Drop)]
pub enum WorldEvent {
    /// The client at this place asks.
    Ask { client: u32, ask: Ask },
    /// It is `at`, in seconds, unless it was later before.
    Tick { at: u64 },
    /// The server restarts.
    Restart,
    /// The gateway restarts.
    GatewayRestart,
    /// The packet of this number comes to whom it was sent.
    Deliver { packet: u64 },
}
