//! What the heartbeats of a peer go by.

ghost use Rattle.std.specs.Prelude.{ℕ};

/// The configurations of sessions, as heartbeats go by them.
pub trait Configs {
    /// What is said of the `heartbeat-interval` of a peer now, in seconds, and its `missing-hb-allowed` (RFC 9132, section 4.5.2): those of
    /// the mitigating values while a mitigation of the peer is active, and of the idle values at other times.
    ghost Says: { Self → ℕ → ℕ × ℕ → Type 0 };

    /// The interval and the number of missed heartbeats of this peer. Takes no memory.
    fn beat(&self, peer: u32) -> (u64, u64)
        ensures { Says self.now peer result };
}
