/// A session configuration (RFC 9132, section 4.5.2).
#[derive(Clone, Copy)]
pub struct Config {
    /// While a mitigation is active.
    pub mitigating: Values,
    /// At other times.
    pub idle: Values,
}

/// The values of a session configuration.
#[derive(Clone, Copy, PartialEq, Eq)]
pub struct Values {
    /// `heartbeat-interval`, in seconds; 0 for no heartbeats.
    pub interval: u64,
    /// `missing-hb-allowed`.
    pub missing: u64,
    /// `max-retransmit`.
    pub retransmit: u64,
    /// `ack-timeout`, in hundredths of a second.
    pub timeout: u64,
    /// `ack-random-factor`, in hundredths.
    pub factor: u64,
    /// `probing-rate`, in bytes per second.
    pub rate: u64,
}
