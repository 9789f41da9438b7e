use slot_journal::JournalFault;

/// What stopped the events of a gateway before the end.
#[derive(Clone, Copy)]
pub enum GatewayHalt {
    /// The wire failed.
    NextFailed,
    /// The disk failed while an exchange was kept. Nothing of that event was sent.
    DiskFailed,
    /// At a restart the store didn't open.
    Unrecovered(JournalFault),
    /// 2^40 events came, and none was the end.
    TooMany,
}

/// How the run of a gateway ended.
#[derive(Clone, Copy)]
pub enum GatewayEnding {
    /// The end was taken, when so many exchanges waited.
    Ended { waiting: usize },
    /// The events stopped before the end.
    Halted(GatewayHalt),
    /// The store didn't open, and no event was taken.
    Unopened(JournalFault),
}
