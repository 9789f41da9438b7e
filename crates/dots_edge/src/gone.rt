//! What is known of a connection that went.

use crate::socket_log::SocketLog;
use std::time::Duration;

/// What is known of the connection that went last of those that the server hadn't closed.
#[derive(Drop)]
pub struct Gone {
    /// What its socket gave.
    pub came: SocketLog,
    /// When the last byte came or went, or a send was kept.
    pub moved: Duration,
    /// When the first byte came that no send has answered.
    pub asked: Option<Duration>,
    /// Whether bytes of a send were lost.
    pub broken: bool,
}

impl Gone {
    /// None went yet.
    pub fn none() -> Gone {
        Gone {
            came: SocketLog::new(),
            moved: Duration::ZERO,
            asked: None,
            broken: false,
        }
    }
}
