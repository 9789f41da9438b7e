//! The codes of signaling messages (RFC 8323, section 5.1), and those that a server sends by itself.

/// 7.01, the capabilities and settings of who sends it (section 5.3).
pub(crate) const CSM: u8 = 0xe1;

/// 7.02 (section 5.4).
pub(crate) const PING: u8 = 0xe2;

/// 7.03 (section 5.4).
pub(crate) const PONG: u8 = 0xe3;

/// 7.04 (section 5.5).
pub(crate) const RELEASE: u8 = 0xe4;

/// 7.05 (section 5.6).
pub(crate) const ABORT: u8 = 0xe5;

/// The frame of a CSM without options: the first that is sent where a connection opens.
pub const PLAIN_CSM: [u8; 2] = [0x00, CSM];

/// The frame of an Abort without options: the last that is sent where a connection can't go on.
pub const PLAIN_ABORT: [u8; 2] = [0x00, ABORT];
