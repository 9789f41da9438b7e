/// Why a stream is refused (RFC 8323, section 3.2).
#[derive(Clone, Copy, Debug)]
pub enum FrameFault {
    /// The token has more than 8 bytes.
    Token,
    /// Options, marker and payload have more than 4,096 bytes.
    TooLong,
    /// What stands behind the token isn't options and a payload (RFC 7252, section 3.1).
    Options,
}
