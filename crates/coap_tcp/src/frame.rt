use crate::fault::FrameFault;

/// A message at the front of a stream, in slices of the bytes that are buffered (RFC 8323, section 3.2).
#[derive(Clone, Copy)]
pub struct Frame<'a> {
    pub code: u8,
    /// At most 8 bytes.
    pub token: &'a [u8],
    /// The options, and the marker and the payload: at most 4,096 bytes.
    pub rest: &'a [u8],
    /// How many bytes the frame has: as many are to be discarded.
    pub length: usize,
}

/// What stands at the front of a stream.
#[derive(Clone, Copy)]
pub enum FrameCut<'a> {
    /// A whole frame.
    Message(Frame<'a>),
    /// Less than a frame.
    More,
    /// No frame, whatever follows.
    Refused(FrameFault),
}
