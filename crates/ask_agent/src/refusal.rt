/// A request that was refused.
#[derive(Clone, Copy)]
pub struct Refusal {
    pub mid: u32,
    /// The code of the answer, with its class in the three high bits (RFC 7252, section 3).
    pub code: u8,
}
