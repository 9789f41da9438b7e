use acl_lists::Asked;

/// A request that waits for its answer.
#[derive(Drop)]
pub struct Request {
    /// Its token is these 8 bytes.
    pub number: u64,
    pub mid: u32,
    /// What it asks for; None where it withdraws.
    pub scope: Option<Asked>,
    /// Whether its message was handed out.
    pub handed: bool,
}
