use dots_lists::Bytes;

/// A body that is stored for a peer.
#[derive(Drop)]
pub struct StoredBody {
    pub peer: u32,
    /// The path and the query, spelled as options.
    pub request: Bytes,
    pub body: Bytes,
}
