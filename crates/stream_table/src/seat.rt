/// Which of the connections of a peer.
#[derive(Clone, Copy)]
pub enum Seat {
    /// The one that was opened first of those that are open.
    Older,
    /// The other.
    Newer,
}
