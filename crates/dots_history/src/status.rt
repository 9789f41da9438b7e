/// What the entries after a mitigation have done to it.
#[derive(Clone, Copy)]
pub enum Status {
    /// A later mitigation of its client took its place.
    Ended,
    /// Nothing.
    Open,
    /// It was withdrawn, first at this time in seconds, and no later mitigation took its place.
    Withdrawn(u64),
}
