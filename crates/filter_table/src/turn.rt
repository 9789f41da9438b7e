/// The turn of a row of a mitigation among the others: turns are in order of place.
#[derive(Clone, Copy, Drop)]
pub struct Turn {
    pub place: u64,
    /// The slot that the row stands in as long as it is held.
    pub slot: u32,
}
