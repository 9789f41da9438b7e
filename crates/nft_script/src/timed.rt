use acl_lists::{AclRow, ScrubRow};

/// A row of a mitigation, with its end.
#[derive(Clone, Copy, Drop)]
pub struct TimedRow<'a> {
    pub row: &'a ScrubRow,
    /// The seconds that are left of its mitigation; None where it has no end.
    pub left: Option<u32>,
}

/// The row of an access list, with its end.
#[derive(Clone, Copy, Drop)]
pub struct TimedList<'a> {
    pub list: &'a AclRow,
    /// The seconds for which it stays active where nothing is asked for; None where it has no end.
    pub left: Option<u32>,
}
