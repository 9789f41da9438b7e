use crate::kind::Kind;

/// An option that is to be written: its number, and how many bytes its value has.
#[derive(Clone, Copy)]
pub struct OptionPart {
    pub number: u16,
    /// At most 65,804.
    pub length: usize,
}

/// What a message is written from.
#[derive(Clone, Copy)]
pub struct Parts<'a> {
    pub kind: Kind,
    pub code: u8,
    /// The Message ID.
    pub id: u16,
    /// At most 8 bytes.
    pub token: &'a [u8],
    /// In an order in which the numbers don't fall.
    pub options: &'a [OptionPart],
    /// The values of the options, one after the other.
    pub values: &'a [u8],
    pub payload: &'a [u8],
}
