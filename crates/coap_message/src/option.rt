/// An option of a message that was decoded.
#[derive(Clone, Copy)]
pub struct OptionRow<'a> {
    pub number: u16,
    pub value: &'a [u8],
}
