use crate::kind::Kind;

/// What stands in front of the options (RFC 7252, section 3).
#[derive(Clone, Copy)]
pub(crate) struct Head<'a> {
    pub kind: Kind,
    pub code: u8,
    pub id: u16,
    pub token: &'a [u8],
}
