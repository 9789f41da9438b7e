//! The major types of items.

ghost use Rattle.std.specs.Prelude.{◌≡◌, ◌<◌};
ghost use Rattle.cbor_profile.specs.Parts.{number_of};

/// The major type of an item (RFC 8949, section 3.1).
#[derive(Clone, Copy)]
pub enum Major {
    Unsigned,
    Negative,
    Bytes,
    Text,
    Array,
    Map,
    Tag,
    Simple,
}

impl Major {
    pub fn number(self) -> u8
        ensures value { result ≡ number_of self }
        ensures below { result < 8 }
    {
        match self {
            Major::Unsigned => 0,
            Major::Negative => 1,
            Major::Bytes => 2,
            Major::Text => 3,
            Major::Array => 4,
            Major::Map => 5,
            Major::Tag => 6,
            Major::Simple => 7,
        }
    }
}
