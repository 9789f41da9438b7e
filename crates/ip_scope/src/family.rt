ghost use Rattle.std.specs.Prelude.{◌≡◌};
ghost use Rattle.ip_scope.specs.Family.{width, same_family};

/// The family of an address.
#[derive(Clone, Copy)]
pub enum Family {
    V4,
    V6,
}

impl Family {
    /// How many bits an address has: 32 or 128.
    pub fn width(self) -> u8
        ensures { result ≡ width self }
    {
        match self {
            Family::V4 => 32,
            Family::V6 => 128,
        }
    }

    /// Whether the families are equal.
    pub fn is_same(self, other: Family) -> bool
        ensures { result ≡ same_family self other }
    {
        match (self, other) {
            (Family::V4, Family::V4) => true,
            (Family::V4, Family::V6) => false,
            (Family::V6, Family::V4) => false,
            (Family::V6, Family::V6) => true,
        }
    }
}
